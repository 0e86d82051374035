//! `pced replay`: the files of a journal, read line by line, replayed step by step (`journal_replay`), and what is shown of what was
//! known at a step. Whether the lines stand where they may is `journal_files`' to say, and what becomes of a step
//! `journal_replay`'s: nothing here has code of its own for events.
//!
//! - `lines`: the lines of a file, in bounded memory
//! - `until`: up to which step is replayed (`specs/Until.antt`)
//! - `said`: what routers said in their reports beside what the state keeps (`path_sayings`)
//! - `base`: the base of the file that is read (`specs/Bases.antt`)
//! - `run`: what is known, line by line (`specs/Runs.antt`)
//! - `ends`: how a replay ends, in words and as an exit status (`specs/Ends.antt`)
//! - `shown`: lines that show something
//! - `compared`: which links and LSPs differ
//! - `replay`: the command
#![tactic(auto)]

mod base;
mod compared;
mod ends;
mod lines;
mod replay;
mod run;
mod said;
mod shown;
mod until;

pub use replay::replay_journal;
