//! The thread that writes the journal of a run: each step of the one history behind the lock, in its order, as a line
//! (`journal_writing`), with a line of the time in front of those of each second. It has a seat, since it is the one that rolls the
//! history once that is due: a roll gives it the steps that it hasn't written yet, so that none is lost. Other threads roll only if
//! the journal has all steps, or the history takes twice what it may. If the file takes no more, or steps were rolled before they
//! were written, the journal is gone, and the run goes on without it.
//!
//! After such a roll another file begins if this one is full. It begins with what was known at the roll, so that it replays
//! without the files before it. A fault in between leaves the file there, with a part of that and no step.
//!
//! - `steps`: what is handed to the writer (`specs/Writes.antt`, `specs/Bases.antt`)
//! - `keeper`: the thread
#![tactic(auto)]

mod keeper;
mod steps;

pub use keeper::{JournalPlace, keep_journal};
