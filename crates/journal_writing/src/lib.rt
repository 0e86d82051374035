//! What a server that keeps a journal does without its threads: it looks at the steps from a place on, and at the base of
//! the last roll, writes a line for each step (`step_lines`), begins a further file with the base (`base_lines`), and names
//! files by the time. The layer above may rely on it that what is seen is of all steps that were ever taken (`all_seen`),
//! that all steps before a base led to it (`base_seen`), that what is handed to a writer is the line of each step in order
//! (`write_steps`), or the head of a file and the lines of a base (`write_beginning`), that heads are read again
//! (`heads_are_read_again`), and that the lines of a legal history replay as recorded (`what_is_written_replays`). The lock
//! is held for 512 steps at most, some 20 µs: the events aren't copied, the history and what is seen share them. A base is
//! copied, which takes some 10 ms with 16,384 LSPs. A file that exists is never opened, and the name of a further file
//! comes after that of the file before it (`name_after`).
//!
//! - `look`: the steps from a place on (`specs/Steps.antt`)
//! - `base`: the base of the last roll (`specs/Bases.antt`)
//! - `fault`: why a journal isn't written on
//! - `texts`: the text of steps (`specs/Texts.antt`)
//! - `head`: the head of a file (`specs/Heads.antt`)
//! - `beginning`: what a further file begins with (`specs/Bases.antt`)
//! - `moment`: moments in lines and names
//! - `folder`: files
//!
//! ```text
//! match shared.look_at(rt, seat, &StepsLook { from: next })? {
//!     SeenSteps::Steps(steps) => write_steps(alloc, &mut file, next, &steps)?,
//!     SeenSteps::Rolled => return Err(JournalFault::Behind),
//! }
//! ```
#![tactic(auto)]

mod base;
mod beginning;
mod fault;
mod folder;
mod head;
mod laws;
mod look;
mod moment;
mod texts;

pub use base::{BaseLook, SeenBase, rolled_base};
pub use beginning::write_beginning;
pub use fault::JournalFault;
pub use folder::{JournalFolder, has_mark};
pub use laws::{all_seen, base_seen, heads_are_read_again, what_is_written_replays};
pub use look::{MOST_SEEN, SeenSteps, StepsLook};
pub use moment::{moment_line, moment_name, name_after};
pub use texts::{write_line, write_steps};
