//! The replay of a journal: each line of a step is read, its event is applied by `Database::apply`, and its reply is compared
//! with the recorded one. The layer above may rely on it that all lines are as recorded exactly if the history that they
//! record is legal from what was known before them, and that what is known then is the state to which it leads
//! (`as_recorded_is_legal`). Events have no code of their own here.
//!
//! A replay begins with a network of which nothing was reported, or at a base (`begin_at`). A file that others come before
//! has to have the base of what was replayed until there, byte for byte (`ExpectedBase`). Replayed alone, such a file begins
//! with what the files before it lead to (`a_base_goes_on`).
//!
//! - `taken`: what became of a line
//! - `replay`: what is known, line by line (`specs/Replays.antt`), and how many steps are kept (`specs/Kept.antt`)
//! - `start`: where a replay begins that has a base (`specs/Bases.antt`)
//! - `expected`: the base that a file has to have that others come before
//!
//! ```text
//! let mut database = Database::new(alloc, te)?;
//! let mut bytes = 0; // which the kept steps take
//! for line in lines {
//!     let taken = replay_line(alloc, &mut database, &mut bytes, line)?;
//!     // a step that differs, or a bad line, ends the replay
//! }
//! ```
#![tactic(auto)]

mod expected;
mod laws;
mod replay;
mod start;
mod taken;

pub use expected::ExpectedBase;
pub use laws::{a_base_goes_on, as_recorded_is_legal, expected_lines_are_the_text};
pub use replay::replay_line;
pub use start::begin_at;
pub use taken::Taken;
