//! The files of a journal in order: what each line is, by the lines before it. The files of a run replay together, from any
//! one of them on. A file has a line that names the run and the place of the file's first step, the link text, a
//! line `---`, and then lines of steps, with a line of the time before the steps of each second in which something happened:
//!
//! ```text
//! journal 1 20261129T013000Z 0
//! [[node]]
//! name = "A"
//! id = "10.0.0.1"
//! ---
//! at 2026-11-29T01:30:00Z
//! 0 up 10.0.0.1 update initiate = done
//! 1 marker 10.0.0.1 = done
//! ```
//!
//! A file whose first step isn't the run's first has a base between the line `---` and its steps: lines of what was known
//! there, and a line `end`:
//!
//! ```text
//! journal 1 20261129T013000Z 2
//! [[node]]
//! name = "A"
//! id = "10.0.0.1"
//! ---
//! base 2 0 0 1 0
//! peer 10.0.0.1 up 1 update initiate synced 0
//! end
//! 2 drain 10.0.0.1 = out 0
//! ```
//!
//! The layer above may rely on it that no line is bad exactly if the files are of one run, each begins where the one before
//! it ended, a base comes before its steps unless they are those of the run's start, its steps have one place after the
//! other, and no moment is before an earlier one (`files_are_in_order`); that a line which is bad changes nothing; and that
//! it keeps the run's name and the last moment, and nothing else of the lines. What a line of a base says isn't looked at
//! here, and of a line of a step only its place.
//!
//! - `head`: the first line of a file (`specs/Heads.antt`)
//! - `moments`: lines with the time (`specs/Moments.antt`)
//! - `order`: line by line (`specs/Order.antt`)
#![tactic(auto)]

mod head;
mod laws;
mod moments;
mod order;

pub use laws::files_are_in_order;
pub use moments::{is_moment, not_before};
pub use order::{Kind, Order, Part};
