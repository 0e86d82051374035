//! CSPF on a snapshot, for operators: nothing is booked. `path_on` returns a path of least cost, or what prevents one:
//! the first of bandwidth, colours and bounds whose removal gives a path, or all of them together (`specs/Paths.antt`).
//! `full_links` names the links of that path that are too full, and the priority at which each is; `tightest` names the
//! link of a path on which least is left. `cheaper_path` finds a path that costs less than the paths that an LSP has
//! (`specs/Cheaper.antt`). `moves_without` says where LSPs would go if a link went away (`specs/Moves.antt`).
//!
//! ```text
//! fn cost_of(alloc: Global, snapshot: &Snapshot, wanted: &Constraints) -> Result<Option<u64>, AllocError> {
//!     match path_on(alloc, snapshot, wanted)? {
//!         PathAnswer::Path(found) => Ok(Some(found.cost)),
//!         _ => Ok(None),
//!     }
//! }
//! ```
#![tactic(auto)]

mod answer;
mod cheaper;
mod full;
mod link_room;
mod moves;

pub use answer::{Obstacle, PathAnswer, path_on};
pub use cheaper::{Cheaper, cheaper_path};
pub use full::{FullLink, full_links};
pub use link_room::{LinkRoom, tightest};
pub use moves::{Move, Mover, moves_without};
pub use path_finder::Found;
