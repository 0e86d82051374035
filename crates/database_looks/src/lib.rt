//! Looks at a database. A look borrows it, so it takes no step and changes nothing, and copies out what it sees. Texts
//! and searches are made from that with the lock free. A ghost member of `Look` says what is seen in which content
//! (`specs/Looks.antt`). Here are the looks that the server takes by itself, and what several questions see; each
//! question of an operator is a look of its own (`pce_view`).
//!
//! ```text
//! fn left_of(alloc: Global, database: &Database) -> Result<Vec<[i64; 8]>, AllocError>
//!     ensures { IfOk result (λ left. left.items ≡ all_left database.now.state.te.links database.now.state.base.paths) }
//! {
//!     LeftLook.see(alloc, database)
//! }
//! ```
#![tactic(auto)]

mod book;
mod counts;
mod left;
mod look;
mod lsps;
mod moves;
mod nodes;
mod numbers;
mod peers;
mod steps;
mod upkeep;

pub use book::{see_book, snapshot_of};
pub use counts::{CountsLook, see_counts};
pub use left::LeftLook;
pub use look::Look;
pub use lsps::{page_at, see_link};
pub use moves::{own_of_each, with_own};
pub use nodes::nodes_of;
pub use numbers::NumbersLook;
pub use steps::kind_of;
pub use upkeep::{SeenGrant, UpkeepLook, UpkeepPage};
