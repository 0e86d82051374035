//! Links that get other values (metrics, colours, reservable bandwidth) while there are paths. `reload` sets them in
//! the TED and in the book of bandwidth, and counts the reload. Several entries for one link are taken in order, so the
//! last one counts. A list that names a link that doesn't exist is refused, and changes nothing. Allocates nothing.
//!
//! The layer above may rely on these facts. The refusal and the values are the definitions' in `specs/Reloads.antt`.
//! The book stays the network's and stands for the paths for which it stood. The count of changes is one greater after
//! each reload that isn't refused, an empty one too. So a search that began before a reload and finds no path doesn't
//! decide.
//!
//! ```text
//! match reload(&mut te, &mut book, &entries, &mut changes) {
//!     Ok(()) => Reply::Done,
//!     Err(why) => Reply::Refused(why),
//! }
//! ```
#![tactic(auto)]

mod entry;
mod reloading;

pub use entry::LinkReload;
pub use reloading::reload;
