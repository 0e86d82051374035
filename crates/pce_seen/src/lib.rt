//! What is seen of a database in one look, as plain data, and the walks over the LSP-DB that this needs.
//! `database_looks` and the questions of `pce_view` say what is seen of a database.
//!
//! - `lsps`: LSPs with their paths, and the paths over a link
//! - `grants`: grants that stand and awaited deletions, in pages; `covers`: tests whether a report covers a grant
//!   (`specs/Grants.antt`)
//! - `gaps`, `places`: where the routes of paths have gaps (`specs/Gaps.antt`)
//! - `paging`: pages of a list
//! - `peers`: routers with their sessions; `steps`: kinds of events
//! - `seen`: the network and its counts
//! - `origins`: the steps by which the paths of an LSP came
//! - `moves`: LSPs with what a path search for them reads
//! - `over`: the LSPs over a link
//! - `tunnels`: the tunnels of the paths over a link
//! - `taking`: LSPs taken out of the LSP-DB, in pages (`specs/Lsps.antt`)
//!
//! ```text
//! fn first_page(alloc: Global, lsps: &LspBase) -> Result<LspPage, AllocError> {
//!     page_of(alloc, lsps, 0, None, 0)
//! }
//! ```
#![tactic(auto)]

mod covers;
mod gaps;
mod grants;
mod lsps;
mod moves;
mod origins;
mod over;
mod paging;
mod peers;
mod places;
mod seen;
mod steps;
mod taking;
mod tunnels;

pub use covers::{covered_grants_hold_nothing, has_way, is_covered, is_grant_covered};
pub use gaps::Gap;
pub use grants::{
    Deletion, GrantPage, GrantSpan, KnownGrant, deletions_of, grant_span, is_grant_asked,
};
pub use lsps::{HeldPath, KnownLsp, LinkUse, LspPage, PAGE_LIMIT};
pub use moves::{OutageInput, RerouteInput, TRIED_LIMIT};
pub use origins::{LspOrigins, Origin, TracedPath};
pub use over::lsps_over;
pub use paging::page_from;
pub use peers::{KnownPeer, LspOwner, PeerGrants, PeerSession, SeenPeers};
pub use places::{PlacedLsp, PlacedPage, gaps_of_each, placed};
pub use seen::{Book, Counts, Network, Numbers};
pub use steps::EventKind;
pub use taking::{held_on, lsp_of, page_of, paths_of};
pub use tunnels::tunnels_on;
