//! What paths could be elsewhere.
use crate::lsps::{KnownLsp, LspPage};
use te_snapshot::{OwnShares, Snapshot};

/// The greatest number of LSPs over a link that are tried elsewhere.
pub const TRIED_LIMIT: usize = 512;

/// LSPs of one moment, what the tunnel of each holds, and what a path search reads.
#[derive(Drop)]
pub struct RerouteInput {
    pub snapshot: Snapshot,
    pub page: LspPage,
    /// What the tunnel of each LSP of the page holds, in their order.
    pub own: Vec<OwnShares>,
}

/// The LSPs over a link, what the tunnel of each holds, and what a path search reads.
#[derive(Drop)]
pub struct OutageInput {
    pub snapshot: Snapshot,
    /// The LSPs, at most 512, in the order of their paths.
    pub lsps: Vec<KnownLsp>,
    pub own: Vec<OwnShares>,
    /// The place of the path from which on others may go over the link too; `None` if none follows.
    pub rest: Option<u64>,
}
