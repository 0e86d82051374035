//! What a search is given.
use lsp_base::Constraints;
use te_base::NodeNumber;
use te_snapshot::{OwnShare, Table, Topology};

/// What is asked, and of which network.
#[derive(Clone, Copy)]
pub(crate) struct Query<'a> {
    pub topology: &'a Topology,
    /// What is unreserved on each link, by priority.
    pub unreserved: &'a Table,
    pub constraints: &'a Constraints,
    pub own: &'a [OwnShare],
}

/// Between which nodes, and the least cost that is too much.
#[derive(Clone, Copy)]
pub(crate) struct Ends {
    pub source: NodeNumber,
    pub destination: NodeNumber,
    pub limit: u32,
}
