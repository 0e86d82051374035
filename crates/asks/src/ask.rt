//! What an operator asks for.
use lsp_words::{Colours, MetricType, Plsp};
use pcep_word::{Bandwidth, Ipv4, Priorities};

/// A page, of one peer or of all, from a place on.
#[derive(Clone, Copy, Debug, PartialEq, Eq)]
pub struct PeerPage {
    pub peer: Option<u32>,
    pub from: u64,
}

/// An LSP by its peer and its PLSP-ID.
#[derive(Clone, Copy, Debug, PartialEq, Eq)]
pub struct LspId {
    pub peer: u32,
    pub plsp: Plsp,
}

/// Which metric of a path is to be least, what it may cost, and which links it may take.
#[derive(Clone, Copy, Debug, PartialEq, Eq)]
pub struct PathLimits {
    pub minimise: MetricType,
    /// The most that the path may cost by that metric.
    pub max_cost: Option<u64>,
    /// The most links that it may have.
    pub max_hops: Option<u64>,
    pub colours: Colours,
}

/// What is asked of a path: its ends, its bandwidth, its priorities and its limits.
#[derive(Clone, Copy, Debug, PartialEq, Eq)]
pub struct PathWanted {
    pub from: Ipv4,
    pub to: Ipv4,
    pub bandwidth: Bandwidth,
    pub priorities: Priorities,
    pub limits: PathLimits,
}

/// A question. Each has the name of its line, and one look answers it.
#[derive(Clone, Copy, Debug, PartialEq, Eq)]
pub enum Ask {
    /// How much there is of what.
    Status,
    /// The nodes, the links and what is left of each.
    Links,
    /// The line of one link among those of all.
    LinkLine(u64),
    /// A link with the paths over it.
    Link(u64),
    /// The peers with their sessions.
    Peers,
    /// The tickets that stand.
    Tickets,
    /// A page of LSPs, from the record at its place on.
    Lsps(PeerPage),
    /// One LSP.
    Lsp(LspId),
    /// The last steps of the kept history: so many at most.
    History(u64),
    /// By which kept steps the paths of an LSP came.
    Why(LspId),
    /// A page of delegated LSPs for which a cheaper path is admissible, from the record at its place on.
    Better(PeerPage),
    /// What would move if a link went away.
    Without(u64),
    /// A page of the grants that stand and the deletions that are awaited, from the path and the record at its place on.
    Grants(PeerPage),
    /// A path that nobody asks the network for: nothing is booked.
    Path(PathWanted),
    /// A page of the tunnels of LSPs, from the record at its place on.
    Tunnels(PeerPage),
}
