//! Routers with their sessions.

/// A router that the database knows.
#[derive(Clone, Copy)]
pub struct KnownPeer {
    pub peer: u32,
    pub is_up: bool,
    /// It has not yet reported all of its LSPs (RFC 8231 section 5.6).
    pub is_synchronizing: bool,
    /// The number of its last session.
    pub session: u64,
    /// It takes updates (RFC 8231 section 7.1.1).
    pub may_update: bool,
    /// It takes initiations (RFC 8281 section 4.1).
    pub may_create: bool,
    /// How many messages wait to be sent to it.
    pub waiting_messages: u64,
}

/// The peer of an LSP, and whether the LSP is delegated.
#[derive(Clone, Copy)]
pub struct LspOwner {
    pub peer: u32,
    pub is_delegated: bool,
}

/// Whether the session of a peer is up.
#[derive(Clone, Copy)]
pub struct PeerSession {
    pub peer: u32,
    pub is_up: bool,
}

/// The peers in the order in which they came, and whose each grant is that no report has settled, in the order of the paths.
#[derive(Drop)]
pub struct PeerGrants {
    pub peers: Vec<PeerSession>,
    pub grants: Vec<u32>,
}

/// The peers in the order in which they came, and the owner of each LSP, in the order of the records.
#[derive(Drop)]
pub struct SeenPeers {
    pub peers: Vec<KnownPeer>,
    pub lsps: Vec<LspOwner>,
}
