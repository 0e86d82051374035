//! What becomes of a ticket, and what decides that besides the LSPs.

/// What is known of a ticket's peer, and of the whole state, at a commit.
#[derive(Clone, Copy, Debug, PartialEq, Eq)]
pub struct PeerView {
    /// The number of the peer's session.
    pub session: u64,
    /// The session is up.
    pub up: bool,
    /// The peer has not yet reported all of its LSPs (RFC 8231 section 5.6).
    pub syncing: bool,
    /// How often paths came or went so far, of all peers, or links were reloaded.
    pub changes: u64,
    /// A grant or a removal of the peer still uses the SRP-ID that comes next.
    pub srp_in_use: bool,
}

/// What becomes of a ticket.
#[derive(Clone, Copy, Debug, PartialEq, Eq)]
pub enum Verdict {
    /// The offer is granted.
    Grant,
    /// The offer answers a request.
    Answer,
    /// It is to be searched for again.
    Again,
    /// There is no path.
    NoPath,
    /// It was searched for four times in vain, or a grant can't be kept.
    GivenUp,
    /// Nobody waits for it any more.
    Gone,
}
