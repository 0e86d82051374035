//! Why an event is refused.
ghost use Rattle.std.specs.Prelude.{◌≡◌, ◌≤◌};
ghost use Rattle.lsp_base.specs.Whys.{number_of};

/// Which ends of a path no node owns.
#[derive(Clone, Copy, Debug, PartialEq, Eq)]
pub enum Ends {
    Source,
    Destination,
    Both,
}

/// Why an event is refused. A refused event changes nothing.
#[derive(Clone, Copy, Debug, PartialEq, Eq)]
pub enum Why {
    UnknownPeer,
    PeerUp,
    PeerDown,
    UnknownLsp,
    NotDelegated,
    /// A grant, a ticket or a removal of the LSP is awaited.
    Pending,
    /// The peer takes no updates.
    NoUpdate,
    /// The peer takes no initiations.
    NoInitiate,
    NotCreatedHere,
    /// There are 1,024 tickets.
    TooManyTickets,
    /// There would be more than 16,384 paths.
    TooManyPaths,
    /// 64 peers are known.
    TooManyPeers,
    UnknownNode(Ends),
    UnknownTicket,
    NotTaken,
    NameInUse,
    SrpInUse,
    Syncing,
    /// The PLSP-ID is reserved (RFC 8231 section 7.3).
    BadReport,
    UnknownLink,
}

impl Why {
    /// Returns the number of the refusal, from 1 to 20 in the order of the variants.
    pub fn number(self) -> u8
        ensures number { result ≡ number_of self }
        ensures last { result ≤ 20 }
    {
        match self {
            Why::UnknownPeer => 1,
            Why::PeerUp => 2,
            Why::PeerDown => 3,
            Why::UnknownLsp => 4,
            Why::NotDelegated => 5,
            Why::Pending => 6,
            Why::NoUpdate => 7,
            Why::NoInitiate => 8,
            Why::NotCreatedHere => 9,
            Why::TooManyTickets => 10,
            Why::TooManyPaths => 11,
            Why::TooManyPeers => 12,
            Why::UnknownNode(_) => 13,
            Why::UnknownTicket => 14,
            Why::NotTaken => 15,
            Why::NameInUse => 16,
            Why::SrpInUse => 17,
            Why::Syncing => 18,
            Why::BadReport => 19,
            Why::UnknownLink => 20,
        }
    }
}
