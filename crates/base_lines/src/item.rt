//! What one line says of a base.
use commit_core::Ticket;
use lsp_base::{Path, Record};
use pcep_messages::Message;
use step_core::{AwaitedName, Peer};
use te_base::LinkValues;

/// The counts of a base, and the numbers that were given last.
#[derive(Clone, Copy, Debug, PartialEq, Eq)]
pub struct Counts {
    pub steps: u64,
    pub grants: u64,
    pub changes: u64,
    pub last_session: u64,
    pub last_ticket: u64,
}

/// What one line says of a base.
#[derive(Debug, Drop)]
pub enum Item {
    Counts(Counts),
    /// The values of the next link.
    Value(LinkValues),
    /// A peer for which nothing waits so far.
    Peer(Peer),
    /// A message that waits for the last peer.
    Waits(Message),
    Path(Path),
    Record(Record),
    Name(AwaitedName),
    Ticket(Ticket),
    End,
}
