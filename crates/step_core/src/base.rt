//! What was known at one moment, in plain lists.
ghost use Rattle.std.specs.Prelude.{◌≡◌, IfOk};

use crate::names::AwaitedName;
use crate::peer::Peer;
use commit_core::Ticket;
use lsp_base::{Path, Record};
use sequence::{PlainData, Sequence};
use std::alloc::{AllocError, Global};
use te_base::LinkValues;

/// What was known at one moment, except nodes and the ends of links, which stay: a state without the tables by which it
/// finds things.
#[derive(Debug, Drop)]
pub struct Base {
    /// The values of all links, in the order of their numbers.
    pub values: Sequence<LinkValues>,
    pub paths: Sequence<Path>,
    pub records: Sequence<Record>,
    /// The names of granted initiations that no report has named yet.
    pub names: Sequence<AwaitedName>,
    pub peers: Sequence<Peer>,
    /// In the order in which they were asked for.
    pub tickets: Sequence<Ticket>,
    /// How many events dropped or added a path, or reloaded links.
    pub changes: u64,
    /// The number of the last session, over all peers.
    pub last_session: u64,
    /// The number of the last ticket.
    pub last_ticket: u64,
}

/// Copies each element, in order.
pub(crate) fn copies<T: PlainData>(alloc: Global, items: &[T]) -> Result<Sequence<T>, AllocError>
    ensures { IfOk result (λ copies. copies ≡ items.now) }
{
    let mut copies = Vec::with_capacity(alloc, items.len())?;
    for item in items {
        copies.push(item.copy()?)?;
    }
    Ok(Sequence::from_vec(copies))
}
