//! Tests whether a router may ask for one more path, so that others find tickets.
ghost use Rattle.std.specs.Prelude.{◌≡◌};
ghost use Rattle.server_base.specs.Shares.{own_tickets, has_share};

use history_core::Database;
use std::alloc::{AllocError, Global};
use step_core::{TICKET_LIMIT, Ticket};

/// Sees whether the peer has fewer tickets than are free.
#[derive(Clone, Copy)]
pub(crate) struct ShareLook {
    pub peer: u32,
}

impl database_looks::Look for ShareLook {
    ghost use Rattle.std.specs.Prelude.{◌≡◌};
    ghost use Rattle.server_base.specs.Shares.{has_share};

    type Seen = bool;

    ghost sees = { λ look d seen. seen ≡ has_share d.state.tickets look.peer };

    /// Counts the peer's tickets only if half of all stand.
    fn see(&self, alloc: Global, database: &Database) -> Result<bool, AllocError> {
        let state = database.state();
        if state.ticket_count() < TICKET_LIMIT / 2 {
            return Ok(true);
        }
        let tickets = state.copy_tickets(alloc)?;
        Ok(has_share(&tickets, self.peer))
    }
}

/// Counts the peer's tickets.
fn own_tickets(tickets: &[Ticket], peer: u32) -> usize
    ensures { result ≡ own_tickets tickets.now peer }
{
    tickets.iter().filter(|ticket| ticket.peer == peer).count()
}

/// Tests whether the peer has fewer tickets than are free.
fn has_share(tickets: &[Ticket], peer: u32) -> bool
    ensures { result ≡ has_share tickets.now peer }
{
    own_tickets(tickets, peer) < TICKET_LIMIT.saturating_sub(tickets.len())
}
