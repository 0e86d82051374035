//! A ticket in memory of its own.
ghost use Rattle.std.specs.Prelude.{◌≡◌, true, IfOk};
ghost use Rattle.ticket_table.specs.Tickets.{waiting_again};

use commit_core::Ticket;
use std::alloc::{AllocError, Global};
use std::marker::Model;

/// A ticket in the table, in memory of its own, so that the table moves only its pointer and its peer. A contract sees
/// the ticket.
#[derive(Drop)]
pub struct StandingTicket {
    /// The ticket's peer, kept here so that the tickets of other peers can be passed over unread.
    peer: u32,
    ticket: Box<Ticket>,
}

impl Model for StandingTicket {
    ghost use Rattle.std.specs.Prelude.{◌≡◌};
    ghost use Rattle.commit_core.specs.declared.ticket.Ticket.{Ticket};

    ghost Value = { Ticket };

    ghost view = { λ s. s.ticket.value };

    ghost invariant = { λ s. s.peer ≡ s.ticket.value.peer };
}

impl StandingTicket {
    /// Moves the ticket into memory of its own.
    pub fn new(alloc: Global, ticket: Ticket) -> Result<StandingTicket, AllocError>
        ensures { IfOk result (λ standing. standing ≡ ticket) }
    {
        let peer = ticket.peer;
        Ok(StandingTicket {
            peer,
            ticket: Box::new(alloc, ticket)?,
        })
    }

    /// Returns the peer that it is for.
    pub fn peer(&self) -> u32
        ensures { result ≡ self.now.peer }
    {
        self.peer
    }

    /// Returns the ticket.
    pub fn ticket(&self) -> &Ticket
        ensures { result.now ≡ self.now }
    {
        &self.ticket
    }

    /// Begins a search for the ticket. `tries` is how often it was taken, this time included; `changes` is how often
    /// paths came or went, or links were reloaded, so far.
    pub fn begin_search(&mut self, tries: u32, changes: u64)
        ensures { self.new ≡ record self.old { taken = true; tries = tries; seen = changes } }
    {
        self.ticket.taken = true;
        self.ticket.tries = tries;
        self.ticket.seen = changes;
    }

    /// Lets the ticket wait again.
    pub fn wait_again(&mut self)
        ensures { self.new ≡ waiting_again self.old }
    {
        self.ticket.taken = false;
    }
}
