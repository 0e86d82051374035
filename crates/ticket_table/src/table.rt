//! Tickets, in the order in which they were asked for.
ghost use Rattle.std.specs.Prelude.{◌≡◌, ◌<◌, ◌≤◌, ◌+◌, ◌++◌, ◌∷◌, [], All, true, length, OnOk, OnErr, IfOk, IfSome, option_copied};
ghost use Rattle.ticket_table.specs.Tickets.{AreRising, first_waiting, ticket_at, is_update_of, is_update_asked, is_initiation_of, is_name_asked, take_first, put_back, without_ticket, has_tries_left, is_waiting};

use crate::standing::StandingTicket;
use commit_core::{Purpose, Ticket};
use indexmap::IndexMap;
use lsp_base::is_same_name;
use lsp_words::Plsp;
use sequence::PlainData;
use std::alloc::{AllocError, Global};
use std::marker::Model;

/// The greatest number of tickets at a time.
pub const TICKET_LIMIT: usize = 1024;

/// The tickets, in the order of their numbers, and the last number that was given or skipped. None was taken more than
/// four times, and a waiting one fewer times.
#[derive(Drop)]
pub struct TicketTable {
    map: IndexMap<u64, StandingTicket>,
    last: u64,
}

impl Model for TicketTable {
    ghost use Rattle.indexmap.specs.IndexMap.{values};
    ghost use Rattle.ticket_table.specs.Tickets.{IsKept, TicketTable as Table};

    ghost Value = { Table };

    ghost view = { λ t. record { tickets = values t.map; last = t.last } };

    ghost invariant = { λ t. IsKept t.last t.map.entries };
}

fn is_update_of(plsp: Plsp, purpose: &Purpose) -> bool
    ensures { result ≡ is_update_of plsp purpose.now }
{
    match purpose {
        Purpose::Update { plsp: updated } => *updated == plsp,
        Purpose::Initiate { .. } | Purpose::Answer { .. } => false,
    }
}

fn is_initiation_of(name: &[u8], purpose: &Purpose) -> bool
    ensures { result ≡ is_initiation_of name.now purpose.now }
{
    match purpose {
        Purpose::Initiate { name: asked, .. } => is_same_name(asked.as_slice(), name),
        Purpose::Update { .. } | Purpose::Answer { .. } => false,
    }
}

/// Tests whether one of the tickets asks for an update of the LSP.
fn is_any_update(tickets: &[StandingTicket], peer: u32, plsp: Plsp) -> bool
    ensures { result ≡ is_update_asked tickets.now peer plsp }
{
    tickets.iter().any(|standing| standing.peer() == peer
        && is_update_of(plsp, &standing.ticket().purpose))
}

/// Tests whether one of the tickets asks for an LSP of this name.
fn is_any_initiation(tickets: &[StandingTicket], peer: u32, name: &[u8]) -> bool
    ensures { result ≡ is_name_asked tickets.now peer name.now }
{
    tickets.iter().any(|standing| standing.peer() == peer
        && is_initiation_of(name, &standing.ticket().purpose))
}

impl TicketTable {
    /// Makes a table of no tickets. Allocates nothing.
    pub fn new(alloc: Global) -> TicketTable
        ensures { result ≡ record { tickets = []; last = 0 } }
    {
        TicketTable {
            map: IndexMap::new(alloc),
            last: 0,
        }
    }

    /// Counts the tickets.
    pub fn len(&self) -> usize
        ensures { result ≡ length self.now.tickets }
    {
        self.map.len()
    }

    /// Copies the tickets, in the order of their numbers.
    pub fn copies(&self, alloc: Global) -> Result<Vec<Ticket>, AllocError>
        ensures tickets { IfOk result (λ copies. copies.items ≡ self.now.tickets) }
        ensures rising { AreRising self.now.tickets }
    {
        let mut copies = Vec::with_capacity(alloc, self.map.len())?;
        for standing in self.map.values() {
            copies.push(standing.ticket().copy()?)?;
        }
        Ok(copies)
    }

    /// Returns the last number that was given or skipped, or 0 if there was none.
    pub fn last(&self) -> u64
        ensures { result ≡ self.now.last }
    {
        self.last
    }

    /// Adds a ticket at the end. Its number is above the last one.
    pub fn push(&mut self, ticket: Ticket) -> Result<(), AllocError>
        requires number { self.old.last < ticket.id }
        requires tries { has_tries_left ticket ≡ true }
        ensures added { OnOk result (self.new ≡ record { tickets = self.old.tickets ++ ticket ∷ []; last = ticket.id }) }
        ensures unchanged { OnErr result (self.new ≡ self.old) }
    {
        let id = ticket.id;
        let standing = StandingTicket::new(*self.map.allocator(), ticket)?;
        self.map.insert(id, standing)?;
        self.last = id;
        Ok(())
    }

    /// Skips the numbers up to this one. Each later ticket has a number above it.
    pub fn skip_to(&mut self, last: u64)
        requires { self.old.last ≤ last }
        ensures { self.new ≡ record self.old { last = last } }
    {
        self.last = last;
    }

    /// Finds the ticket of the number.
    pub fn find(&self, id: u64) -> Option<&Ticket>
        ensures { option_copied result ≡ ticket_at self.now.tickets id }
    {
        match self.map.get(&id) {
            Some(standing) => Some(standing.ticket()),
            None => None,
        }
    }

    /// Finds the waiting ticket with the least number. It was taken fewer than four times.
    pub fn first_waiting(&self) -> Option<&Ticket>
        ensures first { option_copied result ≡ first_waiting self.now.tickets }
        ensures tries { IfSome result (λ t. t.now.tries < 4) }
        ensures least { IfSome result (λ t. All (λ u. is_waiting u ≡ true → t.now.id ≤ u.id) self.now.tickets) }
    {
        for standing in self.map.values() {
            if !standing.ticket().taken {
                return Some(standing.ticket());
            }
        }
        None
    }

    /// Takes the first waiting ticket, to search for it. `changes` is how often paths came or went, or links were
    /// reloaded, so far.
    pub fn take_first(&mut self, changes: u64)
        ensures { self.new ≡ record self.old { tickets = take_first self.old.tickets changes } }
    {
        let Some(waiting) = self.first_waiting() else {
            return;
        };
        let (id, tries) = (waiting.id, waiting.tries + 1);
        if let Some(standing) = self.map.get_mut(&id) {
            standing.begin_search(tries, changes);
        }
    }

    /// Lets the ticket of the number wait again. It has tries left.
    pub fn put_back(&mut self, id: u64)
        requires { IfSome (ticket_at self.old.tickets id) (λ t. t.tries < 4) }
        ensures { self.new ≡ record self.old { tickets = put_back self.old.tickets id } }
    {
        if let Some(standing) = self.map.get_mut(&id) {
            standing.wait_again();
        }
    }

    /// Ends the ticket of the number.
    pub fn end(&mut self, id: u64)
        ensures { self.new ≡ record self.old { tickets = without_ticket self.old.tickets id } }
    {
        self.map.shift_remove(&id);
    }

    /// Tests whether a ticket asks for an update of the LSP.
    pub fn is_update_asked(&self, peer: u32, plsp: Plsp) -> bool
        ensures { result ≡ is_update_asked self.now.tickets peer plsp }
    {
        is_any_update(self.map.values().as_slice(), peer, plsp)
    }

    /// Tests whether a ticket asks for an LSP of this name.
    pub fn is_name_asked(&self, peer: u32, name: &[u8]) -> bool
        ensures { result ≡ is_name_asked self.now.tickets peer name.now }
    {
        is_any_initiation(self.map.values().as_slice(), peer, name)
    }
}
