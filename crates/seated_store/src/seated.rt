//! A seat of a shared database as the store of a session.
ghost use Rattle.std.specs.Prelude.{◌≡◌, [], true, IfOk};
ghost use Rattle.step_core.specs.States.{is_queued};
ghost use Rattle.te_snapshot.specs.Left.{all_left};
ghost use Rattle.history_seats.specs.Past.{database_at};
ghost use Rattle.seated_store.specs.Seating.{SeatedMoves};

use engine_core::{Call, ServerStore, Store};
use history_seats::{Brands, Receipt, receipt_bytes};
use pcep_messages::Message;
use pcep_objects::Open;
use sequence::PlainData;
use shared_pce::{Event, Fault, Look, Seat, Shared, SharedEvent};
use std::alloc::{AllocError, Global};
use std::sync::Wait;

/// A seat of a shared database, with the calls that were made with it.
#[derive(Drop)]
pub struct Seated<'a, R: Wait, B: Brands> {
    rt: &'a R,
    shared: &'a Shared<B>,
    seat: &'a mut Seat<B>,
    calls: Vec<Call>,
    /// How many bytes the steps take whose receipts the seat has.
    bytes: u64,
}

/// Makes an event that is kept twice and is in memory once.
fn shared_twice(alloc: Global, event: Event) -> Result<(SharedEvent, SharedEvent), AllocError>
    ensures { IfOk result (λ both. (both.0 ≡ event) × (both.1 ≡ event)) }
{
    let first = SharedEvent::new(alloc, event)?;
    match first.copy() {
        Ok(second) => Ok((first, second)),
        Err(error) => {
            drop(first);
            Err(error)
        }
    }
}

/// Adds the bytes of the newest step to those before it. A seat that has no other receipt has dropped the earlier ones.
fn with_newest(before: u64, receipts: &[Receipt]) -> u64 {
    let newest = receipts.len().saturating_sub(1);
    let before = if newest == 0 { 0 } else { before };
    before.saturating_add(receipt_bytes(&receipts[newest..]))
}

impl<'a, R: Wait, B: Brands> Seated<'a, R, B> {
    /// Makes the store of a seat, with no calls yet. Allocates nothing.
    pub fn new(
        rt: &'a R,
        alloc: Global,
        shared: &'a Shared<B>,
        seat: &'a mut Seat<B>,
    ) -> Seated<'a, R, B>
        ensures same_loan { result.seat.ghost_name ≡ seat.entry.ghost_name }
        ensures seat { result.seat.now ≡ seat.old }
        ensures calls { result.calls.items ≡ [] }
    {
        Seated {
            rt,
            shared,
            seat,
            calls: Vec::new(alloc),
            bytes: 0,
        }
    }

    /// Tests whether messages wait to be sent to the peer, in what the seat has seen by then.
    pub fn queued(&mut self, peer: u32) -> bool
        ensures queued { result ≡ is_queued (database_at B.text self.new.seat.now.seen).state peer }
        ensures same { SeatedMoves B.text self.old.seat self.old.calls.items [] self.new.seat self.new.calls.items }
    {
        self.shared.queued_at(self.rt, self.seat, peer)
    }

    /// Lists what is left of every link at each of the eight priorities, in bytes per second, by the number of the
    /// link, in what the seat has seen by then.
    pub fn left(&mut self) -> Result<Vec<[i64; 8]>, AllocError>
        ensures left { IfOk result (λ table. let d = database_at B.text self.new.seat.now.seen in table.items ≡ all_left d.state.te.links d.state.base.paths) }
        ensures same { SeatedMoves B.text self.old.seat self.old.calls.items [] self.new.seat self.new.calls.items }
    {
        self.shared.left_at(self.rt, self.seat)
    }

    /// Runs a query on the database, and shows the seat what has happened until then. Makes no call.
    pub fn look<L: Look>(&mut self, look: &L) -> Result<L::Seen, AllocError>
        ensures sees { IfOk result (L.sees look.now (database_at B.text self.new.seat.now.seen)) }
        ensures same { SeatedMoves B.text self.old.seat self.old.calls.items [] self.new.seat self.new.calls.items }
    {
        self.shared.look_at(self.rt, self.seat, look)
    }
}

impl<'a, R: Wait, B: Brands> Store for Seated<'a, R, B> {
    ghost use Rattle.seated_store.specs.Seating.{SeatedMoves, SeatedRolls, SameSeat, WasFull};
    ghost use Rattle.seated_store.specs.SeatingLaws.{moves_nowhere, moves_on};

    ghost calls = { λ s. s.calls.items };

    ghost moves = { λ old made new. SeatedMoves B.text old.seat old.calls.items made new.seat new.calls.items };

    ghost same_but_calls = { λ old new. SameSeat B.text old.seat new.seat };

    ghost is_full = { λ s. WasFull B.text s.seat };

    ghost rolls = { λ old steps new. SeatedRolls B.text old.seat old.calls.items steps new.seat new.calls.items };

    ghost moves_nowhere = { λ s. moves_nowhere B.text s.seat s.calls.items };

    ghost moves_on = { λ a b c first second h k. moves_on B.text a.seat b.seat c.seat a.calls.items b.calls.items c.calls.items first second h k };

    ghost moves_add = { λ a b made h. h.added };

    /// Takes one step under the lock. Makes room for the call first. The event is in memory once.
    fn submit(&mut self, event: Event) -> Result<(), Fault> {
        self.calls.reserve(1)?;
        let (event, kept) = shared_twice(*self.calls.allocator(), event)?;
        match self.shared.submit_shared(self.rt, self.seat, kept) {
            Ok(reply) => {
                self.calls.push_reserved(Call { event, reply });
                self.bytes = with_newest(self.bytes, self.seat.receipts());
                Ok(())
            }
            Err(fault) => {
                drop(event);
                Err(fault)
            }
        }
    }

    fn show_open(&mut self, _peer_open: Open) {}

    fn show_message(&mut self, _message: &Message) {}

    fn calls(&self) -> &[Call] {
        self.calls.as_slice()
    }

    /// Empties the list. If it is empty already, nothing was done since, and the seat drops its receipts of rolled
    /// places. If its steps take as much memory as those of one seat may, the history is rolled first.
    fn forget(&mut self) {
        if self.bytes >= self.shared.share_of_seat() {
            self.bytes = 0;
            self.shared.roll_and_fold(self.rt, self.seat);
        } else if self.calls.is_empty() && !self.seat.receipts().is_empty() {
            self.shared.fold(self.rt, self.seat);
        }
        self.calls.clear();
    }

    fn roll(&mut self) -> Result<u64, AllocError> {
        self.shared.roll(self.rt, self.seat)
    }
}

impl<'a, R: Wait, B: Brands> ServerStore for Seated<'a, R, B> {
    ghost use Rattle.std.specs.Prelude.{◌≡◌};
    ghost use Rattle.history_seats.specs.Past.{database_at};
    ghost use Rattle.step_core.specs.States.{is_queued};
    ghost use Rattle.te_snapshot.specs.Left.{all_left};

    ghost queues = { λ s peer waits. waits ≡ is_queued (database_at B.text s.seat.now.seen).state peer };

    ghost is_left = { λ s table. let d = database_at B.text s.seat.now.seen in table ≡ all_left d.state.te.links d.state.base.paths };

    fn roll_if_full(&mut self) -> Result<Option<u64>, AllocError> {
        self.shared.roll_if_full(self.rt, self.seat)
    }

    fn queued(&mut self, peer: u32) -> bool {
        Seated::queued(self, peer)
    }

    fn left(&mut self) -> Result<Vec<[i64; 8]>, AllocError> {
        Seated::left(self)
    }
}
