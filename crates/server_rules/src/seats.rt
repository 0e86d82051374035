//! Which seats rest for any thread, which are promised to one, and which a thread has.
ghost use Rattle.std.specs.Prelude.{◌≡◌, IfOk, length, replicate, set};
ghost use Rattle.server_rules.specs.Seats.{is_free, first_free, promised, released};
ghost use Rattle.server_rules.specs.declared.seats.SeatState.TheVariants.{Free, Taken};

use std::alloc::{AllocError, Global};
use std::marker::Model;

/// Where a seat is.
#[derive(Clone, Copy, PartialEq, Eq, Debug)]
pub enum SeatState {
    /// It rests, for any thread.
    Free,
    /// It rests, for a thread that hasn't fetched it yet.
    Promised,
    /// A thread has it.
    Taken,
}

/// The state of each seat, by its slot. A contract sees the list of them.
#[derive(Drop)]
pub struct SeatStates {
    seats: Vec<SeatState>,
}

impl Model for SeatStates {
    ghost use Rattle.std.specs.Prelude.{List};
    ghost use Rattle.server_rules.specs.declared.seats.SeatState.{SeatState};

    ghost Value = { List SeatState };

    ghost view = { λ s. s.seats.items };
}

fn is_free(seat: SeatState) -> bool
    ensures { result ≡ is_free seat }
{
    seat == SeatState::Free
}

impl SeatStates {
    /// Makes this number of seats, all free.
    pub fn new(alloc: Global, count: usize) -> Result<SeatStates, AllocError>
        ensures { IfOk result (λ seats. seats ≡ replicate count Free) }
    {
        let mut seats = Vec::new(alloc);
        seats.resize(count, SeatState::Free)?;
        Ok(SeatStates { seats })
    }

    /// Returns the first free seat of those below `end`.
    pub fn first_free(&self, end: usize) -> Option<usize>
        ensures { result ≡ first_free end self.now }
    {
        self.seats.iter().take(end).position(|seat| is_free(*seat))
    }

    fn set(&mut self, at: usize, state: SeatState)
        ensures { self.new ≡ set self.old at state }
    {
        if let Some(seat) = self.seats.get_mut(at) {
            *seat = state;
        }
    }

    /// Promises the first free seat of those below `end` to a thread, and returns its slot.
    pub fn promise(&mut self, end: usize) -> Option<usize>
        ensures first { result ≡ first_free end self.old }
        ensures promised { self.new ≡ promised result self.old }
    {
        let at = self.first_free(end)?;
        self.set(at, SeatState::Promised);
        Some(at)
    }

    /// Frees the seat of this slot, whose thread didn't come. A seat that a thread has stays with it.
    pub fn release(&mut self, at: usize)
        ensures { self.new ≡ released at self.old }
    {
        if self.seats.get(at).copied() == Some(SeatState::Promised) {
            self.set(at, SeatState::Free);
        }
    }

    /// Notes that a thread takes the seat of this slot.
    pub fn take(&mut self, at: usize)
        ensures { self.new ≡ set self.old at Taken }
    {
        self.set(at, SeatState::Taken);
    }

    /// Notes that a thread puts the seat of this slot back.
    pub fn put(&mut self, at: usize)
        ensures { self.new ≡ set self.old at Free }
    {
        self.set(at, SeatState::Free);
    }
}
