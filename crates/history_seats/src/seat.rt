//! Seats.
use crate::brands::{Brands, Grants, Steps};
use crate::receipt::Receipt;
use history_tokens::Front;
use place_tokens::Drawn;
use std::alloc::{AllocError, Global};
use std::marker::Model;
use std::sync::ledger::Share;
use step_core::{Event, Job};

/// What one caller holds: its receipts, its shares of all steps and of all grants, the token of its places, and perhaps
/// a job. Only calls of `Held` change it, except for the job in its hand. Once a seat is dropped, every audit fails.
pub struct Seat<B: Brands> {
    /// How many steps the seat received, including the folded ones.
    pub(crate) received: u64,
    /// How many of these were grants.
    pub(crate) granted: u64,
    /// How many receipts are no longer kept.
    pub(crate) folded: u64,
    /// How many of these were of grants.
    pub(crate) folded_grants: u64,
    /// One past the place of the last that was folded.
    pub(crate) floor: u64,
    pub(crate) receipts: Vec<Receipt>,
    pub(crate) hand: Option<Job>,
    pub(crate) steps: Share<Steps<B>>,
    pub(crate) grants: Share<Grants<B>>,
    /// The places of all its steps.
    pub(crate) drawn: Drawn<B>,
    /// The beginning of the one history that it has seen.
    pub(crate) seen: Front<Event, B>,
}

/// Drops each part. Written by hand because a derived drop would be proved again for every owner.
impl<B: Brands> Drop for Seat<B> {
    fn drop(self) {
        let Seat {
            received: _,
            granted: _,
            folded: _,
            folded_grants: _,
            floor: _,
            receipts,
            hand,
            steps,
            grants,
            drawn,
            seen,
        } = self;
        drop(receipts);
        drop(hand);
        drop(steps);
        drop(grants);
        drop(drawn);
        drop(seen);
    }
}

impl<B: Brands> Model for Seat<B> {
    ghost use Rattle.std.specs.Prelude.{◌≡◌, ◌+◌, ◌≤◌, length};
    ghost use Rattle.history_seats.specs.Receipts.{SeatContent, Placed, granted_in};

    ghost Value = { SeatContent };

    ghost view = { λ s. record { folded = s.folded; folded_grants = s.folded_grants; floor = s.floor; receipts = s.receipts.items; hand = s.hand; places = s.drawn; seen = s.seen } };

    ghost invariant = { λ s.
        (s.steps.parts ≡ 1) × (s.grants.parts ≡ 1)
        × (s.steps.amount ≡ s.received) × (s.grants.amount ≡ s.granted)
        × (s.received ≡ s.folded + length s.receipts.items)
        × (s.granted ≡ s.folded_grants + granted_in s.receipts.items)
        × (s.folded ≤ s.floor)
        × Placed s.folded s.floor s.receipts.items s.drawn };
}

impl<B: Brands> Seat<B> {
    ghost use Rattle.std.specs.Prelude.{◌≡◌, []};
    ghost use Rattle.std.specs.Borrow.{sem};
    ghost use Rattle.history_seats.specs.Receipts.{SeatContent, new_seat, steps_at, grants_at};
    ghost use Rattle.history_seats.specs.Lending.{LendsHand};

    /// Makes a seat that received nothing. Allocates nothing.
    pub(crate) fn new(
        alloc: Global,
        steps: Share<Steps<B>>,
        grants: Share<Grants<B>>,
        drawn: Drawn<B>,
        seen: Front<Event, B>,
    ) -> Self
        requires steps { (steps.parts ≡ 1) × (steps.amount ≡ 0) }
        requires grants { (grants.parts ≡ 1) × (grants.amount ≡ 0) }
        requires drawn { drawn ≡ [] }
        requires seen { seen ≡ [] }
        ensures { result ≡ new_seat }
    {
        Seat {
            received: 0,
            granted: 0,
            folded: 0,
            folded_grants: 0,
            floor: 0,
            receipts: Vec::new(alloc),
            hand: None,
            steps,
            grants,
            drawn,
            seen,
        }
    }

    /// Makes room for this many more receipts, so that a step finds it. If memory runs out nothing has changed.
    pub fn reserve(&mut self, receipts: usize) -> Result<(), AllocError>
        ensures { self.new ≡ self.old }
    {
        self.receipts.reserve(receipts)
    }

    /// Lends the job in the seat's hand. It may be taken out, and another put in.
    pub fn hand(&mut self) -> &mut Option<Job>
        ensures* writes_back { sem 𝓛 (LendsHand B.row B.Brands.own B.StepNumbers self.entry result) }
        ensures value { result.now ≡ self.old.hand }
    {
        &mut self.hand
    }

    /// Returns how many steps the seat received, including those whose receipts are no longer kept.
    pub fn steps(&self) -> u64
        ensures { result ≡ steps_at self.now }
    {
        self.received
    }

    /// Returns how many of these steps were grants.
    pub fn grants(&self) -> u64
        ensures { result ≡ grants_at self.now }
    {
        self.granted
    }

    /// Lends the receipts that are kept, oldest first.
    pub fn receipts(&self) -> &[Receipt]
        ensures { result.now ≡ self.now.receipts }
    {
        self.receipts.as_slice()
    }
}
