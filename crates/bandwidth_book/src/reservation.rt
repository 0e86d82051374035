//! What one path holds on a link.
ghost use Rattle.std.specs.Prelude.{◌≡◌, ◌<◌, ◌+◌, ◌*◌, ◌^◌};
ghost use Rattle.bandwidth_book.specs.Reservation.{changes_held, held_of, is_before, same_held, takes_memory};

use lsp_base::Path;
use std::marker::Model;

/// What is done with a path's reservation on each of its links.
#[derive(Clone, Copy, Debug)]
pub enum BookOp {
    /// Room for it is promised. Only this allocates.
    Promise,
    /// It is added, into promised room.
    Add,
    /// It is dropped.
    Drop,
    /// Room that was promised is given up.
    Withdraw,
}

impl BookOp {
    /// Tests whether it changes what is held.
    pub fn changes_held(self) -> bool
        ensures { result ≡ changes_held self }
    {
        match self {
            BookOp::Add | BookOp::Drop => true,
            BookOp::Promise | BookOp::Withdraw => false,
        }
    }

    /// Tests whether it takes memory.
    pub fn takes_memory(self) -> bool
        ensures { result ≡ takes_memory self }
    {
        match self {
            BookOp::Promise => true,
            _ => false,
        }
    }
}

/// A path's holding priority, from 0 to 7, and its bandwidth in bytes per second, below 2^48, as one number. The
/// numbers' order is by priority, then by bandwidth. A contract sees the two.
#[derive(Clone, Copy, Debug)]
pub struct Reservation {
    number: u64,
}

impl Model for Reservation {
    ghost use Rattle.std.specs.Prelude.{◌+◌, ◌*◌, ◌/◌, ◌%◌, ◌<◌, ◌^◌};
    ghost use Rattle.std.proofs.lemmas.Nat.{div-add-mod'};
    ghost use Rattle.bandwidth_book.specs.Reservation.{Reservation as Holding};

    ghost Value = { Holding };

    ghost view = { λ h. record { hold = h.number / 2 ^ 48; bandwidth = h.number % 2 ^ 48 } };

    ghost invariant = { λ h. h.number < 2 ^ 56 };

    ghost inverse = { λ v. record { number = v.hold * 2 ^ 48 + v.bandwidth } };

    ghost inverse_ok = { λ h _. λ j. record { number = div-add-mod' h.number (2 ^ 48) j } };
}

impl Default for Reservation {
    fn default() -> Reservation {
        Reservation { number: 0 }
    }
}

impl Reservation {
    /// Joins a holding priority and a bandwidth.
    #[tactic(auto, using(crate::proofs::Packed::hold_of, crate::proofs::Packed::bandwidth_of))]
    pub fn new(hold: u8, bandwidth: u64) -> Reservation
        requires { bandwidth < 2 ^ 48 }
        ensures { result ≡ record { hold = hold; bandwidth = bandwidth } }
    {
        Reservation {
            number: u64::from(hold) * (1 << 48) + bandwidth,
        }
    }

    /// Returns the holding priority.
    pub fn hold(&self) -> u64
        ensures { result ≡ self.now.hold }
    {
        self.number / (1 << 48)
    }

    /// Ranks it in the order of a list.
    #[tactic(auto, using(crate::proofs::Packed::rank_of))]
    pub fn rank(&self) -> u64
        ensures { result ≡ self.now.hold * 2 ^ 48 + self.now.bandwidth }
    {
        self.number
    }

    /// Returns the bandwidth.
    pub fn bandwidth(&self) -> u64
        ensures { result ≡ self.now.bandwidth }
    {
        self.number % (1 << 48)
    }
}

/// Returns what the path holds on each of its links.
pub fn held_of(path: &Path) -> Reservation
    ensures held { result ≡ held_of path.now }
    ensures hold { result.hold < 8 }
    ensures small { result.bandwidth < 2 ^ 48 }
{
    Reservation::new(path.hold.number(), path.bandwidth.value())
}

/// Tests whether both have the same holding priority and bandwidth.
#[tactic(auto, using(crate::proofs::Packed::same_is))]
pub fn is_same_held(a: &Reservation, b: &Reservation) -> bool
    ensures { result ≡ same_held a.now b.now }
{
    a.number == b.number
}

/// Tests whether a reservation comes before another in a list: by holding priority, then by bandwidth.
#[tactic(auto, using(crate::proofs::Packed::before_is))]
pub fn is_before(a: &Reservation, b: &Reservation) -> bool
    ensures { result ≡ is_before a.now b.now }
{
    a.number < b.number
}
