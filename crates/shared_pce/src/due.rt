//! When a history is rolled.
ghost use Rattle.std.specs.Prelude.{◌≡◌};
ghost use Rattle.history_seats.specs.Past.{database_at};
ghost use Rattle.shared_pce.specs.Rolls.{beside, is_due, is_let_go, late, of_seat};

use history_seats::{Brands, Held};

/// The fewest bytes of kept steps for which a roll is worthwhile. A roll takes memory too.
const LEAST_BYTES: u64 = 1_048_576;

/// When a history is rolled because memory ran out.
pub const SPARE_AT: RollAt = RollAt {
    steps: u64::MAX,
    bytes: LEAST_BYTES,
};

/// At how many kept steps a history is rolled, and at how many bytes of kept steps.
#[derive(Clone, Copy, Debug, PartialEq, Eq)]
pub struct RollAt {
    pub steps: u64,
    /// As `Held::kept_bytes` counts them.
    pub bytes: u64,
}

impl RollAt {
    /// The limit for a history that isn't rolled for its length.
    pub const NEVER: RollAt = RollAt {
        steps: u64::MAX,
        bytes: u64::MAX,
    };

    /// Returns when the history is rolled because of the steps of one seat: when they take a sixteenth of the bytes,
    /// and at least a megabyte.
    pub fn of_seat(self) -> RollAt
        ensures { result ≡ of_seat self }
    {
        RollAt {
            steps: u64::MAX,
            bytes: (self.bytes / 16).max(LEAST_BYTES),
        }
    }

    /// Returns when a roll waits for a journal no longer: at 40,000 steps more, or twice the bytes.
    pub fn late(self) -> RollAt
        ensures { result ≡ late self }
    {
        RollAt {
            steps: self.steps.saturating_add(40_000),
            bytes: self.bytes.saturating_mul(2),
        }
    }

    /// Subtracts half of what the receipts of rolled steps take from the bytes. A megabyte stays, so that each roll
    /// drops something.
    pub fn beside(self, unfolded: u64) -> RollAt
        ensures { result ≡ beside unfolded self }
    {
        RollAt {
            steps: self.steps,
            bytes: self.bytes.saturating_sub(unfolded / 2).max(LEAST_BYTES),
        }
    }
}

/// Tests whether the history should be rolled.
pub(crate) fn is_due<B: Brands>(held: &Held<B>, at: RollAt) -> bool
    ensures { result ≡ is_due at (database_at B.text held.now) }
{
    let steps = held.database().history().len() as u64;
    let bytes = held.kept_bytes();
    at.steps <= steps || at.bytes <= bytes
}

/// Tests whether the history is to be rolled at `at`, if a journal has `written` steps. `whole` says what the history may
/// take.
pub(crate) fn is_let_go<B: Brands>(held: &Held<B>, written: u64, whole: RollAt, at: RollAt) -> bool
    ensures { result ≡ is_let_go written whole at (database_at B.text held.now) }
{
    if !is_due(held, at) {
        return false;
    }
    held.database().steps() <= written || is_due(held, whole.late())
}
