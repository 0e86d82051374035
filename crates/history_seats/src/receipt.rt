//! Receipts, and their places.
ghost use Rattle.std.specs.Prelude.{◌≡◌, if◌then◌else◌, ◌+◌, ◌≤◌, IsTrue, IfSome, IfNone, false, length};
ghost use Rattle.history_core.specs.Briefs.{is_grant};
ghost use Rattle.history_seats.specs.Receipts.{are_past, floor_after};

use history_core::Brief;
use sequence::PlainData;
use std::alloc::AllocError;
use step_core::{Event, SharedEvent};

/// What a seat keeps of a step that it received: which step of all it was, the event, and the brief of the
/// reply.
#[derive(Debug, Drop)]
pub struct Receipt {
    pub(crate) place: u64,
    pub(crate) event: SharedEvent,
    pub(crate) brief: Brief,
}

impl Receipt {
    /// Returns the place of the step among all steps that were ever taken, from 0.
    pub fn place(&self) -> u64
        ensures { result ≡ self.now.place }
    {
        self.place
    }

    /// Lends the event.
    pub fn event(&self) -> &Event
        ensures { result.now ≡ self.now.event }
    {
        self.event.event()
    }

    /// Returns the brief of the reply.
    pub fn brief(&self) -> Brief
        ensures { result ≡ self.now.brief }
    {
        self.brief
    }
}

impl PlainData for Receipt {
    fn copy(&self) -> Result<Receipt, AllocError> {
        Ok(Receipt {
            place: self.place,
            event: self.event.copy()?,
            brief: self.brief,
        })
    }
}

/// Returns 1 for a grant, and 0 otherwise.
pub(crate) fn grant_count(brief: Brief) -> u64
    ensures value { result ≡ (if is_grant brief then 1 else 0) }
    ensures small { result ≤ 1 }
{
    match brief {
        Brief::Granted(_) => 1,
        _ => 0,
    }
}

/// Returns one past the last place if all of them are rolled and rise from the floor on. The search ends at the first
/// receipt of a kept place.
pub(crate) fn past_floor(floor: u64, rolled: u64, receipts: &[Receipt]) -> Option<u64>
    ensures none { IfNone result (are_past floor rolled receipts.now ≡ false) }
    ensures past { IfSome result (λ after. IsTrue (are_past floor rolled receipts.now) × (after ≡ floor_after floor receipts.now)) }
    ensures counted { IfSome result (λ after. floor + length receipts.now ≤ after) }
{
    let mut last = floor;
    for receipt in receipts {
        if receipt.place < last || receipt.place >= rolled {
            return None;
        }
        last = receipt.place + 1;
    }
    Some(last)
}
