//! The tests of an audit.
ghost use Rattle.std.specs.Prelude.{◌≡◌, ◌↔◌, All, Any, IsTrue, IfSome, IfNone, IfOk, IfErr, length};
ghost use Rattle.history_core.specs.Histories.{steps_of};
ghost use Rattle.history_seats.specs.Receipts.{IsPlaced};
ghost use Rattle.history_seats.specs.Audits.{Agrees, Differs, SeatAgrees, SeatDiffers, AllAgree, AllOnce, AllRise, AllDistinct, Fails, steps_received, late_received};

use crate::brands::Brands;
use crate::fault::AuditFault;
use crate::receipt::Receipt;
use crate::sameness::SameAs;
use crate::seat::Seat;
use history_core::Database;

/// Tests whether the receipt is of a rolled place, or its event and its brief are those of the kept step at its place.
fn agrees(database: &Database, receipt: &Receipt) -> bool
    ensures { IsTrue result ↔ Agrees database.now receipt.now }
{
    let rolled = database.rolled();
    if receipt.place < rolled {
        return true;
    }
    match database.history().get((receipt.place - rolled) as usize) {
        Some(step) => step.event.event().is_same(receipt.event.event())
            && step.brief == receipt.brief,
        None => false,
    }
}

/// Finds the place of the first receipt that doesn't agree with the history.
fn differing(database: &Database, receipts: &[Receipt]) -> Option<u64>
    ensures none { IfNone result (All (Agrees database.now) receipts.now) }
    ensures some { IfSome result (λ place. Any (Differs database.now place) receipts.now) }
{
    for receipt in receipts {
        if !agrees(database, receipt) {
            return Some(receipt.place);
        }
    }
    None
}

/// Does the same for a seat, which has folded no place that isn't rolled.
fn differing_in<B: Brands>(database: &Database, seat: &Seat<B>) -> Option<u64>
    ensures none { IfNone result (SeatAgrees database.now seat.now) }
    ensures some { IfSome result (λ place. SeatDiffers database.now place seat.now) }
{
    if seat.floor > database.rolled() {
        return Some(seat.floor - 1);
    }
    differing(database, seat.receipts.as_slice())
}

/// Does the same for all seats.
fn differing_seat<B: Brands>(database: &Database, seats: &[Seat<B>]) -> Option<u64>
    ensures none { IfNone result (AllAgree database.now seats.now) }
    ensures some { IfSome result (λ place. Any (SeatDiffers database.now place) seats.now) }
{
    for seat in seats {
        match differing_in(database, seat) {
            Some(place) => return Some(place),
            None => {}
        }
    }
    None
}

/// Tests the receipts. If each kept one agrees with its step, the seats' places leave nothing else that could fail.
pub(crate) fn test_receipts<B: Brands>(
    database: &Database,
    seats: &[Seat<B>],
) -> Result<(), AuditFault>
    requires summed { steps_received seats.now ≡ steps_of database.now }
    requires distinct { AllDistinct (steps_of database.now) seats.now }
    requires placed { All IsPlaced seats.now }
    ensures ok { IfOk result (λ _. AllAgree database.now seats.now × AllOnce database.now seats.now × (late_received database.now.rolled seats.now ≡ database.now.rolled) × AllRise seats.now) }
    ensures err { IfErr result (Fails (length seats.now) database.now seats.now) }
{
    match differing_seat(database, seats) {
        Some(place) => Err(AuditFault::ReceiptDiffers(place)),
        None => Ok(()),
    }
}
