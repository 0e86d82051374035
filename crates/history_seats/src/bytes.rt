//! How many bytes steps take in memory.
ghost use Rattle.std.specs.Prelude.{◌≡◌, ◌+◌, ◌-◌, ◌^◌, min};
ghost use Rattle.event_bytes.specs.Bytes.{bytes_of};
ghost use Rattle.history_seats.specs.Bytes.{receipt_bytes};

use crate::receipt::Receipt;
use event_bytes::bytes_of;
use step_core::Event;

/// Adds the bytes of one more step, by its event.
pub(crate) fn more_bytes(bytes: u64, event: &Event) -> u64
    ensures { result ≡ min (bytes + bytes_of event.now) (2 ^ 64 - 1) }
{
    bytes.saturating_add(bytes_of(event))
}

/// Sums the bytes of the steps of these receipts, up to 2^64 - 1. Takes a few nanoseconds for each hop of a route.
#[tactic(auto, unfolding(crate::specs::Bytes::receipt_bytes))]
pub fn receipt_bytes(receipts: &[Receipt]) -> u64
    ensures { result ≡ receipt_bytes receipts.now }
{
    let mut bytes = 0u64;
    for receipt in receipts {
        bytes = more_bytes(bytes, receipt.event());
    }
    bytes
}
