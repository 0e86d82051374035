//! Events.
ghost use Rattle.std.specs.Prelude.{◌≡◌, ◌^◌, min};
ghost use Rattle.event_bytes.specs.Bytes.{name_bytes, report_bytes, purpose_bytes, offer_bytes, held_bytes, bytes_of};

use crate::blocks::{MOST, block_of_32s, block_of_bytes, block_of_numbers};
use crate::routes::{reported_route_bytes, route_bytes};
use link_reload::LinkReload;
use pcep_messages::StateReport;
use sequence::Sequence;
use step_core::{Event, Purpose};
use te_base::LinkNumber;

/// What a step takes if its event holds nothing on the heap: 224 bytes for the block that the owners of the event
/// share, 24 for the history, and 64 for the seat's receipts, with the room for more of them.
const STEP: u64 = 312;

const _: () = prove!(size_of::<Event>() <= 200);

const _: () = prove!(size_of::<LinkReload>() == 32);

/// Counts the bytes of a name, if there is one.
fn name_bytes(name: &Option<Sequence<u8>>) -> u64
    ensures { result ≡ min (name_bytes name.now) (2 ^ 40) }
{
    match name {
        Some(name) => block_of_bytes(name.as_slice().len()),
        None => 0,
    }
}

fn report_bytes(report: &StateReport) -> u64
    ensures { result ≡ min (report_bytes report.now) (2 ^ 40) }
{
    let name = name_bytes(&report.name);
    let intended = route_bytes(report.ero.as_slice());
    let taken = reported_route_bytes(&report.rro);
    (name + intended + taken).min(MOST)
}

fn purpose_bytes(purpose: &Purpose) -> u64
    ensures { result ≡ min (purpose_bytes purpose.now) (2 ^ 40) }
{
    match purpose {
        Purpose::Initiate { name, .. } => block_of_bytes(name.as_slice().len()),
        Purpose::Update { .. } | Purpose::Answer { .. } => 0,
    }
}

fn offer_bytes(offer: &Option<Sequence<LinkNumber>>) -> u64
    ensures { result ≡ min (offer_bytes offer.now) (2 ^ 40) }
{
    match offer {
        Some(links) => block_of_numbers(links.as_slice().len()),
        None => 0,
    }
}

/// Counts the bytes that the event holds on the heap.
fn held_bytes(event: &Event) -> u64
    ensures { result ≡ min (held_bytes event.now) (2 ^ 40) }
{
    match event {
        Event::Report { report, .. } => report_bytes(report),
        Event::Ask { purpose, .. } => purpose_bytes(purpose),
        Event::Commit { offer, .. } => offer_bytes(offer),
        Event::Reload { links } => block_of_32s(links.as_slice().len()),
        _ => 0,
    }
}

/// Counts the bytes that a step of the event takes in memory, in its history and in the receipt of its seat: 312, and
/// what the event holds on the heap. It is 2^40 at most.
#[tactic(auto, unfolding(crate::specs::Bytes::bytes_of))]
pub fn bytes_of(event: &Event) -> u64
    ensures { result ≡ bytes_of event.now }
{
    (held_bytes(event) + STEP).min(MOST)
}
