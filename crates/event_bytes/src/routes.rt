//! Routes.
ghost use Rattle.std.specs.Prelude.{◌≡◌, ◌^◌, min};
ghost use Rattle.event_bytes.specs.Bytes.{hop_bytes, wire_size, route_bytes, reported_route_bytes};

use crate::blocks::{MOST, block, block_of_bytes};
use lsp_words::Hop;
use sequence::Sequence;

const _: () = prove!(size_of::<Hop>() == 32);

/// Counts the bytes that a subobject holds on the heap.
fn hop_bytes(hop: &Hop) -> u64
    ensures { result ≡ min (hop_bytes hop.now) (2 ^ 40) }
{
    match hop {
        Hop::Host(..) => 0,
        Hop::Other(_, bytes) => block_of_bytes(bytes.as_slice().len()),
    }
}

/// Counts the bytes of a subobject on the wire.
fn wire_size(hop: &Hop) -> u64
    ensures { result ≡ min (wire_size hop.now) (2 ^ 40) }
{
    match hop {
        Hop::Host(..) => 8,
        Hop::Other(_, bytes) => ((bytes.as_slice().len() as u64).min(MOST) + 2).min(MOST),
    }
}

/// Counts the bytes that a route holds on the heap: its hops, with the room for more that its reader made, and what
/// they hold.
pub(crate) fn route_bytes(hops: &[Hop]) -> u64
    ensures { result ≡ min (route_bytes hops.now) (2 ^ 40) }
{
    let mut size = 0u64;
    let mut held = 0u64;
    for hop in hops {
        size = (size + wire_size(hop)).min(MOST);
        held = (held + hop_bytes(hop)).min(MOST);
    }
    let room = if size / 8 < hops.len() as u64 {
        size / 4
    } else {
        size / 8
    };
    (block(room * 32) + held).min(MOST)
}

/// Counts the same for a route that may be missing.
pub(crate) fn reported_route_bytes(hops: &Option<Sequence<Hop>>) -> u64
    ensures { result ≡ min (reported_route_bytes hops.now) (2 ^ 40) }
{
    match hops {
        Some(hops) => route_bytes(hops.as_slice()),
        None => 0,
    }
}
