//! Routes as lists of subobjects (RFC 3209 sections 4.3.3 and 4.4.1).

ghost use Rattle.std.specs.Prelude.{◌≡◌, ◌≤◌, length, IfOk};
ghost use Rattle.pcep_objects.specs.Steps.{Gives, pieces};
ghost use Rattle.pcep_objects.specs.Routes.{hops_of, hop_of, subobject_size};

use crate::fault::BodyFault;
use byteorder::{BigEndian, ByteOrder};
use lsp_words::Hop;
use pcep_word::Ipv4;
use sequence::Sequence;
use std::alloc::Global;

/// Returns the length of the subobject at the front.
#[tactic(auto, unfolding(crate::specs::Routes::subobject_size))]
fn size_of_subobject(bytes: &[u8]) -> Result<usize, BodyFault>
    ensures gives { Gives (λ n. n) result (subobject_size bytes.now) }
    ensures least { IfOk result (λ n. 4 ≤ n) }
    ensures within { IfOk result (λ n. n ≤ length bytes.now) }
{
    let size = match bytes {
        [_, size, ..] => *size as usize,
        _ => 0,
    };
    if size < 4 || bytes.len() < size || size % 4 != 0 {
        return Err(BodyFault::BadLength);
    }
    Ok(size)
}

#[tactic(auto, unfolding(crate::specs::Routes::hop_of))]
fn read_hop(alloc: Global, explicit: bool, piece: &[u8]) -> Result<Hop, BodyFault>
    requires { 4 ≤ length piece.now }
    ensures { Gives (λ x. x) result (hop_of explicit piece.now) }
{
    let kind = piece[0];
    let loose = explicit && kind & 0x80 != 0;
    let plain = if explicit { kind & 0x7f } else { kind };
    if plain == 1 && piece.len() != 8 {
        return Err(BodyFault::BadLength);
    }
    if plain == 1 && piece[6] == 32 {
        return Ok(Hop::Host(Ipv4(BigEndian::read_u32(&piece[2..])), loose));
    }
    Ok(Hop::Other(
        kind,
        Sequence::from_vec(Vec::from_slice(alloc, &piece[2..])?),
    ))
}

fn hops_in(alloc: Global, explicit: bool, bytes: &[u8]) -> Result<Vec<Hop>, BodyFault>
    ensures { Gives (λ v. v.items) result (pieces subobject_size (hop_of explicit) bytes.now) }
{
    // Most subobjects have 8 bytes.
    let mut hops = Vec::with_capacity(alloc, bytes.len() / 8)?;
    let mut rest = bytes;
    while !rest.is_empty() {
        let size = size_of_subobject(rest)?;
        let (piece, after) = rest.split_at(size);
        let hop = read_hop(alloc, explicit, piece)?;
        hops.push(hop)?;
        rest = after;
    }
    Ok(hops)
}

/// Reads a whole route, explicit or recorded.
#[tactic(auto, unfolding(crate::specs::Routes::hops_of))]
pub fn read_hops(alloc: Global, explicit: bool, body: &[u8]) -> Result<Sequence<Hop>, BodyFault>
    ensures { Gives (λ x. x) result (hops_of explicit body.now) }
{
    let hops = hops_in(alloc, explicit, body)?;
    Ok(Sequence::from_vec(hops))
}
