//! The objects of paths, in place: BANDWIDTH, LSPA, SRP, and the parts of ERO, RRO and LSP.

ghost use Rattle.std.specs.Prelude.{◌≡◌, ◌++◌, ◌<◌, ◌^◌, ◌≤◌, ◌+◌, length, take, replicate, true, vec_len, vec_capacity, IsOk, OnOk, OnErr};
ghost use Rattle.pcep_objects.specs.Spelling.{bandwidth_kind, hop_written, hops_written, operational_number, lsp_word, tlv_written, identifiers_written, details_written, hops_fit, hop_fits, written};
ghost use Rattle.pcep_objects.specs.declared.object.Object.TheVariants as objects;

use crate::kind::Kind;
use crate::lsp_errors::{put_error_code, put_rsvp_error};
use crate::object::{BandwidthType, Identifiers, LspObject, Lspa, Operational, Srp};
use crate::spelled::put_spelled;
use lsp_words::Hop;
use pcep_word::Bandwidth;
use std::alloc::AllocError;

/// Returns the kind of a BANDWIDTH.
#[inline(always)]
pub fn bandwidth_kind(bandwidth_type: BandwidthType) -> Kind
    ensures { result ≡ bandwidth_kind bandwidth_type }
{
    match bandwidth_type {
        BandwidthType::Requested => Kind::RequestedBandwidth,
        BandwidthType::Current => Kind::CurrentBandwidth,
    }
}

/// Appends a BANDWIDTH. If memory runs out, nothing is appended.
pub fn put_bandwidth(
    bandwidth_type: BandwidthType,
    bandwidth: Bandwidth,
    out: &mut Vec<u8>,
) -> Result<(), AllocError>
    ensures written { OnOk result (out.new.items ≡ out.old.items ++ written (objects.Bandwidth bandwidth_type bandwidth)) }
    ensures unchanged { OnErr result (out.new.items ≡ out.old.items) }
{
    let word = bandwidth.word().to_be_bytes();
    put_spelled(bandwidth_kind(bandwidth_type), false, &word, out)
}

/// Appends an LSPA. If memory runs out, nothing is appended.
#[tactic(auto, unfolding(crate::specs::Spelling::colours_written))]
pub fn put_lspa(object: &Lspa, out: &mut Vec<u8>) -> Result<(), AllocError>
    ensures written { OnOk result (out.new.items ≡ out.old.items ++ written (objects.Lspa object.now)) }
    ensures unchanged { OnErr result (out.new.items ≡ out.old.items) }
{
    let [a, b, c, d] = object.colours.exclude_any.to_be_bytes();
    let [e, f, g, h] = object.colours.include_any.to_be_bytes();
    let [i, j, k, l] = object.colours.include_all.to_be_bytes();
    let (setup, hold) = (object.setup.number(), object.hold.number());
    let flags = u8::from(object.local_protection);
    let body = [a, b, c, d, e, f, g, h, i, j, k, l, setup, hold, flags, 0];
    put_spelled(Kind::Lspa, false, &body, out)
}

/// Appends an SRP. If memory runs out, nothing is appended.
pub fn put_srp(object: Srp, out: &mut Vec<u8>) -> Result<(), AllocError>
    ensures written { OnOk result (out.new.items ≡ out.old.items ++ written (objects.Srp object)) }
    ensures unchanged { OnErr result (out.new.items ≡ out.old.items) }
{
    let [a, b, c, d] = u32::from(object.remove).to_be_bytes();
    let [e, f, g, h] = object.id.to_be_bytes();
    put_spelled(Kind::Srp, false, &[a, b, c, d, e, f, g, h], out)
}

/// Appends a subobject of a route. If memory runs out, nothing is appended.
#[inline(always)]
fn put_hop(hop: &Hop, out: &mut Vec<u8>) -> Result<(), AllocError>
    requires { hop_fits hop.now ≡ true }
    ensures written { OnOk result (out.new.items ≡ out.old.items ++ hop_written hop.now) }
    ensures unchanged { OnErr result (out.new.items ≡ out.old.items) }
{
    match hop {
        Hop::Host(address, loose) => {
            let kind = 1 + 0x80 * u8::from(*loose);
            let [a, b, c, d] = address.bytes();
            out.extend_from_slice(&[kind, 8, a, b, c, d, 32, 0])
        }
        Hop::Other(kind, bytes) => {
            let bytes = bytes.as_slice();
            let size = bytes.len() + 2;
            out.reserve(size)?;
            out.extend_from_slice(&[*kind, size as u8])?;
            out.extend_from_slice(bytes)
        }
    }
}

/// Appends the body of an ERO or an RRO. If memory runs out, a part of it may have been appended.
#[tactic(auto, unfolding(crate::specs::Spelling::hops_fit), using(crate::proofs::Fronts::front))]
pub fn put_hops(hops: &[Hop], out: &mut Vec<u8>) -> Result<(), AllocError>
    requires { hops_fit hops.now ≡ true }
    ensures written { OnOk result (out.new.items ≡ out.old.items ++ hops_written hops.now) }
    ensures front { OnErr result (take (length out.old.items) out.new.items ≡ out.old.items) }
{
    for hop in hops {
        put_hop(hop, out)?;
    }
    Ok(())
}

fn operational_number(operational: Operational) -> u32
    ensures { result ≡ operational_number operational }
{
    match operational {
        Operational::Down => 0,
        Operational::Up => 1,
        Operational::Active => 2,
        Operational::GoingDown => 3,
        Operational::GoingUp => 4,
    }
}

/// Returns the PLSP-ID and the flags of an LSP.
#[inline(always)]
pub fn lsp_word(lsp: &LspObject) -> u32
    ensures { result ≡ lsp_word lsp.now }
{
    (lsp.plsp.number() << 12)
        + u32::from(lsp.delegate)
        + 0x002 * u32::from(lsp.sync)
        + 0x004 * u32::from(lsp.remove)
        + 0x008 * u32::from(lsp.admin)
        + 0x010 * operational_number(lsp.operational)
        + 0x080 * u32::from(lsp.created)
}

/// Appends up to three zeros. If memory runs out, nothing is appended.
#[inline(always)]
fn put_zeros(count: usize, out: &mut Vec<u8>) -> Result<(), AllocError>
    requires { count < 4 }
    ensures written { OnOk result (out.new.items ≡ out.old.items ++ replicate count 0) }
    ensures unchanged { OnErr result (out.new.items ≡ out.old.items) }
    ensures succeeds { vec_len out.old + count ≤ vec_capacity out.old → IsOk result }
{
    match count {
        0 => Ok(()),
        1 => out.extend_from_slice(&[0]),
        2 => out.extend_from_slice(&[0, 0]),
        _ => out.extend_from_slice(&[0, 0, 0]),
    }
}

/// Appends a TLV of less than 2^16 bytes, with its padding. If memory runs out, nothing is appended.
#[inline(always)]
pub fn put_tlv(tlv_type: u16, value: &[u8], out: &mut Vec<u8>) -> Result<(), AllocError>
    requires { length value.now < 2 ^ 16 }
    ensures written { OnOk result (out.new.items ≡ out.old.items ++ tlv_written tlv_type value.now) }
    ensures unchanged { OnErr result (out.new.items ≡ out.old.items) }
{
    let len = value.len();
    let padded = (len + 3) / 4 * 4;
    out.reserve(4 + padded)?;
    let [a, b] = tlv_type.to_be_bytes();
    let [c, d] = (len as u16).to_be_bytes();
    out.extend_from_slice(&[a, b, c, d])?;
    out.extend_from_slice(value)?;
    put_zeros(padded - len, out)
}

/// Appends IPV4-LSP-IDENTIFIERS, if there are any. If memory runs out, nothing is appended.
#[inline(always)]
fn put_identifiers(identifiers: &Option<Identifiers>, out: &mut Vec<u8>) -> Result<(), AllocError>
    ensures written { OnOk result (out.new.items ≡ out.old.items ++ identifiers_written identifiers.now) }
    ensures unchanged { OnErr result (out.new.items ≡ out.old.items) }
{
    let Some(identifiers) = identifiers else {
        return Ok(());
    };
    let [a, b, c, d] = identifiers.sender.bytes();
    let [e, f] = identifiers.lsp.to_be_bytes();
    let [g, h] = identifiers.tunnel.to_be_bytes();
    let [i, j, k, l] = identifiers.extended.to_be_bytes();
    let [m, n, o, p] = identifiers.endpoint.bytes();
    out.extend_from_slice(&[0, 18, 0, 16, a, b, c, d, e, f, g, h, i, j, k, l, m, n, o, p])
}

/// Appends the TLVs of an LSP after its name. If memory runs out, a part of them may have been appended.
#[tactic(auto, using(crate::proofs::Fronts::front, crate::proofs::Fronts::front_two))]
pub fn put_details(lsp: &LspObject, out: &mut Vec<u8>) -> Result<(), AllocError>
    ensures written { OnOk result (out.new.items ≡ out.old.items ++ details_written lsp.now.identifiers lsp.now.error_code lsp.now.rsvp_error) }
    ensures front { OnErr result (take (length out.old.items) out.new.items ≡ out.old.items) }
{
    put_identifiers(&lsp.identifiers, out)?;
    put_error_code(lsp.error_code, out)?;
    put_rsvp_error(lsp.rsvp_error, out)
}
