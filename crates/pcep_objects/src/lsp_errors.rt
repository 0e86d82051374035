//! What a report says of an error: LSP-ERROR-CODE and RSVP-ERROR-SPEC (RFC 8231 sections 7.3.3 and 7.3.4).

ghost use Rattle.std.specs.Prelude.{◌≡◌, ◌++◌, length, option_copied, IfOk, IfSome, OnOk, OnErr};
ghost use Rattle.std.specs.Option.{option_map};
ghost use Rattle.pcep_objects.specs.Steps.{Gives, field};
ghost use Rattle.pcep_objects.specs.Tlvs.{fitting_in, rsvp_error_of, rsvp_error_in};
ghost use Rattle.pcep_objects.specs.Spelling.{error_code_written, rsvp_error_written};

use crate::fault::BodyFault;
use crate::object::RsvpError;
use crate::tlvs::first_tlv;
use byteorder::{BigEndian, ByteOrder};
use pcep_word::Ipv4;
use std::alloc::AllocError;

/// The header of an RSVP object ERROR_SPEC of IPv4: 12 bytes, class 6, C-Type 1 (RFC 2205 section A.5).
const ERROR_SPEC: u32 = 0x000c_0601;

/// Finds the value of the first TLV of this type that has this size, if there is one. TLVs of another size are skipped.
pub fn fitting_in(number: u16, size: usize, bytes: &[u8]) -> Result<Option<&[u8]>, BodyFault>
    ensures value { Gives option_copied result (fitting_in number size bytes.now) }
    ensures sized { IfOk result (λ found. IfSome found (λ value. length value.now ≡ size)) }
{
    let mut found = None;
    let mut rest = bytes;
    while !rest.is_empty() {
        let (tlv, after) = first_tlv(rest)?;
        if tlv.number == number && tlv.value.len() == size {
            match found {
                None => found = Some(tlv.value),
                Some(_) => {}
            }
        }
        rest = after;
    }
    Ok(found)
}

/// Reads the value of an LSP-ERROR-CODE.
pub fn read_error_code(value: Option<&[u8]>) -> Option<u32>
    requires { IfSome value (λ bytes. length bytes.now ≡ 4) }
    ensures { result ≡ option_map (field 0 4) (option_copied value.entry) }
{
    let value = value?;
    Some(BigEndian::read_u32(value))
}

fn rsvp_error_of(value: &[u8]) -> Option<RsvpError>
    requires { length value.now ≡ 12 }
    ensures { result ≡ rsvp_error_of value.now }
{
    if BigEndian::read_u32(value) != ERROR_SPEC {
        return None;
    }
    Some(RsvpError {
        node: Ipv4(BigEndian::read_u32(&value[4..])),
        flags: value[8],
        code: value[9],
        value: BigEndian::read_u16(&value[10..]),
    })
}

/// Reads the value of an RSVP-ERROR-SPEC. None if it isn't an ERROR_SPEC of IPv4.
pub fn read_rsvp_error(value: Option<&[u8]>) -> Option<RsvpError>
    requires { IfSome value (λ bytes. length bytes.now ≡ 12) }
    ensures { result ≡ rsvp_error_in (option_copied value.entry) }
{
    rsvp_error_of(value?)
}

/// Appends LSP-ERROR-CODE, if there is one. If memory runs out, nothing is appended.
#[inline(always)]
pub fn put_error_code(error_code: Option<u32>, out: &mut Vec<u8>) -> Result<(), AllocError>
    ensures written { OnOk result (out.new.items ≡ out.old.items ++ error_code_written error_code) }
    ensures unchanged { OnErr result (out.new.items ≡ out.old.items) }
{
    let Some(error_code) = error_code else {
        return Ok(());
    };
    let [a, b, c, d] = error_code.to_be_bytes();
    out.extend_from_slice(&[0, 20, 0, 4, a, b, c, d])
}

/// Appends RSVP-ERROR-SPEC, if there is one. If memory runs out, nothing is appended.
#[inline(always)]
pub fn put_rsvp_error(error: Option<RsvpError>, out: &mut Vec<u8>) -> Result<(), AllocError>
    ensures written { OnOk result (out.new.items ≡ out.old.items ++ rsvp_error_written error) }
    ensures unchanged { OnErr result (out.new.items ≡ out.old.items) }
{
    let Some(error) = error else {
        return Ok(());
    };
    let [a, b, c, d] = error.node.bytes();
    let [e, f] = error.value.to_be_bytes();
    out.extend_from_slice(&[
        0,
        21,
        0,
        12,
        0,
        12,
        6,
        1,
        a,
        b,
        c,
        d,
        error.flags,
        error.code,
        e,
        f,
    ])
}
