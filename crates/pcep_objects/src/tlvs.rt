//! TLVs (RFC 5440 section 7.1). They are walked in place, without a list.

ghost use Rattle.std.specs.Prelude.{◌≡◌, ◌<◌, ◌≤◌, ◌+◌, true, Ok, Err, length, take, drop, option_copied, IfOk, IfErr, IfSome};
ghost use Rattle.pcep_objects.specs.Steps.{Gives, field};
ghost use Rattle.pcep_objects.specs.Tlvs.{padded, tlv_size, skipped_tlvs, may_have, value_in, word_in, identifiers_of};
ghost use Rattle.pcep_objects.specs.declared.fault.BodyFault.TheVariants.{BadTlv};

use crate::fault::BodyFault;
use crate::object::Identifiers;
use byteorder::{BigEndian, ByteOrder};
use pcep_word::Ipv4;

/// A TLV of an object.
#[derive(Clone, Copy)]
pub(crate) struct Tlv<'a> {
    /// Its type.
    pub(crate) number: u16,
    /// Its value, without the padding.
    pub(crate) value: &'a [u8],
}

/// Returns the length of the TLV at the front, with its padding.
#[tactic(auto, unfolding(crate::specs::Tlvs::tlv_size))]
fn size_of_tlv(bytes: &[u8]) -> Result<usize, BodyFault>
    ensures size { IfOk result (λ n. tlv_size bytes.now ≡ Ok n) }
    ensures value { IfOk result (λ n. n ≡ 4 + padded (field 2 2 bytes.now)) }
    ensures within { IfOk result (λ n. n ≤ length bytes.now) }
    ensures fault { IfErr result (λ e. e ≡ BadTlv) }
    ensures not_there { IfErr result (λ e. tlv_size bytes.now ≡ Err BadTlv) }
{
    if bytes.len() < 4 {
        return Err(BodyFault::BadTlv);
    }
    let value = BigEndian::read_u16(&bytes[2..]) as usize;
    let size = 4 + (value + 3) / 4 * 4;
    if bytes.len() < size {
        return Err(BodyFault::BadTlv);
    }
    Ok(size)
}

/// Returns the TLV at the front, and the bytes after its padding.
pub(crate) fn first_tlv(bytes: &[u8]) -> Result<(Tlv<'_>, &[u8]), BodyFault>
    ensures size { IfOk result (λ x. tlv_size bytes.now ≡ Ok (4 + padded (field 2 2 bytes.now))) }
    ensures number { IfOk result (λ x. x.0.number ≡ field 0 2 bytes.now) }
    ensures value { IfOk result (λ x. x.0.value.now ≡ take (field 2 2 bytes.now) (drop 4 bytes.now)) }
    ensures rest { IfOk result (λ x. x.1.now ≡ drop (4 + padded (field 2 2 bytes.now)) bytes.now) }
    ensures shorter { IfOk result (λ x. length x.1.now < length bytes.now) }
    ensures fault { IfErr result (λ e. e ≡ BadTlv) }
    ensures not_there { IfErr result (λ e. tlv_size bytes.now ≡ Err BadTlv) }
{
    let size = size_of_tlv(bytes)?;
    let number = BigEndian::read_u16(bytes);
    let len = BigEndian::read_u16(&bytes[2..]) as usize;
    let (value, _) = bytes[4..].split_at(len);
    let (_, after) = bytes.split_at(size);
    Ok((Tlv { number, value }, after))
}

/// Passes TLVs of which none counts. Each must only be complete.
pub fn skip_tlvs(bytes: &[u8]) -> Result<(), BodyFault>
    ensures { Gives (λ x. x) result (skipped_tlvs bytes.now) }
{
    let mut rest = bytes;
    while !rest.is_empty() {
        let (_, after) = first_tlv(rest)?;
        rest = after;
    }
    Ok(())
}

fn may_have(size: Option<usize>, len: usize) -> bool
    ensures { result ≡ may_have size len }
{
    match size {
        None => true,
        Some(size) => len == size,
    }
}

/// Finds the value of the first TLV of this type, if there is one. All values of the type have this size; None: they
/// may have any.
pub fn value_in(number: u16, size: Option<usize>, bytes: &[u8]) -> Result<Option<&[u8]>, BodyFault>
    ensures value { Gives option_copied result (value_in number size bytes.now) }
    ensures sized { IfOk result (λ found. IfSome found (λ value. may_have size (length value.now) ≡ true)) }
{
    let mut found = None;
    let mut rest = bytes;
    while !rest.is_empty() {
        let (tlv, after) = first_tlv(rest)?;
        if tlv.number == number {
            if !may_have(size, tlv.value.len()) {
                return Err(BodyFault::BadTlv);
            }
            match found {
                None => found = Some(tlv.value),
                Some(_) => {}
            }
        }
        rest = after;
    }
    Ok(found)
}

/// Finds the word of the first TLV of this type, if there is one. All values of the type are words.
#[tactic(auto, unfolding(crate::specs::Tlvs::word_in))]
pub fn word_in(number: u16, bytes: &[u8]) -> Result<Option<u32>, BodyFault>
    ensures { Gives (λ x. x) result (word_in number bytes.now) }
{
    match value_in(number, Some(4), bytes)? {
        None => Ok(None),
        Some(value) => Ok(Some(BigEndian::read_u32(value))),
    }
}

/// Reads the value of IPV4-LSP-IDENTIFIERS.
pub fn read_identifiers(value: &[u8]) -> Identifiers
    requires { length value.now ≡ 16 }
    ensures { result ≡ identifiers_of value.now }
{
    Identifiers {
        sender: Ipv4(BigEndian::read_u32(value)),
        lsp: BigEndian::read_u16(&value[4..]),
        tunnel: BigEndian::read_u16(&value[6..]),
        extended: BigEndian::read_u32(&value[8..]),
        endpoint: Ipv4(BigEndian::read_u32(&value[12..])),
    }
}
