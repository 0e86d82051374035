//! The bodies of objects, class by class.

ghost use Rattle.std.specs.Prelude.{◌≡◌, Ok, IfOk, option_copied};
ghost use Rattle.pcep_objects.specs.Steps.{Gives};
ghost use Rattle.pcep_objects.specs.Bodies.{operational_of, bandwidth_body, ero_body, rro_body, lspa_body, kept, lsp_body, srp_body};
ghost use Rattle.pcep_objects.specs.declared.object.BandwidthType.{BandwidthType};
ghost use Rattle.pcep_objects.specs.declared.object.Object.TheVariants as objects;

use crate::fault::BodyFault;
use crate::lsp_errors::{fitting_in, read_error_code, read_rsvp_error};
use crate::object::{BandwidthType, Kept, KeptClass, LspObject, Lspa, Object, Operational, Srp};
use crate::routes::read_hops;
use crate::tlvs::{read_identifiers, skip_tlvs, value_in};
use byteorder::{BigEndian, ByteOrder};
use lsp_words::{Colours, Hop, Plsp};
use pcep_word::{Bandwidth, Priority};
use sequence::Sequence;
use std::alloc::{AllocError, Global};

/// Reads the body of a BANDWIDTH (RFC 5440 section 7.7). Both types have the same layout.
#[tactic(auto, unfolding(crate::specs::Bodies::bandwidth_body))]
pub fn read_bandwidth(body: &[u8]) -> Result<Bandwidth, BodyFault>
    ensures { (kind : BandwidthType) → Gives (λ bandwidth. objects.Bandwidth kind bandwidth) result (bandwidth_body kind body.now) }
{
    if body.len() != 4 {
        return Err(BodyFault::BadLength);
    }
    match Bandwidth::of_word(BigEndian::read_u32(body)) {
        None => Err(BodyFault::BadNumber),
        Some(bandwidth) => Ok(bandwidth),
    }
}

/// Reads the body of an ERO (RFC 5440 section 7.9).
#[tactic(auto, unfolding(crate::specs::Bodies::ero_body))]
pub fn read_ero(alloc: Global, body: &[u8]) -> Result<Sequence<Hop>, BodyFault>
    ensures { Gives (λ hops. objects.Ero hops) result (ero_body body.now) }
{
    read_hops(alloc, true, body)
}

/// Reads the body of an RRO (RFC 5440 section 7.10).
#[tactic(auto, unfolding(crate::specs::Bodies::rro_body))]
pub fn read_rro(alloc: Global, body: &[u8]) -> Result<Sequence<Hop>, BodyFault>
    ensures { Gives (λ hops. objects.Rro hops) result (rro_body body.now) }
{
    read_hops(alloc, false, body)
}

/// Reads the body of an LSPA (RFC 5440 section 7.11).
#[tactic(auto, unfolding(crate::specs::Bodies::lspa_body))]
pub fn read_lspa(body: &[u8]) -> Result<Lspa, BodyFault>
    ensures { Gives (λ lspa. objects.Lspa lspa) result (lspa_body body.now) }
{
    if body.len() < 16 {
        return Err(BodyFault::BadLength);
    }
    skip_tlvs(&body[16..])?;
    Ok(Lspa {
        colours: Colours {
            exclude_any: BigEndian::read_u32(body),
            include_any: BigEndian::read_u32(&body[4..]),
            include_all: BigEndian::read_u32(&body[8..]),
        },
        setup: Priority::capped(body[12]),
        hold: Priority::capped(body[13]),
        local_protection: body[14] & 1 != 0,
    })
}

/// Keeps the body of an IRO, SVEC or LOAD-BALANCING.
pub fn read_kept(alloc: Global, class: KeptClass, p: bool, body: &[u8]) -> Result<Object, BodyFault>
    ensures { Gives (λ x. x) result (Ok (kept class p body.now)) }
{
    Ok(Object::Kept(Kept {
        class,
        p,
        body: Sequence::from_vec(Vec::from_slice(alloc, body)?),
    }))
}

fn operational(word: u32) -> Operational
    ensures { result ≡ operational_of word }
{
    match (word >> 4) & 7 {
        0 => Operational::Down,
        2 => Operational::Active,
        3 => Operational::GoingDown,
        4 => Operational::GoingUp,
        _ => Operational::Up,
    }
}

fn copied(alloc: Global, value: Option<&[u8]>) -> Result<Option<Sequence<u8>>, AllocError>
    ensures { IfOk result (λ copy. copy ≡ option_copied value.entry) }
{
    match value {
        None => Ok(None),
        Some(value) => Ok(Some(Sequence::from_vec(Vec::from_slice(alloc, value)?))),
    }
}

/// Reads the body of an LSP (RFC 8231 section 7.3).
#[tactic(auto, unfolding(crate::specs::Bodies::lsp_body))]
pub fn read_lsp(alloc: Global, body: &[u8]) -> Result<LspObject, BodyFault>
    ensures { Gives (λ lsp. objects.Lsp lsp) result (lsp_body body.now) }
{
    if body.len() < 4 {
        return Err(BodyFault::BadLength);
    }
    let identifiers = value_in(18, Some(16), &body[4..])?;
    let name = value_in(17, None, &body[4..])?;
    let error_code = fitting_in(20, 4, &body[4..])?;
    let rsvp_error = fitting_in(21, 12, &body[4..])?;
    let word = BigEndian::read_u32(body);
    Ok(LspObject {
        plsp: Plsp::new(word >> 12),
        delegate: word & 0x001 != 0,
        sync: word & 0x002 != 0,
        remove: word & 0x004 != 0,
        admin: word & 0x008 != 0,
        operational: operational(word),
        created: word & 0x080 != 0,
        name: copied(alloc, name)?,
        identifiers: identifiers.map(read_identifiers),
        error_code: read_error_code(error_code),
        rsvp_error: read_rsvp_error(rsvp_error),
    })
}

/// Reads the body of an SRP (RFC 8231 section 7.2).
#[tactic(auto, unfolding(crate::specs::Bodies::srp_body))]
pub fn read_srp(body: &[u8]) -> Result<Srp, BodyFault>
    ensures { Gives (λ srp. objects.Srp srp) result (srp_body body.now) }
{
    if body.len() < 8 {
        return Err(BodyFault::BadLength);
    }
    skip_tlvs(&body[8..])?;
    Ok(Srp {
        remove: BigEndian::read_u32(body) & 1 != 0,
        id: BigEndian::read_u32(&body[4..]),
    })
}
