//! The objects of requests and replies (RFC 5440): RP, NO-PATH, END-POINTS.

ghost use Rattle.std.specs.Prelude.{◌≡◌, ◌++◌, OnOk, OnErr};
ghost use Rattle.pcep_objects.specs.Steps.{Gives};
ghost use Rattle.pcep_objects.specs.RequestObjects.{rp_of, no_path_of, end_points_of, vector_of};
ghost use Rattle.pcep_objects.specs.Spelling.{written};
ghost use Rattle.pcep_objects.specs.declared.object.Object.TheVariants as objects;

use crate::fault::BodyFault;
use crate::kind::Kind;
use crate::spelled::put_spelled;
use crate::tlvs::{skip_tlvs, word_in};
use byteorder::{BigEndian, ByteOrder};
use pcep_word::Ipv4;
use std::alloc::AllocError;

/// RP (RFC 5440 section 7.4): the number of a request, and how it is to be met.
#[derive(Clone, Copy, Debug, PartialEq, Eq)]
pub struct Rp {
    /// The P flag of the object's header: the object must be processed.
    pub p: bool,
    /// Pri, below 8: 7 is the most urgent, 0 says nothing.
    pub priority: u8,
    /// The request is about an existing path (flag R).
    pub reoptimize: bool,
    /// The path is wanted in both directions (flag B).
    pub bidirectional: bool,
    /// A loose path is good too (flag O).
    pub loose: bool,
    /// The Request-ID.
    pub id: u32,
}

/// NO-PATH (RFC 5440 section 7.5): the answer to a request that no path meets.
#[derive(Clone, Copy, Debug, PartialEq, Eq)]
pub struct NoPath {
    /// Nature of issue; 0: no path meets the constraints.
    pub nature: u8,
    /// The constraints that no path meets follow this object (flag C).
    pub constraints: bool,
    /// NO-PATH-VECTOR, if there is one.
    pub vector: Option<NoPathVector>,
}

/// NO-PATH-VECTOR: why there is no path.
#[derive(Clone, Copy, Debug, PartialEq, Eq)]
pub struct NoPathVector {
    /// The PCE can't compute paths at present.
    pub pce_unavailable: bool,
    /// The PCE doesn't know the destination.
    pub unknown_destination: bool,
    /// The PCE doesn't know the source.
    pub unknown_source: bool,
}

/// END-POINTS of IPv4 (RFC 5440 section 7.6).
#[derive(Clone, Copy, Debug, PartialEq, Eq)]
pub struct EndPoints {
    /// The P flag of the object's header.
    pub p: bool,
    /// The first node of the path.
    pub source: Ipv4,
    /// The last node of the path.
    pub destination: Ipv4,
}

/// Reads the body of an RP, whose header has this P flag.
#[tactic(auto, unfolding(crate::specs::RequestObjects::rp_of))]
pub fn read_rp(p: bool, body: &[u8]) -> Result<Rp, BodyFault>
    ensures { Gives (λ x. x) result (rp_of p body.now) }
{
    if body.len() < 8 {
        return Err(BodyFault::BadLength);
    }
    skip_tlvs(&body[8..])?;
    let flags = BigEndian::read_u32(body);
    Ok(Rp {
        p,
        priority: (flags % 8) as u8,
        reoptimize: flags & 0x08 != 0,
        bidirectional: flags & 0x10 != 0,
        loose: flags & 0x20 != 0,
        id: BigEndian::read_u32(&body[4..]),
    })
}

fn vector(word: u32) -> NoPathVector
    ensures { result ≡ vector_of word }
{
    NoPathVector {
        pce_unavailable: word & 0x1 != 0,
        unknown_destination: word & 0x2 != 0,
        unknown_source: word & 0x4 != 0,
    }
}

/// Reads the body of a NO-PATH.
#[tactic(auto, unfolding(crate::specs::RequestObjects::no_path_of))]
pub fn read_no_path(body: &[u8]) -> Result<NoPath, BodyFault>
    ensures { Gives (λ x. x) result (no_path_of body.now) }
{
    if body.len() < 4 {
        return Err(BodyFault::BadLength);
    }
    let word = word_in(1, &body[4..])?;
    Ok(NoPath {
        nature: body[0],
        constraints: body[1] & 0x80 != 0,
        vector: word.map(vector),
    })
}

/// Reads the body of an END-POINTS, whose header has this P flag.
#[tactic(auto, unfolding(crate::specs::RequestObjects::end_points_of))]
pub fn read_end_points(p: bool, body: &[u8]) -> Result<EndPoints, BodyFault>
    ensures { Gives (λ x. x) result (end_points_of p body.now) }
{
    if body.len() != 8 {
        return Err(BodyFault::BadLength);
    }
    Ok(EndPoints {
        p,
        source: Ipv4(BigEndian::read_u32(body)),
        destination: Ipv4(BigEndian::read_u32(&body[4..])),
    })
}

/// Appends an RP, with the P that it has. If memory runs out, nothing is appended.
pub fn put_rp(object: Rp, out: &mut Vec<u8>) -> Result<(), AllocError>
    ensures written { OnOk result (out.new.items ≡ out.old.items ++ written (objects.Rp object)) }
    ensures unchanged { OnErr result (out.new.items ≡ out.old.items) }
{
    let flags = u32::from(object.priority)
        + 0x08 * u32::from(object.reoptimize)
        + 0x10 * u32::from(object.bidirectional)
        + 0x20 * u32::from(object.loose);
    let [a, b, c, d] = flags.to_be_bytes();
    let [e, f, g, h] = object.id.to_be_bytes();
    put_spelled(Kind::Rp, object.p, &[a, b, c, d, e, f, g, h], out)
}

/// Appends a NO-PATH. If memory runs out, nothing is appended.
pub fn put_no_path(object: &NoPath, out: &mut Vec<u8>) -> Result<(), AllocError>
    ensures written { OnOk result (out.new.items ≡ out.old.items ++ written (objects.NoPath object.now)) }
    ensures unchanged { OnErr result (out.new.items ≡ out.old.items) }
{
    let (nature, constraints) = (object.nature, 0x80 * u8::from(object.constraints));
    match object.vector {
        None => put_spelled(Kind::NoPath, false, &[nature, constraints, 0, 0], out),
        Some(vector) => {
            let word = u8::from(vector.pce_unavailable)
                + 0x2 * u8::from(vector.unknown_destination)
                + 0x4 * u8::from(vector.unknown_source);
            let body = [nature, constraints, 0, 0, 0, 1, 0, 4, 0, 0, 0, word];
            put_spelled(Kind::NoPath, false, &body, out)
        }
    }
}

/// Appends an END-POINTS, with P set. If memory runs out, nothing is appended.
pub fn put_end_points(object: EndPoints, out: &mut Vec<u8>) -> Result<(), AllocError>
    ensures written { OnOk result (out.new.items ≡ out.old.items ++ written (objects.EndPoints object)) }
    ensures unchanged { OnErr result (out.new.items ≡ out.old.items) }
{
    let [a, b, c, d] = object.source.bytes();
    let [e, f, g, h] = object.destination.bytes();
    put_spelled(Kind::EndPoints, true, &[a, b, c, d, e, f, g, h], out)
}
