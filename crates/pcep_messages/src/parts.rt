//! The parts of a message of one item: the first object of each class.

ghost use Rattle.std.specs.Prelude.{◌≡◌, IfOk, IfErr};
ghost use Rattle.pcep_objects.specs.Bodies.{lsp_body};
ghost use Rattle.pcep_objects.specs.Objects.{body_of};
ghost use Rattle.pcep_objects.specs.Steps.{Fails, Gives};
ghost use Rattle.pcep_messages.specs.Objects.{found_in};
ghost use Rattle.pcep_messages.specs.Counting.{requested_of, greater_of};
ghost use Rattle.pcep_messages.specs.PartSteps.{no_parts, and_then, joined, ArePartsOf};
ghost use Rattle.pcep_objects.specs.declared.object.Object.TheVariants as objects;

use crate::counting::{greater, keep_first};
use crate::objects::{Next, next_object};
use pcep_objects::{
    BandwidthType, BodyFault, Close, EndPoints, Hop, Kind, LspObject, Lspa, Metric, NoPath, Object,
    ObjectFault, Open, RawObject, Rp, Srp, read_bandwidth, read_body, read_ero, read_lsp,
    read_lspa, read_rp, read_srp,
};
use pcep_word::Bandwidth;
use sequence::Sequence;
use std::alloc::{AllocError, Global};

/// The first object of each class.
#[derive(Debug, Drop)]
pub struct Parts {
    pub opening: Option<Open>,
    pub rp: Option<Rp>,
    pub no_path: Option<NoPath>,
    pub end_points: Option<EndPoints>,
    /// The greatest of those that are asked for.
    pub bandwidth: Option<Bandwidth>,
    pub metric: Option<Metric>,
    pub ero: Option<Sequence<Hop>>,
    pub lspa: Option<Lspa>,
    pub close: Option<Close>,
    pub lsp: Option<LspObject>,
    pub srp: Option<Srp>,
}

fn no_parts() -> Parts
    ensures { result ≡ no_parts }
{
    Parts {
        opening: None,
        rp: None,
        no_path: None,
        end_points: None,
        bandwidth: None,
        metric: None,
        ero: None,
        lspa: None,
        close: None,
        lsp: None,
        srp: None,
    }
}

/// Returns the greater of the bandwidths that are asked for.
fn requested(
    kind: BandwidthType,
    bandwidth: Bandwidth,
    other: Option<Bandwidth>,
) -> Option<Bandwidth>
    ensures { result ≡ greater_of other (requested_of (objects.Bandwidth kind bandwidth)) }
{
    match (other, kind) {
        (other, BandwidthType::Current) => other,
        (None, BandwidthType::Requested) => Some(bandwidth),
        (Some(other), BandwidthType::Requested) => Some(greater(other, bandwidth)),
    }
}

/// Takes in one more object.
#[inline(always)]
fn take_in(parts: &mut Parts, object: Object)
    ensures { parts.new ≡ and_then parts.old object }
{
    match object {
        Object::Open(opening) => keep_first(&mut parts.opening, opening),
        Object::Rp(rp) => keep_first(&mut parts.rp, rp),
        Object::NoPath(no_path) => keep_first(&mut parts.no_path, no_path),
        Object::EndPoints(end_points) => keep_first(&mut parts.end_points, end_points),
        Object::Bandwidth(kind, bandwidth) => {
            parts.bandwidth = requested(kind, bandwidth, parts.bandwidth);
        }
        Object::Metric(metric) => keep_first(&mut parts.metric, metric),
        Object::Ero(hops) => keep_first(&mut parts.ero, hops),
        Object::Lspa(lspa) => keep_first(&mut parts.lspa, lspa),
        Object::Close(close) => keep_first(&mut parts.close, close),
        Object::Lsp(lsp) => keep_first(&mut parts.lsp, lsp),
        Object::Srp(srp) => keep_first(&mut parts.srp, srp),
        _ => {}
    }
}

/// Reads the body of an object of any class and takes the object in.
#[inline(never)]
fn take_any(alloc: Global, front: RawObject<'_>, parts: &mut Parts) -> Result<(), BodyFault>
    ensures taken { Gives (λ done. parts.new) result (joined (body_of front.entry.kind front.entry.p front.entry.body.now) parts.old) }
    ensures own_fault { IfErr result (λ fault. Fails fault (body_of front.entry.kind front.entry.p front.entry.body.now)) }
    ensures unchanged { IfErr result (λ fault. parts.new ≡ parts.old) }
{
    take_in(parts, read_body(alloc, front.kind, front.p, front.body)?);
    Ok(())
}

/// Reads the body of an LSP and takes it in.
#[inline(always)]
fn take_lsp(alloc: Global, body: &[u8], parts: &mut Parts) -> Result<(), BodyFault>
    ensures taken { Gives (λ done. parts.new) result (joined (lsp_body body.now) parts.old) }
    ensures own_fault { IfErr result (λ fault. Fails fault (lsp_body body.now)) }
    ensures unchanged { IfErr result (λ fault. parts.new ≡ parts.old) }
{
    keep_first(&mut parts.lsp, read_lsp(alloc, body)?);
    Ok(())
}

/// Reads the body of an object and takes the object in. After a fault nothing has changed.
#[inline(always)]
fn take_front(alloc: Global, front: RawObject<'_>, parts: &mut Parts) -> Result<(), BodyFault>
    ensures taken { Gives (λ done. parts.new) result (joined (body_of front.entry.kind front.entry.p front.entry.body.now) parts.old) }
    ensures own_fault { IfErr result (λ fault. Fails fault (body_of front.entry.kind front.entry.p front.entry.body.now)) }
    ensures unchanged { IfErr result (λ fault. parts.new ≡ parts.old) }
{
    // The objects of most messages, each taken in here since its class is known.
    let (p, body) = (front.p, front.body);
    match front.kind {
        Kind::Rp => keep_first(&mut parts.rp, read_rp(p, body)?),
        Kind::Srp => keep_first(&mut parts.srp, read_srp(body)?),
        Kind::Lsp => take_lsp(alloc, body, parts)?,
        Kind::Ero => keep_first(&mut parts.ero, read_ero(alloc, body)?),
        Kind::Lspa => keep_first(&mut parts.lspa, read_lspa(body)?),
        Kind::RequestedBandwidth => {
            let bandwidth = read_bandwidth(body)?;
            parts.bandwidth = requested(BandwidthType::Requested, bandwidth, parts.bandwidth);
        }
        _ => take_any(alloc, front, parts)?,
    }
    Ok(())
}

/// Reads the parts of the objects up to the first that has a fault of its own, and that fault.
#[inline(always)]
pub fn parts_in(alloc: Global, bytes: &[u8]) -> Result<(Parts, Option<ObjectFault>), AllocError>
    ensures { IfOk result (λ x. ArePartsOf (found_in bytes.now) x.0 x.1) }
{
    let mut parts = no_parts();
    let mut rest = bytes;
    loop {
        match next_object(rest, false) {
            Next::Object(front, after) => match take_front(alloc, front, &mut parts) {
                Ok(()) => {
                    rest = after;
                }
                Err(BodyFault::OutOfMemory) => return Err(AllocError),
                Err(own) => return Ok((parts, Some(own.into()))),
            },
            Next::Bad(fault) => return Ok((parts, Some(fault))),
            Next::End => return Ok((parts, None)),
        }
    }
}
