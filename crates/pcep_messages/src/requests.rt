//! The path requests of a PCReq, read object by object.

ghost use Rattle.std.specs.Prelude.{◌≡◌, List, None, Some, Err, IfOk, IfErr};
ghost use Rattle.pcep_objects.specs.Objects.{body_of};
ghost use Rattle.pcep_objects.specs.Steps.{Fails};
ghost use Rattle.pcep_messages.specs.ObjectSteps.{taken_by};
ghost use Rattle.pcep_messages.specs.declared.message.PathRequest.{PathRequest};
ghost use Rattle.pcep_messages.specs.Faults.{Gives};
ghost use Rattle.pcep_messages.specs.Requests.{lacks_rro, request_with, fault_of_kept, fault_in_front, requests_in_body};
ghost use Rattle.pcep_messages.specs.RequestSteps.{place_fault, request_from, ended, after_rp, after, finished_at, Steps, Ends, Joins};
ghost use Rattle.pcep_objects.specs.declared.object.BandwidthType.TheVariants.{Requested};
ghost use Rattle.pcep_objects.specs.declared.object.Object.TheVariants as objects;

use crate::asked::{Asked, begun, take, take_bandwidth, take_end_points};
use crate::fault::{About, MessageFault};
use crate::message::PathRequest;
use crate::objects::{Next, next_object};
use crate::reports::{colours_of, priorities_of};
use pcep_objects::{
    BandwidthType, BodyFault, EndPoints, KeptClass, Kind, Lspa, Metric, MetricType, Object,
    ObjectFault, Plsp, RawObject, Rp, read_bandwidth, read_body, read_end_points, read_lspa,
    read_metric, read_rp,
};
use pcep_word::Bandwidth;
use std::alloc::Global;

fn request_with(asked: &Asked, ends: EndPoints) -> PathRequest
    ensures { result ≡ request_with asked.now.rp ends asked.now.plsp asked.now.bandwidth asked.now.lspa asked.now.minimised asked.now.bounds }
{
    let priorities = priorities_of(asked.lspa);
    let colours = colours_of(asked.lspa);
    PathRequest {
        request: asked.rp.id,
        plsp: asked.plsp,
        source: ends.source,
        destination: ends.destination,
        bandwidth: asked.bandwidth,
        priorities,
        colours,
        minimise: asked.minimised.unwrap_or(MetricType::Te),
        bounds: asked.bounds,
    }
}

fn lacks_rro(asked: &Asked) -> bool
    ensures { result ≡ lacks_rro asked.now.rp asked.now.has_rro asked.now.has_bandwidth }
{
    asked.rp.reoptimize && !asked.has_rro && asked.has_bandwidth
}

/// Makes the request of what was read, at its end.
fn request_from(asked: &Asked) -> Result<PathRequest, MessageFault>
    ensures { Gives (λ x. x) result (request_from asked.now None) }
{
    let about = About::Request(asked.rp.id);
    let Some(ends) = asked.ends else {
        return Err(MessageFault::Refused(6, 3, about));
    };
    if lacks_rro(asked) {
        return Err(MessageFault::Refused(6, 2, about));
    }
    Ok(request_with(asked, ends))
}

fn fault_of_kept(class: KeptClass, p: bool) -> Option<MessageFault>
    ensures { result ≡ fault_of_kept class p }
{
    match class {
        KeptClass::Svec if p => Some(MessageFault::Refused(4, 1, About::Nothing)),
        KeptClass::Svec => None,
        KeptClass::Iro | KeptClass::LoadBalancing => {
            Some(MessageFault::Refused(6, 1, About::Nothing))
        }
    }
}

/// Returns the fault of an object before the first RP.
fn fault_in_front(object: &Object) -> Option<MessageFault>
    ensures { result ≡ fault_in_front object.now }
{
    match object {
        Object::Kept(kept) => fault_of_kept(kept.class, kept.p),
        _ => Some(MessageFault::Refused(6, 1, About::Nothing)),
    }
}

/// Returns the fault of an object at its place in a request.
fn place_fault(about: About, first: Option<EndPoints>, object: &Object) -> Option<MessageFault>
    ensures { result ≡ place_fault about first object.now }
{
    match object {
        Object::EndPoints(ends) if first.is_none() && !ends.p => Some(MessageFault::BadP(about)),
        Object::Kept(kept) if kept.p => Some(MessageFault::Refused(4, 1, about)),
        _ => None,
    }
}

/// Returns the first fault, if an object has one of its own.
fn cut_off(asked: &Option<Asked>, fault: ObjectFault) -> MessageFault
    ensures { (requests : List PathRequest) → finished_at asked.now requests (Some fault) ≡ Err result }
{
    match asked {
        None => MessageFault::BadObject(fault, About::Nothing),
        Some(asked) => MessageFault::BadObject(fault, About::Request(asked.rp.id)),
    }
}

/// Ends the request before an RP, if one has begun.
#[inline(never)]
fn end_before(asked: &Option<Asked>, requests: &mut Vec<PathRequest>) -> Result<(), MessageFault>
    ensures { Ends (ended asked.now requests.old.items) result requests.new.items }
{
    if let Some(asked) = asked {
        // only for the proof: the type of a field that a request has
        let _plsp: Option<Plsp> = asked.plsp;
        requests.push(request_from(asked)?)?;
    }
    Ok(())
}

/// Ends the last request and returns all of them.
#[inline(always)]
fn finish(
    asked: Option<Asked>,
    mut requests: Vec<PathRequest>,
) -> Result<Vec<PathRequest>, MessageFault>
    ensures { Gives (λ v. v.items) result (finished_at asked requests.items None) }
{
    match asked {
        None => Err(MessageFault::Refused(6, 1, About::Nothing)),
        Some(asked) => {
            // only for the proof: the type of a field that a request has
            let _plsp: Option<Plsp> = asked.plsp;
            requests.push(request_from(&asked)?)?;
            Ok(requests)
        }
    }
}

/// Takes in an RP, which ends the request before it and begins its own.
#[inline(always)]
fn take_rp(
    rp: Rp,
    asked: &mut Option<Asked>,
    requests: &mut Vec<PathRequest>,
) -> Result<(), MessageFault>
    ensures { Steps (after_rp rp asked.old requests.old.items) result requests.new.items asked.new }
{
    if asked.is_some() {
        end_before(asked, requests)?;
    }
    if !rp.p {
        return Err(MessageFault::BadP(About::Request(rp.id)));
    }
    *asked = Some(begun(rp));
    Ok(())
}

/// Takes in END-POINTS. The first of a request must have P set.
#[inline(always)]
fn take_ends(ends: EndPoints, asked: &mut Option<Asked>) -> Result<(), MessageFault>
    ensures { Joins asked.old (objects.EndPoints ends) result asked.new }
{
    match asked {
        None => Err(MessageFault::Refused(6, 1, About::Nothing)),
        Some(asked) if asked.ends.is_none() && !ends.p => {
            Err(MessageFault::BadP(About::Request(asked.rp.id)))
        }
        Some(asked) => {
            take_end_points(asked, ends);
            Ok(())
        }
    }
}

/// Takes in the bandwidth that is asked for.
#[inline(always)]
fn take_requested(bandwidth: Bandwidth, asked: &mut Option<Asked>) -> Result<(), MessageFault>
    ensures { Joins asked.old (objects.Bandwidth Requested bandwidth) result asked.new }
{
    match asked {
        None => Err(MessageFault::Refused(6, 1, About::Nothing)),
        Some(asked) => {
            take_bandwidth(asked, BandwidthType::Requested, bandwidth);
            Ok(())
        }
    }
}

/// Takes in an object other than an RP.
#[inline(always)]
fn take_other(object: &Object, asked: &mut Option<Asked>) -> Result<(), MessageFault>
    ensures { Joins asked.old object.now result asked.new }
{
    match asked {
        None => match fault_in_front(object) {
            Some(fault) => Err(fault),
            None => Ok(()),
        },
        Some(asked) => match place_fault(About::Request(asked.rp.id), asked.ends, object) {
            Some(fault) => Err(fault),
            None => {
                take(asked, object);
                Ok(())
            }
        },
    }
}

/// Takes in one more object.
#[inline(always)]
fn take_in(
    object: Object,
    asked: &mut Option<Asked>,
    requests: &mut Vec<PathRequest>,
) -> Result<(), MessageFault>
    ensures { Steps (after object (record { requests = requests.old.items; asked = asked.old })) result requests.new.items asked.new }
{
    if let Object::Rp(rp) = object {
        return take_rp(rp, asked, requests);
    }
    take_other(&object, asked)
}

/// Takes in an LSPA.
#[inline(always)]
fn take_lspa(lspa: Lspa, asked: &mut Option<Asked>) -> Result<(), MessageFault>
    ensures { Joins asked.old (objects.Lspa lspa) result asked.new }
{
    take_other(&Object::Lspa(lspa), asked)
}

/// Takes in a METRIC.
#[inline(always)]
fn take_metric(metric: Metric, asked: &mut Option<Asked>) -> Result<(), MessageFault>
    ensures { Joins asked.old (objects.Metric metric) result asked.new }
{
    take_other(&Object::Metric(metric), asked)
}

/// Reads the body of an object of any class and takes the object in.
#[inline(always)]
fn take_any(
    alloc: Global,
    front: RawObject<'_>,
    asked: &mut Option<Asked>,
    requests: &mut Vec<PathRequest>,
) -> Result<Result<(), MessageFault>, BodyFault>
    ensures taken { IfOk result (λ step. Steps (taken_by after (body_of front.entry.kind front.entry.p front.entry.body.now) (record { requests = requests.old.items; asked = asked.old })) step requests.new.items asked.new) }
    ensures own_fault { IfErr result (λ fault. Fails fault (body_of front.entry.kind front.entry.p front.entry.body.now)) }
    ensures same_asked { IfErr result (λ fault. asked.new ≡ asked.old) }
    ensures same_requests { IfErr result (λ fault. requests.new.items ≡ requests.old.items) }
{
    let object = read_body(alloc, front.kind, front.p, front.body)?;
    Ok(take_in(object, asked, requests))
}

/// Reads the body of an object and takes the object in. The outer fault is the object's own, and after it what was
/// asked has not changed.
#[inline(always)]
fn take_front(
    alloc: Global,
    front: RawObject<'_>,
    asked: &mut Option<Asked>,
    requests: &mut Vec<PathRequest>,
) -> Result<Result<(), MessageFault>, BodyFault>
    ensures taken { IfOk result (λ step. Steps (taken_by after (body_of front.entry.kind front.entry.p front.entry.body.now) (record { requests = requests.old.items; asked = asked.old })) step requests.new.items asked.new) }
    ensures own_fault { IfErr result (λ fault. Fails fault (body_of front.entry.kind front.entry.p front.entry.body.now)) }
    ensures same_asked { IfErr result (λ fault. asked.new ≡ asked.old) }
    ensures same_requests { IfErr result (λ fault. requests.new.items ≡ requests.old.items) }
{
    // The objects of most requests, each taken in here since its class is known.
    let (p, body) = (front.p, front.body);
    Ok(match front.kind {
        Kind::Rp => take_rp(read_rp(p, body)?, asked, requests),
        Kind::EndPoints => take_ends(read_end_points(p, body)?, asked),
        Kind::Lspa => take_lspa(read_lspa(body)?, asked),
        Kind::Metric => take_metric(read_metric(body)?, asked),
        Kind::RequestedBandwidth => take_requested(read_bandwidth(body)?, asked),
        _ => take_any(alloc, front, asked, requests)?,
    })
}

/// Reads the requests of the body of a PCReq.
#[inline(never)]
pub fn requests_in(alloc: Global, body: &[u8]) -> Result<Vec<PathRequest>, MessageFault>
    ensures { Gives (λ v. v.items) result (requests_in_body body.now) }
{
    // Most messages have one.
    let mut requests = Vec::with_capacity(alloc, 1)?;
    let mut asked = None;
    let mut rest = body;
    loop {
        match next_object(rest, true) {
            Next::Object(front, after) => match take_front(
                alloc,
                front,
                &mut asked,
                &mut requests,
            ) {
                Ok(step) => {
                    step?;
                    rest = after;
                }
                Err(BodyFault::OutOfMemory) => return Err(MessageFault::OutOfMemory),
                Err(own) => return Err(cut_off(&asked, own.into())),
            },
            Next::Bad(fault) => return Err(cut_off(&asked, fault)),
            Next::End => return finish(asked, requests),
        }
    }
}
