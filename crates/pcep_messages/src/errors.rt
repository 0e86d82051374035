//! What a PCErr says.

ghost use Rattle.std.specs.Prelude.{◌≡◌, IfOk};
ghost use Rattle.std.specs.List.{filter_map};
ghost use Rattle.pcep_messages.specs.Errors.{named_request, named_srp, named_error, errors_of, errors_body};
ghost use Rattle.pcep_messages.specs.Faults.{Gives};

use crate::fault::{About, MessageFault};
use crate::message::{Errors, Message};
use crate::objects::objects_in;
use pcep_objects::{Object, PcepError};
use sequence::Sequence;
use std::alloc::{AllocError, Global};

fn named_request(object: &Object) -> Option<u32>
    ensures { result ≡ named_request object.now }
{
    match object {
        Object::Rp(rp) => Some(rp.id),
        _ => None,
    }
}

fn named_srp(object: &Object) -> Option<u32>
    ensures { result ≡ named_srp object.now }
{
    match object {
        Object::Srp(srp) => Some(srp.id),
        _ => None,
    }
}

fn named_error(object: &Object) -> Option<PcepError>
    ensures { result ≡ named_error object.now }
{
    match object {
        Object::Error(error) => Some(*error),
        _ => None,
    }
}

fn requests_in(alloc: Global, objects: &[Object]) -> Result<Vec<u32>, AllocError>
    ensures { IfOk result (λ v. v.items ≡ filter_map named_request objects.now) }
{
    objects
        .iter()
        .filter_map(|object| named_request(object))
        .collect(alloc)
}

fn srps_in(alloc: Global, objects: &[Object]) -> Result<Vec<u32>, AllocError>
    ensures { IfOk result (λ v. v.items ≡ filter_map named_srp objects.now) }
{
    objects
        .iter()
        .filter_map(|object| named_srp(object))
        .collect(alloc)
}

fn errors_in(alloc: Global, objects: &[Object]) -> Result<Vec<PcepError>, AllocError>
    ensures { IfOk result (λ v. v.items ≡ filter_map named_error objects.now) }
{
    objects
        .iter()
        .filter_map(|object| named_error(object))
        .collect(alloc)
}

fn errors_of(alloc: Global, objects: &[Object]) -> Result<Errors, AllocError>
    ensures { IfOk result (λ errors. errors ≡ errors_of objects.now) }
{
    let requests = requests_in(alloc, objects)?;
    let srps = srps_in(alloc, objects)?;
    let errors = errors_in(alloc, objects)?;
    Ok(Errors {
        requests: Sequence::from_vec(requests),
        srps: Sequence::from_vec(srps),
        errors: Sequence::from_vec(errors),
    })
}

/// Reads the body of a PCErr.
#[tactic(auto, unfolding(crate::specs::Errors::errors_body))]
#[inline(never)]
pub fn read_errors(alloc: Global, body: &[u8]) -> Result<Message, MessageFault>
    ensures { Gives (λ x. x) result (errors_body body.now) }
{
    let (objects, fault) = objects_in(alloc, body)?;
    if let Some(fault) = fault {
        return Err(MessageFault::BadObject(fault, About::Nothing));
    }
    let errors = errors_of(alloc, objects.as_slice())?;
    Ok(Message::Error(errors))
}
