//! What a PCUpd and a PCInitiate ask for.

ghost use Rattle.std.specs.Prelude.{◌≡◌, []};
ghost use Rattle.std.specs.Option.{option_map, unwrap_or};
ghost use Rattle.pcep_messages.specs.Updates.{attributes_of, update_with, update_of, update_body, create_with, create_or_missing, initiate_of, initiate_body};
ghost use Rattle.pcep_messages.specs.Faults.{Gives};
ghost use Rattle.pcep_messages.specs.PartSteps.{kept};

use crate::fault::MessageFault;
use crate::message::{Attributes, Create, Initiate, Message, Update};
use crate::parts::{Parts, parts_in};
use crate::reports::{about_srp, hops_or_empty, srp_id};
use pcep_objects::{EndPoints, Hop, LspObject, Lspa, Srp};
use pcep_word::Priorities;
use sequence::Sequence;
use std::alloc::Global;

fn attributes_of(lspa: Option<Lspa>) -> Option<Attributes>
    ensures { result ≡ option_map attributes_of lspa }
{
    match lspa {
        Some(lspa) => Some(Attributes {
            colours: lspa.colours,
            priorities: Priorities::new(lspa.setup, lspa.hold),
            local_protection: lspa.local_protection,
        }),
        None => None,
    }
}

fn name_or_empty(alloc: Global, name: Option<Sequence<u8>>) -> Sequence<u8>
    ensures { result ≡ unwrap_or name [] }
{
    match name {
        Some(name) => name,
        None => Sequence::from_vec(Vec::new(alloc)),
    }
}

fn update_with(alloc: Global, srp: Srp, lsp: &LspObject, parts: &mut Parts) -> Update
    ensures { result ≡ update_with srp lsp.now (kept parts.old) }
{
    let attributes = attributes_of(parts.lspa);
    Update {
        srp: srp.id,
        plsp: lsp.plsp,
        delegate: lsp.delegate,
        admin: lsp.admin,
        ero: hops_or_empty(alloc, parts.ero.take()),
        attributes,
        bandwidth: parts.bandwidth,
    }
}

/// Makes the update of these parts, and takes what it says out of them.
fn update_of(alloc: Global, parts: &mut Parts) -> Result<Message, MessageFault>
    ensures { Gives (λ x. x) result (update_of (kept parts.old)) }
{
    let about = about_srp(srp_id(parts.srp));
    let Some(srp) = parts.srp else {
        return Err(MessageFault::Missing(33, about));
    };
    let Some(lsp) = parts.lsp.take() else {
        return Err(MessageFault::Missing(32, about));
    };
    if parts.ero.is_none() && !srp.remove {
        return Err(MessageFault::Missing(7, about));
    }
    Ok(Message::Update(update_with(alloc, srp, &lsp, parts)))
}

/// Reads the body of a PCUpd.
#[tactic(auto, unfolding(crate::specs::Updates::update_body))]
#[inline(never)]
pub fn read_update(alloc: Global, body: &[u8]) -> Result<Message, MessageFault>
    ensures { Gives (λ x. x) result (update_body body.now) }
{
    let (mut parts, fault) = parts_in(alloc, body)?;
    if let Some(fault) = fault {
        let about = about_srp(srp_id(parts.srp));
        return Err(MessageFault::BadObject(fault, about));
    }
    update_of(alloc, &mut parts)
}

fn create_with(
    alloc: Global,
    srp: Srp,
    lsp: LspObject,
    end_points: EndPoints,
    hops: Sequence<Hop>,
    parts: &Parts,
) -> Create
    ensures { result ≡ create_with srp lsp end_points hops (kept parts.now) }
{
    let attributes = attributes_of(parts.lspa);
    Create {
        srp: srp.id,
        name: name_or_empty(alloc, lsp.name),
        source: end_points.source,
        destination: end_points.destination,
        ero: hops,
        attributes,
        bandwidth: parts.bandwidth,
    }
}

/// Makes the new LSP of these parts.
fn create_of(
    alloc: Global,
    srp: Srp,
    lsp: LspObject,
    parts: &mut Parts,
) -> Result<Message, MessageFault>
    ensures { Gives (λ x. x) result (create_or_missing srp lsp (kept parts.old) parts.old.ero parts.old.end_points) }
{
    let about = about_srp(srp_id(parts.srp));
    let (end_points, ero) = (parts.end_points, parts.ero.take());
    let Some(hops) = ero else {
        return Err(MessageFault::Missing(7, about));
    };
    let Some(end_points) = end_points else {
        return Err(MessageFault::Missing(4, about));
    };
    let create = create_with(alloc, srp, lsp, end_points, hops, parts);
    Ok(Message::Initiate(Initiate::Create(create)))
}

/// Makes what these parts ask for.
fn initiate_of(alloc: Global, parts: &mut Parts) -> Result<Message, MessageFault>
    ensures { Gives (λ x. x) result (initiate_of (kept parts.old)) }
{
    let about = about_srp(srp_id(parts.srp));
    let Some(srp) = parts.srp else {
        return Err(MessageFault::Missing(33, about));
    };
    let Some(lsp) = parts.lsp.take() else {
        return Err(MessageFault::Missing(32, about));
    };
    if srp.remove {
        return Ok(Message::Initiate(Initiate::Remove {
            srp: srp.id,
            plsp: lsp.plsp,
        }));
    }
    create_of(alloc, srp, lsp, parts)
}

/// Reads the body of a PCInitiate.
#[tactic(auto, unfolding(crate::specs::Updates::initiate_body))]
#[inline(never)]
pub fn read_initiate(alloc: Global, body: &[u8]) -> Result<Message, MessageFault>
    ensures { Gives (λ x. x) result (initiate_body body.now) }
{
    let (mut parts, fault) = parts_in(alloc, body)?;
    if let Some(fault) = fault {
        let about = about_srp(srp_id(parts.srp));
        return Err(MessageFault::BadObject(fault, about));
    }
    initiate_of(alloc, &mut parts)
}
