//! The messages that open, keep and close a session: Open, Keepalive, Close.

ghost use Rattle.std.specs.Prelude.{◌≡◌};
ghost use Rattle.pcep_messages.specs.Sessions.{opening_body, keepalive_body, reason_of, close_body};
ghost use Rattle.pcep_messages.specs.Faults.{Gives};

use crate::fault::{About, MessageFault};
use crate::message::Message;
use crate::parts::parts_in;
use pcep_objects::Close;
use std::alloc::Global;

/// Reads the body of an Open.
#[tactic(auto, unfolding(crate::specs::Sessions::opening_body))]
#[inline(never)]
pub fn read_opening(alloc: Global, body: &[u8]) -> Result<Message, MessageFault>
    ensures { Gives (λ x. x) result (opening_body body.now) }
{
    let (parts, fault) = parts_in(alloc, body)?;
    if let Some(fault) = fault {
        return Err(MessageFault::BadObject(fault, About::Nothing));
    }
    match parts.opening {
        Some(opening) => Ok(Message::Opening(opening)),
        None => Err(MessageFault::Missing(1, About::Nothing)),
    }
}

/// Reads the body of a Keepalive, whose objects are skipped.
#[tactic(auto, unfolding(crate::specs::Sessions::keepalive_body))]
#[inline(never)]
pub fn read_keepalive(alloc: Global, body: &[u8]) -> Result<Message, MessageFault>
    ensures { Gives (λ x. x) result (keepalive_body body.now) }
{
    let (_parts, fault) = parts_in(alloc, body)?;
    match fault {
        Some(fault) => Err(MessageFault::BadObject(fault, About::Nothing)),
        None => Ok(Message::Keepalive),
    }
}

fn reason_of(close: Option<Close>) -> u8
    ensures { result ≡ reason_of close }
{
    match close {
        Some(close) => close.reason,
        None => 1,
    }
}

/// Reads the body of a Close.
#[tactic(auto, unfolding(crate::specs::Sessions::close_body))]
#[inline(never)]
pub fn read_close(alloc: Global, body: &[u8]) -> Result<Message, MessageFault>
    ensures { Gives (λ x. x) result (close_body body.now) }
{
    let (parts, fault) = parts_in(alloc, body)?;
    if let Some(fault) = fault {
        return Err(MessageFault::BadObject(fault, About::Nothing));
    }
    Ok(Message::Close(reason_of(parts.close)))
}
