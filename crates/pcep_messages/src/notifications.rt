//! PCNtf, which is ignored.

ghost use Rattle.std.specs.Prelude.{◌≡◌};
ghost use Rattle.pcep_messages.specs.Notifications.{notification_body};
ghost use Rattle.pcep_messages.specs.Faults.{Gives};

use crate::fault::{About, MessageFault};
use crate::message::Message;
use crate::objects::objects_in;
use std::alloc::Global;

/// Reads the body of a PCNtf. Its objects must only be readable.
#[tactic(auto, unfolding(crate::specs::Notifications::notification_body))]
#[inline(never)]
pub fn read_notification(alloc: Global, body: &[u8]) -> Result<Message, MessageFault>
    ensures { Gives (λ x. x) result (notification_body body.now) }
{
    let (_objects, fault) = objects_in(alloc, body)?;
    match fault {
        None => Ok(Message::Notify),
        Some(fault) => Err(MessageFault::BadObject(fault, About::Nothing)),
    }
}
