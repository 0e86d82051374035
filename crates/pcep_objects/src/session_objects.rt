//! The objects of a session's own messages (RFC 5440): OPEN, CLOSE, NOTIFICATION, PCEP-ERROR.

ghost use Rattle.std.specs.Prelude.{◌≡◌, ◌++◌, OnOk, OnErr};
ghost use Rattle.pcep_objects.specs.Steps.{Gives};
ghost use Rattle.pcep_objects.specs.SessionObjects.{open_of, close_of, notification_of, error_of, capabilities_of};
ghost use Rattle.pcep_objects.specs.Spelling.{written};
ghost use Rattle.pcep_objects.specs.declared.object.Object.TheVariants as objects;

use crate::fault::BodyFault;
use crate::kind::Kind;
use crate::spelled::put_spelled;
use crate::tlvs::{skip_tlvs, word_in};
use byteorder::{BigEndian, ByteOrder};
use lsp_words::Capabilities;
use std::alloc::AllocError;

/// OPEN (RFC 5440 section 7.3): the timers that a peer of a session asks for, and what it can do.
#[derive(Clone, Copy, Debug, PartialEq, Eq)]
pub struct Open {
    /// The longest time between two of its messages, in seconds; 0: it sends no Keepalive.
    pub keepalive: u8,
    /// How long it may send nothing before the session ends, in seconds; 0: for ever.
    pub dead_timer: u8,
    /// SID, the number that it gave the session.
    pub sid: u8,
    /// STATEFUL-PCE-CAPABILITY, if there is one.
    pub capabilities: Option<Capabilities>,
}

/// CLOSE (RFC 5440 section 7.17): why a session ends.
#[derive(Clone, Copy, Debug, PartialEq, Eq)]
pub struct Close {
    /// Reason: 1 no explanation, 2 DeadTimer expired, 3 malformed message, 4 too many unknown requests or
    /// replies, 5 too many unrecognized messages.
    pub reason: u8,
}

/// NOTIFICATION (RFC 5440 section 7.14).
#[derive(Clone, Copy, Debug, PartialEq, Eq)]
pub struct Notification {
    /// Notification-type.
    pub notification_type: u8,
    /// Notification-value.
    pub value: u8,
}

/// PCEP-ERROR (RFC 5440 section 7.15).
#[derive(Clone, Copy, Debug, PartialEq, Eq)]
pub struct PcepError {
    /// Error-Type.
    pub error_type: u8,
    /// Error-value.
    pub value: u8,
}

fn capabilities(word: u32) -> Capabilities
    ensures { result ≡ capabilities_of word }
{
    Capabilities {
        update: word & 0x1 != 0,
        create: word & 0x4 != 0,
    }
}

/// Reads the body of an OPEN. The version isn't tested.
#[tactic(auto, unfolding(crate::specs::SessionObjects::open_of))]
pub fn read_open(body: &[u8]) -> Result<Open, BodyFault>
    ensures { Gives (λ x. x) result (open_of body.now) }
{
    if body.len() < 4 {
        return Err(BodyFault::BadLength);
    }
    let word = word_in(16, &body[4..])?;
    Ok(Open {
        keepalive: body[1],
        dead_timer: body[2],
        sid: body[3],
        capabilities: word.map(capabilities),
    })
}

/// Reads the body of a CLOSE.
#[tactic(auto, unfolding(crate::specs::SessionObjects::close_of))]
pub fn read_close(body: &[u8]) -> Result<Close, BodyFault>
    ensures { Gives (λ x. x) result (close_of body.now) }
{
    if body.len() < 4 {
        return Err(BodyFault::BadLength);
    }
    skip_tlvs(&body[4..])?;
    Ok(Close { reason: body[3] })
}

/// Reads the body of a NOTIFICATION.
#[tactic(auto, unfolding(crate::specs::SessionObjects::notification_of))]
pub fn read_notification(body: &[u8]) -> Result<Notification, BodyFault>
    ensures { Gives (λ x. x) result (notification_of body.now) }
{
    if body.len() < 4 {
        return Err(BodyFault::BadLength);
    }
    skip_tlvs(&body[4..])?;
    Ok(Notification {
        notification_type: body[2],
        value: body[3],
    })
}

/// Reads the body of a PCEP-ERROR.
#[tactic(auto, unfolding(crate::specs::SessionObjects::error_of))]
pub fn read_error(body: &[u8]) -> Result<PcepError, BodyFault>
    ensures { Gives (λ x. x) result (error_of body.now) }
{
    if body.len() < 4 {
        return Err(BodyFault::BadLength);
    }
    skip_tlvs(&body[4..])?;
    Ok(PcepError {
        error_type: body[2],
        value: body[3],
    })
}

/// Appends an OPEN, of version 1. If memory runs out, nothing is appended.
pub fn put_open(object: &Open, out: &mut Vec<u8>) -> Result<(), AllocError>
    ensures written { OnOk result (out.new.items ≡ out.old.items ++ written (objects.Open object.now)) }
    ensures unchanged { OnErr result (out.new.items ≡ out.old.items) }
{
    let (keepalive, dead_timer, sid) = (object.keepalive, object.dead_timer, object.sid);
    match object.capabilities {
        None => {
            let body = [0x20, keepalive, dead_timer, sid];
            put_spelled(Kind::Open, false, &body, out)
        }
        Some(capabilities) => {
            let word = u8::from(capabilities.update) + 4 * u8::from(capabilities.create);
            let body = [0x20, keepalive, dead_timer, sid, 0, 16, 0, 4, 0, 0, 0, word];
            put_spelled(Kind::Open, false, &body, out)
        }
    }
}

/// Appends a CLOSE. If memory runs out, nothing is appended.
pub fn put_close(object: Close, out: &mut Vec<u8>) -> Result<(), AllocError>
    ensures written { OnOk result (out.new.items ≡ out.old.items ++ written (objects.Close object)) }
    ensures unchanged { OnErr result (out.new.items ≡ out.old.items) }
{
    put_spelled(Kind::Close, false, &[0, 0, 0, object.reason], out)
}

/// Appends a NOTIFICATION. If memory runs out, nothing is appended.
pub fn put_notification(object: Notification, out: &mut Vec<u8>) -> Result<(), AllocError>
    ensures written { OnOk result (out.new.items ≡ out.old.items ++ written (objects.Notification object)) }
    ensures unchanged { OnErr result (out.new.items ≡ out.old.items) }
{
    let body = [0, 0, object.notification_type, object.value];
    put_spelled(Kind::Notification, false, &body, out)
}

/// Appends a PCEP-ERROR. If memory runs out, nothing is appended.
pub fn put_error(object: PcepError, out: &mut Vec<u8>) -> Result<(), AllocError>
    ensures written { OnOk result (out.new.items ≡ out.old.items ++ written (objects.Error object)) }
    ensures unchanged { OnErr result (out.new.items ≡ out.old.items) }
{
    let body = [0, 0, object.error_type, object.value];
    put_spelled(Kind::Error, false, &body, out)
}
