//! The errors that answer faults (RFC 5440 section 7.15, RFC 8231 section 8.5).

ghost use Rattle.std.specs.Prelude.{◌≡◌};
ghost use Rattle.message_words.specs.Faults.{error_code, missing_code, object_code, fault_code, answering_code, is_unknown, ends_session, about_of};
ghost use Rattle.pcep_session.specs.Table.{missing_value};

use pcep_messages::{About, MessageFault};
use pcep_objects::ObjectFault;

/// The type and value of a PCEP-ERROR.
#[derive(Clone, Copy)]
pub struct ErrorCode {
    pub error_type: u8,
    pub value: u8,
}

fn error_code(error_type: u8, value: u8) -> ErrorCode
    ensures { result ≡ error_code error_type value }
{
    ErrorCode { error_type, value }
}

/// Returns the error for a missing object, by its class.
fn missing_code(class: u8) -> ErrorCode
    ensures { result ≡ missing_code class }
{
    match class {
        1 => error_code(1, 1),
        2 => error_code(6, 1),
        4 => error_code(6, 3),
        32 => error_code(6, 8),
        33 => error_code(6, 10),
        _ => error_code(6, 9),
    }
}

/// Returns the error for an object's own fault. None: the message is malformed.
pub fn object_code(fault: ObjectFault) -> Option<ErrorCode>
    ensures { result ≡ object_code fault }
{
    match fault {
        ObjectFault::UnknownClass { .. } => Some(error_code(3, 1)),
        ObjectFault::UnknownType { .. } => Some(error_code(3, 2)),
        _ => None,
    }
}

/// Returns the error that names the fault. None: the message is malformed.
pub fn fault_code(fault: MessageFault) -> Option<ErrorCode>
    ensures { result ≡ fault_code fault }
{
    match fault {
        MessageFault::BadObject(fault, _) => object_code(fault),
        MessageFault::Missing(class, _) => Some(missing_code(class)),
        MessageFault::MissingIdentifiers(_) => Some(error_code(6, 11)),
        MessageFault::BadP(_) => Some(error_code(10, 1)),
        MessageFault::Refused(error_type, value, _) => Some(error_code(error_type, value)),
        MessageFault::BadHeader | MessageFault::OutOfMemory => None,
    }
}

/// Returns the Error-value of type 6 by which an open session answers what is missing.
fn missing_value(class: u8) -> u8
    ensures { result ≡ missing_value class }
{
    match class {
        2 => 1,
        4 => 3,
        32 => 8,
        33 => 10,
        _ => 9,
    }
}

/// Returns the error by which an open session answers.
pub fn answering_code(fault: MessageFault) -> Option<ErrorCode>
    ensures { result ≡ answering_code fault }
{
    match fault {
        MessageFault::Missing(class, _) => Some(error_code(6, missing_value(class))),
        _ => fault_code(fault),
    }
}

fn is_unknown(fault: ObjectFault) -> bool
    ensures { result ≡ is_unknown fault }
{
    matches!(
        fault,
        ObjectFault::UnknownClass { .. } | ObjectFault::UnknownType { .. }
    )
}

/// Tests whether the fault ends an open session.
pub fn ends_session(fault: MessageFault) -> bool
    ensures { result ≡ ends_session fault }
{
    match fault {
        MessageFault::BadObject(fault, _) => !is_unknown(fault),
        MessageFault::MissingIdentifiers(_) | MessageFault::BadHeader => true,
        _ => false,
    }
}

/// Returns the request that a fault is about.
pub fn about_of(fault: MessageFault) -> About
    ensures { result ≡ about_of fault }
{
    match fault {
        MessageFault::BadObject(_, about) => about,
        MessageFault::Missing(_, about) => about,
        MessageFault::MissingIdentifiers(about) => about,
        MessageFault::BadP(about) => about,
        MessageFault::Refused(_, _, about) => about,
        MessageFault::BadHeader | MessageFault::OutOfMemory => About::Nothing,
    }
}
