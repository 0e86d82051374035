//! Why bytes can't be read, in words.

ghost use Rattle.std.specs.Prelude.{◌≡◌};
ghost use Rattle.message_words.specs.Fields.{Adds};
ghost use Rattle.message_words.specs.Faults.{code_words, object_fault_name, malformed_name, malformed_words, fault_code, coded_or_malformed, about_words, fault_words, close_words, error_answer, answer_words};

use crate::codes::{ErrorCode, about_of, fault_code, object_code};
use error_words::error_words;
use pcep_messages::{About, MessageFault};
use pcep_objects::ObjectFault;
use std::alloc::AllocError;
use std::fmt::Write;

/// Adds an error: `fault: LSP object missing, PCErr 6/8`.
fn add_code(code: ErrorCode, text: &mut String) -> Result<(), AllocError>
    ensures { Adds result text.old text.new (code_words code) }
{
    let (error_type, value) = (code.error_type, code.value);
    let name = error_words(error_type, value);
    write!(text, "fault: {name}, PCErr {error_type}/{value}")
}

fn object_fault_name(fault: ObjectFault) -> &'static str
    ensures { result.now ≡ object_fault_name fault }
{
    match fault {
        ObjectFault::Short => "fewer than four bytes",
        ObjectFault::BadLength => "bad length of an object",
        ObjectFault::BadTlv => "bad TLV",
        ObjectFault::BadNumber => "bad number",
        ObjectFault::UnknownClass { .. } => "unknown object class",
        ObjectFault::UnknownType { .. } => "unknown object type",
        ObjectFault::OutOfMemory => "out of memory",
    }
}

fn malformed_name(fault: MessageFault) -> &'static str
    ensures { result.now ≡ malformed_name fault }
{
    match fault {
        MessageFault::BadObject(fault, _) => object_fault_name(fault),
        MessageFault::BadHeader => "bad message header",
        _ => "out of memory",
    }
}

/// Adds what has no error: `fault: bad length of an object`.
fn add_malformed(name: &str, text: &mut String) -> Result<(), AllocError>
    ensures { Adds result text.old text.new (malformed_words name.now) }
{
    write!(text, "fault: {name}")
}

fn add_name_of(fault: MessageFault, text: &mut String) -> Result<(), AllocError>
    ensures { Adds result text.old text.new (coded_or_malformed fault (fault_code fault)) }
{
    match fault_code(fault) {
        Some(code) => add_code(code, text),
        None => add_malformed(malformed_name(fault), text),
    }
}

/// Adds the request that a fault is about, if that is known.
fn add_about(about: About, text: &mut String) -> Result<(), AllocError>
    ensures { Adds result text.old text.new (about_words about) }
{
    match about {
        About::Nothing => Ok(()),
        About::Request(id) => write!(text, ", Request-ID {id}"),
        About::Srp(id) => write!(text, ", SRP-ID {id}"),
    }
}

/// Adds the fault of a message: `fault: LSP object missing, PCErr 6/8, SRP-ID 1`.
pub fn add_fault(fault: MessageFault, text: &mut String) -> Result<(), AllocError>
    ensures { Adds result text.old text.new (fault_words fault) }
{
    add_name_of(fault, text)?;
    add_about(about_of(fault), text)
}

/// Adds the fault of an object that isn't in a message.
pub fn add_object_fault(fault: ObjectFault, text: &mut String) -> Result<(), AllocError> {
    match object_code(fault) {
        Some(code) => add_code(code, text),
        None => add_malformed(object_fault_name(fault), text),
    }
}

fn close_words(closes: bool) -> &'static str
    ensures { result.now ≡ close_words closes }
{
    if closes { " and Close 3" } else { "" }
}

#[tactic(auto, unfolding(crate::specs::Faults::error_answer))]
fn add_error_answer(code: ErrorCode, text: &mut String) -> Result<(), AllocError>
    ensures { Adds result text.old text.new (error_answer code) }
{
    let (error_type, value) = (code.error_type, code.value);
    write!(text, "\n  answered by PCErr {error_type}/{value}")
}

/// Adds what an open session answers: `answered by PCErr 6/8`, `answered by Close 3`, or both.
pub fn add_answer(
    code: Option<ErrorCode>,
    closes: bool,
    text: &mut String,
) -> Result<(), AllocError>
    ensures { Adds result text.old text.new (answer_words code closes) }
{
    match code {
        Some(code) => {
            add_error_answer(code, text)?;
            text.push_str(close_words(closes))
        }
        None => text.push_str("\n  answered by Close 3"),
    }
}
