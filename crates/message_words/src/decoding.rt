//! What bytes say as one message.

ghost use Rattle.std.specs.Prelude.{◌≡◌, slice_index, OnOk, string_bytes};
ghost use Rattle.pcep_messages.specs.Messages.{message_in};
ghost use Rattle.message_words.specs.Fields.{Adds};
ghost use Rattle.message_words.specs.Faults.{kind_name, kind_words, faulty_words, SaysFault, Says};

use crate::codes::{answering_code, ends_session};
use crate::faults::{add_answer, add_fault};
use crate::messages::add_message;
use crate::places::{ObjectPlace, add_place, find_place};
use pcep_messages::{MessageFault, read_message};
use std::alloc::{AllocError, Global};
use std::fmt::Write;

/// Returns the name of the type of a message that is read.
fn kind_name(kind: u8) -> &'static str
    ensures { result.now ≡ kind_name kind }
{
    match kind {
        1 => "Open",
        2 => "Keepalive",
        3 => "PCReq",
        4 => "PCRep",
        5 => "PCNtf",
        6 => "PCErr",
        7 => "Close",
        10 => "PCRpt",
        11 => "PCUpd",
        _ => "PCInitiate",
    }
}

fn kind_in(bytes: &[u8]) -> u8
    ensures { result ≡ slice_index bytes.now 1 }
{
    if bytes.len() < 2 { 0 } else { bytes[1] }
}

/// Adds the kind of a message whose header is right.
fn add_kind(fault: MessageFault, kind: u8, text: &mut String) -> Result<(), AllocError>
    ensures { Adds result text.old text.new (kind_words fault kind) }
{
    let name = kind_name(kind);
    match fault {
        MessageFault::BadHeader => Ok(()),
        _ => write!(text, "{name}\n  "),
    }
}

fn add_faulty_at(
    fault: MessageFault,
    kind: u8,
    place: Option<ObjectPlace>,
    text: &mut String,
) -> Result<(), AllocError>
    ensures { Adds result text.old text.new (faulty_words fault kind place) }
{
    add_kind(fault, kind, text)?;
    add_fault(fault, text)?;
    add_place(place, text)?;
    add_answer(answering_code(fault), ends_session(fault), text)
}

/// Adds the fault of a message, with its place and the answer to it.
fn add_faulty(
    alloc: Global,
    bytes: &[u8],
    fault: MessageFault,
    text: &mut String,
) -> Result<(), AllocError>
    ensures { OnOk result (SaysFault bytes.now fault (string_bytes text.old) (string_bytes text.new)) }
{
    let place = find_place(alloc, fault, bytes)?;
    add_faulty_at(fault, kind_in(bytes), place, text)
}

/// Adds what the bytes of one message say: a line for its kind and one for each object that counts; or its first fault
/// with the byte at which it is, and what an open session answers.
pub fn add_decoded(alloc: Global, bytes: &[u8], text: &mut String) -> Result<(), AllocError>
    ensures { OnOk result (Says bytes.now (message_in bytes.now) (string_bytes text.old) (string_bytes text.new)) }
{
    match read_message(alloc, bytes) {
        Ok(message) => add_message(alloc, &message, text),
        Err(MessageFault::OutOfMemory) => Err(AllocError),
        Err(fault) => add_faulty(alloc, bytes, fault, text),
    }
}
