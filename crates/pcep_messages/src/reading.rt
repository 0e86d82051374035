//! Whole messages.

ghost use Rattle.std.specs.Prelude.{◌≡◌, ◌≢◌, ℕ, List, true, IfOk, IfErr};
ghost use Rattle.pcep_messages.specs.Messages.{has_header, message_in, Reads, IsFaulty, ReadsOrIsFaulty};
ghost use Rattle.pcep_messages.specs.Faults.{Gives};
ghost use Rattle.pcep_messages.specs.declared.fault.MessageFault.TheVariants.{OutOfMemory};

use crate::errors::read_errors;
use crate::fault::{About, MessageFault};
use crate::message::Message;
use crate::notifications::read_notification;
use crate::replies::read_reply;
use crate::report_steps::reports_in;
use crate::requests::requests_in;
use crate::sessions::{read_close, read_keepalive, read_opening};
use crate::updates::{read_initiate, read_update};
use byteorder::{BigEndian, ByteOrder};
use sequence::Sequence;
use std::alloc::Global;

fn has_header(bytes: &[u8]) -> bool
    ensures { result ≡ has_header bytes.now }
{
    bytes.len() >= 4
        && bytes[0] >> 5 == 1
        && BigEndian::read_u16(&bytes[2..]) as usize == bytes.len()
        && bytes.len() % 4 == 0
}

// What may be long is made where it is handed out, since moving a message copies it.
#[tactic(auto, unfolding(crate::specs::Messages::message_in, crate::specs::Requests::request_body))]
#[inline(never)]
fn read(alloc: Global, bytes: &[u8]) -> Result<Message, MessageFault>
    ensures gives { Gives (λ x. x) result (message_in bytes.now) }
    ensures memory { IfErr result (λ e. e ≡ OutOfMemory → has_header bytes.now ≡ true) }
{
    if !has_header(bytes) {
        return Err(MessageFault::BadHeader);
    }
    let (kind, body) = (bytes[1], &bytes[4..]);
    match kind {
        1 => read_opening(alloc, body),
        2 => read_keepalive(alloc, body),
        3 => {
            let requests = requests_in(alloc, body)?;
            return Ok(Message::Request(Sequence::from_vec(requests)));
        }
        4 => read_reply(alloc, body),
        5 => read_notification(alloc, body),
        6 => read_errors(alloc, body),
        7 => read_close(alloc, body),
        10 => {
            let reports = reports_in(alloc, body)?;
            return Ok(Message::Report(Sequence::from_vec(reports)));
        }
        11 => read_update(alloc, body),
        12 => read_initiate(alloc, body),
        _ => Ok(Message::Unknown(kind)),
    }
}

/// Reads the bytes of one whole message.
///
/// Objects are read from first to last, and the first fault refuses the whole message. At one object its own fault
/// comes first, then what the item that it ends lacks, then its P flag, its place or its missing identifiers. Objects
/// that an item doesn't name are skipped. So are those of unknown classes and types, except those of a PCReq that have
/// P set. In a message of one item the first object of each class counts (of BANDWIDTHs the greatest), and what it
/// lacks is reported in the order SRP, LSP, ERO, RP, END-POINTS. `OutOfMemory` comes if memory runs out, in place of
/// any answer except `BadHeader`.
pub fn read_message(alloc: Global, bytes: &[u8]) -> Result<Message, MessageFault>
    ensures reads { IfOk result (Reads bytes.now) }
    ensures first_fault { IfErr result (λ e. e ≢ OutOfMemory → IsFaulty bytes.now e) }
    ensures memory { IfErr result (λ e. e ≡ OutOfMemory → has_header bytes.now ≡ true) }
{
    read(alloc, bytes)
}

/// Shows that any bytes either read as one message or have one first fault, and never both.
pub fn messages_are_read_or_faulty()
    ensures { (bytes : List ℕ) → ReadsOrIsFaulty bytes }
{}
