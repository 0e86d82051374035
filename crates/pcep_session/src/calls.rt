//! The calls of a session on its contents.

ghost use Rattle.std.specs.Prelude.{◌≡◌, ◌++◌, None, false, IsOk, IfOk, OnOk, OnErr};
ghost use Rattle.pcep_session.specs.Changes.{IsUpOr};
ghost use Rattle.pcep_session.specs.Turns.{is_closed};
ghost use Rattle.pcep_session.specs.Calls.{own_open, begun, ticked, fed_by, sent, error_reported, text_of_error, text_of_reason, ended_by, Does};

use crate::bytes::{Output, ReceivedBytes};
use crate::contents::Contents;
use crate::fault::SessionFault;
use crate::table::{EndReason, State};
use pcep_messages::{Message, Notice, PcError, put_notice};
use sequence::Sequence;
use std::alloc::{AllocError, Global};

/// The session's own Open: Keepalive 30 s, DeadTimer 120 s, SID 0, and STATEFUL-PCE-CAPABILITY with U and I.
const OWN_OPEN: [u8; 20] = [
    0x20, 1, 0, 20, 1, 0x10, 0, 16, 0x20, 30, 120, 0, 0, 16, 0, 4, 0, 0, 0, 5,
];

fn put_own_open(output: &mut Output) -> Result<(), AllocError>
    ensures { OnOk result (output.new ≡ output.old ++ own_open) }
{
    output.append(&OWN_OPEN)
}

pub fn begin(alloc: Global, now_ms: u64) -> Result<Contents, AllocError>
    ensures { IfOk result (λ c. c ≡ begun now_ms) }
{
    let mut output = Output::new(alloc);
    put_own_open(&mut output)?;
    Ok(Contents {
        state: State::OpenWait,
        bytes: ReceivedBytes::new(alloc),
        moment_ms: now_ms,
        received_ms: now_ms,
        sent_ms: now_ms,
        unrecognized: Sequence::from_vec(Vec::new(alloc)),
        peer: None,
        end: None,
        down_pending: false,
        output,
    })
}

pub fn tick(contents: &mut Contents, now_ms: u64)
    ensures { contents.new ≡ ticked now_ms contents.old }
{
    contents.moment_ms = contents.moment_ms.max(now_ms);
}

pub fn feed(contents: &mut Contents, piece: &[u8], now_ms: u64) -> Result<(), SessionFault>
    ensures { Does result contents.old contents.new (fed_by piece.now now_ms contents.old) }
{
    if contents.state.is_closed() {
        return Err(SessionFault::Closed);
    }
    contents.bytes.append(piece)?;
    tick(contents, now_ms);
    Ok(())
}

/// Tests that the session is up: no other session sends.
fn test_up(state: State) -> Result<(), SessionFault>
    ensures { IsUpOr result state }
{
    match state {
        State::Up => Ok(()),
        State::Closed => Err(SessionFault::Closed),
        _ => Err(SessionFault::NotUp),
    }
}

pub fn send(contents: &mut Contents, message: &Message) -> Result<(), SessionFault>
    ensures { Does result contents.old contents.new (sent message.now contents.old) }
{
    test_up(contents.state)?;
    if !message.is_written() {
        return Err(SessionFault::TooLong);
    }
    contents.output.write(message)?;
    contents.sent_ms = contents.moment_ms;
    Ok(())
}

pub fn report_error(
    alloc: Global,
    contents: &mut Contents,
    error: PcError,
) -> Result<(), SessionFault>
    ensures { Does result contents.old contents.new (error_reported error contents.old) }
{
    test_up(contents.state)?;
    let mut text = Vec::new(alloc);
    put_notice(&mut text, Notice::Error(error))?;
    contents.output.append(&text)?;
    contents.sent_ms = contents.moment_ms;
    Ok(())
}

fn put_error(out: &mut Vec<u8>, error: Option<PcError>) -> Result<(), AllocError>
    ensures { OnOk result (out.new.items ≡ out.old.items ++ text_of_error error) }
{
    match error {
        None => Ok(()),
        Some(error) => put_notice(out, Notice::Error(error)),
    }
}

fn put_reason(out: &mut Vec<u8>, reason: Option<u8>) -> Result<(), AllocError>
    ensures { OnOk result (out.new.items ≡ out.old.items ++ text_of_reason reason) }
{
    match reason {
        None => Ok(()),
        Some(reason) => put_notice(out, Notice::Close(reason)),
    }
}

/// Allocates nothing if there is nothing to write.
fn put_end(
    alloc: Global,
    output: &mut Output,
    error: Option<PcError>,
    reason: Option<u8>,
) -> Result<(), AllocError>
    ensures ok { OnOk result (output.new ≡ output.old ++ text_of_error error ++ text_of_reason reason) }
    ensures err { OnErr result (output.new ≡ output.old) }
    ensures nothing { error ≡ None → reason ≡ None → IsOk result }
{
    if error.is_none() && reason.is_none() {
        return Ok(());
    }
    let mut text = Vec::new(alloc);
    put_error(&mut text, error)?;
    put_reason(&mut text, reason)?;
    output.append(&text)
}

pub fn end(
    alloc: Global,
    contents: &mut Contents,
    error: Option<PcError>,
    reason: Option<u8>,
) -> Result<(), SessionFault>
    ensures step { Does result contents.old contents.new (ended_by error reason contents.old) }
    ensures nothing { is_closed contents.old.state ≡ false → error ≡ None → reason ≡ None → IsOk result }
{
    if contents.state.is_closed() {
        return Err(SessionFault::Closed);
    }
    put_end(alloc, &mut contents.output, error, reason)?;
    contents.state = State::Closed;
    contents.bytes.clear();
    contents.end = Some(EndReason::Caller(error, reason));
    contents.down_pending = true;
    Ok(())
}
