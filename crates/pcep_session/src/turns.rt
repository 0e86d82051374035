//! One turn of a session: its next whole message, else the timer that is due, else nothing. Each function makes all its
//! allocations before it changes anything that a contract sees.

ghost use Rattle.std.specs.Prelude.{◌≡◌, ◌++◌, ◌≤◌, length, Some, is_some, IfOk, IfErr, OnOk, OnErr, IsOk, true};
ghost use Rattle.pcep_session.specs.Changes.{received_as};
ghost use Rattle.pcep_session.specs.Framing.{front_of};
ghost use Rattle.pcep_session.specs.Turns.{is_closed, notices_text, sent_at, sending, going_to, IsTurn, turn_by, on_arrival, is_silent, due_in, by_timer, by_front, after_end, next};
ghost use Rattle.pcep_session.specs.declared.fault.SessionFault.TheVariants.{OutOfMemory};
ghost use Rattle.pcep_session.specs.declared.framing.NextMessage.TheVariants as fronts;

use crate::arrivals::{arrival, capabilities_of, is_fifth, peer_after, unrecognized_after};
use crate::contents::Contents;
use crate::fault::SessionFault;
use crate::framing::{NextMessage, front_in};
use crate::reactions::{due, on_timer, reaction};
use crate::table::{Arrival, EndReason, Input, Notices, Reaction, State, Timer};
use pcep_messages::put_notice;
use pcep_objects::Open;
use sequence::Sequence;
use std::alloc::{AllocError, Global};

fn put_notices(out: &mut Vec<u8>, notices: Notices) -> Result<(), AllocError>
    ensures { OnOk result (out.new.items ≡ out.old.items ++ notices_text notices) }
{
    match notices {
        Notices::Nothing => Ok(()),
        Notices::One(notice) => put_notice(out, notice),
        Notices::Two(first, second) => {
            put_notice(out, first)?;
            put_notice(out, second)
        }
    }
}

fn sent_at(notices: Notices, now_ms: u64, sent_ms: u64) -> u64
    ensures { result ≡ sent_at notices now_ms sent_ms }
{
    match notices {
        Notices::Nothing => sent_ms,
        _ => now_ms,
    }
}

/// Sends notices. This is the only step of a turn that grows what the session has.
fn send_notices(alloc: Global, contents: &mut Contents, notices: Notices) -> Result<(), AllocError>
    ensures ok { OnOk result (contents.new ≡ sending notices contents.old) }
    ensures err { OnErr result (contents.new ≡ contents.old) }
{
    let mut text = Vec::new(alloc);
    put_notices(&mut text, notices)?;
    contents.output.append(&text)?;
    contents.sent_ms = sent_at(notices, contents.moment_ms, contents.sent_ms);
    Ok(())
}

fn go_to(contents: &mut Contents, state: State, end: Option<EndReason>)
    ensures { contents.new ≡ going_to state end contents.old }
{
    contents.state = state;
    contents.end = end;
    if state.is_closed() {
        contents.bytes.clear();
    }
}

/// Passes over the bytes of a message.
fn receive(
    contents: &mut Contents,
    size: usize,
    unrecognized: Option<Sequence<u64>>,
    peer: Option<Open>,
)
    requires { size ≤ length contents.old.bytes }
    ensures { contents.new ≡ received_as size unrecognized peer contents.old }
{
    contents.bytes.skip(size);
    contents.received_ms = contents.moment_ms;
    contents.peer = peer;
    if let Some(moments) = unrecognized {
        contents.unrecognized = moments;
    }
}

fn on_arrival(
    alloc: Global,
    contents: &mut Contents,
    arrival: Arrival,
    size: usize,
) -> Result<Input, AllocError>
    requires { size ≤ length contents.old.bytes }
    ensures ok { IfOk result (λ input. IsTurn (on_arrival arrival size contents.old) (Some input) contents.new) }
    ensures err { OnErr result (contents.new ≡ contents.old) }
{
    let now_ms = contents.moment_ms;
    let moments = unrecognized_after(alloc, &arrival, now_ms, contents.unrecognized.as_slice())?;
    let fifth = is_fifth(now_ms, contents.unrecognized.as_slice());
    let peer = peer_after(&arrival, contents.peer);
    let capabilities = capabilities_of(contents.peer);
    let Reaction {
        notices,
        state,
        end,
        input,
    } = reaction(contents.state, capabilities, fifth, arrival);
    send_notices(alloc, contents, notices)?;
    receive(contents, size, moments, peer);
    go_to(contents, state, end);
    Ok(input)
}

fn is_silent(peer: Option<Open>, age_ms: u64) -> bool
    ensures { result ≡ is_silent peer age_ms }
{
    match peer {
        None => false,
        Some(open) => open.dead_timer != 0 && age_ms >= u64::from(open.dead_timer) * 1000,
    }
}

fn due_in(contents: &Contents) -> Option<Timer>
    ensures { result ≡ due_in contents.now }
{
    let received_ago = contents.moment_ms.saturating_sub(contents.received_ms);
    let sent_ago = contents.moment_ms.saturating_sub(contents.sent_ms);
    let silent = is_silent(contents.peer, received_ago);
    due(
        contents.state,
        received_ago >= 60_000,
        silent,
        sent_ago >= 30_000,
    )
}

/// Tests whether a timer is due. A DeadTimer is at least a second.
fn is_any_due(contents: &Contents) -> bool
    ensures { result ≡ is_some (due_in contents.now) }
{
    let received_ago = contents.moment_ms.saturating_sub(contents.received_ms);
    match contents.state {
        State::Closed => false,
        State::Up => {
            contents.moment_ms.saturating_sub(contents.sent_ms) >= 30_000
                || received_ago >= 1000 && is_silent(contents.peer, received_ago)
        }
        _ => received_ago >= 60_000,
    }
}

fn expire(alloc: Global, contents: &mut Contents, timer: Timer) -> Result<Option<Input>, AllocError>
    ensures ok { IfOk result (λ input. IsTurn (by_timer (Some timer) contents.old) input contents.new) }
    ensures err { OnErr result (contents.new ≡ contents.old) }
{
    let Reaction {
        notices,
        state,
        end,
        input,
    } = on_timer(timer);
    send_notices(alloc, contents, notices)?;
    go_to(contents, state, end);
    Ok(Some(input))
}

fn by_timer(alloc: Global, contents: &mut Contents) -> Result<Option<Input>, AllocError>
    ensures ok { IfOk result (λ input. IsTurn (by_timer (due_in contents.old) contents.old) input contents.new) }
    ensures err { OnErr result (contents.new ≡ contents.old) }
{
    match due_in(contents) {
        None => Ok(None),
        Some(timer) => expire(alloc, contents, timer),
    }
}

fn on_bad_header(alloc: Global, contents: &mut Contents) -> Result<Option<Input>, AllocError>
    ensures ok { IfOk result (λ input. IsTurn (by_front fronts.Bad contents.old) input contents.new) }
    ensures err { OnErr result (contents.new ≡ contents.old) }
{
    let input = on_arrival(alloc, contents, Arrival::BadHeader, 0)?;
    Ok(Some(input))
}

fn on_whole(
    alloc: Global,
    contents: &mut Contents,
    size: usize,
) -> Result<Option<Input>, AllocError>
    requires four { 4 ≤ size }
    requires within { size ≤ length contents.old.bytes }
    ensures ok { IfOk result (λ input. IsTurn (by_front (fronts.Whole size) contents.old) input contents.new) }
    ensures err { OnErr result (contents.new ≡ contents.old) }
{
    let stateful = capabilities_of(contents.peer).is_some();
    let (message, _) = contents.bytes.as_slice().split_at(size);
    let arrival = arrival(alloc, contents.state, stateful, message)?;
    let input = on_arrival(alloc, contents, arrival, size)?;
    Ok(Some(input))
}

fn on_front(alloc: Global, contents: &mut Contents) -> Result<Option<Input>, AllocError>
    ensures ok { IfOk result (λ input. IsTurn (by_front (front_of contents.old.bytes) contents.old) input contents.new) }
    ensures err { OnErr result (contents.new ≡ contents.old) }
{
    match front_in(contents.bytes.as_slice()) {
        NextMessage::Waiting => by_timer(alloc, contents),
        NextMessage::Bad => on_bad_header(alloc, contents),
        NextMessage::Whole(size) => on_whole(alloc, contents, size),
    }
}

fn give_down(contents: &mut Contents) -> Option<Input>
    ensures { IsTurn (after_end contents.old.down_pending contents.old) result contents.new }
{
    if contents.down_pending {
        contents.down_pending = false;
        return Some(Input::Down);
    }
    None
}

/// Tests whether a turn gives an input. It looks at little and makes no input, so that a session that waits costs
/// little, for instance after each piece of a message.
#[tactic(auto, using(crate::proofs::Resting::live_gives, crate::proofs::Resting::shut_gives))]
pub fn has_input(contents: &Contents) -> bool
    ensures { result ≡ is_some (next contents.now).input }
{
    if contents.state.is_closed() {
        return contents.down_pending;
    }
    !contents.bytes.is_waiting() || is_any_due(contents)
}

#[inline(never)]
fn take_turn(alloc: Global, contents: &mut Contents) -> Result<Option<Input>, SessionFault>
    ensures ok { IfOk result (λ input. IsTurn (next contents.old) input contents.new) }
    ensures err { OnErr result (contents.new ≡ contents.old) }
    ensures only_memory { IfErr result (λ e. e ≡ OutOfMemory) }
    ensures closed { is_closed contents.old.state ≡ true → IsOk result }
{
    match contents.state {
        State::Closed => Ok(give_down(contents)),
        _ => Ok(on_front(alloc, contents)?),
    }
}

/// Takes a turn. On a session that has ended it allocates nothing.
#[tactic(auto, using(crate::proofs::Resting::nothing_given))]
pub fn next(alloc: Global, contents: &mut Contents) -> Result<Option<Input>, SessionFault>
    ensures ok { IfOk result (λ input. IsTurn (next contents.old) input contents.new) }
    ensures err { OnErr result (contents.new ≡ contents.old) }
    ensures only_memory { IfErr result (λ e. e ≡ OutOfMemory) }
    ensures closed { is_closed contents.old.state ≡ true → IsOk result }
{
    if !has_input(contents) {
        return Ok(None);
    }
    take_turn(alloc, contents)
}
