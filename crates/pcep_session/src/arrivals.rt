//! What comes to a session, given the bytes of a whole message.

ghost use Rattle.std.specs.Prelude.{◌≡◌, ◌≤◌, ◌-◌, nat_lt, length, IfOk};
ghost use Rattle.pcep_messages.specs.Messages.{message_in};
ghost use Rattle.pcep_session.specs.Turns.{is_read_when_up, arrival_of, arrival, capabilities_of, recent, is_fifth, unrecognized_after, peer_after};
ghost use Rattle.pcep_session.specs.Changes.{UnrecognizedAfter};

use crate::table::{Arrival, State};
use pcep_messages::{Message, MessageFault, read_message};
use pcep_objects::{Capabilities, Open};
use sequence::Sequence;
use std::alloc::{AllocError, Global};

/// Returns the capabilities of the peer's Open.
pub fn capabilities_of(peer: Option<Open>) -> Option<Capabilities>
    ensures { result ≡ capabilities_of peer }
{
    match peer {
        None => None,
        Some(open) => open.capabilities,
    }
}

fn is_read_when_up(kind: u8) -> bool
    ensures { result ≡ is_read_when_up kind }
{
    matches!(kind, 2 | 3 | 5 | 6 | 7 | 10)
}

fn read(alloc: Global, message: &[u8]) -> Result<Arrival, AllocError>
    ensures { IfOk result (λ a. a ≡ arrival_of (message_in message.now)) }
{
    match read_message(alloc, message) {
        Ok(message) => Ok(Arrival::Read(message)),
        Err(MessageFault::OutOfMemory) => Err(AllocError),
        Err(fault) => Ok(Arrival::Faulty(fault)),
    }
}

/// Returns how a whole message arrives in this state. `stateful`: the peer's Open had STATEFUL-PCE-CAPABILITY.
#[tactic(auto, unfolding(crate::specs::Turns::arrival))]
pub fn arrival(
    alloc: Global,
    state: State,
    stateful: bool,
    message: &[u8],
) -> Result<Arrival, AllocError>
    requires { 4 ≤ length message.now }
    ensures { IfOk result (λ a. a ≡ arrival state stateful message.now) }
{
    match state {
        State::Up => {
            let kind = message[1];
            if !is_read_when_up(kind) {
                return Ok(Arrival::Unrecognized);
            }
            if kind == 10 && !stateful {
                return Ok(Arrival::UnannouncedReport);
            }
            read(alloc, message)
        }
        _ => read(alloc, message),
    }
}

fn is_recent(now_ms: u64, moment_ms: u64) -> bool
    ensures { result ≡ nat_lt (now_ms - moment_ms) 60000 }
{
    now_ms.saturating_sub(moment_ms) < 60_000
}

fn recent(alloc: Global, now_ms: u64, moments: &[u64]) -> Result<Vec<u64>, AllocError>
    ensures { IfOk result (λ v. v.items ≡ recent now_ms moments.now) }
{
    let mut found = Vec::new(alloc);
    for moment in moments {
        if is_recent(now_ms, *moment) {
            found.push(*moment)?;
        }
    }
    Ok(found)
}

/// Tests whether an unrecognized message at this moment is the fifth within 60,000 ms.
pub fn is_fifth(now_ms: u64, moments: &[u64]) -> bool
    ensures { result ≡ is_fifth now_ms moments.now }
{
    let mut count: usize = 0;
    for moment in moments {
        if is_recent(now_ms, *moment) {
            count += 1;
        }
    }
    count > 3
}

/// Returns the moments with this one, if an unrecognized message came. None: they stay.
pub fn unrecognized_after(
    alloc: Global,
    arrival: &Arrival,
    now_ms: u64,
    moments: &[u64],
) -> Result<Option<Sequence<u64>>, AllocError>
    ensures { IfOk result (λ found. UnrecognizedAfter arrival.now now_ms moments.now found) }
{
    match arrival {
        Arrival::Unrecognized => {
            let mut found = recent(alloc, now_ms, moments)?;
            found.push(now_ms)?;
            Ok(Some(Sequence::from_vec(found)))
        }
        _ => Ok(None),
    }
}

/// Returns the peer's Open: this one if it is an Open, else the one that was there.
pub fn peer_after(arrival: &Arrival, peer: Option<Open>) -> Option<Open>
    ensures { result ≡ peer_after arrival.now peer }
{
    match arrival {
        Arrival::Read(Message::Opening(open)) => Some(*open),
        _ => peer,
    }
}
