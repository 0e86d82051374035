//! What is counted.
ghost use Rattle.std.specs.Prelude.{◌≡◌, ◌<◌, ◌+◌, ◌*◌};
ghost use Rattle.server_counts.specs.Places.{closing_number, end_number, error_place, event_number, message_number, place, reply_number};

use end_reasons::Reason;
use history_core::Brief;
use pce_seen::EventKind;

/// A type of messages (RFC 5440 section 6.1, RFC 8231 section 6, RFC 8281 section 5.1).
#[derive(Clone, Copy, PartialEq, Eq, Debug)]
pub enum MessageKind {
    Open,
    Keepalive,
    Request,
    Reply,
    Notification,
    Error,
    Close,
    Report,
    Update,
    Initiate,
    Other,
}

/// What is counted.
#[derive(Clone, Copy)]
pub enum Counted {
    /// A step, by its event and the word of its reply. The number in the reply makes no difference.
    Step(EventKind, Brief),
    /// A refusal, by its number.
    Refusal(u8),
    /// A connection came, and its address may be served.
    Accepted,
    /// A connection came from an address that no node owns.
    Stranger,
    /// A connection ended. A number in its reason makes a difference only if it has a word of its own.
    Ended(Reason),
    /// A message came.
    Received(MessageKind),
    /// A message was sent.
    Sent(MessageKind),
    /// A PCErr of this type and value was sent.
    ErrorSent(u8, u8),
    /// A PCErr of this type and value came.
    ErrorReceived(u8, u8),
    /// A grant or a deletion was dropped because its router didn't answer in time.
    NoAnswer,
}

fn event_number(event: EventKind) -> usize
    ensures number { result ≡ event_number event }
    ensures few { result < 13 }
{
    match event {
        EventKind::Up => 0,
        EventKind::Report => 1,
        EventKind::Marker => 2,
        EventKind::Down => 3,
        EventKind::Expire => 4,
        EventKind::Ask => 5,
        EventKind::Take => 6,
        EventKind::Commit => 7,
        EventKind::Drain => 8,
        EventKind::Refused => 9,
        EventKind::Return => 10,
        EventKind::Delete => 11,
        EventKind::Reload => 12,
    }
}

fn reply_number(reply: Brief) -> usize
    ensures number { result ≡ reply_number reply }
    ensures few { result < 15 }
{
    match reply {
        Brief::Done => 0,
        Brief::Booked { wants_path: false } => 1,
        Brief::Booked { wants_path: true } => 2,
        Brief::Asked(_) => 3,
        Brief::Job(_) => 4,
        Brief::Idle => 5,
        Brief::Granted(_) => 6,
        Brief::Answered => 7,
        Brief::Again => 8,
        Brief::NoPath => 9,
        Brief::GivenUp => 10,
        Brief::Gone => 11,
        Brief::Removing(_) => 12,
        Brief::Out { .. } => 13,
        Brief::Refused(_) => 14,
    }
}

fn message_number(message: MessageKind) -> usize
    ensures number { result ≡ message_number message }
    ensures few { result < 11 }
{
    match message {
        MessageKind::Open => 0,
        MessageKind::Keepalive => 1,
        MessageKind::Request => 2,
        MessageKind::Reply => 3,
        MessageKind::Notification => 4,
        MessageKind::Error => 5,
        MessageKind::Close => 6,
        MessageKind::Report => 7,
        MessageKind::Update => 8,
        MessageKind::Initiate => 9,
        MessageKind::Other => 10,
    }
}

/// Returns the place of the ends by a Close that this side sent for this reason, or for none (RFC 5440 section 7.17).
fn closing_number(close: Option<u8>) -> usize
    ensures number { result ≡ closing_number close }
    ensures few { result < 13 }
{
    match close {
        None => 1,
        Some(2) => 5,
        Some(3) => 6,
        Some(_) => 7,
    }
}

fn end_number(reason: Reason) -> usize
    ensures number { result ≡ end_number reason }
    ensures few { result < 13 }
{
    match reason {
        Reason::PeerClosed | Reason::PeerClose(_) => 0,
        Reason::Session(said) => closing_number(said.close),
        Reason::ReadFault => 2,
        Reason::WriteFault => 3,
        Reason::StoreFault(_) => 4,
        Reason::PlaceTaken => 8,
        Reason::RunEnds => 9,
        Reason::Refused(2) => 10,
        Reason::Refused(_) => 11,
        Reason::Unheard => 12,
    }
}

/// Returns the place of the number of steps of this kind.
fn step_place(event: EventKind, reply: Brief) -> usize
    ensures number { result ≡ event_number event * 15 + reply_number reply }
    ensures few { result < 195 }
{
    event_number(event) * 15 + reply_number(reply)
}

/// Returns the place of a type and value of PCErr among all of them; the values from 31 on share one place.
fn error_place(kind: u8, value: u8) -> usize
    ensures number { result ≡ error_place kind value }
    ensures few { result < 1024 }
{
    let kind = (kind as usize).min(31);
    let value = (value as usize).min(31);
    32 * kind + value
}

/// Returns the place of a number among all that are counted.
pub(crate) fn place(what: Counted) -> usize
    ensures place { result ≡ place what }
    ensures few { result < 2306 }
{
    match what {
        Counted::Step(event, reply) => step_place(event, reply),
        Counted::Refusal(number) => 195 + (number as usize).min(24),
        Counted::Accepted => 220,
        Counted::Stranger => 221,
        Counted::Ended(reason) => 222 + end_number(reason),
        Counted::Received(message) => 235 + message_number(message),
        Counted::Sent(message) => 246 + message_number(message),
        Counted::ErrorSent(kind, value) => 257 + error_place(kind, value),
        Counted::NoAnswer => 1281,
        Counted::ErrorReceived(kind, value) => 1282 + error_place(kind, value),
    }
}
