//! Messages counted in a stream of bytes.
ghost use Rattle.std.specs.Prelude.{◌≡◌, ◌≤◌, ℕ, List, length};
ghost use Rattle.std.specs.List.{fold};
ghost use Rattle.server_counts.specs.Streams.{begun, behind, gone_on, heard, kind_of_type, whole_counted};
ghost use Rattle.server_counts.specs.declared.counters.Counters.{Counters};
ghost use Rattle.server_counts.specs.declared.stream.MessageStream.TheVariants.{Start};
ghost use Rattle.server_counts.specs.declared.stream.Way.{Way};

use crate::counters::Counters;
use crate::kinds::{Counted, MessageKind};

/// The type of a PCErr (RFC 5440 section 6.7).
const ERROR: u8 = 6;

/// The direction of messages.
#[derive(Clone, Copy, PartialEq, Eq, Debug)]
pub enum Way {
    In,
    Out,
}

/// Where a stream of messages is (RFC 5440 section 6.1).
#[derive(Clone, Copy)]
pub enum MessageStream {
    /// A message begins.
    Start,
    /// Its type is next.
    Kind,
    /// The first byte of its length is next.
    High { kind: u8 },
    /// The second byte of its length is next.
    Low { kind: u8, high: u8 },
    /// How many bytes of its body are to come. For a PCErr, also the last byte that came.
    Body { kind: u8, left: usize, last: u8 },
}

/// Returns the kind of a type of messages.
fn kind_of_type(number: u8) -> MessageKind
    ensures { result ≡ kind_of_type number }
{
    match number {
        1 => MessageKind::Open,
        2 => MessageKind::Keepalive,
        3 => MessageKind::Request,
        4 => MessageKind::Reply,
        5 => MessageKind::Notification,
        6 => MessageKind::Error,
        7 => MessageKind::Close,
        10 => MessageKind::Report,
        11 => MessageKind::Update,
        12 => MessageKind::Initiate,
        _ => MessageKind::Other,
    }
}

/// Counts a whole message of this type, with its last two bytes.
fn count_whole(way: Way, kind: u8, before: u8, last: u8, counters: &mut Counters)
    ensures { counters.new ≡ whole_counted way kind before last counters.old }
{
    match way {
        Way::In => counters.add(Counted::Received(kind_of_type(kind))),
        Way::Out => {
            counters.add(Counted::Sent(kind_of_type(kind)));
            if kind == ERROR {
                counters.add(Counted::ErrorSent(before, last));
            }
        }
    }
}

/// Begins the body of a message of this length, unless it has none.
fn begin(way: Way, kind: u8, length: usize, byte: u8, counters: &mut Counters) -> MessageStream
    ensures { (result, counters.new) ≡ begun way kind length byte counters.old }
{
    if length <= 4 {
        count_whole(way, kind, 0, byte, counters);
        return MessageStream::Start;
    }
    MessageStream::Body {
        kind,
        left: length - 4,
        last: 0,
    }
}

/// Takes one more byte of a body.
fn go_on(
    way: Way,
    kind: u8,
    left: usize,
    last: u8,
    byte: u8,
    counters: &mut Counters,
) -> MessageStream
    ensures { (result, counters.new) ≡ gone_on way kind left last byte counters.old }
{
    if left <= 1 {
        count_whole(way, kind, last, byte, counters);
        return MessageStream::Start;
    }
    MessageStream::Body {
        kind,
        left: left - 1,
        last: if kind == ERROR { byte } else { last },
    }
}

/// Takes one more byte.
fn heard(stream: MessageStream, way: Way, byte: u8, counters: &mut Counters) -> MessageStream
    ensures { (result, counters.new) ≡ heard way (stream, counters.old) byte }
{
    match stream {
        MessageStream::Start => MessageStream::Kind,
        MessageStream::Kind => MessageStream::High { kind: byte },
        MessageStream::High { kind } => MessageStream::Low { kind, high: byte },
        MessageStream::Low { kind, high } => {
            let length = 256 * (high as usize) + byte as usize;
            begin(way, kind, length, byte, counters)
        }
        MessageStream::Body { kind, left, last } => { go_on(way, kind, left, last, byte, counters) }
    }
}

/// Returns how many of these bytes can be passed over: they belong to one body, and its last byte isn't among them.
fn passable(stream: MessageStream, most: usize) -> usize
    ensures few { result ≤ most }
    ensures same { (bs : List ℕ) (way : Way) (c : Counters) → length bs ≡ result → fold (heard way) (stream, c) bs ≡ (behind stream result, c) }
{
    match stream {
        MessageStream::Body { kind, left, .. } if kind != ERROR && left > 1 => {
            most.min(left - 1)
        }
        _ => 0,
    }
}

/// Returns the stream after bytes that were passed over.
fn behind(stream: MessageStream, count: usize) -> MessageStream
    ensures { result ≡ behind stream count }
{
    match stream {
        MessageStream::Body { kind, left, last } => MessageStream::Body {
            kind,
            left: left.saturating_sub(count),
            last,
        },
        _ => stream,
    }
}

impl MessageStream {
    pub fn new() -> MessageStream
        ensures { result ≡ Start }
    {
        MessageStream::Start
    }

    /// Counts the messages that end within these bytes, which follow those that came before.
    pub fn hear(&mut self, way: Way, bytes: &[u8], counters: &mut Counters)
        ensures { (self.new, counters.new) ≡ fold (heard way) (self.old, counters.old) bytes.now }
    {
        let mut at = 0usize;
        while at < bytes.len() {
            let passed = passable(*self, bytes.len() - at);
            if passed > 0 {
                *self = behind(*self, passed);
                at += passed;
            } else {
                *self = heard(*self, way, bytes[at], counters);
                at += 1;
            }
        }
    }
}
