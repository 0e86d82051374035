//! Sessions over a store that has no room for more steps, and two sessions of one peer.
ghost use Rattle.std.specs.Prelude.{◌≡◌};

use super::*;
use engine_core::{Call, Client, Event, Fault, Lent, Reply, Store, hang_up, serve};
use history_core::SharedEvent;
use pcep_messages::Message;
use pcep_objects::Open;
use pcep_session::State;
use std::alloc::AllocError;
use std::process::Abort;

/// A store that takes a number of events and then has no room for more steps. Every reply is Done.
#[derive(Drop)]
struct Small {
    calls: Vec<Call>,
    room: u32,
    /// A digit for each deed, the first deed first: that of an event, 6 for an Open, 7 for a PCRpt.
    deeds: u64,
}

impl Small {
    fn note(&mut self, digit: u32)
        ensures { self.new.calls ≡ self.old.calls }
    {
        self.deeds = self.deeds.wrapping_mul(10).wrapping_add(u64::from(digit));
    }
}

impl Store for Small {
    ghost use Rattle.std.specs.Prelude.{◌≡◌, ◌++◌};
    ghost use Rattle.std.proofs.Common.{sym};
    ghost use Rattle.std.proofs.lemmas.List.{append-nil};
    ghost use Rattle.engine_core.specs.DeedLaws.{added_on};
    ghost use Rattle.engine_core.specs.Deeds.{calls_of};

    ghost calls = { λ s. s.calls.items };

    ghost moves = { λ old made new. new.calls.items ≡ old.calls.items ++ calls_of made };

    ghost same_but_calls = { λ old new. new.room ≡ old.room };

    ghost is_full = { λ s. s.room ≡ 0 };

    ghost rolls = { λ old steps new. (new.calls ≡ old.calls) × (new.room ≡ 3) };

    ghost moves_nowhere = { λ s. sym (append-nil s.calls.items) };

    ghost moves_on = { λ a b c first second h k. added_on a.calls.items b.calls.items c.calls.items first second h k };

    ghost moves_add = { λ a b made h. h };

    fn submit(&mut self, event: Event) -> Result<(), Fault> {
        if self.room == 0 {
            return Err(Fault::HistoryFull);
        }
        let noted = digit(&event);
        let event = SharedEvent::new(*self.calls.allocator(), event)?;
        self.calls.push(Call {
            event,
            reply: Reply::Done,
        })?;
        self.room -= 1;
        self.note(noted);
        Ok(())
    }

    fn show_open(&mut self, peer_open: Open) {
        if peer_open.dead_timer == 120 {
            self.note(6);
        }
    }

    fn show_message(&mut self, message: &Message) {
        if matches!(message, Message::Report(_)) {
            self.note(7);
        }
    }

    fn calls(&self) -> &[Call] {
        self.calls.as_slice()
    }

    fn forget(&mut self) {
        self.calls.clear();
    }

    fn roll(&mut self) -> Result<u64, AllocError> {
        self.room = 3;
        Ok(0)
    }
}

/// A router's Open, Keepalive, end of synchronization and report, in one piece.
const SESSION: &[u8] =
    b"\x20\x01\x00\x14\x01\x10\x00\x10\x20\x1e\x78\x00\x00\x10\x00\x04\x00\x00\x00\x05\x20\x02\x00\x04\x20\x0a\x00\x24\x20\x10\x00\x1c\x00\x00\x00\x00\x00\x12\x00\x10\x00\x00\x00\x00\x00\x00\x00\x00\x00\x00\x00\x00\x00\x00\x00\x00\x07\x10\x00\x04\x20\x0a\x00\x50\x20\x10\x00\x1c\x00\x00\x10\x18\x00\x12\x00\x10\x0a\x00\x00\x01\x00\x01\x00\x01\x0a\x00\x00\x01\x0a\x00\x00\x04\x07\x10\x00\x14\x01\x08\x0a\x01\x00\x02\x20\x00\x01\x08\x0a\x02\x00\x02\x20\x00\x09\x10\x00\x14\x00\x00\x00\x00\x00\x00\x00\x00\x00\x00\x00\x00\x07\x00\x00\x00\x05\x10\x00\x08\x48\xf4\x24\x00";

/// The server's Open and Keepalive.
const GREETING: &[u8] =
    b"\x20\x01\x00\x14\x01\x10\x00\x10\x20\x1e\x78\x00\x00\x10\x00\x04\x00\x00\x00\x05\x20\x02\x00\x04";

/// The server's Open and Keepalive, and a PCErr of Error-Type 9: a second session (RFC 5440 section 7.15).
const GREETED_AND_REFUSED: &[u8] =
    b"\x20\x01\x00\x14\x01\x10\x00\x10\x20\x1e\x78\x00\x00\x10\x00\x04\x00\x00\x00\x05\x20\x02\x00\x04\x20\x06\x00\x0c\x0d\x10\x00\x08\x00\x00\x09\x00";

/// Returns a digit for each event: Up 1, Marker 2, Report 3, Drain 4, Down 5.
fn digit(event: &Event) -> u32 {
    match event {
        Event::Up { .. } => 1,
        Event::Marker { .. } => 2,
        Event::Report { .. } => 3,
        Event::Drain { .. } => 4,
        Event::Down { .. } => 5,
        _ => 9,
    }
}

/// Returns the digits of the events, the first event first.
fn digits(calls: &[Call]) -> u32 {
    let mut number = 0u32;
    for call in calls {
        number = number
            .wrapping_mul(10)
            .wrapping_add(digit(call.event.event()));
    }
    number
}

/// Tests whether these bytes are sent.
fn is_sent(client: &mut Client, bytes: &[u8]) -> bool {
    client.session.take_output().as_slice() == bytes
}

/// The result of a whole session over a store, and of the end of its transport, tried twice.
#[derive(Clone, Copy, Debug, PartialEq, Eq)]
struct Outcome {
    served: Result<(), Fault>,
    submitted: u32,
    is_closed: bool,
    is_greeted: bool,
    was_up: bool,
    /// The first end, and the second, after there is room.
    ended: [Result<(), Fault>; 2],
    is_up: bool,
    room: u32,
}

fn outcome_over(client: &mut Client, store: &mut Small) -> Outcome {
    let served = serve(client, 1, SESSION, 0, store);
    let submitted = digits(store.calls());
    let is_closed = client.session.state() == State::Closed;
    let is_greeted = is_sent(client, GREETING);
    let was_up = client.joined;
    let first = hang_up(client, 1, store);
    store.room = 1;
    let second = hang_up(client, 1, store);
    Outcome {
        served,
        submitted,
        is_closed,
        is_greeted,
        was_up,
        ended: [first, second],
        is_up: client.joined,
        room: store.room,
    }
}

/// Returns the outcome over a store with room for `room` events.
fn outcome_in(alloc: Global, room: u32) -> Result<Outcome, Fault> {
    let mut client = Client::new(alloc, 0)?;
    let mut store = Small {
        calls: Vec::new(alloc),
        room,
        deeds: 0,
    };
    Ok(outcome_over(&mut client, &mut store))
}

/// The store is full before the first event.
const FULL: Outcome = Outcome {
    served: Err(Fault::HistoryFull),
    submitted: 0,
    is_closed: true,
    is_greeted: true,
    was_up: false,
    ended: [Ok(()), Ok(())],
    is_up: false,
    room: 1,
};

/// Returns the outcome if the store is full after the events `submitted`.
const fn full_behind(submitted: u32) -> Outcome {
    Outcome {
        submitted,
        was_up: true,
        ended: [Err(Fault::HistoryFull), Ok(())],
        room: 0,
        ..FULL
    }
}

/// Tests that the events and the output before a fault stay, that the session ends without a Close, and that its Down
/// is submitted after there is room, and only if an Up was.
#[test]
fn a_full_store_ends_the_session(rt: HostRuntime) -> Result<(), Fail> {
    let outcomes = [
        outcome_in(rt.alloc(), 0)?,
        outcome_in(rt.alloc(), 1)?,
        outcome_in(rt.alloc(), 2)?,
        outcome_in(rt.alloc(), 3)?,
    ];
    assert_eq!(rt;
        outcomes,
        [FULL, full_behind(1), full_behind(12), full_behind(123)]
    );
    Ok(())
}

/// Returns what a session shows a store with room for `room` events, and submits to it, in order.
fn deeds_in(alloc: Global, room: u32) -> Result<u64, Fault> {
    let mut client = Client::new(alloc, 0)?;
    let mut store = Small {
        calls: Vec::new(alloc),
        room,
        deeds: 0,
    };
    let _served = serve(&mut client, 1, SESSION, 0, &mut store);
    Ok(store.deeds)
}

/// Tests that the peer's Open is shown before its Up is submitted, and each message before its events, even up to a
/// fault.
#[test]
fn what_a_session_delivers_is_shown_first(rt: HostRuntime) -> Result<(), Fail> {
    let deeds = [
        deeds_in(rt.alloc(), 0)?,
        deeds_in(rt.alloc(), 2)?,
        deeds_in(rt.alloc(), 9)?,
    ];
    assert_eq!(rt; deeds, [6, 61727, 6_172_734]);
    Ok(())
}

/// The result of two sessions of one peer over one store.
#[derive(Clone, Copy, Debug, PartialEq, Eq)]
struct Second {
    is_said: bool,
    states: [State; 2],
    joined: [bool; 2],
    submitted: u32,
}

fn greet_twice(first: &mut Client, second: &mut Client, store: &mut Lent) -> Result<Second, Fault> {
    serve(first, 1, SESSION, 0, store)?;
    serve(second, 1, GREETING, 0, store)?;
    hang_up(second, 1, store)?;
    Ok(Second {
        is_said: is_sent(second, GREETED_AND_REFUSED),
        states: [first.session.state(), second.session.state()],
        joined: [first.joined, second.joined],
        submitted: digits(store.calls()),
    })
}

fn second_of(alloc: Global, database: &mut Database) -> Result<Second, Fault> {
    let mut first = Client::new(alloc, 0)?;
    let mut second = Client::new(alloc, 0)?;
    let mut store = Lent::new(alloc, database);
    greet_twice(&mut first, &mut second, &mut store)
}

fn second_in(alloc: Global) -> Result<Second, Fail> {
    let mut database = new_database(alloc)?;
    Ok(second_of(alloc, &mut database)?)
}

/// Tests that the second session of a peer ends with Error-Type 9, that its end does nothing, and that the first one
/// stays up.
#[test]
fn a_second_session_of_a_peer_ends(rt: HostRuntime) -> Result<(), Fail> {
    let second = second_in(rt.alloc())?;
    let want = Second {
        is_said: true,
        states: [State::Up, State::Closed],
        joined: [true, false],
        // Up, Marker, Report, a drain after them, and the second's Up, which is refused
        submitted: 12341,
    };
    assert_eq!(rt; second, want);
    Ok(())
}
