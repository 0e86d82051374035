//! How a session reacts to what comes, state by state.

ghost use Rattle.std.specs.Prelude.{◌≡◌};
ghost use Rattle.pcep_session.specs.Table.{goes_on, ends, closes, closed_by_peer, error_about, error, in_open_wait, in_keep_wait, on_object, missing_value, on_fault, on_accepted, on_unrecognized, in_up, reaction, due, on_timer};

use crate::table::{Arrival, EndReason, Input, Notices, Reaction, State, Timer};
use pcep_messages::{About, Message, MessageFault, Notice, PcError};
use pcep_objects::{Capabilities, ObjectFault};

/// Makes the reaction of a session that goes on and gives its caller nothing.
fn goes_on(state: State, notices: Notices) -> Reaction
    ensures { result ≡ goes_on state notices }
{
    Reaction {
        notices,
        state,
        end: None,
        input: Input::Handled,
    }
}

fn ends(notices: Notices, end: EndReason) -> Reaction
    ensures { result ≡ ends notices end }
{
    Reaction {
        notices,
        state: State::Closed,
        end: Some(end),
        input: Input::Down,
    }
}

/// Makes the reaction of a session that ends itself.
fn closes(notices: Notices) -> Reaction
    ensures { result ≡ closes notices }
{
    ends(notices, EndReason::Said(notices))
}

/// Makes the reaction of a session that the peer ends.
fn closed_by_peer(reason: u8) -> Reaction
    ensures { result ≡ closed_by_peer reason }
{
    ends(Notices::Nothing, EndReason::PeerClose(reason))
}

fn error_about(about: About, kind: u8, value: u8) -> Notice
    ensures { result ≡ error_about about kind value }
{
    Notice::Error(PcError { about, kind, value })
}

fn error(kind: u8, value: u8) -> Notice
    ensures { result ≡ error kind value }
{
    error_about(About::Nothing, kind, value)
}

fn in_open_wait(arrival: Arrival) -> Reaction
    ensures { result ≡ in_open_wait arrival }
{
    match arrival {
        Arrival::Read(Message::Opening(_)) => {
            goes_on(State::KeepWait, Notices::One(Notice::Keepalive))
        }
        _ => closes(Notices::One(error(1, 1))),
    }
}

fn in_keep_wait(capabilities: Option<Capabilities>, arrival: Arrival) -> Reaction
    ensures { result ≡ in_keep_wait capabilities arrival }
{
    match arrival {
        Arrival::Read(Message::Keepalive) => Reaction {
            notices: Notices::Nothing,
            state: State::Up,
            end: None,
            input: Input::Up(capabilities),
        },
        Arrival::Read(Message::Error(_)) => closes(Notices::One(error(1, 6))),
        Arrival::Read(Message::Close(reason)) => closed_by_peer(reason),
        _ => closes(Notices::One(error(1, 1))),
    }
}

fn on_object(about: About, fault: ObjectFault) -> Reaction
    ensures { result ≡ on_object about fault }
{
    match fault {
        ObjectFault::UnknownClass { .. } => {
            goes_on(State::Up, Notices::One(error_about(about, 3, 1)))
        }
        ObjectFault::UnknownType { .. } => {
            goes_on(State::Up, Notices::One(error_about(about, 3, 2)))
        }
        _ => closes(Notices::One(Notice::Close(3))),
    }
}

fn missing_value(class: u8) -> u8
    ensures { result ≡ missing_value class }
{
    match class {
        2 => 1,
        4 => 3,
        32 => 8,
        33 => 10,
        _ => 9,
    }
}

fn on_fault(fault: MessageFault) -> Reaction
    ensures { result ≡ on_fault fault }
{
    match fault {
        MessageFault::BadObject(fault, about) => on_object(about, fault),
        MessageFault::Missing(class, about) => {
            let value = missing_value(class);
            goes_on(State::Up, Notices::One(error_about(about, 6, value)))
        }
        MessageFault::BadP(about) => { goes_on(State::Up, Notices::One(error_about(about, 10, 1))) }
        MessageFault::Refused(kind, value, about) => {
            goes_on(State::Up, Notices::One(error_about(about, kind, value)))
        }
        MessageFault::MissingIdentifiers(about) => {
            closes(Notices::Two(error_about(about, 6, 11), Notice::Close(3)))
        }
        _ => closes(Notices::One(Notice::Close(3))),
    }
}

fn on_accepted(message: Message) -> Reaction
    ensures { result ≡ on_accepted message }
{
    match message {
        Message::Close(reason) => closed_by_peer(reason),
        Message::Keepalive => goes_on(State::Up, Notices::Nothing),
        message => Reaction {
            notices: Notices::Nothing,
            state: State::Up,
            end: None,
            input: Input::Message(message),
        },
    }
}

fn on_unrecognized(fifth: bool) -> Reaction
    ensures { result ≡ on_unrecognized fifth }
{
    if fifth {
        closes(Notices::Two(error(2, 0), Notice::Close(5)))
    } else {
        goes_on(State::Up, Notices::One(error(2, 0)))
    }
}

fn in_up(fifth: bool, arrival: Arrival) -> Reaction
    ensures { result ≡ in_up fifth arrival }
{
    match arrival {
        Arrival::BadHeader => closes(Notices::One(Notice::Close(3))),
        Arrival::Unrecognized => on_unrecognized(fifth),
        Arrival::UnannouncedReport => closes(Notices::Two(error(19, 5), Notice::Close(1))),
        Arrival::Read(message) => on_accepted(message),
        Arrival::Faulty(fault) => on_fault(fault),
    }
}

/// Returns how a session in this state reacts to what comes. `capabilities`: those of the peer's Open. `fifth`: an
/// unrecognized message is the fifth within a minute.
pub fn reaction(
    state: State,
    capabilities: Option<Capabilities>,
    fifth: bool,
    arrival: Arrival,
) -> Reaction
    ensures { result ≡ reaction state capabilities fifth arrival }
{
    match state {
        State::OpenWait => in_open_wait(arrival),
        State::KeepWait => in_keep_wait(capabilities, arrival),
        State::Up => in_up(fifth, arrival),
        State::Closed => closes(Notices::Nothing),
    }
}

/// Returns the timer that is due. `waited`: the minute of OpenWait or KeepWait is over. `silent`: nothing was received
/// for the peer's DeadTimer. `quiet`: nothing was sent for 30 s.
pub fn due(state: State, waited: bool, silent: bool, quiet: bool) -> Option<Timer>
    ensures { result ≡ due state waited silent quiet }
{
    match state {
        State::OpenWait if waited => Some(Timer::OpenWait),
        State::KeepWait if waited => Some(Timer::KeepWait),
        State::Up if silent => Some(Timer::Dead),
        State::Up if quiet => Some(Timer::Keepalive),
        _ => None,
    }
}

/// Returns how a session reacts to a timer that is due.
pub fn on_timer(timer: Timer) -> Reaction
    ensures { result ≡ on_timer timer }
{
    match timer {
        Timer::OpenWait => closes(Notices::One(error(1, 2))),
        Timer::KeepWait => closes(Notices::One(error(1, 7))),
        Timer::Dead => closes(Notices::One(Notice::Close(2))),
        Timer::Keepalive => goes_on(State::Up, Notices::One(Notice::Keepalive)),
    }
}
