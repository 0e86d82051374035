//! The states of a session, what comes to it, and how it reacts.

use pcep_messages::{Message, MessageFault, Notice, PcError};
use pcep_objects::Capabilities;
use sequence::PlainData;
use std::alloc::AllocError;

/// The state of a session (RFC 5440 section 6.2 and appendix A).
#[derive(Clone, Copy, Debug, PartialEq, Eq)]
pub enum State {
    /// The session's Open is sent; the peer's Open is awaited, for 60 s.
    OpenWait,
    /// The peer's Open is accepted; its Keepalive is awaited, for 60 s.
    KeepWait,
    /// The session is up.
    Up,
    /// The session has ended.
    Closed,
}

impl State {
    ghost use Rattle.std.specs.Prelude.{◌≡◌};
    ghost use Rattle.pcep_session.specs.Turns.{is_up, is_closed};

    /// Tests whether the session is up.
    pub fn is_up(self) -> bool
        ensures { result ≡ is_up self }
    {
        matches!(self, State::Up)
    }

    /// Tests whether the session has ended.
    pub fn is_closed(self) -> bool
        ensures { result ≡ is_closed self }
    {
        matches!(self, State::Closed)
    }
}

/// What a session gives to its caller.
#[derive(Debug, Drop)]
pub enum Input {
    /// The session came up. Has the peer's STATEFUL-PCE-CAPABILITY, if its Open had it (RFC 8231 section 7.1.1).
    Up(Option<Capabilities>),
    /// A message for the caller: a PCReq, PCNtf, PCErr or PCRpt of a session that is up.
    Message(Message),
    /// The session ended. This comes once.
    Down,
    /// A message or a timer was handled, and there is nothing for the caller.
    Handled,
}

impl PlainData for Input {
    fn copy(&self) -> Result<Input, AllocError> {
        match self {
            Input::Up(capabilities) => Ok(Input::Up(*capabilities)),
            Input::Message(message) => Ok(Input::Message(message.copy()?)),
            Input::Down => Ok(Input::Down),
            Input::Handled => Ok(Input::Handled),
        }
    }
}

/// What comes to a session.
#[derive(Debug, Drop)]
pub enum Arrival {
    /// A header that no message has.
    BadHeader,
    /// A message of a type that isn't read while the session is up.
    Unrecognized,
    /// A report to a session that is up, from a peer whose Open had no STATEFUL-PCE-CAPABILITY.
    UnannouncedReport,
    /// A message that is accepted.
    Read(Message),
    /// A message that is refused.
    Faulty(MessageFault),
}

/// What a session sends by itself at one time, in order.
#[derive(Clone, Copy, Debug, PartialEq, Eq)]
pub enum Notices {
    Nothing,
    One(Notice),
    Two(Notice, Notice),
}

/// Why a session has ended.
#[derive(Clone, Copy, Debug, PartialEq, Eq)]
pub enum EndReason {
    /// The peer closed it, with this reason (RFC 5440 section 7.17).
    PeerClose(u8),
    /// It ended itself, because of what came or didn't come in time, and sent these notices.
    Said(Notices),
    /// Its caller ended it, with this PCErr and a Close with this reason, as far as they are given.
    Caller(Option<PcError>, Option<u8>),
}

/// How a session reacts to what comes: what it sends, the state that it goes to, why it ends, if it does, and what its
/// caller gets.
#[derive(Debug, Drop)]
pub struct Reaction {
    pub notices: Notices,
    pub state: State,
    pub end: Option<EndReason>,
    pub input: Input,
}

/// The timers of a session (RFC 5440 sections 6.2 and 6.3, appendix A).
#[derive(Clone, Copy, Debug, PartialEq, Eq)]
pub enum Timer {
    /// A minute without the peer's Open.
    OpenWait,
    /// A minute without the peer's Keepalive.
    KeepWait,
    /// Nothing was received for as long as the peer's Open allows.
    Dead,
    /// Nothing was sent for 30 s.
    Keepalive,
}
