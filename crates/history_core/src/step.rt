//! What is kept of a step.
ghost use Rattle.std.specs.Prelude.{◌≡◌, ◌≤◌, length};
ghost use Rattle.history_core.specs.Briefs.{brief_of, brief_number, brief_word};

use sequence::PlainData;
use std::alloc::AllocError;
use step_core::{Reply, SharedEvent, Why};

/// What is kept, shown and counted of a reply.
#[derive(Clone, Copy, Debug, PartialEq, Eq)]
pub enum Brief {
    Done,
    Booked { wants_path: bool },
    /// The number of the ticket.
    Asked(u64),
    /// The number of the ticket that was taken.
    Job(u64),
    Idle,
    /// The SRP-ID of the grant.
    Granted(u32),
    Answered,
    Again,
    NoPath,
    GivenUp,
    Gone,
    /// The SRP-ID of the removal.
    Removing(u32),
    /// How many messages were handed out to be sent.
    Out { messages: u64 },
    Refused(Why),
}

impl Brief {
    /// Shortens a reply: of a job it keeps the number of the ticket, and of messages how many they are.
    pub fn of(reply: &Reply) -> Brief
        ensures { result ≡ brief_of reply.now }
    {
        match reply {
            Reply::Done => Brief::Done,
            Reply::Booked { wants_path } => Brief::Booked {
                wants_path: *wants_path,
            },
            Reply::Asked(ticket) => Brief::Asked(*ticket),
            Reply::Job(job) => Brief::Job(job.ticket.id),
            Reply::Idle => Brief::Idle,
            Reply::Granted(srp) => Brief::Granted(*srp),
            Reply::Answered => Brief::Answered,
            Reply::Again => Brief::Again,
            Reply::NoPath => Brief::NoPath,
            Reply::GivenUp => Brief::GivenUp,
            Reply::Gone => Brief::Gone,
            Reply::Removing(srp) => Brief::Removing(*srp),
            Reply::Out(messages) => Brief::Out {
                messages: messages.as_slice().len() as u64,
            },
            Reply::Refused(why) => Brief::Refused(*why),
        }
    }

    /// Names the kind of the reply.
    pub fn word(self) -> &'static str
        ensures word { result.now ≡ brief_word self }
        ensures short { length result.now ≤ 12 }
    {
        match self {
            Brief::Done => "done",
            Brief::Booked { wants_path: false } => "booked",
            Brief::Booked { wants_path: true } => "booked wants",
            Brief::Asked(_) => "asked",
            Brief::Job(_) => "job",
            Brief::Idle => "idle",
            Brief::Granted(_) => "granted",
            Brief::Answered => "answered",
            Brief::Again => "again",
            Brief::NoPath => "nopath",
            Brief::GivenUp => "givenup",
            Brief::Gone => "gone",
            Brief::Removing(_) => "removing",
            Brief::Out { .. } => "out",
            Brief::Refused(_) => "refused",
        }
    }

    /// Returns the number in the reply, if it has one: of a ticket, an SRP-ID, how many messages, or of a refusal's reason.
    pub fn number(self) -> Option<u64>
        ensures { result ≡ brief_number self }
    {
        match self {
            Brief::Asked(ticket) | Brief::Job(ticket) => Some(ticket),
            Brief::Granted(srp) | Brief::Removing(srp) => Some(srp as u64),
            Brief::Out { messages } => Some(messages),
            Brief::Refused(why) => Some(why.number() as u64),
            Brief::Done
            | Brief::Booked { .. }
            | Brief::Idle
            | Brief::Answered
            | Brief::Again
            | Brief::NoPath
            | Brief::GivenUp
            | Brief::Gone => None,
        }
    }
}

/// A kept step: an event, and the brief of its reply.
#[derive(Debug, Drop)]
pub struct Step {
    pub event: SharedEvent,
    pub brief: Brief,
}

impl PlainData for Step {
    fn copy(&self) -> Result<Step, AllocError> {
        Ok(Step {
            event: self.event.copy()?,
            brief: self.brief,
        })
    }
}
