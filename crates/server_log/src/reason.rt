//! Why connections end.
ghost use Rattle.std.specs.Prelude.{◌≡◌};
ghost use Rattle.server_log.specs.Reasons.{adding, by_this_side, code_of, of_session, reason_of, said_in};

use end_reasons::{LastWords, Reason};
use pcep_messages::{Notice, PcError};
use pcep_session::{EndReason, Notices};
use server_rules::PcErr;
use server_talk::Ended;

/// What is known of a connection that has ended.
#[derive(Clone, Copy, PartialEq, Eq, Debug)]
pub struct EndFacts {
    pub ended: Ended,
    /// Why its session ended, if it had.
    pub session: Option<EndReason>,
    /// The number by which the state refused its session.
    pub refused: Option<u8>,
    /// It was to give its place to another.
    pub gives_place: bool,
    /// The run ends.
    pub run_ends: bool,
}

fn code_of(error: PcError) -> PcErr
    ensures { result ≡ code_of error }
{
    PcErr {
        kind: error.kind,
        value: error.value,
    }
}

/// Returns what was said before, and this notice.
fn adding(notice: Notice, said: LastWords) -> LastWords
    ensures { result ≡ adding notice said }
{
    match notice {
        Notice::Keepalive => said,
        Notice::Error(error) => LastWords {
            error: Some(code_of(error)),
            close: said.close,
        },
        Notice::Close(reason) => LastWords {
            error: said.error,
            close: Some(reason),
        },
    }
}

fn said_in(notices: Notices) -> LastWords
    ensures { result ≡ said_in notices }
{
    match notices {
        Notices::Nothing => LastWords::NOTHING,
        Notices::One(notice) => adding(notice, LastWords::NOTHING),
        Notices::Two(first, second) => adding(second, adding(first, LastWords::NOTHING)),
    }
}

impl EndFacts {
    /// Returns why this side ended a session, which said this.
    fn by_this_side(self, said: LastWords) -> Reason
        ensures { result ≡ by_this_side self said }
    {
        if let Some(number) = self.refused {
            return Reason::Refused(number);
        }
        if self.gives_place {
            return Reason::PlaceTaken;
        }
        if self.run_ends {
            return Reason::RunEnds;
        }
        Reason::Session(said)
    }

    /// Returns why the connection ended whose session did.
    fn of_session(self) -> Reason
        ensures { result ≡ of_session self self.session }
    {
        match self.session {
            Some(EndReason::PeerClose(reason)) => Reason::PeerClose(reason),
            Some(EndReason::Said(notices)) => Reason::Session(said_in(notices)),
            Some(EndReason::Caller(error, close)) => self.by_this_side(LastWords {
                error: error.map(code_of),
                close,
            }),
            None => self.by_this_side(LastWords::NOTHING),
        }
    }

    /// Returns why the connection ended: by its socket or the store, by its session, or because this side ended the session.
    pub fn reason(self) -> Reason
        ensures { result ≡ reason_of self }
    {
        match self.ended {
            Ended::PeerClosed => Reason::PeerClosed,
            Ended::SessionEnded => self.of_session(),
            Ended::ReadFault => Reason::ReadFault,
            Ended::WriteFault => Reason::WriteFault,
            Ended::StoreFault(fault) => Reason::StoreFault(fault),
        }
    }
}
