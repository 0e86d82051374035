//! The enum and its words.
ghost use Rattle.std.specs.Prelude.{◌≡◌, Some};
ghost use Rattle.end_reasons.specs.Reasons.{closing_number, closing_word, code_text, ending_text, last_text, own_words, peer_close_text, reason_number, reason_text, reason_word};

use error_words::{close_words, error_words};
use history_core::Fault;
use server_rules::PcErr;
use std::fmt;

/// What a session said as it ended: a PCErr, and the reason of a Close (RFC 5440 section 7.17).
#[derive(Clone, Copy, PartialEq, Eq, Debug)]
pub struct LastWords {
    pub error: Option<PcErr>,
    pub close: Option<u8>,
}

impl LastWords {
    /// It said nothing.
    pub const NOTHING: LastWords = LastWords {
        error: None,
        close: None,
    };
}

/// Why a connection ended.
#[derive(Clone, Copy, PartialEq, Eq, Debug)]
pub enum Reason {
    /// The peer closed the connection.
    PeerClosed,
    /// The peer sent a Close with this reason (RFC 5440 section 7.17).
    PeerClose(u8),
    /// The session ended, and said this. It says nothing if memory was refused to it.
    Session(LastWords),
    /// A read failed.
    ReadFault,
    /// A write failed, or the peer didn't take in time what it was sent.
    WriteFault,
    /// That the peer went down couldn't be kept.
    StoreFault(Fault),
    /// It gave its place to another.
    PlaceTaken,
    /// The run ends.
    RunEnds,
    /// The state refused its session, by this number.
    Refused(u8),
    /// It was closed before anything was read.
    Unheard,
}

impl LastWords {
    /// Returns the word for a session that ended with a Close of this reason, or with none (RFC 5440 section 7.17).
    fn word(self) -> &'static str
        ensures { result.now ≡ closing_word self.close }
    {
        match self.close {
            None => "session ended",
            Some(2) => "DeadTimer",
            Some(3) => "malformed message",
            Some(_) => "closed for another reason",
        }
    }

    /// Returns the reason of the Close, unless the word says it.
    fn number(self) -> Option<u8>
        ensures { result ≡ closing_number self.close }
    {
        match self.close {
            None | Some(2 | 3) => None,
            Some(number) => Some(number),
        }
    }
}

impl Reason {
    /// Returns the word under which ends are counted and shown. Reasons that differ only in a number have one word, except the
    /// DeadTimer, a malformed message and a second session, which have their own.
    pub fn word(self) -> &'static str
        ensures { result.now ≡ reason_word self }
    {
        match self {
            Reason::PeerClosed | Reason::PeerClose(_) => "closed by the peer",
            Reason::Session(said) => said.word(),
            Reason::ReadFault => "read failed",
            Reason::WriteFault => "write failed or timed out",
            Reason::StoreFault(_) => "store fault",
            Reason::PlaceTaken => "place taken by another",
            Reason::RunEnds => "closed by the server",
            Reason::Refused(2) => "second session",
            Reason::Refused(_) => "refused",
            Reason::Unheard => "rejected",
        }
    }

    /// Returns the number that the word leaves out: the reason of the Close that the server sent (RFC 5440 section 7.17), or the
    /// number by which the state refused the session.
    pub fn number(self) -> Option<u8>
        ensures { result ≡ reason_number self }
    {
        match self {
            Reason::Session(said) => said.number(),
            Reason::Refused(2) => None,
            Reason::Refused(number) => Some(number),
            _ => None,
        }
    }
}

/// A PCErr in numbers.
#[derive(Clone, Copy)]
pub struct ErrorNumbers(pub PcErr);

impl fmt::Display for ErrorNumbers {
    ghost output = { λ numbers. Some (code_text numbers.0) };

    fn fmt<W: fmt::Write>(&self, f: &mut fmt::Formatter<W>) -> fmt::Result {
        let (kind, value) = (self.0.kind, self.0.value);
        write!(f, "PCErr {kind}/{value}")
    }
}

/// Returns what the server's own PCErr means: it serves LSPs of IPv4 only, so an LSP of IPv6 has no identifiers (RFC 8231
/// section 7.3.1).
fn own_words(error: PcErr) -> &'static str
    ensures { result.now ≡ own_words error }
{
    match (error.kind, error.value) {
        (6, 11) => "LSP-IDENTIFIERS TLV missing or of IPv6",
        (kind, value) => error_words(kind, value),
    }
}

/// How a session ended that sent a Close with this reason, or none.
#[derive(Clone, Copy)]
struct Ending(Option<u8>);

impl fmt::Display for Ending {
    ghost output = { λ ending. Some (ending_text ending.0) };

    fn fmt<W: fmt::Write>(&self, f: &mut fmt::Formatter<W>) -> fmt::Result {
        match self.0 {
            None => f.write_str("session ended"),
            Some(2) => f.write_str("DeadTimer"),
            Some(3) => f.write_str("malformed message"),
            Some(reason) => write!(f, "closed for reason {reason}"),
        }
    }
}

impl fmt::Display for LastWords {
    ghost output = { λ said. Some (last_text said) };

    fn fmt<W: fmt::Write>(&self, f: &mut fmt::Formatter<W>) -> fmt::Result {
        let ending = Ending(self.close);
        match self.error {
            None => write!(f, "{ending}"),
            Some(error) => {
                let (numbers, words) = (ErrorNumbers(error), own_words(error));
                write!(f, "{ending}: {numbers}, {words}")
            }
        }
    }
}

/// The peer sent a Close with this reason.
#[derive(Clone, Copy)]
struct ClosedByPeer(u8);

impl fmt::Display for ClosedByPeer {
    ghost output = { λ closed. Some (peer_close_text closed.0) };

    fn fmt<W: fmt::Write>(&self, f: &mut fmt::Formatter<W>) -> fmt::Result {
        match self.0 {
            1 => f.write_str("closed by the peer"),
            reason => {
                let words = close_words(reason);
                write!(f, "closed by the peer: Close {reason}, {words}")
            }
        }
    }
}

impl fmt::Display for Reason {
    ghost output = { λ reason. Some (reason_text reason) };

    fn fmt<W: fmt::Write>(&self, f: &mut fmt::Formatter<W>) -> fmt::Result {
        match *self {
            Reason::PeerClosed => f.write_str("closed by the peer"),
            Reason::PeerClose(reason) => {
                let closed = ClosedByPeer(reason);
                write!(f, "{closed}")
            }
            Reason::Session(said) => write!(f, "{said}"),
            Reason::ReadFault => f.write_str("read failed"),
            Reason::WriteFault => f.write_str("write failed or timed out"),
            Reason::StoreFault(fault) => write!(f, "{fault}"),
            Reason::PlaceTaken => f.write_str("place taken by another"),
            Reason::RunEnds => f.write_str("closed by the server"),
            Reason::Refused(2) => f.write_str("second session"),
            Reason::Refused(number) => write!(f, "refused {number}"),
            Reason::Unheard => f.write_str("rejected"),
        }
    }
}
