//! What a failed accept of a listener means.
ghost use Rattle.std.specs.Prelude.{◌≡◌};
ghost use Rattle.server_rules.specs.Failures.{failed_accept};

use std::io::ErrorKind;

/// What a failed accept means.
#[derive(Clone, Copy, PartialEq, Eq, Debug)]
pub enum FailedAccept {
    /// Nobody came, or the client has gone again: the next accept may follow at once.
    Nobody,
    /// Descriptors, memory or the network are short: the next accept follows after a pause.
    Wait,
    /// The listener is broken, and no accept will succeed.
    Broken,
}

/// The system's error number for a descriptor that isn't open (EBADF).
const NOT_OPEN: i32 = 9;

/// Says what a failed accept means, given its kind and the system's error number.
pub fn failed_accept(kind: ErrorKind, code: Option<i32>) -> FailedAccept
    ensures { result ≡ failed_accept kind code }
{
    if code == Some(NOT_OPEN) {
        return FailedAccept::Broken;
    }
    match kind {
        ErrorKind::InvalidInput | ErrorKind::Unsupported => FailedAccept::Broken,
        ErrorKind::WouldBlock
        | ErrorKind::TimedOut
        | ErrorKind::Interrupted
        | ErrorKind::ConnectionAborted => FailedAccept::Nobody,
        _ => FailedAccept::Wait,
    }
}
