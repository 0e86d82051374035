//! What faults of a socket or its file mean.
ghost use Rattle.std.specs.Prelude.{◌≡◌};
ghost use Rattle.control_socket.specs.Waits.{is_gone, is_quiet};

use std::io::ErrorKind;

/// Tests whether a call that failed with this error may be made again: its wait is over, or it was interrupted.
pub(crate) fn is_quiet(kind: ErrorKind) -> bool
    ensures { result ≡ is_quiet kind }
{
    matches!(
        kind,
        ErrorKind::WouldBlock | ErrorKind::TimedOut | ErrorKind::Interrupted
    )
}

/// Tests whether a file or its server is missing.
pub(crate) fn is_gone(kind: ErrorKind) -> bool
    ensures { result ≡ is_gone kind }
{
    matches!(kind, ErrorKind::NotFound | ErrorKind::ConnectionRefused)
}
