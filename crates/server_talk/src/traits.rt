//! What a connection and the operator need from their socket and their run. Each is a trait, so that a test can make it
//! fail.
ghost use Rattle.std.specs.Io.KnownBytes.{Keeps};

use std::io::Read;

/// A reader that waits for bytes, but no longer than it is told, and only until somebody rings for it. If none came, it
/// answers `WouldBlock` or `TimedOut`.
pub trait TimedRead: Read {
    ghost use Rattle.std.specs.Prelude.{ℕ, ⊤};

    /// Its reads wait for this many milliseconds at most.
    ghost may_wait: { Self → ℕ → Type 0 } = { λ _ _. ⊤ };

    /// Sets that reads from now on wait for this many milliseconds at most. What they give stays the same.
    fn set_timeout(&mut self, most_ms: u64)
        ensures kept { Keeps (Self.remaining self.old) (Self.remaining self.new) }
        ensures waits { may_wait self.new most_ms };
}

/// What a connection knows about the run that it is part of.
pub trait Watch {
    ghost use Rattle.std.specs.Prelude.{◌≡◌, ℕ, true, ⊤};

    /// The run may be asked to end.
    ghost may_close: { Self → Type 0 } = { λ _. ⊤ };

    /// The moments that it may show.
    ghost may_show: { Self → ℕ → Type 0 } = { λ _ _. ⊤ };

    /// Returns the moment, in milliseconds since the run began.
    fn now_ms(&self) -> u64
        ensures { may_show self.now result };

    /// Tests whether the run should end, so that each session should be closed.
    fn is_closing(&self) -> bool
        ensures { result ≡ true → may_close self.now };

    /// Wakes the connection of a peer, if there is one, so that it looks for messages to send.
    fn ring(&self, peer: u32);
}
