//! Why a step has no line.
ghost use Rattle.std.specs.Prelude.{◌≡◌};
ghost use Rattle.step_lines.specs.declared.fault.LineFault.TheVariants.{OutOfMemory};

use std::alloc::AllocError;

/// Why a step has no line.
#[derive(Clone, Copy, Debug, PartialEq, Eq)]
pub enum LineFault {
    /// No message says what its event asks for, or the message would be too long. No event that came in a message, or
    /// that an operator asked for, is one.
    NoLine,
    /// A growth was refused.
    OutOfMemory,
}

impl From<AllocError> for LineFault {
    ghost from_gives = { λ _ e. e ≡ OutOfMemory };

    fn from(_e: AllocError) -> LineFault {
        LineFault::OutOfMemory
    }
}
