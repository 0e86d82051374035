//! Why a call of a session is refused.

ghost use Rattle.std.specs.Prelude.{◌≡◌};
ghost use Rattle.pcep_session.specs.Faults.{fault_number, fault_of};
ghost use Rattle.pcep_session.specs.declared.fault.SessionFault.TheVariants.{OutOfMemory};

use pcep_objects::WriteFault;
use std::alloc::AllocError;
use thiserror::Error;

/// Why a call of a session was refused. The session is then as it was before.
#[derive(Clone, Copy, Debug, PartialEq, Eq, Error)]
pub enum SessionFault {
    /// The session has ended.
    #[error("session closed")]
    Closed,
    /// Memory ran out.
    #[error("out of memory")]
    OutOfMemory,
    /// The session is not up yet.
    #[error("session not up")]
    NotUp,
    /// A length in the message doesn't fit its field, or messages of its kind aren't written.
    #[error("message too long")]
    TooLong,
}

impl SessionFault {
    /// Returns the place of the fault in the order of the variants, from 1 to 4.
    pub fn number(self) -> u8
        ensures { result ≡ fault_number self }
    {
        match self {
            SessionFault::Closed => 1,
            SessionFault::OutOfMemory => 2,
            SessionFault::NotUp => 3,
            SessionFault::TooLong => 4,
        }
    }
}

impl From<AllocError> for SessionFault {
    ghost from_gives = { λ _ e. e ≡ OutOfMemory };

    fn from(_e: AllocError) -> SessionFault {
        SessionFault::OutOfMemory
    }
}

impl From<WriteFault> for SessionFault {
    ghost from_gives = { λ w e. e ≡ fault_of w };

    fn from(fault: WriteFault) -> SessionFault {
        match fault {
            WriteFault::TooLong => SessionFault::TooLong,
            WriteFault::OutOfMemory => SessionFault::OutOfMemory,
        }
    }
}
