//! Why a rule gives no effect.
ghost use Rattle.std.specs.Prelude.{◌≡◌};
ghost use Rattle.delegate_rules.specs.declared.fault.RuleFault.TheVariants.{OutOfMemory};

use lsp_base::Why;
use std::alloc::{AllocError, AllocFailed};

/// Why a rule gives no effect.
#[derive(Clone, Copy, Debug, PartialEq, Eq)]
pub enum RuleFault {
    /// The event is refused.
    Why(Why),
    OutOfMemory,
}

impl From<AllocError> for RuleFault {
    ghost from_gives = { λ _ e. e ≡ OutOfMemory };

    fn from(_e: AllocError) -> RuleFault {
        RuleFault::OutOfMemory
    }
}

impl<T: Drop> From<AllocFailed<T>> for RuleFault {
    ghost from_gives = { λ _ e. e ≡ OutOfMemory };

    fn from(_e: AllocFailed<T>) -> RuleFault {
        RuleFault::OutOfMemory
    }
}
