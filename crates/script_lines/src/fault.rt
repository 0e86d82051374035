//! Why a line was not answered.

ghost use Rattle.std.specs.Prelude.{◌≡◌, Some};
ghost use Rattle.script_lines.specs.declared.fault.CommandFault.TheVariants.{Store as Stored};
ghost use Rattle.script_lines.specs.Commands.{fault_number, command_text};
ghost use Rattle.history_core.specs.declared.fault.Fault.TheVariants.{OutOfMemory};

use history_core::Fault;
use std::alloc::AllocError;
use std::{error, fmt};

/// Why an operator's line was not answered.
#[derive(Clone, Copy, Debug, PartialEq, Eq)]
pub enum CommandFault {
    /// The line names no event. Nothing was submitted.
    BadLine,
    /// The event was not taken. The store is as before.
    Store(Fault),
}

impl CommandFault {
    /// Returns 1 for a bad line, 2 for a fault of the store.
    pub fn number(self) -> u8
        ensures { result ≡ fault_number self }
    {
        match self {
            CommandFault::BadLine => 1,
            CommandFault::Store(_) => 2,
        }
    }
}

impl fmt::Display for CommandFault {
    ghost output = { λ fault. Some (command_text fault) };

    fn fmt<W: fmt::Write>(&self, f: &mut fmt::Formatter<W>) -> fmt::Result {
        match *self {
            CommandFault::BadLine => f.write_str("bad line"),
            CommandFault::Store(Fault::OutOfMemory) => f.write_str("out of memory"),
            CommandFault::Store(Fault::HistoryFull) => f.write_str("history full"),
        }
    }
}

impl error::Error for CommandFault {}

impl From<AllocError> for CommandFault {
    ghost from_gives = { λ _ e. e ≡ Stored OutOfMemory };

    fn from(_e: AllocError) -> CommandFault {
        CommandFault::Store(Fault::OutOfMemory)
    }
}

impl From<Fault> for CommandFault {
    ghost from_gives = { λ fault e. e ≡ Stored fault };

    fn from(fault: Fault) -> CommandFault {
        CommandFault::Store(fault)
    }
}
