//! Why a script ended early.

ghost use Rattle.std.specs.Prelude.{Some};
ghost use Rattle.pce_engine.specs.Faults.{fault_text};

use std::{error, fmt};
use te_base::TeFault;

/// Why a script ended early. `Display` gives the text for standard error.
#[derive(Clone, Copy, Debug, PartialEq, Eq)]
pub enum ScriptFault {
    /// A line that isn't one of the script's, by its number from 1. If there is no `---`, this is one past the last.
    BadLine(u64),
    /// The link text has this fault. If memory ran out, this is given as `OutOfMemory` is.
    Te(TeFault),
    /// A read failed, or the reader was asked 2^32 times.
    ReadFault,
    /// A write failed.
    WriteFault,
    /// Memory ran out at this line, by its number from 1, or 0 if none was read.
    OutOfMemory(u64),
    /// The history holds as many steps as it can.
    HistoryFull,
}

impl fmt::Display for ScriptFault {
    ghost output = { λ fault. Some (fault_text fault) };

    fn fmt<W: fmt::Write>(&self, f: &mut fmt::Formatter<W>) -> fmt::Result {
        match *self {
            ScriptFault::BadLine(line) => write!(f, "bad line {line}"),
            ScriptFault::Te(TeFault::OutOfMemory) | ScriptFault::OutOfMemory(_) => {
                f.write_str("out of memory")
            }
            ScriptFault::Te(fault) => {
                let number = fault.number();
                write!(f, "te fault {number}")
            }
            ScriptFault::ReadFault | ScriptFault::WriteFault => f.write_str("device fault"),
            ScriptFault::HistoryFull => f.write_str("history full"),
        }
    }
}

impl error::Error for ScriptFault {}
