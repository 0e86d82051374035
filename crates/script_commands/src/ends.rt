//! How a script ends.

ghost use Rattle.std.specs.Prelude.{◌≡◌, IfOk, IsOk};
ghost use Rattle.std.specs.IoError.{error_kind};
ghost use Rattle.script_commands.specs.Statuses.{status_of, ended_status, failed_fault};

use pce_engine::{ScriptFault, TeFault};
use std::io;

/// What was given is wrong: a line, the link text or an argument.
pub const INPUT: u8 = 2;
/// A device fails: a read or a write, a file or a listener.
pub const DEVICE: u8 = 3;
/// There is no room: memory, or the history is full.
pub const MEMORY: u8 = 5;

/// Returns the exit status of a run that the fault ended.
pub fn status(fault: ScriptFault) -> u8
    ensures { result ≡ status_of fault }
{
    match fault {
        ScriptFault::Te(TeFault::OutOfMemory)
        | ScriptFault::OutOfMemory(_)
        | ScriptFault::HistoryFull => MEMORY,
        ScriptFault::BadLine(_) | ScriptFault::Te(_) => INPUT,
        ScriptFault::ReadFault | ScriptFault::WriteFault => DEVICE,
    }
}

/// Writes the text of a fault to standard error, and returns the exit status of the script. If there is no fault, nothing is
/// written, and nothing fails.
pub fn end<R: Eprint>(rt: &R, outcome: Result<(), ScriptFault>) -> io::Result<u8>
    ensures status { IfOk result (λ given. given ≡ ended_status outcome) }
    ensures nothing_to_write { IsOk outcome → IsOk result }
{
    match outcome {
        Ok(()) => Ok(0),
        Err(fault) => {
            eprintln!(rt; "{fault}")?;
            Ok(status(fault))
        }
    }
}

/// Returns the fault of a run whose words couldn't be read, or whose text couldn't be written to standard error.
fn failed(error: &io::Error) -> ScriptFault
    ensures { result ≡ failed_fault (error_kind error.now) }
{
    match error.kind() {
        io::ErrorKind::OutOfMemory => ScriptFault::OutOfMemory(0),
        _ => ScriptFault::WriteFault,
    }
}

/// Returns the exit status of a run to which the system refused something. The text goes to standard error, if that takes it.
pub fn fail<R: Eprint>(rt: &R, error: &io::Error) -> u8
    ensures { result ≡ status_of (failed_fault (error_kind error.now)) }
{
    let fault = failed(error);
    let _written = eprintln!(rt; "{fault}");
    status(fault)
}
