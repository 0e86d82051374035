//! Exit statuses.

ghost use Rattle.std.specs.Prelude.{◌≡◌};
ghost use Rattle.pced_commands.specs.Statuses.{run_status, serve_status, tell_status, lines_status, checked_status, refused_status, unread_fault};

use crate::fault::ServeFault;
use crate::tell::{LinesEnd, TellFault};
use clap::error::ErrorKind;
use history_seats::AuditFault;
use pce_engine::ScriptFault;
use script_commands::{DEVICE, INPUT, MEMORY};
use server_signals::RunFault;
use te_base::TeFault;

/// What a line asked for was refused.
const REFUSED: u8 = 1;

/// The audit at the end failed.
const AUDIT: u8 = 4;

/// Returns the exit status of a server that the fault ended.
fn run_status(fault: RunFault) -> u8
    ensures { result ≡ run_status fault }
{
    match fault {
        RunFault::Device => DEVICE,
        RunFault::Store(_) | RunFault::Audit(AuditFault::OutOfMemory) => MEMORY,
        RunFault::Audit(_) => AUDIT,
    }
}

/// Returns the exit status of `serve` after a fault.
pub fn serve_status(fault: ServeFault) -> u8
    ensures { result ≡ serve_status fault }
{
    match fault {
        ServeFault::Te(TeFault::OutOfMemory) => MEMORY,
        ServeFault::BadArgument | ServeFault::Te(_) => INPUT,
        ServeFault::Device => DEVICE,
        ServeFault::Run(fault) => run_status(fault),
    }
}

/// Returns the exit status of a check of a link text.
pub fn checked_status(found: Option<TeFault>) -> u8
    ensures { result ≡ checked_status found }
{
    match found {
        None => 0,
        Some(TeFault::OutOfMemory) => MEMORY,
        Some(_) => INPUT,
    }
}

/// Returns the exit status of `tell` after a fault.
pub fn tell_status(fault: TellFault) -> u8
    ensures { result ≡ tell_status fault }
{
    match fault {
        TellFault::OutOfMemory => MEMORY,
        TellFault::BadArgument => INPUT,
        TellFault::Nobody | TellFault::BrokenOff | TellFault::Device => DEVICE,
    }
}

/// Returns the exit status after lines were answered.
pub fn lines_status(end: LinesEnd) -> u8
    ensures { result ≡ lines_status end }
{
    match end {
        LinesEnd::AllHeard => 0,
        LinesEnd::SomeRefused => REFUSED,
        LinesEnd::SomeBad => INPUT,
        LinesEnd::SomeUnread => DEVICE,
        LinesEnd::SomeShort => MEMORY,
    }
}

/// Returns the exit status for words that are no command: 0 if they ask for help or the version.
pub fn refused(kind: ErrorKind) -> u8
    ensures { result ≡ refused_status kind }
{
    match kind {
        ErrorKind::OutOfMemory => MEMORY,
        ErrorKind::DisplayHelp | ErrorKind::DisplayVersion => 0,
        _ => INPUT,
    }
}

/// Returns the fault of a command whose file can't be read.
pub(crate) fn unread(is_out_of_memory: bool) -> ScriptFault
    ensures { result ≡ unread_fault is_out_of_memory }
{
    if is_out_of_memory {
        ScriptFault::OutOfMemory(0)
    } else {
        ScriptFault::ReadFault
    }
}
