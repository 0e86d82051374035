//! Why `pced serve` ends with a fault.
ghost use Rattle.std.specs.Prelude.{Some};
ghost use Rattle.pced_commands.specs.Texts.{serve_text};

use server_signals::RunFault;
use std::{error, fmt};
use te_base::TeFault;

/// Why a server did not run to its end. `Display` gives the text for standard error.
#[derive(Clone, Copy, Debug, PartialEq, Eq)]
pub enum ServeFault {
    /// The address to listen on is no `ADDR:PORT`, a router is no address, or the log has no such level.
    BadArgument,
    /// The file can't be read, or the listener can't be made.
    Device,
    /// The link text has this fault.
    Te(TeFault),
    /// The run ended with this fault.
    Run(RunFault),
}

impl fmt::Display for ServeFault {
    ghost output = { λ fault. Some (serve_text fault) };

    fn fmt<W: fmt::Write>(&self, f: &mut fmt::Formatter<W>) -> fmt::Result {
        match *self {
            ServeFault::BadArgument => f.write_str("bad argument"),
            ServeFault::Device => f.write_str("device fault"),
            ServeFault::Te(TeFault::OutOfMemory) => f.write_str("out of memory"),
            ServeFault::Te(fault) => {
                let number = fault.number();
                write!(f, "te fault {number}")
            }
            ServeFault::Run(fault) => write!(f, "{fault}"),
        }
    }
}

impl error::Error for ServeFault {}
