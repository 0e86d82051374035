//! Text files that are read whole: regular files of at most 16 MB. A FIFO, whose open waits for a writer, a device that never
//! ends, or a folder is refused before it is opened; what was opened is looked at again, since another file may have taken its
//! place in between. That files deliver is shown by tests alone.
//!
//! ```text
//! fn first_line<R: Files<File = File> + AllocGlobal>(rt: &R, path: &str) -> Result<Vec<u8>, FileFault> {
//!     read_file(rt, path)
//! }
//! ```
#![tactic(auto)]

ghost use Rattle.std.specs.Prelude.{◌≤◌, length, IfOk};

use std::fs::{File, Files, Metadata};
use std::io::Read;
use std::{error, fmt, fs, io};

/// The greatest size of a file that is read, in bytes.
pub const LIMIT: usize = 16_000_000;

/// Why a file isn't read. `Display` gives it in words.
#[derive(Debug, Drop)]
pub enum FileFault {
    /// It is a folder, a FIFO, a socket or a device.
    NotRegular,
    /// It has more than 16 MB.
    TooLarge,
    /// The system refuses it, or there is no memory for it.
    System(io::Error),
}

impl FileFault {
    pub fn is_out_of_memory(&self) -> bool {
        match self {
            FileFault::System(error) => error.kind() == io::ErrorKind::OutOfMemory,
            FileFault::NotRegular | FileFault::TooLarge => false,
        }
    }
}

impl fmt::Display for FileFault {
    fn fmt<W: fmt::Write>(&self, f: &mut fmt::Formatter<W>) -> fmt::Result {
        match self {
            FileFault::NotRegular => f.write_str("not a regular file"),
            FileFault::TooLarge => f.write_str("larger than 16 MB"),
            FileFault::System(error) => write!(f, "{error}"),
        }
    }
}

impl error::Error for FileFault {}

impl From<io::Error> for FileFault {
    fn from(error: io::Error) -> FileFault {
        FileFault::System(error)
    }
}

/// Refuses what is no regular file, and one that is too large.
fn look(found: &Metadata) -> Result<(), FileFault> {
    if !found.is_file() {
        return Err(FileFault::NotRegular);
    }
    if found.len() > LIMIT as u64 {
        return Err(FileFault::TooLarge);
    }
    Ok(())
}

/// Reads what is left of a file, which may grow meanwhile.
fn read_all<F: Read + Drop>(file: F, bytes: &mut Vec<u8>) -> Result<(), FileFault> {
    file.take(LIMIT as u64 + 1).read_to_end(bytes)?;
    Ok(())
}

/// Gives the bytes, unless there are too many.
fn within_limit(bytes: Vec<u8>) -> Result<Vec<u8>, FileFault>
    ensures { IfOk result (λ whole. length whole.items ≤ 16_000_000) }
{
    if bytes.len() > LIMIT {
        return Err(FileFault::TooLarge);
    }
    Ok(bytes)
}

fn open<R: Files<File = File>>(rt: &R, path: &str) -> Result<File, FileFault> {
    look(&fs::metadata(rt, path)?)?;
    let file = File::open(rt, path)?;
    look(&file.metadata()?)?;
    Ok(file)
}

/// Reads a regular file of at most 16 MB whole.
pub fn read_file<R: Files<File = File> + AllocGlobal>(
    rt: &R,
    path: &str,
) -> Result<Vec<u8>, FileFault>
    ensures { IfOk result (λ whole. length whole.items ≤ 16_000_000) }
{
    let file = open(rt, path)?;
    let mut bytes = Vec::new(rt.alloc());
    read_all(file, &mut bytes)?;
    within_limit(bytes)
}
