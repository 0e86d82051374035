//! Why a journal isn't written on.
use std::alloc::AllocError;
use step_lines::LineFault;
use thiserror::Error;

/// Why a journal isn't written on. `Display` gives it in words.
#[derive(Clone, Copy, Debug, PartialEq, Eq, Error)]
pub enum JournalFault {
    /// A step, or a message that waits in a base, has no line.
    #[error("a step or a base has no line")]
    NoLine,
    /// The file takes no more.
    #[error("the file takes no more")]
    Device,
    /// Steps were rolled before they were written.
    #[error("too slow")]
    Behind,
    #[error("out of memory")]
    OutOfMemory,
}

impl From<AllocError> for JournalFault {
    fn from(_e: AllocError) -> JournalFault {
        JournalFault::OutOfMemory
    }
}

impl From<LineFault> for JournalFault {
    fn from(fault: LineFault) -> JournalFault {
        match fault {
            LineFault::NoLine => JournalFault::NoLine,
            LineFault::OutOfMemory => JournalFault::OutOfMemory,
        }
    }
}
