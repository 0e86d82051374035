//! How a replay ends.
ghost use Rattle.std.specs.Prelude.{◌≡◌};
ghost use Rattle.replay_commands.specs.Ends.{replay_status};

use history_core::{Brief, Fault};
use script_commands::{DEVICE, INPUT, MEMORY};
use std::alloc::{AllocError, Global};
use std::fmt::Write;
use step_lines::add_reply;

/// A recorded reply isn't the one that its event gets.
const DIFFERENT: u8 = 4;

/// How a replay ends.
#[derive(Clone, Copy, Debug, PartialEq, Eq)]
pub enum ReplayEnd {
    /// Each reply is as recorded, up to where was replayed.
    AsRecorded,
    /// The reply of the step at this place isn't.
    Differs {
        place: u64,
        recorded: Brief,
        replayed: Brief,
    },
    /// A line may not stand where it does: that of this number, in the file of this number. Both count from 1.
    BadLine {
        file: u64,
        line: u64,
    },
    /// The words ask for something that isn't there to be asked for.
    BadArgument,
    /// The journal ends before the step that was asked for, or begins after it.
    NoSuchStep,
    /// A file can't be read, or standard output takes no more.
    Device,
    OutOfMemory,
}

impl ReplayEnd {
    /// Returns the exit status.
    pub(crate) fn status(self) -> u8
        ensures { result ≡ replay_status self }
    {
        match self {
            ReplayEnd::AsRecorded => 0,
            ReplayEnd::Differs { .. } => DIFFERENT,
            ReplayEnd::BadLine { .. } | ReplayEnd::BadArgument | ReplayEnd::NoSuchStep => INPUT,
            ReplayEnd::Device => DEVICE,
            ReplayEnd::OutOfMemory => MEMORY,
        }
    }
}

impl From<AllocError> for ReplayEnd {
    fn from(_e: AllocError) -> ReplayEnd {
        ReplayEnd::OutOfMemory
    }
}

impl From<Fault> for ReplayEnd {
    fn from(fault: Fault) -> ReplayEnd {
        match fault {
            Fault::OutOfMemory | Fault::HistoryFull => ReplayEnd::OutOfMemory,
        }
    }
}

/// Says in words that the reply of a step differs.
pub(crate) fn differs_text(
    alloc: Global,
    place: u64,
    recorded: Brief,
    replayed: Brief,
) -> Result<String, AllocError> {
    let mut text = String::new(alloc);
    write!(text, "step {place}: recorded ")?;
    add_reply(&mut text, recorded)?;
    text.push_str(", replayed ")?;
    add_reply(&mut text, replayed)?;
    Ok(text)
}

/// Says in words that the steps from one place to before another are as recorded, and of which file the base was from
/// which they were replayed, if it was of one.
pub(crate) fn recorded_text(
    alloc: Global,
    first: u64,
    next: u64,
    base: Option<&str>,
    grants: u64,
) -> Result<String, AllocError> {
    if next <= first {
        return String::from_str(alloc, "no step replayed");
    }
    let last = next - 1;
    let mut text = format!(in alloc; "steps {first} to {last} replayed")?;
    if let Some(file) = base {
        write!(text, " from the base of {file}")?;
    }
    write!(text, ", {grants} grants: each reply as recorded")?;
    Ok(text)
}
