//! The base of the file that is read.
ghost use Rattle.std.specs.Prelude.{IfOk};
ghost use Rattle.replay_commands.specs.Bases.{Awaits, Begins, TakesLine, Ends};

use crate::ends::ReplayEnd;
use base_lines::{BaseLine, BaseReader};
use history_core::Database;
use journal_replay::{ExpectedBase, begin_at};
use std::alloc::{AllocError, Global};
use step_lines::LineFault;
use te_base::TeBase;

/// What the lines of the base are for, of the file that is read.
#[derive(Drop)]
pub(crate) enum FileBase {
    /// No line of a base may come.
    None,
    /// The replay begins there, over this network: the file is the first.
    First(TeBase, BaseReader),
    /// They have to be those of what was replayed: files come before it.
    Later(ExpectedBase),
}

/// Begins at a base that was read, before the step of this place. Fails if no replay begins there.
fn begin(
    alloc: Global,
    te: TeBase,
    reader: BaseReader,
    first: u64,
    bad_line: ReplayEnd,
) -> Result<Database, ReplayEnd>
    ensures { IfOk result (λ database. Begins te reader first database) }
{
    let Some(base) = reader.into_base() else {
        return Err(bad_line);
    };
    match begin_at(alloc, te, base, first)? {
        Some(database) => Ok(database),
        None => Err(bad_line),
    }
}

impl FileBase {
    /// Awaits the base of what was replayed. If an item of it has no line, no line is right.
    pub(crate) fn of_replayed(alloc: Global, database: &Database) -> Result<FileBase, AllocError>
        ensures { IfOk result (λ base. Awaits database.now base) }
    {
        match ExpectedBase::of(alloc, database) {
            Ok(expected) => Ok(FileBase::Later(expected)),
            Err(LineFault::NoLine) => Ok(FileBase::None),
            Err(LineFault::OutOfMemory) => Err(AllocError),
        }
    }

    /// Takes a line. Returns whether it may stand there.
    pub(crate) fn take(&mut self, alloc: Global, line: &str) -> Result<bool, AllocError>
        ensures { IfOk result (λ good. TakesLine self.old line.now good self.new) }
    {
        match self {
            FileBase::None => Ok(false),
            FileBase::First(_, reader) => Ok(reader.take(alloc, line)? != BaseLine::Bad),
            FileBase::Later(expected) => Ok(expected.take(line)),
        }
    }

    /// Ends the base, in front of the step of this place. The replay begins there if the file is the first. Fails if the
    /// base isn't whole, or no replay begins there.
    pub(crate) fn end(
        self,
        alloc: Global,
        first: u64,
        bad_line: ReplayEnd,
    ) -> Result<Option<Database>, ReplayEnd>
        ensures { IfOk result (λ begun. Ends self first begun) }
    {
        match self {
            FileBase::None => Err(bad_line),
            FileBase::First(te, reader) => Ok(Some(begin(alloc, te, reader, first, bad_line)?)),
            FileBase::Later(expected) => {
                if !expected.is_done() {
                    return Err(bad_line);
                }
                Ok(None)
            }
        }
    }
}
