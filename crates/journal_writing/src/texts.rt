//! The text of steps.
ghost use Rattle.std.specs.Prelude.{◌≡◌, ◌+◌, ◌≤◌, ◌^◌, ◌++◌, ◌∷◌, [], length, OnOk};
ghost use Rattle.std.specs.Io.KnownBytes.{Appends};
ghost use Rattle.step_lines.specs.Lines.{line_of};
ghost use Rattle.line_words.specs.Written.{text_of};
ghost use Rattle.journal_writing.specs.Texts.{placed, lines_of};

use crate::fault::JournalFault;
use history_core::Step;
use std::alloc::Global;
use std::io::Write;
use step_lines::line_of;

/// Hands bytes to the writer.
pub(crate) fn write_bytes<W: Write>(writer: &mut W, bytes: &[u8]) -> Result<(), JournalFault>
    ensures { OnOk result (Appends (W.contents writer.old) (W.contents writer.new) bytes.now) }
{
    match writer.write_all(bytes) {
        Ok(()) => Ok(()),
        Err(_) => Err(JournalFault::Device),
    }
}

/// Hands a line to the writer, with its line break.
#[tactic(auto, using(crate::proofs::Handed::two_parts))]
pub fn write_line<W: Write>(writer: &mut W, line: &str) -> Result<(), JournalFault>
    ensures { OnOk result (Appends (W.contents writer.old) (W.contents writer.new) (line.now ++ 10 ∷ [])) }
{
    write_bytes(writer, line.as_bytes())?;
    write_bytes(writer, b"\n")
}

/// Hands the line of a step to the writer, with its line break.
fn write_step<W: Write>(
    alloc: Global,
    writer: &mut W,
    place: u64,
    step: &Step,
) -> Result<(), JournalFault>
    ensures { OnOk result (Appends (W.contents writer.old) (W.contents writer.new) (line_of (placed place step.now) ++ 10 ∷ [])) }
{
    let line = line_of(alloc, place, step.event.event(), step.brief)?;
    write_line(writer, &line)
}

/// Hands the lines of steps to the writer, of which the first has this place. After a fault some of them may have gone out.
pub fn write_steps<W: Write>(
    alloc: Global,
    writer: &mut W,
    first: u64,
    steps: &[Step],
) -> Result<(), JournalFault>
    requires { first + length steps.now ≤ 2 ^ 62 }
    ensures { OnOk result (Appends (W.contents writer.old) (W.contents writer.new) (text_of (lines_of first steps.now))) }
{
    let mut place = first;
    for step in steps {
        write_step(alloc, writer, place, step)?;
        place += 1;
    }
    Ok(())
}
