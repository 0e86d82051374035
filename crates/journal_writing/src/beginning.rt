//! The beginning of a further file.
ghost use Rattle.std.specs.Prelude.{OnOk};
ghost use Rattle.std.specs.Io.KnownBytes.{Appends};
ghost use Rattle.journal_writing.specs.Bases.{file_beginning};
ghost use Rattle.journal_writing.specs.Heads.{head_text};

use crate::fault::JournalFault;
use crate::head::head_of;
use crate::texts::write_bytes;
use base_lines::{PlacedBase, base_text};
use std::alloc::Global;
use std::io::Write;

/// Hands the head of a file to the writer.
fn write_head<W: Write>(
    alloc: Global,
    writer: &mut W,
    run: &str,
    first: u64,
    text: &str,
) -> Result<(), JournalFault>
    ensures { OnOk result (Appends (W.contents writer.old) (W.contents writer.new) (head_text run.now first text.now)) }
{
    let head = head_of(alloc, run, first, text)?;
    write_bytes(writer, head.as_bytes())
}

/// Hands the beginning of a further file to the writer: its head, and the base that its first step comes after. After a
/// fault some of it may have gone out.
#[tactic(auto, using(crate::proofs::Handed::two_parts), unfolding(crate::specs::Bases::file_beginning))]
pub fn write_beginning<W: Write>(
    alloc: Global,
    writer: &mut W,
    run: &str,
    text: &str,
    base: &PlacedBase,
) -> Result<(), JournalFault>
    ensures { OnOk result (Appends (W.contents writer.old) (W.contents writer.new) (file_beginning run.now text.now base.now)) }
{
    write_head(alloc, writer, run, base.steps, text)?;
    let lines = base_text(alloc, base)?;
    write_bytes(writer, lines.as_bytes())
}
