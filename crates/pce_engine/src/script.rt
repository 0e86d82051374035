//! A script, from a reader to a writer.

ghost use Rattle.std.specs.Prelude.{◌≡◌, ◌≢◌, ◌<◌, ◌≤◌, ◌+◌, ◌^◌, ◌++◌, List, [], ℕ, length, Some, Ok, IfErr, OnOk};
ghost use Rattle.std.specs.Io.{ReadsAtMost};
ghost use Rattle.std.specs.Io.KnownBytes.{ReadConsumes};
ghost use Rattle.pce_engine.specs.declared.fault.ScriptFault.TheVariants.{ReadFault, OutOfMemory};
ghost use Rattle.pce_engine.specs.declared.script.Turn.TheVariants.{More};
ghost use Rattle.pce_engine.specs.Script.{ending};
ghost use Rattle.pce_engine.specs.Runs.{Chunk, Turns, Reaches};
ghost use Rattle.pce_engine.specs.Ends.{EndsAs, Closes, ClosesAt};
ghost use Rattle.pce_engine.specs.Machine.{Takes, Feeds, stage_of, started};
ghost use Rattle.pce_engine.specs.MachineOf.{machine_of};

use crate::fault::ScriptFault;
use crate::stage::{Stage, answer_line};
use std::alloc::Global;
use std::io::{Read, Write};

/// How often the reader is asked at most.
const MAX_TURNS: u64 = 1 << 32;

/// How far the reader got.
#[derive(Clone, Copy)]
enum Input {
    /// The input has ended.
    Ended,
    /// The reader gave bytes as often as it may be asked.
    Endless,
}

/// What one read of the input led to.
#[derive(Clone, Copy)]
enum Turn {
    /// There were bytes, and what they print was written.
    More,
    /// There were none, and what the last line prints was written.
    Finished,
}

/// A running script, with the bytes of a line that hasn't ended.
#[derive(Drop)]
struct Script {
    stage: Stage,
    pending: Vec<u8>,
}

/// Adds bytes to the line that hasn't ended.
fn add(script: &mut Script, bytes: &[u8]) -> Result<(), ScriptFault>
    ensures stage { script.new.stage ≡ script.old.stage }
    ensures ok { OnOk result (script.new.pending.items ≡ script.old.pending.items ++ bytes.now) }
    ensures err { IfErr result (λ fault. fault ≡ OutOfMemory script.old.stage.number) }
{
    match script.pending.extend_from_slice(bytes) {
        Ok(()) => Ok(()),
        Err(_) => Err(ScriptFault::OutOfMemory(script.stage.number)),
    }
}

/// Takes the line break that ends the line.
fn take_break(alloc: Global, script: &mut Script, out: &mut Vec<u8>) -> Result<(), ScriptFault>
    requires { script.old.stage.number < 2 ^ 63 }
    ensures took { Takes result 10 out.old.items (machine_of script.old) out.new.items (machine_of script.new) }
    ensures number { script.new.stage.number ≤ script.old.stage.number + 1 }
{
    answer_line(alloc, &mut script.stage, &script.pending, out)?;
    script.pending.clear();
    Ok(())
}

fn feed(
    alloc: Global,
    script: &mut Script,
    bytes: &[u8],
    out: &mut Vec<u8>,
) -> Result<(), ScriptFault>
    requires { script.old.stage.number + length bytes.now < 2 ^ 63 }
    ensures fed { Feeds result bytes.now out.old.items (machine_of script.old) out.new.items (machine_of script.new) }
    ensures number { script.new.stage.number ≤ script.old.stage.number + length bytes.now }
{
    let mut start = 0;
    for (place, byte) in bytes.iter().enumerate() {
        if *byte == b'\n' {
            add(script, &bytes[start..place])?;
            take_break(alloc, script, out)?;
            start = place + 1;
        }
    }
    add(script, &bytes[start..])
}

/// Takes a piece of the input, and writes what it prints, even if a fault comes after it.
fn take_chunk<W: Write>(
    alloc: Global,
    script: &mut Script,
    bytes: &[u8],
    writer: &mut W,
) -> Result<(), ScriptFault>
    requires { script.old.stage.number + length bytes.now < 2 ^ 63 }
    ensures chunk { Chunk result bytes.now (machine_of script.old) (W.contents writer.old) (W.contents writer.new) (machine_of script.new) }
    ensures number { script.new.stage.number ≤ script.old.stage.number + length bytes.now }
{
    let mut out = Vec::new(alloc);
    let outcome = feed(alloc, script, bytes, &mut out);
    if writer.write_all(&out).is_err() {
        return Err(ScriptFault::WriteFault);
    }
    outcome
}

fn close<W: Write>(stage: &Stage, writer: &mut W) -> Result<(), ScriptFault>
    ensures { ClosesAt result (W.contents writer.old) (W.contents writer.new) (ending stage.now.number stage.now.standing) }
{
    if stage.standing.is_none() {
        return Err(ScriptFault::BadLine(stage.number));
    }
    if writer.flush().is_err() {
        return Err(ScriptFault::WriteFault);
    }
    Ok(())
}

/// Takes the last line, which has no line break, and writes what it prints.
fn finish_line<W: Write>(
    alloc: Global,
    stage: &mut Stage,
    line: &[u8],
    writer: &mut W,
) -> Result<(), ScriptFault>
    requires number { stage.old.number < 2 ^ 63 }
    requires line { line.now ≢ [] }
    ensures { Closes result (W.contents writer.old) (W.contents writer.new) (stage_of stage.old) line.now }
{
    let mut out = Vec::new(alloc);
    answer_line(alloc, stage, line, &mut out)?;
    if writer.write_all(&out).is_err() {
        return Err(ScriptFault::WriteFault);
    }
    close(stage, writer)
}

#[tactic(auto, using(crate::proofs::Closing::closes_nothing))]
fn finish<W: Write>(alloc: Global, script: &mut Script, writer: &mut W) -> Result<(), ScriptFault>
    requires { script.old.stage.number < 2 ^ 63 }
    ensures { Closes result (W.contents writer.old) (W.contents writer.new) (stage_of script.old.stage) script.old.pending.items }
{
    if script.pending.is_empty() {
        return close(&script.stage, writer);
    }
    finish_line(alloc, &mut script.stage, &script.pending, writer)
}

/// Fills the front of `piece` with the next bytes of the input, and returns how many: 0 if it has ended.
fn read_piece<R: Read>(reader: &mut R, piece: &mut [u8]) -> Result<usize, ScriptFault>
    ensures bound { ReadsAtMost result piece.new }
    ensures bytes { ReadConsumes (R.remaining reader.old) (R.remaining reader.new) result piece.new }
    ensures fault { IfErr result (λ fault. fault ≡ ReadFault) }
{
    match reader.read(piece) {
        Ok(n) => Ok(n),
        Err(_) => Err(ScriptFault::ReadFault),
    }
}

/// Reads a piece of the input, takes it, and writes what it prints. If the input has ended, it takes the last line.
fn take_piece<R: Read, W: Write>(
    alloc: Global,
    reader: &mut R,
    piece: &mut [u8; 4096],
    script: &mut Script,
    writer: &mut W,
) -> Result<Turn, ScriptFault>
    requires { script.old.stage.number + 4096 < 2 ^ 63 }
    ensures turns { Turns result (R.remaining reader.old) (R.remaining reader.new) (W.contents writer.old) (W.contents writer.new) (machine_of script.old) (machine_of script.new) }
    ensures number { result ≡ Ok More → script.new.stage.number ≤ script.old.stage.number + 4096 }
{
    match read_piece(reader, piece) {
        Err(fault) => Err(fault),
        Ok(0) => match finish(alloc, script, writer) {
            Err(fault) => Err(fault),
            Ok(()) => Ok(Turn::Finished),
        },
        Ok(n) => match take_chunk(alloc, script, &piece[..n], writer) {
            Err(fault) => Err(fault),
            Ok(()) => Ok(Turn::More),
        },
    }
}

/// Takes the input piece by piece, and writes what it prints, from the start of a script on.
fn take_pieces<R: Read, W: Write>(
    alloc: Global,
    reader: &mut R,
    piece: &mut [u8; 4096],
    script: &mut Script,
    writer: &mut W,
) -> Result<Input, ScriptFault>
    requires started { machine_of script.old ≡ started }
    requires number { script.old.stage.number ≡ 1 }
    ensures { (input : List ℕ) → R.remaining reader.old ≡ Some input
        → Reaches result (W.contents writer.old) (W.contents writer.new) (R.remaining reader.new) input }
{
    for _ in 0..MAX_TURNS {
        match take_piece(alloc, reader, piece, script, writer) {
            Err(fault) => return Err(fault),
            Ok(Turn::Finished) => return Ok(Input::Ended),
            Ok(Turn::More) => {}
        }
    }
    Ok(Input::Endless)
}

/// Takes the whole input, and writes what it prints.
fn take_input<R: Read, W: Write>(
    alloc: Global,
    reader: &mut R,
    writer: &mut W,
) -> Result<Input, ScriptFault>
    ensures { (input : List ℕ) → R.remaining reader.old ≡ Some input
        → Reaches result (W.contents writer.old) (W.contents writer.new) (R.remaining reader.new) input }
{
    let mut script = Script {
        stage: Stage {
            number: 1,
            header: Vec::new(alloc),
            standing: None,
        },
        pending: Vec::new(alloc),
    };
    let mut piece = [0u8; 4096];
    take_pieces(alloc, reader, &mut piece, &mut script, writer)
}

/// Reads a link text, a line `---` and lines, and writes what they print. docs/FORMAT.md describes all of them.
///
/// `BadLine`, `Te` and `HistoryFull` come where the script has them. `OutOfMemory` comes at the line that it names,
/// which ends in the last piece of 4,096 bytes that was read or later. Each comes after the output of all lines before.
/// After `ReadFault` the output has all lines that were read. After `WriteFault` the output may end anywhere. The
/// reader is asked 2^32 times at most.
pub fn run_script<R: Read, W: Write>(
    alloc: Global,
    reader: &mut R,
    writer: &mut W,
) -> Result<(), ScriptFault>
    ensures { (input : List ℕ) → R.remaining reader.old ≡ Some input
        → EndsAs result (W.contents writer.old) (W.contents writer.new) (R.remaining reader.new) input }
{
    match take_input(alloc, reader, writer) {
        Ok(Input::Ended) => Ok(()),
        Ok(Input::Endless) => Err(ScriptFault::ReadFault),
        Err(fault) => Err(fault),
    }
}
