//! One line of a script.

ghost use Rattle.std.specs.Prelude.{◌≡◌, ◌<◌, ◌≤◌, ◌+◌, ◌^◌, string_bytes, codes, None};
ghost use Rattle.std.specs.Str.{bytes_eq};
ghost use Rattle.te_base.specs.Faults.{Gives};
ghost use Rattle.pce_engine.specs.Script.{header_line, base_in};
ghost use Rattle.pce_engine.specs.Faults.{numbered, te_numbered};
ghost use Rattle.script_lines.specs.LineAnswer.{line_answer};
ghost use Rattle.pce_engine.specs.Machine.{stage_of, AnswersLine, Adds};

use crate::fault::ScriptFault;
use crate::standing::Standing;
use history_core::Fault;
use script_lines::CommandFault;
use std::alloc::Global;
use te_base::{TeBase, TeFault};

/// The number of the next line, the link text so far, and the database and sessions once the link text has ended.
pub(crate) struct Stage {
    pub number: u64,
    pub header: Vec<u8>,
    pub standing: Option<Standing>,
}

/// Drops each part. Written by hand because a derived drop would be proved again for every owner.
impl Drop for Stage {
    fn drop(self) {
        let Stage {
            number: _,
            header,
            standing,
        } = self;
        drop(header);
        drop(standing);
    }
}

#[tactic(auto, unfolding(crate::specs::Script::base_in))]
fn read_base(alloc: Global, header: &[u8]) -> Result<TeBase, TeFault>
    ensures { Gives (λ b. b) result (base_in header.now) }
{
    match str::from_utf8(header) {
        Err(_) => Err(TeFault::NotToml),
        Ok(text) => TeBase::read(alloc, text),
    }
}

fn is_bar(line: &[u8]) -> bool
    ensures { result ≡ bytes_eq line.now (codes "---") }
{
    line == b"---".as_slice()
}

#[tactic(auto, unfolding(crate::specs::Script::header_line))]
fn header_line(alloc: Global, stage: &mut Stage, line: &[u8]) -> Result<String, TeFault>
    requires { stage.old.standing ≡ None }
    ensures line_answer { Gives (λ text. line_answer (string_bytes text) (stage_of stage.new)) result (header_line (stage_of stage.old) line.now) }
    ensures number { stage.new.number ≡ stage.old.number }
{
    if is_bar(line) {
        let base = read_base(alloc, &stage.header)?;
        stage.standing = Some(Standing::new(alloc, base)?);
    } else {
        stage.header.extend_from_slice(line)?;
        stage.header.push(b'\n')?;
    }
    Ok(String::new(alloc))
}

fn numbered(number: u64, fault: CommandFault) -> ScriptFault
    ensures { result ≡ numbered number fault }
{
    match fault {
        CommandFault::BadLine => ScriptFault::BadLine(number),
        CommandFault::Store(Fault::OutOfMemory) => ScriptFault::OutOfMemory(number),
        CommandFault::Store(Fault::HistoryFull) => ScriptFault::HistoryFull,
    }
}

fn te_numbered(number: u64, fault: TeFault) -> ScriptFault
    ensures { result ≡ te_numbered number fault }
{
    match fault {
        TeFault::OutOfMemory => ScriptFault::OutOfMemory(number),
        _ => ScriptFault::Te(fault),
    }
}

#[tactic(auto, unfolding(crate::specs::Script::answered))]
fn answer(alloc: Global, stage: &mut Stage, line: &[u8]) -> Result<String, ScriptFault>
    ensures answered { AnswersLine string_bytes result line.now (stage_of stage.old) (stage_of stage.new) }
    ensures number { stage.new.number ≡ stage.old.number }
{
    match &mut stage.standing {
        None => match header_line(alloc, stage, line) {
            Ok(text) => Ok(text),
            Err(fault) => Err(te_numbered(stage.number, fault)),
        },
        Some(standing) => match standing.line(alloc, line) {
            Ok(text) => Ok(text),
            Err(fault) => Err(numbered(stage.number, fault)),
        },
    }
}

/// Adds what a line prints. After a fault nothing is added, and the line is still the next.
#[tactic(auto, unfolding(crate::specs::Script::answer_of_line))]
pub(crate) fn answer_line(
    alloc: Global,
    stage: &mut Stage,
    line: &[u8],
    out: &mut Vec<u8>,
) -> Result<(), ScriptFault>
    requires { stage.old.number < 2 ^ 63 }
    ensures line_answer { Adds result line.now out.old.items (stage_of stage.old) out.new.items (stage_of stage.new) }
    ensures number { stage.new.number ≤ stage.old.number + 1 }
{
    let text = answer(alloc, stage, line)?;
    if out.extend_from_slice(text.as_bytes()).is_err() {
        return Err(ScriptFault::OutOfMemory(stage.number));
    }
    stage.number += 1;
    Ok(())
}
