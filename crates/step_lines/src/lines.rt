//! Whole lines: what is written of a step, and the step that a line is.
ghost use Rattle.std.specs.Prelude.{◌≡◌, ◌&&◌, true, false, IfOk, IfErr, IfSome, Some, string_bytes};
ghost use Rattle.step_lines.specs.declared.fault.LineFault.TheVariants.{NoLine};
ghost use Rattle.step_lines.specs.declared.placed.PlacedStep.{PlacedStep};
ghost use Rattle.step_lines.specs.Lines.{has_line, line_of, likely_step, if_written, step_in, line_limit};
ghost use Rattle.std.specs.Str.{bytes_eq};
ghost use Rattle.step_lines.specs.Normal.{IsStep};

use crate::events::event_in;
use crate::fault::LineFault;
use crate::placed::PlacedStep;
use crate::replies::{add_reply, reply_in};
use crate::words::add_event;
use asks::{cut_at_space, long_number_in};
use history_core::{Brief, Event};
use line_words::cut_at_equals;
use std::alloc::{AllocError, Global};
use std::fmt::Write;

/// The most bytes that a line has.
pub const LINE_LIMIT: usize = 1 << 18;

/// Writes the line of a step, without a line break. Fails with `NoLine` exactly if the event has no line.
#[tactic(auto, unfolding(crate::specs::Lines::line_of))]
pub fn line_of(alloc: Global, place: u64, event: &Event, brief: Brief) -> Result<String, LineFault>
    ensures line { IfOk result (λ line. string_bytes line ≡ line_of (record { place = place; event = event.now; brief = brief })) }
    ensures has { IfOk result (λ _. has_line event.now ≡ true) }
    ensures no_line { IfErr result (λ e. e ≡ NoLine → has_line event.now ≡ false) }
{
    let mut text = String::new(alloc);
    write!(text, "{place} ")?;
    add_event(alloc, &mut text, event)?;
    text.push_str("= ")?;
    add_reply(&mut text, brief)?;
    Ok(text)
}

/// Reads a step that the line may stand for.
#[tactic(auto, unfolding(crate::specs::Lines::likely_step))]
fn likely_step(alloc: Global, line: &str) -> Result<Option<PlacedStep>, AllocError>
    ensures { IfOk result (λ step. step ≡ likely_step line.now) }
{
    let Some((front, reply)) = cut_at_equals(line) else {
        return Ok(None);
    };
    let Some((place, event)) = cut_at_space(front) else {
        return Ok(None);
    };
    let Some(place) = long_number_in(place) else {
        return Ok(None);
    };
    let Some(event) = event_in(alloc, event)? else {
        return Ok(None);
    };
    let Some((_, reply)) = cut_at_space(reply) else {
        return Ok(None);
    };
    match reply_in(reply) {
        Some(brief) => Ok(Some(PlacedStep {
            place,
            event,
            brief,
        })),
        None => Ok(None),
    }
}

/// Tests whether the step is written so.
fn is_written(alloc: Global, line: &str, step: &PlacedStep) -> Result<bool, AllocError>
    ensures { IfOk result (λ is. is ≡ (has_line step.now.event && bytes_eq (line_of step.now) line.now)) }
{
    match line_of(alloc, step.place, &step.event, step.brief) {
        Ok(text) => Ok(text.as_str() == line),
        Err(LineFault::NoLine) => Ok(false),
        Err(LineFault::OutOfMemory) => Err(AllocError),
    }
}

/// Reads the step that a line is, if it is written so.
#[tactic(auto, unfolding(crate::specs::Lines::step_in))]
fn written_step(alloc: Global, line: &str) -> Result<Option<PlacedStep>, AllocError>
    ensures { IfOk result (λ found. found ≡ step_in line.now) }
{
    if line.len() > LINE_LIMIT {
        return Ok(None);
    }
    let Some(step) = likely_step(alloc, line)? else {
        return Ok(None);
    };
    if is_written(alloc, line, &step)? {
        Ok(Some(step))
    } else {
        Ok(None)
    }
}

/// Reads the step that a line is; `None` for a bad line. A line that is read is the line of its step and of no other,
/// and the line of each step reads as it. It takes time in proportion to the length of the line.
#[tactic(auto, using(crate::proofs::StepsAgain::only_its_line))]
pub fn step_in(alloc: Global, line: &str) -> Result<Option<PlacedStep>, AllocError>
    ensures step { IfOk result (λ found. found ≡ step_in line.now) }
    ensures only_its_line { IfOk result (λ found. IfSome found (λ step. line.now ≡ line_of step)) }
    ensures each_line { IfOk result (λ found. (step : PlacedStep) → IsStep step → line.now ≡ line_of step → found ≡ Some step) }
{
    let found = written_step(alloc, line)?;
    Ok(found)
}
