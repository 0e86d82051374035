//! The operator at standard input, and the test whether a run ends with its part.
ghost use Rattle.std.specs.Prelude.{◌≡◌};
ghost use Rattle.server_operators.specs.Faults.{closes_run, cuts_run, is_fault};

use crate::answering::answer_operator;
use history_seats::Brands;
use server_base::Context;
use server_log::LogLine;
use server_rules::Sessions;
use server_signals::RunFault;
use server_talk::{OperatorEnd, Plan, TimedRead};
use std::io::Write;
use std::sync::Wait;
use std::time::Clock;

/// Tests whether the run should end with its operator's part: a line asked for it, or the lines of an endless run have
/// ended and no other operator can reach it. A writer that fails ends only the operator's part.
fn closes_run(end: OperatorEnd, sessions: Sessions, has_control: bool) -> bool
    ensures { result ≡ closes_run end sessions has_control }
{
    match end {
        OperatorEnd::EndAsked => true,
        OperatorEnd::InputEnded => sessions == Sessions::Endless && !has_control,
        OperatorEnd::RunEnding
        | OperatorEnd::ReadFault
        | OperatorEnd::WriteFault
        | OperatorEnd::FlushFault => false,
    }
}

/// Tests whether the run should end with a fault: standard input failed, and no other operator can reach the run.
fn cuts_run(end: OperatorEnd, has_control: bool) -> bool
    ensures { result ≡ cuts_run end has_control }
{
    end == OperatorEnd::ReadFault && !has_control
}

/// Tests whether the operator's part ended with a fault.
fn is_fault(end: OperatorEnd) -> bool
    ensures { result ≡ is_fault end }
{
    matches!(
        end,
        OperatorEnd::ReadFault | OperatorEnd::WriteFault | OperatorEnd::FlushFault
    )
}

/// Ends the run if it should end with its operator's part, and logs if an operator is gone because of a fault.
pub fn end_with<B: Brands, R: Wait + Clock>(
    context: &Context<'_, R, B>,
    end: OperatorEnd,
    sessions: Sessions,
    has_control: bool,
) {
    if closes_run(end, sessions, has_control) {
        context.close();
    }
    if cuts_run(end, has_control) {
        context.cut(RunFault::Device);
    } else if is_fault(end) {
        context.say(LogLine::OperatorGone);
    }
}

/// Answers the operator's lines from the seat of this slot, and returns why no more are heard.
pub fn hear_operator<B: Brands, R: Wait + Clock, I: TimedRead, O: Write, P: Plan>(
    context: &Context<'_, R, B>,
    at: usize,
    reader: &mut I,
    writer: &mut O,
    plan: &P,
) -> Option<OperatorEnd> {
    let mut seat = context.pool.take(context.rt, at)?;
    let heard = answer_operator(context, plan, &mut seat, reader, writer);
    context.pool.put(context.rt, at, seat);
    match heard {
        Ok(end) => Some(end),
        Err(error) => {
            context.cut(RunFault::from(error));
            None
        }
    }
}
