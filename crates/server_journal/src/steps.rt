//! What is handed to the writer of a journal.
ghost use Rattle.std.specs.Prelude.{◌≡◌, ◌≢◌, ◌+◌, ◌-◌, ◌≤◌, ◌^◌, true, length, take, drop, Ok, OnOk, IfOk, IfSome, IfNone};
ghost use mathlib.Core.List.{IsPrefix};
ghost use Rattle.history_core.specs.Histories.{steps_of};
ghost use Rattle.history_seats.specs.Past.{database_at, steps_at};
ghost use Rattle.journal_writing.specs.Steps.{most_seen};
ghost use Rattle.shared_pce.specs.Turns.{SeesMore};
ghost use Rattle.server_journal.specs.Bases.{base_at, Begins};
ghost use Rattle.server_journal.specs.Writes.{Notes, Writes, WritesOn};

use base_lines::PlacedBase;
use history_core::Step;
use history_seats::Brands;
use journal_writing::{
    BaseLook, JournalFault, SeenBase, SeenSteps, StepsLook, moment_line, write_beginning,
    write_line, write_steps,
};
use shared_pce::{RollAt, RolledSteps, Seat, Shared};
use std::alloc::Global;
use std::io::Write;
use std::sync::Wait;
use std::time::Clock;

/// The greatest number of steps that a run takes, less those that are written at a time.
const LAST_STEP: u64 = (1 << 62) - (1 << 21);

/// How far a journal is.
#[derive(Clone, Copy, Debug, PartialEq, Eq)]
pub(crate) struct Progress {
    /// The place of the next step.
    pub next: u64,
    /// The second since the beginning of 1970 of the last line with the time; 0 if there was none.
    pub second: u64,
}

/// Writes a line with the time, unless there is one of this second, or of a later one.
#[tactic(auto, using(crate::proofs::Notes::no_note, crate::proofs::Notes::one_note))]
fn write_moment<R: Clock, W: Write>(
    rt: &R,
    alloc: Global,
    writer: &mut W,
    second: &mut u64,
) -> Result<(), JournalFault>
    ensures { OnOk result (Notes (W.contents writer.old) (W.contents writer.new)) }
{
    let Ok(now) = rt.since_1970() else {
        return Ok(());
    };
    if now.as_secs() <= *second {
        return Ok(());
    }
    let Some(line) = moment_line(alloc, now)? else {
        return Ok(());
    };
    *second = now.as_secs();
    write_line(writer, &line)
}

/// Writes a line with the time in front of steps, if there are some.
#[tactic(auto, using(crate::proofs::Notes::no_note))]
fn note_before<R: Clock, W: Write>(
    rt: &R,
    alloc: Global,
    writer: &mut W,
    second: &mut u64,
    steps: &[Step],
) -> Result<(), JournalFault>
    ensures { OnOk result (Notes (W.contents writer.old) (W.contents writer.new)) }
{
    if steps.is_empty() {
        return Ok(());
    }
    write_moment(rt, alloc, writer, second)
}

/// Writes steps, of which the first has the next place.
#[tactic(auto, using(crate::proofs::Notes::noted_steps))]
fn write_next<R: Clock, W: Write>(
    rt: &R,
    alloc: Global,
    writer: &mut W,
    progress: &mut Progress,
    steps: &[Step],
) -> Result<(), JournalFault>
    requires { progress.old.next + length steps.now ≤ 2 ^ 62 }
    ensures writes { OnOk result (Writes progress.old.next steps.now (W.contents writer.old) (W.contents writer.new)) }
    ensures next { OnOk result (progress.new.next ≡ progress.old.next + length steps.now) }
{
    note_before(rt, alloc, writer, &mut progress.second, steps)?;
    write_steps(alloc, writer, progress.next, steps)?;
    progress.next += steps.len() as u64;
    Ok(())
}

/// Writes steps as `write_next` does. Fails with `NoLine` if there are no places for so many.
fn write_more<R: Clock, W: Write>(
    rt: &R,
    alloc: Global,
    writer: &mut W,
    progress: &mut Progress,
    steps: &[Step],
) -> Result<(), JournalFault>
    ensures writes { OnOk result (Writes progress.old.next steps.now (W.contents writer.old) (W.contents writer.new)) }
    ensures next { OnOk result (progress.new.next ≡ progress.old.next + length steps.now) }
{
    if progress.next > LAST_STEP || steps.len() > 1 << 21 {
        return Err(JournalFault::NoLine);
    }
    write_next(rt, alloc, writer, progress, steps)
}

/// Writes the next steps of the history, 512 at most, and returns how many.
#[tactic(auto, using(crate::proofs::Following::followed, crate::proofs::Following::all_that_come))]
pub(crate) fn follow<R: Wait + Clock, B: Brands, W: Write>(
    rt: &R,
    alloc: Global,
    shared: &Shared<B>,
    seat: &mut Seat<B>,
    writer: &mut W,
    progress: &mut Progress,
) -> Result<usize, JournalFault>
    ensures sees { SeesMore seat.old seat.new }
    ensures next { IfOk result (λ count. progress.new.next ≡ progress.old.next + count) }
    ensures count { IfOk result (λ count. count ≡ length (take most_seen (drop progress.old.next (steps_at B.text seat.new.seen)))) }
    ensures writes { OnOk result (WritesOn B.text seat.new.seen progress.old.next progress.new.next (W.contents writer.old) (W.contents writer.new)) }
{
    let look = StepsLook {
        from: progress.next,
    };
    match shared.look_at(rt, seat, &look)? {
        SeenSteps::Steps(steps) => {
            write_more(rt, alloc, writer, progress, &steps)?;
            Ok(steps.len())
        }
        SeenSteps::Rolled => Err(JournalFault::Behind),
    }
}

/// Writes those of the rolled steps that weren't written yet.
fn write_rest<R: Clock, W: Write>(
    rt: &R,
    alloc: Global,
    writer: &mut W,
    progress: &mut Progress,
    rolled: &RolledSteps,
) -> Result<(), JournalFault>
    ensures first { OnOk result (rolled.now.first ≤ progress.old.next) }
    ensures within { OnOk result (progress.old.next ≤ rolled.now.first + length rolled.now.steps.items) }
    ensures writes { OnOk result (Writes progress.old.next (drop (progress.old.next - rolled.now.first) rolled.now.steps.items) (W.contents writer.old) (W.contents writer.new)) }
    ensures next { OnOk result (progress.new.next ≡ progress.old.next + length (drop (progress.old.next - rolled.now.first) rolled.now.steps.items)) }
{
    if progress.next < rolled.first {
        return Err(JournalFault::Behind);
    }
    let written = progress.next - rolled.first;
    if written > rolled.steps.len() as u64 {
        return Err(JournalFault::Behind);
    }
    write_more(
        rt,
        alloc,
        writer,
        progress,
        &rolled.steps[written as usize..],
    )
}

/// Rolls the history if it is due, and writes those of its steps that weren't written yet. Returns whether it was rolled.
#[tactic(auto, using(crate::proofs::Following::rolled_on, crate::proofs::Following::none_written))]
pub(crate) fn roll<R: Wait + Clock, B: Brands, W: Write>(
    rt: &R,
    alloc: Global,
    shared: &Shared<B>,
    seat: &mut Seat<B>,
    at: RollAt,
    writer: &mut W,
    progress: &mut Progress,
) -> Result<bool, JournalFault>
    ensures begins { IsPrefix seat.old.seen seat.new.seen }
    ensures all_written { result ≡ Ok true → progress.new.next ≡ steps_of (database_at B.text seat.new.seen) }
    ensures writes { OnOk result (WritesOn B.text seat.new.seen progress.old.next progress.new.next (W.contents writer.old) (W.contents writer.new)) }
{
    match shared.take_rolled_if(rt, seat, at)? {
        Some(rolled) => {
            write_rest(rt, alloc, writer, progress, &rolled)?;
            Ok(true)
        }
        None => Ok(false),
    }
}

/// Copies what was known before the next step, if the history was last rolled there. `None` if another thread has rolled
/// it since.
#[tactic(auto, using(crate::proofs::Beginning::known_before))]
pub(crate) fn see_base<R: Wait, B: Brands>(
    rt: &R,
    shared: &Shared<B>,
    seat: &mut Seat<B>,
    progress: &Progress,
) -> Result<Option<PlacedBase>, JournalFault>
    ensures sees { SeesMore seat.old seat.new }
    ensures base { IfOk result (λ seen. IfSome seen (λ base. base ≡ base_at B.text seat.new.seen progress.now.next)) }
    ensures rolled { IfOk result (λ seen. IfNone seen ((database_at B.text seat.new.seen).rolled ≢ progress.now.next)) }
{
    let look = BaseLook { at: progress.next };
    match shared.look_at(rt, seat, &look)? {
        SeenBase::Base(base) => Ok(Some(base)),
        SeenBase::Other => Ok(None),
    }
}

/// Writes what a further file of the run begins with. Its first step is the next one, before which the base was known.
/// That step gets a line with the time, even if the last such line is of the same second. The seat is there for the proof.
#[tactic(auto, using(crate::proofs::Beginning::same_base))]
pub(crate) fn begin<B: Brands, W: Write>(
    alloc: Global,
    writer: &mut W,
    run: &str,
    text: &str,
    _seat: &Seat<B>,
    progress: &mut Progress,
    base: &PlacedBase,
) -> Result<(), JournalFault>
    requires { base.now ≡ base_at B.text _seat.now.seen progress.old.next }
    ensures begins { OnOk result (Begins run.now text.now B.text _seat.now.seen progress.old.next (W.contents writer.old) (W.contents writer.new)) }
    ensures next { progress.new.next ≡ progress.old.next }
{
    write_beginning(alloc, writer, run, text, base)?;
    progress.second = progress.second.saturating_sub(1);
    Ok(())
}
