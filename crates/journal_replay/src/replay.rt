//! What is known, line by line.
ghost use Rattle.std.specs.Prelude.{◌≡◌, ◌+◌, ◌<◌, IfOk, OnOk, OnErr, length};
ghost use Rattle.step_core.specs.Steps.{step};
ghost use Rattle.history_core.specs.Histories.{steps_of};
ghost use Rattle.history_seats.specs.Bytes.{kept_bytes};
ghost use Rattle.journal_replay.specs.Kept.{most_steps, most_bytes, IsWithin};
ghost use Rattle.journal_replay.specs.Replays.{point_of, replayed_brief, after, TakesStep, Takes};

use crate::taken::Taken;
use event_bytes::bytes_of;
use history_core::{Brief, Database, Fault};
use journal_files::is_moment;
use std::alloc::{AllocError, Global};
use step_lines::{PlacedStep, step_in};

/// How many steps are kept at most: those that `history` and `why` look at.
const KEPT_STEPS: usize = 1_000_000;

/// How many bytes they take at most, before the last one.
const KEPT_BYTES: u64 = 1 << 29;

/// Drops the steps that are kept, if they are as many as may be, or take as many bytes. No reply changes by it.
#[tactic(auto, using(crate::proofs::Points::point_rolled, history_seats::proofs::StepBytes::bytes_rolled))]
fn make_room(database: &mut Database, bytes: &mut u64) -> Result<(), AllocError>
    ensures point { point_of database.new ≡ point_of database.old }
    ensures state { database.new.state ≡ database.old.state }
    ensures few_steps { OnOk result (length database.new.history < most_steps) }
    ensures few_bytes { OnOk result (bytes.new < most_bytes) }
    ensures counted { OnOk result (bytes.old ≡ kept_bytes database.old → bytes.new ≡ kept_bytes database.new) }
{
    if database.history().len() < KEPT_STEPS && *bytes < KEPT_BYTES {
        return Ok(());
    }
    database.roll()?;
    *bytes = 0;
    Ok(())
}

/// Applies the event of a step, and returns what a history keeps of its reply. Counts the bytes of the steps that are
/// kept.
#[tactic(auto, using(crate::proofs::Points::point_stepped, crate::proofs::Points::one_more_kept, history_seats::proofs::StepBytes::bytes_stepped))]
fn apply(database: &mut Database, bytes: &mut u64, step: PlacedStep) -> Result<Brief, Fault>
    ensures after { OnOk result (point_of database.new ≡ after (point_of database.old) step) }
    ensures brief { IfOk result (λ brief. brief ≡ replayed_brief database.old.state step) }
    ensures kept { OnOk result (IsWithin step.event database.new bytes.new) }
    ensures counted { OnOk result (bytes.old ≡ kept_bytes database.old → bytes.new ≡ kept_bytes database.new) }
    ensures unchanged_on_fault { OnErr result (point_of database.new ≡ point_of database.old) }
{
    make_room(database, bytes)?;
    let more = bytes_of(&step.event);
    let reply = database.apply(step.event)?;
    *bytes = bytes.saturating_add(more);
    Ok(Brief::of(&reply))
}

/// Takes a step, if it is that of the next place.
fn take_step(database: &mut Database, bytes: &mut u64, step: PlacedStep) -> Result<Taken, Fault>
    ensures takes { IfOk result (λ taken. TakesStep (point_of database.old) step taken (point_of database.new)) }
    ensures counted { OnOk result (bytes.old ≡ kept_bytes database.old → bytes.new ≡ kept_bytes database.new) }
    ensures unchanged_on_fault { OnErr result (point_of database.new ≡ point_of database.old) }
{
    let (place, recorded) = (step.place, step.brief);
    if place != database.steps() {
        return Ok(Taken::BadLine);
    }
    let replayed = apply(database, bytes, step)?;
    if replayed == recorded {
        return Ok(Taken::AsRecorded);
    }
    Ok(Taken::Differs {
        place,
        recorded,
        replayed,
    })
}

/// Takes the next line of a journal, given how many bytes the kept steps take. A bad line changes nothing, and neither
/// does a fault.
pub fn replay_line(
    alloc: Global,
    database: &mut Database,
    bytes: &mut u64,
    line: &str,
) -> Result<Taken, Fault>
    ensures takes { IfOk result (λ taken. Takes (point_of database.old) line.now taken (point_of database.new)) }
    ensures counted { OnOk result (bytes.old ≡ kept_bytes database.old → bytes.new ≡ kept_bytes database.new) }
    ensures unchanged_on_fault { OnErr result (point_of database.new ≡ point_of database.old) }
{
    if is_moment(line) {
        return Ok(Taken::Moment);
    }
    match step_in(alloc, line)? {
        Some(step) => take_step(database, bytes, step),
        None => Ok(Taken::BadLine),
    }
}
