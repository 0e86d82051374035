//! The thread that writes the journal.
ghost use Rattle.std.specs.Prelude.{◌≡◌, [], drop, OnOk, IfOk, IfNone};
ghost use mathlib.Core.List.{IsPrefix};
ghost use Rattle.history_seats.specs.Past.{steps_at};
ghost use Rattle.server_journal.specs.Bases.{base_at};
ghost use Rattle.server_journal.specs.Writes.{WritesOn, GoesOn};
ghost use Rattle.server_journal.specs.declared.keeper.Next.TheVariants.{End};

use crate::steps::{Progress, begin, follow, roll, see_base};
use base_lines::PlacedBase;
use history_seats::Brands;
use journal_writing::{JournalFault, JournalFolder};
use server_base::Context;
use server_log::LogLine;
use shared_pce::{RollAt, Seat};
use std::alloc::Global;
use std::fs::File;
use std::io::{BufWriter, Write};
use std::sync::Wait;
use std::sync::atomic::{AtomicBool, Ordering};
use std::thread;
use std::time::{Clock, Duration};

/// How long the thread sleeps if nothing has happened, in milliseconds.
const WAIT_MS: u64 = 20;

/// The number of bytes that wait to be handed to the file, at most.
const BUFFER: usize = 65_536;

/// Where the journal of a run goes.
#[derive(Drop)]
pub struct JournalPlace<'a> {
    /// Where its further files go.
    pub folder: &'a JournalFolder<'a>,
    /// Its first file, which has its head.
    pub file: &'a File,
}

/// What comes after a turn.
#[derive(Clone, Copy, PartialEq, Eq)]
enum Next {
    /// Another turn.
    Turn,
    /// The history was rolled, and all steps before that are written.
    Rolled,
    /// All is written, and no more steps come.
    End,
}

/// Writes the steps that come next. If there are none, what was written is handed to the file.
#[tactic(auto, using(crate::proofs::Onward::all_taken))]
fn follow_on<R: Wait + Clock, B: Brands, W: Write>(
    context: &Context<'_, R, B>,
    seat: &mut Seat<B>,
    writer: &mut W,
    progress: &mut Progress,
    is_over: bool,
) -> Result<Next, JournalFault>
    ensures begins { IsPrefix seat.old.seen seat.new.seen }
    ensures writes { OnOk result (WritesOn B.text seat.new.seen progress.old.next progress.new.next (W.contents writer.old) (W.contents writer.new)) }
    ensures whole { IfOk result (λ next. next ≡ End → drop progress.new.next (steps_at B.text seat.new.seen) ≡ []) }
{
    let (rt, alloc) = (context.rt, context.alloc);
    let count = follow(rt, alloc, context.shared, seat, writer, progress)?;
    context.shared.note_written(progress.next);
    if count > 0 {
        return Ok(Next::Turn);
    }
    if writer.flush().is_err() {
        return Err(JournalFault::Device);
    }
    if is_over {
        return Ok(Next::End);
    }
    thread::sleep(rt, Duration::from_millis(WAIT_MS));
    Ok(Next::Turn)
}

/// Rolls the history if it is due; else writes the steps that come next.
#[tactic(auto, using(crate::proofs::Following::by_one))]
fn turn<R: Wait + Clock, B: Brands, W: Write>(
    context: &Context<'_, R, B>,
    seat: &mut Seat<B>,
    at: RollAt,
    writer: &mut W,
    progress: &mut Progress,
    is_over: bool,
) -> Result<Next, JournalFault>
    ensures begins { IsPrefix seat.old.seen seat.new.seen }
    ensures goes_on { OnOk result (GoesOn B.text seat.new.seen progress.old.next progress.new.next (W.contents writer.old) (W.contents writer.new)) }
    ensures whole { IfOk result (λ next. next ≡ End → drop progress.new.next (steps_at B.text seat.new.seen) ≡ []) }
{
    let (rt, alloc) = (context.rt, context.alloc);
    if !roll(rt, alloc, context.shared, seat, at, writer, progress)? {
        return follow_on(context, seat, writer, progress, is_over);
    }
    match writer.flush() {
        Ok(()) => Ok(Next::Rolled),
        Err(_) => Err(JournalFault::Device),
    }
}

/// A file of the journal, and its name.
#[derive(Clone, Copy)]
struct NamedFile<'a> {
    file: &'a File,
    name: &'a str,
}

/// A further file of the journal, which has its beginning, and its name.
#[derive(Drop)]
struct NextFile {
    file: File,
    name: String,
}

/// Names the file that begins now, if its name comes after this one.
fn name_after<R: Clock>(rt: &R, alloc: Global, last: &str) -> Result<Option<String>, JournalFault> {
    let Ok(now) = rt.since_1970() else {
        return Err(JournalFault::Device);
    };
    Ok(journal_writing::name_after(alloc, now, last)?)
}

/// Makes a further file, and writes its beginning. After a fault the file may be there, with a part of that and no step.
fn make_file<B: Brands>(
    alloc: Global,
    folder: &JournalFolder<'_>,
    name: &str,
    seat: &Seat<B>,
    progress: &mut Progress,
    base: &PlacedBase,
) -> Result<File, JournalFault>
    requires { base.now ≡ base_at B.text seat.now.seen progress.old.next }
    ensures next { progress.new.next ≡ progress.old.next }
{
    let Ok(file) = folder.make(name) else {
        return Err(JournalFault::Device);
    };
    let mut bytes = &file;
    let Ok(mut writer) = BufWriter::with_capacity(alloc, BUFFER, &mut bytes) else {
        return Err(JournalFault::OutOfMemory);
    };
    begin(
        alloc,
        &mut writer,
        folder.run,
        folder.text,
        seat,
        progress,
        base,
    )?;
    if writer.flush().is_err() {
        return Err(JournalFault::Device);
    }
    drop(writer);
    Ok(file)
}

/// Begins the next file after a roll, if this one is full. `None` if it isn't, if another thread has rolled the history
/// since, or if the name of the next wouldn't come after that of this one, as within one second: then this one goes on to
/// the next roll.
fn next_file<R: Wait + Clock, B: Brands>(
    context: &Context<'_, R, B>,
    folder: &JournalFolder<'_>,
    last: NamedFile<'_>,
    seat: &mut Seat<B>,
    progress: &mut Progress,
) -> Result<Option<NextFile>, JournalFault>
    ensures begins { IsPrefix seat.old.seen seat.new.seen }
    ensures next { progress.new.next ≡ progress.old.next }
{
    let (rt, alloc) = (context.rt, context.alloc);
    if !folder.is_full(last.file) {
        return Ok(None);
    }
    let Some(name) = name_after(rt, alloc, last.name)? else {
        return Ok(None);
    };
    let Some(base) = see_base(rt, context.shared, seat, progress)? else {
        return Ok(None);
    };
    let file = make_file(alloc, folder, &name, seat, progress, &base)?;
    Ok(Some(NextFile { file, name }))
}

/// Writes each step until no more come, or the history was rolled and the file is full. Then it returns the next file.
#[tactic(auto, using(crate::proofs::Onward::further, crate::proofs::Onward::seen_on, crate::proofs::Following::stays))]
fn write_on<R: Wait + Clock, B: Brands, W: Write>(
    context: &Context<'_, R, B>,
    folder: &JournalFolder<'_>,
    place: NamedFile<'_>,
    seat: &mut Seat<B>,
    at: RollAt,
    over: &AtomicBool,
    writer: &mut W,
    progress: &mut Progress,
) -> Result<Option<NextFile>, JournalFault>
    ensures begins { IsPrefix seat.old.seen seat.new.seen }
    ensures goes_on { OnOk result (GoesOn B.text seat.new.seen progress.old.next progress.new.next (W.contents writer.old) (W.contents writer.new)) }
    ensures whole { IfOk result (λ next. IfNone next (drop progress.new.next (steps_at B.text seat.new.seen) ≡ [])) }
{
    for _ in context.rt.forever() {
        let is_over = over.load(Ordering::SeqCst);
        match turn(context, seat, at, writer, progress, is_over)? {
            Next::Turn => {}
            Next::Rolled => {
                if let Some(next) = next_file(context, folder, place, seat, progress)? {
                    return Ok(Some(next));
                }
            }
            Next::End => return Ok(None),
        }
    }
    unreachable!()
}

/// Writes each step into this file until no more come, or the history was rolled and the file is full. Then it returns
/// the next file.
fn write_file<R: Wait + Clock, B: Brands>(
    context: &Context<'_, R, B>,
    folder: &JournalFolder<'_>,
    place: NamedFile<'_>,
    seat: &mut Seat<B>,
    at: RollAt,
    over: &AtomicBool,
    progress: &mut Progress,
) -> Result<Option<NextFile>, JournalFault> {
    let mut bytes = place.file;
    let Ok(mut writer) = BufWriter::with_capacity(context.alloc, BUFFER, &mut bytes) else {
        return Err(JournalFault::OutOfMemory);
    };
    write_on(
        context,
        folder,
        place,
        seat,
        at,
        over,
        &mut writer,
        progress,
    )
}

/// Writes one file after another.
fn write_files<R: Wait + Clock, B: Brands>(
    context: &Context<'_, R, B>,
    place: &JournalPlace<'_>,
    seat: &mut Seat<B>,
    at: RollAt,
    over: &AtomicBool,
) -> Result<(), JournalFault> {
    let mut progress = Progress { next: 0, second: 0 };
    let folder = place.folder;
    let first = NamedFile {
        file: place.file,
        name: folder.run,
    };
    let Some(mut next) = write_file(context, folder, first, seat, at, over, &mut progress)? else {
        return Ok(());
    };
    for _ in context.rt.forever() {
        let named = NamedFile {
            file: &next.file,
            name: next.name.as_str(),
        };
        match write_file(context, folder, named, seat, at, over, &mut progress)? {
            Some(further) => next = further,
            None => return Ok(()),
        }
    }
    unreachable!()
}

/// Keeps the journal until `over` is set and all is written, or the journal is gone. The thread's seat has this slot. The
/// history is rolled at `at`.
pub fn keep_journal<R: Wait + Clock, B: Brands>(
    context: &Context<'_, R, B>,
    place: &JournalPlace<'_>,
    slot: usize,
    at: RollAt,
    over: &AtomicBool,
) {
    let Some(mut seat) = context.pool.take(context.rt, slot) else {
        return;
    };
    context.shared.note_written(0);
    if write_files(context, place, &mut seat, at, over).is_err() {
        context.say(LogLine::JournalGone);
    }
    context.shared.note_journal_gone();
    context.pool.put(context.rt, slot, seat);
}
