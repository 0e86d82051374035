//! The workers, which search for paths, and the timer.
ghost use Rattle.std.specs.Prelude.{◌≡◌, ◌<◌, ◌++◌, ◌∷◌, [], true, false, List, length, Some};
ghost use Rattle.server_rules.specs.Faults.{Knows};
ghost use Rattle.server_rules.specs.declared.faults.Turn.{Turn};
ghost use Rattle.server_workers.specs.Rings.{peer_of_turn};
ghost use Rattle.server_workers.specs.Faults.{after_turn, turn};
ghost use Rattle.server_workers.specs.Turns.{times_counted, hand_counted, all_of_turn};

use crate::decided::say_worked;
use history_core::Brief;
use history_seats::Brands;
use pce_seen::EventKind;
use server_base::{Context, Moments, Seen, Settled, count_worked};
use server_counts::{Counted, Counters, Timed};
use server_log::LogLine;
use server_rules::{AfterFault, FaultsInARow, PendingWakes};
use server_signals::{GrantGateLook, RunFault};
use server_talk::Watch;
use shared_pce::{Event, Fault, Front, Gate, Reply, SPARE_AT, Seat, Worked};
use short_lock::acquire;
use std::alloc::AllocError;
use std::sync::Wait;
use std::thread;
use std::time::{Clock, Duration};

/// How long a worker sleeps if nothing wakes it, in milliseconds.
const WORK_WAIT_MS: u64 = 250;

/// How long a worker sleeps while no ticket may be taken yet, in milliseconds.
const GATE_WAIT_MS: u64 = 20;

/// How long the timer sleeps between two looks, in milliseconds.
const KEEPER_WAIT_MS: u64 = 10;

/// The time between two moments at which the timer notes how many steps there are, in milliseconds.
const MARK_EVERY_MS: u64 = 1_000;

/// The time between two moments at which the timer looks after grants, in milliseconds.
const UPKEEP_EVERY_MS: u64 = 500;

/// How long a roll waits for the journal, in milliseconds.
const JOURNAL_WAIT_MS: u64 = 5_000;

/// How often submitting the owed Downs is tried at the end of a run.
const LAST_TRIES: u32 = 500;

/// Logs if memory ran out for a roll, and returns whether it didn't. That the history was rolled is logged by the
/// timer, whoever rolled it.
fn note_rolled<R: Wait + Clock, B: Brands>(
    context: &Context<'_, R, B>,
    rolled: Result<Option<u64>, AllocError>,
) -> bool {
    if rolled.is_err() {
        context.say(LogLine::MemoryRefused);
    }
    rolled.is_ok()
}

/// Rolls the history if it is full. Returns false if memory ran out; the next look then tries again.
fn make_room<R: Wait + Clock, B: Brands>(context: &Context<'_, R, B>, seat: &mut Seat<B>) -> bool {
    note_rolled(context, context.shared.roll_if_full(context.rt, seat))
}

/// Rolls the history because memory ran out, and drops the seat's receipts of rolled steps.
fn spare<R: Wait + Clock, B: Brands>(context: &Context<'_, R, B>, seat: &mut Seat<B>) {
    let rolled = context.shared.roll_if(context.rt, seat, SPARE_AT);
    let _is_rolled = note_rolled(context, rolled);
    fold_idle(context, seat);
}

/// Rolls the history if it is nearly full, or takes as much memory as the receipts of rolled steps leave it. A step
/// does so too; this is for the time in which no step would have to wait for it.
fn roll_if_nearly_full<R: Wait + Clock, B: Brands>(
    context: &Context<'_, R, B>,
    seat: &mut Seat<B>,
) {
    let _is_rolled = note_rolled(context, context.shared.roll_if_due(context.rt, seat));
}

/// Lets rolls wait for the journal no longer, once one has waited for five seconds. Takes and returns since when one has
/// waited.
fn bound_wait<R: Wait + Clock, B: Brands>(
    context: &Context<'_, R, B>,
    seat: &mut Seat<B>,
    since_ms: Option<u64>,
) -> Option<u64> {
    if !context.shared.is_roll_waiting(context.rt, seat) {
        return None;
    }
    let now_ms = context.moments().now_ms();
    let since_ms = since_ms.unwrap_or(now_ms);
    if now_ms.saturating_sub(since_ms) >= JOURNAL_WAIT_MS {
        context.shared.note_journal_gone();
    }
    Some(since_ms)
}

/// Rolls the history if memory ran out for a thread that can't roll it.
fn spare_others<R: Wait + Clock, B: Brands>(context: &Context<'_, R, B>, seat: &mut Seat<B>) {
    if context.run.is_memory_short() {
        spare(context, seat);
        context.run.spared_memory(context.rt);
    }
}

/// Drops the receipts of rolled steps of a seat whose thread has nothing to do, if the seat keeps any.
fn fold_idle<R: Wait + Clock, B: Brands>(context: &Context<'_, R, B>, seat: &mut Seat<B>) {
    if !seat.receipts().is_empty() {
        context.shared.fold(context.rt, seat);
    }
}

/// Wakes the connections of these routers, so that they look for messages to send.
fn ring<R: Wait + Clock, B: Brands>(context: &Context<'_, R, B>, pending_wakes: &mut PendingWakes)
    ensures { pending_wakes.new ≡ [] }
{
    for peer in pending_wakes.peers() {
        context.wakers.ring(context.rt, *peer);
    }
    *pending_wakes = PendingWakes::none();
}

/// Wakes the connection of the router for which a path was searched for, so that it looks for messages to send. If no
/// ticket is in the worker's hand, that happens at once, otherwise after some turns, so that a connection finds several
/// messages when it is woken.
fn ring_for<R: Wait + Clock, B: Brands>(
    context: &Context<'_, R, B>,
    pending_wakes: &mut PendingWakes,
    worked: &Worked,
    has_job: bool,
)
    ensures rung { has_job ≡ false → pending_wakes.new ≡ [] }
    ensures few { length pending_wakes.new < 16 }
    ensures noted { has_job ≡ true → length pending_wakes.old < 15 → pending_wakes.new ≡ pending_wakes.old ++ peer_of_turn worked.now }
{
    if let Worked::Done { job, .. } = worked {
        pending_wakes.note(job.ticket.peer);
    }
    if !has_job || pending_wakes.is_full() {
        ring(context, pending_wakes);
    }
}

/// Waits a while if tickets may not be taken yet, and returns whether they may: what routers hold is known by now, or time
/// is up.
fn wait_for_gate<R: Wait + Clock, B: Brands>(context: &Context<'_, R, B>) -> bool {
    match context.grants.look(context.rt, context.moments().now_ms()) {
        GrantGateLook::Open => true,
        GrantGateLook::Opened => {
            context.say(LogLine::Settled);
            true
        }
        GrantGateLook::Closed => {
            thread::sleep(context.rt, Duration::from_millis(GATE_WAIT_MS));
            false
        }
    }
}

/// Keeps the moment at which a search begins.
#[derive(Drop)]
struct SearchTimer<'a, R: Clock> {
    moments: Moments<'a, R>,
    since_us: u64,
}

impl<'a, R: Clock> SearchTimer<'a, R> {
    fn new<B: Brands>(context: &Context<'a, R, B>) -> SearchTimer<'a, R> {
        SearchTimer {
            moments: context.moments(),
            since_us: 0,
        }
    }
}

impl<'a, R: Clock> Gate for SearchTimer<'a, R> {
    fn computing(&mut self, _ticket: u64) {
        self.since_us = self.moments.now_us();
    }
}

/// How long a turn's search took, and how long its ticket waited if it was settled, in microseconds.
#[derive(Clone, Copy)]
struct TurnTimes {
    search_us: u64,
    wait_us: Option<u64>,
}

/// Returns the times of a worker's turn whose search began at this moment, in microseconds.
fn times_of<R: Wait + Clock, B: Brands>(
    context: &Context<'_, R, B>,
    worked: &Worked,
    since_us: u64,
) -> Option<TurnTimes> {
    let Worked::Done { job, reply } = worked else {
        return None;
    };
    let now_us = context.moments().now_us();
    Some(TurnTimes {
        search_us: now_us.saturating_sub(since_us),
        wait_us: match reply {
            Reply::Again => None,
            _ => context.note_verdict(job.ticket.id, now_us),
        },
    })
}

/// Counts a turn's times.
fn count_times(counters: &mut Counters, times: TurnTimes)
    ensures { counters.new ≡ times_counted (Some times) counters.old }
{
    counters.observe(Timed::Search, times.search_us);
    if let Some(us) = times.wait_us {
        counters.observe(Timed::Wait, us);
    }
}

/// Counts the step by which a turn took the ticket whose job is in its seat's hand, if there is one.
fn count_taken(counters: &mut Counters, has_job: bool)
    ensures { counters.new ≡ hand_counted has_job counters.old }
{
    if has_job {
        counters.add(Counted::Step(EventKind::Take, Brief::Job(0)));
    }
}

/// Counts a worker's turn and its times. The turn began and ended with a job in its hand or without one.
fn count_turn(
    counters: &mut Counters,
    worked: &Worked,
    times: Option<TurnTimes>,
    had_job: bool,
    has_job: bool,
)
    ensures { counters.new ≡ all_of_turn had_job has_job worked.now times counters.old }
{
    count_worked(counters, worked, had_job);
    if let Some(times) = times {
        count_times(counters, times);
    }
    count_taken(counters, has_job);
}

/// Wakes connections, and counts a worker's turn.
fn note_worked<R: Wait + Clock, B: Brands>(
    context: &Context<'_, R, B>,
    pending_wakes: &mut PendingWakes,
    worked: &Worked,
    since_us: u64,
    had_job: bool,
    has_job: bool,
) {
    ring_for(context, pending_wakes, worked, has_job);
    let times = times_of(context, worked, since_us);
    let mut counters = acquire(context.rt, context.counters);
    count_turn(&mut counters, worked, times, had_job, has_job);
}

/// Works on the job in the seat's hand, or on the ticket that waits, and notes and logs the result.
fn work_once<R: Wait + Clock, B: Brands>(
    context: &Context<'_, R, B>,
    seat: &mut Seat<B>,
    pending_wakes: &mut PendingWakes,
    had_job: bool,
) -> Result<(), Fault> {
    let mut timer = SearchTimer::new(context);
    let worked = context.shared.work_one(context.rt, seat, &mut timer)?;
    let has_job = seat.hand().is_some();
    note_worked(
        context,
        pending_wakes,
        &worked,
        timer.since_us,
        had_job,
        has_job,
    );
    say_worked(context, seat, &worked);
    Ok(())
}

/// Rolls the history after a fault, so that the next try finds room.
fn recover<R: Wait + Clock, B: Brands>(
    context: &Context<'_, R, B>,
    seat: &mut Seat<B>,
    fault: Fault,
) {
    match fault {
        Fault::HistoryFull => {
            let _is_rolled = make_room(context, seat);
        }
        Fault::OutOfMemory => spare(context, seat),
    }
}

/// Makes one turn of a worker: works on the job in the seat's hand, or sleeps until a ticket waits, and works on that.
/// If none comes, it looks at the history, and drops its seat's receipts of rolled steps. Returns the fault, if one
/// came.
fn worker_turn<R: Wait + Clock, B: Brands>(
    context: &Context<'_, R, B>,
    seat: &mut Seat<B>,
    front: &mut Front<Event, B>,
    pending_wakes: &mut PendingWakes,
) -> Option<Fault> {
    let rt = context.rt;
    let most = Duration::from_millis(WORK_WAIT_MS);
    if !wait_for_gate(context) {
        return None;
    }
    let had_job = seat.hand().is_some();
    if !had_job && !context.shared.await_work(rt, front, most) {
        roll_if_nearly_full(context, seat);
        fold_idle(context, seat);
        return None;
    }
    let Err(fault) = work_once(context, seat, pending_wakes, had_job) else {
        return None;
    };
    ring(context, pending_wakes);
    if !had_job {
        count_taken(&mut acquire(rt, context.counters), seat.hand().is_some());
    }
    recover(context, seat, fault);
    context.say(LogLine::WorkerFault(fault));
    Some(fault)
}

/// Notes how a turn went, and returns what the worker does after a fault.
fn note_turn(faults: &mut FaultsInARow, has_failed: bool) -> Option<AfterFault>
    ensures noted { (past : List Turn) → Knows faults.old past → Knows faults.new (turn has_failed ∷ past) }
    ensures after { (past : List Turn) → Knows faults.old past → result ≡ after_turn has_failed past }
{
    if has_failed {
        return Some(faults.failed());
    }
    faults.went();
    None
}

/// Notes how a turn went. After a fault the worker pauses, for memory to come back, or gives up, and the run ends.
fn goes_on<R: Wait + Clock, B: Brands>(
    context: &Context<'_, R, B>,
    faults: &mut FaultsInARow,
    fault: Option<Fault>,
) -> bool {
    match (note_turn(faults, fault.is_some()), fault) {
        (Some(AfterFault::GiveUp), Some(fault)) => {
            context.cut(RunFault::Store(fault));
            false
        }
        (Some(AfterFault::Pause(ms)), _) => {
            thread::sleep(context.rt, Duration::from_millis(ms));
            true
        }
        _ => true,
    }
}

/// Works until the end. The fourth fault in a row ends the run.
fn work_until_the_end<R: Wait + Clock, B: Brands>(
    context: &Context<'_, R, B>,
    seat: &mut Seat<B>,
    front: &mut Front<Event, B>,
    pending_wakes: &mut PendingWakes,
) {
    let mut faults = FaultsInARow::none();
    for _ in context.rt.forever() {
        if context.shared.is_over() {
            return;
        }
        let fault = worker_turn(context, seat, front, pending_wakes);
        if !goes_on(context, &mut faults, fault) {
            return;
        }
    }
}

/// Works until the end, and wakes the connections that are still to be woken.
fn work_on<R: Wait + Clock, B: Brands>(context: &Context<'_, R, B>, seat: &mut Seat<B>) {
    let mut pending_wakes = PendingWakes::none();
    let mut front = context.shared.front(context.rt);
    work_until_the_end(context, seat, &mut front, &mut pending_wakes);
    ring(context, &mut pending_wakes);
}

/// Runs a worker's thread.
pub fn work<R: Wait + Clock, B: Brands>(context: &Context<'_, R, B>, at: usize) {
    let Some(mut seat) = context.pool.take(context.rt, at) else {
        return;
    };
    work_on(context, &mut seat);
    context.pool.put(context.rt, at, seat);
}

/// Logs the result of submitting what was due. Returns false if nothing was due.
fn note_settled<R: Wait + Clock, B: Brands>(context: &Context<'_, R, B>, settled: Settled) -> bool {
    context.say_settled(settled);
    settled != Settled::Nothing
}

/// Submits what is due for a peer that is kept for this time. If nothing is due, or memory runs out, waits a while.
fn expire_one<R: Wait + Clock, B: Brands>(
    context: &Context<'_, R, B>,
    seat: &mut Seat<B>,
    keep_ms: u64,
) {
    let settled = context.peers.settle(
        context.rt,
        &context.moments(),
        context.shared,
        seat,
        context.counters,
        keep_ms,
    );
    let is_on = match settled {
        Ok(settled) => note_settled(context, settled),
        Err(Fault::HistoryFull) => make_room(context, seat),
        Err(Fault::OutOfMemory) => {
            context.say(LogLine::MemoryRefused);
            spare(context, seat);
            false
        }
    };
    if !is_on {
        fold_idle(context, seat);
        thread::sleep(context.rt, Duration::from_millis(KEEPER_WAIT_MS));
    }
}

/// Submits the Downs that are still owed after all connections have ended.
fn settle_last<R: Wait + Clock, B: Brands>(context: &Context<'_, R, B>, seat: &mut Seat<B>) {
    for _try in 0..LAST_TRIES {
        if !context.peers.owes_a_down(context.rt) {
            return;
        }
        expire_one(context, seat, u64::MAX);
    }
}

/// Notes how many steps there are, if that is due, and returns when it is due next.
fn mark_steps<R: Wait + Clock, B: Brands>(
    context: &Context<'_, R, B>,
    front: &mut Front<Event, B>,
    due_ms: u64,
) -> u64 {
    let now_ms = context.moments().now_ms();
    if now_ms < due_ms {
        return due_ms;
    }
    context.run_view().mark_steps(front);
    now_ms.saturating_add(MARK_EVERY_MS)
}

/// Logs that the history was rolled, whoever rolled it, and drops the receipts of rolled steps of every seat: at once
/// for seats that rest, and for those of connections after they were woken. Takes the last known number of steps before
/// the base of the history, and returns the present one.
fn fold_all<R: Wait + Clock, B: Brands>(
    context: &Context<'_, R, B>,
    seat: &mut Seat<B>,
    folded: u64,
) -> u64 {
    let rolled = context.shared.rolled_at(context.rt, seat);
    if rolled != folded {
        context.say(LogLine::Rolled { steps: rolled });
        context.pool.fold(context.rt, context.shared);
        context.wakers.ring_all(context.rt);
    }
    rolled
}

/// Looks after grants and awaited deletions, if that is due, and returns when it is due next. When the run ends,
/// nothing is submitted.
fn keep_up<R: Wait + Clock, B: Brands>(
    context: &Context<'_, R, B>,
    seat: &mut Seat<B>,
    seen: &mut Seen,
    due_ms: u64,
) -> u64 {
    let now_ms = context.moments().now_ms();
    if now_ms < due_ms || context.run.is_closing() {
        return due_ms;
    }
    if let Err(fault) = context.keep_up(seat, seen) {
        if fault == Fault::OutOfMemory {
            context.say(LogLine::MemoryRefused);
        }
        recover(context, seat, fault);
    }
    now_ms.saturating_add(UPKEEP_EVERY_MS)
}

/// Submits what is due, until the end. Looks at the history in between, since workers that have tickets don't.
fn run_timer<R: Wait + Clock, B: Brands>(context: &Context<'_, R, B>, seat: &mut Seat<B>) {
    let mut front = context.shared.front(context.rt);
    let mut due_ms = 0u64;
    let mut folded = 0u64;
    let mut seen = Seen::new(context.alloc);
    let mut upkeep_ms = 0u64;
    let mut waits_since_ms = None;
    for _ in context.rt.forever() {
        if context.shared.is_over() {
            return;
        }
        spare_others(context, seat);
        waits_since_ms = bound_wait(context, seat, waits_since_ms);
        roll_if_nearly_full(context, seat);
        folded = fold_all(context, seat, folded);
        due_ms = mark_steps(context, &mut front, due_ms);
        upkeep_ms = keep_up(context, seat, &mut seen, upkeep_ms);
        expire_one(context, seat, context.keep_ms);
    }
}

/// Runs the timer's thread.
pub fn keep_time<R: Wait + Clock, B: Brands>(context: &Context<'_, R, B>, at: usize) {
    let Some(mut seat) = context.pool.take(context.rt, at) else {
        return;
    };
    run_timer(context, &mut seat);
    settle_last(context, &mut seat);
    context.pool.put(context.rt, at, seat);
}
