//! A whole run.
ghost use Rattle.std.specs.Prelude.{◌≡◌, ◌≤◌, IfOk};
ghost use Rattle.std.specs.List.{list_all};
ghost use Rattle.server_rules.specs.Ranges.{AreOrders};
ghost use Rattle.pce_server.specs.RunEnds.{is_down, EndsIn};

use crate::starting::{few_descriptors, journal_seats, listening_line, live_of, roll_at};
use history_core::Database;
use history_seats::Brands;
use log::Log;
use place_tokens::Unopened;
use server_base::{Context, LinkEnds, RunState, SeatPool, ends_of};
use server_connections::accept_all;
use server_journal::{JournalPlace, keep_journal};
use server_log::{LogLine, LogQueue, is_debug_wanted, write_last, write_log};
use server_operators::{Operators, control_seats, end_with, hear_controls, hear_operator};
use server_rules::Orders;
use server_signals::RunFault;
use server_talk::{Plan, TimedRead, bound_accepts};
use server_viewers::{ViewerListener, show_views};
use server_workers::{keep_time, work};
use shared_pce::{Audit, Event, Fault, Seat, Shared, Unnamed};
use std::alloc::Global;
use std::io::Write;
use std::marker::Brand;
use std::net::{Net, TcpListener, TcpStream};
use std::os::unix::net::UnixListener;
use std::sync::Wait;
use std::sync::atomic::{AtomicBool, Ordering};
use std::sync::ledger::Blank;
use std::thread;
use std::thread::{JoinHandle, Threads};
use std::time::{Clock, Instant};
use step_core::Peer;
use te_base::TeBase;

/// Where clients reach a run, and where its journal goes.
#[derive(Drop)]
pub struct Listeners<'a> {
    pub routers: &'a TcpListener,
    /// The control socket, if there is one.
    pub control: Option<&'a UnixListener>,
    /// Where viewers connect, if they may.
    pub viewers: Option<ViewerListener<'a>>,
    /// Where the journal goes, if one is kept.
    pub journal: Option<JournalPlace<'a>>,
}

/// Which routers are served, and which are waited for.
#[derive(Clone, Copy)]
pub struct Routers<'a> {
    /// Only routers whose address a node of this network owns are served; if it is `None`, all are.
    pub known: &'a Option<TeBase>,
    /// Addresses of routers that are waited for before tickets are taken.
    pub settle_for: &'a [u32],
}

/// Serves routers and operator over a network of which nothing was reported yet, until both have ended, and closes the
/// database. A thread of its own writes the log, so that no other thread waits for whoever reads it. At most 64
/// connections have a place. If all places are taken, a new connection ends one that isn't up yet, or is closed itself.
///
/// With a control socket more operators are served, four at once, and an endless run ends only by the line `end`,
/// whoever writes it. An operator that fails ends only itself. Viewers are shown the state until the run is over; they
/// change nothing, and a run goes on without them.
///
/// After a fault that ends the run, sessions are closed and no more connections are accepted. If the writer fails, the
/// run goes on without an operator.
pub fn serve_run<R, I: TimedRead, O: Write, P: Plan + Sync>(
    rt: &R,
    listeners: &Listeners<'_>,
    te: TeBase,
    plan: &P,
    orders: Orders,
    routers: Routers<'_>,
    reader: &mut I,
    writer: &mut O,
) -> Result<Audit, RunFault>
where
    R: Wait
        + Threads
        + Clock
        + Net<Listener = TcpListener, Stream = TcpStream>
        + AllocGlobal
        + Log
        + Sync,
    requires orders { AreOrders orders }
    ensures ended { IfOk result (EndsIn te) }
{
    let seats = 2 * live_of(orders.sessions)
        + orders.workers
        + 4
        + journal_seats(&listeners.journal)
        + control_seats(listeners.control);
    let (steps, grants) = (Blank::new(seats), Blank::new(seats));
    let room = Unopened::new(rt.alloc(), seats)?;
    let history = Unnamed::new(rt.alloc())?;
    seated_run::<Brand, R, I, O, P>(
        rt, listeners, te, orders, routers, seats, reader, writer, plan, steps, grants, room,
        history,
    )
}

fn seated_run<B: Brands + Send + Sync, R, I: TimedRead, O: Write, P: Plan + Sync>(
    rt: &R,
    listeners: &Listeners<'_>,
    te: TeBase,
    orders: Orders,
    routers: Routers<'_>,
    seats: u64,
    reader: &mut I,
    writer: &mut O,
    plan: &P,
    steps: Blank,
    grants: Blank,
    room: Unopened,
    history: Unnamed<Event>,
) -> Result<Audit, RunFault>
where
    R: Wait
        + Threads
        + Clock
        + Net<Listener = TcpListener, Stream = TcpStream>
        + AllocGlobal
        + Log
        + Sync,
    requires orders { AreOrders orders }
    requires seats { (1 ≤ seats) × (seats ≤ 256) }
    requires steps { (steps.name ≡ B.steps) × (steps.parts ≡ B.seats) × (steps.parts ≡ seats) }
    requires grants { (grants.name ≡ B.grants) × (grants.parts ≡ B.seats) × (grants.parts ≡ seats) }
    requires room { (room.table ≡ B.table) × (room.seats ≡ B.seats) × (room.seats ≡ seats) }
    requires history { history ≡ B.log }
    requires text { te ≡ B.text }
    ensures ended { IfOk result (EndsIn B.text) }
{
    let listening = listening_line(listeners.routers, &te);
    let ends = ends_of(rt.alloc(), &te)?;
    opened_run::<B, R, I, O, P>(
        rt, listeners, te, &ends, listening, orders, routers, seats, reader, writer, plan, steps,
        grants, room, history,
    )
}

/// Puts the database under its lock, with a pool of all seats, serves until the end, and closes it.
fn opened_run<B: Brands + Send + Sync, R, I: TimedRead, O: Write, P: Plan + Sync>(
    rt: &R,
    listeners: &Listeners<'_>,
    te: TeBase,
    ends: &[LinkEnds],
    listening: LogLine,
    orders: Orders,
    routers: Routers<'_>,
    seats: u64,
    reader: &mut I,
    writer: &mut O,
    plan: &P,
    steps: Blank,
    grants: Blank,
    room: Unopened,
    history: Unnamed<Event>,
) -> Result<Audit, RunFault>
where
    R: Wait
        + Threads
        + Clock
        + Net<Listener = TcpListener, Stream = TcpStream>
        + AllocGlobal
        + Log
        + Sync,
    requires orders { AreOrders orders }
    requires seats { (1 ≤ seats) × (seats ≤ 256) }
    requires steps { (steps.name ≡ B.steps) × (steps.parts ≡ B.seats) × (steps.parts ≡ seats) }
    requires grants { (grants.name ≡ B.grants) × (grants.parts ≡ B.seats) × (grants.parts ≡ seats) }
    requires room { (room.table ≡ B.table) × (room.seats ≡ B.seats) × (room.seats ≡ seats) }
    requires history { history ≡ B.log }
    requires text { te ≡ B.text }
    ensures ended { IfOk result (EndsIn B.text) }
{
    let alloc = rt.alloc();
    let database = Database::new(alloc, te)?;
    let roll_at = roll_at(orders);
    let (shared, all) = Shared::<B>::new(
        alloc, database, seats, steps, grants, room, history, roll_at,
    )?;
    let pool = SeatPool::new(alloc, all)?;
    logged_run(
        rt, alloc, &shared, &pool, ends, listening, listeners, orders, routers, reader, writer,
        plan,
    )?;
    close(rt, alloc, shared, pool.into_seats(alloc)?)
}

/// Logs how the run starts, and serves until the end.
fn logged_run<B: Brands + Send + Sync, R, I: TimedRead, O: Write, P: Plan + Sync>(
    rt: &R,
    alloc: Global,
    shared: &Shared<B>,
    pool: &SeatPool<B>,
    ends: &[LinkEnds],
    listening: LogLine,
    listeners: &Listeners<'_>,
    orders: Orders,
    routers: Routers<'_>,
    reader: &mut I,
    writer: &mut O,
    plan: &P,
) -> Result<(), RunFault>
where
    R: Wait
        + Threads
        + Clock
        + Net<Listener = TcpListener, Stream = TcpStream>
        + AllocGlobal
        + Log
        + Sync,
    requires orders { AreOrders orders }
{
    let log = LogQueue::new(alloc, is_debug_wanted(rt))?;
    log.say(rt, listening, 0);
    if let Some(line) = few_descriptors(orders) {
        log.say(rt, line, 0);
    }
    serve_all(
        rt, alloc, shared, pool, &log, ends, listeners, orders, routers, reader, writer, plan,
    )
}

/// Tests whether none of these peers is up.
fn are_all_down(peers: &[Peer]) -> bool
    ensures { result ≡ list_all is_down peers.now }
{
    peers.iter().all(|peer| !peer.up)
}

/// Closes the database with all seats, and logs what its audit says. A peer that is still up in it is one whose Down
/// could not be submitted. A run that leaves one ends like a run that owes a Down, and nothing is said about its audit.
fn close<R: Net + Log, B: Brands>(
    rt: &R,
    alloc: Global,
    shared: Shared<B>,
    seats: Vec<Seat<B>>,
) -> Result<Audit, RunFault>
    ensures { IfOk result (EndsIn B.text) }
{
    match shared.close(seats) {
        Ok(audit) => {
            if !are_all_down(audit.database.state().peers()) {
                return Err(RunFault::Store(Fault::OutOfMemory));
            }
            let (steps, grants) = (audit.steps, audit.grants);
            write_last(rt, alloc, LogLine::Audited { steps, grants });
            Ok(audit)
        }
        Err(refused) => Err(RunFault::Audit(refused.fault)),
    }
}

/// Lends each thread of a run what it needs.
fn context_of<'a, R: Clock, B: Brands>(
    rt: &'a R,
    alloc: Global,
    shared: &'a Shared<B>,
    pool: &'a SeatPool<B>,
    log: &'a LogQueue,
    ends: &'a [LinkEnds],
    orders: Orders,
    routers: Routers<'a>,
    state: &'a RunState,
    seats: usize,
) -> Context<'a, R, B> {
    let usher = seats.saturating_add(orders.workers as usize);
    Context {
        rt,
        alloc,
        shared,
        pool,
        peers: &state.peers,
        run: &state.run,
        wakers: &state.wakers,
        log,
        grants: &state.grants,
        known: routers.known,
        counters: &state.counters,
        waits: &state.waits,
        peer_states: &state.peer_states,
        marks: &state.marks,
        upkeep: &state.upkeep,
        words: &state.words,
        errors: &state.errors,
        answer_ms: orders.answer_seconds.saturating_mul(1000),
        retry_ms: orders.retry_seconds.saturating_mul(1000),
        strangers: &state.strangers,
        ends,
        start: Instant::now(rt).ok(),
        keep_ms: orders.keep_seconds.saturating_mul(1000),
        seats,
        usher,
        closer: usher.saturating_add(1),
    }
}

/// Serves all until the end, when all seats rest in the pool.
fn serve_all<B: Brands + Send + Sync, R, I: TimedRead, O: Write, P: Plan + Sync>(
    rt: &R,
    alloc: Global,
    shared: &Shared<B>,
    pool: &SeatPool<B>,
    log: &LogQueue,
    ends: &[LinkEnds],
    listeners: &Listeners<'_>,
    orders: Orders,
    routers: Routers<'_>,
    reader: &mut I,
    writer: &mut O,
    plan: &P,
) -> Result<(), RunFault>
where
    R: Wait
        + Threads
        + Clock
        + Net<Listener = TcpListener, Stream = TcpStream>
        + AllocGlobal
        + Log
        + Sync,
    requires orders { AreOrders orders }
{
    if bound_accepts(listeners.routers).is_err() {
        return Err(RunFault::Device);
    }
    let live = live_of(orders.sessions) as usize;
    let seats = 2 * live;
    let settle_ms = orders.settle_seconds * 1000;
    let state = RunState::new(alloc, live, seats, routers.settle_for, settle_ms)?;
    let context = context_of(
        rt, alloc, shared, pool, log, ends, orders, routers, &state, seats,
    );
    run_threads(
        &context,
        listeners.routers,
        listeners.control,
        listeners.viewers.as_ref(),
        listeners.journal.as_ref(),
        orders,
        reader,
        writer,
        plan,
    );
    if state.peers.owes_a_down(rt) {
        state.run.cut(rt, RunFault::Store(Fault::OutOfMemory));
    }
    match state.run.fault(rt) {
        Some(fault) => Err(fault),
        None => Ok(()),
    }
}

/// Runs the thread that writes the log. If there is no memory for that, the run ends.
fn log_all<R: Wait + Clock + Net + Log, B: Brands>(context: &Context<'_, R, B>) {
    let written = write_log(context.rt, context.alloc, context.log, &context.moments());
    if written.is_err() {
        context.cut(RunFault::Store(Fault::OutOfMemory));
    }
}

/// Joins the threads in order, those that could be started: the acceptor first, since workers are needed as long as there
/// are connections, then the workers and the timer, the journal once no more steps come, and the log last.
fn end_threads<R: Wait + Threads + Clock, B: Brands>(
    context: &Context<'_, R, B>,
    acceptor: Option<JoinHandle<()>>,
    controls: Option<JoinHandle<()>>,
    keeper: Option<JoinHandle<()>>,
    journal: Option<JoinHandle<()>>,
    written: &AtomicBool,
) {
    let rt = context.rt;
    if let Some(acceptor) = acceptor {
        acceptor.join(rt);
    }
    if let Some(controls) = controls {
        context.close();
        controls.join(rt);
    }
    context.shared.finish(rt);
    if let Some(keeper) = keeper {
        keeper.join(rt);
    }
    written.store(true, Ordering::SeqCst);
    if let Some(journal) = journal {
        journal.join(rt);
    }
    context.log.end(rt);
}

/// Starts the threads, serves the operator, and joins the threads. The slots are those of connections, then of workers,
/// of the seat that makes room, of the seat that drops a covered grant, of the timer, of the operator, of the journal if
/// there is one, and of those at the control socket.
fn run_threads<B: Brands + Send + Sync, R, I: TimedRead, O: Write, P: Plan + Sync>(
    context: &Context<'_, R, B>,
    routers: &TcpListener,
    control: Option<&UnixListener>,
    viewers: Option<&ViewerListener<'_>>,
    journal: Option<&JournalPlace<'_>>,
    orders: Orders,
    reader: &mut I,
    writer: &mut O,
    plan: &P,
)
where
    R: Wait
        + Threads
        + Clock
        + Net<Listener = TcpListener, Stream = TcpStream>
        + AllocGlobal
        + Log
        + Sync,
    requires orders { AreOrders orders }
{
    let rt = context.rt;
    let first = context.seats;
    let keeper_at = context.closer.saturating_add(1);
    let operator_at = keeper_at.saturating_add(1);
    let journal_at = operator_at.saturating_add(1);
    let control_at = match journal {
        Some(_) => journal_at.saturating_add(1),
        None => journal_at,
    };
    let roll_at = roll_at(orders);
    let written = AtomicBool::new(false);
    let written = &written;
    let operators = Operators {
        context,
        plan,
        first: control_at,
    };
    let operators = &operators;
    thread::scope(thread::scope_env(), rt, |scope| {
        let log = scope.spawn(move || log_all(context));
        let mut has_worker = false;
        for worker in 0..orders.workers as usize {
            let at = first.saturating_add(worker);
            has_worker |= scope.spawn(move || work(context, at)).is_ok();
        }
        let keeper = scope.spawn(move || keep_time(context, keeper_at));
        let journal = match journal {
            Some(place) => {
                let writer = scope.spawn(move || {
                    keep_journal(context, place, journal_at, roll_at, written)
                });
                if writer.is_err() {
                    context.say(LogLine::JournalGone);
                }
                writer.ok()
            }
            None => None,
        };
        let sessions = orders.sessions;
        let acceptor = scope.spawn(move || accept_all(context, routers, sessions));
        let controls = match control {
            Some(control) => scope.spawn(move || hear_controls(operators, control)).ok(),
            None => None,
        };
        if control.is_some() && controls.is_none() {
            context.say(LogLine::ControlGone);
        }
        if let Some(viewers) = viewers {
            if scope.spawn(move || show_views(context, viewers)).is_err() {
                context.say(LogLine::ViewersGone);
            }
        }
        if log.is_err() || !has_worker || keeper.is_err() || acceptor.is_err() {
            context.cut(RunFault::Device);
        }
        if let Some(end) = hear_operator(context, operator_at, reader, writer, plan) {
            end_with(context, end, sessions, control.is_some());
        }
        end_threads(
            context,
            acceptor.ok(),
            controls,
            keeper.ok(),
            journal,
            written,
        );
    });
}
