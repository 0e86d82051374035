//! Two workers that both are between taking a ticket and committing it, and a seat that is missing at the audit.
use super::*;
use history_core::{Event, Reply};
use history_seats::Brands;
use pcep_objects::Capabilities;
use pcep_word::Priority;
use script_lines::operator_event_in;
use shared_pce::{AuditFault, Fault, Front, Gate, Quiet, RollAt, Seat, Shared, Worked};
use std::alloc::AllocError;
use std::process::Abort;
use std::sync::Wait;
use std::sync::atomic::{AtomicBool, AtomicU32, Ordering};
use std::thread;
use std::thread::Threads;
use std::time::{Clock, Duration};

/// How long a gate waits at most, in turns of a millisecond.
const TURNS: u32 = 10_000;

/// What the two workers know about each other.
#[derive(Drop)]
struct Meeting {
    called: AtomicU32,
    answered: AtomicBool,
}

/// Holds a worker until both were called; the late one goes on after the other's commit was answered.
#[derive(Drop)]
struct Holding<'a, R: Clock> {
    rt: &'a R,
    meeting: &'a Meeting,
    is_late: bool,
    met: bool,
}

impl<'a, R: Clock> Holding<'a, R> {
    fn may_go(&self) -> bool {
        let both = self.meeting.called.load(Ordering::SeqCst) >= 2;
        both && (!self.is_late || self.meeting.answered.load(Ordering::SeqCst))
    }
}

impl<'a, R: Clock> Gate for Holding<'a, R> {
    fn computing(&mut self, _ticket: u64) {
        let _before = self.meeting.called.fetch_add(1, Ordering::SeqCst);
        for _turn in 0..TURNS {
            if self.may_go() {
                self.met = true;
                return;
            }
            let _slept = thread::sleep(self.rt, Duration::from_millis(1));
        }
    }
}

/// The result of a turn.
#[derive(Clone, Copy, Debug, PartialEq, Eq)]
pub enum Came {
    Idle,
    Granted(u32),
    Again,
    Otherwise,
    /// The other worker was not met.
    Alone,
}

pub fn came_to(worked: &Worked) -> Came {
    match worked {
        Worked::Idle => Came::Idle,
        Worked::Done { reply, .. } => match reply {
            Reply::Granted(srp) => Came::Granted(*srp),
            Reply::Again => Came::Again,
            _ => Came::Otherwise,
        },
    }
}

fn turn<R: Wait + Clock, B: Brands>(
    rt: &R,
    shared: &Shared<B>,
    seat: &mut Seat<B>,
    meeting: &Meeting,
    is_late: bool,
) -> Result<Came, Fault> {
    let mut gate = Holding {
        rt,
        meeting,
        is_late,
        met: false,
    };
    let worked = shared.work_one(rt, seat, &mut gate)?;
    meeting.answered.store(true, Ordering::SeqCst);
    if gate.met {
        Ok(came_to(&worked))
    } else {
        Ok(Came::Alone)
    }
}

/// Runs the turns of both workers at once, and returns the results of the late one and of the early one.
fn work_at_once<R: Threads + Wait + Clock + Sync, B: Brands + Send + Sync>(
    rt: &R,
    shared: &Shared<B>,
    late: &mut Seat<B>,
    early: &mut Seat<B>,
) -> Result<(Came, Came), Fault> {
    let meeting = Meeting {
        called: AtomicU32::new(0),
        answered: AtomicBool::new(false),
    };
    let (late, early) = thread::join(
        rt,
        || turn(rt, shared, late, &meeting, true),
        || turn(rt, shared, early, &meeting, false),
    );
    Ok((late?, early?))
}

/// Reads the event of an operator's line.
fn event_of(alloc: Global, line: &str) -> Result<Event, Fail> {
    match operator_event_in(alloc, line)? {
        Some(event) => Ok(event),
        None => Err(Fail::new("a bad line")),
    }
}

/// Submits the event of an operator's line.
pub fn ask<R: Wait, B: Brands>(
    rt: &R,
    alloc: Global,
    shared: &Shared<B>,
    seat: &mut Seat<B>,
    line: &str,
) -> Result<(), Fail> {
    let _asked = shared.submit(rt, seat, event_of(alloc, line)?)?;
    Ok(())
}

/// Submits that the peer comes up, and is in sync at once.
pub fn come_up<R: Wait, B: Brands>(
    rt: &R,
    shared: &Shared<B>,
    seat: &mut Seat<B>,
    peer: u32,
) -> Result<(), Fail> {
    let capabilities = Some(Capabilities {
        update: true,
        create: true,
    });
    let _up = shared.submit(rt, seat, Event::Up { peer, capabilities })?;
    let _marked = shared.submit(rt, seat, Event::Marker { peer })?;
    Ok(())
}

/// Asks for two initiations; the links over B can carry one of them.
fn ask_twice<R: Wait, B: Brands>(
    rt: &R,
    alloc: Global,
    shared: &Shared<B>,
    seat: &mut Seat<B>,
) -> Result<(), Fail> {
    come_up(rt, shared, seat, 1)?;
    ask(
        rt,
        alloc,
        shared,
        seat,
        "initiate 1 t1 10.0.0.1 10.0.0.4 600000 7 0",
    )?;
    ask(
        rt,
        alloc,
        shared,
        seat,
        "initiate 1 t2 10.0.0.1 10.0.0.4 600000 7 0",
    )
}

/// Rolls the history if this number of steps is kept, or of bytes.
fn roll_at<R: Wait, B: Brands>(
    rt: &R,
    shared: &Shared<B>,
    seat: &mut Seat<B>,
    steps: u64,
    bytes: u64,
) -> Result<Option<u64>, AllocError> {
    shared.roll_if(rt, seat, RollAt { steps, bytes })
}

/// Rolls the history if nine steps are kept, and only once: the second to try finds it rolled.
fn roll_once<R: Wait + Abort, B: Brands>(
    rt: &R,
    shared: &Shared<B>,
    seat: &mut Seat<B>,
) -> Result<(), Fail> {
    let early = roll_at(rt, shared, seat, 10, 100_000)?;
    let full = shared.roll_if_full(rt, seat)?;
    let rolled = roll_at(rt, shared, seat, 9, 100_000)?;
    let again = roll_at(rt, shared, seat, 9, 1)?;
    assert_eq!(rt; [early, full, rolled, again], [None, None, Some(9), None]);
    Ok(())
}

/// Returns whether a ticket waits, and whether messages wait to be sent to peer 1.
fn waits<R: Wait, B: Brands>(
    rt: &R,
    shared: &Shared<B>,
    front: &mut Front<Event, B>,
) -> (bool, bool) {
    let waiting = shared.waiting(rt, front);
    (waiting, shared.queued(rt, front, 1))
}

/// Tests that the messages of both grants wait until they are sent, and sends them.
fn send_all<R: Wait + Abort, B: Brands>(
    rt: &R,
    shared: &Shared<B>,
    seat: &mut Seat<B>,
    front: &mut Front<Event, B>,
) -> Result<(), Fail> {
    let before = waits(rt, shared, front);
    let _sent = shared.submit(rt, seat, Event::Drain { peer: 1 })?;
    let after = waits(rt, shared, front);
    assert_eq!(rt; [before, after], [(false, true), (false, false)]);
    Ok(())
}

/// Tests that the ticket that is searched for again is in the worker's hand, and is granted over C after a roll.
fn grant_the_other<R: Wait + Abort, B: Brands>(
    rt: &R,
    shared: &Shared<B>,
    seat: &mut Seat<B>,
    front: &mut Front<Event, B>,
) -> Result<(), Fail> {
    let waiting = shared.waiting(rt, front);
    let kept = shared.kept(rt, front);
    roll_once(rt, shared, seat)?;
    let left = shared.kept(rt, front);
    let came = came_to(&shared.work_one(rt, seat, &mut Quiet)?);
    assert_eq!(rt;
        (waiting, kept, left, came),
        (false, 9, 0, Came::Granted(2))
    );
    Ok(())
}

/// Searches for both tickets at once: one is granted, and the other is taken again.
pub fn ask_and_meet<R: Threads + Wait + Clock + Abort + Sync, B: Brands + Send + Sync>(
    rt: &R,
    alloc: Global,
    shared: &Shared<B>,
    first: &mut Seat<B>,
    second: &mut Seat<B>,
) -> Result<(), Fail> {
    let mut front = shared.front(rt);
    let none = waits(rt, shared, &mut front);
    ask_twice(rt, alloc, shared, first)?;
    let asked = waits(rt, shared, &mut front);
    assert_eq!(rt; [none, asked], [(false, false), (true, false)]);
    let came = work_at_once(rt, shared, first, second)?;
    assert_eq!(rt; came, (Came::Again, Came::Granted(1)));
    grant_the_other(rt, shared, first, &mut front)?;
    send_all(rt, shared, first, &mut front)
}

/// Returns what is left of each link at the best priority.
fn left_of_each(database: &Database) -> [Option<i64>; 4] {
    let best = Priority::capped(0);
    [
        database.unreserved(0, best),
        database.unreserved(1, best),
        database.unreserved(2, best),
        database.unreserved(3, best),
    ]
}

/// Tests that the seats' sums are all steps and grants, and that 400,000 are left on each link.
pub fn both_are_granted<R: Abort, B: Brands>(
    rt: &R,
    shared: Shared<B>,
    seats: Vec<Seat<B>>,
) -> Result<(), Fail> {
    let Ok(audit) = shared.close(seats) else {
        return Err(Fail::new("the audit failed"));
    };
    let left = left_of_each(&audit.database);
    let counts = (
        audit.steps,
        audit.grants,
        audit.database.rolled(),
        audit.database.history().len(),
    );
    assert_eq!(rt; (left, counts), ([Some(400_000); 4], (11, 2, 9, 2)));
    Ok(())
}

/// Tests that the audit passes with all seats, through which two steps were made.
fn passes<R: Abort, B: Brands>(rt: &R, shared: Shared<B>, seats: Vec<Seat<B>>) -> Result<(), Fail> {
    let Ok(audit) = shared.close(seats) else {
        return Err(Fail::new("all seats are here"));
    };
    assert_eq!(rt; audit.steps, 2);
    Ok(())
}

/// Tests that the audit without a seat hands the others back, and passes with it.
pub fn is_refused_without_a_seat<R: Abort, B: Brands>(
    rt: &R,
    shared: Shared<B>,
    seats: Vec<Seat<B>>,
) -> Result<(), Fail> {
    let mut seats = seats;
    let Some(missing) = seats.pop() else {
        return Err(Fail::new("two seats"));
    };
    let Err(refused) = shared.close(seats) else {
        return Err(Fail::new("a seat is missing"));
    };
    assert_eq!(rt;
        (refused.fault, refused.seats.len()),
        (AuditFault::SeatMissing, 1)
    );
    let mut seats = refused.seats;
    seats.push(missing)?;
    passes(rt, refused.shared, seats)
}
