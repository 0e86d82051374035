//! Calls of a seat for which memory is refused. Each leaves everything as it was, and succeeds when it is made again.
//! So the test passes whichever single allocation is refused, and `tools/refused` runs it with each of them refused in
//! turn.
use super::*;
use engine_core::{Client, hang_up, serve};
use history_core::{Brief, Event, LinkReload};
use history_seats::Brands;
use pcep_messages::{Message, StateReport, read_message};
use pcep_objects::Capabilities;
use pcep_session::State;
use script_lines::operator_event_in;
use seated_store::Seated;
use sequence::Sequence;
use shared_pce::{Fault, Front, Quiet, Seat, Shared};
use std::alloc::AllocError;
use std::process::Abort;
use std::sync::Wait;
use te_base::LinkValues;

/// The router whose events are submitted, and the one that has a session given by bytes.
const PEER: u32 = 1;

const OTHER: u32 = 2;

/// What a seat is asked to do.
#[derive(Clone, Copy)]
pub enum Ask {
    Up,
    Marker,
    /// The LSP 1, which was initiated and is delegated, is up over B.
    Report,
    /// The request of this SRP-ID is refused.
    Refuse(u32),
    /// An operator's line.
    Line(&'static str),
    /// The link from A to B can now carry 100,000.
    Reload,
    Take,
    /// No path was found for the ticket.
    Commit(u64),
    /// A worker's turn.
    Work,
    Drain,
    /// The history is rolled, and the seat drops its receipts.
    Roll,
    Down,
    Expire,
}

/// What is asked in turn, and what the newest receipt has after it.
const ASKS: [(Ask, Option<Brief>); 26] = [
    (Ask::Up, Some(Brief::Done)),
    (Ask::Marker, Some(Brief::Done)),
    (
        Ask::Line("initiate 1 t1 10.0.0.1 10.0.0.4 600000 7 0"),
        Some(Brief::Asked(1)),
    ),
    (Ask::Work, Some(Brief::Granted(1))),
    (Ask::Drain, Some(Brief::Out { messages: 1 })),
    (Ask::Refuse(1), Some(Brief::Done)),
    (Ask::Report, Some(Brief::Booked { wants_path: false })),
    (Ask::Line("update 1 1"), Some(Brief::Asked(2))),
    (Ask::Work, Some(Brief::Granted(2))),
    (Ask::Refuse(2), Some(Brief::Done)),
    (Ask::Line("delete 1 1"), Some(Brief::Removing(3))),
    (Ask::Refuse(3), Some(Brief::Done)),
    (Ask::Line("return 1 1"), Some(Brief::Done)),
    (Ask::Drain, Some(Brief::Out { messages: 3 })),
    (Ask::Roll, None),
    (
        Ask::Line("initiate 1 t2 10.0.0.1 10.0.0.4 600000 7 0"),
        Some(Brief::Asked(3)),
    ),
    (Ask::Take, Some(Brief::Job(3))),
    (Ask::Reload, Some(Brief::Done)),
    (Ask::Commit(3), Some(Brief::Again)),
    (Ask::Work, Some(Brief::Granted(5))),
    (Ask::Work, Some(Brief::Idle)),
    (Ask::Report, Some(Brief::Booked { wants_path: false })),
    (Ask::Roll, None),
    (Ask::Down, Some(Brief::Done)),
    (Ask::Expire, Some(Brief::Done)),
    (Ask::Roll, None),
];

/// The report of the LSP 1.
const REPORTED: &[u8] =
    b"\x20\x0a\x00\x50\x20\x10\x00\x1c\x00\x00\x10\x99\x00\x12\x00\x10\x0a\x00\x00\x01\x00\x01\x00\x01\x0a\x00\x00\x01\x0a\x00\x00\x04\x07\x10\x00\x14\x01\x08\x0a\x01\x00\x02\x20\x00\x01\x08\x0a\x02\x00\x02\x20\x00\x09\x10\x00\x14\x00\x00\x00\x00\x00\x00\x00\x00\x00\x00\x00\x00\x07\x00\x00\x00\x05\x10\x00\x08\x48\xf4\x24\x00";

/// A session in one piece: Open, Keepalive, end of synchronization, and a report.
const SESSION: &[u8] =
    b"\x20\x01\x00\x14\x01\x10\x00\x10\x20\x1e\x78\x00\x00\x10\x00\x04\x00\x00\x00\x05\x20\x02\x00\x04\x20\x0a\x00\x24\x20\x10\x00\x1c\x00\x00\x00\x00\x00\x12\x00\x10\x00\x00\x00\x00\x00\x00\x00\x00\x00\x00\x00\x00\x00\x00\x00\x00\x07\x10\x00\x04\x20\x0a\x00\x50\x20\x10\x00\x1c\x00\x00\x10\x18\x00\x12\x00\x10\x0a\x00\x00\x01\x00\x01\x00\x01\x0a\x00\x00\x01\x0a\x00\x00\x04\x07\x10\x00\x14\x01\x08\x0a\x01\x00\x02\x20\x00\x01\x08\x0a\x02\x00\x02\x20\x00\x09\x10\x00\x14\x00\x00\x00\x00\x00\x00\x00\x00\x00\x00\x00\x00\x07\x00\x00\x00\x05\x10\x00\x08\x48\xf4\x24\x00";

/// Returns the first report of a message.
fn report_in(alloc: Global, bytes: &[u8]) -> Option<StateReport> {
    match read_message(alloc, bytes) {
        Ok(Message::Report(reports)) => reports.into_vec().pop(),
        _ => None,
    }
}

fn report_event(alloc: Global) -> Option<Event> {
    let report = report_in(alloc, REPORTED)?;
    Some(Event::Report { peer: PEER, report })
}

fn line_event(alloc: Global, line: &str) -> Option<Event> {
    match operator_event_in(alloc, line) {
        Ok(event) => event,
        Err(_) => None,
    }
}

fn links_in(alloc: Global, values: LinkValues) -> Result<Sequence<LinkReload>, AllocError> {
    let links = vec![in alloc; LinkReload { link: 0, values }]?;
    Ok(Sequence::from_vec(links))
}

fn reload_event(alloc: Global) -> Option<Event> {
    let values = LinkValues::new(10, 10, 0, 100_000)?;
    match links_in(alloc, values) {
        Ok(links) => Some(Event::Reload { links }),
        Err(_) => None,
    }
}

/// Returns the event that is asked for; none if there is no memory for it.
pub fn event_of(alloc: Global, ask: Ask) -> Option<Event> {
    let peer = PEER;
    match ask {
        Ask::Report => report_event(alloc),
        Ask::Line(line) => line_event(alloc, line),
        Ask::Reload => reload_event(alloc),
        Ask::Up => Some(Event::Up {
            peer,
            capabilities: Some(Capabilities {
                update: true,
                create: true,
            }),
        }),
        Ask::Marker => Some(Event::Marker { peer }),
        Ask::Refuse(srp) => Some(Event::Refused { peer, srp }),
        Ask::Commit(ticket) => Some(Event::Commit {
            ticket,
            offer: None,
        }),
        Ask::Drain => Some(Event::Drain { peer }),
        Ask::Down => Some(Event::Down { peer }),
        Ask::Expire => Some(Event::Expire { peer }),
        Ask::Take | Ask::Work | Ask::Roll => Some(Event::Take),
    }
}

fn submit<R: Wait, B: Brands>(
    rt: &R,
    alloc: Global,
    shared: &Shared<B>,
    seat: &mut Seat<B>,
    ask: Ask,
) -> Result<(), Fault> {
    let Some(event) = event_of(alloc, ask) else {
        return Err(Fault::OutOfMemory);
    };
    let _reply = shared.submit(rt, seat, event)?;
    Ok(())
}

/// Does what is asked for, once.
fn perform<R: Wait, B: Brands>(
    rt: &R,
    alloc: Global,
    shared: &Shared<B>,
    seat: &mut Seat<B>,
    ask: Ask,
) -> Result<(), Fault> {
    match ask {
        Ask::Work => {
            let _worked = shared.work_one(rt, seat, &mut Quiet)?;
            Ok(())
        }
        Ask::Roll => {
            let _steps = shared.roll(rt, seat)?;
            shared.fold(rt, seat);
            Ok(())
        }
        _ => submit(rt, alloc, shared, seat, ask),
    }
}

/// What is seen of the database and of a seat.
#[derive(Clone, Copy, Debug, PartialEq, Eq)]
struct Seen {
    /// What is left of each link at each priority.
    left: [Option<[i64; 8]>; 4],
    kept: u64,
    steps: u64,
    grants: u64,
    receipts: usize,
    waiting: bool,
    queued: bool,
    has_job: bool,
}

fn number_of_each(table: &[[i64; 8]]) -> [Option<[i64; 8]>; 4] {
    [
        table.first().copied(),
        table.get(1).copied(),
        table.get(2).copied(),
        table.get(3).copied(),
    ]
}

fn left<R: Wait, B: Brands>(
    rt: &R,
    shared: &Shared<B>,
    front: &mut Front<Event, B>,
) -> Result<[Option<[i64; 8]>; 4], AllocError> {
    let table = shared.left(rt, front)?;
    Ok(number_of_each(table.as_slice()))
}

fn look<R: Wait, B: Brands>(
    rt: &R,
    shared: &Shared<B>,
    seat: &mut Seat<B>,
) -> Result<Seen, AllocError> {
    let front = &mut shared.front(rt);
    let left = match left(rt, shared, front) {
        Ok(left) => left,
        Err(_) => left(rt, shared, front)?,
    };
    Ok(Seen {
        left,
        kept: shared.kept(rt, front),
        steps: seat.steps(),
        grants: seat.grants(),
        receipts: seat.receipts().len(),
        waiting: shared.waiting(rt, front),
        queued: shared.queued(rt, front, PEER),
        has_job: seat.hand().is_some(),
    })
}

/// Returns what is seen after a ticket was taken whose job is in the seat's hand.
fn with_job(before: Seen) -> Seen {
    Seen {
        kept: before.kept.wrapping_add(1),
        steps: before.steps.wrapping_add(1),
        receipts: before.receipts.wrapping_add(1),
        waiting: false,
        has_job: true,
        ..before
    }
}

/// Tests what a call leaves for which memory was refused: all is as it was, or a worker has the job in its hand.
fn is_borne(ask: Ask, before: Seen, after: Seen) -> bool {
    after == before || (matches!(ask, Ask::Work) && after == with_job(before))
}

/// Does what is asked for, and again if memory was refused.
fn obtain<R: Wait + Abort, B: Brands>(
    rt: &R,
    alloc: Global,
    shared: &Shared<B>,
    seat: &mut Seat<B>,
    ask: Ask,
) -> Result<(), Fail> {
    let before = look(rt, shared, seat)?;
    if perform(rt, alloc, shared, seat, ask).is_ok() {
        return Ok(());
    }
    let after = look(rt, shared, seat)?;
    assert!(rt; is_borne(ask, before, after));
    perform(rt, alloc, shared, seat, ask)?;
    Ok(())
}

fn newest_brief<B: Brands>(seat: &Seat<B>) -> Option<Brief> {
    match seat.receipts() {
        [.., newest] => Some(newest.brief()),
        [] => None,
    }
}

fn obtain_all<R: Wait + Abort, B: Brands>(
    rt: &R,
    alloc: Global,
    shared: &Shared<B>,
    seat: &mut Seat<B>,
) -> Result<(), Fail> {
    for (ask, wanted) in ASKS {
        obtain(rt, alloc, shared, seat, ask)?;
        assert_eq!(rt; newest_brief(seat), wanted);
    }
    Ok(())
}

fn serve_once<R: Wait, B: Brands>(
    rt: &R,
    alloc: Global,
    shared: &Shared<B>,
    seat: &mut Seat<B>,
    client: &mut Client,
) -> Result<(), Fault> {
    let mut store = Seated::new(rt, alloc, shared, seat);
    serve(client, OTHER, SESSION, 0, &mut store)
}

fn hang_up_once<R: Wait, B: Brands>(
    rt: &R,
    alloc: Global,
    shared: &Shared<B>,
    seat: &mut Seat<B>,
    client: &mut Client,
) -> Result<(), Fault> {
    let mut store = Seated::new(rt, alloc, shared, seat);
    hang_up(client, OTHER, &mut store)
}

/// Serves a whole session, ends it, and returns whether memory sufficed. If it didn't, the session is closed, and its
/// events up to then stay.
fn has_served<R: Wait + Abort, B: Brands>(
    rt: &R,
    alloc: Global,
    shared: &Shared<B>,
    seat: &mut Seat<B>,
    client: &mut Client,
) -> Result<bool, Fail> {
    let before = seat.steps();
    let served = serve_once(rt, alloc, shared, seat, client).is_ok();
    let is_ended = client.session.state() == State::Closed;
    assert!(rt; served != is_ended && before <= seat.steps());
    if hang_up_once(rt, alloc, shared, seat, client).is_err() {
        hang_up_once(rt, alloc, shared, seat, client)?;
    }
    assert!(rt; !client.joined);
    Ok(served)
}

fn connect_once<R: Wait + Abort, B: Brands>(
    rt: &R,
    alloc: Global,
    shared: &Shared<B>,
    seat: &mut Seat<B>,
) -> Result<bool, Fail> {
    let mut client = match Client::new(alloc, 0) {
        Ok(client) => client,
        Err(_) => Client::new(alloc, 0)?,
    };
    has_served(rt, alloc, shared, seat, &mut client)
}

/// Makes each call of a seat, again if memory was refused, and serves a router by bytes.
pub fn call_all<R: Wait + Abort, B: Brands>(
    rt: &R,
    alloc: Global,
    shared: &Shared<B>,
    seat: &mut Seat<B>,
) -> Result<(), Fail> {
    obtain_all(rt, alloc, shared, seat)?;
    let served = connect_once(rt, alloc, shared, seat)? || connect_once(rt, alloc, shared, seat)?;
    assert!(rt; served);
    Ok(())
}

/// Tests that the audit passes, with three grants. It takes no memory.
pub fn are_audited<R: Abort, B: Brands>(
    rt: &R,
    shared: Shared<B>,
    seats: Vec<Seat<B>>,
) -> Result<(), Fail> {
    let Ok(audit) = shared.close(seats) else {
        return Err(Fail::new("the audit failed"));
    };
    assert_eq!(rt; audit.grants, 3);
    Ok(())
}
