//! What searches are given: the snapshots of tickets that are taken.
use super::*;
use history_core::{Event, Reply};
use pcep_objects::Capabilities;
use pcep_word::Priority;
use script_lines::{Order, operator_event_in, order_of};
use te_snapshot::Snapshot;

/// A report of PLSP-ID 1: up and active, from A by B to D, at 7/0 with 500,000 bytes per second.
const REPORTED: &str =
    "report 1 200a0050 2010001c 00001018 00120010 0a000001 00010001 0a000001 0a000004 07100014 01080a01 00022000 01080a02 00022000 09100014 00000000 00000000 00000000 07000000 05100008 48f42400";

fn submit(database: &mut Database, event: Event) -> Result<(), Fail> {
    let _reply = database.apply(event)?;
    Ok(())
}

/// Submits the event of an operator's line.
fn ask(alloc: Global, database: &mut Database, line: &str) -> Result<(), Fail> {
    match operator_event_in(alloc, line)? {
        Some(event) => submit(database, event),
        None => Err(Fail::new("a bad line")),
    }
}

/// Submits that peer 1 comes up and is in sync, and asks for three of its LSPs.
fn ask_thrice(alloc: Global, database: &mut Database) -> Result<(), Fail> {
    let capabilities = Some(Capabilities {
        update: true,
        create: true,
    });
    submit(
        database,
        Event::Up {
            peer: 1,
            capabilities,
        },
    )?;
    submit(database, Event::Marker { peer: 1 })?;
    ask(
        alloc,
        database,
        "initiate 1 t1 10.0.0.1 10.0.0.4 100000 7 0",
    )?;
    ask(
        alloc,
        database,
        "initiate 1 t2 10.0.0.1 10.0.0.4 100000 7 0",
    )?;
    ask(
        alloc,
        database,
        "initiate 1 t3 10.0.0.1 10.0.0.4 100000 7 0",
    )
}

/// Takes the next ticket, and returns its snapshot.
fn taken(database: &mut Database) -> Result<Snapshot, Fail> {
    match database.apply(Event::Take)? {
        Reply::Job(job) => Ok(job.snapshot),
        _ => Err(Fail::new("a ticket waits")),
    }
}

/// Submits peer 1's report of its LSP.
fn report(alloc: Global, database: &mut Database) -> Result<(), Fail> {
    let Some(Order::Report(peer, reports)) = order_of(alloc, REPORTED.as_bytes())? else {
        return Err(Fail::new("a bad line"));
    };
    match reports.into_vec().pop() {
        Some(report) => submit(database, Event::Report { peer, report }),
        None => Err(Fail::new("one report")),
    }
}

/// Returns what is left of links 0, 1 and 2 at priority 0.
fn left_in(snapshot: &Snapshot) -> [Option<i64>; 3] {
    let best = Priority::capped(0);
    [
        snapshot.unreserved(0, best),
        snapshot.unreserved(1, best),
        snapshot.unreserved(2, best),
    ]
}

fn is_next_the_same(database: &mut Database, first: &Snapshot) -> Result<bool, Fail> {
    let next = taken(database)?;
    Ok(left_in(&next) == left_in(first))
}

fn left_of_next(database: &mut Database) -> Result<[Option<i64>; 3], Fail> {
    let next = taken(database)?;
    Ok(left_in(&next))
}

/// Whether the next snapshot is the same, what the one after a report says, and what the first one says then.
type Seen = (bool, [Option<i64>; 3], [Option<i64>; 3]);

fn seen_behind(alloc: Global, database: &mut Database, first: &Snapshot) -> Result<Seen, Fail> {
    let is_same = is_next_the_same(database, first)?;
    report(alloc, database)?;
    let left = left_of_next(database)?;
    Ok((is_same, left, left_in(first)))
}

fn seen_by(alloc: Global, database: &mut Database) -> Result<Seen, Fail> {
    ask_thrice(alloc, database)?;
    let first = taken(database)?;
    seen_behind(alloc, database, &first)
}

fn seen_in(alloc: Global) -> Result<Seen, Fail> {
    let mut database = new_database(alloc)?;
    seen_by(alloc, &mut database)
}

/// Tests that two takes without a change in between give equal tables. One after a report has what that leaves, and the
/// first table is as it was.
#[test]
fn take_twice(rt: HostRuntime) -> Result<(), Fail> {
    let half = Some(500_000i64);
    let free = Some(1_000_000i64);
    let seen = seen_in(rt.alloc())?;
    assert_eq!(rt; seen, (true, [half, half, free], [free; 3]));
    Ok(())
}
