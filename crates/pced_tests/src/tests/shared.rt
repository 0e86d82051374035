//! A database that two seats share, and what happens to it in each case.
ghost use Rattle.std.specs.Prelude.{◌≡◌, IfSome};
ghost use Rattle.history_core.specs.Histories.{StartsFromText, beginning, steps_of};

use super::meeting::{ask_and_meet, both_are_granted, is_refused_without_a_seat};
use super::others::{are_down, serve_all};
use super::quiet::{counts_all, fold_when_quiet};
use super::refused::{are_audited, call_all};
use super::reloads::{reload_beside_searches, replays};
use super::*;
use history_seats::Brands;
use place_tokens::Unopened;
use shared_pce::{Event, RollAt, Seat, Shared, Unnamed};
use std::marker::Brand;
use std::process::Abort;
use std::sync::Wait;
use std::sync::ledger::Blank;
use std::thread::Threads;
use std::time::Clock;

#[derive(Clone, Copy)]
enum Case {
    /// Two workers search for a ticket each at the same time.
    WorkersMeet,
    /// The audit is asked for without one of the seats.
    SeatMissing,
    /// Connections fail while another doesn't.
    OthersFail,
    /// Links are reloaded while searches run.
    LinksReload,
    /// Memory is refused to calls, which are made again.
    MemoryRefused,
    /// A seat is quiet after its steps are rolled.
    SeatQuiet,
}

/// Does what comes before the audit.
fn act<R: Threads + Wait + Clock + Abort + Sync, B: Brands + Send + Sync>(
    rt: &R,
    alloc: Global,
    case: Case,
    shared: &Shared<B>,
    seats: &mut [Seat<B>],
) -> Result<(), Fail> {
    let Some((first, rest)) = seats.split_first_mut() else {
        return Err(Fail::new("two seats"));
    };
    let Some((second, _none)) = rest.split_first_mut() else {
        return Err(Fail::new("two seats"));
    };
    match case {
        Case::WorkersMeet => ask_and_meet(rt, alloc, shared, first, second),
        Case::SeatMissing => meeting::come_up(rt, shared, second, 1),
        Case::OthersFail => serve_all(rt, alloc, shared, first),
        Case::LinksReload => reload_beside_searches(rt, alloc, shared, first, second),
        Case::MemoryRefused => call_all(rt, alloc, shared, first),
        Case::SeatQuiet => fold_when_quiet(rt, alloc, shared, first),
    }
}

/// Makes a database of which nothing was reported, if there is memory for it.
fn quiet_database(alloc: Global) -> Option<Database>
    ensures { IfSome result (λ database. (steps_of database ≡ 0) × StartsFromText database) }
{
    let Ok(te) = TeBase::read(alloc, DIAMOND) else {
        return None;
    };
    match Database::new(alloc, te) {
        Ok(database) => Some(database),
        Err(_) => None,
    }
}

/// Drops the database and its seats.
fn release<B: Brands>(_shared: Shared<B>, _seats: Vec<Seat<B>>) {}

/// Makes the audit. Returns true: there was memory for the seats.
fn closed<R: Abort, B: Brands>(
    rt: &R,
    case: Case,
    shared: Shared<B>,
    seats: Vec<Seat<B>>,
) -> Result<bool, Fail> {
    match case {
        Case::WorkersMeet => both_are_granted(rt, shared, seats)?,
        Case::SeatMissing => is_refused_without_a_seat(rt, shared, seats)?,
        Case::OthersFail => are_down(rt, shared, seats)?,
        Case::LinksReload => replays(rt, shared, seats)?,
        Case::SeatQuiet => counts_all(rt, shared, seats)?,
        Case::MemoryRefused => are_audited(rt, shared, seats)?,
    }
    Ok(true)
}

fn on_shared<B: Brands + Send + Sync, R: Threads + Wait + Clock + Abort + Sync>(
    rt: &R,
    alloc: Global,
    case: Case,
    database: Database,
    steps: Blank,
    grants: Blank,
    room: Unopened,
    history: Unnamed<Event>,
) -> Result<bool, Fail>
    requires database { (steps_of database ≡ 0) × (database.start ≡ beginning B.text) }
    requires history { history ≡ B.log }
    requires steps { (steps.name ≡ B.steps) × (steps.parts ≡ B.seats) × (steps.parts ≡ 2) }
    requires grants { (grants.name ≡ B.grants) × (grants.parts ≡ B.seats) × (grants.parts ≡ 2) }
    requires room { (room.table ≡ B.table) × (room.seats ≡ B.seats) × (room.seats ≡ 2) }
{
    let never = RollAt::NEVER;
    let made = Shared::<B>::new(alloc, database, 2, steps, grants, room, history, never);
    let Ok((shared, mut seats)) = made else {
        return Ok(false);
    };
    match act(rt, alloc, case, &shared, seats.as_mut_slice()) {
        Ok(()) => closed(rt, case, shared, seats),
        Err(fail) => {
            release(shared, seats);
            Err(fail)
        }
    }
}

/// Runs a case over two seats, and returns whether there was memory to make them.
fn run_once<R: Threads + Wait + Clock + Abort + Sync>(
    rt: &R,
    alloc: Global,
    case: Case,
) -> Result<bool, Fail> {
    let Some(database) = quiet_database(alloc) else {
        return Ok(false);
    };
    let Ok(room) = Unopened::new(alloc, 2) else {
        return Ok(false);
    };
    let Ok(history) = Unnamed::new(alloc) else {
        return Ok(false);
    };
    on_shared::<Brand, _>(
        rt,
        alloc,
        case,
        database,
        Blank::new(2),
        Blank::new(2),
        room,
        history,
    )
}

/// Runs a case over two seats, which are made again if memory was refused.
fn run<R: Threads + Wait + Clock + Abort + Sync>(
    rt: &R,
    alloc: Global,
    case: Case,
) -> Result<(), Fail> {
    if run_once(rt, alloc, case)? || run_once(rt, alloc, case)? {
        Ok(())
    } else {
        Err(Fail::new("no memory"))
    }
}

#[test]
fn workers_meet(rt: HostRuntime) -> Result<(), Fail> {
    run(&rt, rt.alloc(), Case::WorkersMeet)
}

#[test]
fn a_seat_is_missing(rt: HostRuntime) -> Result<(), Fail> {
    run(&rt, rt.alloc(), Case::SeatMissing)
}

#[test]
fn others_go_on_after_a_fault(rt: HostRuntime) -> Result<(), Fail> {
    run(&rt, rt.alloc(), Case::OthersFail)
}

#[test]
fn searches_go_by_their_own_snapshot(rt: HostRuntime) -> Result<(), Fail> {
    run(&rt, rt.alloc(), Case::LinksReload)
}

#[test]
fn a_quiet_seat_folds(rt: HostRuntime) -> Result<(), Fail> {
    run(&rt, rt.alloc(), Case::SeatQuiet)
}

#[test]
fn a_call_is_made_again(rt: HostRuntime) -> Result<(), Fail> {
    run(&rt, rt.alloc(), Case::MemoryRefused)
}
