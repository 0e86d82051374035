//! What is dropped while nothing happens.
use super::ends::done;
use super::fakes::{Beat, Beats, Noon, Tap};
use super::*;
use engine_core::{Event, Store};
use history_seats::Brands;
use seated_store::Seated;
use server_talk::connection;
use shared_pce::{Seat, Shared};
use std::collections::VecDeque;
use std::process::Abort;
use std::sync::Wait;

/// Makes a session that is up, and then reads nothing `quiet` times.
fn beats_of(alloc: Global, quiet: u32) -> Result<Beats, Fail> {
    let mut beats = VecDeque::new(alloc);
    beats.push_back(Beat::Bytes(OPEN))?;
    beats.push_back(Beat::Bytes(KEEPALIVE))?;
    for _turn in 0..quiet {
        beats.push_back(Beat::Nothing)?;
    }
    Ok(Beats { beats })
}

/// Counts how often a connection with `quiet` quiet turns empties its store's list.
fn forgets<R: Wait>(rt: &R, alloc: Global, quiet: u32) -> Result<u32, Fail> {
    let mut reader = beats_of(alloc, quiet)?;
    let mut writer = Tap {
        left: 9,
        most: usize::MAX,
        bytes: Vec::new(alloc),
    };
    let mut store = done(alloc);
    let watch = Noon { is_closing: false };
    let _left = connection(rt, alloc, 7, &mut reader, &mut writer, &watch, &mut store);
    Ok(store.forgets)
}

/// Tests that a turn in which nothing comes empties the store's list too.
#[test]
fn a_quiet_turn_empties_the_list(rt: HostRuntime) -> Result<(), Fail> {
    let none = forgets(&rt, rt.alloc(), 0)?;
    let three = forgets(&rt, rt.alloc(), 3)?;
    assert_eq!(rt; three, none.wrapping_add(3));
    Ok(())
}

/// Empties the list of a seat's store, which is empty already, and returns how many receipts the seat keeps.
fn receipts_after<R: Wait, B: Brands>(
    rt: &R,
    alloc: Global,
    shared: &Shared<B>,
    seat: &mut Seat<B>,
) -> usize {
    Seated::new(rt, alloc, shared, seat).forget();
    seat.receipts().len()
}

/// Tests that a seat keeps its receipts while their steps are kept, and drops them in a quiet turn after those are
/// rolled. They stay counted.
pub fn fold_when_quiet<R: Wait + Abort, B: Brands>(
    rt: &R,
    alloc: Global,
    shared: &Shared<B>,
    seat: &mut Seat<B>,
) -> Result<(), Fail> {
    for peer in [1, 2] {
        let _reply = shared.submit(rt, seat, Event::Down { peer })?;
    }
    let kept = receipts_after(rt, alloc, shared, seat);
    let _steps = shared.roll(rt, seat)?;
    let rolled = receipts_after(rt, alloc, shared, seat);
    assert_eq!(rt; (kept, rolled, seat.steps()), (2, 0, 2));
    Ok(())
}

/// Tests that the audit passes, with the two steps that the quiet seat received.
pub fn counts_all<R: Abort, B: Brands>(
    rt: &R,
    shared: Shared<B>,
    seats: Vec<Seat<B>>,
) -> Result<(), Fail> {
    let Ok(audit) = shared.close(seats) else {
        return Err(Fail::new("the audit failed"));
    };
    assert_eq!(rt; (audit.steps, audit.grants), (2, 0));
    Ok(())
}
