//! One connection that fails after its session came up, and another of the same shared database.
use super::fakes::{Beat, Beats, Noon, Tap};
use super::*;
use engine_core::Event;
use history_seats::Brands;
use seated_store::Seated;
use server_talk::{Ended, connection};
use shared_pce::{Audit, Seat, Shared};
use std::collections::VecDeque;
use std::process::Abort;
use std::sync::Wait;
use std::time::Clock;

/// How a peer's connection behaves after its Open and Keepalive, and how it should end.
#[derive(Clone, Copy)]
struct Router {
    peer: u32,
    last: Beat,
    /// How many writes succeed.
    writes: u64,
    ended: Ended,
}

/// Its reads fail.
const DEAF: Router = Router {
    peer: 7,
    last: Beat::Fault,
    writes: 9,
    ended: Ended::ReadFault,
};

/// Its Open and its Keepalive were taken, but the end that is sent to it isn't.
const GONE: Router = Router {
    peer: 8,
    last: Beat::Bytes(b"\x00\x00\x00\x00"),
    writes: 2,
    ended: Ended::WriteFault,
};

/// It closes, and is answered up to the end.
const WELL: Router = Router {
    peer: 9,
    last: Beat::Bytes(CLOSE),
    writes: 9,
    ended: Ended::SessionEnded,
};

fn beats_of(alloc: Global, router: Router) -> Result<Beats, Fail> {
    let mut beats = VecDeque::new(alloc);
    for beat in [Beat::Bytes(OPEN), Beat::Bytes(KEEPALIVE), router.last] {
        beats.push_back(beat)?;
    }
    Ok(Beats { beats })
}

/// Serves one connection, and returns what was written to it.
fn served<R: Wait + Clock + Abort, B: Brands>(
    rt: &R,
    alloc: Global,
    shared: &Shared<B>,
    seat: &mut Seat<B>,
    router: Router,
) -> Result<Vec<u8>, Fail> {
    let mut reader = beats_of(alloc, router)?;
    let mut writer = Tap {
        left: router.writes,
        most: usize::MAX,
        bytes: Vec::new(alloc),
    };
    let watch = Noon { is_closing: false };
    let mut store = Seated::new(rt, alloc, shared, seat);
    let peer = router.peer;
    let left = connection(
        rt,
        alloc,
        peer,
        &mut reader,
        &mut writer,
        &watch,
        &mut store,
    );
    assert_eq!(rt; left.ended, router.ended);
    Ok(writer.bytes)
}

/// Tests whether the peer's Down is among the steps.
fn has_down(database: &Database, peer: u32) -> bool {
    database.history().iter().any(
        |step| matches!(step.event.event(), Event::Down { peer: down } if *down == peer),
    )
}

/// Tests that each peer is down, and nothing is booked.
fn all_are_down(rt: &impl Abort, audit: &Audit) {
    for peer in [DEAF.peer, GONE.peer, WELL.peer] {
        assert!(rt; has_down(&audit.database, peer));
        assert!(rt; !audit.database.is_up(peer));
    }
}

/// Tests that the audit passes, and all peers are down.
pub fn are_down<R: Abort, B: Brands>(
    rt: &R,
    shared: Shared<B>,
    seats: Vec<Seat<B>>,
) -> Result<(), Fail> {
    let Ok(audit) = shared.close(seats) else {
        return Err(Fail::new("the audit failed"));
    };
    all_are_down(rt, &audit);
    Ok(())
}

/// Tests that two connections fail, and the one after them is answered.
pub fn serve_all<R: Wait + Clock + Abort, B: Brands>(
    rt: &R,
    alloc: Global,
    shared: &Shared<B>,
    seat: &mut Seat<B>,
) -> Result<(), Fail> {
    for router in [DEAF, GONE] {
        let _written = served(rt, alloc, shared, seat, router)?;
    }
    let written = served(rt, alloc, shared, seat, WELL)?;
    let Some(behind) = written.as_slice().strip_prefix(OPEN) else {
        return Err(Fail::new("no Open was sent"));
    };
    assert!(rt; behind.starts_with(KEEPALIVE));
    Ok(())
}
