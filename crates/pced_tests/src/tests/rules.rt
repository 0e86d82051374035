//! Runs of the rules by which a server stays up, with answers that were worked out by hand.
use server_rules::{Due, Entrance, Expiry, LineRate, Owing, Settling, Taken, admit};
use std::alloc::{AllocError, Global};
use std::test::Fail;

const PEER: u32 = 1;

fn expire(peer: u32) -> Option<Due> {
    Some(Due {
        peer,
        what: Owing::Expire,
    })
}

/// Runs this: a session comes up and goes, and comes up again on a second connection; a third connection stays silent,
/// and ends last.
fn beside_a_silent_connection(alloc: Global) -> Result<[Option<Due>; 4], AllocError> {
    let mut expiry = Expiry::new(alloc);
    expiry.connected(PEER)?;
    expiry.up(PEER);
    expiry.down(PEER, 1000);
    expiry.gone(PEER);
    expiry.connected(PEER)?;
    expiry.connected(PEER)?;
    expiry.up(PEER);
    let while_it_is_up = expiry.due(90_000, 60_000);
    expiry.down(PEER, 90_000);
    expiry.gone(PEER);
    expiry.gone(PEER);
    let too_early = expiry.due(149_999, 60_000);
    let in_time = expiry.due(150_000, 60_000);
    expiry.forgotten(PEER);
    Ok([while_it_is_up, too_early, in_time, expiry.due(900_000, 0)])
}

#[test]
fn a_silent_connection_changes_nothing(rt: HostRuntime) -> Result<(), Fail> {
    let due = beside_a_silent_connection(rt.alloc())?;
    assert_eq!(rt; due, [None, None, expire(PEER), None]);
    Ok(())
}

/// Runs this: a Down finds no memory, and two others end before it is submitted.
fn with_an_owed_down(alloc: Global) -> Result<[Option<Due>; 3], AllocError> {
    let mut expiry = Expiry::new(alloc);
    expiry.connected(PEER)?;
    expiry.up(PEER);
    expiry.connected(PEER)?;
    expiry.owed(PEER);
    expiry.gone(PEER);
    expiry.gone(PEER);
    let owed = expiry.due(5000, 1000);
    expiry.submitted(PEER, 7000);
    Ok([owed, expiry.due(7999, 1000), expiry.due(8000, 1000)])
}

#[test]
fn an_owed_down_comes_first(rt: HostRuntime) -> Result<(), Fail> {
    let due = with_an_owed_down(rt.alloc())?;
    let down = Due {
        peer: PEER,
        what: Owing::Down,
    };
    assert_eq!(rt; due, [Some(down), None, expire(PEER)]);
    Ok(())
}

const fn taken(address: u32, is_up: bool) -> Taken {
    Taken {
        slot: 0,
        address,
        is_up,
    }
}

/// Lets connections come to four places, of which one session is up.
fn admitted() -> [Entrance; 4] {
    let full = [
        taken(1, true),
        taken(2, false),
        taken(3, false),
        taken(3, false),
    ];
    let up = [
        taken(1, true),
        taken(2, true),
        taken(3, true),
        taken(4, true),
    ];
    let listed = [taken(1, true), taken(1, false)];
    [
        admit(&full, 4, 4),
        admit(&up, 5, 4),
        admit(&listed, 1, 4),
        admit(&listed, 2, 4),
    ]
}

#[test]
fn places_are_taken(rt: HostRuntime) {
    let answers = admitted();
    assert_eq!(rt;
        answers,
        [
            Entrance::InsteadOf(2),
            Entrance::Refused,
            Entrance::Refused,
            Entrance::Free
        ]
    );
}

/// Asks for twelve lines at once, one a second later, and one more.
fn lines() -> [Option<u64>; 4] {
    let mut rate = LineRate::new();
    for _line in 0..10 {
        let _said = rate.offer(5);
    }
    let eleventh = rate.offer(6);
    let twelfth = rate.offer(1004);
    [eleventh, twelfth, rate.offer(1005), rate.rest(1005)]
}

#[test]
fn lines_are_withheld(rt: HostRuntime) {
    let answers = lines();
    assert_eq!(rt; answers, [None, None, Some(2), None]);
}

/// Runs this: two routers are waited for, for ten seconds at most; one comes in sync and goes down, then both come in
/// sync.
fn settled(alloc: Global) -> Result<[bool; 5], AllocError> {
    let mut settling = Settling::new(alloc, &[1, 2], 10_000)?;
    settling.note(1, true);
    let by_one = settling.has_settled(9_999);
    let in_time = settling.has_settled(10_000);
    settling.note(1, false);
    settling.note(2, true);
    let by_the_other = settling.has_settled(0);
    settling.note(1, true);
    let by_both = settling.has_settled(0);
    let unnamed = Settling::new(alloc, &[], 10_000)?;
    Ok([
        by_one,
        in_time,
        by_the_other,
        by_both,
        unnamed.has_settled(9_999),
    ])
}

#[test]
fn a_server_settles(rt: HostRuntime) -> Result<(), Fail> {
    let answers = settled(rt.alloc())?;
    assert_eq!(rt; answers, [false, true, false, true, false]);
    Ok(())
}
