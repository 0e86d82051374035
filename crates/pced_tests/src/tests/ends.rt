//! Each way in which a connection ends.
use super::fakes::{Beat, Beats, Failing, Faulty, Noon, Slow, Tap};
use super::*;
use engine_core::Fault;
use pcep_messages::Notice;
use pcep_session::{EndReason, Notices};
use server_talk::{ConnectionEnd, Ended, connection};
use std::cell::Cell;
use std::collections::VecDeque;
use std::process::Abort;
use std::sync::Wait;

/// A connection whose session comes up, and its end.
#[derive(Clone, Copy)]
struct Case {
    last: Beat,
    /// How many writes succeed.
    writes: u64,
    /// The events that the store answers with a fault, the first `faults` times.
    failing: Failing,
    fault: Fault,
    faults: u32,
    is_closing: bool,
    ended: Ended,
    /// Why the session itself ended.
    reason: Option<EndReason>,
    /// The number of Downs that were submitted, and of rolls.
    downs: u32,
    rolls: u32,
}

/// The peer's Close.
const BY_PEER: Option<EndReason> = Some(EndReason::PeerClose(1));

/// The server's Close: malformed (RFC 5440 section 7.17, reason 3).
const MALFORMED: Option<EndReason> = Some(EndReason::Said(Notices::One(Notice::Close(3))));

/// The peer has closed.
const CLOSED: Case = Case {
    last: Beat::Nothing,
    writes: 9,
    failing: Failing::Downs,
    fault: Fault::OutOfMemory,
    faults: 0,
    is_closing: false,
    ended: Ended::PeerClosed,
    reason: None,
    downs: 1,
    rolls: 0,
};

const CASES: [Case; 10] = [
    CLOSED,
    Case {
        last: Beat::Fault,
        ended: Ended::ReadFault,
        ..CLOSED
    },
    Case {
        last: Beat::Bytes(CLOSE),
        ended: Ended::SessionEnded,
        reason: BY_PEER,
        ..CLOSED
    },
    Case {
        last: Beat::Bytes(CLOSE),
        faults: 3,
        ended: Ended::SessionEnded,
        reason: BY_PEER,
        rolls: 3,
        ..CLOSED
    },
    Case {
        last: Beat::Fault,
        faults: 4,
        ended: Ended::StoreFault(Fault::OutOfMemory),
        downs: 0,
        rolls: 4,
        ..CLOSED
    },
    Case {
        last: Beat::Fault,
        fault: Fault::HistoryFull,
        faults: 1,
        ended: Ended::ReadFault,
        rolls: 1,
        ..CLOSED
    },
    // its session finds the history full, which is rolled, so that the next one comes up
    Case {
        last: Beat::Nothing,
        failing: Failing::Ups,
        fault: Fault::HistoryFull,
        faults: 1,
        ended: Ended::SessionEnded,
        reason: Some(EndReason::Caller(None, None)),
        downs: 0,
        rolls: 1,
        ..CLOSED
    },
    // one bad byte of a header
    Case {
        last: Beat::Bytes(b"\x00\x00\x00\x00"),
        ended: Ended::SessionEnded,
        reason: MALFORMED,
        ..CLOSED
    },
    // the bytes of its end can't be written
    Case {
        last: Beat::Bytes(b"\x00\x00\x00\x00"),
        writes: 2,
        ended: Ended::WriteFault,
        reason: MALFORMED,
        ..CLOSED
    },
    // its first bytes can't be written, so the session isn't up
    Case {
        last: Beat::Nothing,
        writes: 0,
        ended: Ended::WriteFault,
        downs: 0,
        ..CLOSED
    },
];

fn ends<R: Wait + Abort>(rt: &R, alloc: Global, case: Case) -> Result<(), Fail> {
    let mut beats = VecDeque::new(alloc);
    for beat in [
        Beat::Bytes(OPEN),
        Beat::Bytes(KEEPALIVE),
        Beat::Nothing,
        case.last,
    ] {
        beats.push_back(beat)?;
    }
    let mut reader = Beats { beats };
    let mut writer = Tap {
        left: case.writes,
        most: usize::MAX,
        bytes: Vec::new(alloc),
    };
    let mut store = Faulty {
        calls: Vec::new(alloc),
        failing: case.failing,
        fault: case.fault,
        faults: case.faults,
        downs: 0,
        rolls: 0,
        forgets: 0,
    };
    let watch = Noon {
        is_closing: case.is_closing,
    };
    let left = connection(rt, alloc, 7, &mut reader, &mut writer, &watch, &mut store);
    assert_eq!(rt; (left.ended, left.reason), (case.ended, case.reason));
    assert_eq!(rt; store.downs, case.downs);
    assert_eq!(rt; store.rolls, case.rolls);
    Ok(())
}

#[test]
fn each_end_hangs_up(rt: HostRuntime) -> Result<(), Fail> {
    for case in CASES {
        ends(&rt, rt.alloc(), case)?;
    }
    Ok(())
}

/// Makes a store that replies Done to everything.
pub fn done(alloc: Global) -> Faulty {
    Faulty {
        calls: Vec::new(alloc),
        failing: Failing::Downs,
        fault: Fault::OutOfMemory,
        faults: 0,
        downs: 0,
        rolls: 0,
        forgets: 0,
    }
}

/// Tests that if the run should end, the session is closed at its next turn. All bytes go out, however few a write
/// takes.
#[test]
fn a_closing_run_closes_its_sessions(rt: HostRuntime) -> Result<(), Fail> {
    let alloc = rt.alloc();
    for most in [usize::MAX, 3] {
        let mut reader = Beats {
            beats: VecDeque::new(alloc),
        };
        let mut writer = Tap {
            left: 99,
            most,
            bytes: Vec::new(alloc),
        };
        let watch = Noon { is_closing: true };
        let mut store = done(alloc);
        let left = connection(&rt, alloc, 7, &mut reader, &mut writer, &watch, &mut store);
        let want = ConnectionEnd {
            ended: Ended::SessionEnded,
            reason: Some(EndReason::Caller(None, Some(1))),
        };
        assert_eq!(rt; left, want);
        let Some(close) = writer.bytes.as_slice().strip_prefix(OPEN) else {
            return Err(Fail::new("no Open was sent"));
        };
        assert_eq!(rt; close, CLOSE);
    }
    Ok(())
}

/// Tests that a write that takes a part after its time is over isn't followed by another.
#[test]
fn a_part_taken_late_ends_the_connection(rt: HostRuntime) -> Result<(), Fail> {
    let alloc = rt.alloc();
    let mut reader = Beats {
        beats: VecDeque::new(alloc),
    };
    let mut writer = Tap {
        left: 99,
        most: 1,
        bytes: Vec::new(alloc),
    };
    let watch = Slow {
        now_ms: Cell::new(0),
    };
    let mut store = done(alloc);
    let left = connection(&rt, alloc, 7, &mut reader, &mut writer, &watch, &mut store);
    assert_eq!(rt; left.ended, Ended::WriteFault);
    assert_eq!(rt; writer.bytes.len(), 1);
    Ok(())
}

/// Tests that a session that sends nothing for half a minute sends a Keepalive, even if nothing comes. Its first one
/// answers the Open.
#[test]
fn a_keepalive_is_sent_when_it_is_due(rt: HostRuntime) -> Result<(), Fail> {
    let alloc = rt.alloc();
    let mut beats = VecDeque::new(alloc);
    // (after the timer is due, what is there is read first, which is nothing)
    let beats_given = [
        Beat::Bytes(OPEN),
        Beat::Bytes(KEEPALIVE),
        Beat::Nothing,
        Beat::Nothing,
    ];
    for beat in beats_given {
        beats.push_back(beat)?;
    }
    let mut reader = Beats { beats };
    let mut writer = Tap {
        left: 99,
        most: usize::MAX,
        bytes: Vec::new(alloc),
    };
    let watch = Slow {
        now_ms: Cell::new(0),
    };
    let mut store = done(alloc);
    let left = connection(&rt, alloc, 7, &mut reader, &mut writer, &watch, &mut store);
    assert_eq!(rt; left.ended, Ended::PeerClosed);
    let said = b"\x20\x02\x00\x04\x20\x02\x00\x04\x20\x02\x00\x04";
    assert_eq!(rt;
        writer.bytes.as_slice().strip_prefix(OPEN),
        Some(said.as_slice())
    );
    Ok(())
}

/// Makes the first `reads` bytes of a session that comes up, one for each read. The read after them fails.
fn beats_until(alloc: Global, reads: usize) -> Result<Beats, Fail> {
    let mut beats = VecDeque::new(alloc);
    for piece in [OPEN, KEEPALIVE] {
        for byte in piece.chunks(1) {
            if beats.len() < reads {
                beats.push_back(Beat::Bytes(byte))?;
            }
        }
    }
    beats.push_back(Beat::Fault)?;
    Ok(Beats { beats })
}

/// Tests that whichever read fails, the connection ends with that, and its Down is submitted if the session is up by
/// then.
#[test]
fn each_read_may_fail(rt: HostRuntime) -> Result<(), Fail> {
    let alloc = rt.alloc();
    let all = OPEN.len() + KEEPALIVE.len();
    for reads in 0..=all {
        let mut reader = beats_until(alloc, reads)?;
        let mut writer = Tap {
            left: 99,
            most: usize::MAX,
            bytes: Vec::new(alloc),
        };
        let watch = Noon { is_closing: false };
        let mut store = done(alloc);
        let left = connection(&rt, alloc, 7, &mut reader, &mut writer, &watch, &mut store);
        assert_eq!(rt; left.ended, Ended::ReadFault);
        assert_eq!(rt; store.downs, u32::from(reads == all));
    }
    Ok(())
}
