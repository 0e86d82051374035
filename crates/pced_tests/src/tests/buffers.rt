//! What a session keeps of the bytes that it has handled. A contract sees only those that wait.
use super::*;
use pcep_session::{Session, SessionFault};

/// A Keepalive, and the first ten bytes of a report.
const KEEPALIVE_AND_FRONT: &[u8] = b"\x20\x02\x00\x04\x20\x0a\x00\x50\x20\x10\x00\x1c\x00\x00";

/// Returns how many bytes a session keeps, and how many it holds memory for, after it handled the Keepalive.
fn behind_a_keepalive(alloc: Global) -> Result<[usize; 2], SessionFault> {
    let mut session = Session::new(alloc, 0)?;
    session.feed(OPEN, 0)?;
    session.next()?;
    session.feed(KEEPALIVE_AND_FRONT, 0)?;
    session.next()?;
    Ok([session.kept_bytes(), session.room_for_bytes()])
}

#[test]
fn handled_bytes_are_counted(rt: HostRuntime) -> Result<(), Fail> {
    let [kept, room] = behind_a_keepalive(rt.alloc())?;
    assert_eq!(rt; kept, 14);
    assert!(rt; room >= 14);
    Ok(())
}
