//! Tests whether this process is in the foreground of its terminal. The terminal stops a background process that reads
//! (SIGTTIN).
use std::fs;
use std::fs::Files;

/// Where the system gives the process group of this process, and the foreground group of its terminal (proc(5)).
const STAT: &str = "/proc/self/stat";

/// Tests whether both groups are the same, using the fields after the program's name: state, parent, group, session,
/// terminal, and the foreground group. A text of another form doesn't count as a background.
fn says_front(stat: &str) -> bool {
    let Some((_name, fields)) = stat.rsplit_once(')') else {
        return true;
    };
    let mut fields = fields.split_whitespace();
    let own = fields.nth(2);
    let front = fields.nth(2);
    match (own, front) {
        (Some(own), Some(front)) => own == front,
        _ => true,
    }
}

/// Tests whether this process may read its terminal.
pub(crate) fn is_in_front<R: Files + AllocGlobal>(rt: &R) -> bool {
    let Ok(stat) = fs::read(rt, STAT) else {
        return true;
    };
    match str::from_utf8(&stat) {
        Ok(stat) => says_front(stat),
        Err(_) => true,
    }
}
