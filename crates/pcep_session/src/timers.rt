//! When a session's timers are due.

ghost use Rattle.std.specs.Prelude.{◌≡◌, ◌<◌, ◌^◌, ◌-◌, ◌||◌, ℕ};
ghost use Rattle.pcep_session.specs.Timers.{IsNextDue, is_reached};
ghost use Rattle.pcep_session.specs.Turns.{is_due, is_silent};

use crate::contents::Contents;
use crate::table::State;
use pcep_objects::Open;

/// Returns when a timer that was set at a moment is due. `None` if no clock shows that moment.
fn due_after(set_ms: u64, after_ms: u64) -> Option<u64>
    requires { 0 < after_ms }
    ensures { (moment_ms : ℕ) → moment_ms < 2 ^ 64 → is_reached result moment_ms ≡ is_due after_ms (moment_ms - set_ms) }
{
    set_ms.checked_add(after_ms)
}

/// Returns when a peer that was last heard at a moment is silent for its DeadTimer.
fn silent_after(peer: Option<Open>, received_ms: u64) -> Option<u64>
    ensures { (moment_ms : ℕ) → moment_ms < 2 ^ 64 → is_reached result moment_ms ≡ is_silent peer (moment_ms - received_ms) }
{
    match peer {
        Some(open) if open.dead_timer != 0 => {
            due_after(received_ms, u64::from(open.dead_timer) * 1000)
        }
        _ => None,
    }
}

/// Returns the sooner of two moments.
fn sooner(first: Option<u64>, second: Option<u64>) -> Option<u64>
    ensures { (moment_ms : ℕ) → is_reached result moment_ms ≡ (is_reached first moment_ms || is_reached second moment_ms) }
{
    match (first, second) {
        (Some(first), Some(second)) => Some(first.min(second)),
        (None, second) => second,
        (first, None) => first,
    }
}

/// Returns when the next timer is due.
pub fn next_due_ms(contents: &Contents) -> Option<u64>
    ensures { IsNextDue result contents.now }
{
    match contents.state {
        State::Closed => None,
        State::Up => {
            let silent = silent_after(contents.peer, contents.received_ms);
            sooner(silent, due_after(contents.sent_ms, 30_000))
        }
        _ => due_after(contents.received_ms, 60_000),
    }
}
