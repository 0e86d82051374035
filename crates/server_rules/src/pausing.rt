//! How long reading from a connection pauses, and what was noted about an LSP that may cause that.
ghost use Rattle.std.specs.Prelude.{◌≡◌, ◌≤◌, ◌-◌, not};
ghost use Rattle.server_rules.specs.Pendings.{has_passed};
ghost use Rattle.server_rules.specs.Pauses.{is_recent, granted, failed, fails_again, is_line_due, paused, ended, wait_ms};

use crate::pending::has_passed;

/// The time within which an LSP must fail twice, in milliseconds.
const WITHIN_MS: u64 = 10_000;

/// The first pause, in milliseconds.
const FIRST_MS: u64 = 100;

/// The longest pause, in milliseconds.
const LONGEST_MS: u64 = 5_000;

/// The time after which pauses start again from the first, and the time between two lines, in milliseconds.
const CALM_MS: u64 = 60_000;

/// What happens to the LSPs of a connection's router. Moments are in milliseconds.
#[derive(Clone, Copy, PartialEq, Eq, Debug)]
pub enum PauseHappening {
    /// The LSP was granted a path.
    Granted { plsp: u32, now_ms: u64 },
    /// It was reported DOWN.
    Down { plsp: u32, now_ms: u64 },
    /// An LSP of the router was reported UP or ACTIVE.
    CameUp,
}

/// What was noted about an LSP.
#[derive(Clone, Copy, PartialEq, Eq, Debug)]
pub(crate) struct Trial {
    pub plsp: u32,
    /// When that was, in milliseconds.
    pub at_ms: u64,
    /// It was granted a path, and hasn't been reported DOWN since.
    pub is_granted: bool,
    /// When it was last reported DOWN after a grant, in milliseconds.
    pub failed_ms: Option<u64>,
}

/// The pauses of a connection.
#[derive(Clone, Copy, PartialEq, Eq, Debug)]
pub(crate) struct Pausing {
    /// How long the latest pause is, in milliseconds; 0 if reading doesn't pause.
    pub pause_ms: u64,
    /// When it began, in milliseconds.
    pub since_ms: u64,
    /// When a line last said so, in milliseconds.
    pub line_ms: Option<u64>,
}

impl Pausing {
    /// The pauses of a connection whose reading has never paused.
    pub const NEVER: Pausing = Pausing {
        pause_ms: 0,
        since_ms: 0,
        line_ms: None,
    };
}

/// Tests whether less than ten seconds have passed since then.
fn is_within(since_ms: u64, now_ms: u64) -> bool
    ensures { result ≡ not (has_passed since_ms now_ms 10000) }
{
    !has_passed(since_ms, now_ms, WITHIN_MS)
}

/// Tests whether what was noted about an LSP still counts.
pub(crate) fn is_recent(trial: Trial, now_ms: u64) -> bool
    ensures { result ≡ is_recent now_ms trial }
{
    is_within(trial.at_ms, now_ms)
}

/// Returns the note of an LSP that was granted a path.
pub(crate) fn granted(plsp: u32, now_ms: u64, trial: Option<Trial>) -> Trial
    ensures { result ≡ granted plsp now_ms trial }
{
    Trial {
        plsp,
        at_ms: now_ms,
        is_granted: true,
        failed_ms: match trial {
            Some(trial) => trial.failed_ms,
            None => None,
        },
    }
}

/// Returns the note of an LSP that was granted a path and then reported DOWN.
pub(crate) fn failed(plsp: u32, now_ms: u64) -> Trial
    ensures { result ≡ failed plsp now_ms }
{
    Trial {
        plsp,
        at_ms: now_ms,
        is_granted: false,
        failed_ms: Some(now_ms),
    }
}

/// Tests whether the LSP failed within the ten seconds before this moment.
pub(crate) fn fails_again(trial: Trial, now_ms: u64) -> bool
    ensures { result ≡ fails_again now_ms trial }
{
    match trial.failed_ms {
        Some(failed_ms) => is_within(failed_ms, now_ms),
        None => false,
    }
}

/// Tests whether a line may say now that reading pauses.
pub(crate) fn is_line_due(pausing: Pausing, now_ms: u64) -> bool
    ensures { result ≡ is_line_due now_ms pausing }
{
    match pausing.line_ms {
        Some(line_ms) => has_passed(line_ms, now_ms, CALM_MS),
        None => true,
    }
}

/// Begins a pause.
pub(crate) fn paused(pausing: Pausing, now_ms: u64) -> Pausing
    ensures { result ≡ paused now_ms pausing }
{
    let is_first = pausing.pause_ms == 0 || has_passed(pausing.since_ms, now_ms, CALM_MS);
    Pausing {
        pause_ms: if is_first {
            FIRST_MS
        } else {
            pausing.pause_ms.saturating_mul(2).min(LONGEST_MS)
        },
        since_ms: now_ms,
        line_ms: if is_line_due(pausing, now_ms) {
            Some(now_ms)
        } else {
            pausing.line_ms
        },
    }
}

/// Ends the pauses.
pub(crate) fn ended(pausing: Pausing) -> Pausing
    ensures { result ≡ ended pausing }
{
    Pausing {
        pause_ms: 0,
        since_ms: pausing.since_ms,
        line_ms: pausing.line_ms,
    }
}

/// Returns how long reading must still wait at this moment, in milliseconds, given the moment at which the peer's
/// DeadTimer is due.
pub(crate) fn wait_ms(pausing: Pausing, now_ms: u64, dead_ms: Option<u64>) -> u64
    ensures { result ≡ wait_ms now_ms dead_ms pausing }
{
    let wait_ms = pausing
        .pause_ms
        .saturating_sub(now_ms.saturating_sub(pausing.since_ms));
    match dead_ms {
        Some(dead_ms) => wait_ms.min(dead_ms.saturating_sub(now_ms)),
        None => wait_ms,
    }
}
