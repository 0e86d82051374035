//! How long ago a step was taken.
ghost use Rattle.std.specs.Prelude.{◌≡◌};
ghost use Rattle.pce_view.specs.Why.{age_of, least_ms, most_ms};

use server_counts::{Mark, mark_before, mark_behind};

/// How long ago a step was taken, in milliseconds: at least, and at most as far as it is known.
#[derive(Clone, Copy)]
pub(crate) struct Age {
    pub least_ms: Option<u64>,
    pub most_ms: Option<u64>,
}

/// Returns how long ago a step was taken at least: it was taken before the first mark that counts it. If none does, it may
/// have been taken just now.
fn least_ms(now_ms: u64, mark: Option<Mark>) -> u64
    ensures { result ≡ least_ms now_ms mark }
{
    match mark {
        Some(mark) => now_ms.saturating_sub(mark.from_ms),
        None => 0,
    }
}

/// Returns how long ago a step was taken at most: it was taken after the last mark that doesn't count it.
fn most_ms(now_ms: u64, mark: Option<Mark>) -> Option<u64>
    ensures { result ≡ most_ms now_ms mark }
{
    match mark {
        Some(mark) => Some(now_ms.saturating_sub(mark.to_ms)),
        None => None,
    }
}

/// Finds how long ago a step was taken.
pub(crate) fn age_of(now_ms: u64, marks: &[Mark], step: Option<u64>) -> Age
    ensures { result ≡ age_of now_ms marks.now step }
{
    let Some(step) = step else {
        return Age {
            least_ms: None,
            most_ms: None,
        };
    };
    Age {
        least_ms: Some(least_ms(now_ms, mark_behind(marks, step))),
        most_ms: most_ms(now_ms, mark_before(marks, step)),
    }
}
