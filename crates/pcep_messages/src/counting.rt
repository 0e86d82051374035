//! Which of several objects counts: the first of a class, and the greatest of bandwidths.

ghost use Rattle.std.specs.Prelude.{◌≡◌, max, Some};
ghost use Rattle.std.specs.Option.{option_or};

use pcep_word::Bandwidth;

/// Keeps the first of its class.
#[inline(always)]
pub fn keep_first<T: Drop>(first: &mut Option<T>, next: T)
    ensures { first.new ≡ option_or first.old (Some next) }
{
    if first.is_none() {
        *first = Some(next);
    }
}

pub fn greater(bandwidth: Bandwidth, other: Bandwidth) -> Bandwidth
    ensures { result ≡ max bandwidth other }
{
    if bandwidth.value() < other.value() {
        other
    } else {
        bandwidth
    }
}
