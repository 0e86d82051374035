//! For how long a grant or a deletion is unanswered.
ghost use Rattle.std.specs.Prelude.{◌≡◌};
ghost use Rattle.pce_view.specs.Unanswered.{unanswered_ms};

/// Returns for how long the grant or the deletion at a place is unanswered, in milliseconds: since it was made or last named
/// by a report. `None` if that isn't known.
pub(crate) fn unanswered_ms(now_ms: u64, since_ms: &[Option<u64>], place: usize) -> Option<u64>
    ensures { result ≡ unanswered_ms now_ms since_ms.now place }
{
    match since_ms.get(place) {
        Some(Some(since_ms)) => Some(now_ms.saturating_sub(*since_ms)),
        Some(None) | None => None,
    }
}
