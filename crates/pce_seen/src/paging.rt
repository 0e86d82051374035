//! Pages of a list.
ghost use Rattle.std.specs.Prelude.{◌≡◌, ◌<◌, ◌≤◌, length, filter, take, drop, IfSome, IfNone};
ghost use Rattle.pce_seen.specs.Grants.{least};

use crate::lsps::PAGE_LIMIT;
use keyed_list::Test;

/// Counts the items up to where the page is full and the next one starts; `None` if all are on the page.
pub(crate) fn full_at<T, R: Test<T>>(items: &[T], rule: &R) -> Option<usize>
    ensures some { IfSome result (λ size. (0 < size) × (size < length items.now)) }
    ensures full { IfSome result (λ size. length (filter (R.passes rule.now) (take size items.now)) ≡ 256) }
    ensures none { IfNone result (length (filter (R.passes rule.now) items.now) ≤ 256) }
{
    let mut count = 0;
    for (size, item) in items.iter().enumerate() {
        if count == PAGE_LIMIT {
            return Some(size);
        }
        if rule.passes(item) {
            count += 1;
        }
    }
    None
}

/// Picks the sooner of two places.
pub(crate) fn sooner(a: Option<usize>, b: Option<usize>) -> Option<usize>
    ensures { result ≡ least a b }
{
    match (a, b) {
        (Some(a), Some(b)) => Some(a.min(b)),
        (Some(a), None) => Some(a),
        (None, b) => b,
    }
}

/// Lends the items from this place on.
pub(crate) fn items_from<T>(items: &[T], from: u64) -> &[T]
    ensures { result.now ≡ drop from items.now }
{
    let from = from as usize;
    if from < items.len() {
        &items[from..]
    } else {
        &items[items.len()..]
    }
}

/// Lends the items up to this place.
pub(crate) fn items_up_to<T>(items: &[T], size: usize) -> &[T]
    ensures { result.now ≡ take size items.now }
{
    if size < items.len() {
        &items[..size]
    } else {
        items
    }
}

/// Lends the page that starts at this place: at most 256 items.
pub fn page_from<T>(items: &[T], from: u64) -> &[T]
    ensures { result.now ≡ take 256 (drop from items.now) }
{
    items_up_to(items_from(items, from), PAGE_LIMIT)
}
