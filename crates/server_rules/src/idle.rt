//! Which client makes room for a newcomer if all places are taken.
ghost use Rattle.std.specs.Prelude.{◌≡◌, ◌<◌, length};
ghost use Rattle.server_rules.specs.Idles.{may_go, IsLongestIdle, IsWhoGoes};

/// How long a client must be idle, or a newcomer wait, before the client ends for the newcomer, in milliseconds.
pub const PATIENCE_MS: u64 = 1000;

/// Tests whether a client that has been idle since then ends for one that came then.
fn may_go(since_ms: u64, came_ms: u64, now_ms: u64) -> bool
    ensures { result ≡ may_go since_ms came_ms now_ms }
{
    since_ms <= now_ms
        && (now_ms.saturating_sub(since_ms) >= PATIENCE_MS
            || now_ms.saturating_sub(came_ms) >= PATIENCE_MS)
}

/// Returns the place of the client that has been idle longest, the first of several.
fn longest_idle(since_ms: &[u64]) -> usize
    requires { 0 < length since_ms.now }
    ensures { IsLongestIdle since_ms.now result }
{
    let mut first = 0;
    for at in 1..since_ms.len() {
        if since_ms[at] < since_ms[first] {
            first = at;
        }
    }
    first
}

/// Returns the client that ends for a newcomer which came at that moment. `since_ms` has the moment since when each
/// client is idle; for a client that is being served it is later than now. Returns `None` if nobody ends yet.
///
/// The client that has been idle longest ends as soon as it has been idle for a second, or the newcomer has waited for
/// one.
pub fn who_goes(since_ms: &[u64], came_ms: u64, now_ms: u64) -> Option<usize>
    requires { 0 < length since_ms.now }
    ensures { IsWhoGoes since_ms.now came_ms now_ms result }
{
    let first = longest_idle(since_ms);
    if may_go(since_ms[first], came_ms, now_ms) {
        Some(first)
    } else {
        None
    }
}
