//! What is known about a grant, or an awaited deletion, until its router settles it.
ghost use Rattle.std.specs.Prelude.{◌≡◌, ◌+◌, ◌||◌, Some, true, false, IfSome};
ghost use Rattle.server_rules.specs.Pendings.{has_passed, known_of, owing};

/// A grant, or an awaited deletion: its router, and the SRP-ID of its PCUpd or PCInitiate (RFC 8231 section 7.2).
#[derive(Clone, Copy, PartialEq, Eq, Hash, Debug)]
pub struct Pending {
    pub peer: u32,
    pub srp: u32,
}

/// What happens to grants, to awaited deletions, and to their routers. Moments are in milliseconds.
#[derive(Clone, Copy, PartialEq, Eq, Debug)]
pub enum PendingHappening {
    /// It was made, in the latest session of its router.
    Made { of: Pending, now_ms: u64 },
    /// A report named its SRP-ID, and it still stands.
    Named { of: Pending, now_ms: u64 },
    /// A path that its router reported covers it.
    Covered { of: Pending },
    /// No path that its router reported covers it any more.
    Uncovered { of: Pending },
    /// It no longer stands.
    Gone { of: Pending },
    /// A session of the router came up.
    Up { peer: u32 },
    /// The router's session went down.
    Down { peer: u32 },
    /// The router has reported all of its LSPs in this session (RFC 8231 section 5.6).
    SyncEnded { peer: u32 },
    /// The router was forgotten, with all that it was granted.
    Expired { peer: u32 },
}

/// Why a grant, or an awaited deletion, should end.
#[derive(Clone, Copy, PartialEq, Eq, Debug)]
pub enum PendingEnd {
    /// A reported path covers it.
    Covered,
    /// It was made in an earlier session, and its router has reported all of its LSPs in a later one.
    EarlierSession,
    /// Its router has not answered in time.
    NoAnswer,
}

/// What is known about a router.
#[derive(Clone, Copy, PartialEq, Eq, Debug)]
pub(crate) struct RouterKnown {
    /// How many of its sessions came up.
    pub sessions: u64,
    /// The latest of them is up.
    pub is_up: bool,
    /// The router has reported all of its LSPs in the latest of them.
    pub in_sync: bool,
}

impl RouterKnown {
    /// What is known about a router that never came.
    pub const NOTHING: RouterKnown = RouterKnown {
        sessions: 0,
        is_up: false,
        in_sync: false,
    };
}

/// What is known about what is pending.
#[derive(Clone, Copy, PartialEq, Eq, Debug)]
pub(crate) struct PendingState {
    /// When it was made or last named, in milliseconds.
    pub since_ms: u64,
    /// How many of its router's sessions had come up when it was made.
    pub session: u64,
    /// A reported path covers it.
    pub is_covered: bool,
}

/// Returns what is known after a session of the router came up, if it can be counted.
pub(crate) fn risen(router: RouterKnown) -> Option<RouterKnown>
    ensures { IfSome result (λ new. new ≡ record { sessions = router.sessions + 1; is_up = true; in_sync = false }) }
{
    Some(RouterKnown {
        sessions: router.sessions.checked_add(1)?,
        is_up: true,
        in_sync: false,
    })
}

/// Returns what is known about what is made in the latest session of this router.
pub(crate) fn made_at(now_ms: u64, router: RouterKnown) -> PendingState
    ensures { result ≡ record { since_ms = now_ms; session = router.sessions; is_covered = false } }
{
    PendingState {
        since_ms: now_ms,
        session: router.sessions,
        is_covered: false,
    }
}

/// Returns what is known after the router's session went down.
pub(crate) fn downed(router: RouterKnown) -> RouterKnown
    ensures { result ≡ record router { is_up = false } }
{
    RouterKnown {
        sessions: router.sessions,
        is_up: false,
        in_sync: router.in_sync,
    }
}

/// Returns what is known after the router has reported all of its LSPs, if its session is up.
pub(crate) fn synchronized(router: RouterKnown) -> RouterKnown
    ensures { result ≡ record router { in_sync = router.is_up || router.in_sync } }
{
    RouterKnown {
        sessions: router.sessions,
        is_up: router.is_up,
        in_sync: router.is_up || router.in_sync,
    }
}

/// Returns what is known after a report named its SRP-ID.
pub(crate) fn named(now_ms: u64, state: PendingState) -> PendingState
    ensures { result ≡ record state { since_ms = now_ms } }
{
    PendingState {
        since_ms: now_ms,
        session: state.session,
        is_covered: state.is_covered,
    }
}

/// Returns what is known after a reported path covers it, or no longer covers it.
pub(crate) fn covered(is_covered: bool, state: PendingState) -> PendingState
    ensures { result ≡ record state { is_covered = is_covered } }
{
    PendingState {
        since_ms: state.since_ms,
        session: state.session,
        is_covered,
    }
}

/// Tests whether this time has passed since then.
pub(crate) fn has_passed(since_ms: u64, now_ms: u64, time_ms: u64) -> bool
    ensures { result ≡ has_passed since_ms now_ms time_ms }
{
    since_ms <= now_ms && now_ms - since_ms >= time_ms
}

/// Returns why what is pending should end at this moment, if it should. A router has this time to answer, in
/// milliseconds; 0: for ever.
pub(crate) fn end_of(
    router: RouterKnown,
    state: PendingState,
    now_ms: u64,
    answer_ms: u64,
) -> Option<PendingEnd>
    ensures { result ≡ owing now_ms answer_ms (known_of router (Some state)) }
{
    if state.is_covered {
        return Some(PendingEnd::Covered);
    }
    if state.session != router.sessions && router.in_sync {
        return Some(PendingEnd::EarlierSession);
    }
    if router.is_up && answer_ms > 0 && has_passed(state.since_ms, now_ms, answer_ms) {
        return Some(PendingEnd::NoAnswer);
    }
    None
}
