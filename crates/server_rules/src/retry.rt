//! What is known about an LSP that may have to be asked for again.
ghost use Rattle.std.specs.Prelude.{◌≡◌, ◌*◌};
ghost use Rattle.server_rules.specs.Pendings.{has_passed};
ghost use Rattle.server_rules.specs.Retries.{is_candidate, seen, tried, unanswered, reported, came_up, begun_anew, changed, is_due, whom};

/// An LSP of a router, by its PLSP-ID (RFC 8231 section 7.3).
#[derive(Clone, Copy, PartialEq, Eq, Hash, Debug)]
pub struct RouterLsp {
    pub peer: u32,
    pub plsp: u32,
}

/// What a look sees of an LSP and its router.
#[derive(Clone, Copy, PartialEq, Eq, Debug)]
pub struct LspSight {
    /// A session of its router is up.
    pub router_is_up: bool,
    /// The router has reported all of its LSPs in that session (RFC 8231 section 5.6).
    pub router_in_sync: bool,
    /// The router takes updates (the U flag of RFC 8231 section 7.1.1).
    pub takes_updates: bool,
    /// The LSP is delegated to this PCE.
    pub is_delegated: bool,
    /// Each of its paths was last reported DOWN.
    pub is_down: bool,
    /// Each of its paths was last reported with A set (RFC 8231 section 7.3).
    pub is_switched_on: bool,
    /// A grant of it stands.
    pub has_grant: bool,
    /// A ticket of an update of it stands.
    pub has_ticket: bool,
    /// Its deletion is awaited.
    pub is_removing: bool,
}

/// What happens to LSPs and to their routers. Moments are in milliseconds.
#[derive(Clone, Copy, PartialEq, Eq, Debug)]
pub enum RetryHappening {
    /// A look saw it like this. It may be the first look at it since its router came in sync.
    Seen {
        of: RouterLsp,
        sight: LspSight,
        is_first: bool,
        now_ms: u64,
    },
    /// It was asked for again, or that was refused.
    Tried {
        of: RouterLsp,
        now_ms: u64,
    },
    /// Its grant ended because its router didn't answer in time.
    NoAnswer {
        of: RouterLsp,
    },
    /// Its router reported it.
    Reported {
        of: RouterLsp,
    },
    /// A path of it was reported UP or ACTIVE.
    CameUp {
        of: RouterLsp,
        now_ms: u64,
    },
    /// It no longer stands.
    Gone {
        of: RouterLsp,
    },
    /// The links were loaded again.
    Reloaded,
    /// A session of the router came up; PLSP-IDs belong to one session.
    Up {
        peer: u32,
    },
    /// The router was forgotten.
    Expired {
        peer: u32,
    },
}

/// What a happening concerns.
#[derive(Clone, Copy, PartialEq, Eq, Debug)]
pub(crate) enum Concerned {
    Lsp(RouterLsp),
    Router(u32),
    All,
}

/// What is known about an LSP.
#[derive(Clone, Copy, PartialEq, Eq, Debug)]
pub(crate) struct RetryState {
    /// Since when it has been a candidate, in milliseconds, while it is one.
    pub since_ms: Option<u64>,
    /// When it was last tried, in milliseconds, unless it has begun again since.
    pub tried_ms: Option<u64>,
    /// How many times the time of the first try it waits for its next try: 1 to 64.
    pub factor: u64,
    /// Its next try comes at once.
    pub is_at_once: bool,
    /// It was tried, and no look has seen since that the try failed or that its router has answered.
    pub is_awaited: bool,
    /// Its router didn't answer, and hasn't reported it since.
    pub is_unanswered: bool,
}

impl RetryState {
    /// What is known about an LSP that isn't known.
    pub const NOTHING: RetryState = RetryState {
        since_ms: None,
        tried_ms: None,
        factor: 1,
        is_at_once: false,
        is_awaited: false,
        is_unanswered: false,
    };
}

/// Tests whether an LSP that is seen like this should be asked for again.
fn is_candidate(sight: LspSight) -> bool
    ensures { result ≡ is_candidate sight }
{
    sight.router_is_up
        && sight.router_in_sync
        && sight.takes_updates
        && sight.is_delegated
        && sight.is_down
        && sight.is_switched_on
        && !sight.has_grant
        && !sight.has_ticket
        && !sight.is_removing
}

/// Returns what is known after a look saw the LSP like this.
fn seen(sight: LspSight, is_first: bool, now_ms: u64, state: RetryState) -> RetryState
    ensures { result ≡ seen sight is_first now_ms state }
{
    let is_candidate = is_candidate(sight);
    RetryState {
        since_ms: if is_candidate {
            Some(state.since_ms.unwrap_or(now_ms))
        } else {
            None
        },
        tried_ms: state.tried_ms,
        factor: state.factor,
        is_at_once: is_candidate && (is_first || state.is_at_once),
        is_awaited: state.is_awaited && (sight.has_ticket || sight.has_grant),
        is_unanswered: state.is_unanswered,
    }
}

/// Returns what is known after the LSP was asked for again.
fn tried(now_ms: u64, state: RetryState) -> RetryState
    ensures { result ≡ tried now_ms state }
{
    RetryState {
        since_ms: state.since_ms,
        tried_ms: Some(now_ms),
        factor: state.factor.saturating_mul(2).min(64),
        is_at_once: false,
        is_awaited: true,
        is_unanswered: state.is_unanswered,
    }
}

/// Returns what is known after its router didn't answer in time.
fn unanswered(state: RetryState) -> RetryState
    ensures { result ≡ unanswered state }
{
    RetryState {
        since_ms: state.since_ms,
        tried_ms: state.tried_ms,
        factor: state.factor,
        is_at_once: state.is_at_once,
        is_awaited: false,
        is_unanswered: true,
    }
}

/// Returns what is known after its router reported it.
fn reported(state: RetryState) -> RetryState
    ensures { result ≡ reported state }
{
    RetryState {
        since_ms: state.since_ms,
        tried_ms: state.tried_ms,
        factor: state.factor,
        is_at_once: state.is_at_once,
        is_awaited: state.is_awaited,
        is_unanswered: false,
    }
}

/// Returns what is known after a path of it came up.
fn came_up(now_ms: u64, state: RetryState) -> RetryState
    ensures { result ≡ came_up now_ms state }
{
    RetryState {
        since_ms: state.since_ms.map(|_since_ms| now_ms),
        tried_ms: None,
        factor: 1,
        is_at_once: false,
        is_awaited: state.is_awaited,
        is_unanswered: false,
    }
}

/// Returns what is known after it begins again from the start, and is due at once.
pub(crate) fn begun_anew(state: RetryState) -> RetryState
    ensures { result ≡ begun_anew state }
{
    RetryState {
        since_ms: state.since_ms,
        tried_ms: None,
        factor: 1,
        is_at_once: state.since_ms.is_some(),
        is_awaited: state.is_awaited,
        is_unanswered: state.is_unanswered,
    }
}

/// Returns what is known about an LSP after a happening that concerns it.
pub(crate) fn changed(what: RetryHappening, state: RetryState) -> RetryState
    ensures { result ≡ changed what state }
{
    match what {
        RetryHappening::Seen {
            of: _,
            sight,
            is_first,
            now_ms,
        } => seen(sight, is_first, now_ms, state),
        RetryHappening::Tried { of: _, now_ms } => tried(now_ms, state),
        RetryHappening::NoAnswer { of: _ } => unanswered(state),
        RetryHappening::Reported { of: _ } => reported(state),
        RetryHappening::CameUp { of: _, now_ms } => came_up(now_ms, state),
        RetryHappening::Reloaded => begun_anew(state),
        RetryHappening::Gone { .. } | RetryHappening::Up { .. } | RetryHappening::Expired { .. } =>
            RetryState::NOTHING,
    }
}

/// Returns what a happening concerns.
pub(crate) fn whom(what: RetryHappening) -> Concerned
    ensures { result ≡ whom what }
{
    match what {
        RetryHappening::Seen { of, .. } => Concerned::Lsp(of),
        RetryHappening::Tried { of, .. } => Concerned::Lsp(of),
        RetryHappening::NoAnswer { of } => Concerned::Lsp(of),
        RetryHappening::Reported { of } => Concerned::Lsp(of),
        RetryHappening::CameUp { of, .. } => Concerned::Lsp(of),
        RetryHappening::Gone { of } => Concerned::Lsp(of),
        RetryHappening::Reloaded => Concerned::All,
        RetryHappening::Up { peer } => Concerned::Router(peer),
        RetryHappening::Expired { peer } => Concerned::Router(peer),
    }
}

/// Tests whether this many times this time has passed since then.
fn has_passed(since_ms: u64, now_ms: u64, time_ms: u64, times: u64) -> bool
    ensures { result ≡ has_passed since_ms now_ms (time_ms * times) }
{
    match time_ms.checked_mul(times) {
        Some(all_ms) => since_ms <= now_ms && now_ms - since_ms >= all_ms,
        None => false,
    }
}

/// Tests whether an LSP about which this is known should be asked for at this moment. The first try comes after this
/// time, in milliseconds; 0: never.
pub(crate) fn is_due(state: RetryState, now_ms: u64, retry_ms: u64) -> bool
    ensures { result ≡ is_due now_ms retry_ms state }
{
    let Some(since_ms) = state.since_ms else {
        return false;
    };
    if state.is_unanswered || retry_ms == 0 {
        return false;
    }
    let begun_ms = state.tried_ms.unwrap_or(since_ms);
    state.is_at_once || has_passed(begun_ms, now_ms, retry_ms, state.factor)
}
