//! What a router's latest report says about a path and the state doesn't keep.
ghost use Rattle.std.specs.Prelude.{◌≡◌, ◌||◌, not, false, is_some, Some, unwrap_or, if◌then◌else◌};
ghost use Rattle.server_rules.specs.PathWords.{better_of, changed, concerns, rank};

use crate::retry::RouterLsp;

/// The operational state of a path (the O field of RFC 8231 section 7.3).
#[derive(Clone, Copy, PartialEq, Eq, Debug)]
pub enum Operational {
    Down,
    Up,
    Active,
    GoingDown,
    GoingUp,
}

/// Why RSVP could not set a path up (the ERROR_SPEC object of RFC 2205 appendix A.5).
#[derive(Clone, Copy, PartialEq, Eq, Debug)]
pub struct RsvpError {
    /// The IPv4 address of the node that found the error.
    pub node: u32,
    pub flags: u8,
    pub code: u8,
    pub value: u16,
}

/// What a report says about a path.
#[derive(Clone, Copy, PartialEq, Eq, Debug)]
pub struct PathWord {
    pub operational: Operational,
    /// The LSP-ERROR-CODE (RFC 8231 section 7.3.3).
    pub error_code: Option<u32>,
    /// The RSVP-ERROR-SPEC (RFC 8231 section 7.3.4).
    pub rsvp_error: Option<RsvpError>,
}

/// A path: its router, its LSP's PLSP-ID and its own LSP-ID (RFC 8231 section 7.3).
#[derive(Clone, Copy, PartialEq, Eq, Hash, Debug)]
pub struct PathKey {
    pub peer: u32,
    pub plsp: u32,
    pub lsp: u16,
}

/// What happens to paths, to their LSPs and to their routers.
#[derive(Clone, Copy, PartialEq, Eq, Debug)]
pub enum PathHappening {
    /// The router reported the path.
    Reported { of: PathKey, word: PathWord },
    /// The path no longer stands.
    PathRemoved { of: PathKey },
    /// The LSP no longer stands.
    LspRemoved { of: RouterLsp },
    /// A session of the router came up.
    Up { peer: u32 },
    /// The router has reported all of its LSPs in this session (RFC 8231 section 5.6).
    Synchronized { peer: u32 },
    /// The router was forgotten.
    Expired { peer: u32 },
}

/// What is noted about a path.
#[derive(Clone, Copy, PartialEq, Eq, Debug)]
pub(crate) struct PathNoted {
    pub word: PathWord,
    /// It was reported since its router's latest session came up.
    pub is_current: bool,
}

/// Returns the rank of a state; the best is 4.
fn rank(operational: Operational) -> u8
    ensures { result ≡ rank operational }
{
    match operational {
        Operational::Active => 4,
        Operational::Up => 3,
        Operational::GoingUp => 2,
        Operational::GoingDown => 1,
        Operational::Down => 0,
    }
}

/// Returns the better of two states, in the order active, up, going up, going down, down.
pub fn better_of(a: Operational, b: Operational) -> Operational
    ensures { result ≡ better_of a b }
{
    if rank(a) >= rank(b) { a } else { b }
}

/// Tests whether a happening concerns the path.
pub(crate) fn concerns(what: PathHappening, path: PathKey) -> bool
    ensures { result ≡ concerns what path }
{
    match what {
        PathHappening::Reported { of, .. } => of == path,
        PathHappening::PathRemoved { of } => of == path,
        PathHappening::LspRemoved { of } => of.peer == path.peer && of.plsp == path.plsp,
        PathHappening::Up { peer } => peer == path.peer,
        PathHappening::Synchronized { peer } => peer == path.peer,
        PathHappening::Expired { peer } => peer == path.peer,
    }
}

/// Returns the note of a path that was reported before its router's latest session came up.
fn aged(noted: PathNoted) -> PathNoted
    ensures { result ≡ record noted { is_current = false } }
{
    PathNoted {
        word: noted.word,
        is_current: false,
    }
}

/// Returns what is noted about a path after a happening that concerns it.
pub(crate) fn changed(what: PathHappening, noted: Option<PathNoted>) -> Option<PathNoted>
    ensures { result ≡ changed what noted }
{
    match what {
        PathHappening::Reported { of: _, word } => Some(PathNoted {
            word,
            is_current: true,
        }),
        PathHappening::Up { peer: _ } => noted.map(aged),
        PathHappening::Synchronized { peer: _ } => match noted {
            Some(noted) if noted.is_current => Some(noted),
            _ => None,
        },
        PathHappening::PathRemoved { .. }
        | PathHappening::LspRemoved { .. }
        | PathHappening::Expired { .. } => None,
    }
}

/// Tests whether the note of a path stays after this happened.
pub(crate) fn stays(what: PathHappening, path: PathKey, noted: PathNoted) -> bool
    ensures { result ≡ (not (concerns what path) || is_some (changed what (Some noted))) }
{
    !concerns(what, path) || changed(what, Some(noted)).is_some()
}

/// Returns the note of a path after this happened, if it stays.
pub(crate) fn turned(what: PathHappening, path: PathKey, noted: PathNoted) -> PathNoted
    ensures { result ≡ (if concerns what path then unwrap_or (changed what (Some noted)) noted else noted) }
{
    if concerns(what, path) {
        changed(what, Some(noted)).unwrap_or(noted)
    } else {
        noted
    }
}
