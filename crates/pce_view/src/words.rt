//! Words for what is seen.
ghost use Rattle.std.specs.Prelude.{◌≡◌, option_map};
ghost use Rattle.pce_view.specs.Words.{cost_in, cost_of_path, event_word, is_found, link_in, links_in, links_of_path, lsp_error_word, obstacle_of, obstacle_word, operational_word, origin_step, origin_ticket, origin_word, purpose_plsp, purpose_request, purpose_word, state_word};

use crate::states::LspState;
use commit_core::Purpose;
use path_looks::{Found, LinkRoom, Obstacle, PathAnswer};
use pce_seen::{EventKind, Origin};
use server_rules::Operational;
use te_base::LinkNumber;

/// Says what a ticket asks a path for.
pub(crate) fn purpose_word(purpose: &Purpose) -> &'static str
    ensures { result.now ≡ purpose_word purpose.now }
{
    match purpose {
        Purpose::Update { .. } => "update",
        Purpose::Initiate { .. } => "initiate",
        Purpose::Answer { .. } => "answer",
    }
}

/// Returns the PLSP-ID of the LSP that a path is asked for.
pub(crate) fn purpose_plsp(purpose: &Purpose) -> Option<u64>
    ensures { result ≡ purpose_plsp purpose.now }
{
    match purpose {
        Purpose::Update { plsp } => Some(plsp.number() as u64),
        Purpose::Initiate { .. } => None,
        Purpose::Answer {
            plsp: Some(plsp),
            ..
        } => Some(plsp.number() as u64),
        Purpose::Answer { plsp: None, .. } => None,
    }
}

/// Returns the Request-ID of the request that a path answers.
pub(crate) fn purpose_request(purpose: &Purpose) -> Option<u64>
    ensures { result ≡ purpose_request purpose.now }
{
    match purpose {
        Purpose::Answer { request, .. } => Some(*request as u64),
        Purpose::Update { .. } | Purpose::Initiate { .. } => None,
    }
}

/// Names a kind of event.
pub fn event_word(event: EventKind) -> &'static str
    ensures { result.now ≡ event_word event }
{
    match event {
        EventKind::Up => "up",
        EventKind::Report => "report",
        EventKind::Marker => "marker",
        EventKind::Down => "down",
        EventKind::Expire => "expire",
        EventKind::Ask => "ask",
        EventKind::Take => "take",
        EventKind::Commit => "commit",
        EventKind::Drain => "drain",
        EventKind::Refused => "refused",
        EventKind::Return => "return",
        EventKind::Delete => "delete",
        EventKind::Reload => "reload",
    }
}

/// Names an obstacle.
pub(crate) fn obstacle_word(by: Obstacle) -> &'static str
    ensures { result.now ≡ obstacle_word by }
{
    match by {
        Obstacle::Bandwidth => "bandwidth",
        Obstacle::Colours => "colours",
        Obstacle::Bounds => "bounds",
        Obstacle::Several => "several",
    }
}

/// Tests whether there is a path.
pub(crate) fn is_found(answer: &PathAnswer) -> bool
    ensures { result ≡ is_found answer.now }
{
    match answer {
        PathAnswer::Path(_) => true,
        PathAnswer::Blocked { .. } | PathAnswer::NoWay => false,
    }
}

/// Returns what stands in the way of a path.
pub(crate) fn obstacle_of(answer: &PathAnswer) -> Option<Obstacle>
    ensures { result ≡ obstacle_of answer.now }
{
    match answer {
        PathAnswer::Blocked { by, .. } => Some(*by),
        PathAnswer::Path(_) | PathAnswer::NoWay => None,
    }
}

/// Returns the cost of the path, or of the one that there is without the obstacle.
pub(crate) fn cost_in(answer: &PathAnswer) -> Option<u64>
    ensures { result ≡ cost_in answer.now }
{
    match answer {
        PathAnswer::Path(found) | PathAnswer::Blocked { path: found, .. } => Some(found.cost),
        PathAnswer::NoWay => None,
    }
}

/// Returns the links of the path, or of the one that there is without the obstacle.
pub(crate) fn links_in(answer: &PathAnswer) -> &[LinkNumber]
    ensures { result.now ≡ links_in answer.now }
{
    match answer {
        PathAnswer::Path(found) | PathAnswer::Blocked { path: found, .. } => {
            found.links.as_slice()
        }
        PathAnswer::NoWay => &[],
    }
}

/// Returns the link that has a number.
pub(crate) fn link_in(room: &Option<LinkRoom>) -> Option<u64>
    ensures { result ≡ link_in room.now }
{
    match room {
        Some(room) => Some(room.link as u64),
        None => None,
    }
}

/// Names by what a path came.
pub(crate) fn origin_word(origin: Origin) -> Option<&'static str>
    ensures { option_map (λ word. word.now) result ≡ origin_word origin }
{
    match origin {
        Origin::Report { .. } => Some("report"),
        Origin::Grant { .. } => Some("grant"),
        Origin::Unknown => None,
    }
}

/// Returns the place of the step by which a path came.
pub(crate) fn origin_step(origin: Origin) -> Option<u64>
    ensures { result ≡ origin_step origin }
{
    match origin {
        Origin::Report { step } | Origin::Grant { step, .. } => Some(step),
        Origin::Unknown => None,
    }
}

/// Returns the ticket to which a path was granted.
pub(crate) fn origin_ticket(origin: Origin) -> Option<u64>
    ensures { result ≡ origin_ticket origin }
{
    match origin {
        Origin::Grant { ticket, .. } => Some(ticket),
        Origin::Report { .. } | Origin::Unknown => None,
    }
}

/// Returns the cost of a path, if there is one.
pub(crate) fn cost_of_path(path: &Option<Found>) -> Option<u64>
    ensures { result ≡ cost_of_path path.now }
{
    match path {
        Some(found) => Some(found.cost),
        None => None,
    }
}

/// Returns the links of a path, and none if there is no path.
pub(crate) fn links_of_path(path: &Option<Found>) -> &[LinkNumber]
    ensures { result.now ≡ links_of_path path.now }
{
    match path {
        Some(found) => found.links.as_slice(),
        None => &[],
    }
}

/// Names the state in which an LSP is shown.
pub fn state_word(state: LspState) -> Option<&'static str>
    ensures { option_map (λ word. word.now) result ≡ state_word state }
{
    match state {
        LspState::Active => Some("active"),
        LspState::Up => Some("up"),
        LspState::GoingUp => Some("going up"),
        LspState::GoingDown => Some("going down"),
        LspState::Down => Some("down"),
        LspState::Unplaced => Some("unplaced"),
        LspState::Unknown => None,
    }
}

/// Names the state in which a router reports a path (RFC 8231 section 7.3).
pub(crate) fn operational_word(operational: Operational) -> &'static str
    ensures { result.now ≡ operational_word operational }
{
    match operational {
        Operational::Active => "active",
        Operational::Up => "up",
        Operational::GoingUp => "going up",
        Operational::GoingDown => "going down",
        Operational::Down => "down",
    }
}

/// Says what an LSP-ERROR-CODE means (RFC 8231 section 7.3.3).
pub(crate) fn lsp_error_word(code: u64) -> &'static str
    ensures { result.now ≡ lsp_error_word code }
{
    match code {
        1 => "unknown reason",
        2 => "limit reached for PCE-controlled LSPs",
        3 => "too many pending LSP update requests",
        4 => "unacceptable parameters",
        5 => "internal error",
        6 => "LSP administratively brought down",
        7 => "LSP preempted",
        8 => "RSVP signaling error",
        _ => "unassigned error code",
    }
}
