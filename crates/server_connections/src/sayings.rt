//! What an accepted call says about a session, and about its router's paths and LSPs.
ghost use Rattle.std.specs.Prelude.{◌≡◌, option_copied};
ghost use Rattle.server_connections.specs.Sayings.{answer_in, answer_of, path_happening, replaced_lsp, reported_trial, session_happening, trial_event, trial_happening, trial_in};

use engine_core::{Call, Event, Reply};
use path_sayings::{operational_of, path_event, replaced_in};
use pcep_messages::StateReport;
use server_rules::{Operational, PathHappening, PauseHappening, RouterLsp, SessionHappening};

/// Returns what a call says happened to its session, at this moment in milliseconds.
pub(crate) fn session_happening(call: &Call, now_ms: u64) -> Option<SessionHappening>
    ensures { result ≡ session_happening call.now.event call.now.reply now_ms }
{
    match (call.event.event(), &call.reply) {
        (Event::Up { .. }, Reply::Done) => Some(SessionHappening::CameUp { now_ms }),
        (Event::Up { .. }, Reply::Refused(why)) => Some(SessionHappening::Refused {
            number: why.number(),
        }),
        (Event::Down { .. }, Reply::Refused(_)) => None,
        (Event::Down { .. }, _) => Some(SessionHappening::WentDown),
        _ => None,
    }
}

/// Lends the report of an event, if it answers a request.
fn answer_in(event: &Event) -> Option<&StateReport>
    ensures { option_copied result ≡ answer_in event.now }
{
    match event {
        Event::Report { report, .. } if report.srp.is_some() => Some(report),
        _ => None,
    }
}

/// Lends the report of an accepted call, if it answers a request.
pub(crate) fn answer_of(call: &Call) -> Option<&StateReport>
    ensures { option_copied result ≡ answer_of call.now.event call.now.reply }
{
    match &call.reply {
        Reply::Refused(_) => None,
        _ => answer_in(call.event.event()),
    }
}

/// Returns what a call says about paths.
pub(crate) fn path_happening(call: &Call) -> Option<PathHappening>
    ensures { result ≡ path_happening call.now.event call.now.reply }
{
    match &call.reply {
        Reply::Refused(_) => None,
        _ => path_event(call.event.event()),
    }
}

/// Returns the LSP of which no other reported path stands after a call, because it was reported without being
/// signalled.
pub(crate) fn replaced_lsp(call: &Call) -> Option<RouterLsp>
    ensures { result ≡ replaced_lsp call.now.event call.now.reply }
{
    match &call.reply {
        Reply::Refused(_) => None,
        _ => replaced_in(call.event.event()),
    }
}

fn trial_in(operational: Operational, plsp: u32, now_ms: u64) -> Option<PauseHappening>
    ensures { result ≡ trial_in operational plsp now_ms }
{
    match operational {
        Operational::Down => Some(PauseHappening::Down { plsp, now_ms }),
        Operational::Up | Operational::Active => Some(PauseHappening::CameUp),
        Operational::GoingDown | Operational::GoingUp => None,
    }
}

fn reported_trial(report: &StateReport, now_ms: u64) -> Option<PauseHappening>
    ensures { result ≡ reported_trial report.now now_ms }
{
    if report.remove {
        return None;
    }
    let plsp = report.plsp.number();
    trial_in(operational_of(report.operational), plsp, now_ms)
}

fn trial_event(event: &Event, now_ms: u64) -> Option<PauseHappening>
    ensures { result ≡ trial_event event.now now_ms }
{
    match event {
        Event::Report { report, .. } => reported_trial(report, now_ms),
        _ => None,
    }
}

/// Returns what a call says about an LSP that was granted a path, at this moment in milliseconds.
pub(crate) fn trial_happening(call: &Call, now_ms: u64) -> Option<PauseHappening>
    ensures { result ≡ trial_happening call.now.event call.now.reply now_ms }
{
    match &call.reply {
        Reply::Refused(_) => None,
        _ => trial_event(call.event.event(), now_ms),
    }
}
