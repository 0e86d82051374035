//! What reports say.
ghost use Rattle.std.specs.Prelude.{◌≡◌};
ghost use Rattle.delegate_rules.specs.Reports.{are_zero, identifiers_of};
ghost use Rattle.path_sayings.specs.Sayings.{key_of, lsp_of, operational_of, path_event, removal, replaced_by, replaced_in, reported, rsvp_error_of, word_of};

use pcep_messages::StateReport;
use pcep_objects::Identifiers;
use pcep_word::Ipv4;
use server_rules::{Operational, PathHappening, PathKey, PathWord, RouterLsp, RsvpError};
use step_core::Event;

/// Returns the operational state that a report has.
pub fn operational_of(operational: pcep_objects::Operational) -> Operational
    ensures { result ≡ operational_of operational }
{
    match operational {
        pcep_objects::Operational::Down => Operational::Down,
        pcep_objects::Operational::Up => Operational::Up,
        pcep_objects::Operational::Active => Operational::Active,
        pcep_objects::Operational::GoingDown => Operational::GoingDown,
        pcep_objects::Operational::GoingUp => Operational::GoingUp,
    }
}

fn rsvp_error_of(error: pcep_objects::RsvpError) -> RsvpError
    ensures { result ≡ rsvp_error_of error }
{
    RsvpError {
        node: error.node.0,
        flags: error.flags,
        code: error.code,
        value: error.value,
    }
}

fn word_of(report: &StateReport) -> PathWord
    ensures { result ≡ word_of report.now }
{
    PathWord {
        operational: operational_of(report.operational),
        error_code: report.error_code,
        rsvp_error: report.rsvp_error.map(rsvp_error_of),
    }
}

/// Returns the identifiers of a report; all zero if it has none.
fn identifiers_of(report: &StateReport) -> Identifiers
    ensures { result ≡ identifiers_of report.now }
{
    match report.identifiers {
        Some(identifiers) => identifiers,
        None => Identifiers {
            sender: Ipv4(0),
            lsp: 0,
            tunnel: 0,
            extended: 0,
            endpoint: Ipv4(0),
        },
    }
}

/// Tests whether the identifiers name no path: the LSP isn't signalled, or is removed as a whole.
fn are_zero(i: Identifiers) -> bool
    ensures { result ≡ are_zero i }
{
    i.sender.0 == 0 && i.lsp == 0 && i.tunnel == 0 && i.extended == 0 && i.endpoint.0 == 0
}

fn key_of(peer: u32, report: &StateReport) -> PathKey
    ensures { result ≡ key_of peer report.now }
{
    PathKey {
        peer,
        plsp: report.plsp.number(),
        lsp: identifiers_of(report).lsp,
    }
}

/// Returns the LSP that a report is about.
pub fn lsp_of(peer: u32, report: &StateReport) -> RouterLsp
    ensures { result ≡ lsp_of peer report.now }
{
    RouterLsp {
        peer,
        plsp: report.plsp.number(),
    }
}

/// Returns what a report with flag R says: the path of its LSP-ID no longer stands, or no path of its LSP.
fn removal(peer: u32, report: &StateReport) -> PathHappening
    ensures { result ≡ removal peer report.now }
{
    if are_zero(identifiers_of(report)) {
        return PathHappening::LspRemoved {
            of: lsp_of(peer, report),
        };
    }
    PathHappening::PathRemoved {
        of: key_of(peer, report),
    }
}

fn reported(peer: u32, report: &StateReport) -> PathHappening
    ensures { result ≡ reported peer report.now }
{
    if report.remove {
        return removal(peer, report);
    }
    PathHappening::Reported {
        of: key_of(peer, report),
        word: word_of(report),
    }
}

/// Returns what an event that wasn't refused says about paths.
pub fn path_event(event: &Event) -> Option<PathHappening>
    ensures { result ≡ path_event event.now }
{
    match event {
        Event::Up { peer, .. } => Some(PathHappening::Up { peer: *peer }),
        Event::Marker { peer } => Some(PathHappening::Synchronized { peer: *peer }),
        Event::Report { peer, report } => Some(reported(*peer, report)),
        _ => None,
    }
}

fn replaced_by(peer: u32, report: &StateReport) -> Option<RouterLsp>
    ensures { result ≡ replaced_by peer report.now }
{
    if report.remove || !are_zero(identifiers_of(report)) {
        None
    } else {
        Some(lsp_of(peer, report))
    }
}

/// Returns the LSP of which no other reported path stands after an event that wasn't refused, because it was reported
/// without being signalled.
pub fn replaced_in(event: &Event) -> Option<RouterLsp>
    ensures { result ≡ replaced_in event.now }
{
    match event {
        Event::Report { peer, report } => replaced_by(*peer, report),
        _ => None,
    }
}
