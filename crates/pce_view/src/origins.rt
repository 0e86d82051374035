//! By which kept steps the paths of an LSP came.
ghost use Rattle.std.specs.Prelude.{◌≡◌, ◌<◌, ◌≤◌, ◌+◌, length, map, IfOk, IfSome};
ghost use Rattle.std.specs.List.{list_any};
ghost use Rattle.history_core.specs.Histories.{last_step};
ghost use Rattle.pce_view.specs.Origins.{gives_ticket, grant_origin, grants, grants_at, is_asked_as, is_ask_for, is_booked, is_granted_as, last_grant, last_report, lsp_id_of, origin_of, reading_start, report_origin, reports, is_report_of, ticket_in, traced, was_asked, IsTraced, SeesOrigins};

use history_core::{Brief, Database, Step};
use lsp_base::{Part, Path};
use pce_seen::{LspOrigins, Origin, TracedPath, paths_of};
use pcep_objects::{Identifiers, Plsp};
use sequence::PlainData;
use std::alloc::{AllocError, Global};
use step_core::Event;

/// The greatest number of steps that are read for all paths of an LSP.
const READ_LIMIT: usize = 32_768;

/// Finds the LSP ID of a report: 0 where it has no identifiers.
fn lsp_id_of(identifiers: &Option<Identifiers>) -> u16
    ensures { result ≡ lsp_id_of identifiers.now }
{
    match identifiers {
        Some(known) => known.lsp,
        None => 0,
    }
}

fn is_booked(brief: &Brief) -> bool
    ensures { result ≡ is_booked brief.now }
{
    matches!(brief, Brief::Booked { .. })
}

/// Tests whether an event is a report of a path's LSP by its router, under this LSP ID, and no removal.
fn is_report_of(id: u16, path: &Path, event: &Event) -> bool
    ensures { result ≡ is_report_of id path.now event.now }
{
    match event {
        Event::Report { peer, report } => {
            *peer == path.peer
                && report.plsp == path.plsp
                && lsp_id_of(&report.identifiers) == id
                && !report.remove
        }
        _ => false,
    }
}

/// Tests whether a step booked such a report.
fn reports(id: u16, path: &Path, step: &Step) -> bool
    ensures { result ≡ reports id path.now step.now }
{
    is_booked(&step.brief) && is_report_of(id, path, step.event.event())
}

fn is_asked_as(ticket: u64, brief: &Brief) -> bool
    ensures { result ≡ is_asked_as ticket brief.now }
{
    match brief {
        Brief::Asked(number) => *number == ticket,
        _ => false,
    }
}

fn is_ask_for(peer: u32, event: &Event) -> bool
    ensures { result ≡ is_ask_for peer event.now }
{
    match event {
        Event::Ask { peer: asked, .. } => *asked == peer,
        _ => false,
    }
}

fn gives_ticket(peer: u32, ticket: u64, step: &Step) -> bool
    ensures { result ≡ gives_ticket peer ticket step.now }
{
    is_asked_as(ticket, &step.brief) && is_ask_for(peer, step.event.event())
}

fn is_granted_as(srp: u32, brief: &Brief) -> bool
    ensures { result ≡ is_granted_as srp brief.now }
{
    match brief {
        Brief::Granted(number) => *number == srp,
        _ => false,
    }
}

fn ticket_in(event: &Event) -> Option<u64>
    ensures { result ≡ ticket_in event.now }
{
    match event {
        Event::Commit { ticket, .. } => Some(*ticket),
        _ => None,
    }
}

/// Tests whether one of these steps gave the ticket.
fn any_gives(before: &[Step], peer: u32, ticket: u64) -> bool
    ensures { result ≡ list_any (gives_ticket peer ticket) before.now }
{
    before.iter().any(|step| gives_ticket(peer, ticket, step))
}

/// Tests whether a ticket was asked for by one of these steps, for this router.
fn was_asked(before: &[Step], peer: u32, ticket: Option<u64>) -> bool
    ensures { result ≡ was_asked before.now peer ticket }
{
    match ticket {
        Some(ticket) => any_gives(before, peer, ticket),
        None => false,
    }
}

/// Tests whether a step granted this SRP-ID to a ticket of the path's router, behind these steps.
fn grants(srp: u32, path: &Path, before: &[Step], step: &Step) -> bool
    ensures { result ≡ grants srp path.now before.now step.now }
{
    is_granted_as(srp, &step.brief) && was_asked(before, path.peer, ticket_in(step.event.event()))
}

/// Tests the same of the step at a place, behind those before it.
fn grants_at(srp: u32, path: &Path, steps: &[Step], place: usize) -> bool
    ensures { result ≡ grants_at srp path.now steps.now place }
{
    match steps.get(place) {
        Some(step) => grants(srp, path, &steps[..place], step),
        None => false,
    }
}

/// Finds the last of the steps that reported a path.
fn last_report(id: u16, path: &Path, steps: &[Step]) -> Option<usize>
    ensures place { result ≡ last_report id path.now steps.now }
    ensures within { IfSome result (λ place. place < length steps.now) }
{
    for place in (0..steps.len()).rev() {
        if reports(id, path, &steps[place]) {
            return Some(place);
        }
    }
    None
}

/// Finds the last of the steps that granted a path.
fn last_grant(srp: u32, path: &Path, steps: &[Step]) -> Option<usize>
    ensures place { result ≡ last_grant srp path.now steps.now }
    ensures within { IfSome result (λ place. place < length steps.now) }
{
    for place in (0..steps.len()).rev() {
        if grants_at(srp, path, steps, place) {
            return Some(place);
        }
    }
    None
}

/// Says by which step a path was reported.
fn report_origin(first: u64, id: u16, path: &Path, steps: &[Step]) -> Origin
    requires { first + length steps.now ≤ last_step }
    ensures { result ≡ report_origin first (last_report id path.now steps.now) }
{
    match last_report(id, path, steps) {
        Some(place) => Origin::Report {
            step: first + place as u64,
        },
        None => Origin::Unknown,
    }
}

/// Says by which step a path was granted, and to which ticket.
fn grant_origin(first: u64, srp: u32, path: &Path, steps: &[Step]) -> Origin
    requires { first + length steps.now ≤ last_step }
    ensures { result ≡ grant_origin first steps.now (last_grant srp path.now steps.now) }
{
    let Some(place) = last_grant(srp, path, steps) else {
        return Origin::Unknown;
    };
    match ticket_in(steps[place].event.event()) {
        Some(ticket) => Origin::Grant {
            step: first + place as u64,
            ticket,
        },
        None => Origin::Unknown,
    }
}

/// Says by which of these steps a path came, where the first of them has this place among all.
fn origin_of(first: u64, steps: &[Step], path: &Path) -> Origin
    requires { first + length steps.now ≤ last_step }
    ensures { result ≡ origin_of first steps.now path.now }
{
    match path.part {
        Part::Reported(id) => report_origin(first, id, path, steps),
        Part::Granted(srp) => grant_origin(first, srp, path, steps),
    }
}

/// Copies a path, and says by which of these steps it came.
fn traced(first: u64, steps: &[Step], path: &Path) -> Result<TracedPath, AllocError>
    requires { first + length steps.now ≤ last_step }
    ensures { IfOk result (λ seen. seen ≡ traced first steps.now path.now) }
{
    Ok(TracedPath {
        path: path.copy()?,
        origin: origin_of(first, steps, path),
    })
}

fn all_traced(
    alloc: Global,
    first: u64,
    steps: &[Step],
    paths: &[Path],
) -> Result<Vec<TracedPath>, AllocError>
    requires { first + length steps.now ≤ last_step }
    ensures { IfOk result (λ seen. seen.items ≡ map (traced first steps.now) paths.now) }
{
    let mut seen = Vec::new(alloc);
    for path in paths {
        seen.push(traced(first, steps, path)?)?;
    }
    Ok(seen)
}

/// Finds where, of `count` steps, those begin that are read for a number of paths.
fn reading_start(count: usize, paths: usize) -> usize
    ensures start { result ≡ reading_start count paths }
    ensures within { result ≤ count }
{
    count.saturating_sub(READ_LIMIT / paths.max(1))
}

/// Traces the paths of an LSP.
fn trace(
    alloc: Global,
    database: &Database,
    peer: u32,
    plsp: Plsp,
    paths: &[Path],
) -> Result<LspOrigins, AllocError>
    ensures { IfOk result (IsTraced peer plsp paths.now database.now) }
{
    let steps = database.history();
    let start = reading_start(steps.len(), paths.len());
    let rolled = database.rolled();
    let first = rolled + start as u64;
    let paths = all_traced(alloc, first, &steps[start..], paths)?;
    Ok(LspOrigins {
        peer,
        plsp,
        paths,
        first,
        rolled,
    })
}

/// Sees the paths of an LSP, and by which of the last kept steps each came; `None` where there is no such LSP.
pub(crate) fn see_origins(
    alloc: Global,
    database: &Database,
    peer: u32,
    plsp: Plsp,
) -> Result<Option<LspOrigins>, AllocError>
    ensures { IfOk result (SeesOrigins peer plsp database.now) }
{
    let lsps = database.state().lsps();
    if lsps.lsp(peer, plsp).is_none() {
        return Ok(None);
    }
    let paths = paths_of(alloc, lsps, peer, plsp)?;
    Ok(Some(trace(alloc, database, peer, plsp, paths.as_slice())?))
}
