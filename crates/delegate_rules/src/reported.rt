//! The path and the record of a report with R clear, and its effect.
ghost use Rattle.std.specs.Prelude.{◌≡◌, ◌∷◌, ◌||◌, IfOk, unwrap_or, option_copied};
ghost use Rattle.delegate_rules.specs.Reports.{links_of, reported_path, reported_constraints, reported_lsp, old_source, old_destination, old_name, old_removing};
ghost use Rattle.delegate_rules.specs.Grants.{moved_grants};
ghost use Rattle.delegate_rules.specs.Effects.{is_nil, is_unsignalled, is_replaced_part, is_replaced, goes_by_report, wants_path, one_record, report_effect_by};

use crate::grants::{grants_moved, meets_grant};
use crate::identity::{are_all_zero, identifiers, means_down, report_tunnel};
use keyed_list::Test;
use lsp_base::{
    Constraints, Effect, Lsp, LspBase, OtherBounds, Part, Path, RecordChange, Tunnel,
    is_path_of_lsp,
};
use pcep_messages::StateReport;
use pcep_objects::{MetricType, Plsp};
use pcep_word::Ipv4;
use sequence::{PlainData, Sequence};
use std::alloc::{AllocError, Global};
use te_base::{LinkNumber, TeBase};

/// Lists the links of the path that a report describes. There are none if it is down. Otherwise they are the walk of
/// its RRO, or of its ERO if it has no RRO, from the sender to the endpoint of its identifiers (RFC 8231 section 6.1,
/// RFC 3209 section 4.4).
pub fn report_links(
    alloc: Global,
    te: &TeBase,
    report: &StateReport,
) -> Result<Vec<LinkNumber>, AllocError>
    ensures { IfOk result (λ links. links.items ≡ links_of te.now report.now) }
{
    if means_down(report.operational) {
        return Ok(Vec::new(alloc));
    }
    let i = identifiers(report);
    let hops = match &report.rro {
        Some(hops) => hops.as_slice(),
        None => report.ero.as_slice(),
    };
    te.walk(alloc, i.sender, hops, i.endpoint)
}

#[tactic(auto, unfolding(crate::specs::Reports::reported_path))]
fn path_of_report(
    alloc: Global,
    te: &TeBase,
    peer: u32,
    report: &StateReport,
) -> Result<Path, AllocError>
    ensures { IfOk result (λ path. path ≡ reported_path te.now peer report.now) }
{
    let links = report_links(alloc, te, report)?;
    Ok(Path {
        peer,
        plsp: report.plsp,
        part: Part::Reported(identifiers(report).lsp),
        tunnel: report_tunnel(peer, report),
        hold: report.priorities.hold(),
        bandwidth: report.bandwidth,
        links: Sequence::from_vec(links),
        fresh: true,
    })
}

fn source_of(old: Option<&Lsp>) -> Option<Ipv4>
    ensures { result ≡ old_source (option_copied old.entry) }
{
    match old {
        Some(lsp) => lsp.constraints.source,
        None => None,
    }
}

fn destination_of(old: Option<&Lsp>) -> Option<Ipv4>
    ensures { result ≡ old_destination (option_copied old.entry) }
{
    match old {
        Some(lsp) => lsp.constraints.destination,
        None => None,
    }
}

fn removing_of(old: Option<&Lsp>) -> Option<u32>
    ensures { result ≡ old_removing (option_copied old.entry) }
{
    match old {
        Some(lsp) => lsp.removing,
        None => None,
    }
}

#[tactic(auto, unfolding(crate::specs::Reports::reported_constraints))]
fn constraints_of_report(report: &StateReport, old: Option<&Lsp>) -> Constraints
    ensures { result ≡ reported_constraints report.now (option_copied old.entry) }
{
    let i = identifiers(report);
    let zero = are_all_zero(i);
    Constraints {
        source: if zero { source_of(old) } else { Some(i.sender) },
        destination: if zero {
            destination_of(old)
        } else {
            Some(i.endpoint)
        },
        bandwidth: report.bandwidth,
        priorities: report.priorities,
        colours: report.colours,
        minimise: MetricType::Te,
        bound: None,
        hop_bound: None,
        other_bounds: OtherBounds {
            igp: None,
            te: None,
        },
        local_protection: report.local_protection,
    }
}

fn name_of_report(
    alloc: Global,
    report: &StateReport,
    old: Option<&Lsp>,
) -> Result<Sequence<u8>, AllocError>
    ensures { IfOk result (λ name. name ≡ unwrap_or report.now.name (old_name (option_copied old.entry))) }
{
    match &report.name {
        Some(name) => name.copy(),
        None => match old {
            Some(lsp) => lsp.name.copy(),
            None => Ok(Sequence::from_vec(Vec::new(alloc))),
        },
    }
}

#[tactic(auto, unfolding(crate::specs::Reports::reported_lsp))]
fn lsp_of_report(
    alloc: Global,
    peer: u32,
    report: &StateReport,
    old: Option<&Lsp>,
) -> Result<Lsp, AllocError>
    ensures { IfOk result (λ lsp. lsp ≡ reported_lsp peer report.now (option_copied old.entry)) }
{
    let name = name_of_report(alloc, report, old)?;
    Ok(Lsp {
        name,
        delegated: report.delegate,
        created: report.created,
        constraints: constraints_of_report(report, old),
        tunnel: report_tunnel(peer, report),
        removing: removing_of(old),
    })
}

fn replaces_part(zero: bool, lsp: u16, path: &Path) -> bool
    ensures { result ≡ is_replaced_part zero lsp path.now.tunnel path.now.part }
{
    match path.part {
        Part::Granted(_) => false,
        Part::Reported(other) => {
            zero || other == lsp || matches!(path.tunnel, Tunnel::Unsignalled { .. })
        }
    }
}

fn replaces(peer: u32, report: &StateReport, path: &Path) -> bool
    ensures { result ≡ is_replaced peer report.now path.now }
{
    let i = identifiers(report);
    let lsp = i.lsp;
    let zero = are_all_zero(i);
    is_path_of_lsp(path, peer, report.plsp) && replaces_part(zero, lsp, path)
}

/// Tests whether a path goes by a report with R clear.
#[derive(Drop)]
struct GoesByReport<'a> {
    granted: bool,
    peer: u32,
    report: &'a StateReport,
}

impl<'a> Test<Path> for GoesByReport<'a> {
    ghost use Rattle.delegate_rules.specs.Effects.{goes_by_report};

    ghost passes = { λ s x. goes_by_report s.granted s.peer s.report.now x };

    fn passes(&self, path: &Path) -> bool {
        replaces(self.peer, self.report, path)
            || meets_grant(self.granted, self.peer, self.report, path)
    }
}

pub fn has_no_path(paths: &[Path]) -> bool
    ensures { result ≡ is_nil paths.now }
{
    match paths {
        [] => true,
        [_, ..] => false,
    }
}

fn waits_for_path(report: &StateReport, grants: &[Path], old: Option<&Lsp>) -> bool
    ensures { result ≡ wants_path report.now grants.now (option_copied old.entry) }
{
    report.delegate
        && means_down(report.operational)
        && report.ero.as_slice().is_empty()
        && has_no_path(grants)
        && removing_of(old).is_none()
}

fn path_and_grants(
    alloc: Global,
    path: Path,
    mut grants: Vec<Path>,
) -> Result<Vec<Path>, AllocError>
    ensures { IfOk result (λ added. added.items ≡ path ∷ grants.items) }
{
    let mut added = Vec::new(alloc);
    added.push(path)?;
    added.append(&mut grants)?;
    Ok(added)
}

pub fn record_of(alloc: Global, plsp: Plsp, lsp: Lsp) -> Result<Vec<RecordChange>, AllocError>
    ensures { IfOk result (λ changes. changes.items ≡ one_record plsp lsp) }
{
    let mut changes = Vec::new(alloc);
    changes.push(RecordChange {
        plsp,
        lsp: Some(lsp),
    })?;
    Ok(changes)
}

/// Computes what a report with R clear does, given whether the LSP has a grant and what was known of it.
#[tactic(auto, unfolding(crate::specs::Effects::report_effect_by))]
pub fn effect_of_report(
    alloc: Global,
    granted: bool,
    old: Option<&Lsp>,
    base: &LspBase,
    te: &TeBase,
    peer: u32,
    report: &StateReport,
) -> Result<Effect, AllocError>
    ensures { IfOk result (λ effect. effect
        ≡ report_effect_by granted (option_copied old.entry) base.now.content.paths te.now peer report.now) }
{
    let goes = GoesByReport {
        granted,
        peer,
        report,
    };
    let dropped = base.paths_of_lsp(alloc, peer, report.plsp, &goes)?;
    let grants = grants_moved(alloc, base, granted, peer, report)?;
    let wants_path = waits_for_path(report, grants.as_slice(), old);
    let path = path_of_report(alloc, te, peer, report)?;
    let added = path_and_grants(alloc, path, grants)?;
    let lsp = lsp_of_report(alloc, peer, report, old)?;
    let records = record_of(alloc, report.plsp, lsp)?;
    Ok(Effect::new(dropped, added, records, wants_path))
}
