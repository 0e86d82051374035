//! The effect of a removal: a report with R set.
ghost use Rattle.std.specs.Prelude.{◌≡◌, ◌==◌, ◌&&◌, ◌||◌, IfOk};
ghost use Rattle.delegate_rules.specs.Grants.{is_grant_met, is_grant_settled};
ghost use Rattle.delegate_rules.specs.Effects.{is_reported_as, is_removed, goes_by_removal, bound_grants, records_left, removal_effect_by};

use crate::grants::{grants_bound, meets_grant, settles_grant};
use crate::identity::{are_all_zero, identifiers};
use crate::reported::has_no_path;
use keyed_list::Test;
use lsp_base::{Effect, LspBase, Part, Path, RecordChange, ended_record, is_path_of_lsp};
use pcep_messages::StateReport;
use pcep_objects::Plsp;
use std::alloc::{AllocError, Global};

fn is_reported_as(lsp: u16, path: &Path) -> bool
    ensures { result ≡ is_reported_as lsp path.now.part }
{
    match path.part {
        Part::Reported(other) => other == lsp,
        Part::Granted(_) => false,
    }
}

fn removes(peer: u32, report: &StateReport, path: &Path) -> bool
    ensures { result ≡ is_removed peer report.now path.now }
{
    let i = identifiers(report);
    let lsp = i.lsp;
    let all = are_all_zero(i);
    is_path_of_lsp(path, peer, report.plsp) && (all || is_reported_as(lsp, path))
}

fn ends_grant(granted: bool, peer: u32, report: &StateReport, path: &Path) -> bool
    ensures { result ≡ (is_grant_met granted peer report.now path.now
        && (is_grant_settled report.now path.now || path.now.plsp == 0)) }
{
    meets_grant(granted, peer, report, path)
        && (settles_grant(report, path) || path.plsp.number() == 0)
}

/// Tests whether a path goes by a removal.
#[derive(Drop)]
struct GoesByRemoval<'a> {
    granted: bool,
    peer: u32,
    report: &'a StateReport,
}

impl<'a> Test<Path> for GoesByRemoval<'a> {
    ghost use Rattle.delegate_rules.specs.Effects.{goes_by_removal};

    ghost passes = { λ s x. goes_by_removal s.granted s.peer s.report.now x };

    fn passes(&self, path: &Path) -> bool {
        removes(self.peer, self.report, path)
            || ends_grant(self.granted, self.peer, self.report, path)
    }
}

/// Removes the LSP's record if it has no path left, unless a grant was bound. All paths that go are the LSP's, or were
/// bound to none, so no other record can have lost its last one.
fn records_after(
    alloc: Global,
    base: &LspBase,
    peer: u32,
    plsp: Plsp,
    goes: &GoesByRemoval,
    bound: &[Path],
) -> Result<Vec<RecordChange>, AllocError>
    ensures { IfOk result (λ changes. changes.items ≡ records_left base.now.content.paths peer plsp
        (goes_by_removal goes.now.granted goes.now.peer goes.now.report.now) bound.now) }
{
    if has_no_path(bound) {
        ended_record(alloc, base, peer, plsp, goes)
    } else {
        Ok(Vec::new(alloc))
    }
}

/// Computes what a removal does, given whether the LSP has a grant.
#[tactic(auto, unfolding(crate::specs::Effects::removal_effect_by))]
pub fn effect_of_removal(
    alloc: Global,
    granted: bool,
    base: &LspBase,
    peer: u32,
    report: &StateReport,
) -> Result<Effect, AllocError>
    ensures { IfOk result (λ effect. effect ≡ removal_effect_by granted base.now.content peer report.now) }
{
    let goes = GoesByRemoval {
        granted,
        peer,
        report,
    };
    let dropped = base.paths_of_lsp(alloc, peer, report.plsp, &goes)?;
    let bound = grants_bound(alloc, base, granted, peer, report)?;
    let records = records_after(alloc, base, peer, report.plsp, &goes, bound.as_slice())?;
    Ok(Effect::new(dropped, bound, records, false))
}
