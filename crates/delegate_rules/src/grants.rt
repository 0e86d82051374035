//! The grant that a report meets, and what becomes of it.
ghost use Rattle.std.specs.Prelude.{◌≡◌, [], map, filter, IfOk, if◌then◌else◌};
ghost use Rattle.delegate_rules.specs.Reports.{identifiers_of, are_zero};
ghost use Rattle.delegate_rules.specs.Grants.{is_grant_met, is_grant_settled, is_grant_kept, is_grant_bound, moved_grant, moved_grants, bound_grant};
ghost use Rattle.delegate_rules.specs.Effects.{bound_grants};

use crate::identity::{are_all_zero, identifiers, means_settled, report_tunnel};
use keyed_list::{Edit, Test, edit_all};
use lsp_base::{LspBase, Path, carries_srp, is_grant_of_lsp, is_unbound};
use pcep_messages::StateReport;
use std::alloc::{AllocError, Global};

/// Tests whether the path is the LSP's grant, or, if the LSP has none, the unbound one of the report's SRP-ID.
pub fn meets_grant(granted: bool, peer: u32, report: &StateReport, path: &Path) -> bool
    ensures { result ≡ is_grant_met granted peer report.now path.now }
{
    if granted {
        is_grant_of_lsp(path, peer, report.plsp)
    } else {
        is_unbound(path, peer, report.srp)
    }
}

pub fn settles_grant(report: &StateReport, path: &Path) -> bool
    ensures { result ≡ is_grant_settled report.now path.now }
{
    carries_srp(report.srp, path.part) && means_settled(report.operational)
}

/// Tests whether a path is the grant that a report meets and does not settle.
#[derive(Drop)]
struct GrantKept<'a> {
    granted: bool,
    peer: u32,
    report: &'a StateReport,
}

impl<'a> Test<Path> for GrantKept<'a> {
    ghost use Rattle.delegate_rules.specs.Grants.{is_grant_kept};

    ghost passes = { λ s x. is_grant_kept s.granted s.peer s.report.now x };

    fn passes(&self, path: &Path) -> bool {
        meets_grant(self.granted, self.peer, self.report, path) && !settles_grant(self.report, path)
    }
}

/// Tests whether a path is the unbound grant that a removal binds and does not settle.
#[derive(Drop)]
struct GrantBound<'a> {
    granted: bool,
    peer: u32,
    report: &'a StateReport,
}

impl<'a> Test<Path> for GrantBound<'a> {
    ghost use Rattle.delegate_rules.specs.Grants.{is_grant_bound};

    ghost passes = { λ s x. is_grant_bound s.granted s.peer s.report.now x };

    fn passes(&self, path: &Path) -> bool {
        meets_grant(self.granted, self.peer, self.report, path)
            && !settles_grant(self.report, path)
            && path.plsp.number() == 0
    }
}

/// Binds a grant to the report's LSP, in the report's tunnel.
#[derive(Drop)]
struct MovedGrant<'a> {
    peer: u32,
    report: &'a StateReport,
}

impl<'a> Edit<Path> for MovedGrant<'a> {
    ghost use Rattle.delegate_rules.specs.Grants.{moved_grant};

    ghost edited = { λ s x. moved_grant s.peer s.report.now x };

    fn edit(&self, path: &mut Path) {
        path.plsp = self.report.plsp;
        path.tunnel = report_tunnel(self.peer, self.report);
        path.fresh = true;
    }
}

/// Binds a grant to the report's LSP, in its own tunnel.
#[derive(Drop)]
struct BoundGrant<'a> {
    report: &'a StateReport,
}

impl<'a> Edit<Path> for BoundGrant<'a> {
    ghost use Rattle.delegate_rules.specs.Grants.{bound_grant};

    ghost edited = { λ s x. bound_grant s.report.now x };

    fn edit(&self, path: &mut Path) {
        path.plsp = self.report.plsp;
        path.fresh = true;
    }
}

/// Copies the grant that a report moves, as it is afterwards.
pub fn grants_moved(
    alloc: Global,
    base: &LspBase,
    granted: bool,
    peer: u32,
    report: &StateReport,
) -> Result<Vec<Path>, AllocError>
    ensures { IfOk result (λ moved. moved.items ≡ moved_grants granted base.now.content.paths peer report.now) }
{
    let test = GrantKept {
        granted,
        peer,
        report,
    };
    let mut grants = base.paths_of_lsp(alloc, peer, report.plsp, &test)?;
    edit_all(&mut grants, &MovedGrant { peer, report });
    Ok(grants)
}

/// Copies the grant that a removal binds, as it is afterwards. None if all paths of the LSP are removed.
pub fn grants_bound(
    alloc: Global,
    base: &LspBase,
    granted: bool,
    peer: u32,
    report: &StateReport,
) -> Result<Vec<Path>, AllocError>
    ensures { IfOk result (λ bound. bound.items ≡ bound_grants granted base.now.content.paths peer report.now) }
{
    if are_all_zero(identifiers(report)) {
        return Ok(Vec::new(alloc));
    }
    let test = GrantBound {
        granted,
        peer,
        report,
    };
    let mut grants = base.paths_of_lsp(alloc, peer, report.plsp, &test)?;
    edit_all(&mut grants, &BoundGrant { report });
    Ok(grants)
}
