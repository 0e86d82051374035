//! Reports as a whole.
ghost use Rattle.std.specs.Prelude.{◌≡◌, ◌==◌, ◌||◌, IfOk, if◌then◌else◌};
ghost use Rattle.lsp_base.specs.Lsps.{changed};
ghost use Rattle.lsp_base.specs.Rooms.{IsWithinLimit};
ghost use Rattle.delegate_rules.specs.Faults.{Gives};
ghost use Rattle.delegate_rules.specs.Effects.{is_reserved, is_too_many, allowed, reported_effect, report_result};

use crate::fault::RuleFault;
use crate::removals::effect_of_removal;
use crate::reported::effect_of_report;
use lsp_base::{Effect, LspBase, PATH_LIMIT, Why};
use pcep_messages::StateReport;
use pcep_objects::Plsp;
use std::alloc::{AllocError, Global};
use te_base::TeBase;

fn is_reserved(plsp: Plsp) -> bool
    ensures { result ≡ is_reserved plsp }
{
    plsp.number() == 0 || plsp.number() == 0xf_ffff
}

#[tactic(auto, unfolding(crate::specs::Effects::reported_effect))]
fn reported_effect(
    alloc: Global,
    base: &LspBase,
    te: &TeBase,
    peer: u32,
    report: &StateReport,
) -> Result<Effect, AllocError>
    ensures { IfOk result (λ effect. effect ≡ reported_effect base.now.content te.now peer report.now) }
{
    let granted = base.has_grant(peer, report.plsp);
    if report.remove {
        effect_of_removal(alloc, granted, base, peer, report)
    } else {
        let old = base.lsp(peer, report.plsp);
        effect_of_report(alloc, granted, old, base, te, peer, report)
    }
}

/// Tests whether there would be more than 16,384 paths after the effect.
fn adds_too_many(base: &LspBase, effect: &Effect) -> bool
    ensures { result ≡ is_too_many base.now.content effect.now }
{
    let dropped = effect.change.dropped.as_slice().len();
    let added = effect.change.added.as_slice().len();
    base.paths().len() + added > PATH_LIMIT + dropped
}

/// Computes what a report of a peer does (RFC 8231 section 6.1), with R clear or set. Refuses it with `Why::BadReport`
/// if its PLSP-ID is reserved, and with `Why::TooManyPaths` if there would be more than 16,384 paths after it.
#[tactic(auto, unfolding(crate::specs::Effects::report_result))]
pub fn on_report(
    alloc: Global,
    base: &LspBase,
    te: &TeBase,
    peer: u32,
    report: &StateReport,
) -> Result<Effect, RuleFault>
    ensures given { Gives result (report_result base.now.content te.now peer report.now) }
    ensures few { IfOk result (λ effect. IsWithinLimit base.now.content effect) }
{
    if is_reserved(report.plsp) {
        return Err(RuleFault::Why(Why::BadReport));
    }
    let effect = reported_effect(alloc, base, te, peer, report)?;
    if adds_too_many(base, &effect) {
        return Err(RuleFault::Why(Why::TooManyPaths));
    }
    Ok(effect)
}
