//! The PCE gives an LSP back to its peer.
ghost use Rattle.std.specs.Prelude.{◌≡◌, [], false, IfOk};
ghost use Rattle.lsp_base.specs.Lsps.{effect_of};
ghost use Rattle.lsp_base.specs.Rooms.{IsWithinLimit};
ghost use Rattle.delegate_rules.specs.Faults.{Gives};
ghost use Rattle.delegate_rules.specs.Effects.{one_record};
ghost use Rattle.delegate_rules.specs.Returns.{undelegated, return_result};

use crate::fault::RuleFault;
use crate::reported::record_of;
use lsp_base::{Effect, Lsp, LspBase, RecordChange, Why, is_pending};
use pcep_objects::Plsp;
use sequence::PlainData;
use std::alloc::{AllocError, Global};

fn undelegated(lsp: &Lsp) -> Result<Lsp, AllocError>
    ensures { IfOk result (λ new. new ≡ undelegated lsp.now) }
{
    Ok(Lsp {
        name: lsp.name.copy()?,
        delegated: false,
        created: lsp.created,
        constraints: lsp.constraints,
        tunnel: lsp.tunnel,
        removing: lsp.removing,
    })
}

fn given_back(alloc: Global, plsp: Plsp, lsp: &Lsp) -> Result<Vec<RecordChange>, AllocError>
    ensures { IfOk result (λ changes. changes.items ≡ one_record plsp (undelegated lsp.now)) }
{
    let lsp = undelegated(lsp)?;
    record_of(alloc, plsp, lsp)
}

/// Gives an LSP back to its peer (RFC 8231 section 5.7.3): the record's delegation ends, and nothing else changes.
/// Refuses in this order: `Why::UnknownLsp` if nothing is known of the LSP, `Why::NotDelegated` if it isn't delegated,
/// `Why::Pending` if a grant or a removal of it is awaited.
#[tactic(auto, unfolding(crate::specs::Returns::return_result))]
pub fn on_return(alloc: Global, base: &LspBase, peer: u32, plsp: Plsp) -> Result<Effect, RuleFault>
    ensures returned { Gives result (return_result base.now.content peer plsp) }
    ensures few { IfOk result (λ effect. IsWithinLimit base.now.content effect) }
{
    let Some(lsp) = base.lsp(peer, plsp) else {
        return Err(RuleFault::Why(Why::UnknownLsp));
    };
    if !lsp.delegated {
        return Err(RuleFault::Why(Why::NotDelegated));
    }
    if is_pending(base, peer, plsp) {
        return Err(RuleFault::Why(Why::Pending));
    }
    // only for the proof: there are no more paths than there may be
    let _few = base.paths();
    let records = given_back(alloc, plsp, lsp)?;
    Ok(Effect::new(Vec::new(alloc), Vec::new(alloc), records, false))
}
