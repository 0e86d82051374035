//! A peer refuses what the PCE asked it for.
ghost use Rattle.std.specs.Prelude.{◌≡◌, IfOk};
ghost use Rattle.lsp_base.specs.Rooms.{IsWithinLimit};
ghost use Rattle.delegate_rules.specs.Refusals.{has_no_other, record_ended, records_ended, removal_cleared, removals_cleared, refused_effect};

use crate::reported::has_no_path;
use keyed_list::Test;
use lsp_base::{Effect, GrantAs, LspBase, Path, Record, RecordChange, RecordRule, is_removed_as};
use pcep_objects::Plsp;
use sequence::PlainData;
use std::alloc::{AllocError, Global};

/// Tests whether a path stays if the grants of an SRP-ID go.
#[derive(Drop)]
struct Stays {
    peer: u32,
    srp: u32,
}

impl Test<Path> for Stays {
    ghost use Rattle.std.specs.Prelude.{not};
    ghost use Rattle.lsp_base.specs.Pending.{is_grant_as};

    ghost passes = { λ s x. not (is_grant_as s.peer s.srp x) };

    fn passes(&self, path: &Path) -> bool {
        let grants = GrantAs {
            peer: self.peer,
            srp: self.srp,
        };
        !grants.passes(path)
    }
}

fn has_no_other(base: &LspBase, peer: u32, srp: u32, plsp: Plsp) -> bool
    ensures { result ≡ has_no_other base.now.content.paths peer srp plsp }
{
    !base.any_path_of_lsp(peer, plsp, &Stays { peer, srp })
}

/// Removes the records of the LSPs of these grants, which go, if no path of the LSP stays.
fn records_ended(
    alloc: Global,
    base: &LspBase,
    peer: u32,
    srp: u32,
    grants: &[Path],
) -> Result<Vec<RecordChange>, AllocError>
    ensures { IfOk result (λ changes. changes.items ≡ records_ended base.now.content peer srp grants.now) }
{
    let mut changes = Vec::new(alloc);
    for grant in grants {
        let plsp = grant.plsp;
        if base.lsp(peer, plsp).is_some() && has_no_other(base, peer, srp, plsp) {
            changes.push(RecordChange { plsp, lsp: None })?;
        }
    }
    Ok(changes)
}

fn removal_cleared(known: &Record) -> Result<RecordChange, AllocError>
    ensures { IfOk result (λ change. change ≡ removal_cleared known.now) }
{
    let mut lsp = known.lsp.copy()?;
    lsp.removing = None;
    Ok(RecordChange {
        plsp: known.plsp,
        lsp: Some(lsp),
    })
}

/// The peer's records whose removal has the SRP-ID, each with its removal cleared.
#[derive(Drop)]
struct ClearedOf {
    peer: u32,
    srp: u32,
}

impl RecordRule for ClearedOf {
    ghost use Rattle.lsp_base.specs.Pending.{is_removed_as};
    ghost use Rattle.delegate_rules.specs.Refusals.{removal_cleared};

    ghost applies = { λ s r. is_removed_as s.peer s.srp r };

    ghost change = { λ s r. removal_cleared r };

    fn applies(&self, known: &Record) -> bool {
        is_removed_as(known, self.peer, self.srp)
    }

    fn change(&self, known: &Record) -> Result<RecordChange, AllocError> {
        removal_cleared(known)
    }
}

fn removals_cleared(
    alloc: Global,
    base: &LspBase,
    peer: u32,
    srp: u32,
) -> Result<Vec<RecordChange>, AllocError>
    ensures { IfOk result (λ changes. changes.items ≡ removals_cleared base.now.content peer srp) }
{
    base.record_changes(alloc, &ClearedOf { peer, srp })
}

/// Handles a peer's refusal of the request of this SRP-ID (a PCErr, RFC 8231 section 6.3). Its grant of the number,
/// bound to an LSP or not, is dropped, and with it the LSP's record if no other path of the LSP remains. If no grant
/// has the number, the removal that has it isn't awaited any more. A number that neither has changes nothing.
///
/// Grants have no index by number. So this passes over all paths, and if none of them is the grant, over all records.
#[tactic(auto, unfolding(crate::specs::Refusals::refused_effect))]
pub fn on_refused(alloc: Global, base: &LspBase, peer: u32, srp: u32) -> Result<Effect, AllocError>
    ensures effect { IfOk result (λ effect. effect ≡ refused_effect base.now.content peer srp) }
    ensures few { IfOk result (λ effect. IsWithinLimit base.now.content effect) }
{
    // only for the proof: there are no more paths than there may be
    let _few = base.paths();
    let grants = base.paths_passing(alloc, &GrantAs { peer, srp })?;
    if has_no_path(grants.as_slice()) {
        let records = removals_cleared(alloc, base, peer, srp)?;
        return Ok(Effect::new(grants, Vec::new(alloc), records, false));
    }
    let records = records_ended(alloc, base, peer, srp, grants.as_slice())?;
    Ok(Effect::new(grants, Vec::new(alloc), records, false))
}
