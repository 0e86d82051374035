ghost use Rattle.std.specs.Prelude.{◌≡◌, ◌==◌, [], not, false, map, filter, IfOk, IsPermutation};
ghost use Rattle.lsp_base.specs.Lsps.{changed, effect_of};
ghost use Rattle.lsp_base.specs.Rooms.{IsWithinLimit};
ghost use Rattle.sync_rules.specs.Peers.{is_stale_of, is_of_peer, left_alone, marker_effect, up_effect, down_effect, expire_effect};

use keyed_list::Test;
use lsp_base::{Effect, LspBase, Path, Record, RecordChange, RecordRule, dropping_of_peer};
use lsp_words::Capabilities;
use sequence::PlainData;
use std::alloc::{AllocError, Global};

/// Tests whether a path is a stale path or grant of the peer.
#[derive(Drop)]
struct StaleOf {
    peer: u32,
}

impl Test<Path> for StaleOf {
    ghost use Rattle.sync_rules.specs.Peers.{is_stale_of};

    ghost passes = { λ s x. is_stale_of s.peer x };

    fn passes(&self, path: &Path) -> bool {
        path.peer == self.peer && !path.fresh
    }
}

/// Tests whether a path is a path or grant of the peer.
#[derive(Drop)]
struct OfPeer {
    peer: u32,
}

impl Test<Path> for OfPeer {
    ghost use Rattle.sync_rules.specs.Peers.{is_of_peer};

    ghost passes = { λ s x. is_of_peer s.peer x };

    fn passes(&self, path: &Path) -> bool {
        path.peer == self.peer
    }
}

/// Ends the peer's synchronization: removes what it did not report again, and the records that then have no path (RFC
/// 8231 section 5.6).
#[tactic(auto, unfolding(crate::specs::Peers::marker_effect))]
pub fn on_marker(alloc: Global, base: &LspBase, peer: u32) -> Result<Effect, AllocError>
    ensures effect { IfOk result (λ effect. effect ≡ marker_effect base.now.content peer) }
    ensures stay { IfOk result (λ effect. IsPermutation (filter (λ x. not (is_stale_of peer x)) base.now.content.paths)
        (changed base.now.content peer effect).paths) }
    ensures few { IfOk result (λ effect. IsWithinLimit base.now.content effect) }
{
    dropping_of_peer(alloc, base, peer, &StaleOf { peer })
}

/// Gives the peer up: removes all that it reported or was granted, and its records.
#[tactic(auto, unfolding(crate::specs::Peers::expire_effect))]
pub fn on_expire(alloc: Global, base: &LspBase, peer: u32) -> Result<Effect, AllocError>
    ensures effect { IfOk result (λ effect. effect ≡ expire_effect base.now.content peer) }
    ensures stay { IfOk result (λ effect. IsPermutation (filter (λ x. not (is_of_peer peer x)) base.now.content.paths)
        (changed base.now.content peer effect).paths) }
    ensures few { IfOk result (λ effect. IsWithinLimit base.now.content effect) }
{
    dropping_of_peer(alloc, base, peer, &OfPeer { peer })
}

/// Makes the effect that keeps all paths and sets these records.
#[tactic(auto, unfolding(lsp_base::specs::Lsps::changed))]
fn keeping_paths(alloc: Global, base: &LspBase, peer: u32, records: Vec<RecordChange>) -> Effect
    ensures effect { result ≡ effect_of [] [] records.items false }
    ensures stay { (changed base.now.content peer result).paths ≡ base.now.content.paths }
    ensures few { IsWithinLimit base.now.content result }
{
    // only for the proof: there are no more paths than there may be
    let _few = base.paths();
    Effect::new(Vec::new(alloc), Vec::new(alloc), records, false)
}

/// Begins a session of the peer. With STATEFUL-PCE-CAPABILITY it synchronizes first, and nothing goes yet. Without, it
/// will report nothing again, and what is stale goes at once (RFC 8231 section 5.6).
#[tactic(auto, unfolding(crate::specs::Peers::up_effect))]
pub fn on_up(
    alloc: Global,
    base: &LspBase,
    peer: u32,
    capabilities: Option<Capabilities>,
) -> Result<Effect, AllocError>
    ensures effect { IfOk result (λ effect. effect ≡ up_effect base.now.content peer capabilities) }
    ensures few { IfOk result (λ effect. IsWithinLimit base.now.content effect) }
{
    match capabilities {
        None => on_marker(alloc, base, peer),
        Some(_) => Ok(keeping_paths(alloc, base, peer, Vec::new(alloc))),
    }
}

fn left_by_itself(known: &Record) -> Result<RecordChange, AllocError>
    ensures { IfOk result (λ change. change ≡ left_alone known.now) }
{
    let mut lsp = known.lsp.copy()?;
    lsp.delegated = false;
    lsp.removing = None;
    Ok(RecordChange {
        plsp: known.plsp,
        lsp: Some(lsp),
    })
}

/// Changes each record of the peer as the end of its session does.
#[derive(Drop)]
struct LeftBy {
    peer: u32,
}

impl RecordRule for LeftBy {
    ghost use Rattle.std.specs.Prelude.{◌==◌};
    ghost use Rattle.sync_rules.specs.Peers.{left_alone};

    ghost applies = { λ s r. r.peer == s.peer };

    ghost change = { λ s r. left_alone r };

    fn applies(&self, known: &Record) -> bool {
        known.peer == self.peer
    }

    fn change(&self, known: &Record) -> Result<RecordChange, AllocError> {
        left_by_itself(known)
    }
}

/// Ends a session of the peer, and with it its delegations and removals. No path goes (the caller makes them stale).
#[tactic(auto, unfolding(crate::specs::Peers::down_effect))]
pub fn on_down(alloc: Global, base: &LspBase, peer: u32) -> Result<Effect, AllocError>
    ensures effect { IfOk result (λ effect. effect ≡ down_effect base.now.content peer) }
    ensures stay { IfOk result (λ effect. (changed base.now.content peer effect).paths ≡ base.now.content.paths) }
    ensures few { IfOk result (λ effect. IsWithinLimit base.now.content effect) }
{
    let records = base.record_changes(alloc, &LeftBy { peer })?;
    Ok(keeping_paths(alloc, base, peer, records))
}
