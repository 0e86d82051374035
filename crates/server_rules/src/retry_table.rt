//! When LSPs without a path are asked for again.
ghost use Rattle.std.specs.Prelude.{◌≡◌, ◌≤◌, ◌<◌, ◌-◌, [], ◌∷◌, true, false, ℕ, List, OnOk, OnErr, IfOk, IsOk, IsErr, length, take};
ghost use Rattle.server_rules.specs.Retries.{Adds, AreDue, IsSame, Knows, awaited, dues_in, is_nothing, is_same_lsp, needs_room, needs_room_for, retry_in, whom};
ghost use Rattle.server_rules.specs.declared.retry.RouterLsp.{RouterLsp};
ghost use Rattle.server_rules.specs.declared.retry.RetryHappening.{RetryHappening};
ghost use Rattle.server_rules.specs.declared.retry.Concerned.TheVariants.{Lsp, Router, All};
ghost use Rattle.indexmap.specs.IndexMap.{get};

use crate::retry::{
    Concerned, RetryHappening, RetryState, RouterLsp, begun_anew, changed, is_due, whom,
};
use indexmap::IndexMap;
use std::alloc::{AllocError, Global};

/// The most LSPs about which something is known: as many paths may stand. Each takes some 64 bytes, so all take some 2
/// MB with the spare room of the map.
const MOST_LSPS: usize = 16384;

/// The most retries that wait for an answer at a time.
pub const RETRIES_AT_ONCE: usize = 256;

/// The LSPs that may have to be asked for again.
#[derive(Drop)]
pub struct RetryTable {
    lsps: IndexMap<RouterLsp, RetryState>,
}

/// Tests whether nothing is known about the LSP.
fn is_nothing(state: RetryState) -> bool
    ensures { result ≡ is_nothing state }
{
    state.since_ms.is_none()
        && state.tried_ms.is_none()
        && state.factor == 1
        && !state.is_at_once
        && !state.is_awaited
        && !state.is_unanswered
}

impl RetryTable {
    /// Makes an empty table. Takes no memory.
    pub fn new(alloc: Global) -> RetryTable
        ensures { Knows result [] }
    {
        RetryTable {
            lsps: IndexMap::new(alloc),
        }
    }

    /// Returns what is known about an LSP.
    fn known(&self, lsp: RouterLsp) -> RetryState
        ensures { result ≡ retry_in self.now lsp }
    {
        self.lsps.get(&lsp).copied().unwrap_or(RetryState::NOTHING)
    }

    /// Tests whether there is no room for an LSP.
    fn is_full_for(&self, lsp: RouterLsp) -> bool
        ensures full { result ≡ true → (get is_same_lsp self.now.lsps lsp ≡ None) × (16384 ≤ length self.now.lsps.entries) }
        ensures room { result ≡ false → get is_same_lsp self.now.lsps lsp ≡ None → length self.now.lsps.entries < 16384 }
    {
        self.lsps.len() >= MOST_LSPS && !self.lsps.contains_key(&lsp)
    }

    /// Notes what happened to an LSP.
    fn note_of(&mut self, lsp: RouterLsp, what: RetryHappening) -> Result<(), AllocError>
        requires { whom what ≡ Lsp lsp }
        ensures ok { OnOk result (Adds self.old self.new what) }
        ensures err { OnErr result (IsSame self.old self.new) }
        ensures room { needs_room_for self.old what (Lsp lsp) ≡ false → IsOk result }
        ensures full { needs_room_for self.old what (Lsp lsp) ≡ true → 16384 ≤ length self.old.lsps.entries → IsErr result }
    {
        let state = changed(what, self.known(lsp));
        if is_nothing(state) {
            let _state = self.lsps.swap_remove(&lsp);
            return Ok(());
        }
        if self.is_full_for(lsp) {
            return Err(AllocError);
        }
        self.lsps.insert(lsp, state)?;
        Ok(())
    }

    /// Forgets the LSPs of a router.
    fn forget(&mut self, peer: u32)
        ensures { (what : RetryHappening) → whom what ≡ Router peer → Adds self.old self.new what }
    {
        self.lsps.retain(|of, _state| of.peer != peer);
    }

    /// Lets all LSPs begin again from the start.
    fn begin_anew(&mut self)
        ensures { (what : RetryHappening) → whom what ≡ All → Adds self.old self.new what }
    {
        self.lsps.retain(|_of, state| {
            *state = begun_anew(*state);
            true
        });
    }

    /// Notes what happened. If memory runs out, nothing is noted. If 16,384 LSPs are known, nothing is noted about
    /// another one.
    pub fn note(&mut self, what: RetryHappening) -> Result<(), AllocError>
        ensures ok { OnOk result (Adds self.old self.new what) }
        ensures err { OnErr result (IsSame self.old self.new) }
        ensures room { needs_room self.old what ≡ false → IsOk result }
        ensures full { needs_room self.old what ≡ true → 16384 ≤ length self.old.lsps.entries → IsErr result }
    {
        match whom(what) {
            Concerned::Lsp(of) => self.note_of(of, what),
            Concerned::Router(peer) => {
                self.forget(peer);
                Ok(())
            }
            Concerned::All => {
                self.begin_anew();
                Ok(())
            }
        }
    }

    /// Returns how many more LSPs may be tried, so that at most 256 tries wait for an answer.
    pub fn room(&self) -> usize
        ensures { result ≡ 256 - awaited self.now }
    {
        let awaited = self.lsps.values().filter(|state| state.is_awaited).count();
        RETRIES_AT_ONCE.saturating_sub(awaited)
    }

    /// Returns the LSPs that are due.
    fn all_due(
        &self,
        alloc: Global,
        now_ms: u64,
        retry_ms: u64,
    ) -> Result<Vec<RouterLsp>, AllocError>
        ensures { IfOk result (λ due. due.items ≡ dues_in self.now now_ms retry_ms) }
    {
        let mut due = Vec::new(alloc);
        for at in 0..self.lsps.len() {
            if let Some((lsp, state)) = self.lsps.get_index(at) {
                if is_due(*state, now_ms, retry_ms) {
                    due.push(*lsp)?;
                }
            }
        }
        Ok(due)
    }

    /// Returns the LSPs that should be asked for at this moment, at most this number, in the order of the table. The
    /// first try of each comes after this time, in milliseconds; 0: never.
    pub fn due(
        &self,
        alloc: Global,
        now_ms: u64,
        retry_ms: u64,
        room: usize,
    ) -> Result<Vec<RouterLsp>, AllocError>
        ensures listed { IfOk result (λ due. due.items ≡ take room (dues_in self.now now_ms retry_ms)) }
        ensures due { (past : List RetryHappening) → Knows self.now past → IfOk result (λ due. AreDue past now_ms retry_ms room due.items) }
    {
        let mut due = self.all_due(alloc, now_ms, retry_ms)?;
        due.truncate(room);
        Ok(due)
    }
}
