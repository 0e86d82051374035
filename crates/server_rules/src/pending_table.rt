//! When a grant, or an awaited deletion, should end although its router doesn't settle it.
ghost use Rattle.std.specs.Prelude.{◌≡◌, ◌<◌, ◌&&◌, None, not, nat_le, is_some, [], ◌∷◌, true, false, ℕ, List, OnOk, OnErr, IfOk, IsOk, IsErr, IsSome, length, nat_eq, if◌then◌else◌};
ghost use Rattle.server_rules.specs.Pendings.{Adds, AreDue, IsSame, Knows, dues_in, is_full_for, is_same, known_from, needs_room, router_in, since_in, since_of};
ghost use Rattle.indexmap.specs.IndexMap.{get};
ghost use Rattle.server_rules.specs.declared.pending.Pending.{Pending};
ghost use Rattle.server_rules.specs.declared.pending.PendingHappening.{PendingHappening};
ghost use Rattle.server_rules.specs.declared.pending.PendingHappening.TheVariants.{Made, Named, Covered, Uncovered, Gone, Up, Down, SyncEnded, Expired};

use crate::pending::{
    Pending, PendingEnd, PendingHappening, PendingState, RouterKnown, covered, downed, end_of,
    made_at, named, risen, synchronized,
};
use indexmap::IndexMap;
use std::alloc::{AllocError, Global};

/// The most grants and deletions that are noted: 16,384 of each may stand. Each takes some 40 bytes, so all take some 3
/// MB with the spare room of the map.
const MOST_PENDING: usize = 32768;

/// The most routers that are noted: as many are known.
const MOST_ROUTERS: usize = 64;

/// A grant, or an awaited deletion, that should end, and why.
#[derive(Clone, Copy, PartialEq, Eq, Debug)]
pub struct PendingDue {
    pub pending: Pending,
    pub end: PendingEnd,
}

/// The grants and the awaited deletions that stand, and their routers.
#[derive(Drop)]
pub struct PendingTable {
    routers: IndexMap<u32, RouterKnown>,
    pending: IndexMap<Pending, PendingState>,
}

impl PendingTable {
    /// Makes an empty table. Takes no memory.
    pub fn new(alloc: Global) -> PendingTable
        ensures { Knows result [] }
    {
        PendingTable {
            routers: IndexMap::new(alloc),
            pending: IndexMap::new(alloc),
        }
    }

    /// Returns what is known about a router.
    fn router(&self, peer: u32) -> RouterKnown
        ensures { result ≡ router_in self.now peer }
    {
        self.routers
            .get(&peer)
            .copied()
            .unwrap_or(RouterKnown::NOTHING)
    }

    /// Returns what is known about a grant or deletion.
    fn state(&self, of: Pending) -> Option<PendingState>
        ensures { result ≡ get is_same self.now.pending of }
    {
        self.pending.get(&of).copied()
    }

    /// Returns when a grant or deletion was made or last named by a report, in milliseconds, while it stands.
    pub fn since_ms(&self, of: Pending) -> Option<u64>
        ensures table { result ≡ since_in self.now of }
        ensures past { (past : List PendingHappening) → Knows self.now past → result ≡ since_of (known_from past of) }
    {
        Some(self.state(of)?.since_ms)
    }

    /// Sets what is known about a grant or deletion that stands.
    fn write(&mut self, of: Pending, state: PendingState)
        requires { IsSome (get is_same self.old.pending of) }
        ensures routers { self.new.routers ≡ self.old.routers }
        ensures few { length self.new.pending.entries ≡ length self.old.pending.entries }
        ensures written { (q : Pending) → get is_same self.new.pending q ≡ (if is_same of q then Some state else get is_same self.old.pending q) }
    {
        if let Some(place) = self.pending.get_mut(&of) {
            *place = state;
        }
    }

    /// Sets what is known about a router that came.
    fn write_router(&mut self, peer: u32, router: RouterKnown)
        requires { IsSome (get nat_eq self.old.routers peer) }
        ensures pending { self.new.pending ≡ self.old.pending }
        ensures few { length self.new.routers.entries ≡ length self.old.routers.entries }
        ensures written { (q : ℕ) → get nat_eq self.new.routers q ≡ (if nat_eq peer q then Some router else get nat_eq self.old.routers q) }
    {
        if let Some(place) = self.routers.get_mut(&peer) {
            *place = router;
        }
    }

    /// Notes that it was made, in the latest session of its router.
    fn made(&mut self, of: Pending, now_ms: u64) -> Result<(), AllocError>
        ensures ok { OnOk result (Adds self.old self.new (Made of now_ms)) }
        ensures err { OnErr result (IsSame self.old self.new) }
        ensures full { is_full_for self.old (Made of now_ms) ≡ true → IsErr result }
    {
        if self.state(of).is_some() {
            return Ok(());
        }
        if self.pending.len() >= MOST_PENDING {
            return Err(AllocError);
        }
        let state = made_at(now_ms, self.router(of.peer));
        self.pending.insert(of, state)?;
        Ok(())
    }

    /// Notes that a report named its SRP-ID.
    fn named(&mut self, of: Pending, now_ms: u64)
        ensures { Adds self.old self.new (Named of now_ms) }
    {
        if let Some(state) = self.state(of) {
            self.write(of, named(now_ms, state));
        }
    }

    /// Notes whether a path that its router reported covers it.
    fn cover(&mut self, of: Pending, is_covered: bool)
        ensures covered { is_covered ≡ true → Adds self.old self.new (Covered of) }
        ensures uncovered { is_covered ≡ false → Adds self.old self.new (Uncovered of) }
    {
        if let Some(state) = self.state(of) {
            self.write(of, covered(is_covered, state));
        }
    }

    /// Notes that it no longer stands.
    fn gone(&mut self, of: Pending)
        ensures { Adds self.old self.new (Gone of) }
    {
        let _state = self.pending.swap_remove(&of);
    }

    /// Tests whether there is no room for a router.
    fn is_full_for(&self, peer: u32) -> bool
        ensures full { result ≡ (not (is_some (get nat_eq self.now.routers peer)) && nat_le 64 (length self.now.routers.entries)) }
        ensures room { result ≡ false → get nat_eq self.now.routers peer ≡ None → length self.now.routers.entries < 64 }
    {
        self.routers.len() >= MOST_ROUTERS && !self.routers.contains_key(&peer)
    }

    /// Notes that a session of the router came up.
    fn up(&mut self, peer: u32) -> Result<(), AllocError>
        ensures ok { OnOk result (Adds self.old self.new (Up peer)) }
        ensures err { OnErr result (IsSame self.old self.new) }
        ensures full { is_full_for self.old (Up peer) ≡ true → IsErr result }
    {
        if self.is_full_for(peer) {
            return Err(AllocError);
        }
        let Some(router) = risen(self.router(peer)) else {
            return Err(AllocError);
        };
        self.routers.insert(peer, router)?;
        Ok(())
    }

    /// Notes that the router's session went down.
    fn down(&mut self, peer: u32)
        ensures { Adds self.old self.new (Down peer) }
    {
        if let Some(router) = self.routers.get(&peer).copied() {
            self.write_router(peer, downed(router));
        }
    }

    /// Notes that the router has reported all of its LSPs in this session.
    fn sync_ended(&mut self, peer: u32)
        ensures { Adds self.old self.new (SyncEnded peer) }
    {
        if let Some(router) = self.routers.get(&peer).copied() {
            self.write_router(peer, synchronized(router));
        }
    }

    /// Notes that the router was forgotten.
    fn expired(&mut self, peer: u32)
        ensures { Adds self.old self.new (Expired peer) }
    {
        let _router = self.routers.swap_remove(&peer);
        self.pending.retain(|of, _state| of.peer != peer);
    }

    /// Notes a happening that takes no memory.
    fn note_at_once(&mut self, what: PendingHappening)
        requires { needs_room what ≡ false }
        ensures { Adds self.old self.new what }
    {
        match what {
            PendingHappening::Made { .. } | PendingHappening::Up { .. } => (),
            PendingHappening::Named { of, now_ms } => self.named(of, now_ms),
            PendingHappening::Covered { of } => self.cover(of, true),
            PendingHappening::Uncovered { of } => self.cover(of, false),
            PendingHappening::Gone { of } => self.gone(of),
            PendingHappening::Down { peer } => self.down(peer),
            PendingHappening::SyncEnded { peer } => self.sync_ended(peer),
            PendingHappening::Expired { peer } => self.expired(peer),
        }
    }

    /// Notes what happened. If memory runs out, nothing is noted. If 32,768 grants and deletions or 64 routers are
    /// noted, another one isn't.
    pub fn note(&mut self, what: PendingHappening) -> Result<(), AllocError>
        ensures ok { OnOk result (Adds self.old self.new what) }
        ensures err { OnErr result (IsSame self.old self.new) }
        ensures room { needs_room what ≡ false → IsOk result }
        ensures full { is_full_for self.old what ≡ true → IsErr result }
    {
        match what {
            PendingHappening::Made { of, now_ms } => self.made(of, now_ms),
            PendingHappening::Up { peer } => self.up(peer),
            _ => {
                self.note_at_once(what);
                Ok(())
            }
        }
    }

    /// Returns what should end at this moment, each once, in the order of the table. Routers have this time to answer,
    /// in milliseconds; 0: for ever.
    pub fn due(
        &self,
        alloc: Global,
        now_ms: u64,
        answer_ms: u64,
    ) -> Result<Vec<PendingDue>, AllocError>
        ensures listed { IfOk result (λ due. due.items ≡ dues_in self.now now_ms answer_ms) }
        ensures due { (past : List PendingHappening) → Knows self.now past → IfOk result (λ due. AreDue past now_ms answer_ms due.items) }
    {
        let mut due = Vec::new(alloc);
        for at in 0..self.pending.len() {
            if let Some((pending, state)) = self.pending.get_index(at) {
                if let Some(end) = end_of(self.router(pending.peer), *state, now_ms, answer_ms) {
                    due.push(PendingDue {
                        pending: *pending,
                        end,
                    })?;
                }
            }
        }
        Ok(due)
    }
}
