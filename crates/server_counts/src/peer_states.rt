//! Since when each peer is up or down, and how its last connection ended.
ghost use Rattle.std.specs.Prelude.{◌≡◌, ℕ, nat_eq, option_map, None, IfOk, OnOk, OnErr, if◌then◌else◌};
ghost use Rattle.std.specs.Map.{lookup};
ghost use Rattle.server_counts.specs.PeerStates.{ended, forgotten, risen, peer_state_of, SetsPeerState};

use end_reasons::Reason;
use indexmap::IndexMap;
use std::alloc::{AllocError, Global};

/// How a connection ended, and when, in milliseconds.
#[derive(Clone, Copy)]
pub struct LastEnd {
    pub at_ms: u64,
    pub reason: Reason,
}

/// A peer whose session came up at least once.
#[derive(Clone, Copy)]
pub struct PeerState {
    /// The connection whose session is up, by the slot of its seat.
    pub up_at: Option<usize>,
    /// When its session came up or went down, in milliseconds.
    pub since_ms: u64,
    /// How a connection of it ended last, whether its session was up or not.
    pub last_end: Option<LastEnd>,
}

impl PeerState {
    /// The state of a peer that isn't known.
    const NOTHING: PeerState = PeerState {
        up_at: None,
        since_ms: 0,
        last_end: None,
    };
}

/// The states of peers, with one entry for each peer whose session came up, until it is forgotten.
#[derive(Drop)]
pub struct PeerStates {
    table: IndexMap<u32, PeerState>,
}

/// Returns a peer's state after a session of the peer came up on the connection of this slot.
fn risen(slot: usize, now_ms: u64, peer_state: PeerState) -> PeerState
    ensures { result ≡ risen slot now_ms peer_state }
{
    PeerState {
        up_at: Some(slot),
        since_ms: now_ms,
        last_end: peer_state.last_end,
    }
}

/// Returns a peer's state after the connection of this slot ended. If its session was up, the peer is down from now on.
fn ended(slot: usize, now_ms: u64, reason: Reason, peer_state: PeerState) -> PeerState
    ensures { result ≡ ended slot now_ms reason peer_state }
{
    let last_end = Some(LastEnd {
        at_ms: now_ms,
        reason,
    });
    if peer_state.up_at == Some(slot) {
        return PeerState {
            up_at: None,
            since_ms: now_ms,
            last_end,
        };
    }
    PeerState {
        up_at: peer_state.up_at,
        since_ms: peer_state.since_ms,
        last_end,
    }
}

impl PeerStates {
    pub fn new(alloc: Global) -> PeerStates
        ensures { (peer : ℕ) → peer_state_of result peer ≡ None }
    {
        PeerStates {
            table: IndexMap::new(alloc),
        }
    }

    /// Notes that a session of the peer came up on the connection of this slot. If memory runs out, nothing is noted.
    pub fn came_up(&mut self, peer: u32, slot: usize, now_ms: u64) -> Result<(), AllocError>
        ensures ok { OnOk result (SetsPeerState self.old self.new peer (risen slot now_ms)) }
        ensures err { OnErr result ((other : ℕ) → peer_state_of self.new other ≡ peer_state_of self.old other) }
    {
        let peer_state = self.table.get(&peer).copied().unwrap_or(PeerState::NOTHING);
        self.table.insert(peer, risen(slot, now_ms, peer_state))?;
        Ok(())
    }

    /// Notes that the connection of this slot ended. Nothing is noted about a peer whose session never came up.
    pub fn ended(&mut self, peer: u32, slot: usize, now_ms: u64, reason: Reason)
        ensures { (other : ℕ) → peer_state_of self.new other ≡ (if nat_eq peer other then option_map (ended slot now_ms reason) (peer_state_of self.old other) else peer_state_of self.old other) }
    {
        let Some(peer_state) = self.table.get(&peer).copied() else {
            return;
        };
        if let Some(place) = self.table.get_mut(&peer) {
            *place = ended(slot, now_ms, reason, peer_state);
        }
    }

    /// Removes the peer, which was forgotten, unless a session of it has come up since.
    pub fn forgotten(&mut self, peer: u32)
        ensures { (other : ℕ) → peer_state_of self.new other ≡ (if nat_eq peer other then forgotten (peer_state_of self.old other) else peer_state_of self.old other) }
    {
        let Some(peer_state) = self.table.get(&peer).copied() else {
            return;
        };
        if peer_state.up_at.is_none() {
            let _peer_state = self.table.swap_remove(&peer);
        }
    }

    /// Copies all states out, each with its peer.
    #[tactic(auto, using(crate::proofs::Taking::take_next))]
    pub fn copies(&self, alloc: Global) -> Result<Vec<(u32, PeerState)>, AllocError>
        ensures { IfOk result (λ copies. copies.items ≡ self.now.table.entries) }
    {
        let mut copies = Vec::with_capacity(alloc, self.table.len())?;
        for at in 0..self.table.len() {
            let Some((peer, peer_state)) = self.table.get_index(at) else {
                unreachable!()
            };
            copies.push((*peer, *peer_state))?;
        }
        Ok(copies)
    }
}

/// Finds what is noted about a peer.
pub fn peer_state_in(peer_states: &[(u32, PeerState)], peer: u32) -> Option<PeerState>
    ensures { result ≡ lookup (nat_eq peer) peer_states.now }
{
    for (other, peer_state) in peer_states {
        if peer == *other {
            return Some(*peer_state);
        }
    }
    None
}
