//! Peers in the order in which they came.
ghost use Rattle.std.specs.Prelude.{◌≡◌, ◌<◌, ◌≤◌, ◌++◌, ◌∷◌, [], not, find, filter, position, length, vec_capacity, option_copied, IfOk, OnOk};
ghost use Rattle.std.specs.List.{list_all};
ghost use Rattle.step_core.specs.Consistent.{has_srps_left};
ghost use Rattle.step_core.specs.States.{is_peer};

use crate::peer::{PEER_LIMIT, Peer};
use std::alloc::{AllocError, Global};
use std::marker::Model;

/// The greatest SRP-ID that a request has (RFC 8231 section 7.2).
const GREATEST_SRP: u32 = 0xffff_fffe;

/// Peers in the order in which they came, with room for as many as can be known at a time. A contract sees only the
/// list.
#[derive(Drop)]
pub(crate) struct PeerList {
    pub items: Vec<Peer>,
}

impl Model for PeerList {
    ghost use Rattle.std.specs.Prelude.{◌≤◌, List, vec_capacity};
    ghost use Rattle.step_core.specs.declared.peer.Peer.{Peer};

    ghost Value = { List Peer };

    ghost view = { λ l. l.items.items };

    ghost invariant = { λ l. 64 ≤ vec_capacity l.items };
}

/// Removes the peer. The others stay in their order.
fn drop_peer(peers: &mut Vec<Peer>, number: u32)
    ensures items { peers.new.items ≡ filter (λ p. not (is_peer number p)) peers.old.items }
    ensures capacity { vec_capacity peers.new ≡ vec_capacity peers.old }
{
    let mut i = 0;
    while i < peers.len() {
        if peers[i].number == number {
            let _ = peers.remove(i);
        } else {
            i += 1;
        }
    }
}

impl PeerList {
    /// Makes a list of no peers.
    pub fn new(alloc: Global) -> Result<PeerList, AllocError>
        ensures { IfOk result (λ peers. peers ≡ []) }
    {
        Ok(PeerList {
            items: Vec::with_capacity(alloc, PEER_LIMIT)?,
        })
    }

    /// Lends the peers in order.
    pub fn as_slice(&self) -> &[Peer]
        ensures { result.now ≡ self.now }
    {
        &self.items
    }

    /// Counts the peers.
    pub fn len(&self) -> usize
        ensures { result ≡ length self.now }
    {
        self.items.len()
    }

    /// Finds the place of a peer in the list.
    pub fn place_of(&self, number: u32) -> Option<usize>
        ensures { result ≡ position (is_peer number) self.now }
    {
        self.items.iter().position(|peer| peer.number == number)
    }

    /// Finds the peer, if it is known.
    pub fn find(&self, number: u32) -> Option<&Peer>
        ensures { option_copied result ≡ find (is_peer number) self.now }
    {
        self.items.iter().find(|peer| peer.number == number)
    }

    /// Tests whether no peer was given the greatest SRP-ID, so that the next one of each is greater than its last.
    pub fn have_srps_left(&self) -> bool
        ensures { result ≡ list_all has_srps_left self.now }
    {
        self.items.iter().all(|peer| peer.last_srp < GREATEST_SRP)
    }

    /// Adds a peer at the end, in the room that there is.
    pub fn push(&mut self, peer: Peer)
        requires { length self.old < 64 }
        ensures { self.new ≡ self.old ++ peer ∷ [] }
    {
        self.items.push_reserved(peer);
    }

    /// Adds a peer at the end, and makes room for it.
    pub fn add(&mut self, peer: Peer) -> Result<(), AllocError>
        ensures added { OnOk result (self.new ≡ self.old ++ peer ∷ []) }
    {
        self.items.push(peer)?;
        Ok(())
    }

    /// Removes the peer.
    pub fn forget(&mut self, number: u32)
        ensures { self.new ≡ filter (λ p. not (is_peer number p)) self.old }
    {
        drop_peer(&mut self.items, number);
    }
}
