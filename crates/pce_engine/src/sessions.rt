//! The open sessions, each at a place of its own, found by its peer.

ghost use Rattle.std.specs.Prelude.{◌≡◌, None, [], IfOk, OnOk, is_some};
ghost use Rattle.std.specs.BTreeMap.{insert_entry};
ghost use Rattle.std.specs.Borrow.{sem};
ghost use Rattle.std.specs.Map.{lookup, remove_entry, keys_of};
ghost use Rattle.std.specs.Option.{option_copied_mut};
ghost use Rattle.std.specs.Ordering.{nat_cmp};
ghost use Rattle.pce_engine.specs.Sessions.{is_peer, session_of};

use engine_core::Client;
use slab::Slab;
use std::alloc::{AllocError, Global};
use std::collections::BTreeMap;
use std::marker::Model;

/// The open sessions. A slab keeps each where it was put, and a tree of places, by peer, finds it. So the tree moves
/// only numbers, and a free place is used again. Each call takes time logarithmic in the number of sessions.
#[derive(Drop)]
pub(crate) struct Sessions {
    clients: Slab<Client>,
    places: BTreeMap<u32, usize>,
}

impl Model for Sessions {
    ghost use Rattle.pce_engine.specs.Places.{ArePlaced, sessions_at};
    ghost use Rattle.pce_engine.specs.Sessions.{Sessions};

    ghost Value = { Sessions };

    ghost view = { λ s. sessions_at s.clients s.places.entries };

    ghost invariant = { λ s. ArePlaced s.clients s.places.entries };
}

fn place_of(places: &BTreeMap<u32, usize>, peer: u32) -> Option<usize>
    ensures { result ≡ lookup (is_peer peer) places.now.entries }
{
    places.get(&peer).copied()
}

fn peers_of(alloc: Global, places: &BTreeMap<u32, usize>) -> Result<Vec<u32>, AllocError>
    ensures { IfOk result (λ peers. peers.items ≡ keys_of places.now.entries) }
{
    places.keys().copied().collect(alloc)
}

impl Sessions {
    ghost use Rattle.pce_engine.specs.Lends.{lends_session};

    /// Makes a list of no sessions.
    pub(crate) fn new(alloc: Global) -> Sessions
        ensures { result ≡ [] }
    {
        Sessions {
            clients: Slab::new(alloc),
            places: BTreeMap::new(alloc),
        }
    }

    /// Tests whether the peer has an open session.
    pub(crate) fn lives(&self, peer: u32) -> bool
        ensures { result ≡ is_some (session_of peer self.now) }
    {
        self.places.contains_key(&peer)
    }

    /// Finds the session of a peer, if there is one.
    pub(crate) fn get_mut(&mut self, peer: u32) -> Option<&mut Client>
        ensures* writes_back { sem 𝓛 (lends_session self.entry peer result) }
        ensures value { option_copied_mut result ≡ session_of peer self.old }
    {
        let place = place_of(&self.places, peer)?;
        self.clients.get_mut(place)
    }

    /// Adds a session.
    pub(crate) fn insert(&mut self, peer: u32, client: Client) -> Result<(), AllocError>
        requires { session_of peer self.old ≡ None }
        ensures { OnOk result (self.new ≡ insert_entry nat_cmp self.old peer client) }
    {
        self.clients.reserve(1)?;
        let place = self.clients.vacant_key();
        let _none = self.places.insert(peer, place)?;
        let _place = self.clients.insert_reserved(client);
        Ok(())
    }

    /// Removes the session of a peer and returns it, if there is one.
    pub(crate) fn remove(&mut self, peer: u32) -> Option<Client>
        ensures value { result ≡ session_of peer self.old }
        ensures others { self.new ≡ remove_entry (is_peer peer) self.old }
    {
        let place = self.places.remove(&peer)?;
        self.clients.try_remove(place)
    }

    /// Lists the peers with open sessions, in rising order.
    pub(crate) fn peers(&self, alloc: Global) -> Result<Vec<u32>, AllocError>
        ensures { IfOk result (λ peers. peers.items ≡ keys_of self.now) }
    {
        peers_of(alloc, &self.places)
    }
}
