//! The routers whose connections a worker has yet to wake.
ghost use Rattle.std.specs.Prelude.{◌≡◌, ◌<◌, ◌++◌, ◌∷◌, [], length, nat_lt, not};

use std::marker::Model;

/// The most routers that are noted.
const MOST: usize = 16;

/// The routers for which a worker searched for paths and whose connections it has not woken since, in the order of its
/// turns. A contract sees the list of them.
#[derive(Drop)]
pub struct PendingWakes {
    peers: [u32; MOST],
    count: usize,
}

impl Model for PendingWakes {
    ghost use Rattle.std.specs.Prelude.{◌≤◌, ℕ, List, take};

    ghost Value = { List ℕ };

    ghost view = { λ u. take u.count u.peers };

    ghost invariant = { λ u. u.count ≤ 16 };
}

impl PendingWakes {
    pub fn none() -> PendingWakes
        ensures { result ≡ [] }
    {
        PendingWakes {
            peers: [0u32; MOST],
            count: 0,
        }
    }

    /// Notes a router after the others, unless 16 are noted.
    pub fn note(&mut self, peer: u32)
        ensures { length self.old < 16 → self.new ≡ self.old ++ peer ∷ [] }
    {
        if self.count < MOST {
            self.peers[self.count] = peer;
            self.count += 1;
        }
    }

    /// Tests whether no more can be noted.
    pub fn is_full(&self) -> bool
        ensures { result ≡ not (nat_lt (length self.now) 16) }
    {
        self.count >= MOST
    }

    /// Lends the noted routers.
    pub fn peers(&self) -> &[u32]
        ensures { result.now ≡ self.now }
    {
        self.peers.get(..self.count).unwrap_or(&[])
    }
}
