//! When a router is forgotten, and which Down is still to be submitted.
ghost use Rattle.std.specs.Prelude.{◌≡◌, ℕ, List, [], ◌∷◌, Option, None, Some, IsTrue, OnOk, OnErr, ◌+◌, IfSome, IfNone};
ghost use Rattle.server_rules.specs.Peers.{needs_no_room, Notes, IsSame, Adds, Knows, IsDue, IsOwed, first_due, put_last, longer_down, IsFirstDown, IsLongestDown};
ghost use Rattle.server_rules.specs.declared.known.Happening.{Happening};
ghost use Rattle.server_rules.specs.declared.known.Happening.TheVariants.{Connected, Up, Down, Owed, Submitted, Gone, Forgotten, Kept};

use crate::known::{Happening, Known, Owing, after, due_of, one_more, spare_since};
use indexmap::IndexMap;
use std::alloc::{AllocError, Global};

/// What is due for a peer.
#[derive(Clone, Copy, PartialEq, Eq, Debug)]
pub struct Due {
    pub peer: u32,
    pub what: Owing,
}

/// A peer that could make room for another one, and since when it has been down, in milliseconds.
#[derive(Clone, Copy)]
struct Spare {
    peer: u32,
    since_ms: u64,
}

/// Returns the one that has been down longer.
fn longer_down(first: Option<Spare>, other: Spare) -> Option<Spare>
    ensures { result ≡ longer_down first other }
{
    match first {
        Some(first) if first.since_ms <= other.since_ms => Some(first),
        _ => Some(other),
    }
}

/// The peers, with one entry for each peer that has a live connection or an owed Down, or that is still to be
/// forgotten.
#[derive(Drop)]
pub struct Expiry {
    peers: IndexMap<u32, Known>,
}

impl Expiry {
    pub fn new(alloc: Global) -> Expiry
        ensures { Knows result [] }
    {
        Expiry {
            peers: IndexMap::new(alloc),
        }
    }

    /// Notes that a connection of the peer was accepted. From then on its end takes no memory.
    pub fn connected(&mut self, peer: u32) -> Result<(), AllocError>
        ensures ok { OnOk result (Adds self.old self.new peer Connected) }
        ensures err { OnErr result (IsSame self.old self.new) }
    {
        let known = self.peers.get(&peer).copied().unwrap_or(Known::NOTHING);
        let known = one_more(known).ok_or(AllocError)?;
        self.peers.insert(peer, known)?;
        Ok(())
    }

    /// Notes that a session of the peer came up.
    pub fn up(&mut self, peer: u32)
        ensures { Adds self.old self.new peer Up }
    {
        self.note(peer, Happening::Up);
    }

    /// Notes that the session that was up ended, and its Down was submitted by this moment.
    pub fn down(&mut self, peer: u32, at_ms: u64)
        ensures { Adds self.old self.new peer (Down at_ms) }
    {
        self.note(peer, Happening::Down(at_ms));
    }

    /// Notes that the session that was up ended, and there was no memory for its Down.
    pub fn owed(&mut self, peer: u32)
        ensures { Adds self.old self.new peer Owed }
    {
        self.note(peer, Happening::Owed);
    }

    /// Notes that the owed Down was submitted by this moment.
    pub fn submitted(&mut self, peer: u32, at_ms: u64)
        ensures { Adds self.old self.new peer (Submitted at_ms) }
    {
        self.note(peer, Happening::Submitted(at_ms));
    }

    /// Notes that a connection of the peer ended.
    pub fn gone(&mut self, peer: u32)
        ensures { Adds self.old self.new peer Gone }
    {
        self.note(peer, Happening::Gone);
    }

    /// Notes that the peer was forgotten.
    pub fn forgotten(&mut self, peer: u32)
        ensures { Adds self.old self.new peer Forgotten }
    {
        self.note(peer, Happening::Forgotten);
    }

    /// Notes that the peer should have been forgotten, which was refused: it is up again, or isn't known.
    pub fn kept(&mut self, peer: u32)
        ensures { Adds self.old self.new peer Kept }
    {
        self.note(peer, Happening::Kept);
    }

    /// Notes what happened to a peer, except for a new connection.
    pub fn note(&mut self, peer: u32, what: Happening)
        requires { IsTrue (needs_no_room what) }
        ensures notes { Notes self.old self.new peer what }
        ensures adds { Adds self.old self.new peer what }
    {
        let Some(known) = self.peers.get(&peer).copied() else {
            return;
        };
        let known = after(what, known);
        if known == Known::NOTHING {
            let _nothing = self.peers.swap_remove(&peer);
        } else if let Some(place) = self.peers.get_mut(&peer) {
            *place = known;
        }
    }

    /// Returns what is due for a peer at this moment, if peers are kept for this time after their last Down.
    pub fn due(&self, now_ms: u64, keep_ms: u64) -> Option<Due>
        ensures due { (past : List (ℕ × Happening)) → Knows self.now past → IsDue past now_ms keep_ms result }
        ensures first { result ≡ first_due now_ms keep_ms self.now.peers.entries }
    {
        for at in 0..self.peers.len() {
            if let Some((peer, known)) = self.peers.get_index(at) {
                if let Some(what) = due_of(*known, now_ms, keep_ms) {
                    return Some(Due { peer: *peer, what });
                }
            }
        }
        None
    }

    /// Notes that what is due for the peer couldn't be done, so that what is due for others comes first next time.
    pub fn put_off(&mut self, peer: u32)
        ensures same { IsSame self.old self.new }
        ensures last { self.new.peers.entries ≡ put_last self.old peer }
    {
        if let Some(at) = self.peers.get_index_of(&peer) {
            let last = self.peers.len() - 1;
            self.peers.move_index(at, last);
        }
    }

    /// Tests whether a peer's Down couldn't be submitted yet.
    pub fn owes_a_down(&self) -> bool
        ensures { (past : List (ℕ × Happening)) → Knows self.now past → IsOwed past result }
    {
        for at in 0..self.peers.len() {
            if let Some((_peer, known)) = self.peers.get_index(at) {
                if known.owes_a_down {
                    return true;
                }
            }
        }
        false
    }

    /// Returns the peer that makes room for one that isn't known, when there is no room for one more: of those that are
    /// down and hold no LSP, the one that has been down longest. The holders are the peers that hold one.
    pub fn longest_down(&self, holders: &[u32]) -> Option<u32>
        ensures { (past : List (ℕ × Happening)) → Knows self.now past → IsLongestDown past holders.now result }
    {
        Some(self.first_down(holders)?.peer)
    }

    /// Returns the same peer, with the moment since when it has been down.
    fn first_down(&self, holders: &[u32]) -> Option<Spare>
        ensures { IsFirstDown self.now holders.now result }
    {
        let mut first = None;
        for at in 0..self.peers.len() {
            if let Some((peer, known)) = self.peers.get_index(at) {
                if let Some(since_ms) = spare_since(*known, *peer, holders) {
                    first = longer_down(
                        first,
                        Spare {
                            peer: *peer,
                            since_ms,
                        },
                    );
                }
            }
        }
        first
    }
}
