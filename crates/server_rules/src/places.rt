//! Who has a place, and who gave up its place and isn't gone yet.
ghost use Rattle.std.specs.Prelude.{◌≡◌, ◌==◌, ◌<◌, ◌≤◌, true, false, not, [], length, map, filter, IfOk, OnErr};
ghost use Rattle.server_rules.specs.Places.{IsEntrance};
ghost use Rattle.server_rules.specs.Placings.{has_place, entered, marked, all_marked, without, Admits, GivesUpAt, Parts};

use crate::entrance::{Entrance, Taken, admit};
use std::alloc::{AllocError, Global};
use std::marker::Model;

/// What a new connection finds.
#[derive(Clone, Copy, PartialEq, Eq, Debug)]
pub enum Admission {
    /// A place is free.
    Free,
    /// The connection of this slot gave up its place for it, and should end.
    InsteadOf(usize),
    /// It may have no place.
    Refused,
}

/// The connections that have a place, the oldest first, and the slots of those that gave up theirs, until they are
/// gone.
#[derive(Drop)]
pub struct PlaceTable {
    places: usize,
    taken: Vec<Taken>,
    leaving: Vec<usize>,
}

impl Model for PlaceTable {
    ghost use Rattle.std.specs.Prelude.{◌<◌, ◌≤◌, length};
    ghost use Rattle.server_rules.specs.Placings.{Placing};

    ghost Value = { Placing };

    ghost view = { λ t. record { places = t.places; taken = t.taken.items; leaving = t.leaving.items } };

    ghost invariant = { λ t. (0 < t.places) × (t.places ≤ 1024) × (length t.taken.items ≤ t.places) };
}

/// Returns the connection, with its session marked as up or not if it has this slot.
fn marked(slot: usize, is_up: bool, connection: Taken) -> Taken
    ensures { result ≡ marked slot is_up connection }
{
    Taken {
        slot: connection.slot,
        address: connection.address,
        is_up: if connection.slot == slot {
            is_up
        } else {
            connection.is_up
        },
    }
}

fn mark_all(taken: &mut Vec<Taken>, slot: usize, is_up: bool)
    ensures { taken.new.items ≡ map (marked slot is_up) taken.old.items }
{
    for connection in taken.iter_mut() {
        *connection = marked(slot, is_up, *connection);
    }
}

/// Drops the connection of this slot.
fn drop_taken(taken: &mut Vec<Taken>, slot: usize)
    ensures kept { taken.new.items ≡ filter (λ c. not (c.slot == slot)) taken.old.items }
    ensures few { length taken.new.items ≤ length taken.old.items }
{
    taken.retain(|connection| connection.slot != slot);
}

/// Drops this slot.
fn drop_leaving(leaving: &mut Vec<usize>, slot: usize)
    ensures { leaving.new.items ≡ filter (λ s. not (s == slot)) leaving.old.items }
{
    leaving.retain(|other| *other != slot);
}

impl PlaceTable {
    /// Makes a table of this number of places, from 1 to 1,024, of which none is taken.
    pub fn new(alloc: Global, places: usize) -> Result<PlaceTable, AllocError>
        requires { (0 < places) × (places ≤ 1024) }
        ensures { IfOk result (λ table. (table.places ≡ places) × (table.taken ≡ []) × (table.leaving ≡ [])) }
    {
        Ok(PlaceTable {
            places,
            taken: Vec::with_capacity(alloc, places)?,
            leaving: Vec::with_capacity(alloc, places)?,
        })
    }

    /// Lends the connections that have a place, the oldest first.
    pub fn taken(&self) -> &[Taken]
        ensures { result.now ≡ self.now.taken }
    {
        &self.taken
    }

    /// Tests whether the connection of this slot has a place.
    pub fn has_place(&self, slot: usize) -> bool
        ensures { result ≡ has_place self.now slot }
    {
        self.taken.iter().any(|connection| connection.slot == slot)
    }

    /// Has the connection at this position give up its place, and returns its slot.
    fn give_up(&mut self, at: usize) -> Result<usize, AllocError>
        requires { at < length self.old.taken }
        ensures given_up { IfOk result (λ slot. GivesUpAt at slot self.old self.new) }
        ensures unchanged { OnErr result (self.new ≡ self.old) }
    {
        let slot = self.taken[at].slot;
        self.leaving.push(slot)?;
        let _connection = self.taken.remove(at);
        Ok(slot)
    }

    /// Decides what happens to a new connection of the address.
    fn entrance(&self, address: u32) -> Entrance
        ensures { IsEntrance self.now.taken address self.now.places result }
    {
        admit(&self.taken, address, self.places)
    }

    /// Decides whether a new connection of the address may have a place. If another should end for it, that one gives
    /// up its place.
    pub fn admit(&mut self, address: u32) -> Result<Admission, AllocError>
        ensures admitted { IfOk result (λ admission. Admits self.old address admission self.new) }
        ensures unchanged { OnErr result (self.new ≡ self.old) }
    {
        match self.entrance(address) {
            Entrance::Free => Ok(Admission::Free),
            Entrance::Refused => Ok(Admission::Refused),
            Entrance::InsteadOf(at) => Ok(Admission::InsteadOf(self.give_up(at)?)),
        }
    }

    /// Gives a place to the connection of the address that has this slot. Returns false if no place is free, or memory
    /// runs out.
    pub fn enter(&mut self, slot: usize, address: u32) -> bool
        ensures entered { result ≡ true → self.new ≡ entered slot address self.old }
        ensures unchanged { result ≡ false → self.new ≡ self.old }
    {
        if self.taken.len() >= self.places {
            return false;
        }
        let connection = Taken {
            slot,
            address,
            is_up: false,
        };
        self.taken.push(connection).is_ok()
    }

    /// Removes the connection of this slot, which is gone.
    pub fn leave(&mut self, slot: usize)
        ensures { self.new ≡ without slot self.old }
    {
        drop_taken(&mut self.taken, slot);
        drop_leaving(&mut self.leaving, slot);
    }

    /// Marks the session of the connection of this slot as up, or as not up, and returns whether the connection has a
    /// place. One that is up doesn't end for another.
    pub fn mark(&mut self, slot: usize, is_up: bool) -> bool
        ensures marked { self.new ≡ all_marked slot is_up self.old }
        ensures placed { result ≡ has_place self.old slot }
    {
        let has_place = self.has_place(slot);
        mark_all(&mut self.taken, slot, is_up);
        has_place
    }

    /// Has the connection of this slot give up its place, to wait for its peer to close. Returns false if it has none,
    /// if more than half as many as there are places already wait like this, or if memory runs out.
    pub fn linger(&mut self, slot: usize) -> bool
        ensures parts { result ≡ true → Parts slot self.old self.new }
        ensures unchanged { result ≡ false → self.new ≡ self.old }
    {
        if self.leaving.len() > self.places / 2 || !self.has_place(slot) {
            return false;
        }
        if self.leaving.push(slot).is_err() {
            return false;
        }
        drop_taken(&mut self.taken, slot);
        true
    }
}
