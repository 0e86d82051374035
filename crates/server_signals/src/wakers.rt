//! Who has a place, and how its connection is woken when something should be sent to its peer.
ghost use Rattle.std.specs.Prelude.{◌≡◌, ◌≤◌, set, Some, None};
ghost use Rattle.server_rules.specs.Placings.{without};
ghost use Rattle.server_rules.specs.Wakings.{after};
ghost use Rattle.server_rules.specs.declared.waker_slots.SlotHappening.TheVariants.{Left, Prepared, Woken};
ghost use Rattle.server_signals.specs.Rings.{is_wanted, rung_for};

use mio::Waker;
use server_rules::{Admission, PlaceTable, Taken, WakerSlots};
use short_lock::acquire;
use std::alloc::{AllocError, Global};
use std::sync::{Mutex, Wait};

/// Wakes the connection that has a slot, unless it can't be woken, or was woken and hasn't looked since. A waker fails
/// only if its connection is about to end.
fn wake(slots: &mut WakerSlots, wakers: &[Option<Waker>], slot: usize)
    ensures { slots.new ≡ after (Woken slot) slots.old }
{
    if slots.wake(slot) {
        if let Some(Some(waker)) = wakers.get(slot) {
            let _woken = waker.wake();
        }
    }
}

/// Tests whether a connection is one of those to wake: those of a peer, or all.
fn is_wanted(peer: Option<u32>, connection: &Taken) -> bool
    ensures { result ≡ is_wanted peer connection.now }
{
    match peer {
        Some(peer) => connection.address == peer,
        None => true,
    }
}

/// Wakes each connection of a peer, or of all, among those that have a place.
fn ring(slots: &mut WakerSlots, wakers: &[Option<Waker>], taken: &[Taken], peer: Option<u32>)
    ensures { slots.new ≡ rung_for peer taken.now slots.old }
{
    for connection in taken {
        if is_wanted(peer, connection) {
            wake(slots, wakers, connection.slot);
        }
    }
}

/// Who has a place, and the waker of each connection.
#[derive(Drop)]
struct Table {
    places: PlaceTable,
    /// Which connections can be woken, and which were and haven't looked since.
    slots: WakerSlots,
    /// The wakers by slot, from when the connection's socket is prepared until the connection is gone.
    wakers: Vec<Option<Waker>>,
}

impl Table {
    /// Sets the waker of the connection that has this slot, which can be woken from now on.
    fn set(&mut self, slot: usize, waker: Waker)
        ensures ready { self.new.slots ≡ after (Prepared slot) self.old.slots }
        ensures waker { self.new.wakers.items ≡ set self.old.wakers.items slot (Some waker) }
        ensures places { self.new.places ≡ self.old.places }
    {
        self.slots.prepare(slot);
        if let Some(place) = self.wakers.get_mut(slot) {
            *place = Some(waker);
        }
    }

    /// Removes the connection that has this slot, which is gone.
    fn leave(&mut self, slot: usize)
        ensures deaf { self.new.slots ≡ after (Left slot) self.old.slots }
        ensures no_waker { self.new.wakers.items ≡ set self.old.wakers.items slot None }
        ensures no_place { self.new.places ≡ without slot self.old.places }
    {
        self.places.leave(slot);
        self.slots.leave(slot);
        if let Some(waker) = self.wakers.get_mut(slot) {
            *waker = None;
        }
    }

    fn wake(&mut self, slot: usize)
        ensures { self.new.slots ≡ after (Woken slot) self.old.slots }
    {
        wake(&mut self.slots, &self.wakers, slot);
    }

    fn ring(&mut self, peer: Option<u32>)
        ensures { self.new.slots ≡ rung_for peer self.old.places.taken self.old.slots }
    {
        ring(&mut self.slots, &self.wakers, self.places.taken(), peer);
    }
}

/// All connections that are open.
#[derive(Drop)]
pub struct Wakers {
    table: Mutex<Table>,
}

/// Makes room for a waker for each of this number of slots.
fn no_wakers(alloc: Global, slots: usize) -> Result<Vec<Option<Waker>>, AllocError> {
    let mut wakers = Vec::with_capacity(alloc, slots)?;
    for _slot in 0..slots {
        wakers.push(None)?;
    }
    Ok(wakers)
}

impl Wakers {
    /// Makes this number of places, from 1 to 1,024, and of slots: the slots of connections that have a place, and of
    /// those that gave up theirs.
    pub fn new(alloc: Global, places: usize, slots: usize) -> Result<Wakers, AllocError>
        requires { (1 ≤ places) × (places ≤ 1024) }
    {
        let table = Table {
            places: PlaceTable::new(alloc, places)?,
            slots: WakerSlots::new(alloc, slots)?,
            wakers: no_wakers(alloc, slots)?,
        };
        Ok(Wakers {
            table: Mutex::new(table),
        })
    }

    /// Tests whether a new connection of the address may have a place. Another connection ends for it if that is
    /// needed. Returns false also if memory runs out.
    pub fn admit<R: Wait>(&self, rt: &R, address: u32) -> bool {
        let mut table = acquire(rt, &self.table);
        match table.places.admit(address) {
            Ok(Admission::Free) => true,
            Ok(Admission::InsteadOf(slot)) => {
                table.wake(slot);
                true
            }
            Ok(Admission::Refused) | Err(_) => false,
        }
    }

    /// Gives a place to the connection of the address that has this slot. Returns false if no place is free.
    pub fn enter<R: Wait>(&self, rt: &R, slot: usize, address: u32) -> bool {
        acquire(rt, &self.table).places.enter(slot, address)
    }

    /// Removes the connection that has this slot, which is gone.
    pub fn leave<R: Wait>(&self, rt: &R, slot: usize) {
        acquire(rt, &self.table).leave(slot);
    }

    /// Sets the waker of the connection that has this slot.
    pub fn set<R: Wait>(&self, rt: &R, slot: usize, waker: Waker) {
        acquire(rt, &self.table).set(slot, waker);
    }

    /// Lets the connection that has this slot be woken again. It asks for that as soon as its wait has ended, and looks
    /// at what waits for its peer only after that, so that no wake-up is lost.
    pub fn rearm<R: Wait>(&self, rt: &R, slot: usize) {
        acquire(rt, &self.table).slots.look(slot);
    }

    /// Notes whether the session of the connection that has this slot is up; a connection whose session is up doesn't
    /// end for another. Returns false if it has already ended for another.
    pub fn mark<R: Wait>(&self, rt: &R, slot: usize, is_up: bool) -> bool {
        acquire(rt, &self.table).places.mark(slot, is_up)
    }

    /// Tests whether the connection that has this slot ended for another.
    pub fn is_ended<R: Wait>(&self, rt: &R, slot: usize) -> bool {
        !acquire(rt, &self.table).places.has_place(slot)
    }

    /// Lets the connection that has this slot wait for its peer to close, and returns whether it may. It gives its place up
    /// for that, and half as many as there are places may do so at once.
    pub fn try_linger<R: Wait>(&self, rt: &R, slot: usize) -> bool {
        acquire(rt, &self.table).places.linger(slot)
    }

    /// Returns the number of connections that have a place.
    pub fn count<R: Wait>(&self, rt: &R) -> usize {
        acquire(rt, &self.table).places.taken().len()
    }

    /// Wakes the connections of a peer.
    pub fn ring<R: Wait>(&self, rt: &R, peer: u32) {
        acquire(rt, &self.table).ring(Some(peer));
    }

    /// Wakes all connections.
    pub fn ring_all<R: Wait>(&self, rt: &R) {
        acquire(rt, &self.table).ring(None);
    }
}
