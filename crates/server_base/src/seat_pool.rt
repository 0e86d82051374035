//! The pool in which seats rest while no thread has them.
use history_seats::Brands;
use server_rules::SeatStates;
use shared_pce::{Fault, Seat, Shared};
use std::alloc::{AllocError, Global};
use std::sync::{Condvar, CondvarTimeouts, Mutex, Wait};
use std::time::{Clock, Duration};

/// Where each seat is, and the seats that rest here, by their slots.
#[derive(Drop)]
struct Slots<B: Brands> {
    states: SeatStates,
    resting: Vec<Option<Seat<B>>>,
}

/// A slot for each seat. A thread puts its seat back into its own slot, so that no seat is lost if memory runs out.
#[derive(Drop)]
pub struct SeatPool<B: Brands> {
    slots: Mutex<Slots<B>>,
    freed: Condvar,
}

/// Makes the list of seats that all rest.
fn all_resting<B: Brands>(
    alloc: Global,
    seats: Vec<Seat<B>>,
) -> Result<Vec<Option<Seat<B>>>, AllocError> {
    let mut resting = Vec::new(alloc);
    for seat in seats {
        resting.push(Some(seat))?;
    }
    Ok(resting)
}

impl<B: Brands> SeatPool<B> {
    pub fn new(alloc: Global, seats: Vec<Seat<B>>) -> Result<SeatPool<B>, AllocError> {
        let states = SeatStates::new(alloc, seats.len())?;
        let resting = all_resting(alloc, seats)?;
        Ok(SeatPool {
            slots: Mutex::new(Slots { states, resting }),
            freed: Condvar::new(),
        })
    }

    /// Promises a seat below `end` to a thread, and returns its slot. Waits for one until the time is up.
    pub fn promise<R: Wait + Clock>(&self, rt: &R, end: usize, most: Duration) -> Option<usize> {
        let (mut slots, _timeout) = self.freed.wait_timeout_while(
            rt,
            self.slots.lock(rt),
            most,
            |slots| slots.states.first_free(end).is_none(),
        );
        slots.states.promise(end)
    }

    /// Frees the seat of the slot, which was promised to a thread, for any thread.
    pub fn release<R: Wait>(&self, rt: &R, at: usize) {
        self.slots.lock(rt).states.release(at);
        self.freed.notify_all();
    }

    /// Takes the seat of a slot.
    pub fn take<R: Wait>(&self, rt: &R, at: usize) -> Option<Seat<B>> {
        let mut slots = self.slots.lock(rt);
        slots.states.take(at);
        slots.resting.get_mut(at)?.take()
    }

    /// Puts a seat back.
    pub fn put<R: Wait>(&self, rt: &R, at: usize, seat: Seat<B>) {
        let mut slots = self.slots.lock(rt);
        if let Some(place) = slots.resting.get_mut(at) {
            *place = Some(seat);
        }
        slots.states.put(at);
        drop(slots);
        self.freed.notify_all();
    }

    /// Drops the receipts of rolled steps of all seats that rest here.
    pub fn fold<R: Wait>(&self, rt: &R, shared: &Shared<B>) {
        let mut slots = self.slots.lock(rt);
        for place in slots.resting.iter_mut() {
            if let Some(seat) = place {
                shared.fold(rt, seat);
            }
        }
    }

    /// Returns all seats that are back in their slots.
    pub fn into_seats(self, alloc: Global) -> Result<Vec<Seat<B>>, Fault> {
        let SeatPool { slots, freed: _ } = self;
        let Slots { states: _, resting } = slots.into_inner();
        let mut seats = Vec::new(alloc);
        for place in resting {
            if let Some(seat) = place {
                seats.push(seat)?;
            }
        }
        Ok(seats)
    }
}
