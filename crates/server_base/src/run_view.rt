//! What viewers and operators see of a run: looks at its database, and what is noted about its peers and steps. Every
//! step and every roll must be shown a seat (`Held` of `history_seats`), and from here no seat can be reached.
ghost use Rattle.std.specs.Prelude.{◌≡◌, IfOk};
ghost use mathlib.Core.List.{IsPrefix};
ghost use Rattle.history_seats.specs.Past.{database_at};

use crate::context::Moments;
use crate::timed_look::TimedLook;
use database_looks::CountsLook;
use history_seats::Brands;
use server_counts::{Counters, Mark, Marks, PeerState, PeerStates, Timed};
use server_rules::{PathWords, PeerErrors, PendingTable};
use server_talk::Watch;
use shared_pce::{Event, Front, Look, Shared};
use std::alloc::{AllocError, Global};
use std::cell::Cell;
use std::sync::{Mutex, Wait};
use std::thread;
use std::time::{Clock, Duration};

/// How often to check whether the history was rolled because memory ran out.
const MEMORY_LOOKS: u32 = 25;

/// The pause between two of these checks, in milliseconds.
const MEMORY_PAUSE_MS: u64 = 10;

/// What is seen of a run.
#[derive(Drop)]
pub struct RunView<'a, R: Clock, B: Brands> {
    pub rt: &'a R,
    pub alloc: Global,
    pub shared: &'a Shared<B>,
    pub moments: Moments<'a, R>,
    pub counters: &'a Mutex<Counters>,
    pub peer_states: &'a Mutex<PeerStates>,
    pub marks: &'a Mutex<Marks>,
    /// What reports say about paths that the state doesn't keep.
    pub words: &'a Mutex<PathWords>,
    /// The PCErr by which routers refused what was asked of an LSP.
    pub errors: &'a Mutex<PeerErrors>,
    /// Since when grants and deletions that stand are unanswered.
    pub pending: &'a Mutex<PendingTable>,
}

impl<'a, R: Wait + Clock, B: Brands> RunView<'a, R, B> {
    /// Makes a front that has seen all that has happened until now.
    pub fn front(&self) -> Front<Event, B> {
        self.shared.front(self.rt)
    }

    /// Looks at the database, shows a front what has happened until then, and measures how long that held the lock.
    pub fn look<L: Look>(
        &self,
        front: &mut Front<Event, B>,
        look: &L,
    ) -> Result<L::Seen, AllocError>
        ensures begins { IsPrefix front.old front.new }
        ensures sees { IfOk result (L.sees look.now (database_at B.text front.new)) }
    {
        let timed = self.timed(look);
        let seen = self.shared.look(self.rt, front, &timed);
        self.count_look(&timed);
        seen
    }

    /// Makes the same look, which also notes how long it holds the lock.
    pub fn timed<'l, L: Look>(&'l self, look: &'l L) -> TimedLook<'l, 'a, R, L>
        ensures { result.look.now ≡ look.now }
    {
        TimedLook {
            moments: &self.moments,
            look,
            held_us: Cell::new(0),
        }
    }

    /// Counts how long a look held the lock.
    pub fn count_look<L: Look>(&self, timed: &TimedLook<'_, '_, R, L>) {
        let held_us = timed.held_us.get();
        self.counters.lock(self.rt).observe(Timed::Look, held_us);
    }

    /// Asks the timer thread to roll the history because memory ran out, and waits for that for a quarter of a second
    /// at most. Showing something makes no roll itself.
    pub fn await_memory(&self) {
        let run = self.moments.run;
        run.note_short_memory(self.rt);
        for _look in 0..MEMORY_LOOKS {
            if !run.is_memory_short() {
                return;
            }
            thread::sleep(self.rt, Duration::from_millis(MEMORY_PAUSE_MS));
        }
    }

    /// Returns the number of connections of routers that have a place.
    pub fn connections(&self) -> usize {
        self.moments.wakers.count(self.rt)
    }

    /// Returns since when each peer is up or down.
    pub fn all_peer_states(&self) -> Result<Vec<(u32, PeerState)>, AllocError> {
        self.peer_states.lock(self.rt).copies(self.alloc)
    }

    /// Notes how many steps there are at this moment. If memory runs out, nothing is noted.
    pub fn mark_steps(&self, front: &mut Front<Event, B>) {
        let now_ms = self.moments.now_ms();
        if let Ok(counts) = self.shared.look(self.rt, front, &CountsLook) {
            let _noted = self.marks.lock(self.rt).note(counts.steps, now_ms);
        }
    }

    /// Returns how many steps there were at which moments, including the present one.
    pub fn all_marks(&self, front: &mut Front<Event, B>) -> Result<Vec<Mark>, AllocError> {
        self.mark_steps(front);
        self.marks.lock(self.rt).copies(self.alloc)
    }
}
