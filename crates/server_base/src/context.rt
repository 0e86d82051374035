//! What each thread of a run is lent.
ghost use Rattle.std.specs.Prelude.{◌≡◌, ◌≤◌, ◌-◌, ◌^◌, min};
ghost use Rattle.std.specs.Duration.{as_nanos};
ghost use Rattle.server_base.specs.Moments.{HasRun};

use crate::counting::count_step;
use crate::expiry::{Peers, Settled};
use crate::link_ends::LinkEnds;
use crate::run_view::RunView;
use crate::seat_pool::SeatPool;
use crate::ticket_share::ShareLook;
use crate::upkeep::Upkeep;
use end_reasons::Reason;
use engine_core::{Call, Reply};
use history_seats::Brands;
use pce_seen::EventKind;
use pcep_word::Ipv4;
use server_counts::{Counted, Counters, Marks, PeerStates, Timed, Waits};
use server_log::{Asker, LogLine, LogQueue};
use server_rules::{PathHappening, PathWords, PcErrHappening, PeerErrors, Settling};
use server_signals::{GrantGate, Run, RunFault, Wakers};
use server_talk::Watch;
use shared_pce::{Event, Front, Shared};
use short_lock::acquire;
use std::alloc::{AllocError, Global};
use std::sync::atomic::{AtomicU64, Ordering};
use std::sync::{Mutex, Wait};
use std::time::{Clock, Duration, Instant};
use te_base::TeBase;

/// Returns the number, or the greatest of 64 bits if it is above that.
fn capped(number: u128) -> u64
    ensures { result ≡ min number (2 ^ 64 - 1) }
{
    match u64::try_from(number) {
        Ok(number) => number,
        Err(_) => u64::MAX,
    }
}

/// The moments of a run, its wakers, and whether it or a connection should end.
#[derive(Drop)]
pub struct Moments<'a, R: Clock> {
    pub rt: &'a R,
    /// When the run began. `None` if the system has no clock.
    pub start: Option<Instant>,
    pub run: &'a Run,
    pub wakers: &'a Wakers,
    /// The slot of the connection's seat, if it is for one.
    pub slot: Option<usize>,
}

impl<'a, R: Clock> Moments<'a, R> {
    /// Returns the time since the run began; zero if there is no clock, or reading it fails.
    fn elapsed(&self) -> Duration
        ensures { HasRun self.now.start (as_nanos result) }
    {
        let Some(start) = self.start else {
            return Duration::ZERO;
        };
        match Instant::now(self.rt) {
            Ok(now) => now.duration_since(start),
            Err(_) => Duration::ZERO,
        }
    }

    /// Returns the moment, in microseconds since the run began.
    pub fn now_us(&self) -> u64 {
        capped(self.elapsed().as_micros())
    }
}

impl<'a, R: Wait + Clock> Watch for Moments<'a, R> {
    ghost use Rattle.server_base.specs.Moments.{IsMoment};

    ghost may_show = { λ moments ms. IsMoment moments.start ms };

    fn now_ms(&self) -> u64 {
        capped(self.elapsed().as_millis())
    }

    fn is_closing(&self) -> bool {
        self.run.is_closing()
            || self
                .slot
                .is_some_and(|slot| self.wakers.is_ended(self.rt, slot))
    }

    fn ring(&self, peer: u32) {
        self.wakers.ring(self.rt, peer);
    }
}

/// What happens in a run, apart from the steps of its database.
#[derive(Drop)]
pub struct RunState {
    pub run: Run,
    pub peers: Peers,
    pub wakers: Wakers,
    pub grants: GrantGate,
    pub strangers: AtomicU64,
    pub counters: Mutex<Counters>,
    pub waits: Mutex<Waits>,
    pub peer_states: Mutex<PeerStates>,
    pub marks: Mutex<Marks>,
    pub words: Mutex<PathWords>,
    pub errors: Mutex<PeerErrors>,
    pub upkeep: Upkeep,
}

impl RunState {
    /// Makes the state of a run in which nothing has happened. `places` connections may have a place; there are `slots`
    /// slots for their seats and for those of connections that gave up their place. Paths are granted from this moment
    /// on, or while all routers that are named are in sync.
    pub fn new(
        alloc: Global,
        places: usize,
        slots: usize,
        named: &[u32],
        until_ms: u64,
    ) -> Result<RunState, AllocError>
        requires { (1 ≤ places) × (places ≤ 1024) }
    {
        let settling = Settling::new(alloc, named, until_ms)?;
        let wakers = Wakers::new(alloc, places, slots)?;
        Ok(RunState {
            run: Run::new(),
            peers: Peers::new(alloc),
            wakers,
            grants: GrantGate::new(settling),
            strangers: AtomicU64::new(0),
            counters: Mutex::new(Counters::new()),
            waits: Mutex::new(Waits::new()),
            peer_states: Mutex::new(PeerStates::new(alloc)),
            marks: Mutex::new(Marks::new(alloc)),
            words: Mutex::new(PathWords::new(alloc)),
            errors: Mutex::new(PeerErrors::new(alloc)),
            upkeep: Upkeep::new(alloc),
        })
    }
}

/// What each thread of a run is lent.
#[derive(Drop)]
pub struct Context<'a, R: Clock, B: Brands> {
    pub rt: &'a R,
    pub alloc: Global,
    pub shared: &'a Shared<B>,
    pub pool: &'a SeatPool<B>,
    pub peers: &'a Peers,
    pub run: &'a Run,
    pub wakers: &'a Wakers,
    pub log: &'a LogQueue,
    /// Says whether tickets may be taken yet.
    pub grants: &'a GrantGate,
    /// Only routers whose address a node of this network owns are served; if it is `None`, all are.
    pub known: &'a Option<TeBase>,
    /// What the server counts. Its lock is held for a few additions.
    pub counters: &'a Mutex<Counters>,
    /// When paths were asked for.
    pub waits: &'a Mutex<Waits>,
    /// Since when each peer is up or down.
    pub peer_states: &'a Mutex<PeerStates>,
    /// How many steps there were at which moments.
    pub marks: &'a Mutex<Marks>,
    /// What reports say about paths that the state doesn't keep.
    pub words: &'a Mutex<PathWords>,
    /// The PCErr by which routers refused what was asked of an LSP.
    pub errors: &'a Mutex<PeerErrors>,
    /// What is known about grants and deletions that stand, and about LSPs that are down.
    pub upkeep: &'a Upkeep,
    /// How long a router may leave a request unanswered, in milliseconds; 0: for ever.
    pub answer_ms: u64,
    /// The time after which an LSP that is down is asked for again, in milliseconds; 0: never.
    pub retry_ms: u64,
    /// How many connections of unknown routers came.
    pub strangers: &'a AtomicU64,
    /// The ends of each link.
    pub ends: &'a [LinkEnds],
    pub start: Option<Instant>,
    /// The time for which a peer that went down is kept, in milliseconds.
    pub keep_ms: u64,
    /// How many seats there are for connections that have a place, and for those that gave up theirs. Their slots come
    /// first.
    pub seats: usize,
    /// The slot of the seat that forgets a peer to make room for another.
    pub usher: usize,
    /// The slot of the seat by which a connection's thread drops a grant that a report covers.
    pub closer: usize,
}

impl<'a, R: Clock, B: Brands> Context<'a, R, B> {
    pub fn moments(&self) -> Moments<'a, R> {
        Moments {
            rt: self.rt,
            start: self.start,
            run: self.run,
            wakers: self.wakers,
            slot: None,
        }
    }

    /// Returns what viewers and operators see of the run.
    pub fn run_view(&self) -> RunView<'a, R, B> {
        RunView {
            rt: self.rt,
            alloc: self.alloc,
            shared: self.shared,
            moments: self.moments(),
            counters: self.counters,
            peer_states: self.peer_states,
            marks: self.marks,
            words: self.words,
            errors: self.errors,
            pending: self.upkeep.pending(),
        }
    }

    /// Returns the moments of the connection whose seat has this slot.
    pub fn moments_at(&self, slot: usize) -> Moments<'a, R> {
        Moments {
            rt: self.rt,
            start: self.start,
            run: self.run,
            wakers: self.wakers,
            slot: Some(slot),
        }
    }

    /// Writes a line to the log.
    pub fn say(&self, line: LogLine)
    where
        R: Wait,
    {
        self.log.say(self.rt, line, self.moments().now_ms());
    }

    /// Counts this one more time.
    pub fn count(&self, what: Counted)
    where
        R: Wait,
    {
        acquire(self.rt, self.counters).add(what);
    }

    /// Counts a step.
    pub(crate) fn count_step(&self, event: EventKind, reply: &Reply)
    where
        R: Wait,
    {
        count_step(&mut acquire(self.rt, self.counters), event, reply);
    }

    /// Notes and logs that a path was asked for at a moment, in microseconds, if that was the last of these calls.
    pub fn note_ask(&self, calls: &[Call], asked_us: u64, by: Asker)
    where
        R: Wait,
    {
        if let Some(call) = calls.last() {
            self.note_asked(&call.reply, asked_us);
            self.say_asked(call, by);
        }
    }

    /// Notes that a path was asked for at a moment, in microseconds, if this is the reply.
    pub(crate) fn note_asked(&self, reply: &Reply, asked_us: u64)
    where
        R: Wait,
    {
        if let Reply::Asked(ticket) = reply {
            let wait = acquire(self.rt, self.waits).asked(*ticket, asked_us);
            if let Some(us) = wait {
                acquire(self.rt, self.counters).observe(Timed::Wait, us);
            }
        }
    }

    /// Looks whether the peer has fewer tickets than are free, so that others find some. If there is no memory to look, it has.
    pub fn look_for_share(&self, front: &mut Front<Event, B>, peer: u32) -> bool
    where
        R: Wait,
    {
        match self.shared.look(self.rt, front, &ShareLook { peer }) {
            Ok(has_share) => has_share,
            Err(_) => true,
        }
    }

    /// Notes that a ticket was settled, and returns how long it waited, in microseconds, if its request was noted.
    pub fn note_verdict(&self, ticket: u64, now_us: u64) -> Option<u64>
    where
        R: Wait,
    {
        acquire(self.rt, self.waits).settled(ticket, now_us)
    }

    /// Notes and counts that the connection of a seat's slot ended.
    pub fn note_end(&self, peer: u32, slot: usize, reason: Reason)
    where
        R: Wait,
    {
        self.count(Counted::Ended(reason));
        let now_ms = self.moments().now_ms();
        self.peer_states
            .lock(self.rt)
            .ended(peer, slot, now_ms, reason);
    }

    /// Makes room for a session of the peer that comes up, if the peer isn't known and there is no room for one more.
    /// If memory runs out for that, the session is refused as if no peer could make room.
    pub fn make_room_for(&self, peer: u32)
    where
        R: Wait,
    {
        let settled = self.peers.make_room(
            self.rt,
            &self.moments(),
            self.shared,
            self.pool,
            self.usher,
            self.counters,
            peer,
        );
        match settled {
            Ok(settled) => self.say_settled(settled),
            Err(_) => self.say(LogLine::MemoryRefused),
        }
    }

    /// Logs that a peer was forgotten, or couldn't be.
    pub fn say_settled(&self, settled: Settled)
    where
        R: Wait,
    {
        match settled {
            Settled::Nothing | Settled::WentDown(_) => {}
            Settled::Forgotten(peer) => {
                self.peer_states.lock(self.rt).forgotten(peer);
                self.forget_words(peer);
                self.say(LogLine::Forgotten { peer });
            }
            Settled::Kept(peer, number) => self.say(LogLine::NotForgotten { peer, number }),
        }
    }

    /// Forgets what a router said about its LSPs, when the router is forgotten. Takes no memory.
    fn forget_words(&self, peer: u32)
    where
        R: Wait,
    {
        let gone = PathHappening::Expired { peer };
        let _noted = acquire(self.rt, self.words).note(gone);
        let gone = PcErrHappening::Expired { peer };
        let _noted = acquire(self.rt, self.errors).note(gone);
        acquire(self.rt, self.upkeep.names()).forget(peer);
    }

    /// Tests whether a router of this address is served. Counts it if it isn't.
    pub fn is_known(&self, address: u32) -> bool
    where
        R: Wait,
    {
        let is_known = match self.known {
            None => true,
            Some(base) => base.owner(Ipv4(address)).is_some(),
        };
        if !is_known {
            let before = self.strangers.fetch_add(1, Ordering::SeqCst);
            self.count(Counted::Stranger);
            self.say(LogLine::Stranger {
                address,
                count: before.saturating_add(1),
            });
        }
        is_known
    }

    /// Asks for the end of the run, and wakes each connection so that it sees that at once.
    pub fn close(&self)
    where
        R: Wait,
    {
        self.run.close(self.rt);
        self.wakers.ring_all(self.rt);
    }

    /// Forces the end of the run in the same way. The first fault stays.
    pub fn cut(&self, fault: RunFault)
    where
        R: Wait,
    {
        self.run.cut(self.rt, fault);
        self.wakers.ring_all(self.rt);
    }
}
