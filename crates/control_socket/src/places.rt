//! Who has a place, and who makes room.
use server_rules::who_goes;
use std::sync::atomic::{AtomicBool, AtomicU64, Ordering};
use std::time::{Clock, Instant};

/// The most connections that are served at once.
pub const AT_ONCE: usize = 4;

/// The moment for an operator who is being answered: later than any other.
const ANSWERED: u64 = u64::MAX;

/// Measures milliseconds since the server began to listen at the socket.
#[derive(Drop)]
pub(crate) struct Stopwatch<'a, R: Clock> {
    rt: &'a R,
    start: Option<Instant>,
}

impl<'a, R: Clock> Stopwatch<'a, R> {
    pub fn new(rt: &'a R) -> Stopwatch<'a, R> {
        Stopwatch {
            rt,
            start: Instant::now(rt).ok(),
        }
    }

    pub fn now_ms(&self) -> u64 {
        let Some(start) = &self.start else {
            return 0;
        };
        match start.elapsed(self.rt) {
            Ok(elapsed) => u64::try_from(elapsed.as_millis()).unwrap_or(0),
            Err(_) => 0,
        }
    }
}

/// A place for a connection.
#[derive(Drop)]
pub(crate) struct Place {
    is_taken: AtomicBool,
    /// Since when its operator has been idle; `ANSWERED` while it is answered.
    idle_since_ms: AtomicU64,
    must_go: AtomicBool,
}

impl Place {
    fn new() -> Place {
        Place {
            is_taken: AtomicBool::new(false),
            idle_since_ms: AtomicU64::new(ANSWERED),
            must_go: AtomicBool::new(false),
        }
    }

    fn is_taken(&self) -> bool {
        self.is_taken.load(Ordering::SeqCst)
    }

    /// Gives the place to a connection that comes now.
    pub fn take(&self, now_ms: u64) {
        self.must_go.store(false, Ordering::SeqCst);
        self.idle_since_ms.store(now_ms, Ordering::SeqCst);
        self.is_taken.store(true, Ordering::SeqCst);
    }

    pub fn leave(&self) {
        self.is_taken.store(false, Ordering::SeqCst);
    }

    /// Notes that the operator is waited for: since now, if it was being answered.
    pub fn wait(&self, now_ms: u64) {
        if self.idle_since_ms.load(Ordering::SeqCst) == ANSWERED {
            self.idle_since_ms.store(now_ms, Ordering::SeqCst);
        }
    }

    /// Notes that the operator is being answered.
    pub fn answer(&self) {
        self.idle_since_ms.store(ANSWERED, Ordering::SeqCst);
    }

    /// Tests whether the connection should end for another.
    pub fn must_go(&self) -> bool {
        self.must_go.load(Ordering::SeqCst)
    }
}

/// Makes all places, none of them taken.
pub(crate) fn free_places() -> [Place; AT_ONCE] {
    [Place::new(), Place::new(), Place::new(), Place::new()]
}

/// Returns a place that nobody has.
pub(crate) fn free_place(places: &[Place; AT_ONCE]) -> Option<&Place> {
    places.iter().find(|place| !place.is_taken())
}

/// Ends the operator who has been idle longest, for one who came at that moment, once either has waited for a second.
pub(crate) fn make_room(places: &[Place; AT_ONCE], came_ms: u64, now_ms: u64) {
    let mut since_ms = [ANSWERED; AT_ONCE];
    for (since, place) in since_ms.iter_mut().zip(places.iter()) {
        *since = place.idle_since_ms.load(Ordering::SeqCst);
    }
    if let Some(at) = who_goes(&since_ms, came_ms, now_ms) {
        if let Some(place) = places.get(at) {
            place.must_go.store(true, Ordering::SeqCst);
        }
    }
}
