//! The table of counters.
ghost use Rattle.std.specs.Prelude.{◌≡◌};
ghost use Rattle.server_counts.specs.Counts.{added, count_of, nothing_counted, timed, times_of};

use crate::histogram::Histogram;
use crate::kinds::{Counted, place};

/// How many numbers there are.
const NUMBERS: usize = 2306;

/// How often each thing happened, and how long things took.
#[derive(Clone, Copy)]
pub struct Counters {
    numbers: [u64; NUMBERS],
    /// From the beginning of a search to the verdict on what it found.
    searches: Histogram,
    /// From a request to the last verdict.
    waits: Histogram,
    /// How long a look held the lock.
    looks: Histogram,
}

/// What is measured in time.
#[derive(Clone, Copy, PartialEq, Eq, Debug)]
pub enum Timed {
    Search,
    Wait,
    Look,
}

impl Counters {
    /// Makes counters for a run in which nothing has happened.
    pub fn new() -> Counters
        ensures { result ≡ nothing_counted }
    {
        Counters {
            numbers: [0; NUMBERS],
            searches: Histogram::new(),
            waits: Histogram::new(),
            looks: Histogram::new(),
        }
    }

    /// Counts that this happened once more.
    pub fn add(&mut self, what: Counted)
        ensures { self.new ≡ added what self.old }
    {
        let at = place(what);
        self.numbers[at] = self.numbers[at].saturating_add(1);
    }

    /// Returns how often this happened.
    pub fn count(&self, what: Counted) -> u64
        ensures { result ≡ count_of self.now what }
    {
        self.numbers[place(what)]
    }

    /// Adds a time that this took, in microseconds.
    pub fn observe(&mut self, what: Timed, us: u64)
        ensures { self.new ≡ timed what us self.old }
    {
        match what {
            Timed::Search => self.searches.observe(us),
            Timed::Wait => self.waits.observe(us),
            Timed::Look => self.looks.observe(us),
        }
    }

    /// Returns how long this took.
    pub fn times(&self, what: Timed) -> Histogram
        ensures { result ≡ times_of what self.now }
    {
        match what {
            Timed::Search => self.searches,
            Timed::Wait => self.waits,
            Timed::Look => self.looks,
        }
    }
}
