//! Which lines are held back: of one kind at most ten of one router in a second, and at most a hundred over all.
ghost use Rattle.std.specs.Prelude.{◌≡◌, true, false};
ghost use Rattle.server_log.specs.HeldLines.{HoldsBack, LetsThrough, Tells, after_told, blank, may_pass, one_held, passed, rate_of, told};

use crate::kinds::{KINDS, Kind};
use server_rules::LineRate;
use std::alloc::{AllocError, Global};

/// The number of lines of one kind that are written within a second, at most, whatever they are about.
const OVER_ALL: usize = 100;

/// A second, in milliseconds.
const SECOND_MS: u64 = 1000;

/// The number of routers and kinds whose lines are counted apart. The one that was silent longest makes room.
const APART: usize = 512;

/// The lines of one kind: when the last hundred were written, and how many were held back since it was said.
#[derive(Drop)]
struct KindRate {
    moments: [Option<u64>; OVER_ALL],
    /// Where the moment of the hundredth before the next line stands.
    oldest: usize,
    held: u64,
    /// When the first of those was held back.
    held_since_ms: u64,
}

impl KindRate {
    fn new() -> KindRate
        ensures { result ≡ blank }
    {
        KindRate {
            moments: [None; OVER_ALL],
            oldest: 0,
            held: 0,
            held_since_ms: 0,
        }
    }

    /// Says whether a line may be written at this moment: the hundredth before it was written at least a second
    /// earlier.
    fn may_pass(&self, now_ms: u64) -> bool
        ensures { result ≡ may_pass now_ms self.now }
    {
        match self.moments[self.oldest % OVER_ALL] {
            None => true,
            Some(moment_ms) => now_ms.saturating_sub(moment_ms) >= SECOND_MS,
        }
    }

    /// Notes that a line is written at this moment.
    fn pass(&mut self, now_ms: u64)
        ensures { self.new ≡ passed now_ms self.old }
    {
        let oldest = self.oldest % OVER_ALL;
        self.moments[oldest] = Some(now_ms);
        self.oldest = (oldest + 1) % OVER_ALL;
    }

    /// Counts a line that is held back.
    fn hold(&mut self, now_ms: u64)
        ensures { self.new ≡ one_held now_ms self.old }
    {
        if self.held == 0 {
            self.held_since_ms = now_ms;
        }
        self.held = self.held.saturating_add(1);
    }

    /// Takes how many lines were held back, once a second has passed since the first of them. They are counted once.
    fn held_by(&mut self, now_ms: u64) -> Option<u64>
        ensures told { result ≡ told now_ms self.old }
        ensures once { self.new ≡ after_told now_ms self.old }
    {
        if self.held == 0 || now_ms.saturating_sub(self.held_since_ms) < SECOND_MS {
            return None;
        }
        let held = self.held;
        self.held = 0;
        Some(held)
    }
}

/// The lines of one kind about one router.
#[derive(Drop)]
struct RouterRate {
    kind: Kind,
    address: u32,
    rate: LineRate,
    last_ms: u64,
}

/// What is held back.
#[derive(Drop)]
pub(crate) struct Held {
    kinds: Vec<KindRate>,
    routers: Vec<RouterRate>,
}

impl Held {
    /// Makes room for all that is counted apart, so that a line takes no memory.
    pub fn new(alloc: Global) -> Result<Held, AllocError> {
        let mut rates = Vec::with_capacity(alloc, KINDS.len())?;
        for _kind in KINDS {
            rates.push(KindRate::new())?;
        }
        Ok(Held {
            kinds: rates,
            routers: Vec::with_capacity(alloc, APART)?,
        })
    }

    /// Finds where the rate of these lines stands, if they have one.
    fn place_of(&self, kind: Kind, address: u32) -> Option<usize> {
        self.routers
            .iter()
            .position(|known| known.kind == kind && known.address == address)
    }

    /// Finds where the lines stand that came longest ago.
    fn longest_silent(&self) -> usize {
        let mut silent = 0usize;
        let mut since_ms = u64::MAX;
        for (place, known) in self.routers.iter().enumerate() {
            if known.last_ms < since_ms {
                silent = place;
                since_ms = known.last_ms;
            }
        }
        silent
    }

    /// Gives these lines a rate of their own.
    fn begin(&mut self, kind: Kind, address: u32, now_ms: u64)
        ensures { self.new.kinds ≡ self.old.kinds }
    {
        let mut rate = LineRate::new();
        let _said = rate.offer(now_ms);
        self.keep(RouterRate {
            kind,
            address,
            rate,
            last_ms: now_ms,
        });
    }

    /// Keeps a rate, in the place of the one that was silent longest if there is no room.
    fn keep(&mut self, rate: RouterRate)
        ensures { self.new.kinds ≡ self.old.kinds }
    {
        if self.routers.len() < APART {
            let _kept = self.routers.push(rate);
            return;
        }
        let silent = self.longest_silent();
        if let Some(known) = self.routers.get_mut(silent) {
            *known = rate;
        }
    }

    /// Says whether the rate of a router's lines lets one through.
    fn router_lets(&mut self, kind: Kind, address: u32, now_ms: u64) -> bool
        ensures { self.new.kinds ≡ self.old.kinds }
    {
        let Some(place) = self.place_of(kind, address) else {
            self.begin(kind, address, now_ms);
            return true;
        };
        match self.routers.get_mut(place) {
            Some(known) => {
                known.last_ms = now_ms;
                known.rate.offer(now_ms).is_some()
            }
            None => true,
        }
    }

    /// Says whether a line of this kind, about a router of this address, is written now. If not, it is counted.
    pub fn lets(&mut self, kind: Kind, address: u32, now_ms: u64) -> bool
        ensures passes { result ≡ true → LetsThrough now_ms (rate_of kind self.old) (rate_of kind self.new) }
        ensures holds { result ≡ false → HoldsBack now_ms (rate_of kind self.old) (rate_of kind self.new) }
    {
        let router_lets = self.router_lets(kind, address, now_ms);
        let Some(rate) = self.kinds.get_mut(kind.number()) else {
            return true;
        };
        if router_lets && rate.may_pass(now_ms) {
            rate.pass(now_ms);
            return true;
        }
        rate.hold(now_ms);
        false
    }

    /// Takes how many lines of this kind were held back, if it is time to say so.
    pub fn held_by(&mut self, kind: Kind, now_ms: u64) -> Option<u64>
        ensures { Tells now_ms (rate_of kind self.old) result (rate_of kind self.new) }
    {
        self.kinds.get_mut(kind.number())?.held_by(now_ms)
    }
}
