//! At most ten lines of one kind are written in a second; the others are counted.
ghost use Rattle.std.specs.Prelude.{◌≡◌, ◌<◌, true, false, Some, None};
ghost use Rattle.server_rules.specs.Lines.{blank, may_say, said, one_withheld};

/// The most lines of one kind that are written ..
pub const LINES: usize = 10;

/// .. within this time, in milliseconds.
pub const WITHIN_MS: u64 = 1000;

/// The lines of one kind: when the last ten were written, and how many were withheld since.
#[derive(Drop, Debug)]
pub struct LineRate {
    last: [Option<u64>; LINES],
    /// The place of the tenth line before the next one.
    tenth: usize,
    withheld: u64,
}

impl LineRate {
    /// Makes the rate of a kind of which no line was written yet.
    pub fn new() -> LineRate
        ensures { result ≡ blank }
    {
        LineRate {
            last: [None; LINES],
            tenth: 0,
            withheld: 0,
        }
    }

    /// Tests whether a line may be written at this moment: the tenth before it was written a second or more before.
    fn may_say(&self, now_ms: u64) -> bool
        ensures { result ≡ may_say self.now now_ms }
    {
        match self.last[self.tenth % LINES] {
            None => true,
            Some(tenth_ms) => now_ms.saturating_sub(tenth_ms) >= WITHIN_MS,
        }
    }

    /// Notes that a line is written at this moment, and returns how many were withheld before it.
    fn say(&mut self, now_ms: u64) -> u64
        ensures said { self.new ≡ said self.old now_ms }
        ensures withheld { result ≡ self.old.withheld }
    {
        let tenth = self.tenth % LINES;
        self.last[tenth] = Some(now_ms);
        self.tenth = (tenth + 1) % LINES;
        let withheld = self.withheld;
        self.withheld = 0;
        withheld
    }

    /// Asks for a line at this moment. If it may be written, returns how many were withheld before it; otherwise it is
    /// withheld itself (`None`).
    pub fn offer(&mut self, now_ms: u64) -> Option<u64>
        ensures said { may_say self.old now_ms ≡ true → (result ≡ Some self.old.withheld) × (self.new ≡ said self.old now_ms) }
        ensures withheld { may_say self.old now_ms ≡ false → (result ≡ None) × (self.new ≡ one_withheld self.old) }
    {
        if self.may_say(now_ms) {
            return Some(self.say(now_ms));
        }
        self.withheld = self.withheld.saturating_add(1);
        None
    }

    /// Returns how many were withheld, if that should be reported now although no line comes.
    pub fn rest(&mut self, now_ms: u64) -> Option<u64>
        ensures said { 0 < self.old.withheld → may_say self.old now_ms ≡ true → (result ≡ Some self.old.withheld) × (self.new ≡ said self.old now_ms) }
        ensures none { self.old.withheld ≡ 0 → (result ≡ None) × (self.new ≡ self.old) }
        ensures waits { may_say self.old now_ms ≡ false → (result ≡ None) × (self.new ≡ self.old) }
    {
        if self.withheld == 0 {
            return None;
        }
        if self.may_say(now_ms) {
            return Some(self.say(now_ms));
        }
        None
    }
}
