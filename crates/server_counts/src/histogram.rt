//! Times, by how long they were.
ghost use Rattle.std.specs.Prelude.{◌≡◌, ◌<◌, ◌≤◌, length};
ghost use Rattle.server_counts.specs.Times.{bucket_of, first_not_below, no_times, observed};

/// The greatest time of each bucket but the last, in microseconds: from 10 us to 10 s.
pub const BOUNDS_US: [u64; 19] = [
    10, 20, 50, 100, 200, 500, 1_000, 2_000, 5_000, 10_000, 20_000, 50_000, 100_000, 200_000,
    500_000, 1_000_000, 2_000_000, 5_000_000, 10_000_000,
];

/// How many times were in each bucket, and how long all were together.
#[derive(Clone, Copy)]
pub struct Histogram {
    /// A time is in the first bucket whose bound it doesn't exceed, and in the last if it exceeds all.
    pub buckets: [u64; 20],
    pub sum_us: u64,
}

/// Returns the place of the first bound that a time doesn't exceed; past the last if there is none.
fn first_not_below(bounds: &[u64], us: u64) -> usize
    ensures place { result ≡ first_not_below bounds.now us }
    ensures few { result ≤ length bounds.now }
{
    for (at, bound) in bounds.iter().enumerate() {
        if us <= *bound {
            return at;
        }
    }
    bounds.len()
}

/// Returns the place of the bucket of a time.
fn bucket_of(us: u64) -> usize
    ensures bucket { result ≡ bucket_of us }
    ensures few { result < 20 }
{
    first_not_below(&BOUNDS_US, us)
}

impl Histogram {
    pub fn new() -> Histogram
        ensures { result ≡ no_times }
    {
        Histogram {
            buckets: [0; 20],
            sum_us: 0,
        }
    }

    /// Adds a time, in microseconds.
    pub fn observe(&mut self, us: u64)
        ensures { self.new ≡ observed us self.old }
    {
        let at = bucket_of(us);
        self.buckets[at] = self.buckets[at].saturating_add(1);
        self.sum_us = self.sum_us.saturating_add(us);
    }
}
