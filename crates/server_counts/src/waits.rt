//! When paths were asked for, and when their tickets were settled.
ghost use Rattle.std.specs.Prelude.{◌≡◌};
ghost use Rattle.server_counts.specs.Waits.{asked, moment_of, nothing_asked, settled, wait_before, wait_behind};

/// How many tickets are counted separately at once.
const SLOTS: usize = 1024;

/// What is known about a ticket, with a moment in microseconds.
#[derive(Clone, Copy)]
pub enum Moment {
    Nothing,
    /// It was asked for.
    Asked { ticket: u64, at_us: u64 },
    /// It was settled before its request was noted, which another thread does.
    Settled { ticket: u64, at_us: u64 },
}

/// The last moment of each ticket. The ticket that comes 1,024 tickets later takes its place, so a ticket that waits
/// that long isn't timed.
#[derive(Clone, Copy)]
pub struct Waits {
    moments: [Moment; SLOTS],
}

/// Returns how long a ticket waited that is asked for now, if it was settled already.
fn wait_before(moment: Moment, number: u64, now_us: u64) -> Option<u64>
    ensures { result ≡ wait_before moment number now_us }
{
    match moment {
        Moment::Settled { ticket, at_us } if ticket == number => {
            Some(at_us.saturating_sub(now_us))
        }
        _ => None,
    }
}

/// Returns how long a ticket waited that is settled now, if its request was noted.
fn wait_behind(moment: Moment, number: u64, now_us: u64) -> Option<u64>
    ensures { result ≡ wait_behind moment number now_us }
{
    match moment {
        Moment::Asked { ticket, at_us } if ticket == number => {
            Some(now_us.saturating_sub(at_us))
        }
        _ => None,
    }
}

impl Waits {
    pub fn new() -> Waits
        ensures { result ≡ nothing_asked }
    {
        Waits {
            moments: [Moment::Nothing; SLOTS],
        }
    }

    /// Notes that a ticket was asked for. Returns how long it waited, if it was settled already.
    pub fn asked(&mut self, ticket: u64, now_us: u64) -> Option<u64>
        ensures wait { result ≡ wait_before (moment_of self.old ticket) ticket now_us }
        ensures noted { self.new ≡ asked ticket now_us self.old }
    {
        let at = (ticket % 1024) as usize;
        let wait = wait_before(self.moments[at], ticket, now_us);
        self.moments[at] = match wait {
            Some(_) => Moment::Nothing,
            None => Moment::Asked {
                ticket,
                at_us: now_us,
            },
        };
        wait
    }

    /// Notes that a ticket was settled. Returns how long it waited, if its request was noted.
    pub fn settled(&mut self, ticket: u64, now_us: u64) -> Option<u64>
        ensures wait { result ≡ wait_behind (moment_of self.old ticket) ticket now_us }
        ensures noted { self.new ≡ settled ticket now_us self.old }
    {
        let at = (ticket % 1024) as usize;
        let wait = wait_behind(self.moments[at], ticket, now_us);
        self.moments[at] = match wait {
            Some(_) => Moment::Nothing,
            None => Moment::Settled {
                ticket,
                at_us: now_us,
            },
        };
        wait
    }
}
