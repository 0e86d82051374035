//! The turns of a worker: it takes a ticket, searches with the lock free, and commits what it found.
ghost use Rattle.std.specs.Prelude.{◌≡◌, true, IfOk, OnErr};
ghost use Rattle.step_core.specs.States.{has_waiting};
ghost use mathlib.Core.List.{IsPrefix};
ghost use Rattle.history_core.specs.Histories.{is_full};
ghost use Rattle.history_seats.specs.Past.{database_at};
ghost use Rattle.history_seats.specs.Receipts.{SeatContent};
ghost use Rattle.shared_pce.specs.Residuals.{IsLookedAt};
ghost use Rattle.shared_pce.specs.Turns.{Takes, TakesNext, MayTake, Received, SeesMore, Commits, Works};

use super::Shared;
use crate::work::{Gate, Worked};
use history_core::{Event, Fault, Job, Reply, SharedEvent};
use history_seats::{Brands, Front, Held, Seat};
use pcep_word::Priority;
use sequence::PlainData;
use short_lock::acquire;
use std::sync::{CondvarTimeouts, Wait};
use std::time::{Clock, Duration};

/// Takes the next waiting ticket, if there is one, while the lock is held. Returns `None` also if no further step can
/// be kept or memory runs out: then the ticket waits as before.
fn take_next<B: Brands>(held: &mut Held<B>, seat: &mut Seat<B>, take: &SharedEvent) -> Option<Job>
    requires { take.now ≡ Event.Take }
    ensures { TakesNext B.text seat.old seat.new result }
{
    if !held.database().waiting() {
        return None;
    }
    let Ok(event) = take.copy() else {
        return None;
    };
    match held.step_and_fold(seat, event) {
        Ok((reply, _none)) => match reply {
            Reply::Job(job) => Some(job),
            _ => None,
        },
        Err(_) => None,
    }
}

impl<B: Brands> Shared<B> {
    /// Takes a ticket, if one waits.
    fn take<R: Wait>(&self, rt: &R, seat: &mut Seat<B>) -> Result<Option<Job>, Fault>
        ensures took { IfOk result (Takes B.text seat.old seat.new) }
        ensures unchanged_on_fault { OnErr result (SeesMore seat.old seat.new) }
        ensures full { result ≡ Err Fault.HistoryFull → is_full (database_at B.text seat.new.seen) ≡ true }
    {
        match self.submit(rt, seat, Event::Take)? {
            Reply::Job(job) => Ok(Some(job)),
            _ => Ok(None),
        }
    }

    /// Commits what a search found for an LSP of this setup priority, and takes the next waiting ticket, if there is
    /// one, before the lock is freed.
    fn commit_and_take<R: Wait>(
        &self,
        rt: &R,
        seat: &mut Seat<B>,
        commit: SharedEvent,
        setup: Priority,
        take: &SharedEvent,
    ) -> Result<(Reply, Option<Job>), Fault>
        requires take { take.now ≡ Event.Take }
        requires setup { IsLookedAt commit setup }
        ensures received { IfOk result (λ r. (mid : SeatContent) × Received B.text seat.old commit mid r.0 × TakesNext B.text mid seat.new r.1) }
        ensures unchanged_on_fault { OnErr result (SeesMore seat.old seat.new) }
        ensures full { result ≡ Err Fault.HistoryFull → is_full (database_at B.text seat.new.seen) ≡ true }
    {
        seat.reserve(2)?;
        let mut held = acquire(rt, &self.held);
        let (stepped, rolled) = self.roll_and_step(rt, &mut held, seat, commit, setup)?;
        let next = take_next(&mut held, seat, take);
        drop(held);
        drop(rolled);
        Ok((self.note_step(rt, stepped), next))
    }

    /// Searches for the job's path, commits what was found, and takes the next ticket. No lock is held during the search.
    fn finish_job<R: Wait>(
        &self,
        rt: &R,
        seat: &mut Seat<B>,
        job: &Job,
    ) -> Result<(Reply, Option<Job>), Fault>
        ensures committed { IfOk result (λ r. (mid : SeatContent) × Commits B.text seat.old job.now mid r.0 × TakesNext B.text mid seat.new r.1) }
        ensures unchanged_on_fault { OnErr result (SeesMore seat.old seat.new) }
        ensures full { result ≡ Err Fault.HistoryFull → is_full (database_at B.text seat.new.seen) ≡ true }
    {
        let take = SharedEvent::new(self.alloc, Event::Take)?;
        let offer = job.search(self.alloc)?;
        let event = Event::Commit {
            ticket: job.ticket.id,
            offer,
        };
        let commit = SharedEvent::new(self.alloc, event)?;
        let setup = job.ticket.constraints.priorities.setup();
        self.commit_and_take(rt, seat, commit, setup, &take)
    }

    /// Does one turn of a worker: takes the job in the seat's hand, or else a waiting ticket, searches for its path,
    /// commits it, and takes the job of the next waiting ticket in hand. It holds no lock while it calls the gate, nor
    /// during the search. After a fault nothing was done, or the ticket was taken and its job is in hand, for the next
    /// turn to finish. Fails with `HistoryFull` if no further step could be kept.
    pub fn work_one<R: Wait, A: Gate>(
        &self,
        rt: &R,
        seat: &mut Seat<B>,
        gate: &mut A,
    ) -> Result<Worked, Fault>
        ensures worked { IfOk result (Works B.text seat.old seat.new) }
        ensures paused { OnErr result (MayTake B.text seat.old seat.new) }
        ensures full { result ≡ Err Fault.HistoryFull → is_full (database_at B.text seat.new.seen) ≡ true }
    {
        let in_hand = seat.hand().take();
        let job = match in_hand {
            Some(job) => job,
            None => match self.take(rt, seat)? {
                Some(job) => job,
                None => return Ok(Worked::Idle),
            },
        };
        gate.computing(job.ticket.id);
        match self.finish_job(rt, seat, &job) {
            Ok((reply, next)) => {
                *seat.hand() = next;
                Ok(Worked::Done { job, reply })
            }
            Err(fault) => {
                *seat.hand() = Some(job);
                Err(fault)
            }
        }
    }

    /// Waits until a ticket waits, the end was announced or the time is up. Returns whether a ticket waits in what was
    /// seen by then.
    pub fn await_work<R: Wait + Clock>(
        &self,
        rt: &R,
        me: &mut Front<Event, B>,
        most: Duration,
    ) -> bool
        ensures begins { IsPrefix me.old me.new }
        ensures waiting { result ≡ has_waiting (database_at B.text me.new).state }
    {
        let bell = &self.bell;
        let held = acquire(rt, &self.held);
        let (mut held, _timeout) = bell.work.wait_timeout_while(rt, held, most, |held| {
            !held.database().waiting() && !bell.is_over()
        });
        held.show(me);
        held.database().waiting()
    }
}
