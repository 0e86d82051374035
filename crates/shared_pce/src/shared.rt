//! The lock, and what is done under it.
ghost use Rattle.std.specs.Prelude.{◌≡◌, ◌≤◌, ◌==◌, [], true, filter, length, List, All, IfOk, IfErr, OnErr, replicate};
ghost use mathlib.Core.List.{IsPrefix};
ghost use Rattle.step_core.specs.States.{has_waiting, is_queued};
ghost use Rattle.te_base.specs.Values.{values_in};
ghost use Rattle.te_snapshot.specs.Left.{all_left};
ghost use Rattle.history_core.specs.Histories.{Replays, IsSound, beginning, is_full, steps_of, grants_of};
ghost use Rattle.history_tokens.specs.declared.rule.Happening.{Happening};
ghost use Rattle.step_core.specs.declared.event.Event.{Event};
ghost use Rattle.history_seats.specs.Past.{database_at};
ghost use Rattle.history_seats.specs.Seeing.{HasSeenOf};
ghost use Rattle.history_seats.specs.Receipts.{new_seat};
ghost use Rattle.history_seats.specs.Audits.{IsAudited, Fails};
ghost use Rattle.shared_pce.specs.Residuals.{WasLeft};
ghost use Rattle.shared_pce.specs.Turns.{Received, SeesMore};

use crate::audit::{Audit, AuditRefused};
use crate::bell::Bell;
use crate::due::RollAt;
use crate::looks::{links_of, lsp_count};
use crate::residual_log::ResidualLog;
use crate::stepped::{Stepped, priority_of};
use crate::unfolded::Unfolded;
use database_looks::{LeftLook, Look};
use history_core::{Database, Event, Fault, Reply, SharedEvent};
use history_seats::{Brands, Front, Held, Seat, Unnamed};
use place_tokens::Unopened;
use sequence::PlainData;
use server_counts::ResidualRow;
use short_lock::acquire;
use std::alloc::{AllocError, Global};
use std::sync::atomic::AtomicU64;
use std::sync::ledger::Blank;
use std::sync::{Mutex, Wait};
use te_base::LinkValues;

mod drops;
mod rolls;
mod turns;

/// Stands for the steps of a journal if none is written: no roll waits for it.
const NO_JOURNAL: u64 = u64::MAX;

/// One database for all threads, under one lock.
pub struct Shared<B: Brands> {
    alloc: Global,
    held: Mutex<Held<B>>,
    bell: Bell,
    /// What steps left of links. Its lock is taken only while that of the database is free.
    residuals: Mutex<ResidualLog>,
    /// What the receipts of rolled steps take. Its lock is taken under that of the database, or while no other is held.
    unfolded: Mutex<Unfolded>,
    /// When the history is rolled before a step, if no receipts of rolled steps are left.
    roll_at: RollAt,
    /// How many steps the journal has. 2^64 - 1 if none is written.
    written: AtomicU64,
}

/// Drops each part. Written by hand because a derived drop would be proved again for every owner.
impl<B: Brands> Drop for Shared<B> {
    fn drop(self) {
        let Shared {
            alloc: _,
            held,
            bell,
            residuals,
            unfolded,
            roll_at: _,
            written: _,
        } = self;
        drop(held);
        drop(bell);
        drop(residuals);
        drop(unfolded);
    }
}

impl<B: Brands> Shared<B> {
    /// Puts a database that has taken no step under a lock, with 1 to 256 seats. From `roll_at` on each step rolls the
    /// history first. Drops everything if memory runs out.
    pub fn new(
        alloc: Global,
        database: Database,
        seats: u64,
        steps: Blank,
        grants: Blank,
        room: Unopened,
        history: Unnamed<Event>,
        roll_at: RollAt,
    ) -> Result<(Shared<B>, Vec<Seat<B>>), AllocError>
        requires none_taken { steps_of database ≡ 0 }
        requires start { database.start ≡ beginning B.text }
        requires history { history ≡ B.log }
        requires seats { (1 ≤ seats) × (seats ≤ 256) }
        requires steps { (steps.name ≡ B.steps) × (steps.parts ≡ B.seats) × (steps.parts ≡ seats) }
        requires grants { (grants.name ≡ B.grants) × (grants.parts ≡ B.seats) × (grants.parts ≡ seats) }
        requires room { (room.table ≡ B.table) × (room.seats ≡ B.seats) × (room.seats ≡ seats) }
        ensures { IfOk result (λ made. made.1.items ≡ replicate seats new_seat) }
    {
        let (held, seats) = Held::new(alloc, database, seats, steps, grants, room, history)?;
        let shared = Shared {
            alloc,
            held: Mutex::new(held),
            bell: Bell::new(),
            residuals: Mutex::new(ResidualLog::new(alloc)),
            unfolded: Mutex::new(Unfolded::new()),
            roll_at,
            written: AtomicU64::new(NO_JOURNAL),
        };
        Ok((shared, seats))
    }

    /// Takes one event as one step under the lock, and gives its receipt to the seat. If the history takes as much
    /// memory as it may, given the receipts of rolled steps, it is rolled first. After a fault the seat is as before,
    /// and no step was taken. Fails with `HistoryFull` if no further step could be kept.
    pub fn submit<R: Wait>(&self, rt: &R, seat: &mut Seat<B>, event: Event) -> Result<Reply, Fault>
        ensures received { IfOk result (Received B.text seat.old event seat.new) }
        ensures unchanged_on_fault { OnErr result (SeesMore seat.old seat.new) }
        ensures full { result ≡ Err Fault.HistoryFull → is_full (database_at B.text seat.new.seen) ≡ true }
    {
        let event = SharedEvent::new(self.alloc, event)?;
        self.submit_shared(rt, seat, event)
    }

    /// Does the same with an event that the caller keeps too. It is in memory once, for the history, the receipt and
    /// the caller. If memory runs out and the history holds a megabyte or more, it is rolled and the event is tried
    /// once more.
    pub fn submit_shared<R: Wait>(
        &self,
        rt: &R,
        seat: &mut Seat<B>,
        event: SharedEvent,
    ) -> Result<Reply, Fault>
        ensures received { IfOk result (Received B.text seat.old event seat.new) }
        ensures unchanged_on_fault { OnErr result (SeesMore seat.old seat.new) }
        ensures full { result ≡ Err Fault.HistoryFull → is_full (database_at B.text seat.new.seen) ≡ true }
    {
        let again = event.copy()?;
        match self.submit_once(rt, seat, event) {
            Err(Fault::OutOfMemory) => self.submit_again(rt, seat, again),
            done => done,
        }
    }

    /// Does the same after memory ran out: rolls the history first. Fails with `OutOfMemory` if there is nothing to
    /// roll.
    fn submit_again<R: Wait>(
        &self,
        rt: &R,
        seat: &mut Seat<B>,
        event: SharedEvent,
    ) -> Result<Reply, Fault>
        ensures received { IfOk result (Received B.text seat.old event seat.new) }
        ensures unchanged_on_fault { OnErr result (SeesMore seat.old seat.new) }
        ensures full { result ≡ Err Fault.HistoryFull → is_full (database_at B.text seat.new.seen) ≡ true }
    {
        if !self.spare(rt, seat) {
            return Err(Fault::OutOfMemory);
        }
        self.submit_once(rt, seat, event)
    }

    /// Does the same, and tries once.
    fn submit_once<R: Wait>(
        &self,
        rt: &R,
        seat: &mut Seat<B>,
        event: SharedEvent,
    ) -> Result<Reply, Fault>
        ensures received { IfOk result (Received B.text seat.old event seat.new) }
        ensures unchanged_on_fault { OnErr result (SeesMore seat.old seat.new) }
        ensures full { result ≡ Err Fault.HistoryFull → is_full (database_at B.text seat.new.seen) ≡ true }
    {
        seat.reserve(1)?;
        let priority = priority_of(event.event());
        let mut held = acquire(rt, &self.held);
        let (stepped, rolled) = self.roll_and_step(rt, &mut held, seat, event, priority)?;
        drop(held);
        drop(rolled);
        if matches!(stepped.reply, Reply::Asked(_) | Reply::Again) {
            self.bell.ring();
        }
        Ok(self.note_step(rt, stepped))
    }

    /// Keeps what a step left of links, while the lock is free, and returns its reply. If memory runs out it isn't
    /// kept.
    fn note_step<R: Wait>(&self, rt: &R, stepped: Stepped) -> Reply
        requires { All WasLeft stepped.rows.items }
        ensures { result ≡ stepped.reply }
    {
        let Stepped {
            reply,
            dropped,
            rows,
        } = stepped;
        if !rows.is_empty() {
            let _noted = acquire(rt, &self.residuals).note(&rows);
        }
        drop(rows);
        self.drop_folded(rt, dropped);
        reply
    }

    /// Copies what the last steps that added paths left of their links: fewer than 65,600 rows. What a step left is
    /// kept after the lock of the database is freed, so the step may be in the history earlier.
    pub fn residuals<R: Wait>(&self, rt: &R) -> Result<Vec<ResidualRow>, AllocError>
        ensures { IfOk result (λ rows. All WasLeft rows.items) }
    {
        acquire(rt, &self.residuals).copies(self.alloc)
    }

    /// Makes a front that has seen all that has happened until now. It has no bytes.
    pub fn front<R: Wait>(&self, rt: &R) -> Front<Event, B> {
        acquire(rt, &self.held).front()
    }

    /// Tests whether a ticket waits to be searched for.
    pub fn waiting<R: Wait>(&self, rt: &R, me: &mut Front<Event, B>) -> bool
        ensures begins { IsPrefix me.old me.new }
        ensures waiting { result ≡ has_waiting (database_at B.text me.new).state }
    {
        let mut held = acquire(rt, &self.held);
        held.show(me);
        held.database().waiting()
    }

    /// Tests whether messages wait to be sent to the peer.
    pub fn queued<R: Wait>(&self, rt: &R, me: &mut Front<Event, B>, peer: u32) -> bool
        ensures begins { IsPrefix me.old me.new }
        ensures queued { result ≡ is_queued (database_at B.text me.new).state peer }
    {
        let mut held = acquire(rt, &self.held);
        held.show(me);
        held.database().queued(peer)
    }

    /// Does the same, for a seat.
    pub fn queued_at<R: Wait>(&self, rt: &R, seat: &mut Seat<B>, peer: u32) -> bool
        ensures sees { SeesMore seat.old seat.new }
        ensures queued { result ≡ is_queued (database_at B.text seat.new.seen).state peer }
    {
        let mut held = acquire(rt, &self.held);
        held.show_seat(seat);
        held.database().queued(peer)
    }

    /// Counts the steps that are kept, of those that were taken.
    pub fn kept<R: Wait>(&self, rt: &R, me: &mut Front<Event, B>) -> u64
        ensures begins { IsPrefix me.old me.new }
        ensures kept { result ≡ length (database_at B.text me.new).history }
    {
        let mut held = acquire(rt, &self.held);
        held.show(me);
        held.database().history().len() as u64
    }

    /// Lists what is left of every link at each of the eight priorities, in bytes per second, by the number of the
    /// link: the reservable bandwidth minus what is reserved, all at one moment. It is below zero if more is reported
    /// than the link can carry. It holds the lock while it reads eight numbers for each link.
    pub fn left<R: Wait>(
        &self,
        rt: &R,
        me: &mut Front<Event, B>,
    ) -> Result<Vec<[i64; 8]>, AllocError>
        ensures begins { IsPrefix me.old me.new }
        ensures left { IfOk result (λ table. let d = database_at B.text me.new in table.items ≡ all_left d.state.te.links d.state.base.paths) }
    {
        self.look(rt, me, &LeftLook)
    }

    /// Does the same, for a seat.
    pub fn left_at<R: Wait>(&self, rt: &R, seat: &mut Seat<B>) -> Result<Vec<[i64; 8]>, AllocError>
        ensures sees { SeesMore seat.old seat.new }
        ensures left { IfOk result (λ table. let d = database_at B.text seat.new.seen in table.items ≡ all_left d.state.te.links d.state.base.paths) }
    {
        self.look_at(rt, seat, &LeftLook)
    }

    /// Lists the values of every link, and what is left of it at each of the eight priorities, all at one moment.
    pub fn links<R: Wait>(
        &self,
        rt: &R,
        me: &mut Front<Event, B>,
    ) -> Result<(Vec<LinkValues>, Vec<[i64; 8]>), AllocError>
        ensures begins { IsPrefix me.old me.new }
        ensures values { IfOk result (λ table. table.0.items ≡ values_in (database_at B.text me.new).state.te) }
        ensures left { IfOk result (λ table. let d = database_at B.text me.new in table.1.items ≡ all_left d.state.te.links d.state.base.paths) }
    {
        let mut held = acquire(rt, &self.held);
        held.show(me);
        links_of(self.alloc, held.database())
    }

    /// Counts the known LSPs of the peer.
    pub fn lsp_count<R: Wait>(&self, rt: &R, me: &mut Front<Event, B>, peer: u32) -> usize
        ensures begins { IsPrefix me.old me.new }
        ensures count { result ≡ length (filter (λ r. r.peer == peer) (database_at B.text me.new).state.base.records) }
    {
        let mut held = acquire(rt, &self.held);
        held.show(me);
        lsp_count(held.database(), peer)
    }

    /// Runs a query: what it sees of the database, all at one moment, is copied out. This is no step. It holds the lock
    /// while the query runs.
    pub fn look<R: Wait, L: Look>(
        &self,
        rt: &R,
        me: &mut Front<Event, B>,
        look: &L,
    ) -> Result<L::Seen, AllocError>
        ensures begins { IsPrefix me.old me.new }
        ensures sees { IfOk result (L.sees look.now (database_at B.text me.new)) }
    {
        let mut held = acquire(rt, &self.held);
        held.show(me);
        look.see(self.alloc, held.database())
    }

    /// Does the same, for a seat.
    pub fn look_at<R: Wait, L: Look>(
        &self,
        rt: &R,
        seat: &mut Seat<B>,
        look: &L,
    ) -> Result<L::Seen, AllocError>
        ensures shown { SeesMore seat.old seat.new }
        ensures sees { IfOk result (L.sees look.now (database_at B.text seat.new.seen)) }
    {
        let mut held = acquire(rt, &self.held);
        held.show_seat(seat);
        look.see(self.alloc, held.database())
    }

    /// Announces the end, which wakes the workers.
    pub fn finish<R: Wait>(&self, rt: &R) {
        let held = acquire(rt, &self.held);
        self.bell.ring_out();
        drop(held);
    }

    /// Tests whether the end was announced.
    pub fn is_over(&self) -> bool {
        self.bell.is_over()
    }

    /// Takes the database out of the lock and audits all of its seats. If the audit fails everything is handed back.
    pub fn close(self, seats: Vec<Seat<B>>) -> Result<Audit, AuditRefused<B>>
        ensures audited { IfOk result (λ audit. IsAudited B.seats audit.database seats.items) }
        ensures one_history { IfOk result (λ audit. (past : List (Happening Event)) × (audit.database ≡ database_at B.text past) × All (HasSeenOf past) seats.items) }
        ensures replays { IfOk result (λ audit. Replays audit.database) }
        ensures sound { IfOk result (λ audit. IsSound audit.database) }
        ensures sums { IfOk result (λ audit. (audit.steps ≡ steps_of audit.database) × (audit.grants ≡ grants_of audit.database)) }
        ensures handed_back { IfErr result (λ refused. refused.seats.items ≡ seats.items) }
        ensures refused { IfErr result (λ refused. (past : List (Happening Event)) × All (HasSeenOf past) seats.items × Fails B.seats (database_at B.text past) seats.items refused.fault) }
    {
        let Shared {
            alloc,
            held,
            bell,
            residuals,
            unfolded,
            roll_at,
            written,
        } = self;
        let mut held = held.into_inner();
        let mut seats = seats;
        if let Err(fault) = held.audit(&mut seats) {
            return Err(AuditRefused {
                shared: Shared {
                    alloc,
                    held: Mutex::new(held),
                    bell,
                    residuals,
                    unfolded,
                    roll_at,
                    written,
                },
                seats,
                fault,
            });
        }
        let database = held.into_database();
        // only for the proof: the history is sound
        let _sound = database.history();
        let steps = database.steps();
        let grants = database.grants();
        Ok(Audit {
            database,
            steps,
            grants,
        })
    }
}
