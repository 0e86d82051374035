//! Rolls: the state becomes the base of the history, and the kept steps are dropped. Their memory is freed once each
//! seat has folded its receipts.
ghost use Rattle.std.specs.Prelude.{ℕ, ◌≡◌, ◌&&◌, not, true, All, IfOk, OnErr};
ghost use mathlib.Core.List.{IsPrefix};
ghost use Rattle.history_core.specs.Histories.{is_full};
ghost use Rattle.history_seats.specs.Past.{database_at, with_seen};
ghost use Rattle.history_seats.specs.Receipts.{after_fold};
ghost use Rattle.shared_pce.specs.Rolls.{beside, is_due, is_let_go, of_seat};
ghost use Rattle.shared_pce.specs.Residuals.{IsLookedAt, WasLeft};
ghost use Rattle.shared_pce.specs.Turns.{GivesIf, IsRolledIf, Received, SeesMore, RolledUp, RollsIf};

use super::{NO_JOURNAL, Shared};
use crate::due::{RollAt, SPARE_AT, is_due, is_let_go};
use crate::rolled::RolledSteps;
use crate::stepped::{Stepped, step_seen};
use history_core::{Fault, SharedEvent, Step};
use history_seats::{Brands, Held, Receipt, Seat, receipt_bytes};
use pcep_word::Priority;
use short_lock::acquire;
use std::alloc::AllocError;
use std::sync::Wait;
use std::sync::atomic::Ordering;

/// Rolls the history if it is due and a journal lacks none of its steps, while the lock is held, and returns the steps
/// that were kept, so that they can be dropped after it is freed. `None` if it isn't rolled. If memory runs out nothing
/// has changed.
fn roll_due<B: Brands>(
    held: &mut Held<B>,
    seat: &mut Seat<B>,
    written: u64,
    whole: RollAt,
    at: RollAt,
) -> Result<Option<Vec<Step>>, AllocError>
    ensures rolled { IfOk result (IsRolledIf (is_let_go written whole at (database_at B.text held.old)) held.old held.new) }
    ensures unchanged_without_memory { OnErr result (held.new ≡ held.old) }
    ensures sees { SeesMore seat.old seat.new }
{
    held.show_seat(seat);
    if !is_let_go(held, written, whole, at) {
        return Ok(None);
    }
    let dropped = held.take_rolled(seat)?;
    Ok(Some(dropped))
}

/// Tests whether it was due, and was rolled.
fn is_rolled(rolled: Result<Option<u64>, AllocError>) -> bool {
    matches!(rolled, Ok(Some(_)))
}

impl<B: Brands> Shared<B> {
    /// Rolls the history: makes the state its base, and drops the steps that were kept after the lock is freed. Returns
    /// how many steps were taken before the base. The caller shows a seat. If memory runs out nothing has changed.
    pub fn roll<R: Wait>(&self, rt: &R, seat: &mut Seat<B>) -> Result<u64, AllocError>
        ensures rolled { IfOk result (RolledUp B.text seat.old seat.new) }
        ensures unchanged_without_memory { OnErr result (SeesMore seat.old seat.new) }
    {
        let mut held = acquire(rt, &self.held);
        let bytes = held.kept_bytes();
        let dropped = held.take_rolled(seat)?;
        let steps = held.database().rolled();
        self.note_roll(rt, bytes);
        drop(held);
        drop(dropped);
        Ok(steps)
    }

    /// Rolls the history if it is due: if this many steps are kept, or steps of this many bytes. Returns how many were
    /// taken before its new base. Returns `None` if it isn't due, for instance because another thread has rolled it:
    /// the test and the roll are under one lock. If memory runs out nothing has changed.
    pub fn roll_if<R: Wait>(
        &self,
        rt: &R,
        seat: &mut Seat<B>,
        at: RollAt,
    ) -> Result<Option<u64>, AllocError>
        ensures rolled { IfOk result (RollsIf (is_due at) B.text seat.old seat.new) }
        ensures unchanged_without_memory { OnErr result (SeesMore seat.old seat.new) }
    {
        let mut held = acquire(rt, &self.held);
        held.show_seat(seat);
        if !is_due(&held, at) {
            return Ok(None);
        }
        let bytes = held.kept_bytes();
        let dropped = held.take_rolled(seat)?;
        let steps = held.database().rolled();
        self.note_roll(rt, bytes);
        drop(held);
        drop(dropped);
        Ok(Some(steps))
    }

    /// Rolls the history if it is due at `at`, and returns the steps that were kept, so that a journal can write each of
    /// them. `None` if it isn't due.
    pub fn take_rolled_if<R: Wait>(
        &self,
        rt: &R,
        seat: &mut Seat<B>,
        at: RollAt,
    ) -> Result<Option<RolledSteps>, AllocError>
        ensures rolled { IfOk result (GivesIf (is_due at) B.text seat.old seat.new) }
        ensures unchanged_without_memory { OnErr result (SeesMore seat.old seat.new) }
    {
        let mut held = acquire(rt, &self.held);
        held.show_seat(seat);
        let is_due = is_due(&held, at);
        if !is_due {
            return Ok(None);
        }
        let bytes = held.kept_bytes();
        let first = held.database().rolled();
        let steps = held.take_rolled(seat)?;
        self.note_roll(rt, bytes);
        drop(held);
        Ok(Some(RolledSteps { first, steps }))
    }

    /// Rolls the history before a step, if it takes as much memory as it may, given the receipts of rolled steps.
    /// Returns the steps that were kept, so that they can be dropped after the lock is freed. If memory runs out, the
    /// step is taken anyway.
    fn make_way<R: Wait>(&self, rt: &R, held: &mut Held<B>, seat: &mut Seat<B>) -> Option<Vec<Step>>
        ensures { SeesMore seat.old seat.new }
    {
        let at = self.due_at(rt);
        let bytes = held.kept_bytes();
        match roll_due(held, seat, self.written(), self.roll_at, at) {
            Ok(Some(dropped)) => {
                self.note_roll(rt, bytes);
                Some(dropped)
            }
            _ => None,
        }
    }

    /// Takes one step while the lock is held, and rolls the history first if that is due. Returns the steps that were
    /// kept, so that they can be dropped after it is freed.
    pub(super) fn roll_and_step<R: Wait>(
        &self,
        rt: &R,
        held: &mut Held<B>,
        seat: &mut Seat<B>,
        event: SharedEvent,
        priority: Priority,
    ) -> Result<(Stepped, Option<Vec<Step>>), Fault>
        requires { IsLookedAt event priority }
        ensures received { IfOk result (λ r. Received B.text seat.old event seat.new r.0.reply) }
        ensures left { IfOk result (λ r. All WasLeft r.0.rows.items) }
        ensures unchanged_on_fault { OnErr result (SeesMore seat.old seat.new) }
        ensures full { result ≡ Err Fault.HistoryFull → is_full (database_at B.text seat.new.seen) ≡ true }
    {
        let rolled = self.make_way(rt, held, seat);
        let stepped = step_seen(self.alloc, held, seat, event, priority)?;
        Ok((stepped, rolled))
    }

    /// Rolls the history if it is due and a journal lacks none of its steps. If it lacks some, the roll waits until the
    /// history takes twice what it may.
    fn roll_if_written<R: Wait>(
        &self,
        rt: &R,
        seat: &mut Seat<B>,
        written: u64,
        at: RollAt,
    ) -> Result<Option<u64>, AllocError>
        ensures rolled { IfOk result (RollsIf (is_let_go written self.now.roll_at at) B.text seat.old seat.new) }
        ensures unchanged_without_memory { OnErr result (SeesMore seat.old seat.new) }
    {
        let mut held = acquire(rt, &self.held);
        held.show_seat(seat);
        if !is_let_go(&held, written, self.roll_at, at) {
            return Ok(None);
        }
        let bytes = held.kept_bytes();
        let dropped = held.take_rolled(seat)?;
        let steps = held.database().rolled();
        self.note_roll(rt, bytes);
        drop(held);
        drop(dropped);
        Ok(Some(steps))
    }

    /// Rolls the history if it takes as much memory as it may, given the receipts of rolled steps, as each step does
    /// first.
    pub fn roll_if_due<R: Wait>(
        &self,
        rt: &R,
        seat: &mut Seat<B>,
    ) -> Result<Option<u64>, AllocError>
        ensures rolled { IfOk result (λ r. (unfolded written : ℕ) × RollsIf (is_let_go written self.now.roll_at (beside unfolded self.now.roll_at)) B.text seat.old seat.new r) }
        ensures unchanged_without_memory { OnErr result (SeesMore seat.old seat.new) }
    {
        let at = self.due_at(rt);
        self.roll_if_written(rt, seat, self.written(), at)
    }

    /// Tests whether a roll is due and waits for a journal.
    pub fn is_roll_waiting<R: Wait>(&self, rt: &R, seat: &mut Seat<B>) -> bool
        ensures sees { SeesMore seat.old seat.new }
        ensures waits { (unfolded written : ℕ) × (let d = database_at B.text seat.new.seen in let at = beside unfolded self.now.roll_at in result ≡ (is_due at d && not (is_let_go written self.now.roll_at at d))) }
    {
        let at = self.due_at(rt);
        let written = self.written();
        let mut held = acquire(rt, &self.held);
        held.show_seat(seat);
        is_due(&held, at) && !is_let_go(&held, written, self.roll_at, at)
    }

    /// Notes how many steps a journal has. From then on rolls wait for it.
    pub fn note_written(&self, steps: u64) {
        self.written.store(steps, Ordering::SeqCst);
    }

    /// Notes that no journal is written any more, or that rolls wait for it no longer.
    pub fn note_journal_gone(&self) {
        self.written.store(NO_JOURNAL, Ordering::SeqCst);
    }

    /// Returns how many steps a journal has. `None` if none is written.
    pub fn journal_steps(&self) -> Option<u64> {
        let steps = self.written();
        if steps == NO_JOURNAL {
            None
        } else {
            Some(steps)
        }
    }

    /// Returns how many steps a journal has, or 2^64 - 1 if none is written.
    fn written(&self) -> u64 {
        self.written.load(Ordering::SeqCst)
    }

    /// Does the same if no further step can be kept.
    pub fn roll_if_full<R: Wait>(
        &self,
        rt: &R,
        seat: &mut Seat<B>,
    ) -> Result<Option<u64>, AllocError>
        ensures rolled { IfOk result (RollsIf is_full B.text seat.old seat.new) }
        ensures unchanged_without_memory { OnErr result (SeesMore seat.old seat.new) }
    {
        let mut held = acquire(rt, &self.held);
        held.show_seat(seat);
        if !held.database().is_full() {
            return Ok(None);
        }
        let bytes = held.kept_bytes();
        let dropped = held.take_rolled(seat)?;
        let steps = held.database().rolled();
        self.note_roll(rt, bytes);
        drop(held);
        drop(dropped);
        Ok(Some(steps))
    }

    /// Rolls the history because memory ran out. Returns whether it was rolled.
    pub(super) fn spare<R: Wait>(&self, rt: &R, seat: &mut Seat<B>) -> bool
        ensures { SeesMore seat.old seat.new }
    {
        is_rolled(self.roll_if(rt, seat, SPARE_AT))
    }

    /// Returns how many steps are before the base of the history. A greater number than earlier says that it was rolled
    /// since.
    pub fn rolled_at<R: Wait>(&self, rt: &R, seat: &mut Seat<B>) -> u64
        ensures sees { SeesMore seat.old seat.new }
        ensures rolled { result ≡ (database_at B.text seat.new.seen).rolled }
    {
        let mut held = acquire(rt, &self.held);
        held.show_seat(seat);
        held.database().rolled()
    }

    /// Lets a waiting seat drop its receipts of rolled places. They stay counted. This is no step.
    pub fn fold<R: Wait>(&self, rt: &R, seat: &mut Seat<B>)
        ensures begins { IsPrefix seat.old.seen seat.new.seen }
        ensures folded { seat.new ≡ with_seen seat.new.seen (after_fold (database_at B.text seat.new.seen).rolled seat.old) }
    {
        let mut held = acquire(rt, &self.held);
        let dropped = held.fold(seat);
        drop(held);
        self.drop_folded(rt, dropped);
    }

    /// Returns how many bytes the steps of a seat may take before its thread calls `roll_and_fold`.
    pub fn share_of_seat(&self) -> u64
        ensures { result ≡ (of_seat self.now.roll_at).bytes }
    {
        self.roll_at.of_seat().bytes
    }

    /// Rolls the history if its steps take as much as those of one seat may, and drops the seat's receipts of rolled
    /// places, so that it doesn't wait with more of them. If memory runs out nothing is rolled.
    pub fn roll_and_fold<R: Wait>(&self, rt: &R, seat: &mut Seat<B>)
        ensures begins { IsPrefix seat.old.seen seat.new.seen }
        ensures folded { seat.new ≡ with_seen seat.new.seen (after_fold (database_at B.text seat.new.seen).rolled seat.old) }
    {
        let _rolled = self.roll_if_written(rt, seat, self.written(), self.roll_at.of_seat());
        self.fold(rt, seat);
    }

    /// Counts the bytes of the steps that a roll drops as those of receipts. The lock of the database is still held, so that no
    /// seat folds them before.
    fn note_roll<R: Wait>(&self, rt: &R, kept: u64) {
        acquire(rt, &self.unfolded).roll(kept);
    }

    /// Drops receipts that a seat has folded, and stops counting their bytes.
    pub(super) fn drop_folded<R: Wait>(&self, rt: &R, folded: Vec<Receipt>) {
        if !folded.is_empty() {
            let bytes = receipt_bytes(&folded);
            acquire(rt, &self.unfolded).fold(bytes);
        }
        drop(folded);
    }

    /// Returns when the history should be rolled, given the receipts of rolled steps that seats haven't folded yet.
    fn due_at<R: Wait>(&self, rt: &R) -> RollAt
        ensures { (unfolded : ℕ) × (result ≡ beside unfolded self.now.roll_at) }
    {
        let unfolded = acquire(rt, &self.unfolded).bytes();
        self.roll_at.beside(unfolded)
    }
}
