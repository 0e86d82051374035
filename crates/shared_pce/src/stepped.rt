//! One step under the lock, and what it leaves.
ghost use Rattle.std.specs.Prelude.{ℕ, ◌≡◌, true, All, IfOk, OnErr};
ghost use Rattle.history_core.specs.Histories.{is_full};
ghost use Rattle.history_seats.specs.Past.{database_at};
ghost use Rattle.shared_pce.specs.Residuals.{IsBefore, IsLookedAt, WasLeft};
ghost use Rattle.shared_pce.specs.Turns.{Received, SeesMore};

use crate::left::{see_after, see_before};
use history_core::{Event, Fault, Reply, SharedEvent};
use history_seats::{Brands, Held, Receipt, Seat};
use pcep_word::Priority;
use server_counts::ResidualRow;
use std::alloc::Global;

/// The result of a step.
#[derive(Drop)]
pub(crate) struct Stepped {
    pub reply: Reply,
    /// The receipts that the seat no longer keeps, to be dropped after the lock is freed.
    pub dropped: Vec<Receipt>,
    /// What was left of the links of the path that the step added, if it was read.
    pub rows: Vec<ResidualRow>,
}

/// Returns the priority at which an event's links are read: for a report its setup priority.
pub(crate) fn priority_of(event: &Event) -> Priority
    ensures { IsLookedAt event.now result }
{
    match event {
        Event::Report { report, .. } => report.priorities.setup(),
        _ => Priority::capped(7),
    }
}

/// Takes a step, and reads what it left of these links.
fn step_beside<B: Brands>(
    alloc: Global,
    held: &mut Held<B>,
    seat: &mut Seat<B>,
    event: SharedEvent,
    before: &[ResidualRow],
) -> Result<Stepped, Fault>
    ensures received { IfOk result (λ s. Received B.text seat.old event seat.new s.reply) }
    ensures left { IfOk result (λ s. (priority : ℕ) → IsLookedAt event priority → All (IsBefore (database_at B.text held.old) event priority) before.now → All WasLeft s.rows.items) }
    ensures unchanged_on_fault { OnErr result (SeesMore seat.old seat.new) }
    ensures full { result ≡ Err Fault.HistoryFull → is_full (database_at B.text seat.new.seen) ≡ true }
{
    let (reply, dropped) = held.step_and_fold(seat, event)?;
    let rows = see_after(alloc, held.database(), &reply, before);
    Ok(Stepped {
        reply,
        dropped,
        rows,
    })
}

/// Takes a step, and reads what was left of the links of the event's path before it and after it, at a priority.
pub(crate) fn step_seen<B: Brands>(
    alloc: Global,
    held: &mut Held<B>,
    seat: &mut Seat<B>,
    event: SharedEvent,
    priority: Priority,
) -> Result<Stepped, Fault>
    requires { IsLookedAt event priority }
    ensures received { IfOk result (λ s. Received B.text seat.old event seat.new s.reply) }
    ensures left { IfOk result (λ s. All WasLeft s.rows.items) }
    ensures unchanged_on_fault { OnErr result (SeesMore seat.old seat.new) }
    ensures full { result ≡ Err Fault.HistoryFull → is_full (database_at B.text seat.new.seen) ≡ true }
{
    let before = see_before(alloc, held.database(), event.event(), priority);
    step_beside(alloc, held, seat, event, &before)
}
