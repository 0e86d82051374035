//! Grants that a report covers.
ghost use Rattle.std.specs.Prelude.{◌≡◌, true, IfOk, OnErr};
ghost use Rattle.history_core.specs.Histories.{is_full};
ghost use Rattle.history_seats.specs.Past.{database_at};
ghost use Rattle.pce_seen.specs.Grants.{is_grant_covered};
ghost use Rattle.shared_pce.specs.Turns.{DropsIf, SeesMore};

use super::Shared;
use history_core::{Event, Fault, Reply, SharedEvent};
use history_seats::{Brands, Held, Seat};
use pce_seen::is_grant_covered;
use pcep_objects::Plsp;
use short_lock::acquire;
use std::sync::Wait;

/// Tests whether the grant of an SRP-ID, which is bound to this LSP, is covered by a report.
fn is_covered<B: Brands>(held: &Held<B>, peer: u32, plsp: Plsp, srp: u32) -> bool
    ensures { result ≡ is_grant_covered (database_at B.text held.now).state.base.paths peer plsp srp }
{
    is_grant_covered(held.database().state().lsps(), peer, plsp, srp)
}

impl<B: Brands> Shared<B> {
    /// Drops the grant of an SRP-ID, which is bound to this LSP, if a report covers it. The test and the step are under
    /// one lock, so that no report comes between them. Returns `None` if there is no such grant or it isn't covered.
    /// After a fault no step was taken. Fails with `HistoryFull` if no further step could be kept.
    pub fn drop_covered<R: Wait>(
        &self,
        rt: &R,
        seat: &mut Seat<B>,
        peer: u32,
        plsp: Plsp,
        srp: u32,
    ) -> Result<Option<Reply>, Fault>
        ensures dropped { IfOk result (DropsIf B.text peer plsp srp seat.old seat.new) }
        ensures unchanged_on_fault { OnErr result (SeesMore seat.old seat.new) }
        ensures full { result ≡ Err Fault.HistoryFull → is_full (database_at B.text seat.new.seen) ≡ true }
    {
        let event = SharedEvent::new(self.alloc, Event::Refused { peer, srp })?;
        let mut held = acquire(rt, &self.held);
        if !is_covered(&held, peer, plsp, srp) {
            held.show_seat(seat);
            return Ok(None);
        }
        let (reply, dropped) = held.step_and_fold(seat, event)?;
        drop(held);
        self.drop_folded(rt, dropped);
        Ok(Some(reply))
    }
}
