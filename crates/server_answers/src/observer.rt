//! Those who are shown what a look sees.
use history_seats::Brands;
use seated_store::Seated;
use server_base::RunView;
use shared_pce::{Event, Front, Look};
use std::alloc::AllocError;
use std::sync::Wait;
use std::time::Clock;

/// An observer of a run: the front of viewers, or the seat of an operator. Each look shows it all that has happened until then.
pub trait Observer<R: Wait + Clock, B: Brands> {
    ghost use Rattle.std.specs.Prelude.{IfOk};
    ghost use Rattle.history_core.specs.Histories.{Content};

    /// The database, as of what the observer was shown.
    ghost database: { Self → Content };

    /// Looks lead from the first state to the second, and nothing else is done.
    ghost looked: { Self → Self → Type 0 };

    /// Looks at the database, shows the observer what has happened until then, and counts for how long that held the lock.
    fn look<L: Look>(
        &mut self,
        run_view: &RunView<'_, R, B>,
        look: &L,
    ) -> Result<L::Seen, AllocError>
        ensures sees { IfOk result (L.sees look.now (database self.new)) }
        ensures looked { looked self.old self.new };
}

impl<R: Wait + Clock, B: Brands> Observer<R, B> for Front<Event, B> {
    ghost use mathlib.Core.List.{IsPrefix};
    ghost use Rattle.history_seats.specs.Past.{database_at};

    ghost database = { λ front. database_at B.text front };

    ghost looked = { λ old new. IsPrefix old new };

    fn look<L: Look>(
        &mut self,
        run_view: &RunView<'_, R, B>,
        look: &L,
    ) -> Result<L::Seen, AllocError> {
        run_view.look(self, look)
    }
}

impl<'s, R: Wait + Clock, B: Brands> Observer<R, B> for Seated<'s, R, B> {
    ghost use Rattle.std.specs.Prelude.{[]};
    ghost use Rattle.history_seats.specs.Past.{database_at};
    ghost use Rattle.seated_store.specs.Seating.{SeatedMoves};

    ghost database = { λ store. database_at B.text store.seat.now.seen };

    ghost looked = { λ old new. SeatedMoves B.text old.seat old.calls.items [] new.seat new.calls.items };

    fn look<L: Look>(
        &mut self,
        run_view: &RunView<'_, R, B>,
        look: &L,
    ) -> Result<L::Seen, AllocError> {
        let timed = run_view.timed(look);
        let seen = Seated::look(self, &timed);
        run_view.count_look(&timed);
        seen
    }
}
