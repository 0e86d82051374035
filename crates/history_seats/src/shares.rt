//! The shares and the places of all seats, put together.
ghost use Rattle.std.specs.Prelude.{◌≡◌, ◌+◌, ◌<◌, ℕ, All, length, sum_by};
ghost use Rattle.place_tokens.specs.Drawing.{keeping, times, once_below};
ghost use Rattle.history_seats.specs.Seeing.{HasSeenOf};
ghost use Rattle.history_seats.specs.Receipts.{IsPlaced};
ghost use Rattle.history_seats.specs.Audits.{steps_received, grants_received};

use crate::brands::{Brands, Grants, Steps};
use crate::seat::Seat;
use history_tokens::Keeper;
use place_tokens::{PlaceTable, Token, give_back, learn, lend};
use std::sync::ledger::{Book, Share};
use step_core::Event;

/// Lends each seat's shares to those that were seen, until all parts are together and so are the totals, and gives them
/// back. At run time it only goes down the seats.
pub(crate) fn gather<B: Brands>(
    steps: &mut Book<Steps<B>>,
    grants: &mut Book<Grants<B>>,
    seats: &mut [Seat<B>],
    seen: &mut Share<Steps<B>>,
    taken: &mut Share<Grants<B>>,
)
    requires steps { seen.old.parts + length seats.old ≡ B.seats }
    requires grants { taken.old.parts + length seats.old ≡ B.seats }
    requires backed { (0 < seen.old.parts) × (0 < taken.old.parts) }
    ensures same_seats { seats.new ≡ seats.old }
    ensures same_totals { (steps.new.total ≡ steps.old.total) × (grants.new.total ≡ grants.old.total) }
    ensures same_seen { (seen.new.parts ≡ seen.old.parts) × (seen.new.amount ≡ seen.old.amount) }
    ensures same_taken { (taken.new.parts ≡ taken.old.parts) × (taken.new.amount ≡ taken.old.amount) }
    ensures steps { seen.old.amount + steps_received seats.old ≡ steps.old.total }
    ensures grants { taken.old.amount + grants_received seats.old ≡ grants.old.total }
{
    let Some((first, rest)) = seats.split_first_mut() else {
        steps.audit(seen);
        grants.audit(taken);
        return;
    };
    let received = first.received;
    let granted = first.granted;
    seen.merge(first.steps.split_off(1, received));
    taken.merge(first.grants.split_off(1, granted));
    gather(steps, grants, rest, seen, taken);
    first.steps.merge(seen.split_off(1, received));
    first.grants.merge(taken.split_off(1, granted));
}

/// Lends the keeper what each seat's token knows, until all are together and it learns that they have each place
/// once, and gives it back. Each seat costs a few loads of one word.
pub(crate) fn gather_places<B: Brands>(
    table: &PlaceTable,
    keeper: &mut Token,
    seats: &mut [Seat<B>],
)
    requires table { (keeper.old.table_id ≡ table.now.shared.table_id) × (table.now.shared.table_id ≡ B.table) × (table.now.shared.table_id.words ≡ 1) }
    requires keeper { (0 < keeper.old.me.0.parts) × (keeper.old.me ≡ keeping keeper.old.me.0.parts keeper.old.me.0.next keeper.old.me.0.lent) }
    requires all { keeper.old.me.0.parts + length seats.old ≡ table.now.shared.key }
    ensures same { (keeper.new.table_id ≡ keeper.old.table_id) × (keeper.new.me ≡ keeper.old.me) }
    ensures same_seats { seats.new ≡ seats.old }
    ensures placed { All IsPlaced seats.old }
    ensures once { (p : ℕ) → sum_by (times p) keeper.old.me.0.lent + sum_by (λ s. times p s.places) seats.old ≡ once_below p keeper.old.me.0.next }
{
    let Some((first, rest)) = seats.split_first_mut() else {
        learn(table, keeper);
        return;
    };
    lend(table, keeper, &mut first.drawn.token);
    gather_places(table, keeper, rest);
    give_back(table, keeper, &mut first.drawn.token);
}

/// Learns that what each seat has seen is a beginning of the history.
pub(crate) fn compare_all<B: Brands>(history: &mut Keeper<Event, B>, seats: &mut [Seat<B>])
    ensures same { (history.new ≡ history.old) × (seats.new ≡ seats.old) }
    ensures seen { All (HasSeenOf history.old) seats.old }
{
    let Some((first, rest)) = seats.split_first_mut() else {
        return;
    };
    history.compare(&mut first.seen);
    compare_all(history, rest);
}
