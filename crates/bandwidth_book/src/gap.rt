//! Lists with a gap. The first item that goes leaves a gap in its place. When another goes, those between it and the
//! gap move to the gap's other side, and the gap takes in its place too. So if many go in order, each one that stays
//! moves once.
ghost use Rattle.std.specs.Prelude.{◌≡◌, ◌<◌, ◌≤◌, ◌+◌, ◌^◌, drop, length, get_or, take};
ghost use Rattle.std.specs.List.{remove};
ghost use Rattle.bandwidth_book.specs.Reservation.{Reservation, around};

use crate::reservation::Reservation;
use smallvec::SmallVec;

/// Lends what is before a gap.
pub fn front(items: &[Reservation], gap: usize) -> &[Reservation]
    requires { gap ≤ length items.now }
    ensures items { result.now ≡ take gap items.now }
    ensures length { length result.now ≡ gap }
{
    &items[..gap]
}

/// Lends what is after a gap.
pub fn back(items: &[Reservation], gap: usize, gone: usize) -> &[Reservation]
    requires { gap + gone ≤ length items.now }
    ensures items { result.now ≡ drop (gap + gone) items.now }
    ensures length { length result.now + (gap + gone) ≡ length items.now }
{
    &items[gap + gone..]
}

/// Copies the item at a place, not counting the gap.
#[tactic(auto, using(crate::proofs::Gaps::get_before, crate::proofs::Gaps::get_behind))]
pub fn one_at(items: &[Reservation], gap: usize, gone: usize, place: usize) -> Reservation
    requires fits { gap + gone ≤ length items.now }
    requires within { place + gone < length items.now }
    ensures { result ≡ get_or (around gap gone items.now) place result }
{
    if place < gap {
        items[place]
    } else {
        items[place + gone]
    }
}

/// Moves those between a place and the gap to the gap's other side, so that the gap can take in the one at the place. If
/// there is no gap, none moves.
#[tactic(auto, using(crate::proofs::Gaps::moved_up, crate::proofs::Gaps::moved_down, crate::proofs::Gaps::first_gone))]
fn move_between(items: &mut [Reservation], gap: usize, gone: usize, place: usize)
    requires fits { gap + gone ≤ length items.old }
    requires within { place + gone < length items.old }
    ensures around { around place (gone + 1) items.new ≡ remove (around gap gone items.old) place }
    ensures length { length items.new ≡ length items.old }
{
    if gone == 0 {
        return;
    }
    if place < gap {
        items.copy_within(place + 1..gap, place + 1 + gone);
    } else {
        items.copy_within(gap + gone..place + gone, gap);
    }
}

/// Removes the item at a place, not counting the gap. Its place becomes part of the gap.
pub fn take_at<const N: usize>(
    items: &mut SmallVec<Reservation, N>,
    gap: &mut u32,
    gone: &mut u32,
    place: usize,
)
    requires fits { gap.old + gone.old ≤ length items.old.items }
    requires within { place + gone.old < length items.old.items }
    requires small { length items.old.items < 2 ^ 32 }
    ensures around { around gap.new gone.new items.new.items ≡ remove (around gap.old gone.old items.old.items) place }
    ensures fits { gap.new + gone.new ≤ length items.new.items }
    ensures length { length items.new.items ≡ length items.old.items }
    ensures capacity { items.new.capacity ≡ items.old.capacity }
{
    move_between(items.as_mut_slice(), *gap as usize, *gone as usize, place);
    *gap = place as u32;
    *gone += 1;
}

/// Closes the gap: moves those after it to where it begins.
#[tactic(auto, using(crate::proofs::Gaps::closed, crate::proofs::Gaps::around_none))]
pub fn close<const N: usize>(items: &mut SmallVec<Reservation, N>, gap: &mut u32, gone: &mut u32)
    requires { gap.old + gone.old ≤ length items.old.items }
    ensures items { items.new.items ≡ around gap.old gone.old items.old.items }
    ensures gap { gap.new ≡ 0 }
    ensures gone { gone.new ≡ 0 }
    ensures capacity { items.new.capacity ≡ items.old.capacity }
{
    let begin = *gap as usize;
    let count = *gone as usize;
    if count == 1 {
        let _ = items.remove(begin);
    } else if count > 1 {
        let len = items.len();
        items.copy_within(begin + count..len, begin);
        items.truncate(len - count);
    }
    *gap = 0;
    *gone = 0;
}
