//! What one tunnel holds on one link.
ghost use Rattle.std.specs.Prelude.{ℕ, ◌≡◌, ◌<◌, ◌≤◌, ◌+◌, ◌^◌, [], length, max, nat_le, slice_index, if◌then◌else◌, false, true, IsTrue, ◌↔◌, IsOk, OnErr, OnOk};
ghost use Rattle.smallvec.specs.SmallVec.{HasRoomFor};
ghost use Rattle.bandwidth_book.specs.declared.reservation.BookOp.{BookOp};
ghost use Rattle.bandwidth_book.specs.Reservation.{most, most_below, AreMaxima, AreInOrder, after_all, around, end_in, moved_one, place_in, promised_after, room_for, takes_memory, with_one, without_one};

use crate::gap::{back, close, front, one_at, take_at};
use crate::reservation::{BookOp, Reservation, is_before, is_same_held};
use smallvec::SmallVec;
use std::alloc::{AllocError, Global};
use std::default::MadeWith;
use std::marker::Model;

/// How many bandwidths are stored in place: those of two paths, and one more while one of them is replaced.
const IN_PLACE: usize = 3;

/// What the paths of a tunnel hold on a link, in order, and how many more there is sure to be room for.
#[derive(Drop)]
pub struct Entry {
    /// What is held, in order, around the gap that those that went have left.
    items: SmallVec<Reservation, IN_PLACE>,
    /// Where the gap begins.
    gap: u32,
    /// How many items the gap has.
    gone: u32,
    promised: u32,
}

impl Model for Entry {
    ghost use Rattle.std.specs.Prelude.{◌≤◌, ◌<◌, ◌+◌, ◌^◌, length};
    ghost use Rattle.smallvec.specs.SmallVec.{HasRoomFor};
    ghost use Rattle.bandwidth_book.specs.Reservation.{AreInOrder, around};
    ghost use Rattle.bandwidth_book.specs.Holdings.{Holdings};

    ghost Value = { Holdings };

    ghost view = { λ e. record { held = around e.gap e.gone e.items.items; promised = e.promised } };

    ghost invariant = { λ e. record {
      order : AreInOrder (around e.gap e.gone e.items.items);
      fits : e.gap + e.gone ≤ length e.items.items;
      room : HasRoomFor e.items e.promised;
      small : length e.items.items + e.promised < 2 ^ 32;
    } };
}

impl MadeWith<Global> for Entry {
    ghost is_made_with = { λ e. e.held ≡ [] };

    fn made_with(alloc: Global) -> Entry {
        Entry::new(alloc)
    }
}

/// Finds where a reservation belongs in the order.
#[tactic(auto, using(crate::proofs::Order::place_within))]
fn place_of(held: &[Reservation], one: &Reservation) -> usize
    requires { AreInOrder held.now }
    ensures place { result ≡ place_in one.now held.now }
    ensures within { result ≤ length held.now }
{
    let mut low = 0;
    let mut high = held.len();
    while low < high {
        let middle = low + (high - low) / 2;
        if is_before(&held[middle], one) {
            low = middle + 1;
        } else {
            high = middle;
        }
    }
    low
}

/// Finds where the reservations begin that come after this one in the order: at `most` or before.
#[tactic(auto, using(crate::proofs::Order::end_within))]
fn end_of(held: &[Reservation], one: &Reservation, most: usize) -> usize
    requires order { AreInOrder held.now }
    requires most { end_in one.now held.now ≤ most }
    requires within { most ≤ length held.now }
    ensures end { result ≡ end_in one.now held.now }
    ensures within { result ≤ length held.now }
{
    let mut low = 0;
    let mut high = most;
    while low < high {
        let middle = low + (high - low) / 2;
        if is_before(one, &held[middle]) {
            high = middle;
        } else {
            low = middle + 1;
        }
    }
    low
}

/// Tests whether there is a reservation at a place that comes after this one in the order.
fn is_after_at(held: &[Reservation], one: &Reservation, place: usize) -> bool
    requires { AreInOrder held.now }
    ensures within { result ≡ true → place < length held.now }
    ensures after { result ≡ true → end_in one.now held.now ≤ place }
    ensures before { result ≡ false → place < length held.now → place < end_in one.now held.now }
{
    place < held.len() && is_before(one, &held[place])
}

/// Tests whether there are reservations, the last of which comes after this one in the order.
fn ends_after(held: &[Reservation], one: &Reservation) -> bool
    requires { AreInOrder held.now }
    ensures after { result ≡ true → end_in one.now held.now < length held.now }
    ensures before { result ≡ false → length held.now ≤ end_in one.now held.now }
{
    let count = held.len();
    count > 0 && is_after_at(held, one, count - 1)
}

/// Finds where the reservations begin that come after this one in the order. Looks first at those that come first.
#[tactic(auto, using(crate::proofs::Order::end_within))]
fn end_near(held: &[Reservation], one: &Reservation) -> usize
    requires { AreInOrder held.now }
    ensures end { result ≡ end_in one.now held.now }
    ensures within { result ≤ length held.now }
{
    for most in [2, 16, 128, 1024] {
        if is_after_at(held, one, most) {
            return end_of(held, one, most);
        }
    }
    end_of(held, one, held.len())
}

/// Counts the reservations that are held at the priority or a better one. If none is, or all are, it needs no search.
fn count_to(held: &[Reservation], priority: u8) -> usize
    requires order { AreInOrder held.now }
    requires priority { priority < 8 }
    ensures count { result ≡ place_in (after_all priority) held.now }
    ensures within { result ≤ length held.now }
{
    let count = held.len();
    if count == 0 || held[0].hold() > u64::from(priority) {
        0
    } else if held[count - 1].hold() <= u64::from(priority) {
        count
    } else {
        place_of(held, &Reservation::new(priority + 1, 0))
    }
}

/// Finds the greatest bandwidth that is held at the priority and no better one: the last of them has it.
fn last_of(held: &[Reservation], priority: u8) -> u64
    requires order { AreInOrder held.now }
    requires priority { priority < 8 }
    ensures { max (most_below held.now priority) result ≡ most held.now priority }
{
    let end = count_to(held, priority);
    if end == 0 {
        return 0;
    }
    let last = held[end - 1];
    if last.hold() == u64::from(priority) {
        last.bandwidth()
    } else {
        0
    }
}

/// Finds the greatest bandwidth that is held at the priority or a better one, given that at better ones.
#[tactic(auto, using(crate::proofs::Runs::below_next))]
fn most_from(held: &[Reservation], priority: u8, better: u64) -> u64
    requires order { AreInOrder held.now }
    requires priority { priority < 8 }
    requires better { better ≡ most_below held.now priority }
    ensures most { result ≡ most held.now priority }
    ensures next { result ≡ most_below held.now (priority + 1) }
{
    better.max(last_of(held, priority))
}

/// Finds the greatest bandwidth at each priority, by a binary search for each.
#[tactic(auto, using(crate::proofs::Runs::below_first))]
fn maxima_of_many(held: &[Reservation]) -> [u64; 8]
    requires { AreInOrder held.now }
    ensures { AreMaxima result held.now }
{
    let mut maxima = [0; 8];
    let mut greatest = 0;
    for priority in 0..8u8 {
        greatest = most_from(held, priority, greatest);
        maxima[priority as usize] = greatest;
    }
    maxima
}

/// Raises the maxima by one more.
fn raise(maxima: &mut [u64; 8], held: &Reservation)
    ensures { (p : ℕ) → p < 8 → slice_index maxima.new p ≡ max (if nat_le held.now.hold p then held.now.bandwidth else 0) (slice_index maxima.old p) }
{
    let hold = held.hold();
    let bandwidth = held.bandwidth();
    for priority in 0..8usize {
        if hold <= priority as u64 {
            maxima[priority] = bandwidth.max(maxima[priority]);
        }
    }
}

/// Finds the greatest bandwidth at each priority, by a pass.
fn maxima_of_few(held: &[Reservation]) -> [u64; 8]
    ensures { AreMaxima result held.now }
{
    let mut maxima = [0; 8];
    for one in held {
        raise(&mut maxima, one);
    }
    maxima
}

/// Finds the greatest bandwidth at each priority.
fn maxima_of(held: &[Reservation]) -> [u64; 8]
    requires { AreInOrder held.now }
    ensures { AreMaxima result held.now }
{
    if held.len() <= IN_PLACE {
        maxima_of_few(held)
    } else {
        maxima_of_many(held)
    }
}

/// Raises the maxima to others that are greater.
fn raise_to(maxima: &mut [u64; 8], others: &[u64; 8])
    ensures { (p : ℕ) → p < 8 → slice_index maxima.new p ≡ max (slice_index maxima.old p) (slice_index others.now p) }
{
    for priority in 0..8usize {
        maxima[priority] = maxima[priority].max(others[priority]);
    }
}

/// Finds the greatest bandwidth at each priority, before and after a gap.
fn maxima_around(items: &[Reservation], gap: usize, gone: usize) -> [u64; 8]
    requires order { AreInOrder (around gap gone items.now) }
    requires fits { gap + gone ≤ length items.now }
    ensures { AreMaxima result (around gap gone items.now) }
{
    let mut maxima = maxima_of(back(items, gap, gone));
    if gap > 0 {
        raise_to(&mut maxima, &maxima_of(front(items, gap)));
    }
    maxima
}

/// Finds where the reservations begin that come after this one in the order, before or after a gap. Those next to the
/// gap are looked at first: if many go in order, each is there.
fn end_around(items: &[Reservation], gap: usize, gone: usize, one: &Reservation) -> usize
    requires order { AreInOrder (around gap gone items.now) }
    requires fits { gap + gone ≤ length items.now }
    ensures end { result ≡ end_in one.now (around gap gone items.now) }
    ensures within { result + gone ≤ length items.now }
{
    let before = front(items, gap);
    if ends_after(before, one) {
        end_of(before, one, gap)
    } else {
        gap + end_near(back(items, gap, gone), one)
    }
}

/// Inserts one in its order, into reserved room: after those that are equal, so that none of them moves.
#[tactic(auto, using(crate::proofs::Order::insert_at_end, crate::proofs::Order::order_with_one, crate::proofs::Order::length_with_one, crate::proofs::Order::end_within))]
fn put_held(list: &mut SmallVec<Reservation, IN_PLACE>, held: Reservation)
    requires room { HasRoomFor list.old 1 }
    requires order { AreInOrder list.old.items }
    ensures items { list.new.items ≡ with_one held list.old.items }
    ensures order { AreInOrder list.new.items }
    ensures capacity { list.old.capacity ≤ list.new.capacity }
{
    let end = end_of(list.as_slice(), &held, list.len());
    list.insert(end, held).unwrap();
}

/// Removes one that is equal, if there is one: the last of them.
fn take_held(
    items: &mut SmallVec<Reservation, IN_PLACE>,
    gap: &mut u32,
    gone: &mut u32,
    held: Reservation,
)
    requires order { AreInOrder (around gap.old gone.old items.old.items) }
    requires fits { gap.old + gone.old ≤ length items.old.items }
    requires small { length items.old.items < 2 ^ 32 }
    ensures items { around gap.new gone.new items.new.items ≡ without_one held (around gap.old gone.old items.old.items) }
    ensures order { AreInOrder (around gap.new gone.new items.new.items) }
    ensures fits { gap.new + gone.new ≤ length items.new.items }
    ensures length { length items.new.items ≡ length items.old.items }
    ensures capacity { items.new.capacity ≡ items.old.capacity }
{
    let begin = *gap as usize;
    let count = *gone as usize;
    let end = end_around(items.as_slice(), begin, count, &held);
    if end > 0 && is_same_held(&held, &one_at(items.as_slice(), begin, count, end - 1)) {
        take_at(items, gap, gone, end - 1);
    }
}

impl Entry {
    /// Makes an entry that holds nothing. Allocates nothing.
    pub fn new(alloc: Global) -> Entry
        ensures held { result.held ≡ [] }
        ensures promised { result.promised ≡ 0 }
    {
        Entry {
            items: SmallVec::new(alloc),
            gap: 0,
            gone: 0,
            promised: 0,
        }
    }

    /// Counts what is held.
    #[tactic(auto, using(crate::proofs::Gaps::length_around))]
    fn count(&self) -> usize
        ensures { result ≡ length self.now.held }
    {
        self.items.len() - self.gone as usize
    }

    /// Tests whether nothing is held.
    pub fn is_empty(&self) -> bool
        ensures { IsTrue result ↔ (length self.now.held ≡ 0) }
    {
        self.count() == 0
    }

    /// Tests whether nothing is held and no room is promised.
    pub fn is_idle(&self) -> bool
        ensures idle { IsTrue result → (length self.now.held ≡ 0) × (self.now.promised ≡ 0) }
        ensures busy { result ≡ false → length self.now.held ≡ 0 → 0 < self.now.promised }
    {
        self.is_empty() && self.promised == 0
    }

    /// Finds the greatest bandwidth that is held at each priority or a better one.
    pub fn maxima(&self) -> [u64; 8]
        ensures { AreMaxima result self.now.held }
    {
        maxima_around(self.items.as_slice(), self.gap as usize, self.gone as usize)
    }

    /// Tests whether another reservation of its priority has more bandwidth. If so, no maximum changes when it comes or
    /// goes.
    #[tactic(auto, using(crate::proofs::Gaps::length_around))]
    pub fn is_below_another(&self, held: Reservation) -> bool
        ensures { (op : BookOp) (p : ℕ) → result ≡ true → most (moved_one op held self.now.held) p ≡ most self.now.held p }
    {
        let items = self.items.as_slice();
        let gap = self.gap as usize;
        let gone = self.gone as usize;
        let end = end_around(items, gap, gone, &held);
        end < self.count() && one_at(items, gap, gone, end).hold() == held.hold()
    }

    /// Promises room for one more. Refused if the entry could come to hold 2^32.
    fn promise(&mut self) -> Result<(), AllocError>
        ensures held { self.new.held ≡ self.old.held }
        ensures ok { OnOk result (self.new.promised ≡ self.old.promised + 1) }
        ensures err { OnErr result (self.new.promised ≡ self.old.promised) }
    {
        close(&mut self.items, &mut self.gap, &mut self.gone);
        if self.promised as usize >= u32::MAX as usize - self.items.len() {
            return Err(AllocError);
        }
        let promised = self.promised + 1;
        self.items.reserve(promised as usize)?;
        self.promised = promised;
        Ok(())
    }

    /// Gives the promised room up. A list that has become short is stored in place again.
    fn withdraw(&mut self)
        ensures held { self.new.held ≡ self.old.held }
        ensures promised { self.new.promised ≡ 0 }
    {
        self.promised = 0;
        if self.count() <= IN_PLACE {
            close(&mut self.items, &mut self.gap, &mut self.gone);
            self.items.shrink_to_fit();
        }
    }

    /// Adds one into promised room.
    #[tactic(auto, using(crate::proofs::Gaps::around_none, crate::proofs::Gaps::length_around, crate::proofs::Order::length_with_one))]
    fn add(&mut self, held: Reservation)
        requires { 1 ≤ self.old.promised }
        ensures held { self.new.held ≡ with_one held self.old.held }
        ensures promised { self.new.promised + 1 ≡ self.old.promised }
    {
        close(&mut self.items, &mut self.gap, &mut self.gone);
        put_held(&mut self.items, held);
        self.promised -= 1;
    }

    /// Promises room for one more, adds one into that room, drops one that is equal (if there is one), or gives the
    /// room up.
    #[tactic(auto, using(crate::proofs::Order::length_with_one, crate::proofs::Sums::length_without_one))]
    pub fn move_one(&mut self, op: BookOp, held: Reservation) -> Result<(), AllocError>
        requires { room_for op 1 ≤ self.old.promised }
        ensures held { self.new.held ≡ moved_one op held self.old.held }
        ensures ok { OnOk result (self.new.promised ≡ promised_after op 1 self.old.promised) }
        ensures below { self.new.promised ≤ promised_after op 1 self.old.promised }
        ensures sure { takes_memory op ≡ false → IsOk result }
    {
        match op {
            BookOp::Promise => return self.promise(),
            BookOp::Add => self.add(held),
            BookOp::Drop => take_held(&mut self.items, &mut self.gap, &mut self.gone, held),
            BookOp::Withdraw => self.withdraw(),
        }
        Ok(())
    }
}
