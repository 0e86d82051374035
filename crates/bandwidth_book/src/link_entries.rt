//! What one tunnel holds on its links, and how that moves the sums of the links.
ghost use Rattle.std.specs.Prelude.{◌≡◌, ◌<◌, ◌≤◌, ◌+◌, ◌-◌, ◌^◌, ◌==◌, ◌∷◌, [], ℕ, true, false, length, slice_index, IfSome, IfNone, IsTrue, ◌↔◌, IfOk, IsOk, OnOk, if◌then◌else◌, None, Some};
ghost use Rattle.bandwidth_book.specs.Entries.{AreRising, IsAt, IsBusy, IsMoved, IsSame, IsShifted, entry_on, if_busy, is_busy, kept, place_on, promised_to};
ghost use Rattle.bandwidth_book.specs.Reservation.{most, moved_one, promised_after, room_for, takes_memory};
ghost use Rattle.bandwidth_book.specs.Tunnels.{held_by_links, sum_at};

use crate::entry::Entry;
use crate::many_links::put_missing;
use crate::reservation::{BookOp, Reservation};
use smallvec::SmallVec;
use std::alloc::{AllocError, Global};
use std::default::MadeWith;
use std::marker::Model;
use te_base::LinkNumber;

/// From how many links of a path on entries are made all at once.
const MANY_LINKS: usize = 16;

/// What a tunnel holds on one of its links.
#[derive(Drop)]
pub struct LinkEntry {
    pub link: LinkNumber,
    pub entry: Entry,
}

impl MadeWith<Global> for LinkEntry {
    ghost is_made_with = { λ e. e.entry.held ≡ [] };

    fn made_with(alloc: Global) -> LinkEntry {
        LinkEntry {
            link: 0,
            entry: Entry::new(alloc),
        }
    }
}

/// The entries of a tunnel, at most one for each link, in the order of the links' numbers. Up to four are stored in
/// place, next to the tunnel.
#[derive(Drop)]
pub struct LinkEntries {
    entries: SmallVec<LinkEntry, 4>,
    /// Whether one of them may be idle: it holds nothing and has promised no room.
    may_be_idle: bool,
}

impl Model for LinkEntries {
    ghost use Rattle.std.specs.Prelude.{List};
    ghost use Rattle.bandwidth_book.specs.declared.link_entries.LinkEntry.{LinkEntry};

    ghost Value = { List LinkEntry };

    ghost use Rattle.std.specs.Prelude.{◌≡◌, ℕ, false};
    ghost use Rattle.bandwidth_book.specs.Entries.{AreRising, IsBusy, entry_on};

    ghost view = { λ e. e.entries.items };

    ghost invariant = { λ e. record {
      rising : AreRising e.entries.items;
      busy : (l : ℕ) → e.may_be_idle ≡ false → IsBusy (entry_on l e.entries.items);
    } };
}

/// Subtracts what was before from the sums, and adds what is after.
fn exchange(sums: &mut [u64; 8], before: &[u64; 8], after: &[u64; 8])
    requires within { (p : ℕ) → p < 8 → slice_index before.now p ≤ slice_index sums.old p }
    requires small { (p : ℕ) → p < 8 → slice_index sums.old p + slice_index after.now p < 2 ^ 64 }
    ensures { (p : ℕ) → p < 8 → slice_index sums.new p + slice_index before.now p ≡ slice_index sums.old p + slice_index after.now p }
{
    for place in 0..8usize {
        sums[place] = sums[place] - before[place] + after[place];
    }
}

/// Moves an entry, and the sums of its link by what it rises or falls.
fn move_in(
    entry: &mut Entry,
    sums: &mut [u64; 8],
    op: BookOp,
    held: Reservation,
) -> Result<(), AllocError>
    requires room { room_for op 1 ≤ entry.old.promised }
    requires within { (p : ℕ) → p < 8 → most entry.old.held p ≤ slice_index sums.old p }
    requires small { (p : ℕ) → p < 8 → slice_index sums.old p < 2 ^ 63 }
    requires below { held.bandwidth < 2 ^ 48 }
    ensures sums { (p : ℕ) → p < 8 → slice_index sums.new p + most entry.old.held p ≡ slice_index sums.old p + most entry.new.held p }
    ensures held { entry.new.held ≡ moved_one op held entry.old.held }
    ensures ok { OnOk result (entry.new.promised ≡ promised_after op 1 entry.old.promised) }
    ensures promised { entry.new.promised ≤ promised_after op 1 entry.old.promised }
    ensures sure { takes_memory op ≡ false → IsOk result }
{
    if !op.changes_held() {
        return entry.move_one(op, held);
    }
    if entry.is_below_another(held) {
        return entry.move_one(op, held);
    }
    let before = entry.maxima();
    let moved = entry.move_one(op, held);
    exchange(sums, &before, &entry.maxima());
    moved
}

/// Moves an entry as `move_in` does, and notes whether it is left idle.
fn move_and_note(
    entry: &mut Entry,
    sums: &mut [u64; 8],
    may_be_idle: &mut bool,
    op: BookOp,
    held: Reservation,
) -> Result<(), AllocError>
    requires room { room_for op 1 ≤ entry.old.promised }
    requires within { (p : ℕ) → p < 8 → most entry.old.held p ≤ slice_index sums.old p }
    requires small { (p : ℕ) → p < 8 → slice_index sums.old p < 2 ^ 63 }
    requires below { held.bandwidth < 2 ^ 48 }
    ensures sums { (p : ℕ) → p < 8 → slice_index sums.new p + most entry.old.held p ≡ slice_index sums.old p + most entry.new.held p }
    ensures held { entry.new.held ≡ moved_one op held entry.old.held }
    ensures ok { OnOk result (entry.new.promised ≡ promised_after op 1 entry.old.promised) }
    ensures promised { entry.new.promised ≤ promised_after op 1 entry.old.promised }
    ensures sure { takes_memory op ≡ false → IsOk result }
    ensures busy { may_be_idle.new ≡ false → IsBusy (Some entry.new) }
    ensures same { may_be_idle.new ≡ false → may_be_idle.old ≡ false }
{
    let moved = move_in(entry, sums, op, held);
    if entry.is_idle() {
        *may_be_idle = true;
    }
    moved
}

/// Bounds the place of a link's entry: before it there are as many as there are lower links, less those that are missing.
fn bounds_of(entries: &[LinkEntry], link: LinkNumber) -> (usize, usize)
    requires { AreRising entries.now }
    ensures low { result.0 ≤ place_on link entries.now }
    ensures high { place_on link entries.now ≤ result.1 }
    ensures within { result.1 ≤ length entries.now }
{
    let count = entries.len();
    if count == 0 {
        return (0, 0);
    }
    let missing = entries[count - 1].link - (count - 1);
    (link.saturating_sub(missing).min(count), link.min(count))
}

/// Finds where the entry of a link belongs in the order, by a binary search between its bounds.
#[tactic(auto, using(crate::proofs::Rising::place_within))]
fn place_of(entries: &[LinkEntry], link: LinkNumber) -> usize
    requires { AreRising entries.now }
    ensures place { result ≡ place_on link entries.now }
    ensures within { result ≤ length entries.now }
{
    let (least, most) = bounds_of(entries, link);
    let mut low = least;
    let mut high = most;
    while low < high {
        let middle = low + (high - low) / 2;
        if entries[middle].link < link {
            low = middle + 1;
        } else {
            high = middle;
        }
    }
    low
}

/// Finds the place of the entry of a link.
pub(crate) fn find(entries: &[LinkEntry], link: LinkNumber) -> Option<usize>
    requires { AreRising entries.now }
    ensures within { IfSome result (λ i. i < length entries.now) }
    ensures found { IfSome result (λ i. IsAt link entries.now i) }
    ensures none { IfNone result (entry_on link entries.now ≡ None) }
{
    let place = place_of(entries, link);
    if place < entries.len() && entries[place].link == link {
        Some(place)
    } else {
        None
    }
}

/// Inserts an entry with room for one, for a link that has none.
#[tactic(auto, using(crate::proofs::Moved::not_shifted))]
fn put_entry(
    alloc: Global,
    entries: &mut SmallVec<LinkEntry, 4>,
    link: LinkNumber,
    op: BookOp,
    held: Reservation,
) -> Result<(), AllocError>
    requires rising { AreRising entries.old.items }
    requires none { entry_on link entries.old.items ≡ None }
    requires promise { takes_memory op ≡ true }
    ensures rising { AreRising entries.new.items }
    ensures moved { (l : ℕ) → IsShifted op (if link == l then held ∷ [] else []) (entry_on l entries.old.items) (entry_on l entries.new.items) }
    ensures ok { OnOk result ((l : ℕ) → promised_after op (length (if link == l then held ∷ [] else [])) (promised_to l entries.old.items) ≤ promised_to l entries.new.items) }
    ensures busy { (l : ℕ) → IsBusy (entry_on l entries.old.items) → IsBusy (entry_on l entries.new.items) }
{
    let mut entry = Entry::new(alloc);
    entry.move_one(op, held)?;
    let place = place_of(entries.as_slice(), link);
    entries.insert(place, LinkEntry { link, entry })?;
    Ok(())
}

/// Moves the link's entry at a place, and the sums of the link. The entry stays even if it is then idle, which is
/// noted.
fn move_at(
    entries: &mut SmallVec<LinkEntry, 4>,
    may_be_idle: &mut bool,
    place: usize,
    sums: &mut [u64; 8],
    link: LinkNumber,
    op: BookOp,
    held: Reservation,
) -> Result<(), AllocError>
    requires rising { AreRising entries.old.items }
    requires within { place < length entries.old.items }
    requires at { IsAt link entries.old.items place }
    requires room { room_for op 1 ≤ promised_to link entries.old.items }
    requires most { (p : ℕ) → p < 8 → most (kept link entries.old.items) p ≤ slice_index sums.old p }
    requires small { (p : ℕ) → p < 8 → slice_index sums.old p < 2 ^ 63 }
    requires below { held.bandwidth < 2 ^ 48 }
    ensures rising { AreRising entries.new.items }
    ensures sums { (p : ℕ) → p < 8 → slice_index sums.new p + most (kept link entries.old.items) p ≡ slice_index sums.old p + most (kept link entries.new.items) p }
    ensures moved { (l : ℕ) → IsShifted op (if link == l then held ∷ [] else []) (entry_on l entries.old.items) (entry_on l entries.new.items) }
    ensures ok { OnOk result ((l : ℕ) → promised_after op (length (if link == l then held ∷ [] else [])) (promised_to l entries.old.items) ≤ promised_to l entries.new.items) }
    ensures sure { takes_memory op ≡ false → IsOk result }
    ensures busy { (l : ℕ) → may_be_idle.new ≡ false → IsBusy (entry_on l entries.old.items) → IsBusy (entry_on l entries.new.items) }
    ensures same { may_be_idle.new ≡ false → may_be_idle.old ≡ false }
{
    move_and_note(&mut entries[place].entry, sums, may_be_idle, op, held)
}

/// Tests whether an entry holds something, or has promised room.
fn is_busy(entry: &LinkEntry) -> bool
    ensures { result ≡ is_busy entry.now.entry }
{
    !entry.entry.is_idle()
}

/// Removes the entries that hold nothing and have promised no room, all in one pass.
fn drop_idle(entries: &mut SmallVec<LinkEntry, 4>)
    requires { AreRising entries.old.items }
    ensures rising { AreRising entries.new.items }
    ensures busy { (l : ℕ) → entry_on l entries.new.items ≡ if_busy (entry_on l entries.old.items) }
{
    entries.retain(|entry| is_busy(entry));
}

impl LinkEntries {
    /// Makes a list of no entries, with room for `count`.
    pub fn with_room(alloc: Global, count: usize) -> Result<LinkEntries, AllocError>
        ensures { IfOk result (λ entries. entries ≡ []) }
    {
        Ok(LinkEntries {
            entries: SmallVec::with_capacity(alloc, count)?,
            may_be_idle: false,
        })
    }

    /// Tests whether there is none.
    pub fn is_empty(&self) -> bool
        ensures { IsTrue result ↔ (length self.now ≡ 0) }
    {
        self.entries.is_empty()
    }

    /// Lends the entries.
    pub fn as_slice(&self) -> &[LinkEntry]
        ensures entries { result.now ≡ self.now }
        ensures rising { AreRising self.now }
    {
        self.entries.as_slice()
    }

    /// Finds the greatest bandwidth that is held on a link at the priority or a better one, or 0.
    pub fn share(&self, link: LinkNumber, priority: u8) -> u64
        requires { priority < 8 }
        ensures { result ≡ most (kept link self.now) priority }
    {
        match find(self.entries.as_slice(), link) {
            Some(place) => self.entries[place].entry.maxima()[priority as usize],
            None => 0,
        }
    }

    /// Removes the entries that hold nothing and have promised no room. If there is none, nothing is looked at.
    fn drop_idle(&mut self)
        ensures { (l : ℕ) → entry_on l self.new ≡ if_busy (entry_on l self.old) }
    {
        if self.may_be_idle {
            drop_idle(&mut self.entries);
            self.may_be_idle = false;
        }
    }

    /// Moves what a path holds on one link, and the sums of the link. Skips a link that doesn't exist.
    fn move_on(
        &mut self,
        alloc: Global,
        sums: &mut [[u64; 8]],
        link: LinkNumber,
        op: BookOp,
        held: Reservation,
    ) -> Result<(), AllocError>
        requires room { link < length sums.old → room_for op 1 ≤ promised_to link self.old }
        requires within { (l p : ℕ) → l < length sums.old → p < 8 → most (kept l self.old) p ≤ sum_at sums.old l p }
        requires small { (l p : ℕ) → l < length sums.old → p < 8 → sum_at sums.old l p < 2 ^ 63 }
        requires below { held.bandwidth < 2 ^ 48 }
        ensures count { length sums.new ≡ length sums.old }
        ensures sums { (l p : ℕ) → l < length sums.old → p < 8 → sum_at sums.new l p + most (kept l self.old) p ≡ sum_at sums.old l p + most (kept l self.new) p }
        ensures moved { (l : ℕ) → l < length sums.old → IsShifted op (if link == l then held ∷ [] else []) (entry_on l self.old) (entry_on l self.new) }
        ensures past { (l : ℕ) → length sums.old ≤ l → kept l self.new ≡ kept l self.old }
        ensures ok { OnOk result ((l : ℕ) → l < length sums.old → promised_after op (length (if link == l then held ∷ [] else [])) (promised_to l self.old) ≤ promised_to l self.new) }
        ensures sure { takes_memory op ≡ false → IsOk result }
    {
        if link >= sums.len() {
            return Ok(());
        }
        if let Some(place) = find(self.entries.as_slice(), link) {
            return move_at(
                &mut self.entries,
                &mut self.may_be_idle,
                place,
                &mut sums[link],
                link,
                op,
                held,
            );
        }
        if op.takes_memory() {
            return put_entry(alloc, &mut self.entries, link, op, held);
        }
        Ok(())
    }

    /// Moves what a path holds on each of its links. Entries that hold nothing then stay.
    fn move_each(
        &mut self,
        alloc: Global,
        sums: &mut [[u64; 8]],
        links: &[LinkNumber],
        op: BookOp,
        held: Reservation,
    ) -> Result<(), AllocError>
        requires room { (l : ℕ) → l < length sums.old → room_for op (length (held_by_links held l links.now)) ≤ promised_to l self.old }
        requires within { (l p : ℕ) → l < length sums.old → p < 8 → most (kept l self.old) p ≤ sum_at sums.old l p }
        requires small { (l p : ℕ) → l < length sums.old → p < 8 → sum_at sums.old l p < most (kept l self.old) p + (2 ^ 63 - 2 ^ 48) }
        requires least { (l p : ℕ) → l < length sums.old → most (kept l self.old) p < 2 ^ 48 }
        requires below { held.bandwidth < 2 ^ 48 }
        ensures count { length sums.new ≡ length sums.old }
        ensures sums { (l p : ℕ) → l < length sums.old → p < 8 → sum_at sums.new l p + most (kept l self.old) p ≡ sum_at sums.old l p + most (kept l self.new) p }
        ensures moved { (l : ℕ) → l < length sums.old → IsShifted op (held_by_links held l links.now) (entry_on l self.old) (entry_on l self.new) }
        ensures past { (l : ℕ) → length sums.old ≤ l → kept l self.new ≡ kept l self.old }
        ensures ok { OnOk result ((l : ℕ) → l < length sums.old → promised_after op (length (held_by_links held l links.now)) (promised_to l self.old) ≤ promised_to l self.new) }
        ensures sure { takes_memory op ≡ false → IsOk result }
    {
        for link in links {
            self.move_on(alloc, sums, *link, op, held)?;
        }
        Ok(())
    }

    /// Makes idle entries for the links that have none, if a promise is to be moved on many of them.
    fn make_entries(
        &mut self,
        alloc: Global,
        links: &[LinkNumber],
        op: BookOp,
    ) -> Result<(), AllocError>
        ensures same { (l : ℕ) → IsSame (entry_on l self.old) (entry_on l self.new) }
        ensures sure { takes_memory op ≡ false → IsOk result }
    {
        if !op.takes_memory() || links.len() < MANY_LINKS {
            return Ok(());
        }
        put_missing(alloc, &mut self.entries, &mut self.may_be_idle, links)
    }

    /// Moves what a path holds on each of its links, after making the missing entries if the links are many. Entries
    /// that hold nothing then stay.
    fn move_all(
        &mut self,
        alloc: Global,
        sums: &mut [[u64; 8]],
        links: &[LinkNumber],
        op: BookOp,
        held: Reservation,
    ) -> Result<(), AllocError>
        requires room { (l : ℕ) → l < length sums.old → room_for op (length (held_by_links held l links.now)) ≤ promised_to l self.old }
        requires within { (l p : ℕ) → l < length sums.old → p < 8 → most (kept l self.old) p ≤ sum_at sums.old l p }
        requires small { (l p : ℕ) → l < length sums.old → p < 8 → sum_at sums.old l p < most (kept l self.old) p + (2 ^ 63 - 2 ^ 48) }
        requires least { (l p : ℕ) → l < length sums.old → most (kept l self.old) p < 2 ^ 48 }
        requires below { held.bandwidth < 2 ^ 48 }
        ensures count { length sums.new ≡ length sums.old }
        ensures sums { (l p : ℕ) → l < length sums.old → p < 8 → sum_at sums.new l p + most (kept l self.old) p ≡ sum_at sums.old l p + most (kept l self.new) p }
        ensures moved { (l : ℕ) → l < length sums.old → IsShifted op (held_by_links held l links.now) (entry_on l self.old) (entry_on l self.new) }
        ensures past { (l : ℕ) → length sums.old ≤ l → kept l self.new ≡ kept l self.old }
        ensures ok { OnOk result ((l : ℕ) → l < length sums.old → promised_after op (length (held_by_links held l links.now)) (promised_to l self.old) ≤ promised_to l self.new) }
        ensures sure { takes_memory op ≡ false → IsOk result }
    {
        self.make_entries(alloc, links, op)?;
        self.move_each(alloc, sums, links, op, held)
    }

    /// Walks over the links of a path and moves what it holds on each, and the sums of the link. Skips a link that
    /// doesn't exist. Entries that then hold nothing and have promised no room go. Only a promise can fail, if memory
    /// runs out.
    pub fn move_links(
        &mut self,
        alloc: Global,
        sums: &mut [[u64; 8]],
        links: &[LinkNumber],
        op: BookOp,
        held: Reservation,
    ) -> Result<(), AllocError>
        requires room { (l : ℕ) → l < length sums.old → room_for op (length (held_by_links held l links.now)) ≤ promised_to l self.old }
        requires within { (l p : ℕ) → l < length sums.old → p < 8 → most (kept l self.old) p ≤ sum_at sums.old l p }
        requires small { (l p : ℕ) → l < length sums.old → p < 8 → sum_at sums.old l p < most (kept l self.old) p + (2 ^ 63 - 2 ^ 48) }
        requires least { (l p : ℕ) → l < length sums.old → most (kept l self.old) p < 2 ^ 48 }
        requires below { held.bandwidth < 2 ^ 48 }
        ensures count { length sums.new ≡ length sums.old }
        ensures sums { (l p : ℕ) → l < length sums.old → p < 8 → sum_at sums.new l p + most (kept l self.old) p ≡ sum_at sums.old l p + most (kept l self.new) p }
        ensures moved { (l : ℕ) → l < length sums.old → IsMoved op (held_by_links held l links.now) (entry_on l self.old) (entry_on l self.new) }
        ensures past { (l : ℕ) → length sums.old ≤ l → kept l self.new ≡ kept l self.old }
        ensures ok { OnOk result ((l : ℕ) → l < length sums.old → promised_after op (length (held_by_links held l links.now)) (promised_to l self.old) ≤ promised_to l self.new) }
        ensures sure { takes_memory op ≡ false → IsOk result }
    {
        let moved = self.move_all(alloc, sums, links, op, held);
        self.drop_idle();
        moved
    }
}
