//! Entries for many links at once. One at a time, each would move all entries of higher links.
ghost use Rattle.std.specs.Prelude.{◌≡◌, ◌<◌, ◌-◌, true, false, ℕ, [], Some, None, length, slice_get};
ghost use Rattle.smallvec.specs.SmallVec.{HasRoomFor};
ghost use Rattle.bandwidth_book.specs.declared.link_entries.LinkEntry.{LinkEntry};
ghost use Rattle.bandwidth_book.specs.Entries.{AreRising, IsBusy, IsSame, entry_on, joined_with, place_on};

use crate::entry::Entry;
use crate::link_entries::{LinkEntry, find};
use smallvec::SmallVec;
use std::alloc::{AllocError, Global};
use std::mem;
use te_base::LinkNumber;

/// Moves the last entry of `from` to the end of `to`.
fn move_last(from: &mut SmallVec<LinkEntry, 4>, to: &mut SmallVec<LinkEntry, 4>)
    requires some { 0 < length from.old.items }
    requires room { HasRoomFor to.old (length from.old.items) }
    ensures joined { joined_with to.new.items from.new.items ≡ joined_with to.old.items from.old.items }
    ensures fewer { length from.new.items < length from.old.items }
    ensures room { HasRoomFor to.new (length from.new.items) }
{
    if let Some(entry) = from.pop() {
        to.push_reserved(entry);
    }
}

/// Tests whether there are entries, the last of a link below this one.
fn ends_below(entries: &[LinkEntry], link: LinkNumber) -> bool
    ensures { result ≡ true → 0 < length entries.now }
{
    match entries.last() {
        Some(last) => last.link < link,
        None => false,
    }
}

/// Moves the entries of links below this one from the end of `rest`, where the lowest are.
fn move_below(
    rest: &mut SmallVec<LinkEntry, 4>,
    joined: &mut SmallVec<LinkEntry, 4>,
    link: LinkNumber,
)
    requires { HasRoomFor joined.old (length rest.old.items) }
    ensures joined { joined_with joined.new.items rest.new.items ≡ joined_with joined.old.items rest.old.items }
    ensures room { HasRoomFor joined.new (length rest.new.items) }
{
    while ends_below(rest.as_slice(), link) {
        move_last(rest, joined);
    }
}

/// Moves all entries from the end of `rest`, where the lowest are.
fn move_all(rest: &mut SmallVec<LinkEntry, 4>, joined: &mut SmallVec<LinkEntry, 4>)
    requires { HasRoomFor joined.old (length rest.old.items) }
    ensures { joined.new.items ≡ joined_with joined.old.items rest.old.items }
{
    while !rest.is_empty() {
        move_last(rest, joined);
    }
}

/// Tests whether the last of these entries, if there is one, is of a link below this one.
fn are_below(entries: &[LinkEntry], link: LinkNumber) -> bool
    ensures { (x : LinkEntry) → result ≡ true → slice_get entries.now (length entries.now - 1) ≡ Some x → x.link < link }
{
    match entries.last() {
        Some(last) => last.link < link,
        None => true,
    }
}

/// Tests whether the last of these entries, if there is one, is of a link above this one.
fn are_above(entries: &[LinkEntry], link: LinkNumber) -> bool
    ensures { (x : LinkEntry) → result ≡ true → slice_get entries.now (length entries.now - 1) ≡ Some x → link < x.link }
{
    match entries.last() {
        Some(last) => link < last.link,
        None => true,
    }
}

/// Tests whether the entry of a link belongs between those that were moved and those that weren't.
fn is_next(joined: &[LinkEntry], rest: &[LinkEntry], link: LinkNumber) -> bool
    requires { AreRising (joined_with joined.now rest.now) }
    ensures place { result ≡ true → place_on link (joined_with joined.now rest.now) ≡ length joined.now }
    ensures none { result ≡ true → entry_on link (joined_with joined.now rest.now) ≡ None }
{
    are_below(joined, link) && are_above(rest, link)
}

/// Puts an idle entry of a link after those that were moved, if it belongs there, and if there is room for it and for
/// those that weren't.
fn put_idle(
    alloc: Global,
    rest: &[LinkEntry],
    joined: &mut SmallVec<LinkEntry, 4>,
    link: LinkNumber,
)
    requires rising { AreRising (joined_with joined.old.items rest.now) }
    requires room { HasRoomFor joined.old (length rest.now) }
    ensures rising { AreRising (joined_with joined.new.items rest.now) }
    ensures same { (l : ℕ) → IsSame (entry_on l (joined_with joined.old.items rest.now)) (entry_on l (joined_with joined.new.items rest.now)) }
    ensures room { HasRoomFor joined.new (length rest.now) }
{
    if joined.capacity() - joined.len() > rest.len() && is_next(joined.as_slice(), rest, link) {
        joined.push_reserved(LinkEntry {
            link,
            entry: Entry::new(alloc),
        });
    }
}

/// Moves all entries from the end of `rest`, where the lowest are, and puts an idle one among them for each of these
/// links that has none. The links are in their order.
fn join(
    alloc: Global,
    rest: &mut SmallVec<LinkEntry, 4>,
    joined: &mut SmallVec<LinkEntry, 4>,
    links: &[LinkNumber],
)
    requires rising { AreRising (joined_with joined.old.items rest.old.items) }
    requires room { HasRoomFor joined.old (length rest.old.items) }
    ensures rising { AreRising joined.new.items }
    ensures same { (l : ℕ) → IsSame (entry_on l (joined_with joined.old.items rest.old.items)) (entry_on l joined.new.items) }
{
    for link in links {
        move_below(rest, joined, *link);
        put_idle(alloc, rest.as_slice(), joined, *link);
    }
    move_all(rest, joined);
}

/// Puts idle entries for these links among the others, if there is memory for it.
fn put_sorted(
    alloc: Global,
    entries: &mut SmallVec<LinkEntry, 4>,
    links: &[LinkNumber],
) -> Result<(), AllocError>
    requires { AreRising entries.old.items }
    ensures rising { AreRising entries.new.items }
    ensures same { (l : ℕ) → IsSame (entry_on l entries.old.items) (entry_on l entries.new.items) }
{
    let count = entries.len().saturating_add(links.len());
    let mut joined = SmallVec::with_capacity(alloc, count)?;
    entries.as_mut_slice().reverse();
    join(alloc, entries, &mut joined, links);
    mem::swap(entries, &mut joined);
    Ok(())
}

/// Lists those of the links that have no entry, in the order of their numbers.
fn links_without(
    alloc: Global,
    entries: &[LinkEntry],
    links: &[LinkNumber],
) -> Result<Vec<LinkNumber>, AllocError>
    requires { AreRising entries.now }
{
    let mut missing = Vec::new(alloc);
    for link in links {
        if find(entries, *link).is_none() {
            missing.push(*link)?;
        }
    }
    missing.sort_unstable();
    Ok(missing)
}

/// Puts idle entries for those of the links that have none, all in one pass, and notes whether any may be idle then.
pub(crate) fn put_missing(
    alloc: Global,
    entries: &mut SmallVec<LinkEntry, 4>,
    may_be_idle: &mut bool,
    links: &[LinkNumber],
) -> Result<(), AllocError>
    requires { AreRising entries.old.items }
    ensures rising { AreRising entries.new.items }
    ensures same { (l : ℕ) → IsSame (entry_on l entries.old.items) (entry_on l entries.new.items) }
    ensures busy { (l : ℕ) → may_be_idle.new ≡ false → IsBusy (entry_on l entries.old.items) → IsBusy (entry_on l entries.new.items) }
    ensures noted { may_be_idle.new ≡ false → may_be_idle.old ≡ false }
{
    let missing = links_without(alloc, entries.as_slice(), links)?;
    if missing.is_empty() {
        return Ok(());
    }
    *may_be_idle = true;
    put_sorted(alloc, entries, &missing)
}
