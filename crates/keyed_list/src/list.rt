//! A list that finds its items by bucket.
ghost use Rattle.std.specs.Prelude.{◌≡◌, ◌<◌, ◌≤◌, ◌+◌, ◌-◌, ◌++◌, ◌∷◌, [], length, map, filter, position, slice_set, slice_index_or, vec_capacity, IfOk, OnOk};
ghost use Rattle.std.specs.List.{list_any, swap_remove};
ghost use Rattle.keyed_list.specs.Index.{IsFree};
ghost use Rattle.keyed_list.specs.List.{AllIn, AllInTwo, FailsFrom};

use crate::index::BucketIndex;
use crate::keyed::{Edit, Keyed, Test};
use sequence::PlainData;
use std::alloc::{AllocError, Global};
use std::marker::Model;

/// A list that finds its items by bucket, without a pass over all. A contract sees the items and the capacity.
#[derive(Debug, Drop)]
pub struct KeyedList<T: Keyed> {
    items: Vec<T>,
    index: BucketIndex,
}

impl<T: Keyed> Model for KeyedList<T> {
    ghost use Rattle.std.specs.Prelude.{◌≡◌, map, min, vec_capacity};
    ghost use Rattle.keyed_list.specs.List.{Listed};

    ghost Value = { Listed T };

    ghost view = { λ l. record { items = l.items.items; room = min (vec_capacity l.items) l.index.room } };

    ghost invariant = { λ l. l.index.buckets ≡ map T.bucket_of l.items.items };
}

/// Finds a place from which on no item passes.
fn last_end<T: Keyed, S: Test<T>>(items: &[T], index: &BucketIndex, bucket: u16, test: &S) -> usize
    requires index { index.now.buckets ≡ map T.bucket_of items.now }
    requires within { AllIn T.bucket_of (S.passes test.now) bucket }
    ensures within { result ≤ length items.now }
    ensures fails { FailsFrom (S.passes test.now) items.now result (length items.now) }
{
    index.last_end(bucket)
}

/// Finds a place from which on, up to the given one, no item passes.
fn end_before<T: Keyed, S: Test<T>>(
    items: &[T],
    index: &BucketIndex,
    bucket: u16,
    test: &S,
    place: usize,
) -> usize
    requires index { index.now.buckets ≡ map T.bucket_of items.now }
    requires within { AllIn T.bucket_of (S.passes test.now) bucket }
    requires place { place < length items.now }
    ensures below { result ≤ place }
    ensures fails { FailsFrom (S.passes test.now) items.now result place }
{
    index.end_before(bucket, place)
}

/// Finds the first place whose item passes.
fn first<T: Keyed, S: Test<T>>(
    items: &[T],
    index: &BucketIndex,
    bucket: u16,
    test: &S,
) -> Option<usize>
    requires index { index.now.buckets ≡ map T.bucket_of items.now }
    requires within { AllIn T.bucket_of (S.passes test.now) bucket }
    ensures { result ≡ position (S.passes test.now) items.now }
{
    let mut end = last_end(items, index, bucket, test);
    let mut found = items.len();
    while end > 0 {
        let place = end - 1;
        if test.passes(&items[place]) {
            found = place;
        }
        end = end_before(items, index, bucket, test, place);
    }
    if found < items.len() {
        Some(found)
    } else {
        None
    }
}

/// Tests whether an item passes, in a list with its index. All items that pass are in the bucket.
pub fn any<T: Keyed, S: Test<T>>(items: &[T], index: &BucketIndex, bucket: u16, test: &S) -> bool
    requires index { index.now.buckets ≡ map T.bucket_of items.now }
    requires within { AllIn T.bucket_of (S.passes test.now) bucket }
    ensures { result ≡ list_any (S.passes test.now) items.now }
{
    let mut end = last_end(items, index, bucket, test);
    while end > 0 {
        let place = end - 1;
        if test.passes(&items[place]) {
            return true;
        }
        end = end_before(items, index, bucket, test, place);
    }
    false
}

/// Finds an end of the bucket below the place, from one that is an end below the next place.
fn next_end(index: &BucketIndex, bucket: u16, end: usize, place: usize) -> usize
    requires place { place < length index.now.buckets }
    requires free { IsFree index.now.buckets bucket end (place + 1) }
    ensures below { result ≤ place }
    ensures free { IsFree index.now.buckets bucket result place }
{
    if end <= place {
        end
    } else {
        index.end_before(bucket, place)
    }
}

/// Adds a copy of the item at the end, if it passes.
fn add_copy<T: PlainData, S: Test<T>>(
    found: &mut Vec<T>,
    item: &T,
    test: &S,
) -> Result<(), AllocError>
    ensures { OnOk result (found.new.items ≡ found.old.items ++ filter (S.passes test.now) (item.now ∷ [])) }
{
    if test.passes(item) {
        found.push(item.copy()?)?;
    }
    Ok(())
}

/// Copies the items that pass, in order.
fn filter_in<T: Keyed + PlainData, S: Test<T>>(
    alloc: Global,
    items: &[T],
    index: &BucketIndex,
    buckets: (u16, u16),
    test: &S,
) -> Result<Vec<T>, AllocError>
    requires index { index.now.buckets ≡ map T.bucket_of items.now }
    requires within { AllInTwo T.bucket_of (S.passes test.now) buckets.0 buckets.1 }
    ensures { IfOk result (λ found. found.items ≡ filter (S.passes test.now) items.now) }
{
    let mut first = index.last_end(buckets.0);
    let mut second = index.last_end(buckets.1);
    let mut end = first.max(second);
    let mut found = Vec::new(alloc);
    while end > 0 {
        let place = end - 1;
        add_copy(&mut found, &items[place], test)?;
        first = next_end(index, buckets.0, first, place);
        second = next_end(index, buckets.1, second, place);
        end = first.max(second);
    }
    found.reverse();
    Ok(found)
}

/// Edits each item.
pub fn edit_all<T, E: Edit<T>>(items: &mut Vec<T>, edit: &E)
    ensures items { items.new.items ≡ map (E.edited edit.now) items.old.items }
    ensures capacity { vec_capacity items.new ≡ vec_capacity items.old }
{
    for i in 0..items.len() {
        edit.edit(&mut items[i]);
    }
}

impl<T: Keyed> KeyedList<T> {
    /// Makes an empty list. Allocates nothing.
    pub fn new(alloc: Global) -> KeyedList<T>
        ensures { result.items ≡ [] }
    {
        KeyedList {
            items: Vec::new(alloc),
            index: BucketIndex::new(alloc),
        }
    }

    /// Lends the items, in order.
    pub fn as_slice(&self) -> &[T]
        ensures { result.now ≡ self.now.items }
    {
        self.items.as_slice()
    }

    /// Makes room for this many more items.
    pub fn reserve(&mut self, more: usize) -> Result<(), AllocError>
        ensures ok { OnOk result (length self.new.items + more ≤ self.new.room) }
        ensures items { self.new.items ≡ self.old.items }
        ensures room { self.old.room ≤ self.new.room }
    {
        self.items.reserve(more)?;
        self.index.reserve(more)
    }

    /// Adds the item at the end, into reserved room. Allocates nothing.
    pub fn push(&mut self, item: T)
        requires { length self.old.items < self.old.room }
        ensures items { self.new.items ≡ self.old.items ++ item ∷ [] }
        ensures room { self.new.room ≡ self.old.room }
    {
        self.index.push(item.bucket());
        self.items.push_reserved(item);
    }

    /// Removes the item at the place and returns it. The last item takes its place. Allocates nothing.
    pub fn swap_remove(&mut self, place: usize) -> T
        requires { place < length self.old.items }
        ensures value { result ≡ slice_index_or self.old.items place result }
        ensures items { self.new.items ≡ swap_remove self.old.items place result }
        ensures room { self.new.room ≡ self.old.room }
    {
        let bucket = self.items[self.items.len() - 1].bucket();
        self.index.set(place, bucket);
        self.index.pop();
        self.items.swap_remove(place)
    }

    /// Edits each item. An edit leaves an item in its bucket. Allocates nothing.
    pub fn edit_each<E: Edit<T>>(&mut self, edit: &E)
        requires { (x : T) → T.bucket_of (E.edited edit.now x) ≡ T.bucket_of x }
        ensures items { self.new.items ≡ map (E.edited edit.now) self.old.items }
        ensures room { self.new.room ≡ self.old.room }
    {
        edit_all(&mut self.items, edit);
    }

    /// Finds the first place whose item passes. All items that pass are in the bucket.
    pub fn position<S: Test<T>>(&self, bucket: u16, test: &S) -> Option<usize>
        requires { AllIn T.bucket_of (S.passes test.now) bucket }
        ensures { result ≡ position (S.passes test.now) self.now.items }
    {
        first(self.items.as_slice(), &self.index, bucket, test)
    }

    /// Tests whether an item passes. All items that pass are in the bucket.
    pub fn any<S: Test<T>>(&self, bucket: u16, test: &S) -> bool
        requires { AllIn T.bucket_of (S.passes test.now) bucket }
        ensures { result ≡ list_any (S.passes test.now) self.now.items }
    {
        any(self.items.as_slice(), &self.index, bucket, test)
    }
}

impl<T: Keyed + Drop> KeyedList<T> {
    /// Replaces the item at the place, which is dropped. Allocates nothing.
    pub fn replace(&mut self, place: usize, item: T)
        requires { place < length self.old.items }
        ensures items { self.new.items ≡ slice_set self.old.items place item }
        ensures room { self.new.room ≡ self.old.room }
    {
        self.index.set(place, item.bucket());
        self.items[place] = item;
    }
}

impl<T: Keyed + PlainData> KeyedList<T> {
    /// Copies the items that pass, in order. All items that pass are in one of the two buckets.
    pub fn filter_in<S: Test<T>>(
        &self,
        alloc: Global,
        buckets: (u16, u16),
        test: &S,
    ) -> Result<Vec<T>, AllocError>
        requires { AllInTwo T.bucket_of (S.passes test.now) buckets.0 buckets.1 }
        ensures { IfOk result (λ found. found.items ≡ filter (S.passes test.now) self.now.items) }
    {
        filter_in(alloc, self.items.as_slice(), &self.index, buckets, test)
    }
}
