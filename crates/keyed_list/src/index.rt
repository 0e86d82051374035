//! The bucket of each place of a list, and a way from a bucket's last place to its first.
ghost use Rattle.std.specs.Prelude.{◌≡◌, ◌<◌, ◌≤◌, ◌+◌, ◌-◌, ◌++◌, ◌∷◌, [], length, min, take, slice_set, OnOk};
ghost use Rattle.keyed_list.specs.Index.{IsFree, IsIndex, IsNext, LeadsTo};

use std::alloc::{AllocError, Global};
use std::marker::Model;

/// The number of buckets that have an entry in `newest`. A place of a greater bucket is found by a pass over all.
const BUCKETS: usize = 16384;

/// The bucket of each place of a list. A contract sees the buckets and the capacity. It doesn't see that a bucket's
/// places are found in few steps, which is a matter of speed.
///
/// An end of a bucket below a place: from the end up to the place, no place has the bucket. `newest` has each bucket's
/// end below the length, `earlier` each place's end of its own bucket below that place. Ends are stored in 16 bits, so
/// that they stay in the cache; 65,535 means unknown.
#[derive(Debug, Drop)]
pub struct BucketIndex {
    buckets: Vec<u16>,
    newest: Vec<u16>,
    earlier: Vec<u16>,
}

impl Model for BucketIndex {
    ghost use Rattle.std.specs.Prelude.{min, vec_capacity};
    ghost use Rattle.keyed_list.specs.Index.{Index, IsIndex};

    ghost Value = { Index };

    ghost view = { λ i. record { buckets = i.buckets.items; room = min (vec_capacity i.buckets) (vec_capacity i.earlier) } };

    ghost invariant = { λ i. IsIndex i.buckets.items i.newest.items i.earlier.items };
}

/// Packs an end into 16 bits. An end of 65,535 or more becomes unknown.
fn pack(end: usize) -> u16
    ensures { result ≡ min end 65535 }
{
    end.min(usize::from(u16::MAX)) as u16
}

/// Reads a packed end below a place. If it is unknown, the place itself is an end.
fn unpack(end: u16, place: usize) -> usize
    ensures known { end < 65535 → result ≡ min end place }
    ensures unknown { 65535 ≤ end → result ≡ place }
{
    if end < u16::MAX {
        place.min(usize::from(end))
    } else {
        place
    }
}

/// Finds an end of the bucket below the length.
fn last_end(buckets: &[u16], newest: &[u16], earlier: &[u16], bucket: u16) -> usize
    requires index { IsIndex buckets.now newest.now earlier.now }
    ensures within { result ≤ length buckets.now }
    ensures free { IsFree buckets.now bucket result (length buckets.now) }
{
    if usize::from(bucket) < newest.len() {
        unpack(newest[usize::from(bucket)], buckets.len())
    } else {
        buckets.len()
    }
}

/// Finds an end of the bucket below the place.
fn end_before(buckets: &[u16], newest: &[u16], earlier: &[u16], bucket: u16, place: usize) -> usize
    requires place { place < length buckets.now }
    requires index { IsIndex buckets.now newest.now earlier.now }
    ensures below { result ≤ place }
    ensures free { IsFree buckets.now bucket result place }
{
    if buckets[place] == bucket {
        unpack(earlier[place], place)
    } else {
        place
    }
}

/// Finds the next place above the given one that has the bucket, or the length, and an end of the bucket below the
/// given place.
fn around(
    buckets: &[u16],
    newest: &[u16],
    earlier: &[u16],
    bucket: u16,
    place: usize,
) -> (usize, usize)
    requires place { place < length buckets.now }
    requires index { IsIndex buckets.now newest.now earlier.now }
    ensures next { IsNext buckets.now bucket place result.0 }
    ensures below { result.1 ≤ place }
    ensures free { IsFree buckets.now bucket result.1 place }
{
    let mut end = last_end(buckets, newest, earlier, bucket);
    let mut above = buckets.len();
    while end > place + 1 {
        if buckets[end - 1] == bucket {
            above = end - 1;
        }
        end = end_before(buckets, newest, earlier, bucket, end - 1);
    }
    if end > place {
        end = end_before(buckets, newest, earlier, bucket, place);
    }
    (above, end)
}

/// Makes the end stored for the bucket's next place above the given one no lower than `end`. Returns an end of the
/// bucket below the given place.
fn lead(
    buckets: &[u16],
    newest: &mut [u16],
    earlier: &mut [u16],
    bucket: u16,
    place: usize,
    end: usize,
) -> usize
    requires place { place < length buckets.now }
    requires end { end ≤ place + 1 }
    requires free { IsFree buckets.now bucket end (place + 1) }
    requires index { IsIndex buckets.now newest.old earlier.old }
    ensures index { IsIndex buckets.now newest.new earlier.new }
    ensures leads { LeadsTo buckets.now newest.new earlier.new bucket place end }
    ensures below { result ≤ place }
    ensures free { IsFree buckets.now bucket result place }
{
    let (above, below) = around(buckets, newest, earlier, bucket, place);
    if above < buckets.len() {
        earlier[above] = pack(end);
    } else if usize::from(bucket) < newest.len() {
        newest[usize::from(bucket)] = pack(end);
    }
    below
}

/// Sets the bucket of a place.
fn put(buckets: &mut [u16], newest: &mut [u16], earlier: &mut [u16], place: usize, bucket: u16)
    requires place { place < length buckets.old }
    requires index { IsIndex buckets.old newest.old earlier.old }
    ensures buckets { buckets.new ≡ slice_set buckets.old place bucket }
    ensures index { IsIndex buckets.new newest.new earlier.new }
{
    let below = lead(buckets, newest, earlier, bucket, place, place + 1);
    earlier[place] = pack(below);
    buckets[place] = bucket;
}

/// Allocates the ends of all buckets, if that wasn't done yet.
fn start_ends(
    buckets: &[u16],
    newest: &mut Vec<u16>,
    earlier: &[u16],
    alloc: Global,
) -> Result<(), AllocError>
    requires index { IsIndex buckets.now newest.old.items earlier.now }
    ensures index { IsIndex buckets.now newest.new.items earlier.now }
{
    if newest.is_empty() {
        *newest = vec![in alloc; pack(buckets.len()); BUCKETS]?;
    }
    Ok(())
}

impl BucketIndex {
    /// Makes an index of no places. Allocates nothing.
    pub fn new(alloc: Global) -> BucketIndex
        ensures { result.buckets ≡ [] }
    {
        BucketIndex {
            buckets: Vec::new(alloc),
            newest: Vec::new(alloc),
            earlier: Vec::new(alloc),
        }
    }

    /// Makes room for this many more places.
    pub fn reserve(&mut self, more: usize) -> Result<(), AllocError>
        ensures ok { OnOk result (length self.new.buckets + more ≤ self.new.room) }
        ensures buckets { self.new.buckets ≡ self.old.buckets }
        ensures room { self.old.room ≤ self.new.room }
    {
        let alloc = *self.buckets.allocator();
        start_ends(&self.buckets, &mut self.newest, &self.earlier, alloc)?;
        self.buckets.reserve(more)?;
        self.earlier.reserve(more)?;
        Ok(())
    }

    /// Adds a place with the bucket at the end. Allocates nothing.
    pub fn push(&mut self, bucket: u16)
        requires { length self.old.buckets < self.old.room }
        ensures buckets { self.new.buckets ≡ self.old.buckets ++ bucket ∷ [] }
        ensures room { self.new.room ≡ self.old.room }
    {
        let end = last_end(&self.buckets, &self.newest, &self.earlier, bucket);
        self.buckets.push_reserved(bucket);
        self.earlier.push_reserved(pack(end));
        if usize::from(bucket) < self.newest.len() {
            self.newest[usize::from(bucket)] = pack(self.buckets.len());
        }
    }

    /// Sets the bucket of a place. Allocates nothing.
    pub fn set(&mut self, place: usize, bucket: u16)
        requires { place < length self.old.buckets }
        ensures buckets { self.new.buckets ≡ slice_set self.old.buckets place bucket }
        ensures room { self.new.room ≡ self.old.room }
    {
        let old = self.buckets[place];
        if old == bucket {
            return;
        }
        let end = end_before(&self.buckets, &self.newest, &self.earlier, old, place);
        put(
            &mut self.buckets,
            &mut self.newest,
            &mut self.earlier,
            place,
            bucket,
        );
        let _ = lead(
            &self.buckets,
            &mut self.newest,
            &mut self.earlier,
            old,
            place,
            end,
        );
    }

    /// Removes the last place. Allocates nothing.
    pub fn pop(&mut self)
        requires { 0 < length self.old.buckets }
        ensures buckets { self.new.buckets ≡ take (length self.old.buckets - 1) self.old.buckets }
        ensures room { self.new.room ≡ self.old.room }
    {
        let place = self.buckets.len() - 1;
        let bucket = self.buckets[place];
        let end = end_before(&self.buckets, &self.newest, &self.earlier, bucket, place);
        self.buckets.truncate(place);
        self.earlier.truncate(place);
        if usize::from(bucket) < self.newest.len() {
            self.newest[usize::from(bucket)] = pack(end);
        }
    }

    /// Finds a place from which on no place has the bucket.
    pub fn last_end(&self, bucket: u16) -> usize
        ensures within { result ≤ length self.now.buckets }
        ensures free { IsFree self.now.buckets bucket result (length self.now.buckets) }
    {
        last_end(&self.buckets, &self.newest, &self.earlier, bucket)
    }

    /// Finds a place from which on, up to the given one, no place has the bucket.
    pub fn end_before(&self, bucket: u16, place: usize) -> usize
        requires { place < length self.now.buckets }
        ensures below { result ≤ place }
        ensures free { IsFree self.now.buckets bucket result place }
    {
        end_before(&self.buckets, &self.newest, &self.earlier, bucket, place)
    }
}
