//! The records of the LSP-DB, found by LSP and by name.
ghost use Rattle.std.specs.Prelude.{◌≡◌, ◌<◌, ◌≤◌, ◌+◌, [], length, OnOk, option_copied};
ghost use Rattle.std.specs.List.{list_any, position_or_len};
ghost use Rattle.std.specs.Map.{keys_of};
ghost use Rattle.indexmap.specs.IndexMap.{insert_entry, spare, swap_remove_entry};
ghost use Rattle.lsp_base.specs.Lsps.{lsp_at, put, taken_away, set_record, set_records};
ghost use Rattle.lsp_base.specs.Tables.{is_named, key_of, name_bucket, same_key};

use crate::effect::{Record, RecordChange};
use crate::lsp::Lsp;
use crate::names::is_same_name;
use indexmap::IndexMap;
use keyed_list::{BucketIndex, Keyed, Test, any};
use lsp_words::Plsp;
use std::alloc::{AllocError, Global};
use std::marker::Model;

/// Names an LSP.
#[derive(Clone, Copy, Debug, PartialEq, Eq, Hash)]
pub struct LspKey {
    pub peer: u32,
    pub plsp: Plsp,
}

/// Records in order, found by LSP and by name. A contract sees the list of them, and for how many more there is room.
#[derive(Drop)]
pub struct RecordTable {
    by_lsp: IndexMap<LspKey, Record>,
    by_name: BucketIndex,
}

impl Model for RecordTable {
    ghost use Rattle.std.specs.Prelude.{◌≡◌, ◌-◌, length, map, min};
    ghost use Rattle.indexmap.specs.IndexMap.{spare, values};
    ghost use Rattle.lsp_base.specs.Tables.{AreKeyed, RecordRoom, record_bucket};

    ghost Value = { RecordRoom };

    ghost view = { λ t. record { records = values t.by_lsp; room = min (spare t.by_lsp) (t.by_name.room - length t.by_name.buckets) } };

    ghost invariant = { λ t. AreKeyed t.by_lsp.entries × (t.by_name.buckets ≡ map record_bucket (values t.by_lsp)) };
}

/// Returns the bucket of the LSPs of a peer with this name.
#[tactic(auto, unfolding(crate::specs::Tables::name_bucket))]
fn bucket_of_name(peer: u32, name: &[u8]) -> u16
    ensures { result ≡ name_bucket peer name.now }
{
    let mut bucket = peer % 16381;
    for byte in name {
        bucket = (bucket * 31 + u32::from(*byte)) % 16381;
    }
    bucket as u16
}

impl Keyed for Record {
    ghost use Rattle.lsp_base.specs.Tables.{record_bucket};

    ghost bucket_of = { record_bucket };

    fn bucket(&self) -> u16 {
        bucket_of_name(self.peer, self.lsp.name.as_slice())
    }
}

/// Tests whether a record is of an LSP of the peer with this name.
#[derive(Drop)]
struct Named<'a> {
    peer: u32,
    name: &'a [u8],
}

impl<'a> Test<Record> for Named<'a> {
    ghost use Rattle.lsp_base.specs.Tables.{is_named};

    ghost passes = { λ s r. is_named s.peer s.name.now r };

    fn passes(&self, known: &Record) -> bool {
        known.peer == self.peer && is_same_name(known.lsp.name.as_slice(), self.name)
    }
}

/// Sets a record under its key, into reserved room. Returns its place.
fn insert(map: &mut IndexMap<LspKey, Record>, known: Record) -> usize
    requires { 0 < spare map.old }
    ensures place { result ≡ position_or_len (same_key (key_of known)) (keys_of map.old.entries) }
    ensures entries { map.new.entries ≡ insert_entry same_key map.old.entries (key_of known) known }
    ensures room { spare map.old ≤ spare map.new + 1 }
{
    let key = LspKey {
        peer: known.peer,
        plsp: known.plsp,
    };
    let (place, _old) = map.insert_full(key, known).unwrap();
    place
}

/// Removes a record. The last record takes its place.
fn remove(map: &mut IndexMap<LspKey, Record>, key: LspKey)
    ensures entries { map.new.entries ≡ swap_remove_entry (same_key key) map.old.entries }
    ensures room { spare map.old ≤ spare map.new }
{
    let _old = map.swap_remove(&key);
}

impl RecordTable {
    /// Makes a table of no records. Allocates nothing.
    pub fn new(alloc: Global) -> RecordTable
        ensures { result.records ≡ [] }
    {
        RecordTable {
            by_lsp: IndexMap::new(alloc),
            by_name: BucketIndex::new(alloc),
        }
    }

    /// Lends the records, in order.
    pub fn as_slice(&self) -> &[Record]
        ensures { result.now ≡ self.now.records }
    {
        self.by_lsp.values().as_slice()
    }

    /// Makes room for this many more records.
    pub fn reserve(&mut self, more: usize) -> Result<(), AllocError>
        ensures ok { OnOk result (more ≤ self.new.room) }
        ensures records { self.new.records ≡ self.old.records }
    {
        self.by_lsp.reserve(more)?;
        self.by_name.reserve(more)
    }

    /// Finds what is known of the LSP.
    pub fn lsp(&self, peer: u32, plsp: Plsp) -> Option<&Lsp>
        ensures { option_copied result ≡ lsp_at self.now.records peer plsp }
    {
        match self.by_lsp.get(&LspKey { peer, plsp }) {
            Some(record) => Some(&record.lsp),
            None => None,
        }
    }

    /// Tests whether an LSP of the peer has the name. Allocates nothing.
    pub fn has_name(&self, peer: u32, name: &[u8]) -> bool
        ensures { result ≡ list_any (is_named peer name.now) self.now.records }
    {
        let bucket = bucket_of_name(peer, name);
        any(
            self.by_lsp.values().as_slice(),
            &self.by_name,
            bucket,
            &Named { peer, name },
        )
    }

    /// Sets a record, into reserved room: in its place if there is one, else at the end.
    fn put(&mut self, peer: u32, plsp: Plsp, lsp: Lsp)
        requires { 0 < self.old.room }
        ensures records { self.new.records ≡ put self.old.records peer plsp lsp }
        ensures room { self.old.room ≤ self.new.room + 1 }
    {
        let record = Record { peer, plsp, lsp };
        let bucket = record.bucket();
        let count = self.by_lsp.len();
        let place = insert(&mut self.by_lsp, record);
        if place < count {
            self.by_name.set(place, bucket);
        } else {
            self.by_name.push(bucket);
        }
    }

    /// Removes the LSP's record. The last record takes its place.
    fn take(&mut self, peer: u32, plsp: Plsp)
        ensures records { self.new.records ≡ taken_away self.old.records peer plsp }
        ensures room { self.old.room ≤ self.new.room }
    {
        let key = LspKey { peer, plsp };
        if let Some(place) = self.by_lsp.get_index_of(&key) {
            let records = self.by_lsp.values().as_slice();
            let last = records[records.len() - 1].bucket();
            self.by_name.set(place, last);
            self.by_name.pop();
            remove(&mut self.by_lsp, key);
        }
    }

    /// Sets or removes a record of the peer, into reserved room.
    fn set(&mut self, peer: u32, change: RecordChange)
        requires { 0 < self.old.room }
        ensures records { self.new.records ≡ set_record peer self.old.records change.plsp change.lsp }
        ensures room { self.old.room ≤ self.new.room + 1 }
    {
        let RecordChange { plsp, lsp } = change;
        match lsp {
            Some(lsp) => self.put(peer, plsp, lsp),
            None => self.take(peer, plsp),
        }
    }

    /// Sets or removes each of these records of the peer, into reserved room. Allocates nothing.
    pub fn set_all(&mut self, peer: u32, changes: Vec<RecordChange>)
        requires { length changes.items ≤ self.old.room }
        ensures records { self.new.records ≡ set_records peer self.old.records changes.items }
        ensures room { self.old.room ≤ self.new.room + length changes.items }
    {
        for change in changes {
            self.set(peer, change);
        }
    }
}
