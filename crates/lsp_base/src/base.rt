//! The LSP-DB.
ghost use Rattle.std.specs.Prelude.{◌≡◌, ◌≤◌, ◌+◌, ◌++◌, ◌&&◌, ◌||◌, length, filter, map, IsPermutation, OnOk, IfOk, option_copied, slice_get};
ghost use Rattle.std.specs.List.{list_any};
ghost use Rattle.lsp_base.specs.Lsps.{AreDistinct, HasAll, is_path_of, no_lsps, lsp_at, changed, with_stale};
ghost use Rattle.lsp_base.specs.Grants.{has_grant};
ghost use Rattle.lsp_base.specs.Pending.{is_grant_as, is_removed_as};
ghost use Rattle.lsp_base.specs.Rooms.{HasRoom, IsWithinLimit};
ghost use Rattle.lsp_base.specs.Tables.{is_named, PicksFrom};

use crate::effect::{Change, Effect, Record, RecordChange};
use crate::grants::AnyGrant;
use crate::lsp::Lsp;
use crate::passes::{RecordRule, changes_of, paths_passing};
use crate::path::Path;
use crate::path_list::{any_path_of_lsp, buckets_of_lsp, change_paths, make_stale};
use crate::pending::{has_grant_as, has_removal_as};
use crate::record_table::RecordTable;
use keyed_list::{KeyedList, Test};
use lsp_words::Plsp;
use std::alloc::{AllocError, Global};
use std::marker::Model;

/// The greatest number of paths at a time.
pub const PATH_LIMIT: usize = 16384;

/// How many items the first allocation has room for: 16,384, and as many again that an effect adds before the old ones
/// go. So the tables never move.
const FIRST_ROOM: usize = 32_768;

/// The LSP-DB: the paths and the records of all LSPs, each in order. A contract sees them and the room for more.
#[derive(Drop)]
pub struct LspBase {
    paths: KeyedList<Path>,
    records: RecordTable,
}

/// Returns for how many more items to make room if this many more come.
fn wanted(count: usize, more: usize) -> usize
    ensures { more ≤ result }
{
    FIRST_ROOM.saturating_sub(count).max(more)
}

impl Model for LspBase {
    ghost use Rattle.std.specs.Prelude.{◌≤◌, length};
    ghost use Rattle.lsp_base.specs.Lsps.{AreDistinct};
    ghost use Rattle.lsp_base.specs.Rooms.{Rooms};

    ghost Value = { Rooms };

    ghost view = { λ b. record {
      content = record { paths = b.paths.items; records = b.records.records };
      path_room = b.paths.room;
      record_room = b.records.room;
    } };

    ghost invariant = { λ b. (length b.paths.items ≤ 16384) × AreDistinct b.records.records };
}

impl LspBase {
    /// Makes an LSP-DB of no LSPs. Allocates nothing.
    pub fn new(alloc: Global) -> LspBase
        ensures { result.content ≡ no_lsps }
    {
        LspBase {
            paths: KeyedList::new(alloc),
            records: RecordTable::new(alloc),
        }
    }

    /// Makes the room that `change` needs for this effect.
    pub fn reserve(&mut self, effect: &Effect) -> Result<(), AllocError>
        ensures ok { OnOk result (HasRoom self.new effect.now) }
        ensures unchanged { self.new.content ≡ self.old.content }
    {
        let added = effect.change.added.as_slice().len();
        let changed = effect.records.as_slice().len();
        let paths = self.paths.as_slice().len();
        self.paths.reserve(wanted(paths, added))?;
        let records = self.records.as_slice().len();
        self.records.reserve(wanted(records, changed))
    }

    /// Carries out an effect on the LSPs of a peer: removes the dropped paths (the last path takes the place of each),
    /// adds the others at the end, and sets the records in order. No other path changes. Allocates nothing.
    #[tactic(auto, unfolding(crate::specs::Lsps::changed), using(crate::proofs::Distinct::set_records_distinct, crate::proofs::Removal::paths_exchanged))]
    pub fn change(&mut self, peer: u32, effect: Effect)
        requires reserved { HasRoom self.old effect }
        requires few { IsWithinLimit self.old.content effect }
        ensures changed { self.new.content ≡ changed self.old.content peer effect }
        ensures exchanged { HasAll self.old.content.paths effect.change.dropped
            → IsPermutation (self.old.content.paths ++ effect.change.added) (effect.change.dropped ++ self.new.content.paths) }
        ensures same_path_room { self.new.path_room ≡ self.old.path_room }
        ensures record_room { self.old.record_room ≤ self.new.record_room + length effect.records }
    {
        let Effect {
            change,
            records,
            wants_path: _,
        } = effect;
        let Change { dropped, added } = change;
        change_paths(&mut self.paths, dropped.as_slice(), added.into_vec());
        self.records.set_all(peer, records.into_vec());
    }

    /// Makes the peer's paths stale, and changes nothing else. Allocates nothing.
    #[tactic(auto, unfolding(crate::specs::Lsps::with_stale))]
    pub fn mark_stale(&mut self, peer: u32)
        ensures stale { self.new.content ≡ with_stale self.old.content peer }
        ensures same_path_room { self.new.path_room ≡ self.old.path_room }
        ensures same_record_room { self.new.record_room ≡ self.old.record_room }
    {
        make_stale(&mut self.paths, peer);
    }

    /// Lends the paths, in order.
    pub fn paths(&self) -> &[Path]
        ensures paths { result.now ≡ self.now.content.paths }
        ensures few { length result.now ≤ 16384 }
    {
        self.paths.as_slice()
    }

    /// Copies the paths that pass, in order. All paths that pass are the LSP's, or grants of the peer that are not
    /// bound to an LSP.
    pub fn paths_of_lsp<T: Test<Path>>(
        &self,
        alloc: Global,
        peer: u32,
        plsp: Plsp,
        test: &T,
    ) -> Result<Vec<Path>, AllocError>
        requires { PicksFrom (T.passes test.now) peer plsp }
        ensures { IfOk result (λ found. found.items ≡ filter (T.passes test.now) self.now.content.paths) }
    {
        self.paths
            .filter_in(alloc, buckets_of_lsp(peer, plsp), test)
    }

    /// Tests whether a path of the LSP passes: a reported one, or a grant that is bound to it. Allocates nothing.
    pub fn any_path_of_lsp<T: Test<Path>>(&self, peer: u32, plsp: Plsp, test: &T) -> bool
        ensures { result ≡ list_any (λ x. T.passes test.now x && is_path_of peer plsp x) self.now.content.paths }
    {
        any_path_of_lsp(&self.paths, peer, plsp, test)
    }

    /// Tests whether the LSP has a grant. Allocates nothing.
    pub fn has_grant(&self, peer: u32, plsp: Plsp) -> bool
        ensures { result ≡ has_grant self.now.content.paths peer plsp }
    {
        self.any_path_of_lsp(peer, plsp, &AnyGrant)
    }

    /// Copies the paths that pass, in order, by a pass over all.
    pub fn paths_passing<T: Test<Path>>(
        &self,
        alloc: Global,
        test: &T,
    ) -> Result<Vec<Path>, AllocError>
        ensures { IfOk result (λ found. found.items ≡ filter (T.passes test.now) self.now.content.paths) }
    {
        paths_passing(alloc, self.paths.as_slice(), test)
    }

    /// Lists the changes that the rule makes to records, in order, by a pass over all.
    pub fn record_changes<R: RecordRule>(
        &self,
        alloc: Global,
        rule: &R,
    ) -> Result<Vec<RecordChange>, AllocError>
        ensures { IfOk result (λ changes. changes.items ≡ map (R.change rule.now) (filter (R.applies rule.now) self.now.content.records)) }
    {
        changes_of(alloc, self.records.as_slice(), rule)
    }

    /// Tests whether a grant or an awaited removal of the peer has the SRP-ID, by a pass over all. Allocates nothing.
    pub fn has_srp(&self, peer: u32, srp: u32) -> bool
        ensures { result ≡ (list_any (is_grant_as peer srp) self.now.content.paths
            || list_any (is_removed_as peer srp) self.now.content.records) }
    {
        has_grant_as(self.paths.as_slice(), peer, srp)
            || has_removal_as(self.records.as_slice(), peer, srp)
    }

    /// Tests whether an LSP of the peer has the symbolic path name. Allocates nothing.
    pub fn has_name(&self, peer: u32, name: &[u8]) -> bool
        ensures { result ≡ list_any (is_named peer name.now) self.now.content.records }
    {
        self.records.has_name(peer, name)
    }

    /// Finds what is known of the LSP.
    pub fn lsp(&self, peer: u32, plsp: Plsp) -> Option<&Lsp>
        ensures { option_copied result ≡ lsp_at self.now.content.records peer plsp }
    {
        self.records.lsp(peer, plsp)
    }

    /// Returns the record at a place. Each record has one place below their number.
    pub fn record_at(&self, place: usize) -> Option<&Record>
        ensures { option_copied result ≡ slice_get self.now.content.records place }
    {
        self.records.as_slice().get(place)
    }

    /// Lends the records, in order.
    pub fn records(&self) -> &[Record]
        ensures records { result.now ≡ self.now.content.records }
        ensures distinct { AreDistinct result.now }
    {
        self.records.as_slice()
    }
}
