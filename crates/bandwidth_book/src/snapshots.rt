//! Snapshots of what is left of every link.
ghost use Rattle.std.specs.Prelude.{◌≡◌, ◌<◌, ◌^◌, Some, true, ℕ, List, [], All, length, slice_index, slice_index_or, IfOk, OnErr};
ghost use Rattle.std.specs.Arc.{arc_value};
ghost use Rattle.lsp_base.specs.Shares.{reservable};
ghost use Rattle.lsp_base.specs.declared.effect.Change.{Change};
ghost use Rattle.lsp_base.specs.declared.path.Path.{Path};
ghost use Rattle.lsp_base.specs.declared.tunnel.Tunnel.{Tunnel};
ghost use Rattle.te_snapshot.specs.Left.{left_on, state_beside};
ghost use Rattle.te_snapshot.specs.Network.{NetworkState};
ghost use Rattle.te_snapshot.specs.Pages.{is_marked, left_beside, row};
ghost use Rattle.bandwidth_book.specs.Books.{HasNoEmptyEntry, IsReady, StandsFor, held_on, kept_by, links_of, network_of};
ghost use Rattle.bandwidth_book.specs.Ledgers.{count, held_at};
ghost use Rattle.bandwidth_book.specs.Tables.{AreFresh, AreLeft, IsHeldOn, IsLeftOver, IsRowOf};

use crate::book::Book;
use crate::ledgers::Ledgers;
use lsp_base::{Path, Tunnel};
use sequence::PlainData;
use std::alloc::{AllocError, Global};
use std::sync::Arc;
use te_base::{Link, LinkNumber};
use te_snapshot::{Marks, Snapshot, Table, Topology};

/// Makes the first snapshot. Each row of it is still to be computed.
pub(crate) fn first_snapshot(
    alloc: Global,
    topology: Arc<Topology, Global>,
) -> Result<Snapshot, AllocError>
    ensures { IfOk result (λ s. s.network ≡ arc_value topology) }
{
    let mut rows = Vec::new(alloc);
    rows.resize(topology.links().len(), [0i64; 8])?;
    Snapshot::new(alloc, topology, rows)
}

/// Marks the rows of a path's links.
fn mark_links(marks: &mut Marks, links: &[LinkNumber])
    ensures marked { All (λ l. is_marked marks.new l ≡ true) links.now }
    ensures kept { (l : ℕ) → is_marked marks.old l ≡ true → is_marked marks.new l ≡ true }
{
    for link in links {
        marks.mark(*link);
    }
}

/// Marks the rows of the links of each path.
pub(crate) fn mark_paths(marks: &mut Marks, paths: &[Path])
    ensures marked { All (λ x. All (λ l. is_marked marks.new l ≡ true) x.links) paths.now }
    ensures kept { (l : ℕ) → is_marked marks.old l ≡ true → is_marked marks.new l ≡ true }
{
    for path in paths {
        mark_links(marks, path.links.as_slice());
    }
}

/// Lends the stored sums of all links.
fn all_sums(ledgers: &Ledgers) -> &[[u64; 8]]
    ensures count { length result.now ≡ count ledgers.now }
    ensures small { (l p : ℕ) → l < length result.now → p < 8 → slice_index (slice_index_or result.now l []) p < 2 ^ 63 }
    ensures left { (links : List Link) (paths : List Path) (l : ℕ) → l < count ledgers.now → IsHeldOn (held_at ledgers.now l) l paths
        → left_beside links result.now l ≡ left_on links paths l }
{
    &ledgers.sums
}

/// Makes the table of what is left of every link: the last snapshot's table, with the marked rows computed again.
fn table_now(
    alloc: Global,
    last: &Snapshot,
    marks: &Marks,
    links: &[Link],
    ledgers: &Ledgers,
) -> Result<Table, AllocError>
    requires same { count ledgers.now ≡ length links.now }
    requires whole { length links.now ≡ length last.now.network.links }
    requires small { (l : ℕ) → reservable links.now l < 2 ^ 48 }
    requires fresh { AreFresh links.now (held_at ledgers.now) marks.now last.now.unreserved }
    ensures count { IfOk result (λ table. length table ≡ length links.now) }
    ensures rows { IfOk result (λ table. (l : ℕ) → l < length links.now → IsRowOf links.now (held_at ledgers.now) l (row table l)) }
{
    last.table().renewed(alloc, marks, links, all_sums(ledgers))
}

impl Book {
    /// Returns the network with the current links: that of the last snapshot, or a new one if a link has other values
    /// since.
    pub fn topology_now(&self) -> Result<Arc<Topology, Global>, AllocError>
        ensures { IfOk result (λ topology. arc_value topology ≡ network_of self.now) }
    {
        if self.is_current {
            return self.last.shared_topology();
        }
        let topology = self.last.topology().with_links(self.alloc, &self.links)?;
        Ok(Arc::new(self.alloc, topology)?)
    }

    /// Makes a current snapshot, of the pages of the last one and of new ones.
    fn snapshot_now(&self) -> Result<Snapshot, AllocError>
        ensures left { IfOk result (IsLeftOver (network_of self.now) (count self.now.ledgers) (held_at self.now.ledgers)) }
        ensures rows { IfOk result (λ s. (l : ℕ) → l < length (links_of self.now) → IsRowOf (links_of self.now) (held_on self.now) l (row s.unreserved l)) }
    {
        let topology = self.topology_now()?;
        let table = table_now(
            self.alloc,
            &self.last,
            &self.marks,
            &self.links,
            &self.ledgers,
        )?;
        Snapshot::of(self.alloc, topology, table)
    }

    /// Returns the network, with what is left of every link at each priority, in bytes per second. If no path and no
    /// value changed since the last snapshot, it returns that one, shared, and allocates nothing. Otherwise it copies
    /// the pages with a changed link and computes the rows of those links again, and copies the network if a link has
    /// other values. Later changes leave the snapshot as it is. If memory runs out nothing has changed.
    pub fn snapshot(&mut self) -> Result<Snapshot, AllocError>
        ensures network { IfOk result (λ s. s.network ≡ network_of self.old) }
        ensures whole { IfOk result (λ s. (paths : List Path) → StandsFor self.old paths → s ≡ state_beside (network_of self.old) paths) }
        ensures left { IfOk result (λ s. (paths : List Path) → StandsFor self.old paths → AreLeft (links_of self.old) paths s.unreserved) }
        ensures again { IfOk result (λ s. (kept : NetworkState) → kept_by self.old ≡ Some kept → s ≡ kept) }
        ensures kept { IfOk result (λ s. kept_by self.new ≡ Some s) }
        ensures same_network { network_of self.new ≡ network_of self.old }
        ensures held { (l : ℕ) (t : Tunnel) → held_on self.new l t ≡ held_on self.old l t }
        ensures stands { (paths : List Path) → StandsFor self.old paths → StandsFor self.new paths }
        ensures ready { (change : Change) → IsReady self.old change → IsReady self.new change }
        ensures tidy { HasNoEmptyEntry self.old → HasNoEmptyEntry self.new }
        ensures unchanged_without_memory { OnErr result (self.new ≡ self.old) }
    {
        if self.is_kept {
            return self.last.copy();
        }
        let snapshot = self.snapshot_now()?;
        self.last = snapshot.copy()?;
        self.is_kept = true;
        self.is_current = true;
        self.marks.clear();
        Ok(snapshot)
    }
}
