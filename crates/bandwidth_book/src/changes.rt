//! How a book comes to stand for lists of paths.
ghost use Rattle.std.specs.Prelude.{◌≡◌, ◌<◌, ◌≤◌, ◌++◌, true, ℕ, List, [], length, IfOk, OnOk};
ghost use Rattle.std.specs.Arc.{arc_value};
ghost use Rattle.lsp_base.specs.Lsps.{HasAll, without};
ghost use Rattle.lsp_base.specs.declared.path.Path.{Path};
ghost use Rattle.lsp_base.specs.declared.tunnel.Tunnel.{Tunnel};
ghost use Rattle.bandwidth_book.specs.Books.{HasEmptyEntry, HasNoEmptyEntry, IsReady, StandsFor, held_on, kept_by, links_of, network_of, pending_on};
ghost use Rattle.bandwidth_book.specs.Reservation.{with_all, without_all};
ghost use Rattle.bandwidth_book.specs.Paths.{held_by};

use crate::book::Book;
use crate::ledgers::Ledgers;
use crate::paths::{change_paths, give_up_room, promise_paths};
use crate::snapshots::{first_snapshot, mark_paths};
use lsp_base::{Change, Path};
use sequence::{PlainData, Sequence};
use std::alloc::{AllocError, Global};
use std::sync::Arc;
use te_snapshot::{Marks, Topology};

/// Tests whether the last snapshot stays current: no path goes or comes.
fn stays_kept(is_kept: bool, dropped: &[Path], added: &[Path]) -> bool
    ensures kept { dropped.now ≡ [] → added.now ≡ [] → result ≡ is_kept }
    ensures was { result ≡ true → is_kept ≡ true }
    ensures none_dropped { result ≡ true → length dropped.now ≡ 0 }
    ensures none_added { result ≡ true → length added.now ≡ 0 }
{
    is_kept && dropped.is_empty() && added.is_empty()
}

impl Book {
    /// Makes a book of the network's links, on which nothing is reserved.
    pub fn new(alloc: Global, topology: Arc<Topology, Global>) -> Result<Book, AllocError>
        ensures network { IfOk result (λ book. network_of book ≡ arc_value topology) }
        ensures stands { IfOk result (λ book. StandsFor book []) }
        ensures tidy { IfOk result HasNoEmptyEntry }
    {
        let links = topology.links().to_vec(alloc)?;
        let ledgers = Ledgers::new(alloc, links.len())?;
        Ok(Book {
            alloc,
            links,
            last: first_snapshot(alloc, topology)?,
            is_kept: false,
            is_current: true,
            marks: Marks::all(),
            ledgers,
            pending: Sequence::from_vec(Vec::new(alloc)),
        })
    }

    /// Makes all the room that `change` needs for this change. Unused room of an earlier reservation is given up, so an
    /// entry without paths is one that this change adds to. If memory runs out, the book stands for what it stood for.
    pub fn reserve(&mut self, change: &Change) -> Result<(), AllocError>
        ensures ready { OnOk result (IsReady self.new change.now) }
        ensures network { network_of self.new ≡ network_of self.old }
        ensures kept { kept_by self.new ≡ kept_by self.old }
        ensures held { (l : ℕ) (t : Tunnel) → held_on self.new l t ≡ held_on self.old l t }
        ensures stands { (paths : List Path) → StandsFor self.old paths → StandsFor self.new paths }
        ensures pending { (l : ℕ) (t : Tunnel) → pending_on self.new l t ≤ length (held_by l t change.now.added) }
        ensures tidy { (l : ℕ) (t : Tunnel) → l < length (links_of self.old) → HasEmptyEntry self.new l t → 0 < length (held_by l t change.now.added) }
    {
        give_up_room(self.alloc, &mut self.ledgers, &mut self.pending);
        self.pending = change.added.copy()?;
        promise_paths(self.alloc, &mut self.ledgers, change.added.as_slice())
    }

    /// Carries out a change: the dropped paths go, then the added ones come. It needs no memory, but if there is some
    /// it uses it to put many dropped paths in order. Unused room is given up, so no entry is left without paths. After
    /// a change that isn't empty, the last snapshot is out of date.
    pub fn change(&mut self, change: &Change)
        requires ready { IsReady self.old change.now }
        ensures network { network_of self.new ≡ network_of self.old }
        ensures kept { change.now.dropped ≡ [] → change.now.added ≡ [] → kept_by self.new ≡ kept_by self.old }
        ensures held { (l : ℕ) (t : Tunnel) → l < length (links_of self.old)
            → held_on self.new l t ≡ with_all (without_all (held_on self.old l t) (held_by l t change.now.dropped)) (held_by l t change.now.added) }
        ensures stands { (paths : List Path) → StandsFor self.old paths → HasAll paths change.now.dropped
            → StandsFor self.new (without paths change.now.dropped ++ change.now.added) }
        ensures pending { (l : ℕ) (t : Tunnel) → pending_on self.new l t ≡ 0 }
        ensures tidy { HasNoEmptyEntry self.new }
    {
        let dropped = change.dropped.as_slice();
        let added = change.added.as_slice();
        self.is_kept = stays_kept(self.is_kept, dropped, added);
        mark_paths(&mut self.marks, dropped);
        mark_paths(&mut self.marks, added);
        change_paths(self.alloc, &mut self.ledgers, dropped, added);
        give_up_room(self.alloc, &mut self.ledgers, &mut self.pending);
    }
}
