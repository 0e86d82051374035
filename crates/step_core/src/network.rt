//! A network with the LSPs over it, and the book of what their paths reserve.
ghost use Rattle.std.specs.Prelude.{◌≡◌, ◌↔◌, ◌<◌, ◌≤◌, ◌+◌, ◌^◌, ◌++◌, ◌∷◌, [], Some, None, false, List, length, find, OnOk, OnErr, IsNone, IfOk, IfErr, IfSome, option_copied};
ghost use Rattle.std.specs.Arc.{arc_value};
ghost use Rattle.std.specs.List.{list_any};
ghost use Rattle.lsp_base.specs.Lsps.{HasAll, no_lsps, changed, effect_of, lsp_at, with_stale, without};
ghost use Rattle.delegate_rules.specs.Effects.{one_record};
ghost use Rattle.lsp_base.specs.Rooms.{IsWithinLimit, HasRoom};
ghost use Rattle.lsp_base.specs.Shares.{unreserved};
ghost use Rattle.lsp_base.specs.declared.path.Path.{Path};
ghost use Rattle.bandwidth_book.specs.Books.{IsReady, StandsFor, network_of};
ghost use Rattle.commit_core.specs.Verdicts.{verdict};
ghost use Rattle.link_reload.specs.Reloads.{must_have_links, with_entries};
ghost use Rattle.step_core.specs.Grants.{granting, own_of, snapshot_of, with_name};
ghost use Rattle.step_core.specs.Names.{is_of_grant};
ghost use Rattle.step_core.specs.Networks.{carried_out};
ghost use Rattle.step_core.specs.States.{is_awaited_as};
ghost use Rattle.te_snapshot.specs.Network.{network_of as network_in};
ghost use Rattle.te_snapshot.specs.Own.{own_shares};

use crate::name_table::NameTable;
use crate::names::AwaitedName;
use crate::queue::Queue;
use bandwidth_book::Book;
use commit_core::{PeerView, Ticket, Verdict, judge, own_tunnel};
use link_reload::{LinkReload, reload};
use lsp_base::{Effect, Lsp, LspBase, Path, Record, RecordChange, Tunnel, Why};
use lsp_words::Plsp;
use pcep_messages::Message;
use pcep_word::Priority;
use sequence::Sequence;
use std::alloc::{AllocError, Global};
use std::marker::Model;
use std::sync::Arc;
use te_base::{LinkNumber, TeBase};
use te_snapshot::{OwnShares, Snapshot, Topology};

/// The links and nodes, what is known of the LSPs over them, the names of granted initiations that no report has named
/// yet, and the book of what the paths reserve. A contract doesn't see the book: for every value of `Network` the book
/// stands for its paths.
pub struct Network {
    alloc: Global,
    te: TeBase,
    lsps: LspBase,
    names: NameTable,
    book: Book,
}

/// Drops each part. Written by hand because a derived drop would be proved again for every owner.
impl Drop for Network {
    fn drop(self) {
        let Network {
            alloc: _,
            te,
            lsps,
            names,
            book,
        } = self;
        drop(te);
        drop(lsps);
        drop(names);
        drop(book);
    }
}

impl Model for Network {
    ghost use Rattle.step_core.specs.Networks.{Network as Known, IsBooked};

    ghost Value = { Known };

    ghost view = { λ n. record { te = n.te; base = n.lsps.content; names = n.names.names } };

    ghost invariant = { λ n. IsBooked n.te n.lsps.content n.book };
}

/// Makes all the room that an effect needs, and changes nothing.
fn make_room(lsps: &mut LspBase, book: &mut Book, effect: &Effect) -> Result<(), AllocError>
    ensures room { OnOk result (HasRoom lsps.new effect.now) }
    ensures ready { OnOk result (IsReady book.new effect.now.change) }
    ensures same_lsps { lsps.new.content ≡ lsps.old.content }
    ensures same_network { network_of book.new ≡ network_of book.old }
    ensures stands { (paths : List Path) → StandsFor book.old paths → StandsFor book.new paths }
{
    lsps.reserve(effect)?;
    book.reserve(&effect.change)
}

/// Carries out an effect on the LSPs of a peer, in reserved room.
fn make_change(lsps: &mut LspBase, book: &mut Book, peer: u32, effect: Effect)
    requires room { HasRoom lsps.old effect }
    requires few { IsWithinLimit lsps.old.content effect }
    requires ready { IsReady book.old effect.change }
    ensures changed { lsps.new.content ≡ changed lsps.old.content peer effect }
    ensures same_network { network_of book.new ≡ network_of book.old }
    ensures stands { (paths : List Path) → StandsFor book.old paths → HasAll paths effect.change.dropped
        → StandsFor book.new (without paths effect.change.dropped ++ effect.change.added) }
{
    book.change(&effect.change);
    lsps.change(peer, effect);
}

/// Makes the effect that adds a path, and nothing else.
fn granting(alloc: Global, path: Path) -> Result<Effect, AllocError>
    ensures { IfOk result (λ effect. effect ≡ granting path) }
{
    let added = vec![in alloc; path]?;
    Ok(Effect::new(Vec::new(alloc), added, Vec::new(alloc), false))
}

/// Makes the effect that sets a record, and nothing else.
fn setting(alloc: Global, plsp: Plsp, lsp: Lsp) -> Result<Effect, AllocError>
    ensures { IfOk result (λ effect. effect ≡ effect_of [] [] (one_record plsp lsp) false) }
{
    let change = RecordChange {
        plsp,
        lsp: Some(lsp),
    };
    let records = vec![in alloc; change]?;
    Ok(Effect::new(Vec::new(alloc), Vec::new(alloc), records, false))
}

/// Makes room for a name, if there is one.
fn reserve_name(names: &mut NameTable, name: &Option<AwaitedName>) -> Result<(), AllocError>
    ensures room { OnOk result (IfSome name.now (λ a. 0 < names.new.room)) }
    ensures names { names.new.names ≡ names.old.names }
{
    match name {
        Some(_) => names.reserve(),
        None => Ok(()),
    }
}

/// Holds a name from now on, if there is one, in reserved room.
fn hold_name(names: &mut NameTable, name: Option<AwaitedName>)
    requires room { IfSome name (λ a. 0 < names.old.room) }
    requires absent { IfSome name (λ a. list_any (is_of_grant a.peer a.srp) names.old.names ≡ false) }
    ensures { names.new.names ≡ with_name names.old.names name }
{
    if let Some(name) = name {
        names.add(name);
    }
}

impl Network {
    /// Makes a network of which nothing was reported yet. Drops the links and nodes if memory runs out.
    pub fn new(alloc: Global, te: TeBase) -> Result<Network, AllocError>
        ensures { IfOk result (λ network. network ≡ record { te = te; base = no_lsps; names = [] }) }
    {
        let topology = Arc::new(alloc, Topology::new(alloc, &te)?)?;
        let book = Book::new(alloc, topology)?;
        Ok(Network {
            alloc,
            te,
            lsps: LspBase::new(alloc),
            names: NameTable::new(alloc),
            book,
        })
    }

    /// Carries out an effect on the LSPs of a peer, in the lists and in the book. It makes all the room that
    /// it needs before it changes anything.
    pub fn carry_out(&mut self, peer: u32, effect: Effect) -> Result<(), AllocError>
        requires few { IsWithinLimit self.old.base effect }
        requires stand { HasAll self.old.base.paths effect.change.dropped }
        ensures changed { OnOk result (self.new ≡ carried_out self.old peer effect) }
        ensures unchanged_without_memory { OnErr result (self.new ≡ self.old) }
    {
        make_room(&mut self.lsps, &mut self.book, &effect)?;
        self.names.drop_names(effect.change.dropped.as_slice());
        make_change(&mut self.lsps, &mut self.book, peer, effect);
        Ok(())
    }

    /// Does what `carry_out` does, and appends a message to a queue. If memory runs out the queue is as before too.
    pub fn carry_out_saying(
        &mut self,
        peer: u32,
        effect: Effect,
        queue: &mut Queue,
        message: Message,
    ) -> Result<(), AllocError>
        requires few { IsWithinLimit self.old.base effect }
        requires stand { HasAll self.old.base.paths effect.change.dropped }
        ensures changed { OnOk result (self.new ≡ carried_out self.old peer effect) }
        ensures queued { OnOk result (queue.new ≡ queue.old ++ message ∷ []) }
        ensures unchanged_without_memory { OnErr result (self.new ≡ self.old) }
        ensures same_queue { OnErr result (queue.new ≡ queue.old) }
    {
        make_room(&mut self.lsps, &mut self.book, &effect)?;
        queue.push(message)?;
        self.names.drop_names(effect.change.dropped.as_slice());
        make_change(&mut self.lsps, &mut self.book, peer, effect);
        Ok(())
    }

    /// Grants a path to a peer: adds the path, holds the name that its LSP is to have, and appends the message that
    /// asks the peer for it to a queue. It makes all the room that it needs before it changes anything.
    pub fn grant(
        &mut self,
        peer: u32,
        path: Path,
        name: Option<AwaitedName>,
        queue: &mut Queue,
        message: Message,
    ) -> Result<(), AllocError>
        requires few { length self.old.base.paths < 16384 }
        requires absent { IfSome name (λ a. list_any (is_of_grant a.peer a.srp) self.old.names ≡ false) }
        ensures granted { OnOk result (self.new ≡ record self.old { base = changed self.old.base peer (granting path); names = with_name self.old.names name }) }
        ensures queued { OnOk result (queue.new ≡ queue.old ++ message ∷ []) }
        ensures unchanged_without_memory { OnErr result (self.new ≡ self.old) }
        ensures same_queue { OnErr result (queue.new ≡ queue.old) }
    {
        let effect = granting(self.alloc, path)?;
        make_room(&mut self.lsps, &mut self.book, &effect)?;
        reserve_name(&mut self.names, &name)?;
        queue.push(message)?;
        make_change(&mut self.lsps, &mut self.book, peer, effect);
        hold_name(&mut self.names, name);
        Ok(())
    }

    /// Adds a path at the end, and changes nothing else.
    pub fn add_path(&mut self, path: Path) -> Result<(), AllocError>
        requires few { length self.old.base.paths < 16384 }
        ensures added { OnOk result (self.new ≡ record self.old { base = record self.old.base { paths = self.old.base.paths ++ path ∷ [] } }) }
        ensures unchanged_without_memory { OnErr result (self.new ≡ self.old) }
    {
        let peer = path.peer;
        let effect = granting(self.alloc, path)?;
        self.carry_out(peer, effect)
    }

    /// Adds a record at the end, and changes nothing else.
    pub fn add_record(&mut self, known: Record) -> Result<(), AllocError>
        requires absent { lsp_at self.old.base.records known.peer known.plsp ≡ None }
        ensures added { OnOk result (self.new ≡ record self.old { base = record self.old.base { records = self.old.base.records ++ known ∷ [] } }) }
        ensures unchanged_without_memory { OnErr result (self.new ≡ self.old) }
    {
        let Record { peer, plsp, lsp } = known;
        let _few = self.lsps.paths();
        let effect = setting(self.alloc, plsp, lsp)?;
        self.carry_out(peer, effect)
    }

    /// Adds the name of a grant that has none at the end, and changes nothing else.
    pub fn add_name(&mut self, name: AwaitedName) -> Result<(), AllocError>
        requires absent { list_any (is_of_grant name.peer name.srp) self.old.names ≡ false }
        ensures added { OnOk result (self.new ≡ record self.old { names = self.old.names ++ name ∷ [] }) }
        ensures unchanged_without_memory { OnErr result (self.new ≡ self.old) }
    {
        self.names.reserve()?;
        self.names.add(name);
        Ok(())
    }

    /// Makes the peer's paths stale, and changes nothing else. A stale path reserves what it did.
    pub fn mark_stale(&mut self, peer: u32)
        ensures { self.new ≡ record self.old { base = with_stale self.old.base peer } }
    {
        self.lsps.mark_stale(peer);
    }

    /// Gives links other values, and counts the reload. A list that names a link that doesn't exist is refused, and
    /// changes nothing. Allocates nothing.
    pub fn reload(&mut self, entries: &[LinkReload], changes: &mut u64) -> Result<(), Why>
        requires { changes.old < 2 ^ 62 }
        ensures taken { OnOk result (must_have_links self.old.te entries.now ≡ None) }
        ensures refused { IfErr result (λ why. must_have_links self.old.te entries.now ≡ Some why) }
        ensures values { OnOk result (self.new ≡ record self.old { te = with_entries self.old.te entries.now }) }
        ensures counted { OnOk result (changes.new ≡ changes.old + 1) }
        ensures same_network { OnErr result (self.new ≡ self.old) }
        ensures same_count { OnErr result (changes.new ≡ changes.old) }
    {
        reload(&mut self.te, &mut self.book, entries, changes)
    }

    /// Reads what is left on a link at a priority, in bytes per second, from the book's stored sums. `None` if there is
    /// no such link. Allocates nothing.
    pub fn unreserved(&self, link: LinkNumber, priority: Priority) -> Option<i64>
        ensures no_such_link { IsNone result ↔ (length self.now.te.links ≤ link) }
        ensures left { IfSome result (λ left. left ≡ unreserved self.now.te.links self.now.base.paths link priority) }
    {
        let _there = self.te.link(link)?;
        Some(self.book.unreserved(link, priority))
    }

    /// Returns the network with what is left of every link. It is the last snapshot again if no path and no link
    /// changed since. If memory runs out nothing has changed.
    pub fn snapshot(&mut self) -> Result<Snapshot, AllocError>
        ensures snapshot { IfOk result (λ snapshot. snapshot ≡ snapshot_of self.old.te self.old.base) }
        ensures same { self.new ≡ self.old }
    {
        self.book.snapshot()
    }

    /// Returns the network with the current links: that of the last snapshot, or a new one if a link has other values
    /// since.
    pub fn topology_now(&self) -> Result<Arc<Topology, Global>, AllocError>
        ensures { IfOk result (λ topology. arc_value topology ≡ network_in self.now.te) }
    {
        self.book.topology_now()
    }

    /// Lists what the tunnel of the ticket's LSP reserves already, link by link.
    pub fn own_shares(&self, ticket: &Ticket) -> Result<OwnShares, AllocError>
        ensures { IfOk result (λ own. own ≡ own_of self.now.te self.now.base ticket.now) }
    {
        match own_tunnel(&self.lsps, ticket.peer, &ticket.purpose) {
            Some(tunnel) => self.book.own_shares(&tunnel),
            None => Ok(Sequence::from_vec(Vec::new(self.alloc))),
        }
    }

    /// Lists what a tunnel reserves already, link by link.
    pub fn shares_of(&self, tunnel: &Tunnel) -> Result<OwnShares, AllocError>
        ensures { IfOk result (λ own. own ≡ own_shares self.now.base.paths tunnel.now (length self.now.te.links)) }
    {
        self.book.own_shares(tunnel)
    }

    /// Decides what becomes of a ticket whose search has answered. Allocates nothing.
    pub fn judge(&self, ticket: &Ticket, offer: Option<&Path>, view: PeerView) -> Verdict
        ensures { result ≡ verdict ticket.now (option_copied offer.entry) self.now.base self.now.te view }
    {
        judge(ticket, offer, &self.lsps, &self.book, &self.te, view)
    }

    /// Tests whether a granted initiation of the peer has the name and no report has named it yet.
    pub fn is_name_awaited(&self, peer: u32, name: &[u8]) -> bool
        ensures { result ≡ list_any (is_awaited_as peer name.now) self.now.names }
    {
        self.names.is_awaited(peer, name)
    }

    /// Finds the name of the peer's grant of an SRP-ID.
    pub fn name_of_grant(&self, peer: u32, srp: u32) -> Option<&AwaitedName>
        ensures { option_copied result ≡ find (is_of_grant peer srp) self.now.names }
    {
        self.names.of_grant(peer, srp)
    }

    /// Lends the names of granted initiations that no report has named yet.
    pub fn names(&self) -> &[AwaitedName]
        ensures { result.now ≡ self.now.names }
    {
        self.names.as_slice()
    }

    /// Lends what is known of the LSPs.
    pub fn lsps(&self) -> &LspBase
        ensures { result.now.content ≡ self.now.base }
    {
        &self.lsps
    }

    /// Lends the links and nodes.
    pub fn te_base(&self) -> &TeBase
        ensures { result.now ≡ self.now.te }
    {
        &self.te
    }
}
