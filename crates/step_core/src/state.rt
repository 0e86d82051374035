//! The whole state, queries of it, and one step of it.
ghost use Rattle.std.specs.Prelude.{ℕ, Ok, true, ◌≡◌, ◌&&◌, ◌<◌, ◌≤◌, ◌^◌, ◌↔◌, length, find, IfOk, OnOk, OnErr, IsNone, IfNone, IfSome, option_copied};
ghost use Rattle.std.specs.Arc.{arc_value};
ghost use Rattle.std.specs.List.{list_all};
ghost use Rattle.lsp_base.specs.Shares.{unreserved};
ghost use Rattle.step_core.specs.States.{empty, is_up, is_queued, has_waiting};
ghost use Rattle.step_core.specs.Consistent.{AreFree, IsConsistent, has_srps_left};
ghost use Rattle.step_core.specs.Bases.{MayStand, known_in, state_over};
ghost use Rattle.step_core.specs.Steps.{step};
ghost use Rattle.step_core.specs.Laws.{peer_of, OthersStay, CountsRise};
ghost use Rattle.step_core.specs.Sound.{IsSoundGrant};
ghost use Rattle.step_core.specs.Names.{is_of_grant};
ghost use Rattle.te_snapshot.specs.Network.{network_of};
ghost use Rattle.te_snapshot.specs.Own.{own_shares};
ghost use Rattle.ticket_table.specs.Tickets.{is_update_asked};

use crate::base::{Base, copies};
use crate::event::{Event, Reply};
use crate::names::AwaitedName;
use crate::network::Network;
use crate::peer::Peer;
use crate::peer_list::PeerList;
use commit_core::Ticket;
use lsp_base::{LspBase, Tunnel};
use pcep_objects::Plsp;
use pcep_word::Priority;
use sequence::Sequence;
use std::alloc::{AllocError, Global};
use std::marker::Model;
use std::sync::Arc;
use te_base::{LinkNumber, TeBase};
use te_snapshot::{OwnShares, Topology};
use ticket_table::TicketTable;

mod asks;
mod grants;
mod over;
mod reloads;
mod reports;
mod requests;
mod sessions;

/// The tables of what the database knows at one moment, and what each event does to them.
#[derive(Drop)]
struct Tables {
    alloc: Global,
    network: Network,
    peers: PeerList,
    tickets: TicketTable,
    changes: u64,
    last_session: u64,
}

impl Model for Tables {
    ghost use Rattle.step_core.specs.States.{State as Known};

    ghost Value = { Known };

    ghost view = { λ s. record {
      te = s.network.te;
      base = s.network.base;
      names = s.network.names;
      peers = s.peers;
      tickets = s.tickets.tickets;
      changes = s.changes;
      last_session = s.last_session;
      last_ticket = s.tickets.last;
    } };
}

impl Tables {
    /// Makes tables of a network of which nothing was reported yet. Drops the links and nodes if memory runs out.
    fn new(alloc: Global, te: TeBase) -> Result<Tables, AllocError>
        ensures { IfOk result (λ tables. tables ≡ empty te) }
    {
        Ok(Tables {
            alloc,
            network: Network::new(alloc, te)?,
            peers: PeerList::new(alloc)?,
            tickets: TicketTable::new(alloc),
            changes: 0,
            last_session: 0,
        })
    }

    /// Takes one event. `are_free` says that the SRP-ID which each peer is given next is free.
    #[tactic(auto, unfolding(crate::specs::Steps::step))]
    fn step(&mut self, event: &Event, are_free: bool) -> Result<Reply, AllocError>
        requires changes { self.old.changes < 2 ^ 62 }
        requires sessions { self.old.last_session < 2 ^ 62 }
        requires tickets { self.old.last_ticket < 2 ^ 62 }
        requires consistent { IsConsistent self.old }
        requires free { are_free ≡ true → AreFree self.old }
        ensures reply { IfOk result (λ reply. reply ≡ (step self.old event.now).reply) }
        ensures state { OnOk result (self.new ≡ (step self.old event.now).state) }
        ensures unchanged_without_memory { OnErr result (self.new ≡ self.old) }
    {
        match event {
            Event::Up { peer, capabilities } => self.up(*peer, *capabilities),
            Event::Report { peer, report } => self.report(*peer, report),
            Event::Marker { peer } => self.marker(*peer),
            Event::Down { peer } => self.down(*peer),
            Event::Expire { peer } => self.expire(*peer),
            Event::Ask { peer, purpose } => self.ask(*peer, purpose),
            Event::Take => self.take(),
            Event::Commit { ticket, offer } => self.commit(*ticket, offer, are_free),
            Event::Drain { peer } => Ok(self.drain(*peer)),
            Event::Refused { peer, srp } => self.refused(*peer, *srp),
            Event::Return { peer, plsp } => self.give_back(*peer, *plsp, are_free),
            Event::Delete { peer, plsp } => self.delete(*peer, *plsp, are_free),
            Event::Reload { links } => Ok(self.reload(links.as_slice())),
        }
    }

    /// Copies what is known into plain lists.
    fn copy(&self) -> Result<Base, AllocError>
        ensures { IfOk result (λ base. base ≡ known_in self.now) }
    {
        Ok(Base {
            values: Sequence::from_vec(self.network.te_base().values(self.alloc)?),
            paths: copies(self.alloc, self.network.lsps().paths())?,
            records: copies(self.alloc, self.network.lsps().records())?,
            names: copies(self.alloc, self.network.names())?,
            peers: copies(self.alloc, self.peers.as_slice())?,
            tickets: Sequence::from_vec(self.tickets.copies(self.alloc)?),
            changes: self.changes,
            last_session: self.last_session,
            last_ticket: self.tickets.last(),
        })
    }

    /// Tests whether no peer was given the greatest SRP-ID.
    fn have_srps_left(&self) -> bool
        ensures { result ≡ list_all has_srps_left self.now.peers }
    {
        self.peers.have_srps_left()
    }

    fn unreserved(&self, link: LinkNumber, priority: Priority) -> Option<i64>
        ensures no_such_link { IsNone result ↔ (length self.now.te.links ≤ link) }
        ensures left { IfSome result (λ left. left ≡ unreserved self.now.te.links self.now.base.paths link priority) }
    {
        self.network.unreserved(link, priority)
    }

    fn is_up(&self, peer: u32) -> bool
        ensures { result ≡ is_up self.now peer }
    {
        match self.peers.find(peer) {
            Some(known) => known.up,
            None => false,
        }
    }

    fn waiting(&self) -> bool
        ensures { result ≡ has_waiting self.now }
    {
        self.tickets.first_waiting().is_some()
    }

    fn queued(&self, peer: u32) -> bool
        ensures { result ≡ is_queued self.now peer }
    {
        match self.peers.find(peer) {
            Some(known) => !known.outgoing.is_empty(),
            None => false,
        }
    }

    fn te_base(&self) -> &TeBase
        ensures { result.now ≡ self.now.te }
    {
        self.network.te_base()
    }

    fn lsps(&self) -> &LspBase
        ensures { result.now.content ≡ self.now.base }
    {
        self.network.lsps()
    }

    fn name_of_grant(&self, peer: u32, srp: u32) -> Option<&AwaitedName>
        ensures { option_copied result ≡ find (is_of_grant peer srp) self.now.names }
    {
        self.network.name_of_grant(peer, srp)
    }

    fn is_update_asked(&self, peer: u32, plsp: Plsp) -> bool
        ensures { result ≡ is_update_asked self.now.tickets peer plsp }
    {
        self.tickets.is_update_asked(peer, plsp)
    }

    fn shares_of(&self, tunnel: &Tunnel) -> Result<OwnShares, AllocError>
        ensures { IfOk result (λ own. own ≡ own_shares self.now.base.paths tunnel.now (length self.now.te.links)) }
    {
        self.network.shares_of(tunnel)
    }

    fn topology_now(&self) -> Result<Arc<Topology, Global>, AllocError>
        ensures { IfOk result (λ topology. arc_value topology ≡ network_of self.now.te) }
    {
        self.network.topology_now()
    }

    fn peers(&self) -> &[Peer]
        ensures { result.now ≡ self.now.peers }
    {
        self.peers.as_slice()
    }

    fn ticket_count(&self) -> usize
        ensures { result ≡ length self.now.tickets }
    {
        self.tickets.len()
    }

    fn copy_tickets(&self, alloc: Global) -> Result<Vec<Ticket>, AllocError>
        ensures { IfOk result (λ copies. copies.items ≡ self.now.tickets) }
    {
        self.tickets.copies(alloc)
    }
}

/// Tests whether the SRP-IDs that the peers are given next are above their last ones, if they were so far.
fn do_srps_rise(rose: bool, tables: &Tables) -> bool
    ensures { result ≡ (rose && list_all has_srps_left tables.now.peers) }
{
    rose && tables.have_srps_left()
}

/// What the database knows at one moment. A contract sees its lists. For every value of `State` they are consistent.
#[derive(Drop)]
pub struct State {
    tables: Tables,
    /// True only if no peer was ever given the greatest SRP-ID, so none in use is above the last that its peer was given.
    /// This isn't known of a state that was read.
    srps_rise: bool,
}

impl Model for State {
    ghost use Rattle.std.specs.Prelude.{◌≡◌, true};
    ghost use Rattle.step_core.specs.Consistent.{IsConsistent, NoneAbove};
    ghost use Rattle.step_core.specs.States.{State as Known};

    ghost Value = { Known };

    ghost view = { λ s. s.tables };

    ghost invariant = { λ s. IsConsistent s.tables × (s.srps_rise ≡ true → NoneAbove s.tables) };
}

impl State {
    /// Makes the state of a network of which nothing was reported yet. Drops the links and nodes if memory runs out.
    pub fn new(alloc: Global, te: TeBase) -> Result<State, AllocError>
        ensures { IfOk result (λ state. state ≡ empty te) }
    {
        Ok(State {
            tables: Tables::new(alloc, te)?,
            srps_rise: true,
        })
    }

    /// Makes the state that knows what was read, over a network of these nodes and links. `None` if it may not stand.
    pub fn over(alloc: Global, te: TeBase, base: Base) -> Result<Option<State>, AllocError>
        ensures made { IfOk result (λ made. IfSome made (λ state. state ≡ state_over te base)) }
        ensures stands { IfOk result (λ made. IfSome made (λ _. MayStand te base)) }
        ensures refused { IfOk result (λ made. IfNone made (MayStand te base → ⊥)) }
    {
        match Tables::over(alloc, te, base)? {
            Some(tables) => Ok(Some(State {
                tables,
                srps_rise: false,
            })),
            None => Ok(None),
        }
    }

    /// Takes one event. It makes all the room that it needs before it changes anything.
    pub fn step(&mut self, event: &Event) -> Result<Reply, AllocError>
        requires changes { self.old.changes < 2 ^ 62 }
        requires sessions { self.old.last_session < 2 ^ 62 }
        requires tickets { self.old.last_ticket < 2 ^ 62 }
        ensures reply { IfOk result (λ reply. reply ≡ (step self.old event.now).reply) }
        ensures state { OnOk result (self.new ≡ (step self.old event.now).state) }
        ensures unchanged_without_memory { OnErr result (self.new ≡ self.old) }
        ensures consistent { IsConsistent self.new }
        ensures others_stay { OthersStay (peer_of self.old event.now) self.old self.new }
        ensures counts_rise { CountsRise self.old self.new }
        ensures sound { (srp : ℕ) → result ≡ Ok (Reply.Granted srp) → IsSoundGrant self.old event.now self.new }
    {
        let rise = do_srps_rise(self.srps_rise, &self.tables);
        self.srps_rise = rise;
        self.tables.step(event, rise)
    }

    /// Computes what is left on a link at a priority, in bytes per second: the reservable bandwidth, minus the sum over
    /// tunnels of the greatest bandwidth of the tunnel's paths there that are held at that priority or a better one. It
    /// is below zero if more is reported than the link can carry. `None` if there is no such link. Allocates nothing.
    pub fn unreserved(&self, link: LinkNumber, priority: Priority) -> Option<i64>
        ensures no_such_link { IsNone result ↔ (length self.now.te.links ≤ link) }
        ensures left { IfSome result (λ left. left ≡ unreserved self.now.te.links self.now.base.paths link priority) }
    {
        self.tables.unreserved(link, priority)
    }

    /// Tests whether a session of the peer is up.
    pub fn is_up(&self, peer: u32) -> bool
        ensures { result ≡ is_up self.now peer }
    {
        self.tables.is_up(peer)
    }

    /// Tests whether a ticket waits to be searched for.
    pub fn waiting(&self) -> bool
        ensures { result ≡ has_waiting self.now }
    {
        self.tables.waiting()
    }

    /// Tests whether messages wait to be sent to the peer.
    pub fn queued(&self, peer: u32) -> bool
        ensures { result ≡ is_queued self.now peer }
    {
        self.tables.queued(peer)
    }

    /// Lends the links and nodes.
    pub fn te_base(&self) -> &TeBase
        ensures { result.now ≡ self.now.te }
    {
        self.tables.te_base()
    }

    /// Lends the paths and the records of LSPs.
    pub fn lsps(&self) -> &LspBase
        ensures { result.now.content ≡ self.now.base }
    {
        self.tables.lsps()
    }

    /// Finds the name that the LSP of the peer's grant of an SRP-ID is to have, until a report binds the grant.
    pub fn name_of_grant(&self, peer: u32, srp: u32) -> Option<&AwaitedName>
        ensures { option_copied result ≡ find (is_of_grant peer srp) self.now.names }
    {
        self.tables.name_of_grant(peer, srp)
    }

    /// Tests whether there is a ticket that updates the LSP.
    pub fn is_update_asked(&self, peer: u32, plsp: Plsp) -> bool
        ensures { result ≡ is_update_asked self.now.tickets peer plsp }
    {
        self.tables.is_update_asked(peer, plsp)
    }

    /// Lists what a tunnel reserves already on each link, as a search for an update of its LSP takes it.
    pub fn shares_of(&self, tunnel: &Tunnel) -> Result<OwnShares, AllocError>
        ensures { IfOk result (λ own. own ≡ own_shares self.now.base.paths tunnel.now (length self.now.te.links)) }
    {
        self.tables.shares_of(tunnel)
    }

    /// Returns the network with the current links: that of the last snapshot, or a new one if a link has other values
    /// since.
    pub fn topology_now(&self) -> Result<Arc<Topology, Global>, AllocError>
        ensures { IfOk result (λ topology. arc_value topology ≡ network_of self.now.te) }
    {
        self.tables.topology_now()
    }

    /// Lends the peers in the order in which they came, with their sessions and what waits to be sent to each.
    pub fn peers(&self) -> &[Peer]
        ensures { result.now ≡ self.now.peers }
    {
        self.tables.peers()
    }

    /// Counts the tickets.
    pub fn ticket_count(&self) -> usize
        ensures { result ≡ length self.now.tickets }
    {
        self.tables.ticket_count()
    }

    /// Copies the tickets, in rising order of their numbers.
    pub fn copy_tickets(&self, alloc: Global) -> Result<Vec<Ticket>, AllocError>
        ensures { IfOk result (λ copies. copies.items ≡ self.now.tickets) }
    {
        self.tables.copy_tickets(alloc)
    }

    /// Copies what is known into plain lists.
    pub fn copy(&self) -> Result<Base, AllocError>
        ensures { IfOk result (λ base. base ≡ known_in self.now) }
    {
        self.tables.copy()
    }

    /// Shows that what is known may stand over the network. So what `copy` returned is never refused when it is read
    /// again. It does nothing.
    pub fn what_stands_may_stand(&self)
        ensures { MayStand self.now.te (known_in self.now) }
    {
        let _few = self.tables.lsps().paths();
    }
}
