//! Paths that are asked for.
ghost use Rattle.std.specs.Prelude.{◌≡◌, ◌<◌, ◌^◌, length, option_map, IfOk, OnOk, OnErr};
ghost use Rattle.lsp_base.specs.Refusals.{◌⨟◌};
ghost use Rattle.delegate_rules.specs.Returns.{must_be_held};
ghost use Rattle.initiate_rules.specs.Checks.{must_be_new};
ghost use Rattle.step_core.specs.Asks.{is_name_held, may_be_asked, constraints_for, missing_ends, missing_ends_of, must_have_ends, may_have_one_more, new_ticket, ask_step};
ghost use Rattle.step_core.specs.Outcomes.{must_take_updates, must_take_initiations};
ghost use Rattle.step_core.specs.States.{peer_at};
ghost use Rattle.lsp_base.specs.Refusals.{unless};

use super::Tables;
use super::requests::{why_not_initiated, why_not_updated};
use super::sessions::why_not_up;
use crate::event::Reply;
use crate::peer_list::PeerList;
use commit_core::{Purpose, Ticket};
use initiate_rules::check_initiate;
use lsp_base::{Constraints, Ends, LspBase, Why, is_delegated, is_pending};
use pcep_objects::Plsp;
use sequence::PlainData;
use std::alloc::AllocError;
use te_base::{NodeNumber, TeBase};
use te_snapshot::node_of;
use ticket_table::{TICKET_LIMIT, TicketTable};

/// Says why the LSP can't be updated.
fn why_not_held(base: &LspBase, peer: u32, plsp: Plsp) -> Option<Why>
    ensures { result ≡ must_be_held base.now.content peer plsp }
{
    let lsp = base.lsp(peer, plsp);
    if lsp.is_none() {
        Some(Why::UnknownLsp)
    } else if !is_delegated(lsp) {
        Some(Why::NotDelegated)
    } else if is_pending(base, peer, plsp) {
        Some(Why::Pending)
    } else {
        None
    }
}

/// Says why no LSP of this name can be initiated.
fn why_not_new(base: &LspBase, peer: u32, name: &[u8], held: bool) -> Option<Why>
    ensures { result ≡ must_be_new base.now.content peer name.now held }
{
    match check_initiate(base, peer, name, held) {
        Err(why) => Some(why),
        Ok(()) => None,
    }
}

/// Returns what is asked of the path. `None` if nothing is known of the LSP that is to be updated.
fn constraints_for(base: &LspBase, peer: u32, purpose: &Purpose) -> Option<Constraints>
    ensures { result ≡ constraints_for base.now.content.records peer purpose.now }
{
    match purpose {
        Purpose::Update { plsp } => match base.lsp(peer, *plsp) {
            Some(lsp) => Some(lsp.constraints),
            None => None,
        },
        Purpose::Initiate { constraints, .. } | Purpose::Answer { constraints, .. } => {
            Some(*constraints)
        }
    }
}

/// Says which ends no node owns. A path to the node at which it begins has no destination.
fn missing_ends(from: Option<NodeNumber>, to: Option<NodeNumber>) -> Option<Ends>
    ensures { result ≡ missing_ends from to }
{
    match (from, to) {
        (None, None) => Some(Ends::Both),
        (None, Some(_)) => Some(Ends::Source),
        (Some(_), None) => Some(Ends::Destination),
        (Some(from), Some(to)) => {
            if from == to {
                Some(Ends::Destination)
            } else {
                None
            }
        }
    }
}

/// Says why the path doesn't have two ends.
fn why_no_ends(te: &TeBase, constraints: &Constraints) -> Option<Why>
    ensures { result ≡ must_have_ends te.now constraints.now }
{
    let from = node_of(te.owners(), constraints.source);
    let to = node_of(te.owners(), constraints.destination);
    match missing_ends(from, to) {
        Some(ends) => Some(Why::UnknownNode(ends)),
        None => None,
    }
}

/// Says why there can be no further ticket.
fn why_no_ticket(tickets: &TicketTable) -> Option<Why>
    ensures { result ≡ may_have_one_more tickets.now.tickets }
{
    if tickets.len() < TICKET_LIMIT {
        None
    } else {
        Some(Why::TooManyTickets)
    }
}

/// Returns the number of the peer's session, or 0 if it isn't known.
fn session_of(peers: &PeerList, peer: u32) -> u64
    ensures { result ≡ (peer_at peers.now peer).session }
{
    match peers.find(peer) {
        Some(known) => known.session,
        None => 0,
    }
}

impl Tables {
    /// Says why an update of the LSP isn't asked for.
    fn why_no_update(&self, peer: u32, plsp: Plsp) -> Option<Why>
        ensures { result ≡ may_be_asked self.now peer (Purpose.Update plsp) }
    {
        if let Some(why) = why_not_updated(&self.peers, peer) {
            return Some(why);
        }
        if let Some(why) = why_not_held(self.network.lsps(), peer, plsp) {
            return Some(why);
        }
        if self.tickets.is_update_asked(peer, plsp) {
            return Some(Why::Pending);
        }
        None
    }

    /// Tests whether the name is that of an LSP which the PCE asks for, or which it granted and no report has named
    /// yet.
    fn is_name_held(&self, peer: u32, name: &[u8]) -> bool
        ensures { result ≡ is_name_held self.now peer name.now }
    {
        self.tickets.is_name_asked(peer, name) || self.network.is_name_awaited(peer, name)
    }

    /// Says why no LSP of this name is asked for.
    fn why_no_initiation(&self, peer: u32, name: &[u8]) -> Option<Why>
        ensures { result ≡ (must_take_initiations self.now.peers peer ⨟ must_be_new self.now.base peer name.now (is_name_held self.now peer name.now)) }
    {
        if let Some(why) = why_not_initiated(&self.peers, peer) {
            return Some(why);
        }
        let held = self.is_name_held(peer, name);
        why_not_new(self.network.lsps(), peer, name, held)
    }

    /// Says why a path isn't asked for, by the tests for its purpose.
    fn why_not_asked(&self, peer: u32, purpose: &Purpose) -> Option<Why>
        ensures { result ≡ may_be_asked self.now peer purpose.now }
    {
        match purpose {
            Purpose::Update { plsp } => self.why_no_update(peer, *plsp),
            Purpose::Initiate { name, .. } => self.why_no_initiation(peer, name.as_slice()),
            Purpose::Answer { .. } => why_not_up(&self.peers, peer),
        }
    }

    /// Makes the next ticket, which waits.
    fn new_ticket(
        &self,
        peer: u32,
        purpose: &Purpose,
        constraints: Constraints,
    ) -> Result<Ticket, AllocError>
        requires { self.now.last_ticket < 2 ^ 62 }
        ensures { IfOk result (λ ticket. ticket ≡ new_ticket self.now peer purpose.now constraints) }
    {
        Ok(Ticket {
            id: self.tickets.last() + 1,
            peer,
            session: session_of(&self.peers, peer),
            purpose: purpose.copy()?,
            constraints,
            tries: 0,
            seen: 0,
            taken: false,
        })
    }

    /// Asks for a path. It is searched for once its ticket is taken.
    pub(super) fn ask(&mut self, peer: u32, purpose: &Purpose) -> Result<Reply, AllocError>
        requires { self.old.last_ticket < 2 ^ 62 }
        ensures reply { IfOk result (λ reply. reply ≡ (ask_step self.old peer purpose.now).reply) }
        ensures state { OnOk result (self.new ≡ (ask_step self.old peer purpose.now).state) }
        ensures unchanged_without_memory { OnErr result (self.new ≡ self.old) }
    {
        if let Some(why) = self.why_not_asked(peer, purpose) {
            return Ok(Reply::Refused(why));
        }
        let Some(constraints) = constraints_for(self.network.lsps(), peer, purpose) else {
            return Ok(Reply::Refused(Why::UnknownLsp));
        };
        if let Some(why) = why_no_ends(self.network.te_base(), &constraints) {
            return Ok(Reply::Refused(why));
        }
        if let Some(why) = why_no_ticket(&self.tickets) {
            return Ok(Reply::Refused(why));
        }
        let ticket = self.new_ticket(peer, purpose, constraints)?;
        self.tickets.push(ticket)?;
        Ok(Reply::Asked(self.tickets.last()))
    }
}
