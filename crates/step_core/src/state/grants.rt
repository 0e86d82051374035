//! Tickets that are taken to be searched for, and what becomes of the offers.
ghost use Rattle.std.specs.Prelude.{◌≡◌, ◌<◌, ◌≤◌, ◌+◌, ◌^◌, [], true, false, length, unwrap_or, option_map, Some, IfOk, IfSome, OnOk, OnErr};
ghost use Rattle.std.specs.List.{list_any};
ghost use Rattle.lsp_base.specs.Lsps.{changed};
ghost use Rattle.commit_core.specs.declared.verdict.Verdict.TheVariants as verdicts;
ghost use Rattle.step_core.specs.Consistent.{AreFree, IsConsistent};
ghost use Rattle.step_core.specs.Grants.{take_step, commit_step, judged, verdict_on, view_of, path_of, granted, granting, answered, in_vain, message_of, name_of_grant, with_name};
ghost use Rattle.step_core.specs.Names.{is_of_grant};
ghost use Rattle.step_core.specs.States.{asked, is_known, next_number, peer_at, put_peer};
ghost use Rattle.ticket_table.specs.Tickets.{ticket_at};

use super::Tables;
use super::requests::next_number;
use crate::event::Reply;
use crate::job::Job;
use crate::names::AwaitedName;
use crate::network::Network;
use crate::peer::queue_for_peer;
use crate::peer_list::PeerList;
use commit_core::{PeerView, Purpose, Ticket, Verdict, offered_path};
use initiate_rules::{answer_message, initiate_message, next_srp, no_path_message, update_message};
use lsp_base::{Path, Why};
use pcep_messages::Message;
use pcep_objects::MetricValue;
use sequence::{PlainData, Sequence};
use std::alloc::{AllocError, Global};
use te_base::{LinkNumber, TeBase};
use te_snapshot::cost_of;

/// Makes what the peer is sent if the offer is good: an update, an initiation, or the reply to its request.
fn message_of(
    alloc: Global,
    te: &TeBase,
    srp: u32,
    ticket: &Ticket,
    links: &[LinkNumber],
) -> Result<Message, AllocError>
    requires { length links.now ≤ 64 }
    ensures { IfOk result (λ message. message ≡ message_of te.now.links srp ticket.now.constraints links.now ticket.now.purpose) }
{
    let constraints = &ticket.constraints;
    match &ticket.purpose {
        Purpose::Update { plsp } => update_message(alloc, te, srp, *plsp, constraints, links),
        Purpose::Initiate { name, .. } => {
            initiate_message(alloc, te, srp, name.as_slice(), constraints, links)
        }
        Purpose::Answer { request, .. } => {
            let minimise = constraints.minimise;
            let cost = MetricValue::new(cost_of(minimise, te.links(), links));
            answer_message(alloc, te, *request, minimise, cost, links)
        }
    }
}

/// Makes the name that an initiation's LSP is to have, which is held from its grant on.
fn name_of_grant(srp: u32, ticket: &Ticket) -> Result<Option<AwaitedName>, AllocError>
    ensures { IfOk result (λ name. name ≡ name_of_grant ticket.now.peer srp ticket.now.purpose) }
{
    match &ticket.purpose {
        Purpose::Initiate { name, .. } => Ok(Some(AwaitedName {
            peer: ticket.peer,
            srp,
            name: name.copy()?,
        })),
        Purpose::Update { .. } | Purpose::Answer { .. } => Ok(None),
    }
}

/// Grants a path to a known peer: adds the path, holds the name that its LSP is to have, queues the message that asks
/// the peer for it, and uses the peer's next number.
fn grant_path(
    network: &mut Network,
    peers: &mut PeerList,
    peer: u32,
    path: Path,
    name: Option<AwaitedName>,
    message: Message,
) -> Result<(), AllocError>
    requires few { length network.old.base.paths < 16384 }
    requires known { is_known peers.old peer ≡ true }
    requires absent { IfSome name (λ a. list_any (is_of_grant a.peer a.srp) network.old.names ≡ false) }
    ensures network { OnOk result (network.new ≡ record network.old { base = changed network.old.base peer (granting path); names = with_name network.old.names name }) }
    ensures asked { OnOk result (peers.new ≡ put_peer peers.old (asked (peer_at peers.old peer) message)) }
    ensures same_network { OnErr result (network.new ≡ network.old) }
    ensures same_peers { OnErr result (peers.new ≡ peers.old) }
{
    let Some(place) = peers.place_of(peer) else {
        unreachable!()
    };
    let known = &mut peers.items[place];
    network.grant(peer, path, name, &mut known.outgoing, message)?;
    known.last_srp = next_srp(known.last_srp);
    Ok(())
}

impl Tables {
    /// Takes the waiting ticket with the least number, and returns it with what its search needs. If memory runs out it
    /// waits as before.
    pub(super) fn take(&mut self) -> Result<Reply, AllocError>
        ensures reply { IfOk result (λ reply. reply ≡ (take_step self.old).reply) }
        ensures state { OnOk result (self.new ≡ (take_step self.old).state) }
        ensures unchanged_without_memory { OnErr result (self.new ≡ self.old) }
    {
        let Some(waiting) = self.tickets.first_waiting() else {
            return Ok(Reply::Idle);
        };
        let mut ticket = waiting.copy()?;
        ticket.taken = true;
        ticket.tries += 1;
        ticket.seen = self.changes;
        let own = self.network.own_shares(&ticket)?;
        let snapshot = self.network.snapshot()?;
        self.tickets.take_first(self.changes);
        Ok(Reply::Job(Job {
            ticket,
            snapshot,
            own,
        }))
    }

    /// Returns what is known of a ticket's peer, and of the whole state.
    fn view_of(&self, peer: u32, are_free: bool) -> PeerView
        requires { are_free ≡ true → AreFree self.now }
        ensures { result ≡ view_of self.now peer }
    {
        let srp_in_use = self.is_number_used(peer, are_free);
        let changes = self.changes;
        match self.peers.find(peer) {
            Some(known) => PeerView {
                session: known.session,
                up: known.up,
                syncing: known.syncing,
                changes,
                srp_in_use,
            },
            None => PeerView {
                session: 0,
                up: false,
                syncing: false,
                changes,
                srp_in_use,
            },
        }
    }

    /// Makes the path that a grant of an offer would add.
    fn path_of(
        &self,
        ticket: &Ticket,
        offer: &Option<Sequence<LinkNumber>>,
    ) -> Result<Option<Path>, AllocError>
        ensures { IfOk result (λ path. path ≡ option_map (path_of self.now ticket.now) offer.now) }
    {
        let Some(links) = offer else {
            return Ok(None);
        };
        let srp = next_number(&self.peers, ticket.peer);
        let links = links.copy()?;
        Ok(Some(offered_path(self.network.lsps(), srp, ticket, links)))
    }

    /// Grants the path, and asks the peer for it.
    fn grant(&mut self, ticket: &Ticket, path: Path) -> Result<Reply, AllocError>
        requires few { length self.old.base.paths < 16384 }
        requires short { length path.links ≤ 64 }
        requires known { is_known self.old.peers ticket.now.peer ≡ true }
        requires changes { self.old.changes < 2 ^ 62 }
        requires path { path ≡ path_of self.old ticket.now path.links }
        requires absent { list_any (is_of_grant ticket.now.peer (next_number self.old ticket.now.peer)) self.old.names ≡ false }
        ensures reply { IfOk result (λ reply. reply ≡ Reply.Granted (next_number self.old ticket.now.peer)) }
        ensures state { OnOk result (self.new ≡ granted self.old ticket.now path.links) }
        ensures unchanged_without_memory { OnErr result (self.new ≡ self.old) }
    {
        let srp = next_number(&self.peers, ticket.peer);
        let te = self.network.te_base();
        let message = message_of(self.alloc, te, srp, ticket, path.links.as_slice())?;
        let name = name_of_grant(srp, ticket)?;
        grant_path(
            &mut self.network,
            &mut self.peers,
            ticket.peer,
            path,
            name,
            message,
        )?;
        self.changes += 1;
        self.tickets.end(ticket.id);
        Ok(Reply::Granted(srp))
    }

    /// Answers the request. Nothing is booked.
    fn answer(&mut self, ticket: &Ticket, links: &[LinkNumber]) -> Result<Reply, AllocError>
        requires short { length links.now ≤ 64 }
        requires known { is_known self.old.peers ticket.now.peer ≡ true }
        ensures reply { IfOk result (λ reply. reply ≡ Reply.Answered) }
        ensures state { OnOk result (self.new ≡ answered self.old ticket.now links.now) }
        ensures unchanged_without_memory { OnErr result (self.new ≡ self.old) }
    {
        let srp = next_number(&self.peers, ticket.peer);
        let message = message_of(self.alloc, self.network.te_base(), srp, ticket, links)?;
        queue_for_peer(&mut self.peers, ticket.peer, message)?;
        self.tickets.end(ticket.id);
        Ok(Reply::Answered)
    }

    /// Ends the ticket without a path. If it was for a request, answers that there is none.
    fn end_in_vain(&mut self, ticket: &Ticket) -> Result<(), AllocError>
        requires known { is_known self.old.peers ticket.now.peer ≡ true }
        ensures state { OnOk result (self.new ≡ in_vain self.old ticket.now) }
        ensures unchanged_without_memory { OnErr result (self.new ≡ self.old) }
    {
        if let Purpose::Answer { request, .. } = &ticket.purpose {
            queue_for_peer(&mut self.peers, ticket.peer, no_path_message(*request))?;
        }
        self.tickets.end(ticket.id);
        Ok(())
    }

    /// Does with a taken ticket what its verdict says.
    fn conclude(
        &mut self,
        ticket: &Ticket,
        path: Option<Path>,
        offer: &Option<Sequence<LinkNumber>>,
        verdict: Verdict,
    ) -> Result<Reply, AllocError>
        requires changes { self.old.changes < 2 ^ 62 }
        requires consistent { IsConsistent self.old }
        requires there { ticket_at self.old.tickets ticket.now.id ≡ Some ticket.now }
        requires path { path ≡ option_map (path_of self.old ticket.now) offer.now }
        requires verdict { verdict ≡ verdict_on self.old ticket.now offer.now }
        ensures reply { IfOk result (λ reply. reply ≡ (judged self.old ticket.now (unwrap_or offer.now []) verdict).reply) }
        ensures state { OnOk result (self.new ≡ (judged self.old ticket.now (unwrap_or offer.now []) verdict).state) }
        ensures unchanged_without_memory { OnErr result (self.new ≡ self.old) }
    {
        match (verdict, path) {
            (Verdict::Grant, Some(path)) => self.grant(ticket, path),
            (Verdict::Answer, Some(path)) => self.answer(ticket, path.links.as_slice()),
            (Verdict::Grant, None) => unreachable!(),
            (Verdict::Answer, None) => unreachable!(),
            (Verdict::Again, _) => {
                self.tickets.put_back(ticket.id);
                Ok(Reply::Again)
            }
            (Verdict::NoPath, _) => {
                self.end_in_vain(ticket)?;
                Ok(Reply::NoPath)
            }
            (Verdict::GivenUp, _) => {
                self.end_in_vain(ticket)?;
                Ok(Reply::GivenUp)
            }
            (Verdict::Gone, _) => {
                self.tickets.end(ticket.id);
                Ok(Reply::Gone)
            }
        }
    }

    /// Judges what the search for a ticket offers by the state as it is now.
    pub(super) fn commit(
        &mut self,
        id: u64,
        offer: &Option<Sequence<LinkNumber>>,
        are_free: bool,
    ) -> Result<Reply, AllocError>
        requires changes { self.old.changes < 2 ^ 62 }
        requires consistent { IsConsistent self.old }
        requires free { are_free ≡ true → AreFree self.old }
        ensures reply { IfOk result (λ reply. reply ≡ (commit_step self.old id offer.now).reply) }
        ensures state { OnOk result (self.new ≡ (commit_step self.old id offer.now).state) }
        ensures unchanged_without_memory { OnErr result (self.new ≡ self.old) }
    {
        let Some(standing) = self.tickets.find(id) else {
            return Ok(Reply::Refused(Why::UnknownTicket));
        };
        if !standing.taken {
            return Ok(Reply::Refused(Why::NotTaken));
        }
        let ticket = standing.copy()?;
        let path = self.path_of(&ticket, offer)?;
        let view = self.view_of(ticket.peer, are_free);
        let verdict = self.network.judge(&ticket, path.as_ref(), view);
        self.conclude(&ticket, path, offer, verdict)
    }
}
