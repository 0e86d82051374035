//! What the PCE asks a peer for, and what the peer refuses.
ghost use Rattle.std.specs.Prelude.{◌≡◌, ◌<◌, ◌^◌, ◌+◌, true, not, IfOk, OnOk, OnErr, if◌then◌else◌};
ghost use Rattle.lsp_base.specs.Lsps.{HasAll, lsp_at};
ghost use Rattle.lsp_base.specs.Rooms.{IsWithinLimit};
ghost use Rattle.lsp_base.specs.Refusals.{unless, ◌⨟◌};
ghost use Rattle.lsp_base.specs.declared.why.Why.TheVariants.{PeerDown, Syncing, NoUpdate, NoInitiate};
ghost use Rattle.step_core.specs.Consistent.{AreFree};
ghost use Rattle.step_core.specs.Networks.{carried_out};
ghost use Rattle.step_core.specs.Outcomes.{must_be_in_sync, must_take_updates, must_take_initiations, must_have_a_number};
ghost use Rattle.step_core.specs.States.{is_known, peer_at, put_peer, asked, moves_paths, next_number};
ghost use Rattle.step_core.specs.Steps.{refused_step, return_step, delete_step, removing, removal_asked};
ghost use Rattle.initiate_rules.specs.Checks.{may_be_deleted};
ghost use Rattle.initiate_rules.specs.Numbers.{next_srp, is_srp_used};

use super::Tables;
use super::reports::{change_lsps, moves_a_path};
use super::sessions::why_not_up;
use crate::event::Reply;
use crate::network::Network;
use crate::peer::Peer;
use crate::peer_list::PeerList;
use delegate_rules::{RuleFault, on_refused, on_return};
use initiate_rules::{check_delete, delete_message, is_srp_used, next_srp, return_message};
use lsp_base::{Effect, Lsp, LspBase, RecordChange, Why};
use pcep_messages::Message;
use pcep_objects::Plsp;
use sequence::PlainData;
use std::alloc::{AllocError, Global};

/// Says why the peer can't be asked for anything about its LSPs.
fn why_not_in_sync(known: &Peer) -> Option<Why>
    ensures { result ≡ (unless known.now.up PeerDown ⨟ unless (not known.now.syncing) Syncing) }
{
    if !known.up {
        Some(Why::PeerDown)
    } else if known.syncing {
        Some(Why::Syncing)
    } else {
        None
    }
}

/// Says why an event that updates an LSP of the peer is refused.
pub(super) fn why_not_updated(peers: &PeerList, peer: u32) -> Option<Why>
    ensures { result ≡ must_take_updates peers.now peer }
{
    let Some(known) = peers.find(peer) else {
        return Some(Why::UnknownPeer);
    };
    match why_not_in_sync(known) {
        Some(why) => Some(why),
        None if known.capabilities.update => None,
        None => Some(Why::NoUpdate),
    }
}

/// Says why an event that initiates or removes an LSP of the peer is refused.
pub(super) fn why_not_initiated(peers: &PeerList, peer: u32) -> Option<Why>
    ensures { result ≡ must_take_initiations peers.now peer }
{
    let Some(known) = peers.find(peer) else {
        return Some(Why::UnknownPeer);
    };
    match why_not_in_sync(known) {
        Some(why) => Some(why),
        None if known.capabilities.create => None,
        None => Some(Why::NoInitiate),
    }
}

/// Returns the SRP-ID of the next request to the peer.
pub(super) fn next_number(peers: &PeerList, peer: u32) -> u32
    ensures { result ≡ next_srp (peer_at peers.now peer).last_srp }
{
    match peers.find(peer) {
        Some(known) => next_srp(known.last_srp),
        None => next_srp(0),
    }
}

/// Asks a known peer for something: carries out and counts the effect on its LSPs, queues the message, and uses the
/// peer's next number.
pub(super) fn ask_peer(
    network: &mut Network,
    changes: &mut u64,
    peers: &mut PeerList,
    peer: u32,
    effect: Effect,
    message: Message,
) -> Result<(), AllocError>
    requires few { IsWithinLimit network.old.base effect }
    requires stand { HasAll network.old.base.paths effect.change.dropped }
    requires count { changes.old < 2 ^ 62 }
    requires known { is_known peers.old peer ≡ true }
    ensures network { OnOk result (network.new ≡ carried_out network.old peer effect) }
    ensures count { OnOk result (changes.new ≡ (if moves_paths effect then changes.old + 1 else changes.old)) }
    ensures asked { OnOk result (peers.new ≡ put_peer peers.old (asked (peer_at peers.old peer) message)) }
    ensures same_network { OnErr result (network.new ≡ network.old) }
    ensures same_count { OnErr result (changes.new ≡ changes.old) }
    ensures same_peers { OnErr result (peers.new ≡ peers.old) }
{
    let Some(place) = peers.place_of(peer) else {
        unreachable!()
    };
    let moves_paths = moves_a_path(&effect);
    let known = &mut peers.items[place];
    network.carry_out_saying(peer, effect, &mut known.outgoing, message)?;
    known.last_srp = next_srp(known.last_srp);
    if moves_paths {
        *changes += 1;
    }
    Ok(())
}

/// Copies the LSP, with its removal awaited under this SRP-ID.
fn removing(lsp: &Lsp, srp: u32) -> Result<Lsp, AllocError>
    ensures { IfOk result (λ new. new ≡ removing srp lsp.now) }
{
    let mut removed = lsp.copy()?;
    removed.removing = Some(srp);
    Ok(removed)
}

/// Makes the effect that the removal of the LSP is awaited under this SRP-ID, and nothing else changes.
fn removal_asked(
    alloc: Global,
    base: &LspBase,
    peer: u32,
    plsp: Plsp,
    srp: u32,
) -> Result<Effect, AllocError>
    ensures effect { IfOk result (λ effect. effect ≡ removal_asked srp plsp (lsp_at base.now.content.records peer plsp)) }
    ensures few { IfOk result (λ effect. IsWithinLimit base.now.content effect) }
{
    // only for the proof: there are no more paths than there may be
    let _few = base.paths();
    let mut records = Vec::new(alloc);
    if let Some(lsp) = base.lsp(peer, plsp) {
        let lsp = Some(removing(lsp, srp)?);
        records.push(RecordChange { plsp, lsp })?;
    }
    Ok(Effect::new(Vec::new(alloc), Vec::new(alloc), records, false))
}

impl Tables {
    /// Tests whether the SRP-ID of the next request to the peer is still that of an awaited request. `are_free` says
    /// that it isn't for any peer.
    pub(super) fn is_number_used(&self, peer: u32, are_free: bool) -> bool
        requires { are_free ≡ true → AreFree self.now }
        ensures { result ≡ is_srp_used self.now.base peer (next_number self.now peer) }
    {
        if are_free {
            return false;
        }
        let number = next_number(&self.peers, peer);
        is_srp_used(self.network.lsps(), peer, number)
    }

    /// Says why the peer can't be asked for anything, if its next number is still that of another request.
    fn why_no_number(&self, peer: u32, are_free: bool) -> Option<Why>
        requires { are_free ≡ true → AreFree self.now }
        ensures { result ≡ must_have_a_number self.now peer }
    {
        if self.is_number_used(peer, are_free) {
            Some(Why::SrpInUse)
        } else {
            None
        }
    }

    /// Says why the LSP isn't removed.
    fn why_not_deleted(&self, peer: u32, plsp: Plsp, are_free: bool) -> Option<Why>
        requires { are_free ≡ true → AreFree self.now }
        ensures { result ≡ (must_take_initiations self.now.peers peer ⨟ may_be_deleted self.now.base peer plsp ⨟ must_have_a_number self.now peer) }
    {
        if let Some(why) = why_not_initiated(&self.peers, peer) {
            return Some(why);
        }
        match check_delete(self.network.lsps(), peer, plsp) {
            Err(why) => Some(why),
            Ok(()) => self.why_no_number(peer, are_free),
        }
    }

    /// Handles a peer's refusal of a request: drops the grant of its number, or ends the wait for the removal of its
    /// number. A number that neither has changes nothing.
    pub(super) fn refused(&mut self, peer: u32, srp: u32) -> Result<Reply, AllocError>
        requires { self.old.changes < 2 ^ 62 }
        ensures reply { IfOk result (λ reply. reply ≡ (refused_step self.old peer srp).reply) }
        ensures state { OnOk result (self.new ≡ (refused_step self.old peer srp).state) }
        ensures unchanged_without_memory { OnErr result (self.new ≡ self.old) }
    {
        if let Some(why) = why_not_up(&self.peers, peer) {
            return Ok(Reply::Refused(why));
        }
        let effect = on_refused(self.alloc, self.network.lsps(), peer, srp)?;
        change_lsps(&mut self.network, &mut self.changes, peer, effect)?;
        Ok(Reply::Done)
    }

    /// Gives an LSP back to its peer: ends the delegation, and queues the message that says so.
    pub(super) fn give_back(
        &mut self,
        peer: u32,
        plsp: Plsp,
        are_free: bool,
    ) -> Result<Reply, AllocError>
        requires changes { self.old.changes < 2 ^ 62 }
        requires free { are_free ≡ true → AreFree self.old }
        ensures reply { IfOk result (λ reply. reply ≡ (return_step self.old peer plsp).reply) }
        ensures state { OnOk result (self.new ≡ (return_step self.old peer plsp).state) }
        ensures unchanged_without_memory { OnErr result (self.new ≡ self.old) }
    {
        if let Some(why) = why_not_updated(&self.peers, peer) {
            return Ok(Reply::Refused(why));
        }
        let effect = match on_return(self.alloc, self.network.lsps(), peer, plsp) {
            Err(RuleFault::OutOfMemory) => return Err(AllocError),
            Err(RuleFault::Why(why)) => return Ok(Reply::Refused(why)),
            Ok(effect) => effect,
        };
        if let Some(why) = self.why_no_number(peer, are_free) {
            return Ok(Reply::Refused(why));
        }
        let number = next_number(&self.peers, peer);
        let message = return_message(self.alloc, number, plsp);
        ask_peer(
            &mut self.network,
            &mut self.changes,
            &mut self.peers,
            peer,
            effect,
            message,
        )?;
        Ok(Reply::Done)
    }

    /// Asks the peer to remove an LSP that the PCE initiated: awaits its removal, and queues the message that asks for
    /// it.
    pub(super) fn delete(
        &mut self,
        peer: u32,
        plsp: Plsp,
        are_free: bool,
    ) -> Result<Reply, AllocError>
        requires changes { self.old.changes < 2 ^ 62 }
        requires free { are_free ≡ true → AreFree self.old }
        ensures reply { IfOk result (λ reply. reply ≡ (delete_step self.old peer plsp).reply) }
        ensures state { OnOk result (self.new ≡ (delete_step self.old peer plsp).state) }
        ensures unchanged_without_memory { OnErr result (self.new ≡ self.old) }
    {
        if let Some(why) = self.why_not_deleted(peer, plsp, are_free) {
            return Ok(Reply::Refused(why));
        }
        let number = next_number(&self.peers, peer);
        let effect = removal_asked(self.alloc, self.network.lsps(), peer, plsp, number)?;
        ask_peer(
            &mut self.network,
            &mut self.changes,
            &mut self.peers,
            peer,
            effect,
            delete_message(number, plsp),
        )?;
        Ok(Reply::Removing(number))
    }
}
