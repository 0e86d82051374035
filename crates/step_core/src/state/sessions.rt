//! The life of a peer's session.
ghost use Rattle.std.specs.Prelude.{◌≡◌, ◌<◌, ◌^◌, IfOk, OnOk, OnErr};
ghost use Rattle.lsp_base.specs.Refusals.{◌⨟◌};
ghost use Rattle.step_core.specs.Outcomes.{must_be_known, must_be_up, must_be_down};
ghost use Rattle.step_core.specs.Steps.{may_be_known, up_step, marker_step, down_step, expire_step, drain_step};

use super::Tables;
use super::reports::change_lsps;
use crate::event::Reply;
use crate::peer::{PEER_LIMIT, begin_session, end_session, end_sync, take_outgoing};
use crate::peer_list::PeerList;
use lsp_base::Why;
use pcep_objects::Capabilities;
use std::alloc::AllocError;
use sync_rules::{on_down, on_expire, on_marker, on_up};

/// Says why an event of a peer that must be up is refused.
pub(super) fn why_not_up(peers: &PeerList, peer: u32) -> Option<Why>
    ensures { result ≡ must_be_up peers.now peer }
{
    match peers.find(peer) {
        None => Some(Why::UnknownPeer),
        Some(known) => { if known.up { None } else { Some(Why::PeerDown) } }
    }
}

/// Says why no session of the peer can come up.
fn why_no_session(peers: &PeerList, peer: u32) -> Option<Why>
    ensures { result ≡ (must_be_down peers.now peer ⨟ may_be_known peers.now peer) }
{
    match peers.find(peer) {
        None => {
            if peers.len() < PEER_LIMIT {
                None
            } else {
                Some(Why::TooManyPeers)
            }
        }
        Some(known) => { if known.up { Some(Why::PeerUp) } else { None } }
    }
}

/// Says why the peer can't be forgotten.
fn why_not_forgotten(peers: &PeerList, peer: u32) -> Option<Why>
    ensures { result ≡ (must_be_known peers.now peer ⨟ must_be_down peers.now peer) }
{
    match peers.find(peer) {
        None => Some(Why::UnknownPeer),
        Some(known) => { if known.up { Some(Why::PeerUp) } else { None } }
    }
}

impl Tables {
    /// Brings a session up. What a peer that doesn't synchronize left stale is dropped at once.
    pub(super) fn up(&mut self, peer: u32, sent: Option<Capabilities>) -> Result<Reply, AllocError>
        requires changes { self.old.changes < 2 ^ 62 }
        requires sessions { self.old.last_session < 2 ^ 62 }
        ensures reply { IfOk result (λ reply. reply ≡ (up_step self.old peer sent).reply) }
        ensures state { OnOk result (self.new ≡ (up_step self.old peer sent).state) }
        ensures unchanged_without_memory { OnErr result (self.new ≡ self.old) }
    {
        if let Some(why) = why_no_session(&self.peers, peer) {
            return Ok(Reply::Refused(why));
        }
        let effect = on_up(self.alloc, self.network.lsps(), peer, sent)?;
        change_lsps(&mut self.network, &mut self.changes, peer, effect)?;
        self.last_session += 1;
        begin_session(self.alloc, &mut self.peers, peer, self.last_session, sent);
        Ok(Reply::Done)
    }

    /// Ends the peer's synchronization: drops what is still stale.
    pub(super) fn marker(&mut self, peer: u32) -> Result<Reply, AllocError>
        requires { self.old.changes < 2 ^ 62 }
        ensures reply { IfOk result (λ reply. reply ≡ (marker_step self.old peer).reply) }
        ensures state { OnOk result (self.new ≡ (marker_step self.old peer).state) }
        ensures unchanged_without_memory { OnErr result (self.new ≡ self.old) }
    {
        if let Some(why) = why_not_up(&self.peers, peer) {
            return Ok(Reply::Refused(why));
        }
        let effect = on_marker(self.alloc, self.network.lsps(), peer)?;
        change_lsps(&mut self.network, &mut self.changes, peer, effect)?;
        end_sync(&mut self.peers, peer);
        Ok(Reply::Done)
    }

    /// Ends a session: ends the peer's delegations and removals, drops what waits to be sent to it, and makes its paths
    /// stale.
    pub(super) fn down(&mut self, peer: u32) -> Result<Reply, AllocError>
        requires { self.old.changes < 2 ^ 62 }
        ensures reply { IfOk result (λ reply. reply ≡ (down_step self.old peer).reply) }
        ensures state { OnOk result (self.new ≡ (down_step self.old peer).state) }
        ensures unchanged_without_memory { OnErr result (self.new ≡ self.old) }
    {
        if let Some(why) = why_not_up(&self.peers, peer) {
            return Ok(Reply::Refused(why));
        }
        let effect = on_down(self.alloc, self.network.lsps(), peer)?;
        change_lsps(&mut self.network, &mut self.changes, peer, effect)?;
        self.network.mark_stale(peer);
        end_session(&mut self.peers, peer);
        Ok(Reply::Done)
    }

    /// Forgets a peer that is down, with its paths and records.
    pub(super) fn expire(&mut self, peer: u32) -> Result<Reply, AllocError>
        requires { self.old.changes < 2 ^ 62 }
        ensures reply { IfOk result (λ reply. reply ≡ (expire_step self.old peer).reply) }
        ensures state { OnOk result (self.new ≡ (expire_step self.old peer).state) }
        ensures unchanged_without_memory { OnErr result (self.new ≡ self.old) }
    {
        if let Some(why) = why_not_forgotten(&self.peers, peer) {
            return Ok(Reply::Refused(why));
        }
        let effect = on_expire(self.alloc, self.network.lsps(), peer)?;
        change_lsps(&mut self.network, &mut self.changes, peer, effect)?;
        self.peers.forget(peer);
        Ok(Reply::Done)
    }

    /// Hands out what waits for the peer, to be sent. Allocates nothing.
    pub(super) fn drain(&mut self, peer: u32) -> Reply
        ensures reply { result ≡ (drain_step self.old peer).reply }
        ensures state { self.new ≡ (drain_step self.old peer).state }
    {
        if let Some(why) = why_not_up(&self.peers, peer) {
            return Reply::Refused(why);
        }
        Reply::Out(take_outgoing(self.alloc, &mut self.peers, peer))
    }
}
