//! Peers, and what happens to one of a list.
ghost use Rattle.std.specs.Prelude.{◌≡◌, ◌<◌, [], true, false, length, OnOk, OnErr};
ghost use Rattle.step_core.specs.States.{is_known, peer_at, put_peer, in_session, synchronized, out_of_session, emptied, with_message};

use crate::peer_list::PeerList;
use crate::queue::Queue;
use pcep_messages::Message;
use pcep_objects::Capabilities;
use sequence::{PlainData, Sequence};
use std::alloc::{AllocError, Global};

/// The greatest number of peers that are known at a time.
pub const PEER_LIMIT: usize = 64;

/// A peer that the database knows.
#[derive(Debug, Drop)]
pub struct Peer {
    pub number: u32,
    pub up: bool,
    /// The number of its last session, from 1. No two sessions of the database have the same number.
    pub session: u64,
    /// What its last session lets the PCE do.
    pub capabilities: Capabilities,
    /// It has not yet reported all of its LSPs (RFC 8231 section 5.6).
    pub syncing: bool,
    /// The SRP-ID of the last request to it (RFC 8231 section 7.2), or 0 if there was none.
    pub last_srp: u32,
    /// What waits to be sent to it.
    pub outgoing: Queue,
}

impl PlainData for Peer {
    fn copy(&self) -> Result<Peer, AllocError> {
        Ok(Peer {
            number: self.number,
            up: self.up,
            session: self.session,
            capabilities: self.capabilities,
            syncing: self.syncing,
            last_srp: self.last_srp,
            outgoing: self.outgoing.copy()?,
        })
    }
}

const NO_CAPABILITIES: Capabilities = Capabilities {
    update: false,
    create: false,
};

/// Begins a session of the peer: in its place if it is known, else at the end.
pub(crate) fn begin_session(
    alloc: Global,
    peers: &mut PeerList,
    number: u32,
    session: u64,
    sent: Option<Capabilities>,
)
    requires { is_known peers.old number ≡ false → length peers.old < 64 }
    ensures { peers.new ≡ put_peer peers.old (in_session (peer_at peers.old number) session sent) }
{
    let capabilities = sent.unwrap_or(NO_CAPABILITIES);
    let syncing = sent.is_some();
    if let Some(place) = peers.place_of(number) {
        let peer = &mut peers.items[place];
        peer.up = true;
        peer.session = session;
        peer.capabilities = capabilities;
        peer.syncing = syncing;
        return;
    }
    peers.push(Peer {
        number,
        up: true,
        session,
        capabilities,
        syncing,
        last_srp: 0,
        outgoing: Queue::new(alloc),
    });
}

/// Marks that the peer has reported all that it has.
pub(crate) fn end_sync(peers: &mut PeerList, number: u32)
    requires { is_known peers.old number ≡ true }
    ensures { peers.new ≡ put_peer peers.old (synchronized (peer_at peers.old number)) }
{
    if let Some(place) = peers.place_of(number) {
        peers.items[place].syncing = false;
    }
}

/// Ends the peer's session, and drops what waits for it.
pub(crate) fn end_session(peers: &mut PeerList, number: u32)
    requires { is_known peers.old number ≡ true }
    ensures { peers.new ≡ put_peer peers.old (out_of_session (peer_at peers.old number)) }
{
    if let Some(place) = peers.place_of(number) {
        let peer = &mut peers.items[place];
        peer.up = false;
        peer.syncing = false;
        let _dropped = peer.outgoing.take();
    }
}

/// Appends a message without a number to what waits for the peer.
pub(crate) fn queue_for_peer(
    peers: &mut PeerList,
    number: u32,
    message: Message,
) -> Result<(), AllocError>
    requires { is_known peers.old number ≡ true }
    ensures with_message { OnOk result (peers.new ≡ put_peer peers.old (with_message (peer_at peers.old number) message)) }
    ensures unchanged { OnErr result (peers.new ≡ peers.old) }
{
    let Some(place) = peers.place_of(number) else {
        unreachable!()
    };
    let peer = &mut peers.items[place];
    peer.outgoing.push(message)?;
    Ok(())
}

/// Hands out what waits for the peer.
pub(crate) fn take_outgoing(alloc: Global, peers: &mut PeerList, number: u32) -> Sequence<Message>
    requires { is_known peers.old number ≡ true }
    ensures messages { result ≡ (peer_at peers.old number).outgoing }
    ensures peers { peers.new ≡ put_peer peers.old (emptied (peer_at peers.old number)) }
{
    match peers.place_of(number) {
        Some(place) => peers.items[place].outgoing.take(),
        None => Sequence::from_vec(Vec::new(alloc)),
    }
}
