//! `peers`: routers with their sessions.
ghost use Rattle.std.specs.Prelude.{◌≡◌, map, IfOk, ◌++◌, Some, OnOk};
ghost use Rattle.pce_view.specs.Peers.{known_peer, owner_of_lsp, SeesPeers};
ghost use Rattle.json.specs.Tree.{json_tokens};
ghost use Rattle.json.specs.Json.{array};
ghost use Rattle.pce_view.specs.Peers.{counted_json, delegated_of, lsps_of, peer_items, peer_json, peers_json};

use crate::closing::closed;
use crate::columns::{add_ago, yes};
use crate::fields::{Field, Member, put_object};
use crate::heard::Heard;
use crate::moments::{Moments, moments_of};
use crate::question::{Question, ServerInfo};
use asks::Ask;
use database_looks::Look;
use history_core::Database;
use json::Writer;
use lsp_base::Record;
use pce_seen::{Counts, KnownPeer, LspOwner, SeenPeers};
use pcep_word::Ipv4;
use server_counts::{PeerState, peer_state_in};
use std::alloc::{AllocError, Global};
use std::fmt::Write;
use step_core::Peer;

/// Says what is seen of a peer.
fn known_peer(peer: &Peer) -> KnownPeer
    ensures { result ≡ known_peer peer.now }
{
    KnownPeer {
        peer: peer.number,
        is_up: peer.up,
        is_synchronizing: peer.syncing,
        session: peer.session,
        may_update: peer.capabilities.update,
        may_create: peer.capabilities.create,
        waiting_messages: peer.outgoing.len() as u64,
    }
}

/// Says whose an LSP is.
fn owner_of_lsp(known: &Record) -> LspOwner
    ensures { result ≡ owner_of_lsp known.now }
{
    LspOwner {
        peer: known.peer,
        is_delegated: known.lsp.delegated,
    }
}

fn known_peers(alloc: Global, peers: &[Peer]) -> Result<Vec<KnownPeer>, AllocError>
    ensures { IfOk result (λ seen. seen.items ≡ map known_peer peers.now) }
{
    let mut seen = Vec::with_capacity(alloc, peers.len())?;
    for peer in peers {
        seen.push(known_peer(peer))?;
    }
    Ok(seen)
}

fn owners_of_lsps(alloc: Global, records: &[Record]) -> Result<Vec<LspOwner>, AllocError>
    ensures { IfOk result (λ seen. seen.items ≡ map owner_of_lsp records.now) }
{
    let mut seen = Vec::with_capacity(alloc, records.len())?;
    for known in records {
        seen.push(owner_of_lsp(known))?;
    }
    Ok(seen)
}

/// Counts the LSPs of a peer.
pub(crate) fn lsps_of(owners: &[LspOwner], peer: u32) -> usize
    ensures { result ≡ lsps_of owners.now peer }
{
    owners.iter().filter(|owner| owner.peer == peer).count()
}

/// Counts the LSPs of a peer that are delegated.
pub(crate) fn delegated_of(owners: &[LspOwner], peer: u32) -> usize
    ensures { result ≡ delegated_of owners.now peer }
{
    owners
        .iter()
        .filter(|owner| owner.peer == peer && owner.is_delegated)
        .count()
}

#[tactic(auto, unfolding(crate::specs::Peers::counted_json))]
fn put_counted(
    alloc: Global,
    writer: &mut Writer,
    peer: &KnownPeer,
    lsps: usize,
    delegated: usize,
    moments: Moments,
) -> Result<(), AllocError>
    ensures before { writer.new.before ≡ writer.old.before }
    ensures written { OnOk result (writer.new.tokens ≡ writer.old.tokens ++ json_tokens (counted_json peer.now lsps delegated moments)) }
{
    put_object(
        alloc,
        writer,
        &[
            Member("peer", Field::Peer(peer.peer)),
            Member("is_up", Field::Flag(peer.is_up)),
            Member("is_synchronizing", Field::Flag(peer.is_synchronizing)),
            Member("session", Field::Whole(peer.session)),
            Member("may_update", Field::Flag(peer.may_update)),
            Member("may_create", Field::Flag(peer.may_create)),
            Member("waiting_messages", Field::Whole(peer.waiting_messages)),
            Member("lsps", Field::Whole(lsps as u64)),
            Member("delegated_lsps", Field::Whole(delegated as u64)),
            Member("since_ms_ago", Field::WholeOr(moments.since_ms_ago)),
            Member("last_end_ms_ago", Field::WholeOr(moments.end_ms_ago)),
            Member("last_end_reason", Field::EndOf(moments.end)),
            Member("last_end_number", Field::WholeOr(moments.number)),
        ],
    )
}

fn put_peer(
    alloc: Global,
    writer: &mut Writer,
    now_ms: u64,
    peer_states: &[(u32, PeerState)],
    owners: &[LspOwner],
    peer: &KnownPeer,
) -> Result<(), AllocError>
    ensures before { writer.new.before ≡ writer.old.before }
    ensures written { OnOk result (writer.new.tokens ≡ writer.old.tokens ++ json_tokens (peer_json now_ms peer_states.now owners.now peer.now)) }
{
    let lsps = lsps_of(owners, peer.peer);
    let delegated = delegated_of(owners, peer.peer);
    let moments = moments_of(now_ms, peer_state_in(peer_states, peer.peer));
    put_counted(alloc, writer, peer, lsps, delegated, moments)
}

fn put_peers(
    alloc: Global,
    writer: &mut Writer,
    now_ms: u64,
    peer_states: &[(u32, PeerState)],
    owners: &[LspOwner],
    peers: &[KnownPeer],
) -> Result<(), AllocError>
    ensures before { writer.new.before ≡ writer.old.before }
    ensures written { OnOk result (writer.new.tokens ≡ writer.old.tokens ++ json_tokens (array (peer_items now_ms peer_states.now owners.now peers.now))) }
{
    writer.begin_array()?;
    for peer in peers {
        put_peer(alloc, writer, now_ms, peer_states, owners, peer)?;
    }
    writer.end_array()
}

fn put_all(
    alloc: Global,
    writer: &mut Writer,
    now_ms: u64,
    peer_states: &[(u32, PeerState)],
    seen: &SeenPeers,
) -> Result<(), AllocError>
    ensures before { writer.new.before ≡ writer.old.before }
    ensures written { OnOk result (writer.new.tokens ≡ writer.old.tokens ++ json_tokens (peers_json now_ms peer_states.now seen.now.lsps.items seen.now.peers.items)) }
{
    writer.begin_object()?;
    writer.key("peers")?;
    put_peers(alloc, writer, now_ms, peer_states, &seen.lsps, &seen.peers)?;
    writer.end_object()
}

/// Adds how long ago the last connection ended, and why.
fn add_last_end(text: &mut String, moments: Moments) -> Result<(), AllocError> {
    add_ago(text, moments.end_ms_ago)?;
    if let Some(reason) = moments.end {
        let word = reason.word();
        write!(text, ": {word}")?;
    }
    if let Some(number) = moments.number {
        write!(text, " {number}")?;
    }
    text.push('\n')
}

fn add_peer(
    text: &mut String,
    now_ms: u64,
    peer_states: &[(u32, PeerState)],
    owners: &[LspOwner],
    peer: &KnownPeer,
) -> Result<(), AllocError> {
    let address = Ipv4(peer.peer);
    let state = if peer.is_up { "up" } else { "down" };
    let syncing = yes(peer.is_synchronizing);
    let update = yes(peer.may_update);
    let create = yes(peer.may_create);
    let waiting = peer.waiting_messages;
    let moments = moments_of(now_ms, peer_state_in(peer_states, peer.peer));
    let lsps = lsps_of(owners, peer.peer);
    let delegated = delegated_of(owners, peer.peer);
    let session = peer.session;
    write!(text, "{address}\t{state}\t")?;
    add_ago(text, moments.since_ms_ago)?;
    write!(
        text,
        "\t{session}\t{syncing}\t{update}\t{create}\t{waiting}\t{lsps}\t{delegated}\t"
    )?;
    add_last_end(text, moments)
}

/// The routers with their sessions.
#[derive(Clone, Copy)]
pub struct Peers;

impl Look for Peers {
    ghost use Rattle.pce_view.specs.Peers.{SeesPeers};

    type Seen = SeenPeers;

    ghost sees = { λ _ d seen. SeesPeers d seen };

    fn see(&self, alloc: Global, database: &Database) -> Result<SeenPeers, AllocError> {
        let state = database.state();
        Ok(SeenPeers {
            peers: known_peers(alloc, state.peers())?,
            lsps: owners_of_lsps(alloc, state.lsps().records())?,
        })
    }
}

impl Question for Peers {
    ghost use Rattle.pce_view.specs.Peers.{ReadsPeers};

    ghost reads = { λ _ info _ seen text. ReadsPeers info seen text };

    fn json(
        &self,
        alloc: Global,
        info: &ServerInfo<'_>,
        _heard: &Heard,
        seen: &SeenPeers,
    ) -> Result<Vec<u8>, AllocError> {
        let mut writer = Writer::new(Vec::new(alloc));
        put_all(alloc, &mut writer, info.uptime_ms, info.peer_states, seen)?;
        Ok(closed(writer))
    }

    fn rows(
        &self,
        _alloc: Global,
        text: &mut String,
        info: &ServerInfo<'_>,
        _heard: &Heard,
        seen: &SeenPeers,
    ) -> Result<(), AllocError> {
        text.push_str(
            "PEER\tSTATE\tSINCE\tSESSION\tSYNCHRONIZING\tUPDATES\tINITIATES\tMESSAGES\tLSPS\tDELEGATED\tLAST END\n",
        )?;
        for peer in &seen.peers {
            add_peer(text, info.uptime_ms, info.peer_states, &seen.lsps, peer)?;
        }
        Ok(())
    }

    fn next(&self, _seen: &SeenPeers) -> Option<Ask> {
        None
    }
}
