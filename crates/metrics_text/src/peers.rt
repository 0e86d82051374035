//! Samples of each router.
ghost use Rattle.std.specs.Prelude.{◌≡◌, [], ◌∷◌, ◌++◌, filter, length, OnOk};
ghost use Rattle.metrics_text.specs.Rows.{lines_of};
ghost use Rattle.metrics_text.specs.Samples.{flag, grants_of_each, is_of_peer, is_owner, lsps_in, lsps_of, lsps_of_each, number_of, peers_up};

use crate::counts::put_number;
use crate::database::is_in;
use crate::format::{LabelText, Metric};
use crate::words::state_label;
use pce_seen::PeerSession;
use pce_view::{LspState, ShownState};
use pcep_word::Ipv4;
use std::alloc::AllocError;

fn flag(is_so: bool) -> u64
    ensures { result ≡ flag is_so }
{
    if is_so { 1 } else { 0 }
}

/// Adds 1 for each router whose session is up, and 0 for each other one.
#[tactic(auto, using(crate::proofs::Lines::lines), unfolding(crate::specs::Samples::peers_up))]
pub(crate) fn put_peers_up(
    text: &mut Vec<u8>,
    metric: &Metric<'_>,
    peers: &[PeerSession],
) -> Result<(), AllocError>
    ensures { OnOk result (text.new.items ≡ text.old.items
        ++ lines_of metric.now (peers_up peers.now)) }
{
    for peer in peers {
        let label = LabelText::Address(Ipv4(peer.peer));
        put_number(text, metric, &[label], flag(peer.is_up))?;
    }
    Ok(())
}

fn is_of_peer(peer: u32, state: LspState, shown: &ShownState) -> bool
    ensures { result ≡ is_of_peer peer state shown.now }
{
    shown.peer == peer && is_in(state, shown)
}

/// Counts the LSPs of a router that are in a state.
fn number_of(peer: u32, state: LspState, states: &[ShownState]) -> u64
    ensures { result ≡ number_of peer state states.now }
{
    let mut count = 0;
    for shown in states {
        if is_of_peer(peer, state, shown) {
            count += 1;
        }
    }
    count
}

/// Adds how many LSPs of a router are in a state.
fn put_lsps_in(
    text: &mut Vec<u8>,
    metric: &Metric<'_>,
    states: &[ShownState],
    peer: u32,
    state: LspState,
) -> Result<(), AllocError>
    ensures { OnOk result (text.new.items ≡ text.old.items
        ++ lines_of metric.now (lsps_in states.now peer state ∷ [])) }
{
    let labels = [
        LabelText::Address(Ipv4(peer)),
        LabelText::Text(state_label(state)),
    ];
    put_number(text, metric, &labels, number_of(peer, state, states))
}

/// Adds how many LSPs of a router are in each of these states.
#[tactic(auto, using(crate::proofs::Lines::lines), unfolding(crate::specs::Samples::lsps_of))]
fn put_lsps_of(
    text: &mut Vec<u8>,
    metric: &Metric<'_>,
    states: &[ShownState],
    each: &[LspState],
    peer: &PeerSession,
) -> Result<(), AllocError>
    ensures { OnOk result (text.new.items ≡ text.old.items
        ++ lines_of metric.now (lsps_of states.now each.now peer.now)) }
{
    for state in each {
        put_lsps_in(text, metric, states, peer.peer, *state)?;
    }
    Ok(())
}

/// Adds the same for each router.
#[tactic(auto, using(crate::proofs::Lines::lines), unfolding(crate::specs::Samples::lsps_of_each))]
pub(crate) fn put_lsps_of_each(
    text: &mut Vec<u8>,
    metric: &Metric<'_>,
    states: &[ShownState],
    each: &[LspState],
    peers: &[PeerSession],
) -> Result<(), AllocError>
    ensures { OnOk result (text.new.items ≡ text.old.items
        ++ lines_of metric.now (lsps_of_each states.now each.now peers.now)) }
{
    for peer in peers {
        put_lsps_of(text, metric, states, each, peer)?;
    }
    Ok(())
}

fn is_owner(peer: u32, owner: u32) -> bool
    ensures { result ≡ is_owner peer owner }
{
    owner == peer
}

/// Counts the grants that are a router's, given whose each is.
fn grants_among(owners: &[u32], peer: u32) -> u64
    ensures { result ≡ length (filter (is_owner peer) owners.now) }
{
    let mut count = 0;
    for owner in owners {
        if is_owner(peer, *owner) {
            count += 1;
        }
    }
    count
}

/// Adds how many grants of each router no report has settled, given whose each is.
#[tactic(auto, using(crate::proofs::Lines::lines), unfolding(crate::specs::Samples::grants_of_each))]
pub(crate) fn put_grants_of_each(
    text: &mut Vec<u8>,
    metric: &Metric<'_>,
    owners: &[u32],
    peers: &[PeerSession],
) -> Result<(), AllocError>
    ensures { OnOk result (text.new.items ≡ text.old.items
        ++ lines_of metric.now (grants_of_each owners.now peers.now)) }
{
    for peer in peers {
        let label = LabelText::Address(Ipv4(peer.peer));
        put_number(text, metric, &[label], grants_among(owners, peer.peer))?;
    }
    Ok(())
}
