//! Reports, and the effects of all events on LSPs.
ghost use Rattle.std.specs.Prelude.{◌≡◌, ◌<◌, ◌^◌, ◌+◌, ◌&&◌, not, IfOk, OnOk, OnErr, if◌then◌else◌};
ghost use Rattle.lsp_base.specs.Lsps.{HasAll};
ghost use Rattle.lsp_base.specs.Rooms.{IsWithinLimit};
ghost use Rattle.step_core.specs.States.{moves_paths};
ghost use Rattle.step_core.specs.Networks.{carried_out};
ghost use Rattle.step_core.specs.Steps.{report_step};
ghost use Rattle.ticket_table.specs.Tickets.{is_update_asked};

use super::Tables;
use crate::event::Reply;
use crate::network::Network;
use crate::peer::Peer;
use delegate_rules::{RuleFault, on_report};
use lsp_base::{Effect, Why};
use pcep_messages::StateReport;
use pcep_objects::Plsp;
use std::alloc::AllocError;
use ticket_table::TicketTable;

pub(super) fn moves_a_path(effect: &Effect) -> bool
    ensures { result ≡ moves_paths effect.now }
{
    match (
        effect.change.dropped.as_slice(),
        effect.change.added.as_slice(),
    ) {
        ([], []) => false,
        _ => true,
    }
}

/// Carries out an effect on the LSPs of a peer, and counts it if it drops or adds a path.
pub(super) fn change_lsps(
    network: &mut Network,
    changes: &mut u64,
    peer: u32,
    effect: Effect,
) -> Result<(), AllocError>
    requires few { IsWithinLimit network.old.base effect }
    requires stand { HasAll network.old.base.paths effect.change.dropped }
    requires count { changes.old < 2 ^ 62 }
    ensures network { OnOk result (network.new ≡ carried_out network.old peer effect) }
    ensures count { OnOk result (changes.new ≡ (if moves_paths effect then changes.old + 1 else changes.old)) }
    ensures same_network { OnErr result (network.new ≡ network.old) }
    ensures same_count { OnErr result (changes.new ≡ changes.old) }
{
    let moves_paths = moves_a_path(&effect);
    network.carry_out(peer, effect)?;
    if moves_paths {
        *changes += 1;
    }
    Ok(())
}

/// Tests whether the LSP waits for a path, none is asked for, and the PCE may send the peer one.
fn wants_path(known: &Peer, tickets: &TicketTable, peer: u32, plsp: Plsp, effect: &Effect) -> bool
    ensures { result ≡ (effect.now.wants_path && (known.now.capabilities).update && not known.now.syncing && not (is_update_asked tickets.now.tickets peer plsp)) }
{
    effect.wants_path
        && known.capabilities.update
        && !known.syncing
        && !tickets.is_update_asked(peer, plsp)
}

impl Tables {
    /// Books a report whatever it reserves: links are charged what the routers say, even if that is more than they can
    /// carry.
    pub(super) fn report(&mut self, peer: u32, report: &StateReport) -> Result<Reply, AllocError>
        requires { self.old.changes < 2 ^ 62 }
        ensures reply { IfOk result (λ reply. reply ≡ (report_step self.old peer report.now).reply) }
        ensures state { OnOk result (self.new ≡ (report_step self.old peer report.now).state) }
        ensures unchanged_without_memory { OnErr result (self.new ≡ self.old) }
    {
        let Some(known) = self.peers.find(peer) else {
            return Ok(Reply::Refused(Why::UnknownPeer));
        };
        if !known.up {
            return Ok(Reply::Refused(Why::PeerDown));
        }
        match on_report(
            self.alloc,
            self.network.lsps(),
            self.network.te_base(),
            peer,
            report,
        ) {
            Err(RuleFault::OutOfMemory) => Err(AllocError),
            Err(RuleFault::Why(why)) => Ok(Reply::Refused(why)),
            Ok(effect) => {
                let wants_path = wants_path(known, &self.tickets, peer, report.plsp, &effect);
                change_lsps(&mut self.network, &mut self.changes, peer, effect)?;
                Ok(Reply::Booked { wants_path })
            }
        }
    }
}
