//! What identifies the LSP of a report, and what its state means.
ghost use Rattle.std.specs.Prelude.{◌≡◌};
ghost use Rattle.delegate_rules.specs.Reports.{identifiers_of, are_zero, tunnel_of, is_down};
ghost use Rattle.delegate_rules.specs.Grants.{is_settled};

use lsp_base::Tunnel;
use pcep_messages::StateReport;
use pcep_objects::{Identifiers, Operational};
use pcep_word::Ipv4;

pub fn identifiers(report: &StateReport) -> Identifiers
    ensures { result ≡ identifiers_of report.now }
{
    match report.identifiers {
        Some(identifiers) => identifiers,
        None => Identifiers {
            sender: Ipv4(0),
            lsp: 0,
            tunnel: 0,
            extended: 0,
            endpoint: Ipv4(0),
        },
    }
}

pub fn are_all_zero(i: Identifiers) -> bool
    ensures { result ≡ are_zero i }
{
    i.sender.0 == 0 && i.lsp == 0 && i.tunnel == 0 && i.extended == 0 && i.endpoint.0 == 0
}

pub fn report_tunnel(peer: u32, report: &StateReport) -> Tunnel
    ensures { result ≡ tunnel_of peer report.now }
{
    let Identifiers {
        tunnel,
        extended,
        endpoint,
        ..
    } = identifiers(report);
    if are_all_zero(identifiers(report)) {
        Tunnel::Unsignalled {
            peer,
            plsp: report.plsp,
        }
    } else {
        Tunnel::Signalled {
            peer,
            endpoint,
            tunnel,
            extended,
        }
    }
}

pub fn means_down(operational: Operational) -> bool
    ensures { result ≡ is_down operational }
{
    operational == Operational::Down
}

/// Tests whether the peer has done what it was asked, or will not do it.
pub fn means_settled(operational: Operational) -> bool
    ensures { result ≡ is_settled operational }
{
    match operational {
        Operational::Down | Operational::Up | Operational::Active => true,
        Operational::GoingDown | Operational::GoingUp => false,
    }
}
