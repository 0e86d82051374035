//! What a ticket asks for, and the path that a grant of an offer would add.
ghost use Rattle.std.specs.Prelude.{◌≡◌};
ghost use Rattle.commit_core.specs.Offers.{is_request, tunnel_known, tunnel_named, own_tunnel, granted_tunnel, granted_plsp, offered_path};

use crate::ticket::{Purpose, Ticket};
use lsp_base::{LspBase, Part, Path, Tunnel};
use lsp_words::Plsp;
use sequence::Sequence;
use te_base::LinkNumber;

/// Tests whether a path is asked for to answer a request, and not to be granted.
pub(crate) fn is_request(purpose: &Purpose) -> bool
    ensures { result ≡ is_request purpose.now }
{
    matches!(purpose, Purpose::Answer { .. })
}

fn tunnel_known(base: &LspBase, peer: u32, plsp: Plsp) -> Option<Tunnel>
    ensures { result ≡ tunnel_known base.now.content.records peer plsp }
{
    match base.lsp(peer, plsp) {
        Some(lsp) => Some(lsp.tunnel),
        None => None,
    }
}

fn tunnel_named(base: &LspBase, peer: u32, plsp: Option<Plsp>) -> Option<Tunnel>
    ensures { result ≡ tunnel_named base.now.content.records peer plsp }
{
    match plsp {
        Some(plsp) => tunnel_known(base, peer, plsp),
        None => None,
    }
}

/// Returns the tunnel whose reservations a path for this purpose may share (RFC 3209 section 2.4.3): that of the LSP
/// that it is for, if one is named and known. Allocates nothing.
pub fn own_tunnel(base: &LspBase, peer: u32, purpose: &Purpose) -> Option<Tunnel>
    ensures { result ≡ own_tunnel base.now.content.records peer purpose.now }
{
    match purpose {
        Purpose::Update { plsp } => tunnel_known(base, peer, *plsp),
        Purpose::Initiate { .. } => None,
        Purpose::Answer { plsp, .. } => tunnel_named(base, peer, *plsp),
    }
}

fn granted_tunnel(base: &LspBase, peer: u32, srp: u32, purpose: &Purpose) -> Tunnel
    ensures { result ≡ granted_tunnel base.now.content.records peer srp purpose.now }
{
    match purpose {
        Purpose::Update { plsp } => {
            let plsp = *plsp;
            tunnel_known(base, peer, plsp).unwrap_or(Tunnel::Unsignalled { peer, plsp })
        }
        Purpose::Initiate { .. } => Tunnel::Asked { peer, srp },
        Purpose::Answer { plsp, .. } => {
            let none = Plsp::new(0);
            tunnel_named(base, peer, *plsp).unwrap_or(Tunnel::Unsignalled { peer, plsp: none })
        }
    }
}

fn granted_plsp(purpose: &Purpose) -> Plsp
    ensures { result ≡ granted_plsp purpose.now }
{
    match purpose {
        Purpose::Update { plsp } => *plsp,
        Purpose::Initiate { .. } | Purpose::Answer { .. } => Plsp::new(0),
    }
}

/// Makes the path that a grant of these links adds, with this SRP-ID, given the LSPs as they are now. `judge` tests
/// this path. For a request it is never added. Allocates nothing.
#[tactic(auto, unfolding(crate::specs::Offers::offered_path))]
pub fn offered_path(base: &LspBase, srp: u32, ticket: &Ticket, links: Sequence<LinkNumber>) -> Path
    ensures { result ≡ offered_path base.now.content.records srp ticket.now links }
{
    Path {
        peer: ticket.peer,
        plsp: granted_plsp(&ticket.purpose),
        part: Part::Granted(srp),
        tunnel: granted_tunnel(base, ticket.peer, srp, &ticket.purpose),
        hold: ticket.constraints.priorities.hold(),
        bandwidth: ticket.constraints.bandwidth,
        links,
        fresh: true,
    }
}
