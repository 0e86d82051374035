//! The latest session of each router.
ghost use Rattle.std.specs.Prelude.{◌≡◌, map, IfOk};
ghost use Rattle.server_base.specs.Routers.{seen_router};

use history_core::Database;
use std::alloc::{AllocError, Global};
use step_core::Peer;

/// The latest session of a router.
#[derive(Clone, Copy, PartialEq, Eq, Debug)]
pub(crate) struct SeenRouter {
    pub peer: u32,
    /// The number of the session.
    pub session: u64,
    pub is_up: bool,
    /// It is up, and the router has reported all of its LSPs in it (RFC 8231 section 5.6).
    pub in_sync: bool,
    /// The router takes updates in it (flag U, RFC 8231 section 7.1.1).
    pub takes_updates: bool,
}

/// Finds a router.
pub(crate) fn find(routers: &[SeenRouter], peer: u32) -> Option<SeenRouter> {
    routers.iter().find(|router| router.peer == peer).copied()
}

/// Sees all routers.
#[derive(Clone, Copy)]
pub(crate) struct RoutersLook;

impl database_looks::Look for RoutersLook {
    ghost use Rattle.std.specs.Prelude.{◌≡◌, map};
    ghost use Rattle.server_base.specs.Routers.{seen_router};

    type Seen = Vec<SeenRouter>;

    ghost sees = { λ _ d seen. seen.items ≡ map seen_router d.state.peers };

    fn see(&self, alloc: Global, database: &Database) -> Result<Vec<SeenRouter>, AllocError> {
        seen_routers(alloc, database.state().peers())
    }
}

fn seen_router(peer: &Peer) -> SeenRouter
    ensures { result ≡ seen_router peer.now }
{
    SeenRouter {
        peer: peer.number,
        session: peer.session,
        is_up: peer.up,
        in_sync: peer.up && !peer.syncing,
        takes_updates: peer.capabilities.update,
    }
}

fn seen_routers(alloc: Global, peers: &[Peer]) -> Result<Vec<SeenRouter>, AllocError>
    ensures { IfOk result (λ seen. seen.items ≡ map seen_router peers.now) }
{
    let mut seen = Vec::with_capacity(alloc, peers.len())?;
    for peer in peers {
        seen.push(seen_router(peer))?;
    }
    Ok(seen)
}
