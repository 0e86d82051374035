//! Which peers are up, and whose the grants are that no report has settled.
ghost use Rattle.std.specs.Prelude.{◌≡◌, None, map, filter, IfOk};
ghost use Rattle.pce_seen.specs.Grants.{is_grant_asked};
ghost use Rattle.database_looks.specs.Looks.{owner_of, session_of, SeesPeerGrants};

use history_core::Database;
use lsp_base::Path;
use pce_seen::{PeerGrants, PeerSession, is_grant_asked};
use std::alloc::{AllocError, Global};
use step_core::Peer;

/// Says whether the session of a peer is up.
fn session_of(peer: &Peer) -> PeerSession
    ensures { result ≡ session_of peer.now }
{
    PeerSession {
        peer: peer.number,
        is_up: peer.up,
    }
}

/// Says of each peer whether its session is up.
fn sessions_of(alloc: Global, peers: &[Peer]) -> Result<Vec<PeerSession>, AllocError>
    ensures { IfOk result (λ sessions. sessions.items ≡ map session_of peers.now) }
{
    let mut sessions = Vec::with_capacity(alloc, peers.len())?;
    for peer in peers {
        sessions.push(session_of(peer))?;
    }
    Ok(sessions)
}

/// Says whose a path is.
fn owner_of(path: &Path) -> u32
    ensures { result ≡ owner_of path.now }
{
    path.peer
}

/// Lists the peer of each path that was granted, and that no report has settled.
fn owners_of_grants(alloc: Global, paths: &[Path]) -> Result<Vec<u32>, AllocError>
    ensures { IfOk result (λ owners. owners.items ≡ map owner_of (filter (is_grant_asked None) paths.now)) }
{
    let mut owners = Vec::new(alloc);
    for path in paths {
        if is_grant_asked(None, path) {
            owners.push(owner_of(path))?;
        }
    }
    Ok(owners)
}

/// Sees which peers are up, and whose each grant is that no report has settled.
pub(crate) fn see_peer_grants(alloc: Global, database: &Database) -> Result<PeerGrants, AllocError>
    ensures { IfOk result (SeesPeerGrants database.now) }
{
    let state = database.state();
    Ok(PeerGrants {
        peers: sessions_of(alloc, state.peers())?,
        grants: owners_of_grants(alloc, state.lsps().paths())?,
    })
}
