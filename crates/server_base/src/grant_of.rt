//! The grants of an LSP and of a peer.
ghost use Rattle.std.specs.Prelude.{◌≡◌, IfOk};
ghost use Rattle.std.specs.List.{filter_map};
ghost use Rattle.server_base.specs.Routers.{is_grant_of, srp_in, srp_of, srp_of_peer, SeesGrantOf};

use history_core::Database;
use lsp_base::{Part, Path};
use lsp_words::Plsp;
use std::alloc::{AllocError, Global};

/// Sees the SRP-ID of a grant that is bound to an LSP.
#[derive(Clone, Copy)]
pub(crate) struct GrantOfLook {
    pub peer: u32,
    pub plsp: Plsp,
}

impl database_looks::Look for GrantOfLook {
    ghost use Rattle.server_base.specs.Routers.{SeesGrantOf};

    type Seen = Option<u32>;

    ghost sees = { λ look d seen. SeesGrantOf look.peer look.plsp d seen };

    fn see(&self, _alloc: Global, database: &Database) -> Result<Option<u32>, AllocError> {
        let lsps = database.state().lsps();
        if !lsps.has_grant(self.peer, self.plsp) {
            return Ok(None);
        }
        Ok(grant_of(lsps.paths(), self.peer, self.plsp))
    }
}

/// Tests whether a path is a grant that is bound to the LSP.
fn is_grant_of(path: &Path, peer: u32, plsp: Plsp) -> bool
    ensures { result ≡ is_grant_of peer plsp path.now }
{
    path.peer == peer && path.plsp == plsp && matches!(path.part, Part::Granted(_))
}

/// Returns the SRP-ID of a grant.
fn srp_of(part: Part) -> Option<u32>
    ensures { result ≡ srp_of part }
{
    match part {
        Part::Granted(srp) => Some(srp),
        Part::Reported(_) => None,
    }
}

/// Returns the SRP-ID of the first grant that is bound to the LSP.
fn grant_of(paths: &[Path], peer: u32, plsp: Plsp) -> Option<u32>
    ensures { result ≡ srp_in paths.now peer plsp }
{
    for path in paths {
        if is_grant_of(path, peer, plsp) {
            return srp_of(path.part);
        }
    }
    None
}

/// Sees the SRP-IDs of a peer's grants.
#[derive(Clone, Copy)]
pub(crate) struct GrantsOfPeerLook {
    pub peer: u32,
}

impl database_looks::Look for GrantsOfPeerLook {
    ghost use Rattle.std.specs.Prelude.{◌≡◌};
    ghost use Rattle.std.specs.List.{filter_map};
    ghost use Rattle.server_base.specs.Routers.{srp_of_peer};

    type Seen = Vec<u32>;

    ghost sees = { λ look d seen. seen.items ≡ filter_map (srp_of_peer look.peer) d.state.base.paths };

    fn see(&self, alloc: Global, database: &Database) -> Result<Vec<u32>, AllocError> {
        srps_of_peer(alloc, database.state().lsps().paths(), self.peer)
    }
}

/// Returns the SRP-ID of a path, if it is a grant of the peer.
fn srp_of_peer(path: &Path, peer: u32) -> Option<u32>
    ensures { result ≡ srp_of_peer peer path.now }
{
    if path.peer != peer {
        return None;
    }
    srp_of(path.part)
}

fn srps_of_peer(alloc: Global, paths: &[Path], peer: u32) -> Result<Vec<u32>, AllocError>
    ensures { IfOk result (λ srps. srps.items ≡ filter_map (srp_of_peer peer) paths.now) }
{
    let mut srps = Vec::new(alloc);
    for path in paths {
        if let Some(srp) = srp_of_peer(path, peer) {
            srps.push(srp)?;
        }
    }
    Ok(srps)
}
