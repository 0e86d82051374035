//! LSPs with what a path search for each of them reads.
ghost use Rattle.std.specs.Prelude.{◌≡◌, map, IfOk};
ghost use Rattle.te_snapshot.specs.Left.{state_beside};
ghost use Rattle.te_snapshot.specs.Network.{network_of};
ghost use Rattle.database_looks.specs.Moves.{own_of};

use crate::book::snapshot_of;
use history_core::Database;
use pce_seen::KnownLsp;
use std::alloc::{AllocError, Global};
use step_core::State;
use te_snapshot::{OwnShares, Snapshot};

/// Reads what the tunnel of each LSP holds.
pub fn own_of_each(
    alloc: Global,
    state: &State,
    lsps: &[KnownLsp],
) -> Result<Vec<OwnShares>, AllocError>
    ensures { IfOk result (λ own. own.items ≡ map (own_of state.now) lsps.now) }
{
    let mut own = Vec::with_capacity(alloc, lsps.len())?;
    for lsp in lsps {
        own.push(state.shares_of(&lsp.known.lsp.tunnel)?)?;
    }
    Ok(own)
}

/// Joins LSPs with what their tunnels hold, and what a path search reads.
pub fn with_own(
    alloc: Global,
    database: &Database,
    lsps: &[KnownLsp],
) -> Result<(Snapshot, Vec<OwnShares>), AllocError>
    ensures snapshot { IfOk result (λ seen. seen.0 ≡ state_beside (network_of database.now.state.te) database.now.state.base.paths) }
    ensures own { IfOk result (λ seen. seen.1.items ≡ map (own_of database.now.state) lsps.now) }
{
    let own = own_of_each(alloc, database.state(), lsps)?;
    match snapshot_of(alloc, database) {
        Ok(snapshot) => Ok((snapshot, own)),
        Err(error) => {
            drop(own);
            Err(error)
        }
    }
}
