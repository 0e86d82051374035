//! The network: its nodes and links, and what is left of each link.
ghost use Rattle.std.specs.Prelude.{◌≡◌, IfOk};
ghost use Rattle.database_looks.specs.Looks.{SeesBook};
ghost use Rattle.te_snapshot.specs.Left.{state_beside};
ghost use Rattle.te_snapshot.specs.Network.{network_of};

use crate::left::left_on_each;
use crate::nodes::nodes_of;
use history_core::Database;
use pce_seen::Book;
use std::alloc::{AllocError, Global};
use te_snapshot::Snapshot;

/// Sees the nodes, the links and what is left of each link.
pub fn see_book(alloc: Global, database: &Database) -> Result<Book, AllocError>
    ensures { IfOk result (SeesBook database.now) }
{
    let left = left_on_each(alloc, database)?;
    let links = database.te_base().links().to_vec(alloc)?;
    let nodes = nodes_of(alloc, database.te_base())?;
    Ok(Book { nodes, links, left })
}

/// Makes what a path search reads, with what is left now.
#[tactic(auto, using(crate::proofs::Tables::all_left_length))]
pub fn snapshot_of(alloc: Global, database: &Database) -> Result<Snapshot, AllocError>
    ensures { IfOk result (λ s. s ≡ state_beside (network_of database.now.state.te) database.now.state.base.paths) }
{
    let left = left_on_each(alloc, database)?;
    match database.topology_now() {
        Ok(topology) => Snapshot::new(alloc, topology, left),
        Err(error) => {
            drop(left);
            Err(error)
        }
    }
}
