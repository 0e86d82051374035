//! What the names in a line stand for, as a look sees it.
ghost use Rattle.std.specs.Prelude.{◌≡◌, map, IfOk};

use database_looks::{Look, nodes_of};
use history_core::Database;
use line_names::{Named, named_in};
use std::alloc::{AllocError, Global};
use step_core::Peer;

/// Lists the numbers of peers.
fn numbers_of(alloc: Global, peers: &[Peer]) -> Result<Vec<u32>, AllocError>
    ensures { IfOk result (λ numbers. numbers.items ≡ map (λ p. p.number) peers.now) }
{
    let mut numbers = Vec::with_capacity(alloc, peers.len())?;
    for peer in peers {
        numbers.push(peer.number)?;
    }
    Ok(numbers)
}

/// What the names in a line stand for, among the nodes of the network and the peers that are known.
#[derive(Drop)]
pub(crate) struct NamesLook<'a> {
    pub line: &'a str,
}

impl<'a> Look for NamesLook<'a> {
    ghost use Rattle.std.specs.Prelude.{◌≡◌, map};
    ghost use Rattle.line_names.specs.Names.{named_in};

    type Seen = Named;

    ghost sees = { λ look d seen. seen ≡ named_in d.state.te (map (λ p. p.number) d.state.peers) look.line.now };

    fn see(&self, alloc: Global, database: &Database) -> Result<Named, AllocError> {
        let te = database.te_base();
        let nodes = nodes_of(alloc, te)?;
        let peers = numbers_of(alloc, database.state().peers())?;
        Ok(named_in(te, &nodes, &peers, self.line))
    }
}
