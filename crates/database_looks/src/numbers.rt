//! Counts, peers with their grants, and what is left of each link, all of one moment.
ghost use Rattle.std.specs.Prelude.{IfOk};

use crate::book::see_book;
use crate::counts::see_counts;
use crate::look::Look;
use crate::peers::see_peer_grants;
use history_core::Database;
use pce_seen::Numbers;
use std::alloc::{AllocError, Global};

/// Looks at the counts, the peers with their grants, the nodes, the links and what is left of each link.
#[derive(Clone, Copy)]
pub struct NumbersLook;

impl Look for NumbersLook {
    ghost use Rattle.database_looks.specs.Looks.{SeesNumbers};

    type Seen = Numbers;

    ghost sees = { λ _ d seen. SeesNumbers d seen };

    fn see(&self, alloc: Global, database: &Database) -> Result<Numbers, AllocError> {
        let peers = see_peer_grants(alloc, database)?;
        let book = see_book(alloc, database)?;
        Ok(Numbers {
            counts: see_counts(database),
            peers,
            book,
        })
    }
}
