//! How many there are of each kind.
ghost use Rattle.std.specs.Prelude.{◌≡◌, None, length, filter};
ghost use Rattle.pce_seen.specs.Grants.{is_grant_asked};
ghost use Rattle.database_looks.specs.Looks.{counts_in};

use crate::look::Look;
use history_core::Database;
use lsp_base::Path;
use pce_seen::{Counts, is_grant_asked};
use std::alloc::{AllocError, Global};
use step_core::Peer;

/// Counts the peers whose session is up.
fn sessions_up(peers: &[Peer]) -> u64
    ensures { result ≡ length (filter (λ p. p.up) peers.now) }
{
    let mut count = 0;
    for peer in peers {
        if peer.up {
            count += 1;
        }
    }
    count
}

/// Counts the paths that were granted, and that no report has settled.
fn waiting_grants(paths: &[Path]) -> u64
    ensures { result ≡ length (filter (is_grant_asked None) paths.now) }
{
    let mut count = 0;
    for path in paths {
        if is_grant_asked(None, path) {
            count += 1;
        }
    }
    count
}

/// Counts steps, grants, sessions, LSPs, paths and tickets.
pub fn see_counts(database: &Database) -> Counts
    ensures { result ≡ counts_in database.now }
{
    let state = database.state();
    Counts {
        steps: database.steps(),
        grants: database.grants(),
        rolled: database.rolled(),
        kept: database.history().len() as u64,
        nodes: database.te_base().node_count() as u64,
        links: database.te_base().link_count() as u64,
        sessions_up: sessions_up(state.peers()),
        lsps: state.lsps().records().len() as u64,
        paths: state.lsps().paths().len() as u64,
        waiting_grants: waiting_grants(state.lsps().paths()),
        tickets: state.ticket_count() as u64,
    }
}

/// Looks at how many there are of each kind.
#[derive(Clone, Copy)]
pub struct CountsLook;

impl Look for CountsLook {
    ghost use Rattle.std.specs.Prelude.{◌≡◌};
    ghost use Rattle.database_looks.specs.Looks.{counts_in};

    type Seen = Counts;

    ghost sees = { λ _ d seen. seen ≡ counts_in d };

    fn see(&self, _alloc: Global, database: &Database) -> Result<Counts, AllocError> {
        Ok(see_counts(database))
    }
}
