//! The input of a search, and the search.
ghost use Rattle.std.specs.Prelude.{IfOk};
ghost use Rattle.step_core.specs.Searches.{MayAnswer};

use commit_core::Ticket;
use path_finder::find;
use sequence::{PlainData, Sequence};
use std::alloc::{AllocError, Global};
use std::fmt;
use te_base::LinkNumber;
use te_snapshot::{OwnShares, Snapshot};

/// The input of a search for a path. The search runs without the database, on the network as it was when the ticket was
/// taken.
#[derive(Drop)]
pub struct Job {
    /// The ticket as it is once taken.
    pub ticket: Ticket,
    /// The network, with what is left of every link.
    pub snapshot: Snapshot,
    /// What the tunnel of the ticket's LSP reserves already.
    pub own: OwnShares,
}

impl Job {
    /// Finds the links of a path of least cost on the job's own network that keeps its other bounds, from the source
    /// on. Returns `None` if the network has no room for one, or if the least one that was found breaks another bound.
    /// It takes no lock, and keeps nothing.
    pub fn search(&self, alloc: Global) -> Result<Option<Sequence<LinkNumber>>, AllocError>
        ensures { IfOk result (λ answer. MayAnswer self.now answer) }
    {
        match find(alloc, &self.snapshot, &self.ticket.constraints, &self.own)? {
            Some(found) => Ok(Some(found.links)),
            None => Ok(None),
        }
    }
}

impl PlainData for Job {
    fn copy(&self) -> Result<Job, AllocError> {
        Ok(Job {
            ticket: self.ticket.copy()?,
            snapshot: self.snapshot.copy()?,
            own: self.own.copy()?,
        })
    }
}

/// Writes the ticket, without the numbers of all links.
impl fmt::Debug for Job {
    fn fmt<W: fmt::Write>(&self, f: &mut fmt::Formatter<W>) -> fmt::Result {
        self.ticket.fmt(f)
    }
}
