//! The look at a base.
ghost use Rattle.std.specs.Prelude.{◌≡◌, IfOk};
ghost use Rattle.journal_writing.specs.Bases.{rolled_base};

use base_lines::PlacedBase;
use database_looks::Look;
use history_core::Database;
use sequence::PlainData;
use std::alloc::{AllocError, Global};
use step_core::Base;

/// Looks at the base of a history that was last rolled after this many steps.
#[derive(Clone, Copy, Debug)]
pub struct BaseLook {
    pub at: u64,
}

/// What is seen of the base.
#[derive(Drop)]
pub enum SeenBase {
    /// The history was last rolled there, and this was known.
    Base(PlacedBase),
    /// It was last rolled elsewhere.
    Other,
}

/// Copies what is known.
fn copy_of(base: &Base) -> Result<Base, AllocError>
    ensures { IfOk result (λ copy. copy ≡ base.now) }
{
    Ok(Base {
        values: base.values.copy()?,
        paths: base.paths.copy()?,
        records: base.records.copy()?,
        names: base.names.copy()?,
        peers: base.peers.copy()?,
        tickets: base.tickets.copy()?,
        changes: base.changes,
        last_session: base.last_session,
        last_ticket: base.last_ticket,
    })
}

/// Copies the base of a database.
#[tactic(auto, using(crate::proofs::Based::is_known))]
pub fn rolled_base(database: &Database) -> Result<PlacedBase, AllocError>
    ensures { IfOk result (λ base. base ≡ rolled_base database.now) }
{
    let base = copy_of(database.base())?;
    Ok(PlacedBase {
        base,
        steps: database.rolled(),
        grants: database.rolled_grants(),
    })
}

impl Look for BaseLook {
    ghost use Rattle.journal_writing.specs.Bases.{SeesBase};

    type Seen = SeenBase;

    ghost sees = { λ look d seen. SeesBase look.at d seen };

    fn see(&self, _alloc: Global, database: &Database) -> Result<SeenBase, AllocError> {
        if database.rolled() != self.at {
            return Ok(SeenBase::Other);
        }
        let base = rolled_base(database)?;
        Ok(SeenBase::Base(base))
    }
}
