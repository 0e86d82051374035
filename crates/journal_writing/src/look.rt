//! The look.
ghost use Rattle.std.specs.Prelude.{◌≡◌, take, drop, IfOk};
ghost use Rattle.journal_writing.specs.Steps.{SeesFrom};

use database_looks::Look;
use history_core::{Database, Step};
use sequence::PlainData;
use std::alloc::{AllocError, Global};

/// How many steps are seen at a time, at most.
pub const MOST_SEEN: usize = 512;

/// Looks at the steps from a place on.
#[derive(Clone, Copy, Debug)]
pub struct StepsLook {
    /// The place of the first among all steps.
    pub from: u64,
}

/// What is seen of the steps from a place on.
#[derive(Drop)]
pub enum SeenSteps {
    /// These, oldest first: none if none was taken since.
    Steps(Vec<Step>),
    /// The step at this place was rolled, and isn't kept any more.
    Rolled,
}

/// Copies steps. Their events are shared.
fn copies(alloc: Global, steps: &[Step]) -> Result<Vec<Step>, AllocError>
    ensures { IfOk result (λ copies. copies.items ≡ steps.now) }
{
    let mut copies = Vec::with_capacity(alloc, steps.len())?;
    for step in steps {
        copies.push(step.copy()?)?;
    }
    Ok(copies)
}

/// Returns the first steps of a list, 512 at most.
#[tactic(auto, using(crate::proofs::Seen::first_many))]
fn first_of(steps: &[Step]) -> &[Step]
    ensures { result.now ≡ take 512 steps.now }
{
    &steps[..steps.len().min(MOST_SEEN)]
}

/// Returns the steps of a list from an index on.
#[tactic(auto, using(crate::proofs::Seen::none_left))]
fn from_index(steps: &[Step], index: u64) -> &[Step]
    ensures { result.now ≡ drop index steps.now }
{
    if index >= steps.len() as u64 {
        return &[];
    }
    &steps[index as usize..]
}

/// Copies the steps from a place on, which isn't before the base.
fn see_from(alloc: Global, steps: &[Step], index: u64) -> Result<Vec<Step>, AllocError>
    ensures { IfOk result (λ seen. seen.items ≡ take 512 (drop index steps.now)) }
{
    copies(alloc, first_of(from_index(steps, index)))
}

impl Look for StepsLook {
    ghost use Rattle.journal_writing.specs.Steps.{SeesFrom};

    type Seen = SeenSteps;

    ghost sees = { λ look d seen. SeesFrom look.from d seen };

    fn see(&self, alloc: Global, database: &Database) -> Result<SeenSteps, AllocError> {
        let rolled = database.rolled();
        if self.from < rolled {
            return Ok(SeenSteps::Rolled);
        }
        let seen = see_from(alloc, database.history(), self.from - rolled)?;
        Ok(SeenSteps::Steps(seen))
    }
}
