//! What steps left of links.
ghost use Rattle.std.specs.Prelude.{◌≡◌, IfOk};
ghost use Rattle.server_counts.specs.Residuals.{rows_of};

use pcep_word::Priority;
use std::alloc::{AllocError, Global};
use te_base::LinkNumber;

/// What was left of a link before and after a step, at a priority, in bytes per second.
#[derive(Clone, Copy, Debug)]
pub struct ResidualRow {
    /// The place of the step among all steps.
    pub step: u64,
    pub link: LinkNumber,
    pub priority: Priority,
    pub before: i64,
    pub after: i64,
}

/// Copies the rows of a step, in their order.
pub fn rows_of(
    alloc: Global,
    rows: &[ResidualRow],
    step: u64,
) -> Result<Vec<ResidualRow>, AllocError>
    ensures { IfOk result (λ found. found.items ≡ rows_of step rows.now) }
{
    let mut found = Vec::new(alloc);
    for row in rows {
        if row.step == step {
            found.push(*row)?;
        }
    }
    Ok(found)
}
