//! Where a replay begins that has a base.
ghost use Rattle.std.specs.Prelude.{◌≡◌, IfOk, IfNone, IfSome};
ghost use Rattle.history_core.specs.Histories.{begun_over};
ghost use Rattle.journal_replay.specs.Bases.{point_over, BeginsAt};
ghost use Rattle.journal_replay.specs.Replays.{point_of};

use base_lines::PlacedBase;
use history_core::Database;
use std::alloc::{AllocError, Global};
use te_base::TeBase;

/// Begins with what a base says, over the network of its file, before the step of this place. `None` if that is another
/// step than the base's, or no history may begin so.
pub fn begin_at(
    alloc: Global,
    te: TeBase,
    base: PlacedBase,
    first: u64,
) -> Result<Option<Database>, AllocError>
    ensures begun { IfOk result (λ made. IfSome made (λ database. database ≡ begun_over te base.base base.steps base.grants)) }
    ensures point { IfOk result (λ made. IfSome made (λ database. point_of database ≡ point_over te base)) }
    ensures begins { IfOk result (λ made. IfSome made (λ _. BeginsAt te base first)) }
    ensures refused { IfOk result (λ made. IfNone made (BeginsAt te base first → ⊥)) }
{
    if base.steps != first {
        return Ok(None);
    }
    let PlacedBase {
        base,
        steps,
        grants,
    } = base;
    Database::over(alloc, te, base, steps, grants)
}
