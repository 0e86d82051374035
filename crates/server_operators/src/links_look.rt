//! The links of a network, as a look sees them.
use database_looks::{LeftLook, Look};
use history_core::Database;
use std::alloc::{AllocError, Global};
use te_base::LinkValues;

/// The values of each link, and what is left of it at each of the eight priorities, by its number.
#[derive(Drop)]
pub(crate) struct LinksLook;

impl Look for LinksLook {
    ghost use Rattle.std.specs.Prelude.{◌≡◌};
    ghost use Rattle.te_base.specs.Values.{values_in};
    ghost use Rattle.te_snapshot.specs.Left.{all_left};

    type Seen = (Vec<LinkValues>, Vec<[i64; 8]>);

    ghost sees = { λ _ d seen. (seen.0.items ≡ values_in d.state.te) × (seen.1.items ≡ all_left d.state.te.links d.state.base.paths) };

    fn see(
        &self,
        alloc: Global,
        database: &Database,
    ) -> Result<(Vec<LinkValues>, Vec<[i64; 8]>), AllocError> {
        let values = database.te_base().values(alloc)?;
        let left = LeftLook.see(alloc, database)?;
        Ok((values, left))
    }
}
