//! What is left of links.
ghost use Rattle.std.specs.Prelude.{◌≡◌, ◌<◌, length, IfOk};
ghost use Rattle.lsp_base.specs.Shares.{unreserved};
ghost use Rattle.te_snapshot.specs.Left.{all_left, left_on};

use crate::look::Look;
use history_core::Database;
use pcep_word::Priority;
use std::alloc::{AllocError, Global};
use te_base::LinkNumber;

/// Reads what is left of a link at a priority.
fn left_at(database: &Database, link: LinkNumber, priority: usize) -> i64
    requires link { link < length database.now.state.te.links }
    requires priority { priority < 8 }
    ensures { result ≡ unreserved database.now.state.te.links database.now.state.base.paths link priority }
{
    database
        .unreserved(link, Priority::capped(priority as u8))
        .unwrap()
}

/// Reads what is left of a link at each priority.
pub fn left_on(database: &Database, link: LinkNumber) -> [i64; 8]
    requires { link < length database.now.state.te.links }
    ensures { result ≡ left_on database.now.state.te.links database.now.state.base.paths link }
{
    let mut left = [0i64; 8];
    for priority in 0..8usize {
        left[priority] = left_at(database, link, priority);
    }
    left
}

/// Reads what is left of each link, by its number.
#[tactic(auto, unfolding(te_snapshot::specs::Left::all_left), using(crate::proofs::Tables::one_more_left))]
pub fn left_on_each(alloc: Global, database: &Database) -> Result<Vec<[i64; 8]>, AllocError>
    ensures { IfOk result (λ table. table.items ≡ all_left database.now.state.te.links database.now.state.base.paths) }
{
    let count = database.te_base().links().len();
    let mut table = Vec::with_capacity(alloc, count)?;
    for link in 0..count {
        table.push(left_on(database, link))?;
    }
    Ok(table)
}

/// Looks only at what is left of each link.
#[derive(Clone, Copy)]
pub struct LeftLook;

impl Look for LeftLook {
    ghost use Rattle.std.specs.Prelude.{◌≡◌};
    ghost use Rattle.te_snapshot.specs.Left.{all_left};

    type Seen = Vec<[i64; 8]>;

    ghost sees = { λ _ d seen. seen.items ≡ all_left d.state.te.links d.state.base.paths };

    fn see(&self, alloc: Global, database: &Database) -> Result<Vec<[i64; 8]>, AllocError> {
        left_on_each(alloc, database)
    }
}
