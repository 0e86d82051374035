//! A table of what steps left of links.
ghost use Rattle.std.specs.Prelude.{◌≡◌, ◌<◌, ◌≤◌, ◌++◌, [], All, drop, length, IfOk, OnOk, OnErr};
ghost use Rattle.shared_pce.specs.Residuals.{with_rows, WasLeft};

use server_counts::ResidualRow;
use std::alloc::{AllocError, Global};
use std::marker::Model;

/// The number of rows at which the older half is dropped.
const ROW_LIMIT: usize = 65_536;

/// What steps left of links, the newest last. A contract sees the rows.
#[derive(Drop)]
pub(crate) struct ResidualLog {
    rows: Vec<ResidualRow>,
}

impl Model for ResidualLog {
    ghost use Rattle.std.specs.Prelude.{List, All};
    ghost use Rattle.server_counts.specs.declared.residuals.ResidualRow.{ResidualRow};
    ghost use Rattle.shared_pce.specs.Residuals.{WasLeft};

    ghost Value = { List ResidualRow };

    ghost view = { λ t. t.rows.items };

    ghost invariant = { λ t. All WasLeft t.rows.items };
}

/// Appends the rows to those that are kept from this place on.
fn add_behind(
    kept: &mut Vec<ResidualRow>,
    start: usize,
    rows: &[ResidualRow],
) -> Result<(), AllocError>
    requires { start ≤ length kept.old.items }
    ensures added { OnOk result (kept.new.items ≡ drop start kept.old.items ++ rows.now) }
    ensures unchanged { OnErr result (kept.new.items ≡ kept.old.items) }
{
    let alloc = *kept.allocator();
    let mut newer = kept[start..].to_vec(alloc)?;
    newer.extend_from_slice(rows)?;
    *kept = newer;
    Ok(())
}

/// Appends rows. If there are 65,536, the older half is dropped.
fn add(kept: &mut Vec<ResidualRow>, rows: &[ResidualRow]) -> Result<(), AllocError>
    ensures added { OnOk result (kept.new.items ≡ with_rows rows.now kept.old.items) }
    ensures unchanged { OnErr result (kept.new.items ≡ kept.old.items) }
{
    if kept.len() < ROW_LIMIT {
        kept.extend_from_slice(rows)
    } else {
        add_behind(kept, ROW_LIMIT / 2, rows)
    }
}

impl ResidualLog {
    pub fn new(alloc: Global) -> ResidualLog
        ensures { result ≡ [] }
    {
        ResidualLog {
            rows: Vec::new(alloc),
        }
    }

    /// Adds what a step left. If memory runs out nothing is added.
    pub fn note(&mut self, rows: &[ResidualRow]) -> Result<(), AllocError>
        requires { All WasLeft rows.now }
        ensures noted { OnOk result (self.new ≡ with_rows rows.now self.old) }
        ensures unchanged { OnErr result (self.new ≡ self.old) }
    {
        add(&mut self.rows, rows)
    }

    /// Copies all rows.
    pub fn copies(&self, alloc: Global) -> Result<Vec<ResidualRow>, AllocError>
        ensures copies { IfOk result (λ rows. rows.items ≡ self.now) }
        ensures left { IfOk result (λ rows. All WasLeft rows.items) }
    {
        self.rows.to_vec(alloc)
    }
}
