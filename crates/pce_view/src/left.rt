//! What a step left of links, as JSON.
ghost use Rattle.std.specs.Prelude.{◌≡◌, ◌++◌, IfOk, OnOk};
ghost use Rattle.json.specs.Tree.{json_tokens};
ghost use Rattle.json.specs.Json.{array};
ghost use Rattle.pce_view.specs.Why.{left_by, left_row_items, left_row_json, left_rows_or_null};

use crate::fields::{Field, Member, put_object};
use json::Writer;
use server_counts::{ResidualRow, rows_of};
use std::alloc::{AllocError, Global};

/// Copies the rows of the step by which a path came.
pub(crate) fn left_by(
    alloc: Global,
    rows: &[ResidualRow],
    step: Option<u64>,
) -> Result<Vec<ResidualRow>, AllocError>
    ensures { IfOk result (λ left. left.items ≡ left_by step rows.now) }
{
    match step {
        Some(step) => rows_of(alloc, rows, step),
        None => Ok(Vec::new(alloc)),
    }
}

#[tactic(auto, unfolding(crate::specs::Why::left_row_json))]
fn put_row(alloc: Global, writer: &mut Writer, row: &ResidualRow) -> Result<(), AllocError>
    ensures before { writer.new.before ≡ writer.old.before }
    ensures written { OnOk result (writer.new.tokens ≡ writer.old.tokens ++ json_tokens (left_row_json row.now)) }
{
    put_object(
        alloc,
        writer,
        &[
            Member("link", Field::Whole(row.link as u64)),
            Member("priority", Field::Level(row.priority)),
            Member("before_bytes_per_second", Field::Signed(row.before)),
            Member("after_bytes_per_second", Field::Signed(row.after)),
        ],
    )
}

fn put_each_row(alloc: Global, writer: &mut Writer, rows: &[ResidualRow]) -> Result<(), AllocError>
    ensures before { writer.new.before ≡ writer.old.before }
    ensures written { OnOk result (writer.new.tokens ≡ writer.old.tokens ++ json_tokens (array (left_row_items rows.now))) }
{
    writer.begin_array()?;
    for row in rows {
        put_row(alloc, writer, row)?;
    }
    writer.end_array()
}

/// Writes what a step left of each link, or `null` where no row is of it.
pub(crate) fn put_rows_or(
    alloc: Global,
    writer: &mut Writer,
    rows: &[ResidualRow],
) -> Result<(), AllocError>
    ensures before { writer.new.before ≡ writer.old.before }
    ensures written { OnOk result (writer.new.tokens ≡ writer.old.tokens ++ json_tokens (left_rows_or_null rows.now)) }
{
    match rows {
        [] => writer.null(),
        [_, ..] => put_each_row(alloc, writer, rows),
    }
}
