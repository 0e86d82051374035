//! `why PEER PLSP`: by which kept steps the paths of an LSP came, and what those steps left of links.
ghost use Rattle.std.specs.Prelude.{◌≡◌, ◌++◌, Some, OnOk};
ghost use Rattle.json.specs.Tree.{json_tokens};
ghost use Rattle.json.specs.Json.{array};
ghost use Rattle.pce_view.specs.Why.{age_of, left_by, origins_json, origins_or_null, traced_items, traced_json};
ghost use Rattle.pce_view.specs.Words.{origin_step};

use crate::age::{Age, age_of};
use crate::closing::closed;
use crate::columns::{add_ago, add_part};
use crate::fields::{Field, Member, begin_with, lsp_id, srp_id};
use crate::heard::Heard;
use crate::left::{left_by, put_rows_or};
use crate::origins::see_origins;
use crate::question::{Question, ServerInfo};
use crate::words::{origin_step, origin_ticket, origin_word};
use asks::{Ask, LspId};
use database_looks::Look;
use history_core::Database;
use json::Writer;
use pce_seen::{LspOrigins, TracedPath};
use server_counts::{Mark, ResidualRow};
use std::alloc::{AllocError, Global};
use std::fmt::Write;
use table_text::{add_numbers, add_rate};

fn put_traced(
    alloc: Global,
    writer: &mut Writer,
    seen: &TracedPath,
    age: Age,
    left: &[ResidualRow],
) -> Result<(), AllocError>
    ensures before { writer.new.before ≡ writer.old.before }
    ensures written { OnOk result (writer.new.tokens ≡ writer.old.tokens ++ json_tokens (traced_json seen.now age left.now)) }
{
    begin_with(
        alloc,
        writer,
        &[
            Member("lsp_id", Field::LspId(seen.path.part)),
            Member("srp_id", Field::SrpId(seen.path.part)),
            Member("links", Field::Links(&seen.path.links)),
            Member("by", Field::OriginWord(seen.origin)),
            Member("step", Field::OriginStep(seen.origin)),
            Member("ticket", Field::OriginTicket(seen.origin)),
            Member("least_ms_ago", Field::WholeOr(age.least_ms)),
            Member("most_ms_ago", Field::WholeOr(age.most_ms)),
        ],
        "left",
    )?;
    put_rows_or(alloc, writer, left)?;
    writer.end_object()?;
    Ok(())
}

/// Finds how long ago the step of a path was taken and what it left, and writes the path.
fn put_one_traced(
    alloc: Global,
    writer: &mut Writer,
    now_ms: u64,
    marks: &[Mark],
    residuals: &[ResidualRow],
    seen: &TracedPath,
) -> Result<(), AllocError>
    ensures before { writer.new.before ≡ writer.old.before }
    ensures written { OnOk result (writer.new.tokens ≡ writer.old.tokens
        ++ json_tokens (traced_json seen.now (age_of now_ms marks.now (origin_step seen.now.origin)) (left_by (origin_step seen.now.origin) residuals.now))) }
{
    let step = origin_step(seen.origin);
    let left = left_by(alloc, residuals, step)?;
    put_traced(alloc, writer, seen, age_of(now_ms, marks, step), &left)
}

fn put_each_traced(
    alloc: Global,
    writer: &mut Writer,
    now_ms: u64,
    marks: &[Mark],
    residuals: &[ResidualRow],
    paths: &[TracedPath],
) -> Result<(), AllocError>
    ensures before { writer.new.before ≡ writer.old.before }
    ensures written { OnOk result (writer.new.tokens ≡ writer.old.tokens ++ json_tokens (array (traced_items now_ms marks.now residuals.now paths.now))) }
{
    writer.begin_array()?;
    for seen in paths {
        put_one_traced(alloc, writer, now_ms, marks, residuals, seen)?;
    }
    writer.end_array()
}

fn put_origins(
    alloc: Global,
    writer: &mut Writer,
    now_ms: u64,
    marks: &[Mark],
    residuals: &[ResidualRow],
    seen: &LspOrigins,
) -> Result<(), AllocError>
    ensures before { writer.new.before ≡ writer.old.before }
    ensures written { OnOk result (writer.new.tokens ≡ writer.old.tokens ++ json_tokens (origins_json now_ms marks.now residuals.now seen.now)) }
{
    begin_with(
        alloc,
        writer,
        &[
            Member("peer", Field::Peer(seen.peer)),
            Member("plsp_id", Field::Plsp(seen.plsp)),
            Member("rolled_steps", Field::Whole(seen.rolled)),
            Member("first_step", Field::Whole(seen.first)),
        ],
        "paths",
    )?;
    put_each_traced(alloc, writer, now_ms, marks, residuals, &seen.paths)?;
    writer.end_object()?;
    Ok(())
}

fn put_origins_or(
    alloc: Global,
    writer: &mut Writer,
    now_ms: u64,
    marks: &[Mark],
    residuals: &[ResidualRow],
    seen: &Option<LspOrigins>,
) -> Result<(), AllocError>
    ensures before { writer.new.before ≡ writer.old.before }
    ensures written { OnOk result (writer.new.tokens ≡ writer.old.tokens ++ json_tokens (origins_or_null now_ms marks.now residuals.now seen.now)) }
{
    match seen {
        Some(seen) => put_origins(alloc, writer, now_ms, marks, residuals, seen),
        None => writer.null(),
    }
}

/// Adds what a step left of a link, to the line of its path or to a line of its own.
fn add_left(text: &mut String, is_first: bool, row: &ResidualRow) -> Result<(), AllocError> {
    if !is_first {
        text.push_str("\t\t\t\t\t\t")?;
    }
    let link = row.link;
    write!(text, "{link}\t")?;
    add_rate(text, row.before)?;
    text.push('\t')?;
    add_rate(text, row.after)?;
    text.push('\n')
}

/// Adds what the step by which a path came left of each of its links.
fn add_lefts(
    alloc: Global,
    text: &mut String,
    residuals: &[ResidualRow],
    step: Option<u64>,
) -> Result<(), AllocError> {
    let rows = left_by(alloc, residuals, step)?;
    if rows.is_empty() {
        return text.push_str("-\t-\t-\n");
    }
    for (place, row) in rows.iter().enumerate() {
        add_left(text, place == 0, row)?;
    }
    Ok(())
}

/// Adds by what a path came and how long ago, where a kept step says so.
fn add_traced(
    text: &mut String,
    now_ms: u64,
    marks: &[Mark],
    unknown: &str,
    seen: &TracedPath,
) -> Result<(), AllocError> {
    add_part(text, &seen.path)?;
    add_numbers(text, seen.path.links.as_slice())?;
    match (origin_word(seen.origin), origin_step(seen.origin)) {
        (Some(word), Some(step)) => write!(text, "\t{word}\t{step}\t")?,
        _ => write!(text, "\t{unknown}\t-\t")?,
    }
    match origin_ticket(seen.origin) {
        Some(ticket) => write!(text, "{ticket}\t")?,
        None => text.push_str("-\t")?,
    }
    let age = age_of(now_ms, marks, origin_step(seen.origin));
    add_ago(text, age.least_ms)?;
    text.push('\t')
}

/// Says of a path that came by none of the steps that were read where it came from: from a step that is rolled away, or
/// from an older one.
fn word_of_unknown(seen: &LspOrigins) -> &'static str {
    if seen.first == seen.rolled {
        "rolled"
    } else {
        "older"
    }
}

/// By which kept steps the paths of an LSP came.
#[derive(Clone, Copy)]
pub struct Why(pub LspId);

impl Look for Why {
    ghost use Rattle.pce_view.specs.Origins.{SeesOrigins};

    type Seen = Option<LspOrigins>;

    ghost sees = { λ q d seen. SeesOrigins q.0.peer q.0.plsp d seen };

    fn see(&self, alloc: Global, database: &Database) -> Result<Option<LspOrigins>, AllocError> {
        see_origins(alloc, database, self.0.peer, self.0.plsp)
    }
}

impl Question for Why {
    ghost use Rattle.pce_view.specs.Why.{ReadsWhy};

    ghost reads = { λ _ info _ seen text. ReadsWhy info seen text };

    fn json(
        &self,
        alloc: Global,
        info: &ServerInfo<'_>,
        _heard: &Heard,
        seen: &Option<LspOrigins>,
    ) -> Result<Vec<u8>, AllocError> {
        let (now_ms, marks, residuals) = (info.uptime_ms, info.marks, info.residuals);
        let mut writer = Writer::new(Vec::new(alloc));
        put_origins_or(alloc, &mut writer, now_ms, marks, residuals, seen)?;
        Ok(closed(writer))
    }

    fn rows(
        &self,
        alloc: Global,
        text: &mut String,
        info: &ServerInfo<'_>,
        _heard: &Heard,
        seen: &Option<LspOrigins>,
    ) -> Result<(), AllocError> {
        let Some(seen) = seen else {
            return text.push_str("no such LSP\n");
        };
        text.push_str(
            "PATH\tLINKS\tBY\tSTEP\tTICKET\tAGO\tLINK\tUNRESERVED BEFORE\tUNRESERVED AFTER\n",
        )?;
        let (now_ms, unknown) = (info.uptime_ms, word_of_unknown(seen));
        for path in &seen.paths {
            add_traced(text, now_ms, info.marks, unknown, path)?;
            add_lefts(alloc, text, info.residuals, origin_step(path.origin))?;
        }
        Ok(())
    }

    fn next(&self, _seen: &Option<LspOrigins>) -> Option<Ask> {
        None
    }
}
