//! The row of each table: its cells, with a tab between two, and a line's end.
ghost use Rattle.std.specs.Prelude.{◌≡◌, map, IfOk};
ghost use Rattle.serde_json.specs.View.{view};
ghost use Rattle.table_text.specs.Adding.{Adds};
ghost use Rattle.watch_board.specs.Rows.{cell, duration_cell, grant_row, is_up, link_row, lsp_cell, number_of, number_words, peer_row, session_word, share_cells, step_row, text_cell, whole_cell};

use crate::members::{flag_in, number_in, text_in, whole_in};
use crate::shares::LinkShare;
use serde_json::Value;
use std::alloc::{AllocError, Global};
use std::fmt::Write;
use table_text::{add_duration, add_name, add_numbers, add_percent, add_rate};

/// Adds a text as a terminal can show it, or a dash if there is none.
fn add_cell(text: &mut String, word: &str) -> Result<(), AllocError>
    ensures { Adds result text.old text.new (cell word.now) }
{
    if word.is_empty() {
        return text.push_str("-");
    }
    add_name(text, word.as_bytes())
}

/// Adds a text of a document as a terminal can show it.
pub(crate) fn add_text(text: &mut String, value: &Value, name: &str) -> Result<(), AllocError>
    ensures { Adds result text.old text.new (text_cell name.now (view value.now)) }
{
    add_cell(text, text_in(value, name))
}

/// Adds a number of a document.
pub(crate) fn add_whole(text: &mut String, value: &Value, name: &str) -> Result<(), AllocError>
    ensures { Adds result text.old text.new (whole_cell name.now (view value.now)) }
{
    let number = whole_in(value, name);
    write!(text, "{number}")
}

/// Adds a duration, or a dash if it isn't known.
fn add_time(text: &mut String, value: &Value, name: &str) -> Result<(), AllocError>
    ensures { Adds result text.old text.new (duration_cell name.now (view value.now)) }
{
    match number_in(value, name) {
        Some(ms) => add_duration(text, ms),
        None => text.push_str("-"),
    }
}

/// Adds how much of a link is reserved and what is left of it, the last cells of its row.
fn add_share(text: &mut String, share: &LinkShare) -> Result<(), AllocError>
    ensures { Adds result text.old text.new (share_cells share.now) }
{
    add_percent(text, share.reservable, share.left)?;
    text.push_str("\t")?;
    add_rate(text, share.left)?;
    text.push_str("\n")
}

/// Adds the row of a link.
pub(crate) fn add_link(text: &mut String, link: &Value, share: &LinkShare) -> Result<(), AllocError>
    ensures { Adds result text.old text.new (link_row (view link.now) share.now) }
{
    add_whole(text, link, "link")?;
    text.push_str("\t")?;
    add_text(text, link, "from")?;
    text.push_str("\t")?;
    add_text(text, link, "to")?;
    text.push_str("\t")?;
    add_text(text, link, "local_address")?;
    text.push_str("\t")?;
    add_share(text, share)
}

fn session_word(is_up: bool) -> &'static str
    ensures { result.now ≡ session_word is_up }
{
    if is_up { "up" } else { "down" }
}

/// Tests whether the session of a router is up.
pub(crate) fn is_up(peer: &Value) -> bool
    ensures { result ≡ is_up (view peer.now) }
{
    flag_in(peer, "is_up")
}

/// Adds the row of a router.
pub(crate) fn add_peer(text: &mut String, peer: &Value) -> Result<(), AllocError>
    ensures { Adds result text.old text.new (peer_row (view peer.now)) }
{
    add_text(text, peer, "peer")?;
    text.push_str("\t")?;
    text.push_str(session_word(is_up(peer)))?;
    text.push_str("\t")?;
    add_time(text, peer, "since_ms_ago")?;
    text.push_str("\t")?;
    add_whole(text, peer, "lsps")?;
    text.push_str("\t")?;
    add_whole(text, peer, "delegated_lsps")?;
    text.push_str("\t")?;
    add_text(text, peer, "last_end_reason")?;
    text.push_str("\n")
}

/// Adds the name of an LSP if it has no PLSP-ID yet, else the PLSP-ID.
fn add_lsp(text: &mut String, name: &str, plsp: u64) -> Result<(), AllocError>
    ensures { Adds result text.old text.new (lsp_cell name.now plsp) }
{
    if plsp == 0 {
        return add_cell(text, name);
    }
    write!(text, "{plsp}")
}

fn number_of(value: &Value) -> usize
    ensures { result ≡ number_of (view value.now) }
{
    value.as_u64().unwrap_or(0) as usize
}

fn numbers_of(alloc: Global, values: &[Value]) -> Result<Vec<usize>, AllocError>
    ensures { IfOk result (λ numbers. numbers.items ≡ map number_of (map view values.now)) }
{
    let mut numbers = Vec::with_capacity(alloc, values.len())?;
    for value in values {
        numbers.push(number_of(value))?;
    }
    Ok(numbers)
}

/// Adds the row of a grant over these links.
pub(crate) fn add_grant(
    alloc: Global,
    text: &mut String,
    links: &[Value],
    grant: &Value,
) -> Result<(), AllocError>
    ensures { Adds result text.old text.new (grant_row (map view links.now) (view grant.now)) }
{
    let numbers = numbers_of(alloc, links)?;
    add_text(text, grant, "peer")?;
    text.push_str("\t")?;
    add_whole(text, grant, "srp_id")?;
    text.push_str("\t")?;
    add_lsp(text, text_in(grant, "name"), whole_in(grant, "plsp_id"))?;
    text.push_str("\t")?;
    add_time(text, grant, "unanswered_ms")?;
    text.push_str("\t")?;
    add_numbers(text, &numbers)?;
    text.push_str("\n")
}

/// Adds a number after a space, if there is one.
fn add_number(text: &mut String, number: Option<u64>) -> Result<(), AllocError>
    ensures { Adds result text.old text.new (number_words number) }
{
    match number {
        Some(number) => write!(text, " {number}"),
        None => Ok(()),
    }
}

/// Adds the row of a step.
pub(crate) fn add_step(text: &mut String, step: &Value) -> Result<(), AllocError>
    ensures { Adds result text.old text.new (step_row (view step.now)) }
{
    add_whole(text, step, "step")?;
    text.push_str("\t")?;
    add_text(text, step, "event")?;
    text.push_str("\t")?;
    add_text(text, step, "peer")?;
    text.push_str("\t")?;
    add_text(text, step, "outcome")?;
    add_number(text, number_in(step, "number"))?;
    text.push_str("\n")
}
