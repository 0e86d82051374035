//! Cells that the tables for people share.

use crate::fields::{lsp_id, srp_id};
use lsp_base::Path;
use pcep_word::{Ipv4, Priorities};
use std::alloc::AllocError;
use std::fmt::Write;
use table_text::{add_duration, add_name};

pub(crate) fn yes(flag: bool) -> &'static str {
    if flag { "yes" } else { "-" }
}

/// Adds how long ago that was, or a dash.
pub(crate) fn add_ago(text: &mut String, ms_ago: Option<u64>) -> Result<(), AllocError> {
    match ms_ago {
        Some(ms_ago) => add_duration(text, ms_ago),
        None => text.push('-'),
    }
}

/// Adds the address of an end, or a dash.
pub(crate) fn add_end(text: &mut String, end: Option<Ipv4>) -> Result<(), AllocError> {
    match end {
        Some(end) => write!(text, "{end}\t"),
        None => text.push_str("-\t"),
    }
}

/// Adds the priorities from setup to holding.
pub(crate) fn add_priorities(text: &mut String, priorities: Priorities) -> Result<(), AllocError> {
    let setup = priorities.setup().number();
    let hold = priorities.hold().number();
    write!(text, "{setup}/{hold}\t")
}

pub(crate) fn add_number(text: &mut String, number: Option<u64>) -> Result<(), AllocError> {
    match number {
        Some(number) => write!(text, "{number}"),
        None => text.push('-'),
    }
}

/// Adds the names of the nodes at a link's ends.
pub(crate) fn add_ends(text: &mut String, from: &str, to: &str) -> Result<(), AllocError> {
    add_name(text, from.as_bytes())?;
    text.push('\t')?;
    add_name(text, to.as_bytes())?;
    text.push('\t')
}

/// Adds which of an LSP's paths a path is: `lsp N` of a reported one, `srp N` of a granted one.
pub(crate) fn add_part(text: &mut String, path: &Path) -> Result<(), AllocError> {
    match (lsp_id(path.part), srp_id(path.part)) {
        (Some(id), _) => write!(text, "lsp {id}\t"),
        (None, Some(srp)) => write!(text, "srp {srp}\t"),
        (None, None) => text.push_str("-\t"),
    }
}
