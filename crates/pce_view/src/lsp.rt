//! `lsp PEER PLSP`: one LSP, and what its router says of it.
ghost use Rattle.std.specs.Prelude.{◌≡◌, ◌<◌, Some, option_map, IfOk, ◌++◌, OnOk};
ghost use Rattle.pce_seen.specs.Gaps.{placed};
ghost use Rattle.json.specs.Tree.{json_tokens};
ghost use Rattle.pce_view.specs.States.{path_notes, word_on};
ghost use Rattle.pce_view.specs.Lsp.{lsp_or_null};

use crate::closing::closed;
use crate::columns::add_part;
use crate::heard::{Heard, Said};
use crate::lsps::{LSP_HEAD, add_lsp, put_lsp};
use crate::notes::{LspNotes, PathNotes, gap_at, lsp_notes, path_notes};
use crate::question::{Question, ServerInfo};
use crate::states::word_on;
use crate::words::{lsp_error_word, operational_word};
use asks::{Ask, LspId};
use database_looks::Look;
use error_words::error_words;
use history_core::Database;
use json::Writer;
use lsp_base::Path;
use pce_seen::{KnownLsp, PlacedLsp, lsp_of, placed};
use server_rules::PcErr;
use std::alloc::{AllocError, Global};
use std::fmt::Write;
use te_base::TeBase;

/// Joins an LSP, if there is one, with where the routes of its paths have gaps.
fn placed_or_none(
    alloc: Global,
    te: &TeBase,
    lsp: Option<KnownLsp>,
) -> Result<Option<PlacedLsp>, AllocError>
    ensures { IfOk result (λ seen. seen ≡ option_map (placed te.now) lsp) }
{
    match lsp {
        Some(lsp) => Ok(Some(placed(alloc, te, lsp)?)),
        None => Ok(None),
    }
}

fn put_lsp_or(
    alloc: Global,
    writer: &mut Writer,
    heard: &Heard,
    seen: &Option<PlacedLsp>,
) -> Result<(), AllocError>
    ensures before { writer.new.before ≡ writer.old.before }
    ensures written { OnOk result (writer.new.tokens ≡ writer.old.tokens ++ json_tokens (lsp_or_null heard.now seen.now)) }
{
    match seen {
        Some(placed) => put_lsp(alloc, writer, heard, placed.gaps.as_slice(), &placed.lsp),
        None => writer.null(),
    }
}

/// Adds why a path is in the state in which its router reports it.
fn add_reason(text: &mut String, notes: &PathNotes) -> Result<(), AllocError> {
    if let Some(code) = notes.error_code {
        let word = lsp_error_word(code);
        write!(text, ": {word} (LSP-ERROR-CODE {code})")?;
    }
    if let (Some(node), Some(code), Some(value)) = (
        notes.rsvp_node,
        notes.rsvp_code,
        notes.rsvp_value,
    ) {
        write!(text, ", RSVP error at {node}: code {code}, value {value}")?;
    }
    Ok(())
}

/// Adds where a path has a gap.
fn add_gap(text: &mut String, path: &Path, notes: &PathNotes) -> Result<(), AllocError> {
    let (word, link) = match (notes.gap_before, notes.gap_after) {
        (Some(link), _) => ("before", link),
        (None, Some(link)) => ("after", link),
        (None, None) => return Ok(()),
    };
    add_part(text, path)?;
    writeln!(text, "partly placed: no link {word} link {link}")
}

/// Adds in which state a router reports a path, and why.
fn add_said(text: &mut String, path: &Path, notes: &PathNotes) -> Result<(), AllocError> {
    let Some(operational) = notes.operational else {
        return Ok(());
    };
    add_part(text, path)?;
    text.push_str(operational_word(operational))?;
    add_reason(text, notes)?;
    text.push('\n')
}

/// Adds what a router says of a path, and where the path has a gap.
fn add_path_notes(text: &mut String, path: &Path, notes: &PathNotes) -> Result<(), AllocError> {
    add_said(text, path, notes)?;
    add_gap(text, path, notes)
}

/// Adds by which PCErr a router last refused what was asked of an LSP.
fn add_refusal(text: &mut String, error: Option<PcErr>) -> Result<(), AllocError> {
    let Some(PcErr { kind, value }) = error else {
        return Ok(());
    };
    let words = error_words(kind, value);
    writeln!(text, "refused\tPCErr {kind}/{value}, {words}")
}

/// Adds what routers say of an LSP, a line for each path, and of what was asked of it.
fn add_notes(
    text: &mut String,
    heard: &Heard,
    notes: LspNotes,
    placed: &PlacedLsp,
) -> Result<(), AllocError> {
    text.push('\x0c')?;
    for (place, path) in placed.lsp.paths.as_slice().iter().enumerate() {
        let gap = gap_at(placed.gaps.as_slice(), place);
        add_path_notes(text, path, &path_notes(word_on(&heard.words, path), gap))?;
    }
    add_refusal(text, notes.refusal)
}

/// One LSP, and what its router says of it.
#[derive(Clone, Copy)]
pub struct Lsp(pub LspId);

impl Look for Lsp {
    ghost use Rattle.pce_view.specs.Lsp.{SeesLsp};

    type Seen = Option<PlacedLsp>;

    ghost sees = { λ q d seen. SeesLsp q.0 d seen };

    fn see(&self, alloc: Global, database: &Database) -> Result<Option<PlacedLsp>, AllocError> {
        let lsp = lsp_of(alloc, database.state().lsps(), self.0.peer, self.0.plsp)?;
        placed_or_none(alloc, database.te_base(), lsp)
    }
}

impl Question for Lsp {
    ghost use Rattle.pce_view.specs.Lsp.{ReadsLsp};

    ghost reads = { λ _ _ heard seen text. ReadsLsp heard seen text };

    fn hear(
        &self,
        said: Said<'_>,
        seen: &Option<PlacedLsp>,
        heard: &mut Heard,
    ) -> Result<(), AllocError> {
        match seen {
            Some(placed) => heard.hear_lsp(said, &placed.lsp),
            None => Ok(()),
        }
    }

    fn json(
        &self,
        alloc: Global,
        _around: &ServerInfo<'_>,
        heard: &Heard,
        seen: &Option<PlacedLsp>,
    ) -> Result<Vec<u8>, AllocError> {
        let mut writer = Writer::new(Vec::new(alloc));
        put_lsp_or(alloc, &mut writer, heard, seen)?;
        Ok(closed(writer))
    }

    fn rows(
        &self,
        _alloc: Global,
        text: &mut String,
        _around: &ServerInfo<'_>,
        heard: &Heard,
        seen: &Option<PlacedLsp>,
    ) -> Result<(), AllocError> {
        match seen {
            Some(placed) => {
                let notes = lsp_notes(heard, &placed.lsp, placed.gaps.as_slice());
                text.push_str(LSP_HEAD)?;
                add_lsp(text, notes, &placed.lsp)?;
                add_notes(text, heard, notes, placed)
            }
            None => text.push_str("no such LSP\n"),
        }
    }

    fn next(&self, _seen: &Option<PlacedLsp>) -> Option<Ask> {
        None
    }
}
