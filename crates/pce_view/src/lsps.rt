//! `lsps`: LSPs with their paths, in pages.
ghost use Rattle.std.specs.Prelude.{◌≡◌, ◌<◌, Some, ◌++◌, OnOk};
ghost use Rattle.pce_seen.specs.Gaps.{placed};
ghost use Rattle.pce_view.specs.Lsps.{SeesLsps};
ghost use Rattle.json.specs.Tree.{json_tokens};
ghost use Rattle.json.specs.Json.{array};
ghost use Rattle.pce_view.specs.States.{path_notes, word_on};
ghost use Rattle.pce_view.specs.Lsps.{lsp_items, lsp_json, noted_lsp_json, page_json, path_items, path_json};

use crate::closing::closed;
use crate::columns::{add_end, add_part, add_priorities};
use crate::fields::{Field, Member, begin_with, lsp_id, put_object, srp_id};
use crate::heard::{Heard, Said};
use crate::notes::{LspNotes, PathNotes, gap_at, gaps_at, lsp_notes, path_notes};
use crate::question::{Question, ServerInfo};
use crate::states::word_on;
use crate::words::state_word;
use asks::{Ask, PeerPage};
use database_looks::{Look, page_at};
use history_core::Database;
use json::Writer;
use lsp_base::{Lsp, Path};
use pce_seen::{Gap, KnownLsp, PlacedPage, gaps_of_each, placed};
use pcep_objects::Plsp;
use pcep_word::Ipv4;
use sequence::Sequence;
use server_rules::PathWords;
use std::alloc::{AllocError, Global};
use std::fmt::Write;
use table_text::{add_name, add_numbers, add_rate};

#[tactic(auto, unfolding(crate::specs::Lsps::path_json))]
fn put_noted_path(
    alloc: Global,
    writer: &mut Writer,
    notes: PathNotes,
    path: &Path,
) -> Result<(), AllocError>
    ensures before { writer.new.before ≡ writer.old.before }
    ensures written { OnOk result (writer.new.tokens ≡ writer.old.tokens ++ json_tokens (path_json notes path.now)) }
{
    put_object(
        alloc,
        writer,
        &[
            Member("lsp_id", Field::LspId(path.part)),
            Member("srp_id", Field::SrpId(path.part)),
            Member("is_granted", Field::IsGranted(path.part)),
            Member("is_fresh", Field::Flag(path.fresh)),
            Member("hold_priority", Field::Level(path.hold)),
            Member("bandwidth_bytes_per_second", Field::Rate(path.bandwidth)),
            Member("links", Field::Links(&path.links)),
            Member("state", Field::StateOfPath(notes.operational)),
            Member("error_code", Field::WholeOr(notes.error_code)),
            Member("error", Field::LspError(notes.error_code)),
            Member("rsvp_error_node", Field::AddressOr(notes.rsvp_node)),
            Member("rsvp_error_code", Field::WholeOr(notes.rsvp_code)),
            Member("rsvp_error_value", Field::WholeOr(notes.rsvp_value)),
            Member("gap_before_link", Field::WholeOr(notes.gap_before)),
            Member("gap_after_link", Field::WholeOr(notes.gap_after)),
        ],
    )
}

/// Writes a path with its gap, and with what its router says of it.
fn put_path(
    alloc: Global,
    writer: &mut Writer,
    words: &PathWords,
    gap: Option<Gap>,
    path: &Path,
) -> Result<(), AllocError>
    ensures before { writer.new.before ≡ writer.old.before }
    ensures written { OnOk result (writer.new.tokens ≡ writer.old.tokens ++ json_tokens (path_json (path_notes (word_on words.now path.now) gap) path.now)) }
{
    let notes = path_notes(word_on(words, path), gap);
    put_noted_path(alloc, writer, notes, path)
}

fn put_paths(
    alloc: Global,
    writer: &mut Writer,
    words: &PathWords,
    gaps: &[Option<Gap>],
    paths: &[Path],
) -> Result<(), AllocError>
    ensures before { writer.new.before ≡ writer.old.before }
    ensures written { OnOk result (writer.new.tokens ≡ writer.old.tokens ++ json_tokens (array (path_items words.now gaps.now 0 paths.now))) }
{
    writer.begin_array()?;
    for (place, path) in paths.iter().enumerate() {
        put_path(alloc, writer, words, gap_at(gaps, place), path)?;
    }
    writer.end_array()
}

fn put_noted_lsp(
    alloc: Global,
    writer: &mut Writer,
    notes: LspNotes,
    words: &PathWords,
    gaps: &[Option<Gap>],
    seen: &KnownLsp,
) -> Result<(), AllocError>
    ensures before { writer.new.before ≡ writer.old.before }
    ensures written { OnOk result (writer.new.tokens ≡ writer.old.tokens ++ json_tokens (noted_lsp_json notes words.now gaps.now seen.now)) }
{
    let lsp = &seen.known.lsp;
    let asked = &lsp.constraints;
    begin_with(
        alloc,
        writer,
        &[
            Member("peer", Field::Peer(seen.known.peer)),
            Member("plsp_id", Field::Plsp(seen.known.plsp)),
            Member("name", Field::Name(&lsp.name)),
            Member("name_hex", Field::Hex(&lsp.name)),
            Member("is_delegated", Field::Flag(lsp.delegated)),
            Member("is_created", Field::Flag(lsp.created)),
            Member("is_removing", Field::IsThere(lsp.removing)),
            Member("is_down", Field::IsDown(&seen.paths)),
            Member("state", Field::State(notes.state)),
            Member("is_partly_placed", Field::Flag(notes.is_partly_placed)),
            Member("setup_priority", Field::Setup(asked.priorities)),
            Member("hold_priority", Field::Hold(asked.priorities)),
            Member("bandwidth_bytes_per_second", Field::Rate(asked.bandwidth)),
            Member("source", Field::AddressOr(asked.source)),
            Member("destination", Field::AddressOr(asked.destination)),
            Member("refusal_type", Field::WholeOr(notes.refusal_type)),
            Member("refusal_value", Field::WholeOr(notes.refusal_value)),
            Member("refusal", Field::Refusal(notes.refusal)),
        ],
        "paths",
    )?;
    put_paths(alloc, writer, words, gaps, seen.paths.as_slice())?;
    writer.end_object()?;
    Ok(())
}

/// Writes an LSP whose paths have these gaps, with what its router says of it.
pub(crate) fn put_lsp(
    alloc: Global,
    writer: &mut Writer,
    heard: &Heard,
    gaps: &[Option<Gap>],
    seen: &KnownLsp,
) -> Result<(), AllocError>
    ensures before { writer.new.before ≡ writer.old.before }
    ensures written { OnOk result (writer.new.tokens ≡ writer.old.tokens ++ json_tokens (lsp_json heard.now gaps.now seen.now)) }
{
    let notes = lsp_notes(heard, seen, gaps);
    put_noted_lsp(alloc, writer, notes, &heard.words, gaps, seen)
}

fn put_lsps(
    alloc: Global,
    writer: &mut Writer,
    heard: &Heard,
    gaps: &[Sequence<Option<Gap>>],
    lsps: &[KnownLsp],
) -> Result<(), AllocError>
    ensures before { writer.new.before ≡ writer.old.before }
    ensures written { OnOk result (writer.new.tokens ≡ writer.old.tokens ++ json_tokens (array (lsp_items heard.now gaps.now 0 lsps.now))) }
{
    writer.begin_array()?;
    for (place, seen) in lsps.iter().enumerate() {
        put_lsp(alloc, writer, heard, gaps_at(gaps, place), seen)?;
    }
    writer.end_array()
}

fn put_page(
    alloc: Global,
    writer: &mut Writer,
    from: u64,
    heard: &Heard,
    placed: &PlacedPage,
) -> Result<(), AllocError>
    ensures before { writer.new.before ≡ writer.old.before }
    ensures written { OnOk result (writer.new.tokens ≡ writer.old.tokens ++ json_tokens (page_json from heard.now placed.now)) }
{
    begin_with(
        alloc,
        writer,
        &[
            Member("from", Field::Whole(from)),
            Member("next", Field::WholeOr(placed.page.next)),
            Member("steps", Field::Whole(placed.page.steps)),
        ],
        "lsps",
    )?;
    put_lsps(alloc, writer, heard, &placed.gaps, &placed.page.lsps)?;
    writer.end_object()?;
    Ok(())
}

/// Adds the words that hold, with a space between two.
fn add_words(text: &mut String, words: &[(bool, &str)]) -> Result<(), AllocError> {
    let mut gap = "";
    for (holds, word) in words {
        if *holds {
            text.push_str(gap)?;
            text.push_str(word)?;
            gap = " ";
        }
    }
    Ok(())
}

/// Adds what state an LSP is in.
fn add_state(
    text: &mut String,
    notes: LspNotes,
    lsp: &Lsp,
    paths: &[Path],
) -> Result<(), AllocError> {
    let state = state_word(notes.state);
    let is_stale = paths.iter().any(|path| !path.fresh);
    add_words(
        text,
        &[
            (state.is_some(), state.unwrap_or("")),
            (notes.is_partly_placed, "partly placed"),
            (lsp.delegated, "delegated"),
            (lsp.created, "created"),
            (lsp.removing.is_some(), "removing"),
            (is_stale, "stale"),
        ],
    )
}

/// Adds a path to the line of its LSP, or to a line of its own.
fn add_path(text: &mut String, is_first: bool, path: &Path) -> Result<(), AllocError> {
    if !is_first {
        text.push_str("\t\t\t\t\t\t\t\t")?;
    }
    add_part(text, path)?;
    add_numbers(text, path.links.as_slice())?;
    text.push('\n')
}

fn add_paths(text: &mut String, paths: &[Path]) -> Result<(), AllocError> {
    if paths.is_empty() {
        return text.push_str("-\t-\n");
    }
    for (place, path) in paths.iter().enumerate() {
        add_path(text, place == 0, path)?;
    }
    Ok(())
}

pub(crate) fn add_lsp(
    text: &mut String,
    notes: LspNotes,
    seen: &KnownLsp,
) -> Result<(), AllocError> {
    let peer = Ipv4(seen.known.peer);
    let plsp = seen.known.plsp.number();
    let lsp = &seen.known.lsp;
    write!(text, "{peer}\t{plsp}\t")?;
    add_name(text, lsp.name.as_slice())?;
    text.push('\t')?;
    add_state(text, notes, lsp, seen.paths.as_slice())?;
    text.push('\t')?;
    add_priorities(text, lsp.constraints.priorities)?;
    add_rate(text, lsp.constraints.bandwidth.value() as i64)?;
    text.push('\t')?;
    add_end(text, lsp.constraints.source)?;
    add_end(text, lsp.constraints.destination)?;
    add_paths(text, seen.paths.as_slice())
}

pub(crate) const LSP_HEAD: &str =
    "PEER\tPLSP\tNAME\tSTATE\tSETUP/HOLD\tBANDWIDTH\tFROM\tTO\tPATH\tLINKS\n";

/// A page of LSPs with their paths.
#[derive(Clone, Copy)]
pub struct Lsps(pub PeerPage);

impl Look for Lsps {
    ghost use Rattle.pce_view.specs.Lsps.{SeesLsps};

    type Seen = PlacedPage;

    ghost sees = { λ q d seen. SeesLsps q.0.peer q.0.from d seen };

    fn see(&self, alloc: Global, database: &Database) -> Result<PlacedPage, AllocError> {
        let page = page_at(alloc, database, self.0.peer, self.0.from)?;
        match gaps_of_each(alloc, database.te_base(), &page.lsps) {
            Ok(gaps) => Ok(PlacedPage { page, gaps }),
            Err(error) => {
                drop(page);
                Err(error)
            }
        }
    }
}

impl Question for Lsps {
    ghost use Rattle.pce_view.specs.Lsps.{next_lsps, ReadsLsps};

    ghost reads = { λ q _ heard seen text. ReadsLsps q.0 heard seen text };

    ghost followed_by = { λ q seen. next_lsps q.0 seen };

    fn hear(&self, said: Said<'_>, seen: &PlacedPage, heard: &mut Heard) -> Result<(), AllocError> {
        for lsp in &seen.page.lsps {
            heard.hear_lsp(said, lsp)?;
        }
        Ok(())
    }

    fn json(
        &self,
        alloc: Global,
        _around: &ServerInfo<'_>,
        heard: &Heard,
        seen: &PlacedPage,
    ) -> Result<Vec<u8>, AllocError> {
        let mut writer = Writer::new(Vec::new(alloc));
        put_page(alloc, &mut writer, self.0.from, heard, seen)?;
        Ok(closed(writer))
    }

    fn rows(
        &self,
        _alloc: Global,
        text: &mut String,
        _around: &ServerInfo<'_>,
        heard: &Heard,
        seen: &PlacedPage,
    ) -> Result<(), AllocError> {
        if self.0.from == 0 {
            text.push_str(LSP_HEAD)?;
        }
        for (place, lsp) in seen.page.lsps.iter().enumerate() {
            let notes = lsp_notes(heard, lsp, gaps_at(&seen.gaps, place));
            add_lsp(text, notes, lsp)?;
        }
        Ok(())
    }

    fn next(&self, seen: &PlacedPage) -> Option<Ask> {
        match seen.page.next {
            Some(from) => Some(Ask::Lsps(PeerPage { from, ..self.0 })),
            None => None,
        }
    }
}
