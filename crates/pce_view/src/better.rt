//! `better`: delegated LSPs for which a cheaper path is admissible, in pages.
ghost use Rattle.std.specs.Prelude.{◌≡◌, IfOk, ◌++◌, Some, OnOk, ◌+◌, length, IfSome, IfNone};
ghost use Rattle.pce_view.specs.Better.{SeesMovable};
ghost use Rattle.json.specs.Tree.{json_tokens};
ghost use Rattle.json.specs.Json.{array, document};
ghost use Rattle.pce_view.specs.Better.{IsBetterText};
ghost use Rattle.pce_view.specs.Better.{better_items, better_json, better_page_json};
ghost use Rattle.pce_view.specs.Better.{IsBestAt, IsBestFor, IsBetterAt, IsBetterFor, IsListing, Listed};

use crate::closing::closed;
use crate::fields::{Field, Member, begin_with, put_object};
use crate::heard::Heard;
use crate::question::{Question, ServerInfo};
use asks::{Ask, PeerPage};
use database_looks::{Look, page_at, with_own};
use history_core::Database;
use json::Writer;
use path_looks::{Cheaper, cheaper_path};
use pce_seen::{KnownLsp, LspPage, RerouteInput};
use pcep_objects::Plsp;
use pcep_word::Ipv4;
use std::alloc::{AllocError, Global};
use std::fmt::Write;
use table_text::add_numbers;
use te_snapshot::{OwnShares, Snapshot};

fn movable(page: LspPage, seen: (Snapshot, Vec<OwnShares>)) -> RerouteInput
    ensures { result ≡ record { snapshot = seen.0; page = page; own = seen.1 } }
{
    let (snapshot, own) = seen;
    RerouteInput {
        snapshot,
        page,
        own,
    }
}

/// An LSP for which a cheaper path is admissible.
#[derive(Drop)]
pub(crate) struct BetterLsp {
    pub peer: u32,
    pub plsp: Plsp,
    pub cheaper: Cheaper,
}

/// Searches for a cheaper path of an LSP, where it is delegated.
fn better_for(
    alloc: Global,
    snapshot: &Snapshot,
    lsp: &KnownLsp,
    own: &OwnShares,
) -> Result<Option<BetterLsp>, AllocError>
    ensures better { IfOk result (λ found. IfSome found (IsBetterFor snapshot.now lsp.now own.now)) }
    ensures best { IfOk result (λ found. IfNone found (IsBestFor snapshot.now lsp.now own.now)) }
{
    if !lsp.known.lsp.delegated {
        return Ok(None);
    }
    let wanted = &lsp.known.lsp.constraints;
    match cheaper_path(alloc, snapshot, wanted, own, lsp.paths.as_slice())? {
        Some(cheaper) => Ok(Some(BetterLsp {
            peer: lsp.known.peer,
            plsp: lsp.known.plsp,
            cheaper,
        })),
        None => Ok(None),
    }
}

/// Searches for a cheaper path of the LSP at a place.
fn better_at(
    alloc: Global,
    seen: &RerouteInput,
    place: usize,
) -> Result<Option<BetterLsp>, AllocError>
    ensures better { IfOk result (λ found. IfSome found (IsBetterAt seen.now place)) }
    ensures best { IfOk result (λ found. IfNone found (IsBestAt seen.now place)) }
{
    match (seen.page.lsps.get(place), seen.own.get(place)) {
        (Some(lsp), Some(own)) => better_for(alloc, &seen.snapshot, lsp, own),
        _ => Ok(None),
    }
}

/// Adds the LSP at a place, where there is a cheaper path for it.
fn add_better_at(
    alloc: Global,
    seen: &RerouteInput,
    place: usize,
    found: &mut Vec<BetterLsp>,
) -> Result<(), AllocError>
    ensures { OnOk result (Listed seen.now place found.old.items → Listed seen.now (place + 1) found.new.items) }
{
    if let Some(better) = better_at(alloc, seen, place)? {
        found.push(better)?;
    }
    Ok(())
}

/// Searches for a cheaper path of each LSP.
fn each_better(alloc: Global, seen: &RerouteInput) -> Result<Vec<BetterLsp>, AllocError>
    ensures { IfOk result (λ found. Listed seen.now (length (seen.now.page).lsps.items) found.items) }
{
    let mut found = Vec::new(alloc);
    for place in 0..seen.page.lsps.len() {
        add_better_at(alloc, seen, place, &mut found)?;
    }
    Ok(found)
}

/// Lists the delegated LSPs for which a cheaper path is admissible, those that gain most first.
pub(crate) fn better_of(alloc: Global, seen: &RerouteInput) -> Result<Vec<BetterLsp>, AllocError>
    ensures { IfOk result (λ found. IsListing seen.now found.items) }
{
    let mut found = each_better(alloc, seen)?;
    found.sort_by_key(|better| {
        u64::MAX
            - better
                .cheaper
                .standing
                .saturating_sub(better.cheaper.path.cost)
    })?;
    Ok(found)
}

#[tactic(auto, unfolding(crate::specs::Better::better_json))]
fn put_better(alloc: Global, writer: &mut Writer, better: &BetterLsp) -> Result<(), AllocError>
    ensures before { writer.new.before ≡ writer.old.before }
    ensures written { OnOk result (writer.new.tokens ≡ writer.old.tokens ++ json_tokens (better_json better.now)) }
{
    put_object(
        alloc,
        writer,
        &[
            Member("peer", Field::Peer(better.peer)),
            Member("plsp_id", Field::Plsp(better.plsp)),
            Member("cost", Field::Whole(better.cheaper.standing)),
            Member("better_cost", Field::Whole(better.cheaper.path.cost)),
            Member("links", Field::Links(&better.cheaper.path.links)),
        ],
    )
}

fn put_each_better(
    alloc: Global,
    writer: &mut Writer,
    found: &[BetterLsp],
) -> Result<(), AllocError>
    ensures before { writer.new.before ≡ writer.old.before }
    ensures written { OnOk result (writer.new.tokens ≡ writer.old.tokens ++ json_tokens (array (better_items found.now))) }
{
    writer.begin_array()?;
    for better in found {
        put_better(alloc, writer, better)?;
    }
    writer.end_array()
}

fn put_better_page(
    alloc: Global,
    writer: &mut Writer,
    from: u64,
    page: &LspPage,
    found: &[BetterLsp],
) -> Result<(), AllocError>
    ensures before { writer.new.before ≡ writer.old.before }
    ensures written { OnOk result (writer.new.tokens ≡ writer.old.tokens ++ json_tokens (better_page_json from page.now found.now)) }
{
    begin_with(
        alloc,
        writer,
        &[
            Member("from", Field::Whole(from)),
            Member("next", Field::WholeOr(page.next)),
            Member("steps", Field::Whole(page.steps)),
        ],
        "better",
    )?;
    put_each_better(alloc, writer, found)?;
    writer.end_object()?;
    Ok(())
}

/// Writes the LSPs of a page for which a cheaper path is admissible.
fn better_page_text(
    alloc: Global,
    from: u64,
    page: &LspPage,
    found: &[BetterLsp],
) -> Result<Vec<u8>, AllocError>
    ensures { IfOk result (λ text. document text.items ≡ Some (better_page_json from page.now found.now)) }
{
    let mut writer = Writer::new(Vec::new(alloc));
    put_better_page(alloc, &mut writer, from, page, found)?;
    Ok(closed(writer))
}

fn add_better_lsp(text: &mut String, better: &BetterLsp) -> Result<(), AllocError> {
    let peer = Ipv4(better.peer);
    let plsp = better.plsp.number();
    let cost = better.cheaper.standing;
    let less = better.cheaper.path.cost;
    write!(text, "{peer}\t{plsp}\t{cost}\t{less}\t")?;
    add_numbers(text, better.cheaper.path.links.as_slice())?;
    text.push('\n')
}

/// A page of delegated LSPs for which a cheaper path is admissible.
#[derive(Clone, Copy)]
pub struct Better(pub PeerPage);

impl Look for Better {
    ghost use Rattle.pce_view.specs.Better.{SeesMovable};

    type Seen = RerouteInput;

    ghost sees = { λ q d seen. SeesMovable q.0.peer q.0.from d seen };

    fn see(&self, alloc: Global, database: &Database) -> Result<RerouteInput, AllocError> {
        let page = page_at(alloc, database, self.0.peer, self.0.from)?;
        match with_own(alloc, database, &page.lsps) {
            Ok(seen) => Ok(movable(page, seen)),
            Err(error) => {
                drop(page);
                Err(error)
            }
        }
    }
}

impl Question for Better {
    ghost use Rattle.pce_view.specs.Better.{next_better, IsBetterText};

    ghost reads = { λ q _ _ seen text. IsBetterText q.0.from seen text };

    ghost followed_by = { λ q seen. next_better q.0 seen };

    fn json(
        &self,
        alloc: Global,
        _around: &ServerInfo<'_>,
        _heard: &Heard,
        seen: &RerouteInput,
    ) -> Result<Vec<u8>, AllocError> {
        let found = better_of(alloc, seen)?;
        better_page_text(alloc, self.0.from, &seen.page, &found)
    }

    fn rows(
        &self,
        alloc: Global,
        text: &mut String,
        _around: &ServerInfo<'_>,
        _heard: &Heard,
        seen: &RerouteInput,
    ) -> Result<(), AllocError> {
        if self.0.from == 0 {
            text.push_str("PEER\tPLSP\tCOST\tBETTER\tLINKS\n")?;
        }
        let found = better_of(alloc, seen)?;
        for better in &found {
            add_better_lsp(text, better)?;
        }
        Ok(())
    }

    fn next(&self, seen: &RerouteInput) -> Option<Ask> {
        match seen.page.next {
            Some(from) => Some(Ask::Better(PeerPage { from, ..self.0 })),
            None => None,
        }
    }
}
