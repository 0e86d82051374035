//! LSPs taken out of the LSP-DB.
ghost use Rattle.std.specs.Prelude.{◌≡◌, ◌<◌, ◌≤◌, ◌++◌, ◌∷◌, [], length, map, filter, take, drop, IfOk, OnOk, IfSome, IfNone};
ghost use Rattle.lsp_base.specs.Lsps.{is_path_of};
ghost use Rattle.lsp_base.specs.Shares.{has_link};
ghost use Rattle.pce_seen.specs.Lsps.{held_on, held_path, is_asked, known_lsp, lsp_in, IsPage};

use crate::lsps::{HeldPath, KnownLsp, LspPage};
use crate::paging::{full_at, items_from};
use keyed_list::Test;
use lsp_base::{Lsp, LspBase, Path, Record, is_path_of_lsp};
use lsp_words::Plsp;
use sequence::{PlainData, Sequence};
use std::alloc::{AllocError, Global};
use te_base::LinkNumber;

/// Tests whether a path is one of an LSP.
#[derive(Drop)]
struct PathOf {
    peer: u32,
    plsp: Plsp,
}

impl Test<Path> for PathOf {
    ghost use Rattle.lsp_base.specs.Lsps.{is_path_of};

    ghost passes = { λ s x. is_path_of s.peer s.plsp x };

    fn passes(&self, path: &Path) -> bool {
        is_path_of_lsp(path, self.peer, self.plsp)
    }
}

/// Copies the paths of an LSP, in their order.
#[tactic(auto, using(crate::proofs::Pages::picks_own))]
pub fn paths_of(
    alloc: Global,
    lsps: &LspBase,
    peer: u32,
    plsp: Plsp,
) -> Result<Sequence<Path>, AllocError>
    ensures { IfOk result (λ paths. paths ≡ filter (is_path_of peer plsp) lsps.now.content.paths) }
{
    let paths = lsps.paths_of_lsp(alloc, peer, plsp, &PathOf { peer, plsp })?;
    Ok(Sequence::from_vec(paths))
}

/// Copies an LSP with its paths.
pub(crate) fn copy_lsp(
    alloc: Global,
    lsps: &LspBase,
    known: &Record,
) -> Result<KnownLsp, AllocError>
    ensures { IfOk result (λ seen. seen ≡ known_lsp lsps.now.content.paths known.now) }
{
    let paths = paths_of(alloc, lsps, known.peer, known.plsp)?;
    match known.copy() {
        Ok(known) => Ok(KnownLsp { known, paths }),
        Err(error) => {
            drop(paths);
            Err(error)
        }
    }
}

/// Copies what is known about an LSP.
fn copy_record(peer: u32, plsp: Plsp, lsp: &Lsp) -> Result<Record, AllocError>
    ensures { IfOk result (λ known. known ≡ record { peer = peer; plsp = plsp; lsp = lsp.now }) }
{
    Ok(Record {
        peer,
        plsp,
        lsp: lsp.copy()?,
    })
}

/// Sees one LSP, if there is one.
pub fn lsp_of(
    alloc: Global,
    lsps: &LspBase,
    peer: u32,
    plsp: Plsp,
) -> Result<Option<KnownLsp>, AllocError>
    ensures { IfOk result (λ seen. seen ≡ lsp_in lsps.now.content peer plsp) }
{
    let Some(lsp) = lsps.lsp(peer, plsp) else {
        return Ok(None);
    };
    let paths = paths_of(alloc, lsps, peer, plsp)?;
    match copy_record(peer, plsp, lsp) {
        Ok(known) => Ok(Some(KnownLsp { known, paths })),
        Err(error) => {
            drop(paths);
            Err(error)
        }
    }
}

/// Tests whether an LSP is one of the peer; if no peer is named, any LSP is.
fn is_asked(peer: Option<u32>, known: &Record) -> bool
    ensures { result ≡ is_asked peer known.now }
{
    match peer {
        Some(peer) => known.peer == peer,
        None => true,
    }
}

/// Tests whether an LSP is asked for.
#[derive(Clone, Copy)]
struct Asked {
    peer: Option<u32>,
}

impl Test<Record> for Asked {
    ghost use Rattle.pce_seen.specs.Lsps.{is_asked};

    ghost passes = { λ s r. is_asked s.peer r };

    fn passes(&self, known: &Record) -> bool {
        is_asked(self.peer, known)
    }
}

/// Adds an LSP with its paths, if it is asked for.
fn add_asked(
    alloc: Global,
    seen: &mut Vec<KnownLsp>,
    lsps: &LspBase,
    peer: Option<u32>,
    known: &Record,
) -> Result<(), AllocError>
    ensures { OnOk result (seen.new.items ≡ seen.old.items ++ map (known_lsp lsps.now.content.paths) (filter (is_asked peer) (known.now ∷ []))) }
{
    if is_asked(peer, known) {
        seen.push(copy_lsp(alloc, lsps, known)?)?;
    }
    Ok(())
}

/// Copies the LSPs of these records that are asked for, with their paths.
fn copy_asked(
    alloc: Global,
    lsps: &LspBase,
    peer: Option<u32>,
    records: &[Record],
) -> Result<Vec<KnownLsp>, AllocError>
    ensures { IfOk result (λ seen. seen.items ≡ map (known_lsp lsps.now.content.paths) (filter (is_asked peer) records.now)) }
{
    let mut seen = Vec::new(alloc);
    for known in records {
        add_asked(alloc, &mut seen, lsps, peer, known)?;
    }
    Ok(seen)
}

/// Sees a page of LSPs, of one peer or of all, from the record at this place on.
pub fn page_of(
    alloc: Global,
    lsps: &LspBase,
    steps: u64,
    peer: Option<u32>,
    from: u64,
) -> Result<LspPage, AllocError>
    ensures page { IfOk result (λ page. IsPage lsps.now.content peer from page) }
    ensures steps { IfOk result (λ page. page.steps ≡ steps) }
{
    let records = items_from(lsps.records(), from);
    match full_at(records, &Asked { peer }) {
        Some(size) => Ok(LspPage {
            steps,
            lsps: copy_asked(alloc, lsps, peer, &records[..size])?,
            next: Some(from + size as u64),
        }),
        None => Ok(LspPage {
            steps,
            lsps: copy_asked(alloc, lsps, peer, records)?,
            next: None,
        }),
    }
}

/// Tests whether a path goes over a link.
pub(crate) fn is_path_over(path: &Path, link: LinkNumber) -> bool
    ensures { result ≡ has_link link path.now }
{
    path.links.as_slice().iter().any(|number| *number == link)
}

/// Returns what a path holds on each of its links.
fn held_path(path: &Path) -> HeldPath
    ensures { result ≡ held_path path.now }
{
    HeldPath {
        peer: path.peer,
        plsp: path.plsp,
        part: path.part,
        tunnel: path.tunnel,
        hold: path.hold,
        bandwidth: path.bandwidth,
    }
}

/// Sees the paths over a link.
pub fn held_on(alloc: Global, paths: &[Path], link: LinkNumber) -> Result<Vec<HeldPath>, AllocError>
    ensures { IfOk result (λ held. held.items ≡ held_on paths.now link) }
{
    let mut held = Vec::new(alloc);
    for path in paths {
        if is_path_over(path, link) {
            held.push(held_path(path))?;
        }
    }
    Ok(held)
}
