//! Reported paths that hold no link: they are down, or their route isn't known.
ghost use Rattle.std.specs.Prelude.{◌≡◌, ◌&&◌, filter, map, take, drop, length, IfOk, option_copied};
ghost use Rattle.std.specs.List.{list_any};
ghost use Rattle.lsp_base.specs.Lsps.{is_path_of};
ghost use Rattle.server_base.specs.Linkless.{holds_links, is_delegated, is_linkless, is_removing, lsp_id_of, next_of, seen_linkless};

use history_core::Database;
use keyed_list::Test;
use lsp_base::{Lsp, LspBase, Part, Path};
use lsp_words::Plsp;
use pce_seen::{PAGE_LIMIT, page_from};
use std::alloc::{AllocError, Global};
use step_core::State;

/// A reported path that holds no link, and the state of its LSP.
#[derive(Clone, Copy)]
pub(crate) struct SeenLinkless {
    pub peer: u32,
    pub plsp: Plsp,
    /// The path's LSP-ID (RFC 3209 section 4.6.2.1).
    pub lsp: u16,
    pub is_delegated: bool,
    /// Another path of the LSP, reported or granted, holds links.
    pub holds_links: bool,
    pub has_grant: bool,
    /// A ticket of an update of the LSP stands.
    pub has_ticket: bool,
    /// The LSP's deletion is awaited.
    pub is_removing: bool,
}

/// Of 256 consecutive paths, those that hold no link.
#[derive(Drop)]
pub(crate) struct LinklessPage {
    pub paths: Vec<SeenLinkless>,
    /// The place of the next page among the paths; `None` if there is no path there.
    pub next: Option<u64>,
}

/// Looks at a page of paths, starting with the one at this place.
#[derive(Clone, Copy)]
pub(crate) struct LinklessLook {
    pub from: u64,
}

/// Tests whether a path holds links.
#[derive(Clone, Copy)]
struct HoldsLinks;

impl Test<Path> for HoldsLinks {
    ghost use Rattle.server_base.specs.Linkless.{holds_links};

    ghost passes = { λ _ x. holds_links x };

    fn passes(&self, path: &Path) -> bool {
        holds_links(path)
    }
}

fn holds_links(path: &Path) -> bool
    ensures { result ≡ holds_links path.now }
{
    !path.links.as_slice().is_empty()
}

fn is_linkless(path: &Path) -> bool
    ensures { result ≡ is_linkless path.now }
{
    matches!(path.part, Part::Reported(_)) && !holds_links(path)
}

fn lsp_id_of(part: Part) -> u16
    ensures { result ≡ lsp_id_of part }
{
    match part {
        Part::Reported(lsp) => lsp,
        Part::Granted(_) => 0,
    }
}

fn is_delegated(lsp: Option<&Lsp>) -> bool
    ensures { result ≡ is_delegated (option_copied lsp.entry) }
{
    match lsp {
        Some(lsp) => lsp.delegated,
        None => false,
    }
}

fn is_removing(lsp: Option<&Lsp>) -> bool
    ensures { result ≡ is_removing (option_copied lsp.entry) }
{
    match lsp {
        Some(lsp) => lsp.removing.is_some(),
        None => false,
    }
}

/// Tests whether a path of the LSP holds links.
fn does_hold(lsps: &LspBase, peer: u32, plsp: Plsp) -> bool
    ensures { result ≡ list_any (λ x. holds_links x && is_path_of peer plsp x) lsps.now.content.paths }
{
    lsps.any_path_of_lsp(peer, plsp, &HoldsLinks)
}

fn seen_linkless(state: &State, path: &Path) -> SeenLinkless
    ensures { result ≡ seen_linkless state.now path.now }
{
    let (peer, plsp) = (path.peer, path.plsp);
    let lsps = state.lsps();
    let lsp = lsps.lsp(peer, plsp);
    SeenLinkless {
        peer,
        plsp,
        lsp: lsp_id_of(path.part),
        is_delegated: is_delegated(lsp),
        holds_links: does_hold(lsps, peer, plsp),
        has_grant: lsps.has_grant(peer, plsp),
        has_ticket: state.is_update_asked(peer, plsp),
        is_removing: is_removing(lsp),
    }
}

/// Sees those of the paths that hold no link.
fn seen_of(alloc: Global, state: &State, paths: &[Path]) -> Result<Vec<SeenLinkless>, AllocError>
    ensures { IfOk result (λ seen. seen.items ≡ map (seen_linkless state.now) (filter is_linkless paths.now)) }
{
    let mut seen = Vec::new(alloc);
    for path in paths {
        if is_linkless(path) {
            seen.push(seen_linkless(state, path))?;
        }
    }
    Ok(seen)
}

/// Returns where the next page starts.
fn next_of(from: u64, count: usize) -> Option<u64>
    ensures { result ≡ next_of from count }
{
    if (count as u64).saturating_sub(from) > PAGE_LIMIT as u64 {
        Some(from + PAGE_LIMIT as u64)
    } else {
        None
    }
}

/// Sees a page of paths that hold no link.
fn see_linkless(alloc: Global, state: &State, from: u64) -> Result<LinklessPage, AllocError>
    ensures paths { IfOk result (λ seen. seen.paths.items ≡ map (seen_linkless state.now) (filter is_linkless (take 256 (drop from state.now.base.paths)))) }
    ensures next { IfOk result (λ seen. seen.next ≡ next_of from (length state.now.base.paths)) }
{
    let paths = state.lsps().paths();
    Ok(LinklessPage {
        paths: seen_of(alloc, state, page_from(paths, from))?,
        next: next_of(from, paths.len()),
    })
}

impl database_looks::Look for LinklessLook {
    ghost use Rattle.server_base.specs.Linkless.{SeesLinkless};

    type Seen = LinklessPage;

    ghost sees = { λ look d seen. SeesLinkless look.from d seen };

    fn see(&self, alloc: Global, database: &Database) -> Result<LinklessPage, AllocError> {
        see_linkless(alloc, database.state(), self.from)
    }
}

/// Sees whether an LSP is known.
#[derive(Clone, Copy)]
pub struct StandsLook {
    pub peer: u32,
    pub plsp: Plsp,
}

impl database_looks::Look for StandsLook {
    ghost use Rattle.std.specs.Prelude.{◌≡◌, is_some};
    ghost use Rattle.lsp_base.specs.Lsps.{lsp_at};

    type Seen = bool;

    ghost sees = { λ look d seen. seen ≡ is_some (lsp_at d.state.base.records look.peer look.plsp) };

    fn see(&self, _alloc: Global, database: &Database) -> Result<bool, AllocError> {
        Ok(database.state().lsps().lsp(self.peer, self.plsp).is_some())
    }
}

/// Sees whether a path stands that was reported with this LSP-ID.
#[derive(Clone, Copy)]
pub(crate) struct ReportedLook {
    pub peer: u32,
    pub plsp: Plsp,
    pub lsp: u16,
}

/// Tests whether a path was reported with an LSP-ID.
#[derive(Clone, Copy)]
struct ReportedAs {
    lsp: u16,
}

impl Test<Path> for ReportedAs {
    ghost use Rattle.server_base.specs.Linkless.{is_reported_as};

    ghost passes = { λ test x. is_reported_as test.lsp x };

    fn passes(&self, path: &Path) -> bool {
        matches!(path.part, Part::Reported(_)) && lsp_id_of(path.part) == self.lsp
    }
}

impl database_looks::Look for ReportedLook {
    ghost use Rattle.std.specs.Prelude.{◌≡◌, ◌&&◌};
    ghost use Rattle.std.specs.List.{list_any};
    ghost use Rattle.lsp_base.specs.Lsps.{is_path_of};
    ghost use Rattle.server_base.specs.Linkless.{is_reported_as};

    type Seen = bool;

    ghost sees = { λ look d seen. seen ≡ list_any (λ x. is_reported_as look.lsp x && is_path_of look.peer look.plsp x) d.state.base.paths };

    fn see(&self, _alloc: Global, database: &Database) -> Result<bool, AllocError> {
        let test = ReportedAs { lsp: self.lsp };
        Ok(
            database
                .state()
                .lsps()
                .any_path_of_lsp(self.peer, self.plsp, &test),
        )
    }
}
