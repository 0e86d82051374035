//! What the server looks after: grants that stand, and awaited deletions.
ghost use Rattle.std.specs.Prelude.{◌≡◌, ◌++◌, ◌∷◌, [], None, map, filter, take, drop, length, IfOk, OnOk};
ghost use Rattle.pce_seen.specs.Grants.{deletion_of, is_deletion_asked, is_grant_asked};
ghost use Rattle.database_looks.specs.Grants.{next_of, seen_grant, srp_of, SeesUpkeep};

use crate::look::Look;
use history_core::Database;
use lsp_base::{LspBase, Part, Path};
use pce_seen::{Deletion, PAGE_LIMIT, deletions_of, is_covered, is_grant_asked, page_from};
use pcep_objects::Plsp;
use std::alloc::{AllocError, Global};
use step_core::State;

/// A grant that stands, and whether a report covers it: a path of its LSP then holds all that it holds.
#[derive(Clone, Copy)]
pub struct SeenGrant {
    pub peer: u32,
    /// 0 for a grant that is not bound to an LSP.
    pub plsp: Plsp,
    pub srp: u32,
    pub is_covered: bool,
    /// It was made, or bound to its LSP, in the latest session of its router.
    pub is_fresh: bool,
}

/// The grants among 256 paths, and the awaited deletions of 256 LSPs.
#[derive(Drop)]
pub struct UpkeepPage {
    pub grants: Vec<SeenGrant>,
    pub deletions: Vec<Deletion>,
    /// The place of the next page, among the paths and among the records; `None` if neither has an item there.
    pub next: Option<u64>,
}

/// Looks at a page of grants and deletions, from this place on among the paths and among the records.
#[derive(Clone, Copy)]
pub struct UpkeepLook {
    pub from: u64,
}

/// Returns the SRP-ID of a grant.
fn srp_of(part: Part) -> u32
    ensures { result ≡ srp_of part }
{
    match part {
        Part::Granted(srp) => srp,
        Part::Reported(_) => 0,
    }
}

fn seen_grant(lsps: &LspBase, path: &Path) -> SeenGrant
    ensures { result ≡ seen_grant lsps.now.content.paths path.now }
{
    SeenGrant {
        peer: path.peer,
        plsp: path.plsp,
        srp: srp_of(path.part),
        is_covered: is_covered(lsps, path),
        is_fresh: path.fresh,
    }
}

/// Sees the grants among these paths.
fn seen_grants(alloc: Global, lsps: &LspBase, paths: &[Path]) -> Result<Vec<SeenGrant>, AllocError>
    ensures { IfOk result (λ seen. seen.items ≡ map (seen_grant lsps.now.content.paths) (filter (is_grant_asked None) paths.now)) }
{
    let mut seen = Vec::new(alloc);
    for path in paths {
        if is_grant_asked(None, path) {
            seen.push(seen_grant(lsps, path))?;
        }
    }
    Ok(seen)
}

/// Finds where the next page starts.
fn next_of(from: u64, paths: usize, records: usize) -> Option<u64>
    ensures { result ≡ next_of from paths records }
{
    let count = paths.max(records) as u64;
    if count.saturating_sub(from) > PAGE_LIMIT as u64 {
        Some(from + PAGE_LIMIT as u64)
    } else {
        None
    }
}

/// Sees a page of grants and deletions.
fn see_upkeep(alloc: Global, state: &State, from: u64) -> Result<UpkeepPage, AllocError>
    ensures grants { IfOk result (λ seen. seen.grants.items ≡ map (seen_grant state.now.base.paths) (filter (is_grant_asked None) (take 256 (drop from state.now.base.paths)))) }
    ensures deletions { IfOk result (λ seen. seen.deletions.items ≡ map deletion_of (filter (is_deletion_asked None) (take 256 (drop from state.now.base.records)))) }
    ensures next { IfOk result (λ seen. seen.next ≡ next_of from (length state.now.base.paths) (length state.now.base.records)) }
{
    let lsps = state.lsps();
    Ok(UpkeepPage {
        grants: seen_grants(alloc, lsps, page_from(lsps.paths(), from))?,
        deletions: deletions_of(alloc, None, page_from(lsps.records(), from))?,
        next: next_of(from, lsps.paths().len(), lsps.records().len()),
    })
}

impl Look for UpkeepLook {
    ghost use Rattle.database_looks.specs.Grants.{SeesUpkeep};

    type Seen = UpkeepPage;

    ghost sees = { λ s d seen. SeesUpkeep s.from d seen };

    fn see(&self, alloc: Global, database: &Database) -> Result<UpkeepPage, AllocError> {
        see_upkeep(alloc, database.state(), self.from)
    }
}
