//! The paths that were last reported DOWN.
ghost use Rattle.std.specs.Prelude.{◌≡◌, Bool, Option, Some, None, OnOk, OnErr, if◌then◌else◌};
ghost use Rattle.indexmap.specs.IndexMap.{get};
ghost use Rattle.server_base.specs.DownPaths.{is_same_path, is_of, is_of_lsp};
ghost use Rattle.server_base.specs.declared.down_paths.ReportedPath.{ReportedPath};

use indexmap::IndexMap;
use std::alloc::{AllocError, Global};

/// The most paths that are noted: as many as may stand.
const MOST_PATHS: usize = 16_384;

/// A path that a router reported: its LSP's PLSP-ID, and its LSP-ID (RFC 3209 section 4.6.2.1).
#[derive(Clone, Copy, PartialEq, Eq, Hash, Debug)]
pub(crate) struct ReportedPath {
    pub peer: u32,
    pub plsp: u32,
    pub lsp: u16,
}

/// Tests whether a path belongs to the LSP.
fn is_of_lsp(path: ReportedPath, peer: u32, plsp: u32) -> bool
    ensures { result ≡ is_of_lsp peer plsp path }
{
    path.peer == peer && path.plsp == plsp
}

/// The paths whose last report said DOWN, and whether it had the A flag (RFC 8231 section 7.3).
#[derive(Drop)]
pub(crate) struct DownPaths {
    paths: IndexMap<ReportedPath, bool>,
}

impl DownPaths {
    /// Makes an empty table. Takes no memory.
    pub fn new(alloc: Global) -> DownPaths
        ensures { (q : ReportedPath) → get is_same_path result.paths q ≡ None }
    {
        DownPaths {
            paths: IndexMap::new(alloc),
        }
    }

    /// Returns whether the path was last reported with the A flag, if it was last reported DOWN.
    pub fn of(&self, path: ReportedPath) -> Option<bool>
        ensures { result ≡ get is_same_path self.now.paths path }
    {
        self.paths.get(&path).copied()
    }

    /// Notes that the path was reported DOWN. Fails if memory runs out, or if 16,384 others are noted.
    pub fn down(&mut self, path: ReportedPath, is_switched_on: bool) -> Result<(), AllocError>
        ensures ok { OnOk result ((q : ReportedPath) → get is_same_path self.new.paths q ≡ (if is_same_path path q then Some is_switched_on else get is_same_path self.old.paths q)) }
        ensures err { OnErr result ((q : ReportedPath) → get is_same_path self.new.paths q ≡ get is_same_path self.old.paths q) }
    {
        if self.paths.len() >= MOST_PATHS && self.paths.get(&path).is_none() {
            return Err(AllocError);
        }
        self.paths.insert(path, is_switched_on)?;
        Ok(())
    }

    /// Notes that the path was reported in another state, or removed.
    pub fn gone(&mut self, path: ReportedPath)
        ensures { (q : ReportedPath) → get is_same_path self.new.paths q ≡ (if is_same_path path q then None else get is_same_path self.old.paths q) }
    {
        let _down = self.paths.swap_remove(&path);
    }

    /// Notes that no reported path of the LSP stands any more.
    pub fn lsp_gone(&mut self, peer: u32, plsp: u32)
        ensures { (q : ReportedPath) → get is_same_path self.new.paths q ≡ (if is_of_lsp peer plsp q then None else get is_same_path self.old.paths q) }
    {
        self.paths
            .retain(|path, _is_switched_on| !is_of_lsp(*path, peer, plsp));
    }

    /// Forgets the paths of a router: a session of it came up, or it was forgotten.
    pub fn forget(&mut self, peer: u32)
        ensures { (q : ReportedPath) → get is_same_path self.new.paths q ≡ (if is_of peer q then None else get is_same_path self.old.paths q) }
    {
        self.paths.retain(|path, _is_switched_on| path.peer != peer);
    }
}
