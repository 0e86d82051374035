//! The LSPs over a link.
ghost use Rattle.std.specs.Prelude.{◌≡◌, ◌≤◌, ◌+◌, ◌++◌, ◌∷◌, [], ◌&&◌, not, List, length, option_to_list, IfOk, OnOk};
ghost use Rattle.std.specs.List.{list_any};
ghost use Rattle.lsp_base.specs.Lsps.{is_record_of};
ghost use Rattle.lsp_base.specs.Shares.{has_link};
ghost use Rattle.lsp_base.specs.declared.path.Path.{Path};
ghost use Rattle.pce_seen.specs.Over.{lsps_over, AreOver};

use crate::lsps::KnownLsp;
use crate::moves::TRIED_LIMIT;
use crate::taking::{is_path_over, lsp_of};
use lsp_base::{LspBase, Path};
use std::alloc::{AllocError, Global};
use te_base::LinkNumber;

/// Tests whether a path is one of an LSP.
fn is_lsp_of(path: &Path, lsp: &KnownLsp) -> bool
    ensures { result ≡ is_record_of path.now.peer path.now.plsp lsp.now.known }
{
    lsp.known.peer == path.peer && lsp.known.plsp == path.plsp
}

/// Tests whether a path's LSP is listed.
fn is_listed(seen: &[KnownLsp], path: &Path) -> bool
    ensures { result ≡ list_any (λ l. is_record_of path.now.peer path.now.plsp l.known) seen.now }
{
    seen.iter().any(|lsp| is_lsp_of(path, lsp))
}

/// Tests whether a path goes over a link, and its LSP isn't listed yet.
fn is_new_over(link: LinkNumber, seen: &[KnownLsp], path: &Path) -> bool
    ensures { result ≡ (has_link link path.now && not (list_any (λ l. is_record_of path.now.peer path.now.plsp l.known) seen.now)) }
{
    is_path_over(path, link) && !is_listed(seen, path)
}

/// Adds an LSP, if there is one.
fn add_lsp(seen: &mut Vec<KnownLsp>, lsp: Option<KnownLsp>) -> Result<(), AllocError>
    ensures seen { OnOk result (seen.new.items ≡ seen.old.items ++ option_to_list lsp) }
    ensures few { OnOk result (length seen.new.items ≤ length seen.old.items + 1) }
{
    match lsp {
        Some(lsp) => {
            seen.push(lsp)?;
            Ok(())
        }
        None => Ok(()),
    }
}

/// Adds the LSP of a path over a link with all of its paths, if it isn't listed yet.
fn add_over(
    alloc: Global,
    seen: &mut Vec<KnownLsp>,
    lsps: &LspBase,
    link: LinkNumber,
    path: &Path,
) -> Result<(), AllocError>
    ensures seen { OnOk result ((before : List Path) → seen.old.items ≡ lsps_over lsps.now.content link before
        → seen.new.items ≡ lsps_over lsps.now.content link (before ++ path.now ∷ [])) }
    ensures few { OnOk result (length seen.new.items ≤ length seen.old.items + 1) }
{
    if is_new_over(link, seen, path) {
        let lsp = lsp_of(alloc, lsps, path.peer, path.plsp)?;
        add_lsp(seen, lsp)
    } else {
        Ok(())
    }
}

/// Sees the LSPs over a link, at most 512, and the path from which on others may follow.
pub fn lsps_over(
    alloc: Global,
    lsps: &LspBase,
    link: LinkNumber,
) -> Result<(Vec<KnownLsp>, Option<u64>), AllocError>
    ensures { IfOk result (λ seen. AreOver lsps.now.content link seen.0.items seen.1) }
{
    let mut seen = Vec::new(alloc);
    for (place, path) in lsps.paths().iter().enumerate() {
        if seen.len() == TRIED_LIMIT {
            return Ok((seen, Some(place as u64)));
        }
        add_over(alloc, &mut seen, lsps, link, path)?;
    }
    Ok((seen, None))
}
