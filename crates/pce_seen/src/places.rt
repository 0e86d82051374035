//! LSPs with the gaps of their paths.
ghost use Rattle.std.specs.Prelude.{◌≡◌, map, IfOk};
ghost use Rattle.pce_seen.specs.Gaps.{gap_in, gaps_of, placed};

use crate::gaps::{Gap, gap_of};
use crate::lsps::{KnownLsp, LspPage};
use lsp_base::{Constraints, Path};
use sequence::Sequence;
use std::alloc::{AllocError, Global};
use te_base::TeBase;

/// An LSP, and the first gap of each of its paths, in their order.
#[derive(Drop)]
pub struct PlacedLsp {
    pub lsp: KnownLsp,
    pub gaps: Sequence<Option<Gap>>,
}

/// A page of LSPs, and the first gap of each path of each of them, in their order.
#[derive(Drop)]
pub struct PlacedPage {
    pub page: LspPage,
    pub gaps: Vec<Sequence<Option<Gap>>>,
}

/// Finds the first gap of each of these paths of an LSP.
fn gaps_in(
    alloc: Global,
    te: &TeBase,
    constraints: &Constraints,
    paths: &[Path],
) -> Result<Vec<Option<Gap>>, AllocError>
    ensures { IfOk result (λ gaps. gaps.items ≡ map (gap_in te.now constraints.now) paths.now) }
{
    let mut gaps = Vec::with_capacity(alloc, paths.len())?;
    for path in paths {
        gaps.push(gap_of(te, constraints, path))?;
    }
    Ok(gaps)
}

/// Finds the first gap of each path of an LSP.
fn gaps_of(alloc: Global, te: &TeBase, lsp: &KnownLsp) -> Result<Sequence<Option<Gap>>, AllocError>
    ensures { IfOk result (λ gaps. gaps ≡ gaps_of te.now lsp.now) }
{
    let gaps = gaps_in(alloc, te, &lsp.known.lsp.constraints, lsp.paths.as_slice())?;
    Ok(Sequence::from_vec(gaps))
}

/// Finds the first gap of each path of these LSPs.
pub fn gaps_of_each(
    alloc: Global,
    te: &TeBase,
    lsps: &[KnownLsp],
) -> Result<Vec<Sequence<Option<Gap>>>, AllocError>
    ensures { IfOk result (λ gaps. gaps.items ≡ map (gaps_of te.now) lsps.now) }
{
    let mut gaps = Vec::with_capacity(alloc, lsps.len())?;
    for lsp in lsps {
        gaps.push(gaps_of(alloc, te, lsp)?)?;
    }
    Ok(gaps)
}

/// Joins an LSP with the first gap of each of its paths.
pub fn placed(alloc: Global, te: &TeBase, lsp: KnownLsp) -> Result<PlacedLsp, AllocError>
    ensures { IfOk result (λ seen. seen ≡ placed te.now lsp) }
{
    match gaps_of(alloc, te, &lsp) {
        Ok(gaps) => Ok(PlacedLsp { lsp, gaps }),
        Err(error) => {
            drop(lsp);
            Err(error)
        }
    }
}
