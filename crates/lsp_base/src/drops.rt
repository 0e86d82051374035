//! Paths that go, and the records that then have none.
ghost use Rattle.std.specs.Prelude.{◌≡◌, ◌&&◌, not, filter, IfOk, IsPermutation};
ghost use Rattle.std.specs.List.{list_any};
ghost use Rattle.lsp_base.specs.Lsps.{is_path_of, ended_records, ended_record, changed, dropping};
ghost use Rattle.lsp_base.specs.Rooms.{IsWithinLimit};

use crate::base::LspBase;
use crate::effect::{Effect, Record, RecordChange};
use crate::passes::RecordRule;
use crate::path::Path;
use keyed_list::Test;
use lsp_words::Plsp;
use std::alloc::{AllocError, Global};

/// Tests whether the path is one of the LSP's: reported, or a grant that is bound to it.
pub fn is_path_of_lsp(path: &Path, peer: u32, plsp: Plsp) -> bool
    ensures { result ≡ is_path_of peer plsp path.now }
{
    path.peer == peer && path.plsp == plsp
}

/// Tests whether a path stays if those that pass `going` go.
#[derive(Drop)]
struct Stays<'a, T: Test<Path>> {
    going: &'a T,
}

impl<'a, T: Test<Path>> Test<Path> for Stays<'a, T> {
    ghost use Rattle.std.specs.Prelude.{not};

    ghost passes = { λ s x. not (T.passes s.going.now x) };

    fn passes(&self, path: &Path) -> bool {
        !self.going.passes(path)
    }
}

/// Tests whether a path of the LSP stays if those that pass `going` go.
fn keeps_a_path<T: Test<Path>>(base: &LspBase, peer: u32, plsp: Plsp, going: &T) -> bool
    ensures { result ≡ list_any (λ x. not (T.passes going.now x) && is_path_of peer plsp x) base.now.content.paths }
{
    base.any_path_of_lsp(peer, plsp, &Stays { going })
}

/// Removes the peer's records of which no path stays if those that pass `going` go.
#[derive(Drop)]
struct NoneLeft<'a, T: Test<Path>> {
    base: &'a LspBase,
    going: &'a T,
    peer: u32,
}

impl<'a, T: Test<Path>> RecordRule for NoneLeft<'a, T> {
    ghost use Rattle.lsp_base.specs.Lsps.{has_none_left, taking};

    ghost applies = { λ s r. has_none_left (T.passes s.going.now) s.peer s.base.now.content.paths r };

    ghost change = { λ s r. taking r };

    fn applies(&self, known: &Record) -> bool {
        known.peer == self.peer && !keeps_a_path(self.base, self.peer, known.plsp, self.going)
    }

    fn change(&self, known: &Record) -> Result<RecordChange, AllocError> {
        Ok(RecordChange {
            plsp: known.plsp,
            lsp: None,
        })
    }
}

/// Removes the LSP's record, if no path of it stays when those that pass `going` go.
pub fn ended_record<T: Test<Path>>(
    alloc: Global,
    base: &LspBase,
    peer: u32,
    plsp: Plsp,
    going: &T,
) -> Result<Vec<RecordChange>, AllocError>
    ensures { IfOk result (λ changes. changes.items ≡ ended_record base.now.content.paths peer plsp (T.passes going.now)) }
{
    let mut changes = Vec::new(alloc);
    if !keeps_a_path(base, peer, plsp, going) {
        changes.push(RecordChange { plsp, lsp: None })?;
    }
    Ok(changes)
}

/// Removes the peer's records of which no path stays if those that pass `going` go.
fn ended<T: Test<Path>>(
    alloc: Global,
    base: &LspBase,
    peer: u32,
    going: &T,
) -> Result<Vec<RecordChange>, AllocError>
    ensures { IfOk result (λ changes. changes.items ≡ ended_records base.now.content peer (T.passes going.now)) }
{
    base.record_changes(alloc, &NoneLeft { base, going, peer })
}

/// Drops the paths that pass, with the peer's records that then have no path.
#[tactic(auto, unfolding(crate::specs::Lsps::dropping))]
pub fn dropping_of_peer<T: Test<Path>>(
    alloc: Global,
    base: &LspBase,
    peer: u32,
    test: &T,
) -> Result<Effect, AllocError>
    ensures dropping { IfOk result (λ effect. effect ≡ dropping base.now.content peer (T.passes test.now)) }
    ensures stay { IfOk result (λ effect. IsPermutation (filter (λ x. not (T.passes test.now x)) base.now.content.paths)
        (changed base.now.content peer effect).paths) }
    ensures few { IfOk result (λ effect. IsWithinLimit base.now.content effect) }
{
    // only for the proof: there are no more paths than there may be
    let _few = base.paths();
    let dropped = base.paths_passing(alloc, test)?;
    let records = ended(alloc, base, peer, test)?;
    Ok(Effect::new(dropped, Vec::new(alloc), records, false))
}
