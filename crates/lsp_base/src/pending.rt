//! What the PCE asked a peer for and awaits: a grant or a removal.
ghost use Rattle.std.specs.Prelude.{◌≡◌, option_copied};
ghost use Rattle.std.specs.List.{list_any};
ghost use Rattle.lsp_base.specs.Pending.{is_delegated, is_created, is_removing, is_pending, is_grant_as, is_removed_as};

use crate::base::LspBase;
use crate::effect::Record;
use crate::grants::{carries_srp, is_the_number};
use crate::lsp::Lsp;
use crate::path::Path;
use keyed_list::Test;
use lsp_words::Plsp;

/// Tests whether the LSP is delegated to the PCE. An unknown LSP is not.
pub fn is_delegated(lsp: Option<&Lsp>) -> bool
    ensures { result ≡ is_delegated (option_copied lsp.entry) }
{
    match lsp {
        Some(lsp) => lsp.delegated,
        None => false,
    }
}

/// Tests whether the PCE initiated the LSP. It didn't initiate an unknown LSP.
pub fn is_created(lsp: Option<&Lsp>) -> bool
    ensures { result ≡ is_created (option_copied lsp.entry) }
{
    match lsp {
        Some(lsp) => lsp.created,
        None => false,
    }
}

/// Tests whether a removal of the LSP is awaited.
pub fn is_removing(lsp: Option<&Lsp>) -> bool
    ensures { result ≡ is_removing (option_copied lsp.entry) }
{
    match lsp {
        Some(lsp) => lsp.removing.is_some(),
        None => false,
    }
}

/// Tests whether a grant or a removal of the LSP is awaited. Allocates nothing.
pub fn is_pending(base: &LspBase, peer: u32, plsp: Plsp) -> bool
    ensures { result ≡ is_pending base.now.content peer plsp }
{
    base.has_grant(peer, plsp) || is_removing(base.lsp(peer, plsp))
}

/// Tests whether a path is the peer's grant of an SRP-ID, bound to an LSP or not.
#[derive(Drop)]
pub struct GrantAs {
    pub peer: u32,
    pub srp: u32,
}

impl Test<Path> for GrantAs {
    ghost use Rattle.lsp_base.specs.Pending.{is_grant_as};

    ghost passes = { λ s x. is_grant_as s.peer s.srp x };

    fn passes(&self, path: &Path) -> bool {
        path.peer == self.peer && carries_srp(Some(self.srp), path.part)
    }
}

/// Tests whether the LSP is the peer's, and its removal has this SRP-ID.
pub fn is_removed_as(known: &Record, peer: u32, srp: u32) -> bool
    ensures { result ≡ is_removed_as peer srp known.now }
{
    known.peer == peer && is_the_number(known.lsp.removing, srp)
}

/// Tests whether a grant of the peer has the SRP-ID.
pub(crate) fn has_grant_as(paths: &[Path], peer: u32, srp: u32) -> bool
    ensures { result ≡ list_any (is_grant_as peer srp) paths.now }
{
    let grant = GrantAs { peer, srp };
    paths.iter().any(|path| grant.passes(path))
}

/// Tests whether an awaited removal of the peer has the SRP-ID.
pub(crate) fn has_removal_as(records: &[Record], peer: u32, srp: u32) -> bool
    ensures { result ≡ list_any (is_removed_as peer srp) records.now }
{
    records.iter().any(|known| is_removed_as(known, peer, srp))
}
