//! The LSP of a request that its router refuses.
ghost use Rattle.std.specs.Prelude.{◌≡◌, find, option_copied};
ghost use Rattle.lsp_base.specs.Lsps.{lsp_at};
ghost use Rattle.lsp_base.specs.Pending.{is_grant_as, is_removed_as};
ghost use Rattle.step_core.specs.Names.{is_of_grant};
ghost use Rattle.server_connections.specs.Asked.{asked_lsp, awaited_name, name_of, of_grant, of_removal};

use history_core::Database;
use keyed_list::Test;
use lsp_base::{GrantAs, Lsp, Path, Record, is_removed_as};
use lsp_words::Plsp;
use server_log::ShownName;
use std::alloc::{AllocError, Global};
use step_core::{AwaitedName, State};

/// An LSP for which something was asked.
#[derive(Clone, Copy)]
pub(crate) struct AskedLsp {
    /// 0 for a grant that no report has bound to an LSP.
    pub plsp: Plsp,
    pub name: ShownName,
}

/// Sees to which LSP the grant or the awaited deletion of an SRP-ID belongs.
#[derive(Clone, Copy)]
pub(crate) struct AskedLook {
    pub peer: u32,
    pub srp: u32,
}

impl database_looks::Look for AskedLook {
    ghost use Rattle.std.specs.Prelude.{◌≡◌};
    ghost use Rattle.server_connections.specs.Asked.{asked_lsp};

    type Seen = Option<AskedLsp>;

    ghost sees = { λ look d seen. seen ≡ asked_lsp d.state look.peer look.srp };

    fn see(&self, _alloc: Global, database: &Database) -> Result<Option<AskedLsp>, AllocError> {
        Ok(asked_lsp(database.state(), self.peer, self.srp))
    }
}

fn name_of(lsp: Option<&Lsp>) -> ShownName
    ensures { result ≡ name_of (option_copied lsp.entry) }
{
    match lsp {
        Some(lsp) => ShownName::new(lsp.name.as_slice()),
        None => ShownName::new(&[]),
    }
}

fn awaited_name(awaited: Option<&AwaitedName>) -> ShownName
    ensures { result ≡ awaited_name (option_copied awaited.entry) }
{
    match awaited {
        Some(awaited) => ShownName::new(awaited.name.as_slice()),
        None => ShownName::new(&[]),
    }
}

/// Returns the LSP to which a grant of an SRP-ID belongs.
fn of_grant(state: &State, peer: u32, srp: u32, path: &Path) -> AskedLsp
    ensures { result ≡ of_grant state.now peer srp path.now }
{
    let plsp = path.plsp;
    let name = if plsp.number() == 0 {
        awaited_name(state.name_of_grant(peer, srp))
    } else {
        name_of(state.lsps().lsp(peer, plsp))
    };
    AskedLsp { plsp, name }
}

fn find_grant(paths: &[Path], peer: u32, srp: u32) -> Option<&Path>
    ensures { option_copied result ≡ find (is_grant_as peer srp) paths.now }
{
    let grant = GrantAs { peer, srp };
    paths.iter().find(|path| grant.passes(path))
}

fn find_removal(records: &[Record], peer: u32, srp: u32) -> Option<&Record>
    ensures { option_copied result ≡ find (is_removed_as peer srp) records.now }
{
    records.iter().find(|known| is_removed_as(known, peer, srp))
}

fn of_removal(known: Option<&Record>) -> Option<AskedLsp>
    ensures { result ≡ of_removal (option_copied known.entry) }
{
    let known = known?;
    Some(AskedLsp {
        plsp: known.plsp,
        name: ShownName::new(known.lsp.name.as_slice()),
    })
}

fn asked_lsp(state: &State, peer: u32, srp: u32) -> Option<AskedLsp>
    ensures { result ≡ asked_lsp state.now peer srp }
{
    let lsps = state.lsps();
    match find_grant(lsps.paths(), peer, srp) {
        Some(path) => Some(of_grant(state, peer, srp, path)),
        None => of_removal(find_removal(lsps.records(), peer, srp)),
    }
}
