//! The names of initiations that were granted.
ghost use Rattle.std.specs.Prelude.{◌≡◌, false, IfSome, IfNone};
ghost use Rattle.step_core.specs.declared.names.AwaitedName.{AwaitedName};
ghost use Rattle.step_core.specs.Names.{is_of_grant};
ghost use Rattle.step_core.specs.States.{is_grant_of_name};

use commit_core::LspName;
use lsp_base::{Part, Path};
use sequence::PlainData;
use std::alloc::AllocError;

/// The name of an LSP that was granted and that no report has named yet: its grant has no PLSP-ID.
#[derive(Debug, Drop)]
pub struct AwaitedName {
    pub peer: u32,
    /// The SRP-ID of the grant.
    pub srp: u32,
    pub name: LspName,
}

impl PlainData for AwaitedName {
    fn copy(&self) -> Result<AwaitedName, AllocError> {
        Ok(AwaitedName {
            peer: self.peer,
            srp: self.srp,
            name: self.name.copy()?,
        })
    }
}

/// A grant, by its peer and SRP-ID.
#[derive(Clone, Copy, Debug, PartialEq, Eq, Hash)]
pub(crate) struct GrantKey {
    pub peer: u32,
    pub srp: u32,
}

/// Returns the SRP-ID of a grant that no report has bound yet. `None` for any other path.
pub(crate) fn unbound_srp(path: &Path) -> Option<u32>
    ensures grant { IfSome result (λ srp. (a : AwaitedName) → is_grant_of_name a path.now ≡ is_of_grant path.now.peer srp a) }
    ensures none { IfNone result ((a : AwaitedName) → is_grant_of_name a path.now ≡ false) }
{
    if path.plsp.number() != 0 {
        return None;
    }
    match path.part {
        Part::Granted(srp) => Some(srp),
        Part::Reported(_) => None,
    }
}
