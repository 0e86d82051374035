//! Grants: paths that the PCE granted, until the peer has carried them out or refused them.
ghost use Rattle.std.specs.Prelude.{◌≡◌};
ghost use Rattle.lsp_base.specs.Grants.{is_grant_of, is_number, has_srp, is_unbound_grant};

use crate::drops::is_path_of_lsp;
use crate::path::Path;
use crate::tunnel::{Part, is_part_reported};
use keyed_list::Test;
use lsp_words::Plsp;

pub(crate) fn is_the_number(number: Option<u32>, other: u32) -> bool
    ensures { result ≡ is_number number other }
{
    match number {
        Some(number) => number == other,
        None => false,
    }
}

/// Tests whether the part is a grant of this SRP-ID.
pub fn carries_srp(srp: Option<u32>, part: Part) -> bool
    ensures { result ≡ has_srp srp part }
{
    match part {
        Part::Reported(_) => false,
        Part::Granted(number) => is_the_number(srp, number),
    }
}

/// Tests whether the path is a grant that is bound to the LSP.
pub fn is_grant_of_lsp(path: &Path, peer: u32, plsp: Plsp) -> bool
    ensures { result ≡ is_grant_of peer plsp path.now }
{
    is_path_of_lsp(path, peer, plsp) && !is_part_reported(path.part)
}

/// Tests whether the path is the peer's grant of this SRP-ID, and no report has bound it yet.
pub fn is_unbound(path: &Path, peer: u32, srp: Option<u32>) -> bool
    ensures { result ≡ is_unbound_grant peer srp path.now }
{
    path.peer == peer && path.plsp.number() == 0 && carries_srp(srp, path.part)
}

/// Tests whether a path is a grant.
#[derive(Drop)]
pub struct AnyGrant;

impl Test<Path> for AnyGrant {
    ghost use Rattle.std.specs.Prelude.{not};
    ghost use Rattle.lsp_base.specs.Same.{is_reported};

    ghost passes = { λ s x. not (is_reported x.part) };

    fn passes(&self, path: &Path) -> bool {
        !is_part_reported(path.part)
    }
}
