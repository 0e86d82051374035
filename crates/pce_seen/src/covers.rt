//! Tests whether a report covers a grant, and whether an LSP has a way.
ghost use Rattle.std.specs.Prelude.{◌≡◌, ℕ, true, false, List, ◌++◌, ◌∷◌};
ghost use Rattle.std.specs.List.{list_all};
ghost use Rattle.lsp_base.specs.Same.{is_reported};
ghost use Rattle.lsp_base.specs.Shares.{has_link, share};
ghost use Rattle.lsp_base.specs.declared.path.Path.{Path};
ghost use Rattle.lsp_base.specs.declared.tunnel.Tunnel.{Tunnel};
ghost use Rattle.pce_seen.specs.Grants.{covers, has_links, has_way, is_covered, is_grant_covered};

use crate::taking::is_path_over;
use keyed_list::Test;
use lsp_base::{LspBase, Part, Path};
use lsp_words::Plsp;

/// Tests whether a path goes over each of these links.
fn goes_over_all(path: &Path, grant: &Path) -> bool
    ensures { result ≡ list_all (λ l. has_link l path.now) grant.now.links }
{
    grant
        .links
        .as_slice()
        .iter()
        .all(|link| is_path_over(path, *link))
}

/// Tests whether a reported path covers a grant: it belongs to the grant's tunnel, goes over each of the grant's links,
/// and holds there at least what the grant holds, at its priority or a better one.
#[derive(Clone, Copy)]
struct Covering<'a> {
    grant: &'a Path,
}

impl<'a> Test<Path> for Covering<'a> {
    ghost use Rattle.pce_seen.specs.Grants.{covers};

    ghost passes = { λ s x. covers s.grant.now x };

    fn passes(&self, path: &Path) -> bool {
        matches!(path.part, Part::Reported(_))
            && path.tunnel == self.grant.tunnel
            && path.hold.number() <= self.grant.hold.number()
            && self.grant.bandwidth.value() <= path.bandwidth.value()
            && goes_over_all(path, self.grant)
    }
}

/// Tests whether a reported path of the LSP that a grant is bound to covers it: the grant then holds nothing that the path
/// doesn't. Allocates nothing.
pub fn is_covered(lsps: &LspBase, grant: &Path) -> bool
    ensures { result ≡ is_covered lsps.now.content.paths grant.now }
{
    lsps.any_path_of_lsp(grant.peer, grant.plsp, &Covering { grant })
}

/// States that a grant that a report covers can be dropped: without it each tunnel reserves as much on each link at
/// each priority (shared explicit reservation, RFC 3209 section 2.4.3).
pub fn covered_grants_hold_nothing()
    ensures { (before after : List Path) (g : Path) → is_reported g.part ≡ false → is_covered (before ++ g ∷ after) g ≡ true
        → (t : Tunnel) (l p : ℕ) → share (before ++ after) t l p ≡ share (before ++ g ∷ after) t l p }
{}

/// Tests whether a path is the grant of an SRP-ID, and a report covers it.
#[derive(Clone, Copy)]
struct CoveredGrant<'a> {
    lsps: &'a LspBase,
    srp: u32,
}

impl<'a> Test<Path> for CoveredGrant<'a> {
    ghost use Rattle.std.specs.Prelude.{◌&&◌};
    ghost use Rattle.pce_seen.specs.Grants.{is_covered, is_of_srp};

    ghost passes = { λ s x. is_of_srp s.srp x.part && is_covered s.lsps.now.content.paths x };

    fn passes(&self, path: &Path) -> bool {
        path.part == Part::Granted(self.srp) && is_covered(self.lsps, path)
    }
}

/// Tests whether the grant of an SRP-ID, which is bound to this LSP, is covered by a report. Allocates nothing.
pub fn is_grant_covered(lsps: &LspBase, peer: u32, plsp: Plsp, srp: u32) -> bool
    ensures { result ≡ is_grant_covered lsps.now.content.paths peer plsp srp }
{
    lsps.any_path_of_lsp(peer, plsp, &CoveredGrant { lsps, srp })
}

/// Tests whether a path was reported on a link of the network.
#[derive(Clone, Copy)]
struct OnLinks;

impl Test<Path> for OnLinks {
    ghost use Rattle.pce_seen.specs.Grants.{has_links};

    ghost passes = { λ s x. has_links x };

    fn passes(&self, path: &Path) -> bool {
        matches!(path.part, Part::Reported(_)) && !path.links.as_slice().is_empty()
    }
}

/// Tests whether a reported path of the LSP is on a link of the network. Allocates nothing.
pub fn has_way(lsps: &LspBase, peer: u32, plsp: Plsp) -> bool
    ensures { result ≡ has_way lsps.now.content.paths peer plsp }
{
    lsps.any_path_of_lsp(peer, plsp, &OnLinks)
}
