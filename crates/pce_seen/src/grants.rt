//! Grants that stand, and awaited deletions.
ghost use Rattle.std.specs.Prelude.{◌≡◌, ◌<◌, ◌≤◌, max, length, map, filter, take, IfOk, IfSome};
ghost use Rattle.pce_seen.specs.Grants.{deletion_of, is_deletion_asked, is_grant_asked, is_named, up_to, IsGrantSpan};
ghost use Rattle.pce_seen.specs.Lsps.{passed};

use crate::paging::{full_at, items_from, items_up_to, sooner};
use commit_core::LspName;
use keyed_list::Test;
use lsp_base::{LspBase, Part, Path, Record};
use lsp_words::Plsp;
use std::alloc::{AllocError, Global};

/// A path that the PCE granted, and that no report has settled.
#[derive(Drop)]
pub struct KnownGrant {
    pub path: Path,
    /// The name that the LSP of an initiation should have, until a report binds the grant to the LSP.
    pub name: Option<LspName>,
}

/// An LSP that its peer was asked to remove (RFC 8281 section 5.4), and the SRP-ID of that request.
#[derive(Clone, Copy)]
pub struct Deletion {
    pub peer: u32,
    pub plsp: Plsp,
    pub srp: u32,
}

/// Grants and deletions of one moment, in the order of the paths and of the records.
#[derive(Drop)]
pub struct GrantPage {
    /// How many steps were ever taken. If two pages have the same count, nothing has happened between them.
    pub steps: u64,
    pub grants: Vec<KnownGrant>,
    pub deletions: Vec<Deletion>,
    /// The place of the next page, among the paths and among the records; `None` if neither has an item there.
    pub next: Option<u64>,
}

/// Tests whether a peer is the named one; if none is named, any peer is.
fn is_named(named: Option<u32>, peer: u32) -> bool
    ensures { result ≡ is_named named peer }
{
    match named {
        Some(named) => peer == named,
        None => true,
    }
}

/// Tests whether a path is a grant of the peer, or of any peer if none is named.
pub fn is_grant_asked(peer: Option<u32>, path: &Path) -> bool
    ensures { result ≡ is_grant_asked peer path.now }
{
    is_named(peer, path.peer) && matches!(path.part, Part::Granted(_))
}

/// Tests whether the deletion of an LSP of the peer is awaited.
fn is_deletion_asked(peer: Option<u32>, known: &Record) -> bool
    ensures { result ≡ is_deletion_asked peer known.now }
{
    is_named(peer, known.peer) && known.lsp.removing.is_some()
}

/// Tests whether a path is a grant of the peer.
#[derive(Clone, Copy)]
struct GrantAsked {
    peer: Option<u32>,
}

impl Test<Path> for GrantAsked {
    ghost use Rattle.pce_seen.specs.Grants.{is_grant_asked};

    ghost passes = { λ s x. is_grant_asked s.peer x };

    fn passes(&self, path: &Path) -> bool {
        is_grant_asked(self.peer, path)
    }
}

/// Tests whether the deletion of an LSP of the peer is awaited.
#[derive(Clone, Copy)]
struct DeletionAsked {
    peer: Option<u32>,
}

impl Test<Record> for DeletionAsked {
    ghost use Rattle.pce_seen.specs.Grants.{is_deletion_asked};

    ghost passes = { λ s r. is_deletion_asked s.peer r };

    fn passes(&self, known: &Record) -> bool {
        is_deletion_asked(self.peer, known)
    }
}

/// Finds where a page ends, counted from its start; `None` if it has all that is left.
fn page_end(paths: &[Path], records: &[Record], peer: Option<u32>) -> Option<usize>
    ensures few_grants { length (filter (is_grant_asked peer) (up_to paths.now result)) ≤ 256 }
    ensures few_deletions { length (filter (is_deletion_asked peer) (up_to records.now result)) ≤ 256 }
    ensures full { IfSome result (λ n. max (length (filter (is_grant_asked peer) (take n paths.now))) (length (filter (is_deletion_asked peer) (take n records.now))) ≡ 256) }
    ensures some { IfSome result (λ n. (0 < n) × (n < max (length paths.now) (length records.now))) }
{
    let grants = full_at(paths, &GrantAsked { peer });
    let deletions = full_at(records, &DeletionAsked { peer });
    sooner(grants, deletions)
}

/// The paths and the records that a page of grants covers.
#[derive(Clone, Copy)]
pub struct GrantSpan<'a> {
    pub paths: &'a [Path],
    pub records: &'a [Record],
    /// The place of the next page.
    pub next: Option<u64>,
}

/// Finds what a page of grants covers that starts at this place, for one peer or for all.
pub fn grant_span(lsps: &LspBase, peer: Option<u32>, from: u64) -> GrantSpan<'_>
    ensures paths { result.paths.now ≡ passed lsps.now.content.paths from result.next }
    ensures records { result.records.now ≡ passed lsps.now.content.records from result.next }
    ensures span { IsGrantSpan lsps.now.content peer from result.next }
{
    let paths = items_from(lsps.paths(), from);
    let records = items_from(lsps.records(), from);
    match page_end(paths, records, peer) {
        Some(size) => GrantSpan {
            paths: items_up_to(paths, size),
            records: items_up_to(records, size),
            next: Some(from + size as u64),
        },
        None => GrantSpan {
            paths,
            records,
            next: None,
        },
    }
}

/// Returns the deletion of an LSP, with the SRP-ID under which it is awaited.
fn deletion_of(known: &Record) -> Deletion
    ensures { result ≡ deletion_of known.now }
{
    Deletion {
        peer: known.peer,
        plsp: known.plsp,
        srp: known.lsp.removing.unwrap_or(0),
    }
}

/// Lists the awaited deletions of a peer, or of all peers.
pub fn deletions_of(
    alloc: Global,
    peer: Option<u32>,
    records: &[Record],
) -> Result<Vec<Deletion>, AllocError>
    ensures { IfOk result (λ deletions. deletions.items ≡ map deletion_of (filter (is_deletion_asked peer) records.now)) }
{
    let mut deletions = Vec::new(alloc);
    for known in records {
        if is_deletion_asked(peer, known) {
            deletions.push(deletion_of(known))?;
        }
    }
    Ok(deletions)
}
