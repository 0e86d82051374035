//! LSPs with their paths, and a link with the paths over it.
ghost use Rattle.std.specs.Prelude.{◌≡◌, ◌<◌, [], Some, length, slice_get, IfOk, if◌then◌else◌};
ghost use Rattle.te_base.specs.Ted.{IsLinkAmong};
ghost use Rattle.history_core.specs.Histories.{steps_of};
ghost use Rattle.pce_seen.specs.Lsps.{held_on, IsPage};
ghost use Rattle.database_looks.specs.Looks.{IsUse, SeesLink};

use crate::left::left_on;
use crate::nodes::node_at;
use history_core::Database;
use pce_seen::{HeldPath, LinkUse, LspPage, held_on, page_of};
use std::alloc::{AllocError, Global};
use te_base::{Link, LinkNumber, Node, TeBase};

/// Copies a page of LSPs, of one peer or of all, from this place on.
pub fn page_at(
    alloc: Global,
    database: &Database,
    peer: Option<u32>,
    from: u64,
) -> Result<LspPage, AllocError>
    ensures page { IfOk result (IsPage database.now.state.base peer from) }
    ensures steps { IfOk result (λ page. page.steps ≡ steps_of database.now) }
{
    page_of(alloc, database.state().lsps(), database.steps(), peer, from)
}

/// Copies the ends of a link.
fn ends_of(alloc: Global, te: &TeBase, link: &Link) -> Result<(Node, Node), AllocError>
    requires from { link.now.from < length te.now.nodes }
    requires to { link.now.to < length te.now.nodes }
    ensures from { IfOk result (λ ends. slice_get te.now.nodes link.now.from ≡ Some ends.0) }
    ensures to { IfOk result (λ ends. slice_get te.now.nodes link.now.to ≡ Some ends.1) }
{
    let from = node_at(alloc, te, link.from)?;
    match node_at(alloc, te, link.to) {
        Ok(to) => Ok((from, to)),
        Err(error) => {
            drop(from);
            Err(error)
        }
    }
}

/// Joins a link with its ends, what is left of it and the paths over it.
fn use_of(link: Link, ends: (Node, Node), left: [i64; 8], paths: Vec<HeldPath>) -> LinkUse
    ensures { result ≡ record { link = link; from = ends.0; to = ends.1; left = left; paths = paths } }
{
    let (from, to) = ends;
    LinkUse {
        link,
        from,
        to,
        left,
        paths,
    }
}

/// Lists what the paths over a link hold, if they should be listed. That takes a pass over all paths.
fn held_where(
    alloc: Global,
    database: &Database,
    number: LinkNumber,
    lists_paths: bool,
) -> Result<Vec<HeldPath>, AllocError>
    ensures { IfOk result (λ held. held.items ≡ (if lists_paths then held_on database.now.state.base.paths number else [])) }
{
    if lists_paths {
        held_on(alloc, database.state().lsps().paths(), number)
    } else {
        Ok(Vec::new(alloc))
    }
}

/// Sees a link that exists.
fn see_use(
    alloc: Global,
    database: &Database,
    number: LinkNumber,
    link: Link,
    lists_paths: bool,
) -> Result<LinkUse, AllocError>
    requires link { slice_get database.now.state.te.links number ≡ Some link }
    requires among { IsLinkAmong (length database.now.state.te.nodes) link }
    ensures { IfOk result (IsUse database.now number lists_paths) }
{
    let paths = held_where(alloc, database, number, lists_paths)?;
    let left = left_on(database, number);
    let ends = ends_of(alloc, database.te_base(), &link)?;
    Ok(use_of(link, ends, left, paths))
}

/// Sees a link, with the paths over it if they should be listed; `None` if there is no such link.
pub fn see_link(
    alloc: Global,
    database: &Database,
    link: u64,
    lists_paths: bool,
) -> Result<Option<LinkUse>, AllocError>
    ensures { IfOk result (SeesLink link lists_paths database.now) }
{
    let number = link as usize;
    match database.te_base().link(number) {
        Some(link) => Ok(Some(see_use(alloc, database, number, link, lists_paths)?)),
        None => Ok(None),
    }
}
