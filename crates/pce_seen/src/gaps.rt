//! Where the route of a path has a gap (`specs/Gaps.antt`).
ghost use Rattle.std.specs.Prelude.{◌≡◌};
ghost use Rattle.pce_seen.specs.Gaps.{from_of, gap_after, gap_between, gap_in, meets, owner_or, to_of};

use lsp_base::{Constraints, Part, Path};
use pcep_word::Ipv4;
use sequence::PlainData;
use std::alloc::AllocError;
use te_base::{Link, LinkNumber, NodeNumber, TeBase};

/// The place of a gap in a route: its links, one after the other, don't lead from the sender of the LSP to its
/// endpoint.
#[derive(Clone, Copy, Debug, PartialEq, Eq)]
pub enum Gap {
    /// The first link doesn't leave the sender.
    Before(LinkNumber),
    /// The next link doesn't leave the node to which this one leads, or the last one doesn't lead to the endpoint.
    After(LinkNumber),
}

impl PlainData for Gap {
    fn copy(&self) -> Result<Gap, AllocError> {
        Ok(*self)
    }
}

/// Returns the node that a link leaves.
fn from_of(links: &[Link], link: LinkNumber) -> Option<NodeNumber>
    ensures { result ≡ from_of links.now link }
{
    match links.get(link) {
        Some(link) => Some(link.from),
        None => None,
    }
}

/// Returns the node that a link reaches.
fn to_of(links: &[Link], link: LinkNumber) -> Option<NodeNumber>
    ensures { result ≡ to_of links.now link }
{
    match links.get(link) {
        Some(link) => Some(link.to),
        None => None,
    }
}

/// Tests whether both are one node, or one of them isn't known.
fn meets(a: Option<NodeNumber>, b: Option<NodeNumber>) -> bool
    ensures { result ≡ meets a b }
{
    match (a, b) {
        (Some(a), Some(b)) => a == b,
        _ => true,
    }
}

/// Finds the first gap of a route that has come to a node, and should end at another.
fn gap_after(
    links: &[Link],
    end: Option<NodeNumber>,
    from: Gap,
    start: Option<NodeNumber>,
    route: &[LinkNumber],
) -> Option<Gap>
    ensures { result ≡ gap_after links.now end from start route.now }
{
    let mut here = from;
    let mut node = start;
    for link in route {
        if !meets(node, from_of(links, *link)) {
            return Some(here);
        }
        here = Gap::After(*link);
        node = to_of(links, *link);
    }
    if meets(node, end) { None } else { Some(here) }
}

/// Finds the first gap of a route from one node to another.
fn gap_between(
    links: &[Link],
    start: Option<NodeNumber>,
    end: Option<NodeNumber>,
    route: &[LinkNumber],
) -> Option<Gap>
    ensures { result ≡ gap_between links.now start end route.now }
{
    match route.first() {
        Some(first) => gap_after(links, end, Gap::Before(*first), start, route),
        None => None,
    }
}

/// Finds the node that owns an address.
fn owner_or(te: &TeBase, address: Option<Ipv4>) -> Option<NodeNumber>
    ensures { result ≡ owner_or te.now.owners address }
{
    match address {
        Some(address) => te.owner(address),
        None => None,
    }
}

/// Finds the first gap of a path that was reported, between the ends of its LSP. Allocates nothing.
pub(crate) fn gap_of(te: &TeBase, constraints: &Constraints, path: &Path) -> Option<Gap>
    ensures { result ≡ gap_in te.now constraints.now path.now }
{
    match path.part {
        Part::Reported(_) => gap_between(
            te.links(),
            owner_or(te, constraints.source),
            owner_or(te, constraints.destination),
            path.links.as_slice(),
        ),
        Part::Granted(_) => None,
    }
}
