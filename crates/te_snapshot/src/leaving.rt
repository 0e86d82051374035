//! The links that leave each node, and those that enter it.
ghost use Rattle.std.specs.Prelude.{◌≡◌, ◌<◌, ◌≤◌, ◌++◌, ◌==◌, ℕ, [], ◌∷◌, IfOk, OnOk, All, length, map, if◌then◌else◌};
ghost use Rattle.te_base.specs.Ted.{IsLinkAmong};
ghost use Rattle.te_snapshot.specs.Leaving.{arc_of, entering, leaving, listed, turned};
ghost use Rattle.te_snapshot.specs.Spans.{list_of};

use crate::outgoing::Outgoing;
use crate::spans::Arcs;
use std::alloc::{AllocError, Global};
use te_base::{Link, LinkNumber};

/// Appends the link to those that leave its node.
fn add(lists: &mut [Vec<Outgoing>], number: LinkNumber, link: &Link) -> Result<(), AllocError>
    requires { link.now.from < length lists.old }
    ensures { OnOk result ((v : ℕ) → listed lists.new v
        ≡ listed lists.old v ++ (if link.now.from == v then arc_of number link.now ∷ [] else [])) }
{
    let list = &mut lists[link.from];
    list.push(Outgoing::of(number, link))?;
    Ok(())
}

fn add_all(lists: &mut [Vec<Outgoing>], links: &[Link]) -> Result<(), AllocError>
    requires among { All (IsLinkAmong (length lists.old)) links.now }
    requires empty { (v : ℕ) → listed lists.old v ≡ [] }
    ensures { OnOk result ((v : ℕ) → listed lists.new v ≡ leaving links.now v) }
{
    for (number, link) in links.iter().enumerate() {
        add(lists, number, link)?;
    }
    Ok(())
}

fn empty(alloc: Global, nodes: usize) -> Result<Vec<Vec<Outgoing>>, AllocError>
    ensures count { IfOk result (λ lists. length lists.items ≡ nodes) }
    ensures empty { IfOk result (λ lists. (v : ℕ) → listed lists.items v ≡ []) }
{
    let mut lists = Vec::with_capacity(alloc, nodes)?;
    for _ in 0..nodes {
        lists.push(Vec::new(alloc))?;
    }
    Ok(lists)
}

fn lists_of(alloc: Global, links: &[Link], nodes: usize) -> Result<Vec<Vec<Outgoing>>, AllocError>
    requires { All (IsLinkAmong nodes) links.now }
    ensures count { IfOk result (λ lists. length lists.items ≡ nodes) }
    ensures leaving { IfOk result (λ lists. (v : ℕ) → listed lists.items v ≡ leaving links.now v) }
{
    let mut lists = empty(alloc, nodes)?;
    add_all(&mut lists, links)?;
    Ok(lists)
}

/// Lists for each node the links that leave it, in the order of their numbers.
pub(crate) fn leaving(alloc: Global, links: &[Link], nodes: usize) -> Result<Arcs, AllocError>
    requires { All (IsLinkAmong nodes) links.now }
    ensures count { IfOk result (λ arcs. length arcs ≡ nodes) }
    ensures leaving { IfOk result (λ arcs. (v : ℕ) → list_of arcs v ≡ leaving links.now v) }
{
    let lists = lists_of(alloc, links, nodes)?;
    Arcs::new(alloc, &lists)
}

/// Turns the link round.
fn turned(link: &Link) -> Link
    ensures { result ≡ turned link.now }
{
    Link {
        from: link.to,
        to: link.from,
        local: link.remote,
        remote: link.local,
        igp: link.igp,
        te: link.te,
        colour: link.colour,
        reservable: link.reservable,
    }
}

/// Turns the links round, each at its number.
fn all_turned(alloc: Global, links: &[Link]) -> Result<Vec<Link>, AllocError>
    ensures { IfOk result (λ all. all.items ≡ map turned links.now) }
{
    let mut all = Vec::with_capacity(alloc, links.len())?;
    for link in links {
        all.push(turned(link))?;
    }
    Ok(all)
}

/// Lists for each node the links that enter it, in the order of their numbers, each turned round.
pub(crate) fn entering(alloc: Global, links: &[Link], nodes: usize) -> Result<Arcs, AllocError>
    requires { All (IsLinkAmong nodes) links.now }
    ensures count { IfOk result (λ arcs. length arcs ≡ nodes) }
    ensures entering { IfOk result (λ arcs. (v : ℕ) → list_of arcs v ≡ entering links.now v) }
{
    let all = all_turned(alloc, links)?;
    leaving(alloc, &all, nodes)
}
