//! The links that a route uses.
ghost use Rattle.std.specs.Prelude.{◌≡◌, ◌<◌, IfOk, IfSome, fold, length};
ghost use Rattle.te_base.specs.Walk.{AreMarks, walk, with_link_once, stepped, hopped, place_of};
ghost use Rattle.te_base.specs.Views.{base_in};

use crate::links::chosen;
use crate::network::{LinkNumber, NodeNumber, Parts};
use lsp_words::Hop;
use pcep_word::Ipv4;
use std::alloc::{AllocError, Global};

/// Where a walk is: the current node, the remembered address, and the links so far.
#[derive(Drop)]
struct Walker {
    node: NodeNumber,
    remembered: Option<Ipv4>,
    links: Vec<LinkNumber>,
    /// Whether the walk has the link, for each link of the TED.
    marks: Vec<bool>,
}

fn add_once(
    links: &mut Vec<LinkNumber>,
    marks: &mut Vec<bool>,
    link: Option<LinkNumber>,
) -> Result<(), AllocError>
    requires marks { AreMarks marks.old.items links.old.items }
    requires within { IfSome link (λ l. l < length marks.old.items) }
    ensures links { IfOk result (λ _. links.new.items ≡ with_link_once links.old.items link) }
    ensures marks { IfOk result (λ _. AreMarks marks.new.items links.new.items) }
    ensures count { length marks.new.items ≡ length marks.old.items }
{
    if let Some(link) = link {
        if !marks[link] {
            marks[link] = true;
            links.push(link)?;
        }
    }
    Ok(())
}

fn step(parts: &Parts, walker: &mut Walker, address: Ipv4) -> Result<(), AllocError>
    requires marks { AreMarks walker.old.marks.items walker.old.links.items }
    requires count { length walker.old.marks.items ≡ length parts.now.links.items }
    ensures place { IfOk result (λ _. place_of walker.new ≡ stepped (base_in parts.now) (place_of walker.old) address) }
    ensures marks { IfOk result (λ _. AreMarks walker.new.marks.items walker.new.links.items) }
    ensures count { length walker.new.marks.items ≡ length parts.now.links.items }
{
    let Some(node) = parts.owners.node(address) else {
        return Ok(());
    };
    if node == walker.node {
        walker.remembered = Some(address);
        return Ok(());
    }
    let link = chosen(&parts.links, walker.node, node, address, walker.remembered);
    add_once(&mut walker.links, &mut walker.marks, link)?;
    walker.node = node;
    walker.remembered = None;
    Ok(())
}

fn walk_hops(parts: &Parts, walker: &mut Walker, hops: &[Hop]) -> Result<(), AllocError>
    requires marks { AreMarks walker.old.marks.items walker.old.links.items }
    requires count { length walker.old.marks.items ≡ length parts.now.links.items }
    ensures place { IfOk result (λ _. place_of walker.new ≡ fold (hopped (base_in parts.now)) (place_of walker.old) hops.now) }
    ensures marks { IfOk result (λ _. AreMarks walker.new.marks.items walker.new.links.items) }
    ensures count { length walker.new.marks.items ≡ length parts.now.links.items }
{
    for hop in hops {
        if let Hop::Host(address, _) = hop {
            step(parts, walker, *address)?;
        }
    }
    Ok(())
}

pub(crate) fn walk_parts(
    alloc: Global,
    parts: &Parts,
    start: Ipv4,
    hops: &[Hop],
    end: Ipv4,
) -> Result<Vec<LinkNumber>, AllocError>
    ensures { IfOk result (λ v. v.items ≡ walk (base_in parts.now) start hops.now end) }
{
    let Some(node) = parts.owners.node(start) else {
        return Ok(Vec::new(alloc));
    };
    let mut walker = Walker {
        node,
        remembered: None,
        links: Vec::new(alloc),
        marks: vec![in alloc; false; parts.links.as_slice().len()]?,
    };
    walk_hops(parts, &mut walker, hops)?;
    step(parts, &mut walker, end)?;
    Ok(walker.links)
}
