//! What the network of a link text has.

use std::alloc::{AllocError, Global};
use std::fmt::Write;
use te_base::{Link, LinkNumber, NodeNumber, TeBase};

fn name_of(base: &TeBase, node: NodeNumber) -> &str {
    match base.node(node) {
        Some((name, _, _)) => name,
        None => "",
    }
}

/// Adds a line about a link.
fn add_link(
    base: &TeBase,
    number: LinkNumber,
    link: Link,
    says: &str,
    text: &mut String,
) -> Result<(), AllocError> {
    let (from, to) = (name_of(base, link.from), name_of(base, link.to));
    write!(text, "\nlink {number} ({from:?} to {to:?}): {says}")
}

fn has_way_back(links: &[Link], link: Link) -> bool {
    links
        .iter()
        .any(|other| other.from == link.to && other.to == link.from)
}

/// Adds the links without a link the other way, and those on which nothing may be reserved.
fn add_links(base: &TeBase, text: &mut String) -> Result<(), AllocError> {
    let links = base.links();
    for (number, link) in links.iter().enumerate() {
        if !has_way_back(links, *link) {
            add_link(base, number, *link, "no link leads back", text)?;
        }
        if link.reservable == 0 {
            add_link(base, number, *link, "reservable is 0", text)?;
        }
    }
    Ok(())
}

/// Adds the nodes that no link leaves.
fn add_nodes(base: &TeBase, text: &mut String) -> Result<(), AllocError> {
    let links = base.links();
    for number in 0..base.node_count() {
        if !links.iter().any(|link| link.from == number) {
            let name = name_of(base, number);
            write!(text, "\nnode {number} ({name:?}): no link leaves it")?;
        }
    }
    Ok(())
}

/// Gives both ends of a link the lesser of their marks; whether one changed.
fn join(marks: &mut [usize], link: Link) -> bool {
    let (Some(from), Some(to)) = (marks.get(link.from), marks.get(link.to)) else {
        return false;
    };
    let (from, to) = (*from, *to);
    let least = from.min(to);
    for node in [link.from, link.to] {
        if let Some(mark) = marks.get_mut(node) {
            *mark = least;
        }
    }
    from != to
}

fn join_all(marks: &mut [usize], links: &[Link]) -> bool {
    let mut changed = false;
    for link in links {
        changed = join(marks, *link) || changed;
    }
    changed
}

/// Counts the parts that no link joins, whichever way it leads: the nodes that keep their own mark when each node takes
/// the least mark of those that it is joined with.
fn part_count(marks: &mut [usize], links: &[Link]) -> usize {
    for _ in 0..marks.len() {
        if !join_all(marks, links) {
            break;
        }
    }
    marks
        .iter()
        .enumerate()
        .filter(|(node, mark)| **mark == *node)
        .count()
}

/// Adds how many parts there are, where they are not one.
fn add_parts(base: &TeBase, marks: &mut [usize], text: &mut String) -> Result<(), AllocError> {
    let parts = part_count(marks, base.links());
    if parts < 2 {
        return Ok(());
    }
    write!(text, "\n{parts} parts that no link joins")
}

/// Adds what the network has: nodes and links, and what may be forgotten in it.
pub fn add_summary(alloc: Global, base: &TeBase, text: &mut String) -> Result<(), AllocError> {
    let (nodes, links) = (base.node_count(), base.link_count());
    write!(text, "{nodes} nodes, {links} links")?;
    add_links(base, text)?;
    add_nodes(base, text)?;
    let mut marks: Vec<usize> = (0..nodes).collect(alloc)?;
    add_parts(base, &mut marks, text)
}
