//! A search by numbers of links, in rounds.
ghost use Rattle.std.specs.Prelude.{IsTrue, ◌*◌, ◌≡◌, ◌≢◌, ◌⊎◌, ◌<◌, ◌≤◌, ◌+◌, ◌^◌, length, slice_index, IfOk, IfSome, IfNone, Some, List, [], ℕ};
ghost use Rattle.std.specs.List.{slice_get};
ghost use Rattle.te_base.specs.declared.network.Link.{Link};
ghost use Rattle.path_finder.specs.Passing.{toll};
ghost use Rattle.path_finder.specs.Walks.{HasMetrics, InRange, IsBelow, IsFirst, IsFront, IsLeastWalk, IsMade, IsNext, Leads, NoneWithin, Reaches};

use crate::filter::toll;
use crate::found::Found;
use crate::query::{Ends, Query};
use sequence::Sequence;
use std::alloc::{AllocError, Global};
use te_base::{Link, LinkNumber, NodeNumber};

/// Lowers what the row has for the link's first node, if the link and the old row make less.
fn lower(query: &Query<'_>, number: usize, link: &Link, old: &[u32], row: &mut [u32], limit: u32)
    requires from { link.now.from < length row.old }
    requires to { link.now.to < length old.now }
    requires limit { limit ≤ 2 ^ 31 }
    requires igp { link.now.igp < 2 ^ 24 }
    requires te { link.now.te < 2 ^ 24 }
    ensures below { (v : ℕ) → slice_index row.new v ≤ slice_index row.old v }
    ensures reaches { Reaches query.now old.now row.new limit number link.now }
    ensures made { (v : ℕ) → (slice_index row.new v ≡ slice_index row.old v) ⊎ ((v ≡ link.now.from) × (price : ℕ) × (toll query.now number link.now ≡ Some price) × (slice_index row.new v ≡ price + slice_index old.now link.now.to)) }
{
    let rest = old[link.to];
    let here = row[link.from];
    if rest < limit {
        if let Some(price) = toll(query, number, link) {
            if price + rest < here {
                row[link.from] = price + rest;
            }
        }
    }
}

fn lower_all(query: &Query<'_>, links: &[Link], old: &[u32], row: &mut [u32], limit: u32)
    requires metrics { HasMetrics links.now }
    requires links { InRange links.now (length old.now) }
    requires row { row.old ≡ old.now }
    requires limit { limit ≤ 2 ^ 31 }
    ensures { IsNext query.now links.now old.now row.new limit }
{
    for (number, link) in links.iter().enumerate() {
        lower(query, number, link, old, row, limit);
    }
}

fn next_row(
    alloc: Global,
    query: &Query<'_>,
    links: &[Link],
    old: &[u32],
    limit: u32,
) -> Result<Vec<u32>, AllocError>
    requires metrics { HasMetrics links.now }
    requires links { InRange links.now (length old.now) }
    requires limit { limit ≤ 2 ^ 31 }
    ensures { IfOk result (λ row. IsNext query.now links.now old.now row.items limit) }
{
    let mut row = old.to_vec(alloc)?;
    lower_all(query, links, old, &mut row, limit);
    Ok(row)
}

fn is_made_by(
    query: &Query<'_>,
    number: usize,
    link: &Link,
    old: &[u32],
    at: usize,
    cost: u32,
) -> Option<u32>
    requires to { link.now.to < length old.now }
    requires igp { link.now.igp < 2 ^ 24 }
    requires te { link.now.te < 2 ^ 24 }
    ensures some { IfSome result (λ price. (link.now.from ≡ at) × (toll query.now number link.now ≡ Some price) × (cost ≡ price + slice_index old.now link.now.to) × (price < 2 ^ 24)) }
    ensures none { IfNone result ((price : ℕ) → link.now.from ≡ at → toll query.now number link.now ≡ Some price → cost ≢ price + slice_index old.now link.now.to) }
{
    if link.from != at {
        return None;
    }
    let rest = old[link.to];
    match toll(query, number, link) {
        Some(price) if rest <= cost && cost - rest == price => Some(price),
        _ => None,
    }
}

/// A link to take.
#[derive(Clone, Copy, Debug)]
struct Taken {
    number: usize,
    price: u32,
    to: NodeNumber,
}

/// Finds the link that makes the cost from a node.
fn follow(query: &Query<'_>, links: &[Link], old: &[u32], at: usize, cost: u32) -> Option<Taken>
    requires metrics { HasMetrics links.now }
    requires links { InRange links.now (length old.now) }
    ensures some { IfSome result (λ t. (link : Link) × (slice_get links.now t.number ≡ Some link) × (link.from ≡ at) × (link.to ≡ t.to) × (t.to < length old.now) × (toll query.now t.number link ≡ Some t.price) × (cost ≡ t.price + slice_index old.now t.to) × (t.price < 2 ^ 24)) }
    ensures none { IfNone result (¬ IsMade query.now links.now old.now at cost) }
{
    for (number, link) in links.iter().enumerate() {
        if let Some(price) = is_made_by(query, number, link, old, at, cost) {
            return Some(Taken {
                number,
                price,
                to: link.to,
            });
        }
    }
    None
}

/// Where the front of a walk ends, and what it costs.
#[derive(Clone, Copy, Debug)]
struct Frontier {
    at: usize,
    paid: u32,
}

/// How many links the row covers, and how many are to come.
#[derive(Clone, Copy, Debug)]
struct Count {
    used: usize,
    left: usize,
}

/// Computes the front for the older row from that for the newer one.
fn step_back(
    query: &Query<'_>,
    links: &[Link],
    row: &[u32],
    next: &[u32],
    ends: Ends,
    count: Count,
    front: Frontier,
    path: &mut Vec<LinkNumber>,
) -> Result<Frontier, AllocError>
    requires metrics { HasMetrics links.now }
    requires links { InRange links.now (length row.now) }
    requires next { IsNext query.now links.now row.now next.now ends.limit }
    requires count { count.left < 64 }
    requires front { IsFront query.now links.now ends.source ends.destination ends.limit next.now (count.used + 1) count.left path.old.items front.at front.paid }
    ensures { IfOk result (λ f. IsFront query.now links.now ends.source ends.destination ends.limit row.now count.used (count.left + 1) path.new.items f.at f.paid) }
{
    // only for the proof: counts and limits are in their types' ranges
    let _count = count;
    let _ends = ends;
    let cost = next[front.at];
    if cost == row[front.at] {
        return Ok(front);
    }
    match follow(query, links, row, front.at, cost) {
        None => unreachable!(),
        Some(taken) => {
            path.push(taken.number)?;
            Ok(Frontier {
                at: taken.to,
                paid: front.paid + taken.price,
            })
        }
    }
}

fn is_same(next: &[u32], row: &[u32]) -> bool
    ensures { IsTrue result → next.now ≡ row.now }
{
    next == row
}

/// Finds the front of a least walk of at most `count.left` links more than the row knows.
fn extend(
    alloc: Global,
    query: &Query<'_>,
    links: &[Link],
    row: &[u32],
    ends: Ends,
    count: Count,
    path: &mut Vec<LinkNumber>,
) -> Result<Frontier, AllocError>
    requires metrics { HasMetrics links.now }
    requires links { InRange links.now (length row.now) }
    requires source { ends.source < length row.now }
    requires limit { ends.limit ≤ 2 ^ 31 }
    requires count { count.used + count.left ≤ 64 }
    requires path { path.old.items ≡ [] }
    requires row { IsBelow query.now links.now ends.destination ends.limit row.now count.used }
    ensures { IfOk result (λ f. IsFront query.now links.now ends.source ends.destination ends.limit row.now count.used count.left path.new.items f.at f.paid) }
{
    if count.left == 0 {
        return Ok(Frontier {
            at: ends.source,
            paid: 0,
        });
    }
    let next = next_row(alloc, query, links, row, ends.limit)?;
    if is_same(&next, row) {
        return Ok(Frontier {
            at: ends.source,
            paid: 0,
        });
    }
    let count = Count {
        used: count.used + 1,
        left: count.left - 1,
    };
    let front = extend(alloc, query, links, &next, ends, count, path)?;
    step_back(
        query,
        links,
        row,
        &next,
        ends,
        Count {
            used: count.used - 1,
            left: count.left,
        },
        front,
        path,
    )
}

fn first_row(
    alloc: Global,
    nodes: usize,
    destination: usize,
    limit: u32,
) -> Result<Vec<u32>, AllocError>
    requires { destination < nodes }
    ensures { IfOk result (λ row. (length row.items ≡ nodes) × IsFirst row.items destination limit) }
{
    let mut row = vec![in alloc; limit; nodes]?;
    row[destination] = 0;
    Ok(row)
}

/// Makes a walk of a front that has all its links.
fn whole(row: &[u32], ends: Ends, front: Frontier, links: Vec<LinkNumber>) -> Option<Found>
    requires at { front.at < length row.now }
    requires small { front.paid ≤ 2 ^ 30 }
    requires limit { ends.limit ≤ 2 ^ 31 }
    ensures some { IfSome result (λ f. (f.links ≡ links.items) × (f.cost ≡ front.paid + slice_index row.now front.at) × (f.cost < ends.limit)) }
    ensures none { IfNone result (ends.limit ≤ front.paid + slice_index row.now front.at) }
{
    let rest = row[front.at];
    if rest >= ends.limit {
        return None;
    }
    let cost = front.paid + rest;
    if cost < ends.limit {
        Some(Found {
            links: Sequence::from_vec(links),
            cost: u64::from(cost),
        })
    } else {
        None
    }
}

fn from_first(
    alloc: Global,
    query: &Query<'_>,
    links: &[Link],
    row: &[u32],
    ends: Ends,
    hops: usize,
) -> Result<Option<Found>, AllocError>
    requires metrics { HasMetrics links.now }
    requires links { InRange links.now (length row.now) }
    requires source { ends.source < length row.now }
    requires limit { ends.limit ≤ 2 ^ 31 }
    requires hops { hops ≤ 64 }
    requires row { IsFirst row.now ends.destination ends.limit }
    ensures some { IfOk result (λ r. IfSome r (λ f. IsLeastWalk query.now links.now ends.source ends.destination ends.limit hops f.links f.cost)) }
    ensures none { IfOk result (λ r. IfNone r (NoneWithin query.now links.now ends.source ends.destination ends.limit hops)) }
{
    let mut path = Vec::new(alloc);
    let front = extend(
        alloc,
        query,
        links,
        row,
        ends,
        Count {
            used: 0,
            left: hops,
        },
        &mut path,
    )?;
    Ok(whole(row, ends, front, path))
}

/// Finds a least walk of at most `hops` links, if one costs less than the limit.
pub(crate) fn by_rounds(
    alloc: Global,
    query: &Query<'_>,
    ends: Ends,
    hops: usize,
) -> Result<Option<Found>, AllocError>
    requires source { ends.source < query.now.topology.now.nodes }
    requires destination { ends.destination < query.now.topology.now.nodes }
    requires limit { ends.limit ≤ 2 ^ 31 }
    requires hops { hops ≤ 64 }
    ensures some { IfOk result (λ r. IfSome r (λ f. IsLeastWalk query.now query.now.topology.now.links ends.source ends.destination ends.limit hops f.links f.cost)) }
    ensures none { IfOk result (λ r. IfNone r (NoneWithin query.now query.now.topology.now.links ends.source ends.destination ends.limit hops)) }
{
    let row = first_row(
        alloc,
        query.topology.node_count(),
        ends.destination,
        ends.limit,
    )?;
    from_first(alloc, query, query.topology.links(), &row, ends, hops)
}
