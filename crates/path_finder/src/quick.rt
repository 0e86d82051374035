//! A quick search that nobody has to trust, since what it finds is tested. It goes along links from the source and
//! against them from the destination. It ends when the nodes that both sides have still to go on from cost more
//! together than the cheapest walk on which they met.
ghost use Rattle.std.specs.Prelude.{◌≡◌, ◌<◌, ◌≤◌, ◌^◌, All, length, IfOk, OnOk};
ghost use Rattle.te_snapshot.specs.Leaving.{IsArcAmong};
ghost use Rattle.path_finder.specs.Sides.{IsOver};

use crate::filter::{is_open, metric};
use crate::query::{Ends, Query};
use crate::queue::{Reached, least_cost, pop, push};
use std::alloc::{AllocError, Global};
use te_base::{Link, LinkNumber, NodeNumber};
use te_snapshot::Outgoing;

/// The label of a node to which no walk is known.
const FAR: u32 = u32::MAX;

/// Which way a side goes over links.
#[derive(Clone, Copy, Debug, PartialEq, Eq)]
pub(crate) enum Direction {
    Along,
    Against,
}

/// What is known from one end: the cost of each node, the link by which it is reached, and from which nodes to
/// go on.
#[derive(Debug, Drop)]
pub(crate) struct Side {
    direction: Direction,
    costs: Vec<u32>,
    via: Vec<LinkNumber>,
    heap: Vec<Reached>,
}

/// The cheapest walk that both sides know, and the node at which they meet on it.
#[derive(Clone, Copy, Debug)]
pub(crate) struct Met {
    cost: u32,
    node: NodeNumber,
}

/// Labels of all nodes, and by which links both sides reached them.
#[derive(Debug, Drop)]
pub(crate) struct Labels {
    pub costs: Vec<u32>,
    /// The label of each node that neither side settled.
    pub middle: u32,
    pub ways: Ways,
}

/// The links by which nodes are reached from the source, and those by which they reach the destination.
#[derive(Debug, Drop)]
pub(crate) struct Ways {
    from_source: Vec<LinkNumber>,
    to_destination: Vec<LinkNumber>,
    meeting: NodeNumber,
}

/// Makes a side that knows only its end.
fn start(
    alloc: Global,
    direction: Direction,
    nodes: usize,
    end: NodeNumber,
) -> Result<Side, AllocError>
    requires few { nodes ≤ 1024 }
    requires end { end < nodes }
    ensures { IfOk result (IsOver nodes) }
{
    let mut costs = vec![in alloc; FAR; nodes]?;
    let via: Vec<LinkNumber> = vec![in alloc; 0; nodes]?;
    let mut heap: Vec<Reached> = Vec::with_capacity(alloc, 256)?;
    costs[end] = 0;
    heap.push(Reached {
        cost: 0,
        node: end as u32,
    })?;
    Ok(Side {
        direction,
        costs,
        via,
        heap,
    })
}

/// Lends the links by which a side goes on from a node.
#[inline(always)]
fn arcs_at<'a>(query: &Query<'a>, direction: Direction, node: NodeNumber) -> &'a [Outgoing]
    requires { node < query.now.topology.now.nodes }
    ensures { All (IsArcAmong query.now.topology.now.nodes) result.now }
{
    match direction {
        Direction::Along => query.topology.leaving(node),
        Direction::Against => query.topology.entering(node),
    }
}

/// Remembers the walk over a node, given its costs on both sides, if it is the cheapest.
#[inline(always)]
fn join(met: &mut Met, node: NodeNumber, here: u32, there: u32)
    requires { here < met.old.cost }
    ensures { met.new.cost ≤ met.old.cost }
{
    if there < met.cost - here {
        *met = Met {
            cost: here + there,
            node,
        };
    }
}

/// Lowers the labels at the far ends of the links by which a side goes on from a node of this cost.
#[inline(always)]
fn settle(
    query: &Query<'_>,
    arcs: &[Outgoing],
    cost: u32,
    costs: &mut [u32],
    via: &mut [LinkNumber],
    heap: &mut Vec<Reached>,
    there: &[u32],
    met: &mut Met,
) -> Result<(), AllocError>
    requires among { All (IsArcAmong (length costs.old)) arcs.now }
    requires few { length costs.old ≤ 1024 }
    requires via { length via.old ≡ length costs.old }
    requires there { length there.now ≡ length costs.old }
    requires cost { cost < 2 ^ 31 }
    requires met { met.old.cost ≤ 2 ^ 31 }
    ensures { OnOk result (met.new.cost ≤ 2 ^ 31) }
{
    for arc in arcs {
        let total = cost + metric(query.constraints.minimise, arc);
        if total < costs[arc.to] && total < met.cost && is_open(query, arc) {
            costs[arc.to] = total;
            via[arc.to] = arc.number;
            join(met, arc.to, total, there[arc.to]);
            push(
                heap,
                Reached {
                    cost: total,
                    node: arc.to as u32,
                },
            )?;
        }
    }
    Ok(())
}

/// Goes one node on from a side.
#[inline(always)]
fn advance(
    query: &Query<'_>,
    here: &mut Side,
    there: &Side,
    met: &mut Met,
) -> Result<(), AllocError>
    requires few { query.now.topology.now.nodes ≤ 1024 }
    requires here { IsOver query.now.topology.now.nodes here.old }
    requires there { IsOver query.now.topology.now.nodes there.now }
    requires met { met.old.cost ≤ 2 ^ 31 }
    ensures here { OnOk result (IsOver query.now.topology.now.nodes here.new) }
    ensures met { OnOk result (met.new.cost ≤ 2 ^ 31) }
{
    let Some(reached) = pop(&mut here.heap) else {
        return Ok(());
    };
    let node = reached.node as usize;
    if node < here.costs.len() && reached.cost < met.cost && reached.cost == here.costs[node] {
        let arcs = arcs_at(query, here.direction, node);
        settle(
            query,
            arcs,
            reached.cost,
            &mut here.costs,
            &mut here.via,
            &mut here.heap,
            &there.costs,
            met,
        )?;
    }
    Ok(())
}

/// Tests whether no walk that isn't known yet can be cheaper.
#[inline(always)]
fn is_over(source: &Side, destination: &Side, met: Met) -> bool {
    match (least_cost(&source.heap), least_cost(&destination.heap)) {
        (Some(near), Some(far)) => near.saturating_add(far) >= met.cost,
        _ => true,
    }
}

/// Each link lowers a label of each side at most once.
const MOST_STEPS: usize = 2 * 4097;

/// Goes on from the side that has fewer nodes to go on from, until the cheapest walk is known.
fn meet(
    query: &Query<'_>,
    source: &mut Side,
    destination: &mut Side,
    met: &mut Met,
) -> Result<(), AllocError>
    requires few { query.now.topology.now.nodes ≤ 1024 }
    requires source { IsOver query.now.topology.now.nodes source.old }
    requires destination { IsOver query.now.topology.now.nodes destination.old }
    requires met { met.old.cost ≤ 2 ^ 31 }
    ensures source { OnOk result (IsOver query.now.topology.now.nodes source.new) }
    ensures destination { OnOk result (IsOver query.now.topology.now.nodes destination.new) }
{
    for _ in 0..MOST_STEPS {
        if is_over(source, destination, *met) {
            break;
        }
        if source.heap.len() <= destination.heap.len() {
            advance(query, source, destination, met)?;
        } else {
            advance(query, destination, source, met)?;
        }
    }
    Ok(())
}

/// Joins both costs to one label: the cost from the source below the middle, and what is left of the cheapest walk
/// above it.
fn join_labels(costs: &mut [u32], there: &[u32], middle: u32, cheapest: u32)
    requires { length there.now ≡ length costs.old }
{
    for node in 0..costs.len() {
        if costs[node] >= middle {
            costs[node] = middle.max(cheapest.saturating_sub(there[node]));
        }
    }
}

/// Computes labels from both ends.
pub(crate) fn search(
    alloc: Global,
    query: &Query<'_>,
    nodes: usize,
    ends: Ends,
) -> Result<Labels, AllocError>
    requires nodes { nodes ≡ query.now.topology.now.nodes }
    requires few { nodes ≤ 1024 }
    requires source { ends.source < nodes }
    requires destination { ends.destination < nodes }
    requires limit { ends.limit ≤ 2 ^ 31 }
    ensures { IfOk result (λ labels. length labels.costs.items ≡ nodes) }
{
    let mut source = start(alloc, Direction::Along, nodes, ends.source)?;
    let mut destination = start(alloc, Direction::Against, nodes, ends.destination)?;
    let mut met = Met {
        cost: ends.limit,
        node: ends.source,
    };
    meet(query, &mut source, &mut destination, &mut met)?;
    let middle = match least_cost(&source.heap) {
        Some(cost) => cost.min(met.cost),
        None => met.cost,
    };
    join_labels(&mut source.costs, &destination.costs, middle, met.cost);
    Ok(Labels {
        costs: source.costs,
        middle,
        ways: Ways {
            from_source: source.via,
            to_destination: destination.via,
            meeting: met.node,
        },
    })
}

/// Adds the links by which a side reached a node, the last one first, as far as the path has room.
fn follow(
    links: &[Link],
    direction: Direction,
    via: &[LinkNumber],
    from: NodeNumber,
    end: NodeNumber,
    hops: usize,
    path: &mut Vec<LinkNumber>,
) -> Result<(), AllocError>
    requires { length path.old.items ≤ hops }
    ensures { OnOk result (length path.new.items ≤ hops) }
{
    let mut at = from;
    for _ in 0..hops {
        if at == end || at >= via.len() || path.len() >= hops {
            break;
        }
        let number = via[at];
        if number >= links.len() {
            break;
        }
        path.push(number)?;
        at = match direction {
            Direction::Along => links[number].from,
            Direction::Against => links[number].to,
        };
    }
    Ok(())
}

/// Lists the path on which both sides met, as far as this many links go.
pub(crate) fn trace(
    alloc: Global,
    links: &[Link],
    ways: &Ways,
    ends: Ends,
    hops: usize,
) -> Result<Vec<LinkNumber>, AllocError>
    ensures { IfOk result (λ path. length path.items ≤ hops) }
{
    let mut path = Vec::with_capacity(alloc, hops)?;
    let at = ways.meeting;
    let (here, there) = (&ways.from_source, &ways.to_destination);
    follow(
        links,
        Direction::Along,
        here,
        at,
        ends.source,
        hops,
        &mut path,
    )?;
    path.reverse();
    follow(
        links,
        Direction::Against,
        there,
        at,
        ends.destination,
        hops,
        &mut path,
    )?;
    Ok(path)
}
