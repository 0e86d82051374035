//! The path that a search answers.
ghost use Rattle.std.specs.Prelude.{◌≡◌, ◌<◌, ◌≤◌, ◌^◌, Some, IfOk, IfSome, IfNone};
ghost use Rattle.te_snapshot.specs.Admissible.{IsLeast, IsImpossible, node_of};
ghost use Rattle.path_finder.specs.Answers.{IsAnswer, IsRefused, searched};
ghost use Rattle.path_finder.specs.Limits.{limit_of, hops_of};

use crate::found::Found;
use crate::least::least_walk;
use crate::query::{Ends, Query};
use lsp_base::Constraints;
use std::alloc::{AllocError, Global};
use te_base::NodeNumber;
use te_snapshot::{OwnShares, Snapshot, keeps_other_bounds};

/// Returns the least cost that is too much.
fn limit_of(bound: Option<u64>) -> u32
    ensures limit { result ≡ limit_of bound }
    ensures small { result ≤ 2 ^ 31 }
{
    match bound {
        Some(bound) if bound < 1 << 31 => bound as u32 + 1,
        _ => 1 << 31,
    }
}

fn hops_of(bound: Option<u64>) -> usize
    ensures hops { result ≡ hops_of bound }
    ensures few { result ≤ 64 }
{
    match bound {
        Some(bound) if bound < 64 => bound as usize,
        _ => 64,
    }
}

/// Finds a least path between two nodes.
fn between(
    alloc: Global,
    query: &Query<'_>,
    source: NodeNumber,
    destination: NodeNumber,
) -> Result<Option<Found>, AllocError>
    requires from { node_of query.now.topology.now.owners query.now.constraints.now.source ≡ Some source }
    requires to { node_of query.now.topology.now.owners query.now.constraints.now.destination ≡ Some destination }
    requires source { source < query.now.topology.now.nodes }
    requires destination { destination < query.now.topology.now.nodes }
    ensures some { IfOk result (λ r. IfSome r (λ f. IsLeast (searched query.now) query.now.constraints.now query.now.own.now f.links f.cost)) }
    ensures none { IfOk result (λ r. IfNone r (IsImpossible (searched query.now) query.now.constraints.now query.now.own.now)) }
{
    // only for the proof: the links of a topology are among its nodes
    let _links = query.topology.links();
    if source == destination {
        return Ok(None);
    }
    let ends = Ends {
        source,
        destination,
        limit: limit_of(query.constraints.bound),
    };
    match least_walk(alloc, query, ends, hops_of(query.constraints.hop_bound))? {
        Some(found) => Ok(Some(found)),
        None => Ok(None),
    }
}

/// Finds a least path from a node.
fn leaving(
    alloc: Global,
    query: &Query<'_>,
    source: NodeNumber,
) -> Result<Option<Found>, AllocError>
    requires from { node_of query.now.topology.now.owners query.now.constraints.now.source ≡ Some source }
    requires source { source < query.now.topology.now.nodes }
    ensures some { IfOk result (λ r. IfSome r (λ f. IsLeast (searched query.now) query.now.constraints.now query.now.own.now f.links f.cost)) }
    ensures none { IfOk result (λ r. IfNone r (IsImpossible (searched query.now) query.now.constraints.now query.now.own.now)) }
{
    match query.topology.node_of(query.constraints.destination) {
        None => Ok(None),
        Some(destination) => between(alloc, query, source, destination),
    }
}

/// Finds a least path between the ends that are asked for.
fn least_path(alloc: Global, query: &Query<'_>) -> Result<Option<Found>, AllocError>
    ensures some { IfOk result (λ r. IfSome r (λ f. IsLeast (searched query.now) query.now.constraints.now query.now.own.now f.links f.cost)) }
    ensures none { IfOk result (λ r. IfNone r (IsImpossible (searched query.now) query.now.constraints.now query.now.own.now)) }
{
    match query.topology.node_of(query.constraints.source) {
        None => Ok(None),
        Some(source) => leaving(alloc, query, source),
    }
}

/// Answers a query.
fn answer(alloc: Global, query: &Query<'_>) -> Result<Option<Found>, AllocError>
    ensures some { IfOk result (λ r. IfSome r (IsAnswer (searched query.now) query.now.constraints.now query.now.own.now)) }
    ensures none { IfOk result (λ r. IfNone r (IsRefused (searched query.now) query.now.constraints.now query.now.own.now)) }
{
    match least_path(alloc, query)? {
        None => Ok(None),
        Some(found) => {
            if found.links.as_slice().len() > 64 {
                unreachable!()
            }
            if keeps_other_bounds(
                query.topology.links(),
                query.constraints,
                found.links.as_slice(),
            ) {
                Ok(Some(found))
            } else {
                Ok(None)
            }
        }
    }
}

/// Finds a path from the source to the destination that the snapshot admits, of least cost, and returns it with its
/// cost, if it keeps the other bounds.
///
/// Returns `None` if an end is missing or no node owns its address, if both ends are one node, if no path is
/// admissible, or if the least path that was found breaks another bound. If several paths are least, it returns any of
/// them. It takes no lock, and keeps nothing.
pub fn find(
    alloc: Global,
    snapshot: &Snapshot,
    constraints: &Constraints,
    own: &OwnShares,
) -> Result<Option<Found>, AllocError>
    ensures found { IfOk result (λ r. IfSome r (IsAnswer snapshot.now constraints.now own.now)) }
    ensures none { IfOk result (λ r. IfNone r (IsRefused snapshot.now constraints.now own.now)) }
{
    let query = Query {
        topology: snapshot.topology(),
        unreserved: snapshot.table(),
        constraints,
        own: own.as_slice(),
    };
    answer(alloc, &query)
}
