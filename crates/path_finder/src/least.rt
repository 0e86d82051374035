//! A walk of least cost.
ghost use Rattle.std.specs.Prelude.{◌≡◌, ◌<◌, ◌≤◌, ◌^◌, All, length, IfOk, IfSome, IfNone};
ghost use Rattle.te_base.specs.Ted.{IsLinkAmong};
ghost use Rattle.path_finder.specs.QuickAnswers.{IsQuickAnswer};
ghost use Rattle.path_finder.specs.Walks.{IsLeastWalk, NoneCheaper, NoneWithin};

use crate::certificate::none_cheaper;
use crate::found::{Found, QuickAnswer};
use crate::query::{Ends, Query};
use crate::quick::{search, trace};
use crate::rounds::by_rounds;
use crate::walk::price_of;
use sequence::Sequence;
use std::alloc::{AllocError, Global};
use te_base::LinkNumber;

/// Judges a path, where no walk costs less than this.
fn judge(
    query: &Query<'_>,
    ends: Ends,
    hops: usize,
    cost: u32,
    path: Vec<LinkNumber>,
) -> QuickAnswer
    requires hops { hops ≤ 64 }
    requires cost { cost < ends.limit }
    requires least { NoneCheaper query.now query.now.topology.now.links ends.source ends.destination cost }
    ensures { IsQuickAnswer query.now query.now.topology.now.links ends.source ends.destination ends.limit hops result }
{
    if path.len() > hops {
        return QuickAnswer::Unknown;
    }
    match price_of(query, query.topology.links(), &path, ends) {
        Some(price) if price == cost => QuickAnswer::Least(Found {
            links: Sequence::from_vec(path),
            cost: u64::from(cost),
        }),
        _ => QuickAnswer::Unknown,
    }
}

/// Answers what the labels of a quick search show.
fn by_labels(
    alloc: Global,
    query: &Query<'_>,
    ends: Ends,
    hops: usize,
) -> Result<QuickAnswer, AllocError>
    requires source { ends.source < query.now.topology.now.nodes }
    requires destination { ends.destination < query.now.topology.now.nodes }
    requires limit { ends.limit ≤ 2 ^ 31 }
    requires hops { hops ≤ 64 }
    ensures { IfOk result (λ answer. IsQuickAnswer query.now query.now.topology.now.links ends.source ends.destination ends.limit hops answer) }
{
    // only for the proof: the links of a topology are among its nodes
    let _links = query.topology.links();
    let labels = search(alloc, query, query.topology.node_count(), ends)?;
    let cost = labels.costs[ends.destination];
    if cost >= ends.limit {
        if none_cheaper(query, &labels.costs, labels.middle, ends, ends.limit) {
            return Ok(QuickAnswer::Nothing);
        }
        return Ok(QuickAnswer::Unknown);
    }
    if !none_cheaper(query, &labels.costs, labels.middle, ends, cost) {
        return Ok(QuickAnswer::Unknown);
    }
    let path = trace(alloc, query.topology.links(), &labels.ways, ends, hops)?;
    Ok(judge(query, ends, hops, cost, path))
}

/// Finds a least walk of at most `hops` links, if one costs less than the limit.
pub(crate) fn least_walk(
    alloc: Global,
    query: &Query<'_>,
    ends: Ends,
    hops: usize,
) -> Result<Option<Found>, AllocError>
    requires source { ends.source < query.now.topology.now.nodes }
    requires destination { ends.destination < query.now.topology.now.nodes }
    requires limit { ends.limit ≤ 2 ^ 31 }
    requires hops { hops ≤ 64 }
    ensures some { IfOk result (λ r. IfSome r (λ f. IsLeastWalk query.now query.now.topology.now.links ends.source ends.destination ends.limit hops f.links f.cost)) }
    ensures none { IfOk result (λ r. IfNone r (NoneWithin query.now query.now.topology.now.links ends.source ends.destination ends.limit hops)) }
{
    match by_labels(alloc, query, ends, hops)? {
        QuickAnswer::Least(found) => Ok(Some(found)),
        QuickAnswer::Nothing => Ok(None),
        QuickAnswer::Unknown => by_rounds(alloc, query, ends, hops),
    }
}
