//! What a path costs, tested link by link.
ghost use Rattle.std.specs.Prelude.{◌≡◌, ◌<◌, ◌≤◌, ◌^◌, All, length, IfSome, Some, slice_get};
ghost use Rattle.te_base.specs.Ted.{IsLinkAmong};
ghost use Rattle.te_base.specs.declared.network.Link.{Link};
ghost use Rattle.path_finder.specs.Passing.{toll};
ghost use Rattle.path_finder.specs.Walks.{Leads};

use crate::filter::toll;
use crate::query::{Ends, Query};
use te_base::{Link, LinkNumber, NodeNumber};

/// What a link costs, and where it leads.
#[derive(Clone, Copy, Debug)]
struct Step {
    price: u32,
    to: NodeNumber,
}

fn step_along(query: &Query<'_>, links: &[Link], number: LinkNumber, at: NodeNumber) -> Option<Step>
    requires { All (IsLinkAmong query.now.topology.now.nodes) links.now }
    ensures { IfSome result (λ s. (link : Link) × (slice_get links.now number ≡ Some link) × (link.from ≡ at)
        × (link.to ≡ s.to) × (toll query.now number link ≡ Some s.price) × (s.price < 2 ^ 24)) }
{
    if number >= links.len() {
        return None;
    }
    let link = &links[number];
    if link.from != at {
        return None;
    }
    match toll(query, number, link) {
        Some(price) => Some(Step { price, to: link.to }),
        None => None,
    }
}

/// Computes the cost of the path, if its links lead from the source to the destination and it may take each.
pub(crate) fn price_of(
    query: &Query<'_>,
    links: &[Link],
    path: &[LinkNumber],
    ends: Ends,
) -> Option<u32>
    requires few { length path.now ≤ 64 }
    requires among { All (IsLinkAmong query.now.topology.now.nodes) links.now }
    ensures { IfSome result (λ cost. Leads query.now links.now ends.source path.now ends.destination cost) }
{
    let mut at = ends.source;
    let mut paid = 0u32;
    for number in path {
        match step_along(query, links, *number, at) {
            None => return None,
            Some(step) => {
                at = step.to;
                paid += step.price;
            }
        }
    }
    if at == ends.destination {
        Some(paid)
    } else {
        None
    }
}
