//! Tests of a route, for a search and for a verdict.
ghost use Rattle.std.specs.Prelude.{◌≡◌, ◌<◌, ◌≤◌, ◌^◌, length, slice_get};
ghost use Rattle.te_snapshot.specs.Admissible.{colours_pass, cost_of, is_within, keeps_other_bounds, metric, metric_of, node_of};

use lsp_base::Constraints;
use lsp_words::{Colours, MetricType};
use pcep_word::Ipv4;
use te_base::{Link, LinkNumber, NodeNumber, OwnerTable};

/// Finds the node that owns the address of an end. None if the end isn't given.
pub fn node_of(owners: &OwnerTable, end: Option<Ipv4>) -> Option<NodeNumber>
    ensures { result ≡ node_of owners.now end }
{
    owners.node(end?)
}

/// Tests whether a link of this colour may be taken (RFC 3209 section 4.7.4).
#[inline(always)]
pub fn colours_pass(colours: &Colours, colour: u32) -> bool
    ensures { result ≡ colours_pass colours.now colour }
{
    colour & colours.exclude_any == 0
        && (colours.include_any == 0 || colour & colours.include_any != 0)
        && colour & colours.include_all == colours.include_all
}

fn metric(minimise: MetricType, link: &Link) -> u32
    ensures { result ≡ metric minimise link.now }
{
    match minimise {
        MetricType::Igp => link.igp,
        MetricType::Te => link.te,
        MetricType::Hops => 1,
    }
}

fn metric_of(minimise: MetricType, links: &[Link], number: LinkNumber) -> u32
    ensures { result ≡ metric_of minimise (slice_get links.now number) }
{
    match links.get(number) {
        Some(link) => metric(minimise, link),
        None => 0,
    }
}

/// Adds up a metric along a path of at most 64 links. A link that doesn't exist costs nothing. Allocates nothing.
pub fn cost_of(minimise: MetricType, links: &[Link], path: &[LinkNumber]) -> u64
    requires { length path.now ≤ 64 }
    ensures cost { result ≡ cost_of minimise links.now path.now }
    ensures small { result < 2 ^ 48 }
{
    let mut cost = 0;
    for number in path {
        cost += u64::from(metric_of(minimise, links, *number));
    }
    cost
}

/// Tests whether a number is within its bound, if it has one.
pub fn is_within(bound: Option<u64>, number: u64) -> bool
    ensures { result ≡ is_within bound number }
{
    match bound {
        Some(bound) => number <= bound,
        None => true,
    }
}

/// Tests whether the path keeps the bounds on metrics that aren't minimised.
pub fn keeps_other_bounds(links: &[Link], constraints: &Constraints, path: &[LinkNumber]) -> bool
    requires { length path.now ≤ 64 }
    ensures { result ≡ keeps_other_bounds links.now constraints.now path.now }
{
    is_within(
        constraints.other_bounds.igp,
        cost_of(MetricType::Igp, links, path),
    ) && is_within(
        constraints.other_bounds.te,
        cost_of(MetricType::Te, links, path),
    )
}
