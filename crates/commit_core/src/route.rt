//! Whether links form a path that constraints allow.
ghost use Rattle.std.specs.Prelude.{◌≡◌, ◌≤◌, ◌==◌, map, length, slice_get, true};
ghost use Rattle.std.specs.List.{list_any};
ghost use Rattle.te_snapshot.specs.Admissible.{end_of, is_distinct, nodes_of};
ghost use Rattle.commit_core.specs.Routes.{leads, joins, all_have_colours, is_route};

use lsp_base::Constraints;
use lsp_words::Colours;
use te_base::{LinkNumber, NodeNumber, TeBase};
use te_snapshot::{colours_pass, cost_of, is_within, node_of};

/// The greatest number of links of a path.
const LINK_LIMIT: usize = 64;

/// Tests whether the links exist and lead from one node to the other.
fn leads(te: &TeBase, from: NodeNumber, to: NodeNumber, path: &[LinkNumber]) -> bool
    ensures { result ≡ leads from to (map (slice_get te.now.links) path.now) }
{
    let mut node = from;
    for number in path {
        let Some(link) = te.link(*number) else {
            return false;
        };
        if link.from != node {
            return false;
        }
        node = link.to;
    }
    node == to
}

fn end_of(te: &TeBase, number: LinkNumber) -> NodeNumber
    ensures { result ≡ end_of (slice_get te.now.links number) }
{
    match te.link(number) {
        Some(link) => link.to,
        None => 0,
    }
}

/// Tests whether a path that starts at a node passes another.
fn passes(te: &TeBase, start: NodeNumber, path: &[LinkNumber], node: NodeNumber) -> bool
    ensures { result ≡ list_any (λ y. y == node) (nodes_of te.now.links start path.now) }
{
    let mut here = start;
    for number in path {
        if here == node {
            return true;
        }
        here = end_of(te, *number);
    }
    here == node
}

/// Tests whether a path that starts at a node passes no node twice.
fn passes_once(te: &TeBase, start: NodeNumber, path: &[LinkNumber]) -> bool
    ensures { result ≡ is_distinct (nodes_of te.now.links start path.now) }
{
    let mut node = start;
    for i in 0..path.len() {
        let next = end_of(te, path[i]);
        if passes(te, next, &path[i + 1..], node) {
            return false;
        }
        node = next;
    }
    true
}

fn joins(te: &TeBase, path: &[LinkNumber], from: Option<NodeNumber>, to: Option<NodeNumber>) -> bool
    ensures { result ≡ joins te.now.links path.now from to }
{
    match (from, to) {
        (Some(from), Some(to)) => leads(te, from, to, path) && passes_once(te, from, path),
        _ => false,
    }
}

fn all_have_colours(te: &TeBase, colours: &Colours, path: &[LinkNumber]) -> bool
    ensures { result ≡ all_have_colours te.now.links colours.now path.now }
{
    for number in path {
        let Some(link) = te.link(*number) else {
            return false;
        };
        if !colours_pass(colours, link.colour) {
            return false;
        }
    }
    true
}

/// Tests whether the links are a path from the source to the destination that the constraints allow, apart from
/// bandwidth and from the bounds on metrics that aren't minimised.
#[tactic(auto, unfolding(crate::specs::Routes::is_route))]
pub fn is_route(te: &TeBase, constraints: &Constraints, path: &[LinkNumber]) -> bool
    ensures route { result ≡ is_route te.now constraints.now path.now }
    ensures few { result ≡ true → length path.now ≤ 64 }
{
    if path.is_empty() || path.len() > LINK_LIMIT {
        return false;
    }
    let from = node_of(te.owners(), constraints.source);
    let to = node_of(te.owners(), constraints.destination);
    is_within(constraints.hop_bound, path.len() as u64)
        && joins(te, path, from, to)
        && all_have_colours(te, &constraints.colours, path)
        && is_within(
            constraints.bound,
            cost_of(constraints.minimise, te.links(), path),
        )
}
