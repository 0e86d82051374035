//! Labels that show that no walk is cheaper: along no link that a path may take does the label rise by more than
//! the link's metric.
ghost use Rattle.std.specs.Prelude.{ℕ, IsTrue, All, ◌≡◌, ◌<◌, ◌^◌, length};
ghost use Rattle.te_base.specs.Ted.{IsLinkAmong};
ghost use Rattle.te_snapshot.specs.Leaving.{IsArcAmong};
ghost use Rattle.path_finder.specs.Walks.{Rises, RisesFrom, RisesInto, IsRelaxedAt, NoneCheaper};

use crate::filter::{is_open, metric};
use crate::query::{Ends, Query};
use te_base::NodeNumber;
use te_snapshot::Outgoing;

/// Tests whether the label rises by no more than the link's metric from its near end to its far end, or the link may
/// not be taken. The cheap test comes first.
#[inline(always)]
fn rises(query: &Query<'_>, near: u32, far: u32, arc: &Outgoing) -> bool
    requires igp { arc.now.igp < 2 ^ 24 }
    requires te { arc.now.te < 2 ^ 24 }
    ensures { IsTrue result → Rises query.now near far arc.now }
{
    if far <= near || far - near <= metric(query.constraints.minimise, arc) {
        return true;
    }
    !is_open(query, arc)
}

/// Tests this of each link that leaves a node with this label.
#[inline(always)]
fn all_rise_from(query: &Query<'_>, labels: &[u32], label: u32, arcs: &[Outgoing]) -> bool
    requires among { All (IsArcAmong (length labels.now)) arcs.now }
    ensures { IsTrue result → All (RisesFrom query.now labels.now label) arcs.now }
{
    for arc in arcs {
        if !rises(query, label, labels[arc.to], arc) {
            return false;
        }
    }
    true
}

/// Tests this of each link that enters a node with this label.
#[inline(always)]
fn all_rise_into(query: &Query<'_>, labels: &[u32], label: u32, arcs: &[Outgoing]) -> bool
    requires among { All (IsArcAmong (length labels.now)) arcs.now }
    ensures { IsTrue result → All (RisesInto query.now labels.now label) arcs.now }
{
    for arc in arcs {
        if !rises(query, labels[arc.to], label, arc) {
            return false;
        }
    }
    true
}

/// Tests this of the links that leave a node below the middle, and of those that enter one above it.
#[inline(always)]
fn is_relaxed_at(query: &Query<'_>, labels: &[u32], middle: u32, node: NodeNumber) -> bool
    requires nodes { length labels.now ≡ query.now.topology.now.nodes }
    requires node { node < length labels.now }
    ensures { IsTrue result → IsRelaxedAt query.now query.now.topology.now.links labels.now middle node }
{
    let label = labels[node];
    if label < middle {
        return all_rise_from(query, labels, label, query.topology.leaving(node));
    }
    if label > middle {
        return all_rise_into(query, labels, label, query.topology.entering(node));
    }
    true
}

/// Tests this of all nodes. No label rises from a node at the middle or above to one at the middle or below.
fn is_relaxed(query: &Query<'_>, labels: &[u32], middle: u32) -> bool
    requires nodes { length labels.now ≡ query.now.topology.now.nodes }
    ensures { IsTrue result → (v : ℕ) → v < length labels.now → IsRelaxedAt query.now query.now.topology.now.links labels.now middle v }
{
    for node in 0..labels.len() {
        if !is_relaxed_at(query, labels, middle, node) {
            return false;
        }
    }
    true
}

/// Tests whether the labels show that each walk from the source to the destination costs at least the limit.
pub(crate) fn none_cheaper(
    query: &Query<'_>,
    labels: &[u32],
    middle: u32,
    ends: Ends,
    limit: u32,
) -> bool
    requires nodes { length labels.now ≡ query.now.topology.now.nodes }
    requires source { ends.source < length labels.now }
    requires destination { ends.destination < length labels.now }
    requires among { All (IsLinkAmong query.now.topology.now.nodes) query.now.topology.now.links }
    ensures { IsTrue result → NoneCheaper query.now query.now.topology.now.links ends.source ends.destination limit }
{
    if labels[ends.source] != 0 {
        return false;
    }
    if labels[ends.destination] < limit {
        return false;
    }
    is_relaxed(query, labels, middle)
}
