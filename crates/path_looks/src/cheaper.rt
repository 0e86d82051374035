//! A path that costs less than the paths that an LSP has.
ghost use Rattle.std.specs.Prelude.{◌≡◌, ◌<◌, ◌≤◌, Some, IfOk, IfSome, IfNone};
ghost use Rattle.path_looks.specs.Cheaper.{known_cost, lesser, standing_cost, IsCheaper, IsUnbeaten};

use lsp_base::{Constraints, Path};
use lsp_words::MetricType;
use path_finder::{Found, find};
use std::alloc::{AllocError, Global};
use te_base::Link;
use te_snapshot::{OwnShares, Snapshot, cost_of};

/// A path of least cost, and the cost of the cheapest existing path.
#[derive(Drop)]
pub struct Cheaper {
    pub path: Found,
    pub standing: u64,
}

/// The most links of a path whose cost is known.
const LINK_LIMIT: usize = 64;

/// Adds up the cost of a path of 1 to 64 links.
fn known_cost(minimise: MetricType, links: &[Link], path: &Path) -> Option<u64>
    ensures { result ≡ known_cost minimise links.now path.now }
{
    let count = path.links.as_slice().len();
    if count >= 1 && count <= LINK_LIMIT {
        Some(cost_of(minimise, links, path.links.as_slice()))
    } else {
        None
    }
}

fn lesser(best: Option<u64>, cost: Option<u64>) -> Option<u64>
    ensures { result ≡ lesser best cost }
{
    match (best, cost) {
        (Some(best), Some(cost)) => Some(best.min(cost)),
        (Some(best), None) => Some(best),
        (None, cost) => cost,
    }
}

/// Finds the cost of the cheapest of these paths. `None` if none has 1 to 64 links.
fn standing_cost(minimise: MetricType, links: &[Link], paths: &[Path]) -> Option<u64>
    ensures { result ≡ standing_cost minimise links.now paths.now }
{
    let mut best = None;
    for path in paths {
        best = lesser(best, known_cost(minimise, links, path));
    }
    best
}

/// Keeps a path that costs less.
fn cheaper_than(standing: u64, found: Option<Found>) -> Option<Cheaper>
    ensures less { IfSome result (λ x. (found ≡ Some x.path) × (x.standing ≡ standing) × (x.path.cost < standing)) }
    ensures more { IfNone result (IfSome found (λ f. standing ≤ f.cost)) }
{
    match found {
        Some(path) if path.cost < standing => Some(Cheaper { path, standing }),
        _ => None,
    }
}

/// Finds a path of least cost for an LSP whose tunnel holds these shares, if it costs less than each of the LSP's
/// existing paths.
pub fn cheaper_path(
    alloc: Global,
    snapshot: &Snapshot,
    wanted: &Constraints,
    own: &OwnShares,
    paths: &[Path],
) -> Result<Option<Cheaper>, AllocError>
    ensures cheaper { IfOk result (λ found. IfSome found (IsCheaper snapshot.now wanted.now own.now paths.now)) }
    ensures unbeaten { IfOk result (λ found. IfNone found (IsUnbeaten snapshot.now wanted.now own.now paths.now)) }
{
    match standing_cost(wanted.minimise, snapshot.topology().links(), paths) {
        Some(standing) => Ok(cheaper_than(standing, find(alloc, snapshot, wanted, own)?)),
        None => Ok(None),
    }
}
