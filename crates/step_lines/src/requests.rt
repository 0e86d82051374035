//! What is asked of a path to answer a request, and the request that asks it.
ghost use Rattle.std.specs.Prelude.{◌≡◌};
ghost use Rattle.step_lines.specs.Requests.{bound_on, bounds_beside, constraints_of, purpose_of, bounds_for, request_for, same_bound, has_one_bound, is_asked};

use crate::wanted::address_or_zero;
use history_core::Purpose;
use lsp_base::{Constraints, OtherBounds};
use lsp_words::{MetricType, Plsp};
use pcep_messages::{Bounds, PathRequest};

/// Returns the bound on the metric that is to be least.
fn bound_on(minimise: MetricType, bounds: &Bounds) -> Option<u64>
    ensures { result ≡ bound_on minimise bounds.now }
{
    match minimise {
        MetricType::Igp => bounds.igp,
        MetricType::Te => bounds.te,
        MetricType::Hops => bounds.hops,
    }
}

/// Returns the bounds on the other metrics.
fn bounds_beside(minimise: MetricType, bounds: &Bounds) -> OtherBounds
    ensures { result ≡ bounds_beside minimise bounds.now }
{
    let Bounds { igp, te, .. } = *bounds;
    match minimise {
        MetricType::Igp => OtherBounds { igp: None, te },
        MetricType::Te => OtherBounds { igp, te: None },
        MetricType::Hops => OtherBounds { igp, te },
    }
}

fn constraints_of(request: &PathRequest) -> Constraints
    ensures { result ≡ constraints_of request.now }
{
    Constraints {
        source: Some(request.source),
        destination: Some(request.destination),
        bandwidth: request.bandwidth,
        priorities: request.priorities,
        colours: request.colours,
        minimise: request.minimise,
        bound: bound_on(request.minimise, &request.bounds),
        hop_bound: request.bounds.hops,
        other_bounds: bounds_beside(request.minimise, &request.bounds),
        local_protection: false,
    }
}

/// Returns what is asked for to answer a request.
pub(crate) fn purpose_of(request: &PathRequest) -> Purpose
    ensures { result ≡ purpose_of request.now }
{
    Purpose::Answer {
        request: request.request,
        plsp: request.plsp,
        constraints: constraints_of(request),
    }
}

fn bounds_for(constraints: &Constraints) -> Bounds
    ensures { result ≡ bounds_for constraints.now.minimise constraints.now.bound constraints.now.hop_bound constraints.now.other_bounds }
{
    let OtherBounds { igp, te } = constraints.other_bounds;
    let hops = constraints.hop_bound;
    match constraints.minimise {
        MetricType::Igp => Bounds {
            igp: constraints.bound,
            te,
            hops,
        },
        MetricType::Te => Bounds {
            igp,
            te: constraints.bound,
            hops,
        },
        MetricType::Hops => Bounds { igp, te, hops },
    }
}

/// Makes the request that asks this of a path.
pub(crate) fn request_for(
    request: u32,
    plsp: Option<Plsp>,
    constraints: &Constraints,
) -> PathRequest
    ensures { result ≡ request_for request plsp constraints.now }
{
    PathRequest {
        request,
        plsp,
        source: address_or_zero(constraints.source),
        destination: address_or_zero(constraints.destination),
        bandwidth: constraints.bandwidth,
        priorities: constraints.priorities,
        colours: constraints.colours,
        minimise: constraints.minimise,
        bounds: bounds_for(constraints),
    }
}

fn same_bound(bound: Option<u64>, other: Option<u64>) -> bool
    ensures { result ≡ same_bound bound other }
{
    match (bound, other) {
        (None, None) => true,
        (Some(bound), Some(other)) => bound == other,
        _ => false,
    }
}

/// Tests whether the metric that is to be least has one bound, which stands in one place.
fn has_one_bound(constraints: &Constraints) -> bool
    ensures { result ≡ has_one_bound constraints.now.minimise constraints.now.bound constraints.now.hop_bound constraints.now.other_bounds }
{
    match constraints.minimise {
        MetricType::Igp => constraints.other_bounds.igp.is_none(),
        MetricType::Te => constraints.other_bounds.te.is_none(),
        MetricType::Hops => same_bound(constraints.bound, constraints.hop_bound),
    }
}

/// Tests whether a request can ask this of a path.
pub(crate) fn is_asked(constraints: &Constraints) -> bool
    ensures { result ≡ is_asked constraints.now }
{
    constraints.source.is_some()
        && constraints.destination.is_some()
        && has_one_bound(constraints)
        && !constraints.local_protection
}
