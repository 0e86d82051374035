//! Path requests: what is asked for, and how a request is answered that isn't searched for.

ghost use Rattle.std.specs.Prelude.{◌≡◌};
ghost use Rattle.engine_core.specs.Requests.{bound_on, bounds_beside, constraints_of, purpose_of, unknown_ends, vector_for, no_path_for};

use history_core::{Purpose, Why};
use lsp_base::{Constraints, Ends, OtherBounds};
use pcep_messages::{Answer, Bounds, Message, PathReply, PathRequest};
use pcep_objects::{MetricType, NoPathVector};

/// Returns the bound on the metric that the path is to minimise.
fn bound_on(minimise: MetricType, bounds: &Bounds) -> Option<u64>
    ensures { result ≡ bound_on minimise bounds.now }
{
    match minimise {
        MetricType::Igp => bounds.igp,
        MetricType::Te => bounds.te,
        MetricType::Hops => bounds.hops,
    }
}

/// Returns the bounds on the other metrics.
fn bounds_beside(minimise: MetricType, bounds: &Bounds) -> OtherBounds
    ensures { result ≡ bounds_beside minimise bounds.now }
{
    let Bounds { igp, te, .. } = *bounds;
    match minimise {
        MetricType::Igp => OtherBounds { igp: None, te },
        MetricType::Te => OtherBounds { igp, te: None },
        MetricType::Hops => OtherBounds { igp, te },
    }
}

fn constraints_of(request: &PathRequest) -> Constraints
    ensures { result ≡ constraints_of request.now }
{
    Constraints {
        source: Some(request.source),
        destination: Some(request.destination),
        bandwidth: request.bandwidth,
        priorities: request.priorities,
        colours: request.colours,
        minimise: request.minimise,
        bound: bound_on(request.minimise, &request.bounds),
        hop_bound: request.bounds.hops,
        other_bounds: bounds_beside(request.minimise, &request.bounds),
        local_protection: false,
    }
}

/// Returns what is asked for to answer a request.
pub(crate) fn purpose_of(request: &PathRequest) -> Purpose
    ensures { result ≡ purpose_of request.now }
{
    Purpose::Answer {
        request: request.request,
        plsp: request.plsp,
        constraints: constraints_of(request),
    }
}

fn unknown_ends(ends: Ends) -> NoPathVector
    ensures { result ≡ unknown_ends ends }
{
    let (unknown_source, unknown_destination) = match ends {
        Ends::Source => (true, false),
        Ends::Destination => (false, true),
        Ends::Both => (true, true),
    };
    NoPathVector {
        pce_unavailable: false,
        unknown_destination,
        unknown_source,
    }
}

/// Says why there is no path, if a request is to be answered (RFC 5440 section 7.5): the PCE doesn't know the ends, or
/// it has too many requests to take another.
pub(crate) fn vector_for(why: Why) -> Option<NoPathVector>
    ensures { result ≡ vector_for why }
{
    match why {
        Why::UnknownNode(ends) => Some(unknown_ends(ends)),
        Why::TooManyTickets => Some(NoPathVector {
            pce_unavailable: true,
            unknown_destination: false,
            unknown_source: false,
        }),
        _ => None,
    }
}

/// Makes the reply to a request that there is no path, and why.
pub(crate) fn no_path_for(request: u32, vector: NoPathVector) -> Message
    ensures { result ≡ no_path_for request vector }
{
    Message::Reply(PathReply {
        request,
        answer: Answer::NoPath(Some(vector)),
    })
}
