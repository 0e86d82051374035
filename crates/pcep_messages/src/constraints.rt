//! What an object of a request asks of a path.

ghost use Rattle.std.specs.Prelude.{◌≡◌};
ghost use Rattle.pcep_messages.specs.Constraints.{bandwidth_asked, metric_type, minimised_by, bound_on, lesser};
ghost use Rattle.pcep_objects.specs.declared.object.Object.TheVariants as objects;

use crate::message::Bounds;
use pcep_objects::{BandwidthType, Metric, MetricType};
use pcep_word::Bandwidth;

/// Returns the bandwidth that is asked for, or 0 for that of an existing LSP.
pub fn bandwidth_asked(kind: BandwidthType, bandwidth: Bandwidth) -> Bandwidth
    ensures { result ≡ bandwidth_asked (objects.Bandwidth kind bandwidth) }
{
    match kind {
        BandwidthType::Requested => bandwidth,
        BandwidthType::Current => Bandwidth::zero(),
    }
}

fn metric_type(number: u8) -> Option<MetricType>
    ensures { result ≡ metric_type number }
{
    match number {
        1 => Some(MetricType::Igp),
        2 => Some(MetricType::Te),
        3 => Some(MetricType::Hops),
        _ => None,
    }
}

/// Returns the metric that is to be minimised.
pub fn minimised_by(metric: &Metric) -> Option<MetricType>
    ensures { result ≡ minimised_by (objects.Metric metric.now) }
{
    if metric.bound {
        None
    } else {
        metric_type(metric.metric_type)
    }
}

fn bound_on(number: u8, metric: &Metric) -> Option<u64>
    ensures { result ≡ bound_on number (objects.Metric metric.now) }
{
    if metric.bound && metric.metric_type == number {
        Some(metric.value.value())
    } else {
        None
    }
}

fn lesser(bound: Option<u64>, other: Option<u64>) -> Option<u64>
    ensures { result ≡ lesser bound other }
{
    match (bound, other) {
        (None, other) => other,
        (Some(bound), None) => Some(bound),
        (Some(bound), Some(other)) => Some(bound.min(other)),
    }
}

/// Adds the bound of one more METRIC to the bounds.
pub fn bounded(bounds: Bounds, metric: &Metric) -> Bounds
    ensures igp { result.igp ≡ lesser bounds.igp (bound_on 1 (objects.Metric metric.now)) }
    ensures te { result.te ≡ lesser bounds.te (bound_on 2 (objects.Metric metric.now)) }
    ensures hops { result.hops ≡ lesser bounds.hops (bound_on 3 (objects.Metric metric.now)) }
{
    Bounds {
        igp: lesser(bounds.igp, bound_on(1, metric)),
        te: lesser(bounds.te, bound_on(2, metric)),
        hops: lesser(bounds.hops, bound_on(3, metric)),
    }
}
