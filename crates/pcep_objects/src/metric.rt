//! METRIC (RFC 5440 section 7.8).

ghost use Rattle.std.specs.Prelude.{◌≡◌, ◌++◌, OnOk, OnErr};
ghost use Rattle.pcep_objects.specs.Steps.{Gives};
ghost use Rattle.pcep_objects.specs.Metrics.{metric_of};
ghost use Rattle.pcep_objects.specs.Spelling.{written};
ghost use Rattle.pcep_objects.specs.declared.object.Object.TheVariants as objects;

use crate::fault::BodyFault;
use crate::kind::Kind;
use crate::object::{Metric, MetricValue};
use crate::spelled::put_spelled;
use byteorder::{BigEndian, ByteOrder};
use pcep_word::{metric_bound, metric_word};
use std::alloc::AllocError;

/// Reads the body of a METRIC.
#[tactic(auto, unfolding(crate::specs::Metrics::metric_of))]
pub fn read_metric(body: &[u8]) -> Result<Metric, BodyFault>
    ensures { Gives (λ x. x) result (metric_of body.now) }
{
    if body.len() != 8 {
        return Err(BodyFault::BadLength);
    }
    match metric_bound(BigEndian::read_u32(&body[4..])) {
        None => Err(BodyFault::BadNumber),
        Some(value) => Ok(Metric {
            bound: body[2] & 0x01 != 0,
            computed: body[2] & 0x02 != 0,
            metric_type: body[3],
            value: MetricValue::new(value),
        }),
    }
}

/// Appends a METRIC. A value that no word has is rounded up. If memory runs out, nothing is appended.
pub fn put_metric(object: Metric, out: &mut Vec<u8>) -> Result<(), AllocError>
    ensures written { OnOk result (out.new.items ≡ out.old.items ++ written (objects.Metric object)) }
    ensures unchanged { OnErr result (out.new.items ≡ out.old.items) }
{
    let flags = u8::from(object.bound) + 0x02 * u8::from(object.computed);
    let [a, b, c, d] = metric_word(object.value.value()).to_be_bytes();
    let body = [0, 0, flags, object.metric_type, a, b, c, d];
    put_spelled(Kind::Metric, false, &body, out)
}
