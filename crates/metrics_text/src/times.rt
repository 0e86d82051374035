//! Samples of times, by how long they were.
ghost use Rattle.std.specs.Prelude.{◌≡◌, [], ◌∷◌, ◌++◌, slice_get, IfOk, OnOk};
ghost use Rattle.metrics_text.specs.Rows.{lines_of};
ghost use Rattle.metrics_text.specs.Samples.{bucket, buckets, sums, times, total_of};

use crate::format::{LabelText, Metric, Series, Value, put_sample};
use server_counts::Histogram;
use std::alloc::AllocError;

/// Adds how many times were up to the bound of the bucket at a place. The last bucket has no bound.
fn put_bucket(
    text: &mut Vec<u8>,
    metric: &Metric<'_>,
    limits: &[u64],
    at: usize,
    total: u64,
) -> Result<(), AllocError>
    ensures { OnOk result (text.new.items ≡ text.old.items
        ++ lines_of metric.now (bucket (slice_get limits.now at) total ∷ [])) }
{
    let label = LabelText::Bound(limits.get(at).copied());
    put_sample(text, metric, Series::Bucket, &[label], Value::Whole(total))
}

/// Adds each bucket, and gives how many times there are.
#[tactic(auto, using(crate::proofs::Lines::lines))]
fn put_buckets(
    text: &mut Vec<u8>,
    metric: &Metric<'_>,
    limits: &[u64],
    numbers: &[u64],
) -> Result<u64, AllocError>
    ensures lines { OnOk result (text.new.items ≡ text.old.items
        ++ lines_of metric.now (buckets limits.now 0 numbers.now 0)) }
    ensures total { IfOk result (λ total. total ≡ total_of numbers.now 0) }
{
    let mut total = 0u64;
    for (at, number) in numbers.iter().enumerate() {
        total = total.saturating_add(*number);
        put_bucket(text, metric, limits, at, total)?;
    }
    Ok(total)
}

/// Adds how long all times were together, and how many there were.
#[tactic(auto, using(crate::proofs::Lines::lines))]
fn put_sums(
    text: &mut Vec<u8>,
    metric: &Metric<'_>,
    sum_us: u64,
    total: u64,
) -> Result<(), AllocError>
    ensures { OnOk result (text.new.items ≡ text.old.items
        ++ lines_of metric.now (sums sum_us total)) }
{
    put_sample(text, metric, Series::Sum, &[], Value::Seconds(sum_us))?;
    put_sample(text, metric, Series::Count, &[], Value::Whole(total))
}

/// Adds times, by how long they were.
pub(crate) fn put_times(
    text: &mut Vec<u8>,
    metric: &Metric<'_>,
    limits: &[u64],
    histogram: &Histogram,
) -> Result<(), AllocError>
    ensures { OnOk result (text.new.items ≡ text.old.items
        ++ lines_of metric.now (times limits.now histogram.now)) }
{
    let total = put_buckets(text, metric, limits, &histogram.buckets)?;
    put_sums(text, metric, histogram.sum_us, total)
}
