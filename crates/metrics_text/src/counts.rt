//! Samples of what was counted.
ghost use Rattle.std.specs.Prelude.{◌≡◌, [], ◌∷◌, ◌++◌, OnOk};
ghost use Rattle.metrics_text.specs.Rows.{labels_of, lines_of};
ghost use Rattle.metrics_text.specs.Samples.{counts, error, error_of, errors, event_steps, if_any, number, one, step, steps, type_errors};

use crate::format::{LabelText, Metric, Series, Value, put_sample};
use crate::words::word_of;
use history_core::Brief;
use pce_seen::EventKind;
use pce_view::event_word;
use server_counts::{Counted, Counters, Way};
use std::alloc::AllocError;

/// Adds a number with these labels.
pub(crate) fn put_number(
    text: &mut Vec<u8>,
    metric: &Metric<'_>,
    labels: &[LabelText<'_>],
    n: u64,
) -> Result<(), AllocError>
    ensures { OnOk result (text.new.items ≡ text.old.items
        ++ lines_of metric.now (number (labels_of labels.now) n ∷ [])) }
{
    put_sample(text, metric, Series::Own, labels, Value::Whole(n))
}

/// Adds a number with these labels, if it isn't 0.
#[tactic(auto, using(crate::proofs::Lines::lines))]
fn put_if_any(
    text: &mut Vec<u8>,
    metric: &Metric<'_>,
    labels: &[LabelText<'_>],
    n: u64,
) -> Result<(), AllocError>
    ensures { OnOk result (text.new.items ≡ text.old.items
        ++ lines_of metric.now (if_any (labels_of labels.now) n)) }
{
    if n == 0 {
        return Ok(());
    }
    put_number(text, metric, labels, n)
}

/// Adds how often each of these happened, by its word.
#[tactic(auto, using(crate::proofs::Lines::lines), unfolding(crate::specs::Samples::counts))]
pub(crate) fn put_counts(
    text: &mut Vec<u8>,
    metric: &Metric<'_>,
    counters: &Counters,
    whats: &[Counted],
) -> Result<(), AllocError>
    ensures { OnOk result (text.new.items ≡ text.old.items
        ++ lines_of metric.now (counts counters.now whats.now)) }
{
    for what in whats {
        let label = LabelText::Text(word_of(*what));
        put_number(text, metric, &[label], counters.count(*what))?;
    }
    Ok(())
}

/// Adds how often an event had a reply, if it ever had.
fn put_step(
    text: &mut Vec<u8>,
    metric: &Metric<'_>,
    counters: &Counters,
    event: EventKind,
    reply: Brief,
) -> Result<(), AllocError>
    ensures { OnOk result (text.new.items ≡ text.old.items
        ++ lines_of metric.now (step counters.now event reply)) }
{
    let labels = [
        LabelText::Text(event_word(event)),
        LabelText::Text(reply.word()),
    ];
    put_if_any(
        text,
        metric,
        &labels,
        counters.count(Counted::Step(event, reply)),
    )
}

/// Adds the steps of an event, by these replies.
#[tactic(auto, using(crate::proofs::Lines::lines), unfolding(crate::specs::Samples::event_steps))]
fn put_event_steps(
    text: &mut Vec<u8>,
    metric: &Metric<'_>,
    counters: &Counters,
    event: EventKind,
    replies: &[Brief],
) -> Result<(), AllocError>
    ensures { OnOk result (text.new.items ≡ text.old.items
        ++ lines_of metric.now (event_steps counters.now replies.now event)) }
{
    for reply in replies {
        put_step(text, metric, counters, event, *reply)?;
    }
    Ok(())
}

/// Adds the steps of these events, by these replies.
#[tactic(auto, using(crate::proofs::Lines::lines), unfolding(crate::specs::Samples::steps))]
pub(crate) fn put_steps(
    text: &mut Vec<u8>,
    metric: &Metric<'_>,
    counters: &Counters,
    events: &[EventKind],
    replies: &[Brief],
) -> Result<(), AllocError>
    ensures { OnOk result (text.new.items ≡ text.old.items
        ++ lines_of metric.now (steps counters.now events.now replies.now)) }
{
    for event in events {
        put_event_steps(text, metric, counters, *event, replies)?;
    }
    Ok(())
}

/// Returns how a PCErr that came or was sent is counted.
fn error_of(way: Way, kind: u8, value: u8) -> Counted
    ensures { result ≡ error_of way kind value }
{
    match way {
        Way::In => Counted::ErrorReceived(kind, value),
        Way::Out => Counted::ErrorSent(kind, value),
    }
}

/// Adds the PCErr of a type and value, if there ever was one.
fn put_error(
    text: &mut Vec<u8>,
    metric: &Metric<'_>,
    counters: &Counters,
    way: Way,
    kind: u8,
    value: u8,
) -> Result<(), AllocError>
    ensures { OnOk result (text.new.items ≡ text.old.items
        ++ lines_of metric.now (error counters.now way kind value)) }
{
    let labels = [
        LabelText::Whole(kind as u64),
        LabelText::Whole(value as u64),
    ];
    put_if_any(
        text,
        metric,
        &labels,
        counters.count(error_of(way, kind, value)),
    )
}

/// Adds the PCErr of a type, by these values.
#[tactic(auto, using(crate::proofs::Lines::lines), unfolding(crate::specs::Samples::type_errors))]
fn put_type_errors(
    text: &mut Vec<u8>,
    metric: &Metric<'_>,
    counters: &Counters,
    way: Way,
    kind: u8,
    values: &[u8],
) -> Result<(), AllocError>
    ensures { OnOk result (text.new.items ≡ text.old.items
        ++ lines_of metric.now (type_errors counters.now way values.now kind)) }
{
    for value in values {
        put_error(text, metric, counters, way, kind, *value)?;
    }
    Ok(())
}

/// Adds the PCErr of these types and values.
#[tactic(auto, using(crate::proofs::Lines::lines), unfolding(crate::specs::Samples::errors))]
pub(crate) fn put_errors(
    text: &mut Vec<u8>,
    metric: &Metric<'_>,
    counters: &Counters,
    way: Way,
    kinds: &[u8],
    values: &[u8],
) -> Result<(), AllocError>
    ensures { OnOk result (text.new.items ≡ text.old.items
        ++ lines_of metric.now (errors counters.now way kinds.now values.now)) }
{
    for kind in kinds {
        put_type_errors(text, metric, counters, way, *kind, values)?;
    }
    Ok(())
}
