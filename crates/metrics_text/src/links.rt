//! Samples of each link.
ghost use Rattle.std.specs.Prelude.{◌≡◌, ◌++◌, slice_get, OnOk};
ghost use Rattle.metrics_text.specs.Rows.{lines_of};
ghost use Rattle.metrics_text.specs.Samples.{link_info, link_labels, link_unreserved, priorities, reservable, unreserved};

use crate::counts::put_number;
use crate::format::{LabelText, Metric, Series, Value, put_sample};
use pce_view::name_at;
use std::alloc::AllocError;
use te_base::{Link, Node};

/// Adds the number of each link.
#[tactic(auto, using(crate::proofs::Lines::lines), unfolding(crate::specs::Samples::link_info))]
pub(crate) fn put_link_info(
    text: &mut Vec<u8>,
    metric: &Metric<'_>,
    nodes: &[Node],
    links: &[Link],
) -> Result<(), AllocError>
    ensures { OnOk result (text.new.items ≡ text.old.items
        ++ lines_of metric.now (link_info nodes.now links.now)) }
{
    for (number, link) in links.iter().enumerate() {
        let labels = [
            LabelText::Whole(number as u64),
            LabelText::Text(name_at(nodes, link.from)),
            LabelText::Text(name_at(nodes, link.to)),
            LabelText::Address(link.local),
        ];
        put_number(text, metric, &labels, 1)?;
    }
    Ok(())
}

/// Adds what may be reserved of each link.
#[tactic(auto, using(crate::proofs::Lines::lines), unfolding(crate::specs::Samples::reservable))]
pub(crate) fn put_reservable(
    text: &mut Vec<u8>,
    metric: &Metric<'_>,
    nodes: &[Node],
    links: &[Link],
) -> Result<(), AllocError>
    ensures { OnOk result (text.new.items ≡ text.old.items
        ++ lines_of metric.now (reservable nodes.now links.now)) }
{
    for link in links {
        let labels = [
            LabelText::Text(name_at(nodes, link.from)),
            LabelText::Text(name_at(nodes, link.to)),
            LabelText::Address(link.local),
        ];
        put_number(text, metric, &labels, link.reservable)?;
    }
    Ok(())
}

/// Adds what is left of a link at each priority.
#[tactic(auto, using(crate::proofs::Lines::lines))]
fn put_priorities(
    text: &mut Vec<u8>,
    metric: &Metric<'_>,
    nodes: &[Node],
    link: &Link,
    lefts: &[i64; 8],
) -> Result<(), AllocError>
    ensures { OnOk result (text.new.items ≡ text.old.items
        ++ lines_of metric.now (priorities (link_labels nodes.now link.now) 0 lefts.now)) }
{
    for (priority, left) in lefts.iter().enumerate() {
        let labels = [
            LabelText::Text(name_at(nodes, link.from)),
            LabelText::Text(name_at(nodes, link.to)),
            LabelText::Address(link.local),
            LabelText::Whole(priority as u64),
        ];
        put_sample(text, metric, Series::Own, &labels, Value::Signed(*left))?;
    }
    Ok(())
}

/// Adds what is left of a link, if it is there.
#[tactic(auto, unfolding(crate::specs::Samples::link_unreserved))]
fn put_link_unreserved(
    text: &mut Vec<u8>,
    metric: &Metric<'_>,
    nodes: &[Node],
    links: &[Link],
    number: usize,
    left: &[i64; 8],
) -> Result<(), AllocError>
    ensures { OnOk result (text.new.items ≡ text.old.items
        ++ lines_of metric.now
        (link_unreserved nodes.now (slice_get links.now number) left.now)) }
{
    match links.get(number) {
        Some(link) => put_priorities(text, metric, nodes, link, left),
        None => Ok(()),
    }
}

/// Adds what is left of each link.
#[tactic(auto, using(crate::proofs::Lines::lines), unfolding(crate::specs::Samples::unreserved))]
pub(crate) fn put_unreserved(
    text: &mut Vec<u8>,
    metric: &Metric<'_>,
    nodes: &[Node],
    links: &[Link],
    lefts: &[[i64; 8]],
) -> Result<(), AllocError>
    ensures { OnOk result (text.new.items ≡ text.old.items
        ++ lines_of metric.now (unreserved nodes.now links.now lefts.now)) }
{
    for (number, left) in lefts.iter().enumerate() {
        put_link_unreserved(text, metric, nodes, links, number, left)?;
    }
    Ok(())
}
