//! Requests for paths.

ghost use Rattle.std.specs.Prelude.{◌≡◌};
ghost use Rattle.message_words.specs.Fields.{Adds};
ghost use Rattle.message_words.specs.Messages.{metric_name, bound_line, minimise_line, metric_lines, asked_plsp, request_ends, request_words, requests_words, requests_text};

use crate::lines::{add_bandwidth_line, add_ends_line, add_lspa_line, add_plsp_line, add_rp_line};
use pcep_messages::{Bounds, PathRequest};
use pcep_objects::{MetricType, Plsp};
use std::alloc::{AllocError, Global};
use std::fmt::Write;

/// Returns the word for what a path is to minimise.
fn metric_name(minimise: MetricType) -> &'static str
    ensures { result.now ≡ metric_name minimise }
{
    match minimise {
        MetricType::Igp => "igp",
        MetricType::Te => "te",
        MetricType::Hops => "hops",
    }
}

fn add_bound(name: &str, bound: Option<u64>, text: &mut String) -> Result<(), AllocError>
    ensures { Adds result text.old text.new (bound_line name.now bound) }
{
    match bound {
        Some(bound) => write!(text, "\n  METRIC {name} bound {bound}"),
        None => Ok(()),
    }
}

fn add_minimise(minimise: MetricType, text: &mut String) -> Result<(), AllocError>
    ensures { Adds result text.old text.new (minimise_line minimise) }
{
    let name = metric_name(minimise);
    write!(text, "\n  METRIC {name} minimise")
}

/// Adds what the path is to minimise, and its bounds.
fn add_metrics(minimise: MetricType, bounds: Bounds, text: &mut String) -> Result<(), AllocError>
    ensures { Adds result text.old text.new (metric_lines minimise bounds) }
{
    add_minimise(minimise, text)?;
    add_bound("igp", bounds.igp, text)?;
    add_bound("te", bounds.te, text)?;
    add_bound("hops", bounds.hops, text)
}

fn add_asked_plsp(plsp: Option<Plsp>, text: &mut String) -> Result<(), AllocError>
    ensures { Adds result text.old text.new (asked_plsp plsp) }
{
    match plsp {
        Some(plsp) => add_plsp_line(plsp, text),
        None => Ok(()),
    }
}

fn add_request_ends(request: &PathRequest, text: &mut String) -> Result<(), AllocError>
    ensures { Adds result text.old text.new (request_ends request.now) }
{
    add_rp_line(request.request, text)?;
    add_ends_line(request.source, request.destination, text)?;
    add_asked_plsp(request.plsp, text)
}

/// Adds a request. If it has no LSPA, BANDWIDTH or METRIC, adds those that it counts as.
#[tactic(auto, unfolding(crate::specs::Messages::request_words))]
fn add_request(alloc: Global, request: &PathRequest, text: &mut String) -> Result<(), AllocError>
    ensures { Adds result text.old text.new (request_words request.now) }
{
    add_request_ends(request, text)?;
    add_lspa_line(alloc, request.priorities, false, request.colours, text)?;
    add_bandwidth_line(request.bandwidth, text)?;
    add_metrics(request.minimise, request.bounds, text)
}

fn add_each_request(
    alloc: Global,
    requests: &[PathRequest],
    text: &mut String,
) -> Result<(), AllocError>
    ensures { Adds result text.old text.new (requests_words requests.now) }
{
    for request in requests {
        add_request(alloc, request, text)?;
    }
    Ok(())
}

/// Adds the requests of a PCReq.
pub fn add_requests(
    alloc: Global,
    requests: &[PathRequest],
    text: &mut String,
) -> Result<(), AllocError>
    ensures { Adds result text.old text.new (requests_text requests.now) }
{
    text.push_str("PCReq")?;
    add_each_request(alloc, requests, text)
}
