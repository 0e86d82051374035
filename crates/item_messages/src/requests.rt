//! A PCReq of one request.
ghost use Rattle.std.specs.Prelude.{◌≡◌, ◌++◌, true, false, None, IfOk, IfErr, OnOk};
ghost use Rattle.pcep_messages.specs.Spelling.{rp_object, lsp_object, end_points_object, object_spelled, object_fits, objects_spelled, objects_fit};
ghost use Rattle.pcep_objects.specs.declared.fault.WriteFault.TheVariants.{TooLong};
ghost use Rattle.pcep_objects.specs.declared.object.Object.TheVariants as objects;
ghost use Rattle.pcep_messages.specs.Constraints.{metric_number};
ghost use Rattle.item_messages.specs.Objects.{if_any};
ghost use Rattle.item_messages.specs.Requests.{least_of, bound_object, bound_objects, bound_fits, bounds_fit, metric_objects, ends_objects, request_objects, request_written, request_fits};

use crate::framing::{end_message, start_message};
use crate::wishes::{Wishes, put_wishes};
use lsp_words::{MetricType, Plsp};
use pcep_messages::{Bounds, PathRequest};
use pcep_objects::{
    EndPoints, LspObject, Metric, MetricValue, Operational, Rp, WriteFault, put_end_points,
    put_lsp, put_metric, put_rp,
};
use pcep_word::Ipv4;
use std::alloc::{AllocError, Global};

/// Appends an RP with P set and no other flag.
#[tactic(auto, unfolding(pcep_messages::specs::Spelling::object_spelled, pcep_messages::specs::Spelling::object_fits))]
fn put_number(id: u32, out: &mut Vec<u8>) -> Result<(), AllocError>
    ensures written { OnOk result (out.new.items ≡ out.old.items ++ object_spelled (rp_object true id)) }
    ensures fits { object_fits (rp_object true id) ≡ true }
{
    let rp = Rp {
        p: true,
        priority: 0,
        reoptimize: false,
        bidirectional: false,
        loose: false,
        id,
    };
    put_rp(rp, out)
}

/// Appends END-POINTS.
#[tactic(auto, unfolding(pcep_messages::specs::Spelling::object_spelled, pcep_messages::specs::Spelling::object_fits))]
fn put_both_ends(source: Ipv4, destination: Ipv4, out: &mut Vec<u8>) -> Result<(), AllocError>
    ensures written { OnOk result (out.new.items ≡ out.old.items ++ object_spelled (end_points_object source destination)) }
    ensures fits { object_fits (end_points_object source destination) ≡ true }
{
    let end_points = EndPoints {
        p: true,
        source,
        destination,
    };
    put_end_points(end_points, out)
}

/// Appends the LSP that the path is for, if the request names one.
#[tactic(auto, unfolding(pcep_messages::specs::Spelling::object_spelled, pcep_messages::specs::Spelling::object_fits))]
fn put_named(plsp: Option<Plsp>, out: &mut Vec<u8>) -> Result<(), AllocError>
    ensures written { OnOk result (out.new.items ≡ out.old.items ++ objects_spelled (if_any (λ plsp. objects.Lsp (lsp_object plsp false false None)) plsp)) }
    ensures fits { objects_fit (if_any (λ plsp. objects.Lsp (lsp_object plsp false false None)) plsp) ≡ true }
{
    let Some(plsp) = plsp else {
        return Ok(());
    };
    let lsp = LspObject {
        plsp,
        delegate: false,
        sync: false,
        remove: false,
        admin: false,
        operational: Operational::Down,
        created: false,
        name: None,
        identifiers: None,
        error_code: None,
        rsvp_error: None,
    };
    put_lsp(&lsp, out)
}

/// Appends RP, END-POINTS and LSP.
fn put_ends(request: &PathRequest, out: &mut Vec<u8>) -> Result<(), AllocError>
    ensures written { OnOk result (out.new.items ≡ out.old.items ++ objects_spelled (ends_objects request.now)) }
    ensures fits { IfOk result (λ _. objects_fit (ends_objects request.now) ≡ true) }
{
    put_number(request.request, out)?;
    put_both_ends(request.source, request.destination, out)?;
    put_named(request.plsp, out)
}

/// Returns the number of a metric's type (RFC 5440 section 7.8).
fn metric_number(kind: MetricType) -> u8
    ensures { result ≡ metric_number kind }
{
    match kind {
        MetricType::Igp => 1,
        MetricType::Te => 2,
        MetricType::Hops => 3,
    }
}

/// Makes a METRIC with B clear.
fn asking_least(metric_type: u8) -> Metric
    ensures { result ≡ record { bound = false; computed = false; metric_type = metric_type; value = 0 } }
{
    Metric {
        bound: false,
        computed: false,
        metric_type,
        value: MetricValue::new(0),
    }
}

/// Makes a METRIC that says which metric is to be least. The TE metric needs none.
fn least_of(kind: MetricType) -> Option<Metric>
    ensures { result ≡ least_of kind }
{
    match kind {
        MetricType::Te => None,
        MetricType::Igp => Some(asking_least(1)),
        MetricType::Hops => Some(asking_least(3)),
    }
}

/// Appends a METRIC that says which metric is to be least, unless it is the TE metric.
#[tactic(auto, unfolding(pcep_messages::specs::Spelling::object_spelled, pcep_messages::specs::Spelling::object_fits))]
fn put_least(kind: MetricType, out: &mut Vec<u8>) -> Result<(), AllocError>
    ensures written { OnOk result (out.new.items ≡ out.old.items ++ objects_spelled (if_any (λ metric. objects.Metric metric) (least_of kind))) }
    ensures fits { objects_fit (if_any (λ metric. objects.Metric metric) (least_of kind)) ≡ true }
{
    match least_of(kind) {
        None => Ok(()),
        Some(metric) => put_metric(metric, out),
    }
}

/// Appends a METRIC that bounds a metric, if there is a bound. `TooLong` comes exactly if it is 2^48 or more.
#[tactic(auto, unfolding(pcep_messages::specs::Spelling::object_spelled, pcep_messages::specs::Spelling::object_fits))]
fn put_bound(kind: MetricType, bound: Option<u64>, out: &mut Vec<u8>) -> Result<(), WriteFault>
    ensures written { OnOk result (out.new.items ≡ out.old.items ++ objects_spelled (if_any (bound_object kind) bound)) }
    ensures fits { objects_fit (if_any (bound_object kind) bound) ≡ true }
    ensures small { IfOk result (λ _. bound_fits bound ≡ true) }
    ensures too_long { IfErr result (λ e. e ≡ TooLong → bound_fits bound ≡ false) }
{
    let Some(bound) = bound else {
        return Ok(());
    };
    if bound >= 1 << 48 {
        return Err(WriteFault::TooLong);
    }
    let metric = Metric {
        bound: true,
        computed: false,
        metric_type: metric_number(kind),
        value: MetricValue::new(bound),
    };
    put_metric(metric, out)?;
    Ok(())
}

/// Appends the bounds.
fn put_bounds(bounds: &Bounds, out: &mut Vec<u8>) -> Result<(), WriteFault>
    ensures written { OnOk result (out.new.items ≡ out.old.items ++ objects_spelled (bound_objects bounds.now)) }
    ensures fits { IfOk result (λ _. objects_fit (bound_objects bounds.now) ≡ true) }
    ensures small { IfOk result (λ _. bounds_fit bounds.now ≡ true) }
    ensures too_long { IfErr result (λ e. e ≡ TooLong → bounds_fit bounds.now ≡ false) }
{
    put_bound(MetricType::Igp, bounds.igp, out)?;
    put_bound(MetricType::Te, bounds.te, out)?;
    put_bound(MetricType::Hops, bounds.hops, out)
}

/// Appends METRICs.
fn put_metrics(request: &PathRequest, out: &mut Vec<u8>) -> Result<(), WriteFault>
    ensures written { OnOk result (out.new.items ≡ out.old.items ++ objects_spelled (metric_objects request.now)) }
    ensures fits { IfOk result (λ _. objects_fit (metric_objects request.now) ≡ true) }
    ensures small { IfOk result (λ _. bounds_fit request.now.bounds ≡ true) }
    ensures too_long { IfErr result (λ e. e ≡ TooLong → bounds_fit request.now.bounds ≡ false) }
{
    put_least(request.minimise, out)?;
    put_bounds(&request.bounds, out)
}

fn wishes_of(request: &PathRequest) -> Wishes
    ensures { result ≡ record { priorities = request.now.priorities; colours = request.now.colours; local_protection = false; bandwidth = request.now.bandwidth } }
{
    Wishes {
        priorities: request.priorities,
        colours: request.colours,
        local_protection: false,
        bandwidth: request.bandwidth,
    }
}

/// Appends the objects of a request.
fn put_objects(request: &PathRequest, out: &mut Vec<u8>) -> Result<(), WriteFault>
    ensures written { OnOk result (out.new.items ≡ out.old.items ++ objects_spelled (request_objects request.now)) }
    ensures fits { IfOk result (λ _. objects_fit (request_objects request.now) ≡ true) }
    ensures small { IfOk result (λ _. bounds_fit request.now.bounds ≡ true) }
    ensures too_long { IfErr result (λ e. e ≡ TooLong → bounds_fit request.now.bounds ≡ false) }
{
    put_ends(request, out)?;
    put_wishes(wishes_of(request), out)?;
    put_metrics(request, out)
}

/// Appends the message.
#[tactic(auto, unfolding(crate::specs::Requests::request_written, crate::specs::Requests::request_fits), using(crate::proofs::RequestsAgain::request_short))]
fn put_message(request: &PathRequest, out: &mut Vec<u8>) -> Result<(), WriteFault>
    ensures written { OnOk result (out.new.items ≡ out.old.items ++ request_written request.now) }
    ensures fits { IfOk result (λ _. request_fits request.now ≡ true) }
    ensures too_long { IfErr result (λ e. e ≡ TooLong → request_fits request.now ≡ false) }
{
    let start = out.len();
    start_message(3, out)?;
    put_objects(request, out)?;
    end_message(start, out)
}

/// Writes the PCReq of this one request. Fails with `TooLong` exactly if a bound is 2^48 or more, which no METRIC says.
pub fn request_bytes(alloc: Global, request: &PathRequest) -> Result<Vec<u8>, WriteFault>
    ensures written { IfOk result (λ bytes. bytes.items ≡ request_written request.now) }
    ensures fits { IfOk result (λ _. request_fits request.now ≡ true) }
    ensures too_long { IfErr result (λ e. e ≡ TooLong → request_fits request.now ≡ false) }
{
    let mut bytes = Vec::new(alloc);
    put_message(request, &mut bytes)?;
    Ok(bytes)
}
