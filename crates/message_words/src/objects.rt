//! Objects, each a line: its name, then its fields by the names of the RFCs.

ghost use Rattle.std.specs.Prelude.{◌≡◌};
ghost use Rattle.message_words.specs.Fields.{Adds};
ghost use Rattle.pcep_objects.specs.declared.object.Object.TheVariants.{Ero, Rro};
ghost use Rattle.message_words.specs.Objects.{timer_words, nature_words, priority_words, open_words, rp_words, no_path_words, end_points_words, existing, bandwidth_words, metric_words, lspa_words, kept_name, kept_words, notification_words, error_words, close_words, fields_of, named, lsp_words, srp_words, object_words};

use crate::fields::{
    Bit, LspFields, add_capabilities, add_colours, add_errors, add_hex, add_hops, add_identifiers,
    add_lsp_fields, add_name, add_vector,
};
use pcep_objects::{
    BandwidthType, Close, EndPoints, Hop, Kept, KeptClass, LspObject, Lspa, Metric, NoPath,
    Notification, Object, Open, PcepError, Rp, Srp,
};
use pcep_word::Bandwidth;
use sequence::Sequence;
use std::alloc::{AllocError, Global};
use std::fmt::Write;

#[tactic(auto, unfolding(crate::specs::Objects::timer_words))]
fn add_timers(opening: &Open, text: &mut String) -> Result<(), AllocError>
    ensures { Adds result text.old text.new (timer_words opening.now) }
{
    let (keepalive, dead_timer, sid) = (opening.keepalive, opening.dead_timer, opening.sid);
    write!(
        text,
        "OPEN keepalive {keepalive} deadtimer {dead_timer} sid {sid}"
    )
}

/// Adds `OPEN keepalive 30 deadtimer 120 sid 0 lsp-update 1 lsp-instantiation 1`.
pub fn add_open(opening: &Open, text: &mut String) -> Result<(), AllocError>
    ensures { Adds result text.old text.new (open_words opening.now) }
{
    add_timers(opening, text)?;
    add_capabilities(opening.capabilities, text)
}

/// Adds `RP request-id 7 p 1 priority 0 reoptimize 0 bidirectional 0 loose 0`.
fn add_rp(rp: &Rp, text: &mut String) -> Result<(), AllocError>
    ensures { Adds result text.old text.new (rp_words rp.now) }
{
    let (id, p, priority) = (rp.id, Bit(rp.p), rp.priority);
    let (reoptimize, both, loose) = (Bit(rp.reoptimize), Bit(rp.bidirectional), Bit(rp.loose));
    write!(
        text,
        "RP request-id {id} p {p} priority {priority} reoptimize {reoptimize} bidirectional {both} loose {loose}"
    )
}

#[tactic(auto, unfolding(crate::specs::Objects::nature_words))]
fn add_nature(no_path: &NoPath, text: &mut String) -> Result<(), AllocError>
    ensures { Adds result text.old text.new (nature_words no_path.now) }
{
    let (nature, constraints) = (no_path.nature, Bit(no_path.constraints));
    write!(text, "NO-PATH nature {nature} constraints {constraints}")
}

/// Adds `NO-PATH nature 0 constraints 0`, and why there is no path.
fn add_no_path(no_path: &NoPath, text: &mut String) -> Result<(), AllocError>
    ensures { Adds result text.old text.new (no_path_words no_path.now) }
{
    add_nature(no_path, text)?;
    add_vector(no_path.vector, text)
}

/// Adds `END-POINTS 10.0.0.1 10.0.0.4 p 1`.
fn add_end_points(ends: &EndPoints, text: &mut String) -> Result<(), AllocError>
    ensures { Adds result text.old text.new (end_points_words ends.now) }
{
    let (source, destination, p) = (ends.source, ends.destination, Bit(ends.p));
    write!(text, "END-POINTS {source} {destination} p {p}")
}

fn existing(kind: BandwidthType) -> &'static str
    ensures { result.now ≡ existing kind }
{
    match kind {
        BandwidthType::Requested => "",
        BandwidthType::Current => " existing",
    }
}

/// Adds `BANDWIDTH 500000 bytes/s`, or `BANDWIDTH existing 500000 bytes/s` for an existing LSP.
fn add_bandwidth(
    kind: BandwidthType,
    bandwidth: Bandwidth,
    text: &mut String,
) -> Result<(), AllocError>
    ensures { Adds result text.old text.new (bandwidth_words kind bandwidth) }
{
    let (existing, value) = (existing(kind), bandwidth.value());
    write!(text, "BANDWIDTH{existing} {value} bytes/s")
}

/// Adds `METRIC type 2 bound 0 computed 1 value 20`.
fn add_metric(metric: &Metric, text: &mut String) -> Result<(), AllocError>
    ensures { Adds result text.old text.new (metric_words metric.now) }
{
    let (kind, bound, computed) = (metric.metric_type, Bit(metric.bound), Bit(metric.computed));
    let value = metric.value.value();
    write!(
        text,
        "METRIC type {kind} bound {bound} computed {computed} value {value}"
    )
}

#[tactic(auto, unfolding(crate::specs::Objects::priority_words))]
fn add_priorities(lspa: &Lspa, text: &mut String) -> Result<(), AllocError>
    ensures { Adds result text.old text.new (priority_words lspa.now) }
{
    let (setup, hold) = (lspa.setup.number(), lspa.hold.number());
    let protection = Bit(lspa.local_protection);
    write!(
        text,
        "LSPA setup {setup} hold {hold} local-protection {protection}"
    )
}

/// Adds `LSPA setup 7 hold 0 local-protection 0`, and the colours.
fn add_lspa(alloc: Global, lspa: &Lspa, text: &mut String) -> Result<(), AllocError>
    ensures { Adds result text.old text.new (lspa_words lspa.now) }
{
    add_priorities(lspa, text)?;
    add_colours(alloc, lspa.colours, text)
}

fn kept_name(class: KeptClass) -> &'static str
    ensures { result.now ≡ kept_name class }
{
    match class {
        KeptClass::Iro => "IRO",
        KeptClass::Svec => "SVEC",
        KeptClass::LoadBalancing => "LOAD-BALANCING",
    }
}

/// Adds `IRO p 0 body 01080a0100022000`.
fn add_kept(alloc: Global, kept: &Kept, text: &mut String) -> Result<(), AllocError>
    ensures { Adds result text.old text.new (kept_words kept.now) }
{
    let (name, p) = (kept_name(kept.class), Bit(kept.p));
    write!(text, "{name} p {p} body ")?;
    add_hex(alloc, kept.body.as_slice(), text)
}

/// Adds `NOTIFICATION type 2 value 1`.
fn add_notification(notification: &Notification, text: &mut String) -> Result<(), AllocError>
    ensures { Adds result text.old text.new (notification_words notification.now) }
{
    let (kind, value) = (notification.notification_type, notification.value);
    write!(text, "NOTIFICATION type {kind} value {value}")
}

/// Adds `PCEP-ERROR type 6 value 3`.
pub fn add_error(error: &PcepError, text: &mut String) -> Result<(), AllocError>
    ensures { Adds result text.old text.new (error_words error.now) }
{
    let (kind, value) = (error.error_type, error.value);
    write!(text, "PCEP-ERROR type {kind} value {value}")
}

/// Adds `CLOSE reason 3`.
fn add_close(close: &Close, text: &mut String) -> Result<(), AllocError>
    ensures { Adds result text.old text.new (close_words close.now) }
{
    let reason = close.reason;
    write!(text, "CLOSE reason {reason}")
}

fn fields_of(lsp: &LspObject) -> LspFields
    ensures { result ≡ fields_of lsp.now }
{
    LspFields {
        plsp: lsp.plsp,
        delegate: lsp.delegate,
        sync: lsp.sync,
        remove: lsp.remove,
        admin: lsp.admin,
        operational: lsp.operational,
        created: lsp.created,
    }
}

/// Adds a name, if there is one.
pub fn add_named(
    alloc: Global,
    name: &Option<Sequence<u8>>,
    text: &mut String,
) -> Result<(), AllocError>
    ensures { Adds result text.old text.new (named name.now) }
{
    match name {
        Some(name) => add_name(alloc, name.as_slice(), text),
        None => Ok(()),
    }
}

/// Adds an LSP with its name, its identifiers and its errors.
fn add_lsp(alloc: Global, lsp: &LspObject, text: &mut String) -> Result<(), AllocError>
    ensures { Adds result text.old text.new (lsp_words lsp.now) }
{
    add_lsp_fields(fields_of(lsp), text)?;
    add_named(alloc, &lsp.name, text)?;
    add_identifiers(lsp.identifiers, text)?;
    add_errors(lsp.error_code, lsp.rsvp_error, text)
}

/// Adds `SRP srp-id 1 remove 0`.
fn add_srp(srp: &Srp, text: &mut String) -> Result<(), AllocError>
    ensures { Adds result text.old text.new (srp_words srp.now) }
{
    let (id, remove) = (srp.id, Bit(srp.remove));
    write!(text, "SRP srp-id {id} remove {remove}")
}

fn add_ero(alloc: Global, hops: &[Hop], text: &mut String) -> Result<(), AllocError>
    ensures { Adds result text.old text.new (object_words (Ero hops.now)) }
{
    text.push_str("ERO")?;
    add_hops(alloc, hops, text)
}

fn add_rro(alloc: Global, hops: &[Hop], text: &mut String) -> Result<(), AllocError>
    ensures { Adds result text.old text.new (object_words (Rro hops.now)) }
{
    text.push_str("RRO")?;
    add_hops(alloc, hops, text)
}

/// Adds an object's line.
pub fn add_object(alloc: Global, object: &Object, text: &mut String) -> Result<(), AllocError>
    ensures { Adds result text.old text.new (object_words object.now) }
{
    match object {
        Object::Open(open) => add_open(open, text),
        Object::Rp(rp) => add_rp(rp, text),
        Object::NoPath(no_path) => add_no_path(no_path, text),
        Object::EndPoints(ends) => add_end_points(ends, text),
        Object::Bandwidth(kind, bandwidth) => add_bandwidth(*kind, *bandwidth, text),
        Object::Metric(metric) => add_metric(metric, text),
        Object::Ero(hops) => add_ero(alloc, hops.as_slice(), text),
        Object::Rro(hops) => add_rro(alloc, hops.as_slice(), text),
        Object::Lspa(lspa) => add_lspa(alloc, lspa, text),
        Object::Kept(kept) => add_kept(alloc, kept, text),
        Object::Notification(notification) => add_notification(notification, text),
        Object::Error(error) => add_error(error, text),
        Object::Close(close) => add_close(close, text),
        Object::Lsp(lsp) => add_lsp(alloc, lsp, text),
        Object::Srp(srp) => add_srp(srp, text),
    }
}
