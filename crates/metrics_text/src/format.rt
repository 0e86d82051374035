//! Lines of Prometheus's text format 0.0.4.
ghost use Rattle.std.specs.Fmt.{decimal};
ghost use Rattle.std.specs.Prelude.{◌≡◌, ◌++◌, map, OnOk};
ghost use Rattle.pcep_word.specs.Address.{text_of};
ghost use Rattle.metrics_text.specs.Exposition.{bound_text, escaped, escaped_byte, help_text, kind_word, label_text, labels_text, more_labels, places, sample, sample_text, seconds, suffix, type_text, value_text};
ghost use Rattle.metrics_text.specs.Rows.{label_of, labels_of, names_of};

use itoa::Buffer;
use pcep_word::Ipv4;
use std::alloc::AllocError;

/// What kind of metric it is.
#[derive(Clone, Copy)]
pub enum Kind {
    Gauge,
    Counter,
    Histogram,
}

/// Which series of a metric a sample is of. A histogram has the last three.
#[derive(Clone, Copy)]
pub enum Series {
    Own,
    Bucket,
    Sum,
    Count,
}

/// The value of a sample.
#[derive(Clone, Copy)]
pub enum Value {
    Whole(u64),
    Signed(i64),
    /// Microseconds, which are written as seconds.
    Seconds(u64),
}

/// The text of a label.
#[derive(Clone, Copy)]
pub enum LabelText<'a> {
    Text(&'a str),
    Whole(u64),
    Address(Ipv4),
    /// A bound in microseconds, which is written as seconds, or `+Inf` if there is none.
    Bound(Option<u64>),
}

/// What a metric is.
#[derive(Clone, Copy)]
pub struct Metric<'a> {
    pub kind: Kind,
    pub name: &'a str,
    pub help: &'a str,
    pub labels: &'a [&'a str],
}

fn put_escaped_byte(text: &mut Vec<u8>, byte: u8) -> Result<(), AllocError>
    ensures { OnOk result (text.new.items ≡ text.old.items ++ escaped_byte byte) }
{
    match byte {
        b'"' => text.extend_from_slice(b"\\\""),
        b'\\' => text.extend_from_slice(b"\\\\"),
        b'\n' => text.extend_from_slice(b"\\n"),
        _ => text.extend_from_slice(&[byte]),
    }
}

fn put_escaped(text: &mut Vec<u8>, bytes: &[u8]) -> Result<(), AllocError>
    ensures { OnOk result (text.new.items ≡ text.old.items ++ escaped bytes.now) }
{
    for byte in bytes {
        put_escaped_byte(text, *byte)?;
    }
    Ok(())
}

/// Adds the six places after the point.
#[tactic(auto, unfolding(crate::specs::Exposition::places))]
fn put_places(text: &mut Vec<u8>, us: u64) -> Result<(), AllocError>
    ensures { OnOk result (text.new.items ≡ text.old.items ++ places us) }
{
    let mut buffer = Buffer::new();
    match buffer.format(1_000_000 + us % 1_000_000).as_bytes() {
        [] => Ok(()),
        [_, places @ ..] => text.extend_from_slice(places),
    }
}

/// Adds microseconds as seconds.
#[tactic(auto, unfolding(crate::specs::Exposition::seconds))]
fn put_seconds(text: &mut Vec<u8>, us: u64) -> Result<(), AllocError>
    ensures { OnOk result (text.new.items ≡ text.old.items ++ seconds us) }
{
    let mut buffer = Buffer::new();
    text.extend_from_slice(buffer.format(us / 1_000_000).as_bytes())?;
    text.push(b'.')?;
    put_places(text, us)
}

fn put_value(text: &mut Vec<u8>, value: Value) -> Result<(), AllocError>
    ensures { OnOk result (text.new.items ≡ text.old.items ++ value_text value) }
{
    let mut buffer = Buffer::new();
    match value {
        Value::Whole(n) => text.extend_from_slice(buffer.format(n).as_bytes()),
        Value::Signed(n) => text.extend_from_slice(buffer.format(n).as_bytes()),
        Value::Seconds(us) => put_seconds(text, us),
    }
}

/// Adds an address: its four numbers, joined by points.
#[tactic(auto, unfolding(pcep_word::specs::Address::text_of))]
fn put_address(text: &mut Vec<u8>, at: Ipv4) -> Result<(), AllocError>
    ensures { OnOk result (text.new.items ≡ text.old.items ++ text_of at) }
{
    let [a, b, c, d] = at.bytes();
    let mut buffer = Buffer::new();
    text.extend_from_slice(buffer.format(a).as_bytes())?;
    text.push(b'.')?;
    text.extend_from_slice(buffer.format(b).as_bytes())?;
    text.push(b'.')?;
    text.extend_from_slice(buffer.format(c).as_bytes())?;
    text.push(b'.')?;
    text.extend_from_slice(buffer.format(d).as_bytes())
}

/// Adds the text of a label, escaped. Digits and points need no escaping.
#[tactic(auto, using(crate::proofs::Digits::escaping))]
fn put_label_text(text: &mut Vec<u8>, label: &LabelText<'_>) -> Result<(), AllocError>
    ensures { OnOk result (text.new.items ≡ text.old.items ++ escaped (label_of label.now)) }
{
    let mut buffer = Buffer::new();
    match label {
        LabelText::Text(label) => put_escaped(text, label.as_bytes()),
        LabelText::Whole(n) => text.extend_from_slice(buffer.format(*n).as_bytes()),
        LabelText::Address(at) => put_address(text, *at),
        LabelText::Bound(Some(us)) => put_seconds(text, *us),
        LabelText::Bound(None) => text.extend_from_slice(b"+Inf"),
    }
}

/// Adds a label with its name.
#[tactic(auto, unfolding(crate::specs::Exposition::label_text))]
fn put_label(text: &mut Vec<u8>, name: &str, label: &LabelText<'_>) -> Result<(), AllocError>
    ensures { OnOk result (text.new.items ≡ text.old.items
        ++ label_text name.now (label_of label.now)) }
{
    text.extend_from_slice(name.as_bytes())?;
    text.extend_from_slice(b"=\"")?;
    put_label_text(text, label)?;
    text.push(b'"')?;
    Ok(())
}

/// Adds labels after the first, and the brace that ends them.
#[tactic(auto, using(crate::proofs::Labels::ending))]
fn put_more_labels(
    text: &mut Vec<u8>,
    names: &[&str],
    labels: &[LabelText<'_>],
) -> Result<(), AllocError>
    ensures { OnOk result (text.new.items ≡ text.old.items
        ++ more_labels (names_of names.now) (labels_of labels.now)) }
{
    match (names, labels) {
        ([], _) => text.extend_from_slice(b"}"),
        (_, []) => text.extend_from_slice(b"}"),
        ([name, names @ ..], [label, labels @ ..]) => {
            text.push(b',')?;
            put_label(text, name, label)?;
            put_more_labels(text, names, labels)
        }
    }
}

/// Adds labels in braces, if there are any.
#[tactic(auto, using(crate::proofs::Labels::ending))]
fn put_labels(
    text: &mut Vec<u8>,
    names: &[&str],
    labels: &[LabelText<'_>],
) -> Result<(), AllocError>
    ensures { OnOk result (text.new.items ≡ text.old.items
        ++ labels_text (names_of names.now) (labels_of labels.now)) }
{
    match (names, labels) {
        ([], _) => Ok(()),
        (_, []) => Ok(()),
        ([name, names @ ..], [label, labels @ ..]) => {
            text.push(b'{')?;
            put_label(text, name, label)?;
            put_more_labels(text, names, labels)
        }
    }
}

fn kind_word(kind: Kind) -> &'static str
    ensures { result.now ≡ kind_word kind }
{
    match kind {
        Kind::Gauge => "gauge",
        Kind::Counter => "counter",
        Kind::Histogram => "histogram",
    }
}

/// Returns what the name of a series adds to the name of its metric.
fn suffix(series: Series) -> &'static str
    ensures { result.now ≡ suffix series }
{
    match series {
        Series::Own => "",
        Series::Bucket => "_bucket",
        Series::Sum => "_sum",
        Series::Count => "_count",
    }
}

/// Adds the line of a sample of a metric.
#[tactic(auto, unfolding(crate::specs::Exposition::sample_text))]
pub fn put_sample(
    text: &mut Vec<u8>,
    metric: &Metric<'_>,
    series: Series,
    labels: &[LabelText<'_>],
    value: Value,
) -> Result<(), AllocError>
    ensures { OnOk result (text.new.items ≡ text.old.items
        ++ sample_text metric.now.name.now (names_of metric.now.labels.now)
        (sample series (labels_of labels.now) value)) }
{
    text.extend_from_slice(metric.name.as_bytes())?;
    text.extend_from_slice(suffix(series).as_bytes())?;
    put_labels(text, metric.labels, labels)?;
    text.push(b' ')?;
    put_value(text, value)?;
    text.push(b'\n')?;
    Ok(())
}

/// Adds the line with the help of a metric.
#[tactic(auto, unfolding(crate::specs::Exposition::help_text))]
pub fn put_help(text: &mut Vec<u8>, metric: &Metric<'_>) -> Result<(), AllocError>
    ensures { OnOk result (text.new.items ≡ text.old.items
        ++ help_text metric.now.name.now metric.now.help.now) }
{
    text.extend_from_slice(b"# HELP ")?;
    text.extend_from_slice(metric.name.as_bytes())?;
    text.push(b' ')?;
    text.extend_from_slice(metric.help.as_bytes())?;
    text.extend_from_slice(b"\n")
}

/// Adds the line with the type of a metric.
#[tactic(auto, unfolding(crate::specs::Exposition::type_text))]
pub fn put_type(text: &mut Vec<u8>, metric: &Metric<'_>) -> Result<(), AllocError>
    ensures { OnOk result (text.new.items ≡ text.old.items
        ++ type_text metric.now.name.now metric.now.kind) }
{
    text.extend_from_slice(b"# TYPE ")?;
    text.extend_from_slice(metric.name.as_bytes())?;
    text.push(b' ')?;
    text.extend_from_slice(kind_word(metric.kind).as_bytes())?;
    text.extend_from_slice(b"\n")
}
