//! Limits of a path, as keys of a line or a query give them: `metric=te|igp|hops`, `max-cost=N`, `max-hops=N`,
//! `exclude=0xN`, `include-any=0xN` and `include-all=0xN`.
ghost use Rattle.std.specs.Prelude.{◌≡◌, fold, Ok};
ghost use Rattle.asks.specs.Limits.{colours_in, hex_number_in, keys_in, limits_in, metric_in, no_keys, limits_of, no_limits, once, with_key, with_word};

use crate::ask::PathLimits;
use crate::words::{cut_at, has_plus, long_number_in};
use lsp_words::{Colours, MetricType};

/// The limits that keys gave so far.
#[derive(Clone, Copy, Debug, PartialEq, Eq)]
pub struct PathKeys {
    metric: Option<MetricType>,
    max_cost: Option<u64>,
    max_hops: Option<u64>,
    exclude: Option<u32>,
    include_any: Option<u32>,
    include_all: Option<u32>,
}

/// Why a key gives no limit.
#[derive(Clone, Copy, Debug, PartialEq, Eq)]
pub enum KeyFault {
    /// No limit has its name.
    Name,
    /// Its value is none of its kind, or the key is there already.
    Value,
}

/// Reads the metric that is to be least.
#[tactic(auto, unfolding(crate::specs::Limits::metric_in))]
fn metric_in(word: &str) -> Option<MetricType>
    ensures { result ≡ metric_in word.now }
{
    match word {
        "te" => Some(MetricType::Te),
        "igp" => Some(MetricType::Igp),
        "hops" => Some(MetricType::Hops),
        _ => None,
    }
}

/// Reads a hexadecimal number below 2^32, in digits of either case.
fn hex_number_in(word: &str) -> Option<u32>
    ensures { result ≡ hex_number_in word.now }
{
    if has_plus(word.as_bytes()) {
        return None;
    }
    u32::from_str_radix(word, 16).ok()
}

/// Reads a set of colours: `0x` and a hexadecimal number.
#[tactic(auto, unfolding(crate::specs::Limits::colours_in))]
fn colours_in(word: &str) -> Option<u32>
    ensures { result ≡ colours_in word.now }
{
    match cut_at(word, 'x') {
        Some(("0", digits)) => hex_number_in(digits),
        _ => None,
    }
}

/// Gives a value that is good and the first of its key.
fn once<T: Copy>(had: Option<T>, value: Option<T>) -> Result<Option<T>, KeyFault>
    ensures { result ≡ once had value }
{
    match (had, value) {
        (None, Some(_)) => Ok(value),
        _ => Err(KeyFault::Value),
    }
}

impl PathKeys {
    /// Gives no limits.
    pub fn none() -> PathKeys
        ensures { result ≡ no_keys }
    {
        PathKeys {
            metric: None,
            max_cost: None,
            max_hops: None,
            exclude: None,
            include_any: None,
            include_all: None,
        }
    }

    /// Adds the limit of a key.
    #[tactic(auto, unfolding(crate::specs::Limits::with_key))]
    pub fn with_key(self, name: &str, value: &str) -> Result<PathKeys, KeyFault>
        ensures { result ≡ with_key self name.now value.now }
    {
        match name {
            "metric" => {
                let metric = once(self.metric, metric_in(value))?;
                Ok(PathKeys { metric, ..self })
            }
            "max-cost" => {
                let max_cost = once(self.max_cost, long_number_in(value))?;
                Ok(PathKeys { max_cost, ..self })
            }
            "max-hops" => {
                let max_hops = once(self.max_hops, long_number_in(value))?;
                Ok(PathKeys { max_hops, ..self })
            }
            "exclude" => {
                let exclude = once(self.exclude, colours_in(value))?;
                Ok(PathKeys { exclude, ..self })
            }
            "include-any" => {
                let include_any = once(self.include_any, colours_in(value))?;
                Ok(PathKeys {
                    include_any,
                    ..self
                })
            }
            "include-all" => {
                let include_all = once(self.include_all, colours_in(value))?;
                Ok(PathKeys {
                    include_all,
                    ..self
                })
            }
            _ => Err(KeyFault::Name),
        }
    }

    /// Gives all limits. Without a key the TE metric is to be least, and nothing else is limited.
    pub fn limits(self) -> PathLimits
        ensures { result ≡ limits_of self }
    {
        PathLimits {
            minimise: self.metric.unwrap_or(MetricType::Te),
            max_cost: self.max_cost,
            max_hops: self.max_hops,
            colours: Colours {
                exclude_any: self.exclude.unwrap_or(0),
                include_any: self.include_any.unwrap_or(0),
                include_all: self.include_all.unwrap_or(0),
            },
        }
    }
}

impl PathLimits {
    /// Limits nothing: the TE metric is to be least.
    pub fn none() -> PathLimits
        ensures { result ≡ no_limits }
    {
        PathKeys::none().limits()
    }
}

/// Adds the limit of a word `KEY=VALUE`.
pub(crate) fn with_word(
    so_far: Result<PathKeys, KeyFault>,
    word: &str,
) -> Result<PathKeys, KeyFault>
    ensures { result ≡ with_word so_far word.now }
{
    let keys = so_far?;
    match cut_at(word, '=') {
        Some((name, value)) => keys.with_key(name, value),
        None => Err(KeyFault::Name),
    }
}

/// Reads keys with their values, between spaces.
fn keys_in(line: &str) -> Result<PathKeys, KeyFault>
    ensures { result ≡ keys_in line.now }
{
    line.split(' ').fold(Ok(PathKeys::none()), |so_far, word| with_word(so_far, word))
}

/// Reads the limits that keys give, each key once at most.
pub(crate) fn limits_in(line: &str) -> Option<PathLimits>
    ensures { result ≡ limits_in line.now }
{
    match keys_in(line) {
        Ok(keys) => Some(keys.limits()),
        Err(_) => None,
    }
}
