//! The limits of a path, as the keys of `place` give them.
ghost use Rattle.std.specs.Prelude.{◌≡◌, Some};
ghost use Rattle.server_log.specs.Limits.{colours_text, is_limited, is_te, key_word, limits_text, line_word, metric_text, most_text};

use asks::PathLimits;
use lsp_words::MetricType;
use std::fmt;

/// Tests whether the TE metric is to be least, as it is without a key.
fn is_te(metric: MetricType) -> bool
    ensures { result ≡ is_te metric }
{
    matches!(metric, MetricType::Te)
}

/// Tests whether a path has limits.
fn is_limited(limits: &PathLimits) -> bool
    ensures { result ≡ is_limited limits.now }
{
    !is_te(limits.minimise)
        || limits.max_cost.is_some()
        || limits.max_hops.is_some()
        || limits.colours.exclude_any != 0
        || limits.colours.include_any != 0
        || limits.colours.include_all != 0
}

/// The word of the line that asks for an LSP: `place` if its path has limits, else `initiate`.
#[derive(Clone, Copy)]
pub(crate) struct LineWord(pub PathLimits);

impl fmt::Display for LineWord {
    ghost output = { λ word. Some (line_word word.0) };

    fn fmt<W: fmt::Write>(&self, f: &mut fmt::Formatter<W>) -> fmt::Result {
        if is_limited(&self.0) {
            f.write_str("place")
        } else {
            f.write_str("initiate")
        }
    }
}

/// The key of the metric that is to be least, or nothing for the TE metric.
#[derive(Clone, Copy)]
struct MetricKey(MetricType);

impl fmt::Display for MetricKey {
    ghost output = { λ key. Some (metric_text key.0) };

    fn fmt<W: fmt::Write>(&self, f: &mut fmt::Formatter<W>) -> fmt::Result {
        match self.0 {
            MetricType::Te => Ok(()),
            MetricType::Igp => f.write_str(" metric=igp"),
            MetricType::Hops => f.write_str(" metric=hops"),
        }
    }
}

/// A key with a number.
#[derive(Clone, Copy)]
enum LimitKey {
    MaxCost,
    MaxHops,
    Exclude,
    IncludeAny,
    IncludeAll,
}

impl fmt::Display for LimitKey {
    ghost output = { λ key. Some (key_word key) };

    fn fmt<W: fmt::Write>(&self, f: &mut fmt::Formatter<W>) -> fmt::Result {
        match self {
            LimitKey::MaxCost => f.write_str("max-cost"),
            LimitKey::MaxHops => f.write_str("max-hops"),
            LimitKey::Exclude => f.write_str("exclude"),
            LimitKey::IncludeAny => f.write_str("include-any"),
            LimitKey::IncludeAll => f.write_str("include-all"),
        }
    }
}

/// A key with the most that is allowed, or nothing if nothing bounds it.
#[derive(Clone, Copy)]
struct Most {
    key: LimitKey,
    most: Option<u64>,
}

impl fmt::Display for Most {
    ghost output = { λ m. Some (most_text m.key m.most) };

    fn fmt<W: fmt::Write>(&self, f: &mut fmt::Formatter<W>) -> fmt::Result {
        match self.most {
            None => Ok(()),
            Some(most) => {
                let key = self.key;
                write!(f, " {key}={most}")
            }
        }
    }
}

/// A key with a set of colours, or nothing if it has none.
#[derive(Clone, Copy)]
struct ColourSet {
    key: LimitKey,
    colours: u32,
}

impl fmt::Display for ColourSet {
    ghost output = { λ s. Some (colours_text s.key s.colours) };

    fn fmt<W: fmt::Write>(&self, f: &mut fmt::Formatter<W>) -> fmt::Result {
        let (key, colours) = (self.key, self.colours);
        if colours == 0 {
            return Ok(());
        }
        write!(f, " {key}=0x{colours:x}")
    }
}

/// The keys of limits, each after a space.
#[derive(Clone, Copy)]
pub(crate) struct LimitKeys(pub PathLimits);

impl fmt::Display for LimitKeys {
    ghost output = { λ keys. Some (limits_text keys.0) };

    fn fmt<W: fmt::Write>(&self, f: &mut fmt::Formatter<W>) -> fmt::Result {
        let limits = self.0;
        let metric = MetricKey(limits.minimise);
        let cost = Most {
            key: LimitKey::MaxCost,
            most: limits.max_cost,
        };
        let hops = Most {
            key: LimitKey::MaxHops,
            most: limits.max_hops,
        };
        let exclude = ColourSet {
            key: LimitKey::Exclude,
            colours: limits.colours.exclude_any,
        };
        let any = ColourSet {
            key: LimitKey::IncludeAny,
            colours: limits.colours.include_any,
        };
        let all = ColourSet {
            key: LimitKey::IncludeAll,
            colours: limits.colours.include_all,
        };
        write!(f, "{metric}{cost}{hops}{exclude}{any}{all}")
    }
}
