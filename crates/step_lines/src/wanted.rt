//! What an operator asks of a path that is to be initiated.
ghost use Rattle.std.specs.Prelude.{◌≡◌, option_map};
ghost use Rattle.std.specs.Option.{unwrap_or};
ghost use Rattle.step_lines.specs.EventReading.{first_bandwidth, first_colours, first_metric, first_priorities, first_priority, limits_in, metric_in, wanted_in};
ghost use Rattle.step_lines.specs.Wanted.{bound_by, has_ends, has_no_more, limits_of, may_be_wanted, wanted_of};

use asks::{PathLimits, PathWanted, bandwidth_in, cut_at_space, priority_in};
use line_words::{first_address, first_long_or_missing, first_number};
use lsp_base::{Constraints, OtherBounds};
use lsp_words::{Colours, MetricType};
use pcep_word::{Bandwidth, Ipv4, Priorities, Priority};

/// Makes what such a path is bound by.
pub(crate) fn bound_by(wanted: PathWanted) -> Constraints
    ensures { result ≡ bound_by wanted }
{
    Constraints {
        source: Some(wanted.from),
        destination: Some(wanted.to),
        bandwidth: wanted.bandwidth,
        priorities: wanted.priorities,
        colours: wanted.limits.colours,
        minimise: wanted.limits.minimise,
        bound: wanted.limits.max_cost,
        hop_bound: wanted.limits.max_hops,
        other_bounds: OtherBounds {
            igp: None,
            te: None,
        },
        local_protection: false,
    }
}

/// Returns an address, or that of number 0 if there is none.
pub(crate) fn address_or_zero(address: Option<Ipv4>) -> Ipv4
    ensures { result ≡ unwrap_or address 0 }
{
    match address {
        Some(address) => address,
        None => Ipv4(0),
    }
}

fn limits_of(constraints: &Constraints) -> PathLimits
    ensures { result ≡ limits_of constraints.now }
{
    PathLimits {
        minimise: constraints.minimise,
        max_cost: constraints.bound,
        max_hops: constraints.hop_bound,
        colours: constraints.colours,
    }
}

/// Returns what was asked of the path.
pub(crate) fn wanted_of(constraints: &Constraints) -> PathWanted
    ensures { result ≡ wanted_of constraints.now }
{
    PathWanted {
        from: address_or_zero(constraints.source),
        to: address_or_zero(constraints.destination),
        bandwidth: constraints.bandwidth,
        priorities: constraints.priorities,
        limits: limits_of(constraints),
    }
}

fn has_ends(constraints: &Constraints) -> bool
    ensures { result ≡ has_ends constraints.now }
{
    constraints.source.is_some() && constraints.destination.is_some()
}

fn has_no_more(constraints: &Constraints) -> bool
    ensures { result ≡ has_no_more constraints.now.other_bounds.igp constraints.now.other_bounds.te constraints.now.local_protection }
{
    constraints.other_bounds.igp.is_none()
        && constraints.other_bounds.te.is_none()
        && !constraints.local_protection
}

/// Tests whether an operator can ask this of a path.
#[tactic(auto, unfolding(crate::specs::Wanted::may_be_wanted))]
pub(crate) fn may_be_wanted(constraints: &Constraints) -> bool
    ensures { result ≡ may_be_wanted constraints.now }
{
    has_ends(constraints) && has_no_more(constraints)
}

fn metric_in(word: &str) -> Option<MetricType>
    ensures { result ≡ metric_in word.now }
{
    match word {
        "te" => Some(MetricType::Te),
        "igp" => Some(MetricType::Igp),
        "hops" => Some(MetricType::Hops),
        _ => None,
    }
}

/// Reads the metric that is to be least.
#[tactic(auto, unfolding(crate::specs::EventReading::first_metric))]
pub fn first_metric(text: &str) -> Option<(MetricType, &str)>
    ensures { option_map (λ x. (x.0, x.1.now)) result ≡ first_metric text.now }
{
    let (word, rest) = cut_at_space(text)?;
    let metric = metric_in(word)?;
    Some((metric, rest))
}

/// Reads the colours that no link of the path has, of which each link has one, and all of which each link has.
#[tactic(auto, unfolding(crate::specs::EventReading::first_colours))]
pub fn first_colours(text: &str) -> Option<(Colours, &str)>
    ensures { option_map (λ x. (x.0, x.1.now)) result ≡ first_colours text.now }
{
    let (exclude_any, rest) = first_number(text)?;
    let (include_any, rest) = first_number(rest)?;
    let (include_all, rest) = first_number(rest)?;
    let colours = Colours {
        exclude_any,
        include_any,
        include_all,
    };
    Some((colours, rest))
}

/// Reads the metric that is to be least, the most of it, the most hops, and colours.
#[tactic(auto, unfolding(crate::specs::EventReading::limits_in))]
fn limits_in(text: &str) -> Option<PathLimits>
    ensures { result ≡ limits_in text.now }
{
    let Some((minimise, rest)) = first_metric(text) else {
        return None;
    };
    let (max_cost, rest) = first_long_or_missing(rest)?;
    let (max_hops, rest) = first_long_or_missing(rest)?;
    let Some((colours, _)) = first_colours(rest) else {
        return None;
    };
    Some(PathLimits {
        minimise,
        max_cost,
        max_hops,
        colours,
    })
}

/// Reads a bandwidth. A number that is none gives the next greater one.
#[tactic(auto, unfolding(crate::specs::EventReading::first_bandwidth))]
pub fn first_bandwidth(text: &str) -> Option<(Bandwidth, &str)>
    ensures { option_map (λ x. (x.0, x.1.now)) result ≡ first_bandwidth text.now }
{
    let (word, rest) = cut_at_space(text)?;
    let bandwidth = bandwidth_in(word)?;
    Some((bandwidth, rest))
}

/// Reads a priority.
#[tactic(auto, unfolding(crate::specs::EventReading::first_priority))]
pub fn first_priority(text: &str) -> Option<(Priority, &str)>
    ensures { option_map (λ x. (x.0, x.1.now)) result ≡ first_priority text.now }
{
    let (word, rest) = cut_at_space(text)?;
    let priority = priority_in(word)?;
    Some((priority, rest))
}

/// Reads a setup and a holding priority. A holding priority that is worse counts as the setup priority.
#[tactic(auto, unfolding(crate::specs::EventReading::first_priorities))]
pub fn first_priorities(text: &str) -> Option<(Priorities, &str)>
    ensures { option_map (λ x. (x.0, x.1.now)) result ≡ first_priorities text.now }
{
    let Some((setup, rest)) = first_priority(text) else {
        return None;
    };
    let Some((hold, rest)) = first_priority(rest) else {
        return None;
    };
    Some((Priorities::new(setup, hold), rest))
}

/// Reads two addresses, a bandwidth, two priorities and limits. A bandwidth or priority that is none gives another, which
/// is written otherwise.
#[tactic(auto, unfolding(crate::specs::EventReading::wanted_in))]
pub(crate) fn wanted_in(text: &str) -> Option<PathWanted>
    ensures { result ≡ wanted_in text.now }
{
    let (from, rest) = first_address(text)?;
    let (to, rest) = first_address(rest)?;
    let Some((bandwidth, rest)) = first_bandwidth(rest) else {
        return None;
    };
    let Some((priorities, rest)) = first_priorities(rest) else {
        return None;
    };
    let limits = limits_in(rest)?;
    Some(PathWanted {
        from: Ipv4(from),
        to: Ipv4(to),
        bandwidth,
        priorities,
        limits,
    })
}
