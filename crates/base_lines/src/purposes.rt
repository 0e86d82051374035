//! What words ask a path for, and of it.
ghost use Rattle.std.specs.Prelude.{◌≡◌, option_map, IfOk};
ghost use Rattle.base_lines.specs.WordsIn.{first_constraints, update_in, initiate_in, answer_in, purpose_with, first_purpose};

use crate::first::first_flag;
use asks::cut_at_space;
use commit_core::{LspName, Purpose};
use line_words::{
    first_address_or_missing, first_bytes, first_long_or_missing, first_number, first_plsp,
    first_plsp_or_missing,
};
use lsp_base::{Constraints, OtherBounds};
use std::alloc::{AllocError, Global};
use step_lines::{first_bandwidth, first_colours, first_metric, first_priorities};

/// Reads what is asked of a path.
#[tactic(auto, unfolding(crate::specs::WordsIn::first_constraints))]
pub(crate) fn first_constraints(text: &str) -> Option<(Constraints, &str)>
    ensures { option_map (λ x. (x.0, x.1.now)) result ≡ first_constraints text.now }
{
    let Some((source, rest)) = first_address_or_missing(text) else {
        return None;
    };
    let Some((destination, rest)) = first_address_or_missing(rest) else {
        return None;
    };
    let Some((bandwidth, rest)) = first_bandwidth(rest) else {
        return None;
    };
    let Some((priorities, rest)) = first_priorities(rest) else {
        return None;
    };
    let Some((colours, rest)) = first_colours(rest) else {
        return None;
    };
    let Some((minimise, rest)) = first_metric(rest) else {
        return None;
    };
    let (bound, rest) = first_long_or_missing(rest)?;
    let (hop_bound, rest) = first_long_or_missing(rest)?;
    let (igp, rest) = first_long_or_missing(rest)?;
    let (te, rest) = first_long_or_missing(rest)?;
    let (local_protection, rest) = first_flag(rest, "protect", "-")?;
    let constraints = Constraints {
        source,
        destination,
        bandwidth,
        priorities,
        colours,
        minimise,
        bound,
        hop_bound,
        other_bounds: OtherBounds { igp, te },
        local_protection,
    };
    Some((constraints, rest))
}

#[tactic(auto, unfolding(crate::specs::WordsIn::update_in))]
fn update_in(text: &str) -> Option<(Purpose, &str)>
    ensures { option_map (λ x. (x.0, x.1.now)) result ≡ update_in text.now }
{
    let Some((plsp, rest)) = first_plsp(text) else {
        return None;
    };
    Some((Purpose::Update { plsp }, rest))
}

#[tactic(auto, unfolding(crate::specs::WordsIn::initiate_in))]
fn initiate_in(alloc: Global, text: &str) -> Result<Option<(Purpose, &str)>, AllocError>
    ensures { IfOk result (λ found. option_map (λ x. (x.0, x.1.now)) found ≡ initiate_in text.now) }
{
    let Some((bytes, rest)) = first_bytes(alloc, text)? else {
        return Ok(None);
    };
    let Some((constraints, rest)) = first_constraints(rest) else {
        return Ok(None);
    };
    match LspName::new(bytes) {
        Some(name) => Ok(Some((Purpose::Initiate { name, constraints }, rest))),
        None => Ok(None),
    }
}

#[tactic(auto, unfolding(crate::specs::WordsIn::answer_in))]
fn answer_in(text: &str) -> Option<(Purpose, &str)>
    ensures { option_map (λ x. (x.0, x.1.now)) result ≡ answer_in text.now }
{
    let (request, rest) = first_number(text)?;
    let Some((plsp, rest)) = first_plsp_or_missing(rest) else {
        return None;
    };
    let Some((constraints, rest)) = first_constraints(rest) else {
        return None;
    };
    let purpose = Purpose::Answer {
        request,
        plsp,
        constraints,
    };
    Some((purpose, rest))
}

#[tactic(auto, unfolding(crate::specs::WordsIn::purpose_with))]
fn purpose_with<'a>(
    alloc: Global,
    word: &str,
    rest: &'a str,
) -> Result<Option<(Purpose, &'a str)>, AllocError>
    ensures { IfOk result (λ found. option_map (λ x. (x.0, x.1.now)) found ≡ purpose_with word.now rest.now) }
{
    match word {
        "update" => Ok(update_in(rest)),
        "initiate" => initiate_in(alloc, rest),
        "answer" => Ok(answer_in(rest)),
        _ => Ok(None),
    }
}

/// Reads what a path is asked for.
#[tactic(auto, unfolding(crate::specs::WordsIn::first_purpose))]
pub(crate) fn first_purpose(
    alloc: Global,
    text: &str,
) -> Result<Option<(Purpose, &str)>, AllocError>
    ensures { IfOk result (λ found. option_map (λ x. (x.0, x.1.now)) found ≡ first_purpose text.now) }
{
    match cut_at_space(text) {
        Some((word, rest)) => purpose_with(alloc, word, rest),
        None => Ok(None),
    }
}
