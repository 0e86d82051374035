//! The value that the first word of a text stands for, and the text after that word.
ghost use Rattle.std.specs.Prelude.{◌≡◌, option_map, IfOk};
ghost use Rattle.line_words.specs.First.{first_address, first_address_or_missing, first_bytes, first_long_number, first_long_or_missing, first_number, first_number_or_missing, first_plsp, first_plsp_or_missing, is_nothing};

use crate::words::bytes_in;
use asks::{cut_at_space, long_number_in, number_in, plsp_in};
use lsp_words::Plsp;
use pcep_word::Ipv4;
use sequence::Sequence;
use std::alloc::{AllocError, Global};

/// Tests whether the text is empty.
pub fn is_nothing(text: &str) -> bool
    ensures { result ≡ is_nothing text.now }
{
    text.len() == 0
}

/// Reads a number below 2^32.
#[tactic(auto, unfolding(crate::specs::First::first_number))]
pub fn first_number(text: &str) -> Option<(u32, &str)>
    ensures { option_map (λ x. (x.0, x.1.now)) result ≡ first_number text.now }
{
    let (word, rest) = cut_at_space(text)?;
    let number = number_in(word)?;
    Some((number, rest))
}

/// Reads a number below 2^64.
#[tactic(auto, unfolding(crate::specs::First::first_long_number))]
pub fn first_long_number(text: &str) -> Option<(u64, &str)>
    ensures { option_map (λ x. (x.0, x.1.now)) result ≡ first_long_number text.now }
{
    let (word, rest) = cut_at_space(text)?;
    let number = long_number_in(word)?;
    Some((number, rest))
}

/// Reads a PLSP-ID.
#[tactic(auto, unfolding(crate::specs::First::first_plsp))]
pub fn first_plsp(text: &str) -> Option<(Plsp, &str)>
    ensures { option_map (λ x. (x.0, x.1.now)) result ≡ first_plsp text.now }
{
    let (word, rest) = cut_at_space(text)?;
    let plsp = plsp_in(word)?;
    Some((plsp, rest))
}

/// Reads an address, by its number.
#[tactic(auto, unfolding(crate::specs::First::first_address))]
pub fn first_address(text: &str) -> Option<(u32, &str)>
    ensures { option_map (λ x. (x.0, x.1.now)) result ≡ first_address text.now }
{
    let (word, rest) = cut_at_space(text)?;
    let address = Ipv4::parse(word)?;
    Some((address.0, rest))
}

/// Reads bytes in hexadecimal.
#[tactic(auto, unfolding(crate::specs::First::first_bytes))]
pub fn first_bytes(alloc: Global, text: &str) -> Result<Option<(Sequence<u8>, &str)>, AllocError>
    ensures { IfOk result (λ found. option_map (λ x. (x.0, x.1.now)) found ≡ first_bytes text.now) }
{
    let Some((word, rest)) = cut_at_space(text) else {
        return Ok(None);
    };
    match bytes_in(alloc, word)? {
        Some(bytes) => Ok(Some((Sequence::from_vec(bytes), rest))),
        None => Ok(None),
    }
}

/// Reads a number below 2^32, or `-` if there is none.
#[tactic(auto, unfolding(crate::specs::First::first_number_or_missing))]
pub fn first_number_or_missing(text: &str) -> Option<(Option<u32>, &str)>
    ensures { option_map (λ x. (x.0, x.1.now)) result ≡ first_number_or_missing text.now }
{
    let (word, rest) = cut_at_space(text)?;
    if word == "-" {
        return Some((None, rest));
    }
    let number = number_in(word)?;
    Some((Some(number), rest))
}

/// Reads a number below 2^64, or `-` if there is none.
#[tactic(auto, unfolding(crate::specs::First::first_long_or_missing))]
pub fn first_long_or_missing(text: &str) -> Option<(Option<u64>, &str)>
    ensures { option_map (λ x. (x.0, x.1.now)) result ≡ first_long_or_missing text.now }
{
    let (word, rest) = cut_at_space(text)?;
    if word == "-" {
        return Some((None, rest));
    }
    let number = long_number_in(word)?;
    Some((Some(number), rest))
}

/// Reads a PLSP-ID, or `-` if there is none.
#[tactic(auto, unfolding(crate::specs::First::first_plsp_or_missing))]
pub fn first_plsp_or_missing(text: &str) -> Option<(Option<Plsp>, &str)>
    ensures { option_map (λ x. (x.0, x.1.now)) result ≡ first_plsp_or_missing text.now }
{
    let (word, rest) = cut_at_space(text)?;
    if word == "-" {
        return Some((None, rest));
    }
    let plsp = plsp_in(word)?;
    Some((Some(plsp), rest))
}

/// Reads an address, or `-` if there is none.
#[tactic(auto, unfolding(crate::specs::First::first_address_or_missing))]
pub fn first_address_or_missing(text: &str) -> Option<(Option<Ipv4>, &str)>
    ensures { option_map (λ x. (x.0, x.1.now)) result ≡ first_address_or_missing text.now }
{
    let (word, rest) = cut_at_space(text)?;
    if word == "-" {
        return Some((None, rest));
    }
    let address = Ipv4::parse(word)?;
    Some((Some(address), rest))
}
