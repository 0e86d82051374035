//! Bandwidths with a unit: `750kB`, `6Mbit`, `1.5Gbit`.
ghost use Rattle.std.specs.Prelude.{◌≡◌, ◌<◌, ◌≤◌, ◌*◌, IfSome, Some, option_map};
ghost use Rattle.pcep_word.specs.Word.{IsLeast};
ghost use Rattle.asks.specs.Rates.{bandwidth_or_rate_in, before, bytes_of, decimal_in, parts_of, rate_in, rate_text, thousands, top_of, unit_in, unit_of};

use crate::words::{cut_at, long_number_in, raised};
use pcep_word::Bandwidth;
use std::fmt;

/// Gives what stands before a letter, if `tail` stands after it.
fn before<'a>(text: &'a str, letter: char, tail: &str) -> Option<&'a str>
    requires { letter < 128 }
    ensures { option_map (λ head. head.now) result ≡ before letter tail.now text.now }
{
    match cut_at(text, letter) {
        Some((head, rest)) => { if rest == tail { Some(head) } else { None } }
        None => None,
    }
}

/// Takes `k`, `M`, `G` or `T` off the end of a text, and gives what it multiplies by; 1 if there is none.
#[tactic(auto, unfolding(crate::specs::Rates::thousands))]
fn thousands(text: &str) -> (&str, u64)
    ensures value { (result.0.now, result.1) ≡ thousands text.now }
    ensures bound { result.1 ≤ 1_000_000_000_000 }
{
    if let Some(number) = before(text, 'k', "") {
        return (number, 1_000);
    }
    if let Some(number) = before(text, 'M', "") {
        return (number, 1_000_000);
    }
    if let Some(number) = before(text, 'G', "") {
        return (number, 1_000_000_000);
    }
    if let Some(number) = before(text, 'T', "") {
        return (number, 1_000_000_000_000);
    }
    (text, 1)
}

/// Takes a unit off the end of a word, and gives how many bits it has.
#[tactic(auto, unfolding(crate::specs::Rates::unit_in))]
fn unit_in(word: &str) -> Option<(&str, u64)>
    ensures value { option_map (λ x. (x.0.now, x.1)) result ≡ unit_in word.now }
    ensures bound { IfSome result (λ x. x.1 ≤ 8_000_000_000_000) }
{
    if let Some(head) = before(word, 'B', "") {
        let (number, scale) = thousands(head);
        return Some((number, 8 * scale));
    }
    if let Some(head) = before(word, 'b', "it") {
        return Some(thousands(head));
    }
    None
}

/// A decimal number: `whole`, and `fraction` of the `parts` that one has.
#[derive(Clone, Copy)]
struct Decimal {
    whole: u64,
    fraction: u64,
    parts: u64,
}

/// Gives how many parts one has if these digits come after the point.
#[tactic(auto, using(crate::proofs::Parts::ten_small, crate::proofs::Parts::ten_positive))]
fn parts_of(digits: &str) -> Option<u64>
    ensures value { result ≡ parts_of digits.now }
    ensures positive { IfSome result (λ parts. 0 < parts) }
{
    if digits.len() > 18 {
        return None;
    }
    let ten: u64 = 10;
    Some(ten.pow(digits.len() as u32))
}

/// Reads digits with at most one point, which has digits on both sides.
#[tactic(auto, unfolding(crate::specs::Rates::decimal_in, crate::specs::Rates::broken_number))]
fn decimal_in(text: &str) -> Option<Decimal>
    ensures value { result ≡ decimal_in text.now }
    ensures positive { IfSome result (λ number. 0 < number.parts) }
{
    match cut_at(text, '.') {
        None => {
            let whole = long_number_in(text)?;
            Some(Decimal {
                whole,
                fraction: 0,
                parts: 1,
            })
        }
        Some((whole, digits)) => {
            let whole = long_number_in(whole)?;
            let fraction = long_number_in(digits)?;
            let parts = parts_of(digits)?;
            Some(Decimal {
                whole,
                fraction,
                parts,
            })
        }
    }
}

/// Finds the least whole number of bytes that isn't below a number of a unit with so many bits; `None` from 2^48 bytes on.
#[tactic(auto, using(crate::proofs::Parts::product_fits, crate::proofs::Parts::bits_fit))]
fn bytes_of(number: Decimal, bits: u64) -> Option<u64>
    requires parts { 0 < number.parts }
    requires bits { bits ≤ 8_000_000_000_000 }
    ensures value { result ≡ bytes_of number bits }
    ensures least { IfSome result (λ bytes. IsLeast (λ v. top_of number bits ≤ v * (8 * number.parts)) bytes) }
{
    let bits = u128::from(bits);
    let parts = u128::from(number.parts);
    let whole = u128::from(number.whole) * bits;
    if whole >= 1 << 51 {
        return None;
    }
    let bytes = (whole * parts + u128::from(number.fraction) * bits).div_ceil(8 * parts);
    if bytes >= 1 << 48 {
        return None;
    }
    Some(bytes as u64)
}

/// Reads a bandwidth with a unit, as the least whole number of bytes per second that isn't below it.
#[tactic(auto, unfolding(crate::specs::Rates::rate_in))]
pub fn rate_in(word: &str) -> Option<u64>
    ensures { result ≡ rate_in word.now }
{
    let (number, bits) = unit_in(word)?;
    let number = decimal_in(number)?;
    bytes_of(number, bits)
}

/// Reads a bandwidth, with a unit or in bytes per second, raised to the next bandwidth.
pub fn bandwidth_or_rate_in(word: &str) -> Option<Bandwidth>
    ensures { result ≡ bandwidth_or_rate_in word.now }
{
    match long_number_in(word) {
        Some(number) => raised(number),
        None => match rate_in(word) {
            Some(number) => raised(number),
            None => None,
        },
    }
}

/// Bytes per second that are written with a unit, as operators write a bandwidth: `6Mbit`. The number is always whole, so
/// 187,500,000 bytes per second are `1500Mbit`.
#[derive(Clone, Copy, Debug, PartialEq, Eq)]
pub struct Rate(pub u64);

/// Finds the greatest unit of which so many bits are a whole number. Gives how many bits it has, and what stands before `bit`.
#[tactic(auto, unfolding(crate::specs::Rates::unit_of))]
fn unit_of(bits: u128) -> (u128, &'static str)
    ensures value { (result.0, result.1.now) ≡ unit_of bits }
    ensures positive { 0 < result.0 }
{
    if bits == 0 {
        return (1, "");
    }
    if bits % 1_000_000_000_000 == 0 {
        return (1_000_000_000_000, "T");
    }
    if bits % 1_000_000_000 == 0 {
        return (1_000_000_000, "G");
    }
    if bits % 1_000_000 == 0 {
        return (1_000_000, "M");
    }
    if bits % 1_000 == 0 {
        return (1_000, "k");
    }
    (1, "")
}

impl fmt::Display for Rate {
    ghost output = { λ rate. Some (rate_text rate.0) };

    fn fmt<W: fmt::Write>(&self, f: &mut fmt::Formatter<W>) -> fmt::Result {
        let bits = 8 * u128::from(self.0);
        let (unit, letter) = unit_of(bits);
        let number = bits / unit;
        write!(f, "{number}{letter}bit")
    }
}
