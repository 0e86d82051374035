//! Words of a line or a query: numbers, peers, PLSP-IDs, priorities and bandwidths.
ghost use Rattle.std.specs.Prelude.{◌≡◌, ◌<◌, ◌≤◌, ◌==◌, ℕ, option_map, slice_index, IfSome, IfNone};
ghost use Rattle.pcep_word.specs.Word.{IsBandwidth, IsLeast};
ghost use Rattle.asks.specs.Words.{bandwidth_in, cut_at, cut_at_space, long_number_in, number_in, peer_in, plsp_in, priority_in, raised};

use lsp_words::Plsp;
use pcep_word::{Bandwidth, Ipv4, Priority, metric_word};

/// Cuts a line at its first space.
pub fn cut_at_space(line: &str) -> Option<(&str, &str)>
    ensures { option_map (λ x. (x.0.now, x.1.now)) result ≡ cut_at_space line.now }
{
    line.split_once(' ')
}

/// Cuts a text at the first of a letter.
pub(crate) fn cut_at(text: &str, letter: char) -> Option<(&str, &str)>
    requires { letter < 128 }
    ensures { option_map (λ x. (x.0.now, x.1.now)) result ≡ cut_at letter text.now }
{
    text.split_once(letter)
}

/// Tests whether a word begins with a plus, which std's parsers take.
pub(crate) fn has_plus(word: &[u8]) -> bool
    ensures { result ≡ (slice_index word.now 0 == 43) }
{
    match word {
        [first, ..] => *first == b'+',
        [] => false,
    }
}

/// Reads a decimal number below 2^32, with leading zeros or without.
pub fn number_in(word: &str) -> Option<u32>
    ensures { result ≡ number_in word.now }
{
    if has_plus(word.as_bytes()) {
        return None;
    }
    word.parse::<u32>().ok()
}

/// Reads a PLSP-ID: a decimal number below 2^20, with leading zeros or without.
pub fn plsp_in(word: &str) -> Option<Plsp>
    ensures { result ≡ plsp_in word.now }
{
    match number_in(word) {
        Some(number) if number < 1 << 20 => Some(Plsp::new(number)),
        _ => None,
    }
}

/// Reads a decimal number below 2^64, with leading zeros or without.
pub fn long_number_in(word: &str) -> Option<u64>
    ensures { result ≡ long_number_in word.now }
{
    if has_plus(word.as_bytes()) {
        return None;
    }
    word.parse::<u64>().ok()
}

/// Reads a peer's number, in decimal or as a dotted address.
pub fn peer_in(word: &str) -> Option<u32>
    ensures { result ≡ peer_in word.now }
{
    match number_in(word) {
        Some(number) => Some(number),
        None => Ipv4::parse(word).map(|address| address.0),
    }
}

/// Reads a priority: a decimal number from 0 to 7, with leading zeros or without.
pub fn priority_in(word: &str) -> Option<Priority>
    ensures { result ≡ priority_in word.now }
{
    match number_in(word) {
        Some(number) if number < 8 => Some(Priority::capped(number as u8)),
        _ => None,
    }
}

/// Finds the least bandwidth that is not below the number, in bytes per second; `None` if there is none below 2^48.
pub(crate) fn raised(number: u64) -> Option<Bandwidth>
    ensures value { result ≡ raised number }
    ensures found { IfSome result (λ bandwidth. IsLeast (λ v. (number ≤ v) × IsBandwidth v) bandwidth) }
    ensures none { IfNone result ((v : ℕ) → number ≤ v → IsBandwidth v → ⊥) }
{
    if number >= 1 << 48 {
        return None;
    }
    Bandwidth::of_word(metric_word(number))
}

/// Reads a bandwidth: a decimal number of bytes per second, raised to the next bandwidth.
pub fn bandwidth_in(word: &str) -> Option<Bandwidth>
    ensures { result ≡ bandwidth_in word.now }
{
    match long_number_in(word) {
        Some(number) => raised(number),
        None => None,
    }
}
