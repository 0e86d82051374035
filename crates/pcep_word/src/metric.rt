//! Metrics as words, rounded down when read and up when written.
ghost use Rattle.std.specs.Prelude.{◌≡◌, ◌<◌, ◌≤◌, ◌*◌, ◌+◌, ◌^◌, ℕ, IfSome, IfNone, Some};
ghost use Rattle.pcep_word.specs.Word.{IsBandwidth, IsBound, IsNumber, IsWordOf, ReadsBound, bandwidth_of, bound_of, units, word_of};

use crate::word::{divided_up, is_number, mantissa_and_scale, rounded_down};

/// Reads the word of a METRIC object as a whole number, rounded down (RFC 5440 section 7.8): from 0 to 2^48 - 1, which
/// also stands for every greater value. Returns None if the word is infinite, not a number, or negative; minus zero is
/// 0.
pub fn metric_bound(word: u32) -> Option<u64>
    ensures value { result ≡ bound_of word }
    ensures found { IfSome result (λ v. ReadsBound word v) }
    ensures none { IfNone result (IsNumber word → ⊥) }
{
    greatest_below(word)
}

fn greatest_below(word: u32) -> Option<u64>
    ensures found { IfSome result (λ v. ReadsBound word v) }
    ensures none { IfNone result (IsNumber word → ⊥) }
{
    if !is_number(word) {
        return None;
    }
    let (mantissa, scale) = mantissa_and_scale(word);
    Some(rounded_down(mantissa, scale))
}

/// Returns the word that a number below 2^48 is written as: the least one whose value is not below it. So a number of
/// more than 24 significant bits is rounded up.
pub fn metric_word(value: u64) -> u32
    requires { value < 2 ^ 48 }
    ensures value { result ≡ word_of value }
    ensures least { IsWordOf value result }
{
    least_word(value)
}

fn least_word(value: u64) -> u32
    requires { value < 2 ^ 48 }
    ensures { IsWordOf value result }
{
    if value == 0 {
        return 0;
    }
    let top = value.ilog2();
    let mantissa = leading_bits(value, top);
    ((top + 126) << 23) + mantissa as u32
}

/// Returns the 24 highest bits of a number whose highest bit is `top`, rounded up.
fn leading_bits(value: u64, top: u32) -> u64
    requires small { value < 2 ^ 48 }
    requires low { 2 ^ top ≤ value }
    requires high { value < 2 ^ (top + 1) }
    requires top { top < 48 }
    ensures normal { 2 ^ 23 ≤ result }
    ensures fits { result ≤ 2 ^ 24 }
    ensures covers { units value ≤ result * 2 ^ (top + 127) }
    ensures tight { result * 2 ^ (top + 127) < units value + 2 ^ (top + 127) }
{
    if top <= 23 {
        value << (23 - top)
    } else {
        divided_up(value, top - 23)
    }
}

/// Shows that what is read from a word is read again from the word that it is written as.
pub fn words_are_read_again()
    ensures bandwidths { (v : ℕ) → IsBandwidth v → bandwidth_of (word_of v) ≡ Some v }
    ensures bounds { (v : ℕ) → IsBound v → bound_of (word_of v) ≡ Some v }
    ensures known { (w v : ℕ) → bandwidth_of w ≡ Some v → IsBandwidth v }
    ensures known_bounds { (w v : ℕ) → bound_of w ≡ Some v → IsBound v }
    ensures small { (v : ℕ) → IsBound v → v < 2 ^ 48 }
    ensures fits { (v : ℕ) → v < 2 ^ 48 → word_of v < 2 ^ 31 }
{}
