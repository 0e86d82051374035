ghost use Rattle.std.specs.Prelude.{◌≡◌, ◌<◌, ◌≤◌, ◌^◌, ℕ, IfSome, IfNone, Some};
ghost use Rattle.pcep_word.specs.Word.{IsLeast, IsWordOf, IsBandwidth, ReadsBandwidth, magnitude, units, bandwidth_of, word_of};

use crate::metric::metric_word;
use crate::word::{is_number, mantissa_and_scale, rounded_up};
use std::marker::Model;

/// A bandwidth in whole bytes per second, below 2^48, that some word of a BANDWIDTH object stands for (RFC 5440 section
/// 7.7). So there is always a word for exactly this value.
#[derive(Clone, Copy, Debug, PartialEq, Eq, PartialOrd, Ord, Hash)]
pub struct Bandwidth {
    value: u64,
}

impl Model for Bandwidth {
    ghost use Rattle.std.specs.Prelude.{ℕ};
    ghost use Rattle.pcep_word.specs.Word.{IsBandwidth};

    ghost Value = { ℕ };

    ghost view = { λ b. b.value };

    ghost invariant = { λ b. IsBandwidth b.value };

    ghost inverse = { λ n. record { value = n } };
}

impl Bandwidth {
    /// Returns 0 bytes per second.
    pub fn zero() -> Bandwidth
        ensures { result ≡ 0 }
    {
        Bandwidth { value: 0 }
    }

    /// Reads a word as a bandwidth, rounded up to whole bytes per second. Returns None if the word is infinite, not a
    /// number or negative (minus zero is 0), or if the bandwidth would be 2^48 or more.
    pub fn of_word(word: u32) -> Option<Bandwidth>
        ensures value { result ≡ bandwidth_of word }
        ensures found { IfSome result (λ b. ReadsBandwidth word b) }
        ensures none { IfNone result ((v : ℕ) → ReadsBandwidth word v → ⊥) }
    {
        Bandwidth::least_above(word)
    }

    fn least_above(word: u32) -> Option<Bandwidth>
        ensures found { IfSome result (λ b. ReadsBandwidth word b) }
        ensures none { IfNone result ((v : ℕ) → ReadsBandwidth word v → ⊥) }
    {
        if !is_number(word) {
            return None;
        }
        let (mantissa, scale) = mantissa_and_scale(word);
        let Some(value) = rounded_up(mantissa, scale) else {
            return None;
        };
        Some(Bandwidth { value })
    }

    /// Returns the least bandwidth that is not below `number` bytes per second. None if there is none below 2^48.
    pub fn at_least(number: u64) -> Option<Bandwidth>
        ensures found { IfSome result (λ b. IsLeast (λ v. (number ≤ v) × IsBandwidth v) b) }
        ensures none { IfNone result ((v : ℕ) → number ≤ v → IsBandwidth v → ⊥) }
    {
        if number >= 1 << 48 {
            return None;
        }
        Bandwidth::of_word(metric_word(number))
    }

    /// Returns the word that the bandwidth is written as: the least one that has exactly its value.
    pub fn word(self) -> u32
        ensures value { result ≡ word_of self }
        ensures least { IsWordOf self result }
        ensures exact { magnitude result ≡ units self }
        ensures read_again { bandwidth_of result ≡ Some self }
    {
        // only for the proof: the value is one that a bandwidth can have
        let _known = self.value;
        metric_word(self.value)
    }

    /// Returns the bandwidth in bytes per second.
    pub fn value(self) -> u64
        ensures value { result ≡ self }
        ensures small { result < 2 ^ 48 }
        ensures known { IsBandwidth result }
    {
        self.value
    }
}
