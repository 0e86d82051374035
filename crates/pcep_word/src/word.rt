//! The parts of a word, and the whole numbers made of them.
ghost use Rattle.std.specs.Prelude.{◌≡◌, ◌<◌, ◌≤◌, ◌*◌, ◌-◌, ◌+◌, ◌^◌, ◌↔◌, ℕ, IsTrue, IfSome, IfNone};
ghost use Rattle.pcep_word.specs.Word.{IsNumber, IsLeast, IsGreatest, mantissa, scale, units};

/// Tests whether the word is a finite number that is not negative. Minus zero is 0.
pub(crate) fn is_number(word: u32) -> bool
    ensures { IsTrue result ↔ IsNumber word }
{
    (word >> 23) & 255 != 255 && word <= 1 << 31
}

/// Returns the mantissa and the scale of a number's word, which stands for mantissa * 2 ^ (scale - 150).
#[tactic(auto, unfolding(crate::specs::Word::mantissa, crate::specs::Word::scale))]
pub(crate) fn mantissa_and_scale(word: u32) -> (u64, u32)
    requires { IsNumber word }
    ensures mantissa { result.0 ≡ mantissa word }
    ensures scale { result.1 ≡ scale word }
    ensures small { result.0 < 2 ^ 24 }
    ensures positive { 1 ≤ result.1 }
    ensures bounded { result.1 < 255 }
    ensures normal { 1 < result.1 → 2 ^ 23 ≤ result.0 }
{
    let fraction = u64::from(word & 0x7f_ffff);
    let exponent = (word >> 23) & 255;
    if exponent == 0 {
        (fraction, 1)
    } else {
        ((1 << 23) + fraction, exponent)
    }
}

/// Returns the least number that is not below mantissa * 2 ^ (scale - 150), if it is below 2 ^ 48.
pub(crate) fn rounded_up(mantissa: u64, scale: u32) -> Option<u64>
    requires small { mantissa < 2 ^ 24 }
    requires bounded { scale < 255 }
    requires normal { 1 < scale → 2 ^ 23 ≤ mantissa }
    ensures found { IfSome result (λ v. IsLeast (λ u. mantissa * 2 ^ scale ≤ units u) v) }
    ensures fits { IfSome result (λ v. v < 2 ^ 48) }
    ensures none { IfNone result ((u : ℕ) → u < 2 ^ 48 → mantissa * 2 ^ scale ≤ units u → ⊥) }
{
    if scale < 150 {
        return Some(divided_up(mantissa, (150 - scale).min(24)));
    }
    if scale > 174 {
        return None;
    }
    Some(mantissa << (scale - 150))
}

/// Returns the greatest number up to 2 ^ 48 - 1 that is not above mantissa * 2 ^ (scale - 150).
pub(crate) fn rounded_down(mantissa: u64, scale: u32) -> u64
    requires small { mantissa < 2 ^ 24 }
    requires bounded { scale < 255 }
    requires normal { 1 < scale → 2 ^ 23 ≤ mantissa }
    ensures { IsGreatest (λ u. (u ≤ 2 ^ 48 - 1) × (units u ≤ mantissa * 2 ^ scale)) result }
{
    if scale < 150 {
        return mantissa >> (150 - scale).min(24);
    }
    if scale > 174 {
        return (1 << 48) - 1;
    }
    mantissa << (scale - 150)
}

/// Returns the number divided by 2 ^ k, rounded up.
pub(crate) fn divided_up(number: u64, k: u32) -> u64
    requires { k < 64 }
    ensures covers { number ≤ result * 2 ^ k }
    ensures tight { result * 2 ^ k < number + 2 ^ k }
{
    number.div_ceil(1 << k)
}
