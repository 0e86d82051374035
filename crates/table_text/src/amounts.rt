//! Rates and percentages.
ghost use Rattle.std.specs.Prelude.{◌≡◌, ◌<◌, ◌≤◌, ◌^◌, ◌*◌};
ghost use Rattle.table_text.specs.Adding.{Adds};
ghost use Rattle.table_text.specs.Amounts.{bits_words, in_bits, magnitude, percent_words, point_words, rate_words, reserved, rounded, sign_words, size, tenths, unit_of, unit_word};

use std::alloc::AllocError;
use std::fmt::Write;

/// A unit of bits per second.
#[derive(Clone, Copy)]
enum Unit {
    Kilobit,
    Megabit,
    Gigabit,
}

/// Returns how many bits per second the unit has.
fn size(unit: Unit) -> u128
    ensures size { result ≡ size unit }
    ensures positive { 0 < result }
    ensures bound { result ≤ 1_000_000_000 }
{
    match unit {
        Unit::Kilobit => 1_000,
        Unit::Megabit => 1_000_000,
        Unit::Gigabit => 1_000_000_000,
    }
}

fn unit_word(unit: Unit) -> &'static str
    ensures { result.now ≡ unit_word unit }
{
    match unit {
        Unit::Kilobit => " kbit/s",
        Unit::Megabit => " Mbit/s",
        Unit::Gigabit => " Gbit/s",
    }
}

/// Divides, and rounds to the nearest whole number, a half up.
fn rounded(number: u128, by: u128) -> u128
    requires positive { 0 < by }
    requires divisor { by < 2 ^ 64 }
    requires number { number < 2 ^ 80 }
    ensures { result ≡ rounded number by }
{
    (number + by / 2) / by
}

/// Says bits per second in tenths of a unit, rounded.
fn tenths(unit: Unit, bits: u128) -> u128
    requires { bits < 2 ^ 70 }
    ensures { result ≡ tenths unit bits }
{
    rounded(10 * bits, size(unit))
}

/// Picks the least unit in which they are below 1,000 as shown, or the greatest.
#[tactic(auto, unfolding(crate::specs::Amounts::unit_of))]
fn unit_of(bits: u128) -> Unit
    requires { bits < 2 ^ 70 }
    ensures { result ≡ unit_of bits }
{
    if tenths(Unit::Kilobit, bits) < 10_000 {
        Unit::Kilobit
    } else if tenths(Unit::Megabit, bits) < 10_000 {
        Unit::Megabit
    } else {
        Unit::Gigabit
    }
}

/// Returns the sign of an amount. What is shown as 0 has none.
fn sign(bytes: i64, tenths: u128) -> &'static str
    ensures { result.now ≡ sign_words bytes tenths }
{
    if bytes < 0 && tenths != 0 { "-" } else { "" }
}

fn magnitude(bytes: i64) -> u64
    ensures magnitude { result ≡ magnitude bytes }
    ensures bound { result ≤ 2 ^ 63 }
{
    bytes.unsigned_abs()
}

/// Adds tenths with one digit after the point.
fn add_point(text: &mut String, tenths: u128) -> Result<(), AllocError>
    ensures { Adds result text.old text.new (point_words tenths) }
{
    let (whole, tenth) = (tenths / 10, tenths % 10);
    write!(text, "{whole}.{tenth}")
}

fn add_bits(text: &mut String, bytes: i64, unit: Unit, tenths: u128) -> Result<(), AllocError>
    ensures { Adds result text.old text.new (bits_words bytes unit tenths) }
{
    text.push_str(sign(bytes, tenths))?;
    add_point(text, tenths)?;
    text.push_str(unit_word(unit))
}

/// Adds bits per second in the unit of their size, with the sign of the bytes.
#[tactic(auto, unfolding(crate::specs::Amounts::in_bits))]
fn add_in_bits(text: &mut String, bytes: i64, bits: u128) -> Result<(), AllocError>
    requires { bits < 2 ^ 70 }
    ensures { Adds result text.old text.new (in_bits bytes bits) }
{
    let unit = unit_of(bits);
    add_bits(text, bytes, unit, tenths(unit, bits))
}

/// Adds bytes per second, and the same in bits with a unit of its size: `1000000 (8.0 Mbit/s)`.
pub fn add_rate(text: &mut String, bytes: i64) -> Result<(), AllocError>
    ensures { Adds result text.old text.new (rate_words bytes) }
{
    let bits = 8 * u128::from(magnitude(bytes));
    write!(text, "{bytes} (")?;
    add_in_bits(text, bytes, bits)?;
    text.push_str(")")
}

/// Says how much of a link is reserved, if so much is left of it.
fn reserved(reservable: u64, left: i64) -> u128
    ensures reserved { result ≡ reserved reservable left }
    ensures bound { result < 2 ^ 65 }
{
    let size = u128::from(magnitude(left));
    if left < 0 {
        u128::from(reservable) + size
    } else {
        u128::from(reservable).saturating_sub(size)
    }
}

/// Adds how much of a link is reserved, in percent of what may be; a dash if nothing may be.
pub fn add_percent(text: &mut String, reservable: u64, left: i64) -> Result<(), AllocError>
    ensures { Adds result text.old text.new (percent_words reservable left) }
{
    if reservable == 0 {
        return text.push_str("-");
    }
    let percent = rounded(100 * reserved(reservable, left), u128::from(reservable));
    write!(text, "{percent}%")
}
