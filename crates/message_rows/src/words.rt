//! Words, numbers, priorities and addresses.

ghost use Rattle.std.specs.Prelude.{◌<◌, ◌^◌};

use crate::bytes::add_hex;
use pcep_word::{Bandwidth, Ipv4, Priorities, Priority, metric_bound, metric_word};
use std::alloc::AllocError;
use std::fmt::Write;

/// Adds `bandwidth 20 bytes/s, word 41a00000`.
fn add_bandwidth(bandwidth: Option<Bandwidth>, text: &mut String) -> Result<(), AllocError> {
    let Some(bandwidth) = bandwidth else {
        return text.push_str("fault: no bandwidth");
    };
    let (value, word) = (bandwidth.value(), bandwidth.word());
    write!(text, "bandwidth {value} bytes/s, word {word:08x}")
}

/// Adds `metric 20, word 41a00000`.
fn add_metric(value: u64, text: &mut String) -> Result<(), AllocError>
    requires { value < 2 ^ 48 }
{
    let word = metric_word(value);
    write!(text, "\nmetric {value}, word {word:08x}")
}

/// Adds what a word of eight digits is as a bandwidth, rounded up, and as a metric, rounded down.
pub fn add_word(row: &str, text: &mut String) -> Result<(), AllocError> {
    let Ok(word) = u32::from_str_radix(row, 16) else {
        return text.push_str("bad row");
    };
    add_bandwidth(Bandwidth::of_word(word), text)?;
    match metric_bound(word) {
        Some(value) => add_metric(value, text),
        None => text.push_str("\nfault: no metric"),
    }
}

/// Adds the least bandwidth that is not below a number, and the number as a metric.
pub fn add_number(row: &str, text: &mut String) -> Result<(), AllocError> {
    let Ok(number) = row.parse::<u64>() else {
        return text.push_str("bad row");
    };
    add_bandwidth(Bandwidth::at_least(number), text)?;
    if number >= 1 << 48 {
        return text.push_str("\nfault: no metric");
    }
    add_metric(number, text)
}

/// Reads the two numbers of a row.
fn pair_in(row: &str) -> Option<(u8, u8)> {
    let (first, second) = row.split_once(' ')?;
    Some((first.parse::<u8>().ok()?, second.parse::<u8>().ok()?))
}

/// Adds the priorities that are in force if these were asked for.
pub fn add_priorities(row: &str, text: &mut String) -> Result<(), AllocError> {
    let Some((setup, hold)) = pair_in(row) else {
        return text.push_str("bad row");
    };
    let priorities = Priorities::new(Priority::capped(setup), Priority::capped(hold));
    let (setup, hold) = (priorities.setup().number(), priorities.hold().number());
    write!(text, "setup {setup} hold {hold}")
}

/// Adds the address of a text: its number, its bytes, and its text again.
pub fn add_address(row: &str, text: &mut String) -> Result<(), AllocError> {
    let Some(address) = Ipv4::parse(row) else {
        return text.push_str("fault: no address");
    };
    let number = address.0;
    write!(text, "{address} number {number} bytes ")?;
    add_hex(&address.bytes(), text)
}
