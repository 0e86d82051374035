//! Durations.
ghost use Rattle.std.specs.Prelude.{◌<◌};
ghost use Rattle.table_text.specs.Adding.{Adds};
ghost use Rattle.table_text.specs.Durations.{clock_words, duration_words, two_digits};

use std::alloc::AllocError;
use std::fmt::Write;

/// Adds a number below 100 in two digits.
fn add_two_digits(text: &mut String, number: u64) -> Result<(), AllocError>
    requires { number < 100 }
    ensures { Adds result text.old text.new (two_digits number) }
{
    let (tens, ones) = (number / 10, number % 10);
    write!(text, "{tens}{ones}")
}

fn add_clock(text: &mut String, seconds: u64) -> Result<(), AllocError>
    ensures { Adds result text.old text.new (clock_words seconds) }
{
    let days = seconds / 86_400;
    write!(text, "{days} d ")?;
    add_two_digits(text, seconds / 3_600 % 24)?;
    text.push_str(":")?;
    add_two_digits(text, seconds / 60 % 60)?;
    text.push_str(":")?;
    add_two_digits(text, seconds % 60)
}

/// Adds a duration in milliseconds as days, hours, minutes and whole seconds: `1 d 02:03:04`.
pub fn add_duration(text: &mut String, ms: u64) -> Result<(), AllocError>
    ensures { Adds result text.old text.new (duration_words ms) }
{
    add_clock(text, ms / 1_000)
}
