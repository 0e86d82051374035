//! Words as they are written, each with a space after it.
ghost use Rattle.std.specs.Prelude.{◌≡◌, ◌++◌, OnOk, string_bytes};
ghost use Rattle.line_words.specs.Written.{hex_word, number_word, or_dash};

use std::alloc::{AllocError, Global};
use std::fmt::Write;

/// Adds bytes in hexadecimal.
pub fn add_hex(alloc: Global, text: &mut String, bytes: &[u8]) -> Result<(), AllocError>
    ensures { OnOk result (string_bytes text.new ≡ string_bytes text.old ++ hex_word bytes.now) }
{
    let digits = hex::encode(alloc, bytes)?;
    text.push_str(&digits)?;
    text.push_str(" ")
}

/// Adds a number in decimal.
pub fn add_number(text: &mut String, number: u64) -> Result<(), AllocError>
    ensures { OnOk result (string_bytes text.new ≡ string_bytes text.old ++ number_word number) }
{
    write!(text, "{number} ")
}

/// Adds a number, or `-` if there is none.
pub fn add_number_or_dash(text: &mut String, number: Option<u64>) -> Result<(), AllocError>
    ensures { OnOk result (string_bytes text.new ≡ string_bytes text.old ++ or_dash number_word number) }
{
    match number {
        Some(number) => add_number(text, number),
        None => text.push_str("- "),
    }
}
