//! Names that routers and link texts choose.
ghost use Rattle.std.specs.Prelude.{◌≡◌, ◌<◌, chars};
ghost use Rattle.std.specs.List.{list_all};
ghost use Rattle.std.specs.Fmt.{digits};
ghost use Rattle.table_text.specs.Adding.{Adds};
ghost use Rattle.table_text.specs.Names.{byte_words, bytes_words, is_plain_byte, is_shown, shown_name, shown_text, steers};

use std::alloc::AllocError;
use std::fmt::Write;
use ucd_category::GeneralCategory;

/// Tests whether characters of this category steer a terminal or the direction of a text, and show nothing.
fn steers(category: GeneralCategory) -> bool
    ensures { result ≡ steers category }
{
    matches!(
        category,
        GeneralCategory::Control
            | GeneralCategory::Format
            | GeneralCategory::LineSeparator
            | GeneralCategory::ParagraphSeparator
    )
}

fn is_shown(c: char) -> bool
    ensures { result ≡ is_shown c }
{
    c != '\\' && !steers(GeneralCategory::for_char(c))
}

fn are_shown(name: &str) -> bool
    ensures { result ≡ list_all is_shown (chars name.now) }
{
    name.chars().all(is_shown)
}

/// Tests whether the byte is a printed character of ASCII or a space, and no backslash.
fn is_plain_byte(byte: u8) -> bool
    ensures { result ≡ is_plain_byte byte }
{
    (0x20..=0x7e).contains(&byte) && byte != b'\\'
}

/// Adds a byte as it is, or as `\xNN`.
fn add_byte(text: &mut String, byte: u8) -> Result<(), AllocError>
    ensures { Adds result text.old text.new (byte_words byte) }
{
    if is_plain_byte(byte) {
        return text.push(byte as char);
    }
    let (high, low) = (byte / 16, byte % 16);
    write!(text, "\\x{high:x}{low:x}")
}

fn add_bytes(text: &mut String, name: &[u8]) -> Result<(), AllocError>
    ensures { Adds result text.old text.new (bytes_words name.now) }
{
    for byte in name {
        add_byte(text, *byte)?;
    }
    Ok(())
}

/// Adds a text as it is if each of its characters is shown, and byte by byte if not.
fn add_text(text: &mut String, name: &str) -> Result<(), AllocError>
    ensures { Adds result text.old text.new (shown_text name.now) }
{
    if are_shown(name) {
        return text.push_str(name);
    }
    add_bytes(text, name.as_bytes())
}

/// Adds a name as it is if it is UTF-8 and each of its characters is shown, and byte by byte if not.
pub fn add_name(text: &mut String, name: &[u8]) -> Result<(), AllocError>
    ensures { Adds result text.old text.new (shown_name name.now) }
{
    match str::from_utf8(name) {
        Ok(known) => add_text(text, known),
        Err(_) => add_bytes(text, name),
    }
}
