//! Names of LSPs, as log lines have them.
ghost use Rattle.std.specs.Prelude.{◌≡◌, Some, flat_map, take};
ghost use Rattle.server_log.specs.Names.{begin_of, byte_text, cut_mark, is_plain, name_text};

use std::fmt;

/// The number of bytes of a name that a line shows, at most.
const MOST: usize = 64;

/// The name of an LSP (RFC 8231 section 7.3.2), or its first 64 bytes.
#[derive(Clone, Copy, PartialEq, Eq, Debug)]
pub struct ShownName {
    bytes: [u8; MOST],
    count: usize,
    is_cut: bool,
}

impl ShownName {
    /// That of an LSP that isn't known.
    pub const UNKNOWN: ShownName = ShownName {
        bytes: [0; MOST],
        count: 0,
        is_cut: false,
    };

    /// Shows this name.
    pub fn new(name: &[u8]) -> ShownName
        ensures { result ≡ begin_of name.now }
    {
        let count = name.len().min(MOST);
        let mut bytes = [0; MOST];
        bytes[..count].copy_from_slice(&name[..count]);
        ShownName {
            bytes,
            count,
            is_cut: count < name.len(),
        }
    }
}

/// Says whether the byte is a printed character of ASCII and no backslash. A space isn't one, since it ends the word of
/// a line.
fn is_plain(byte: u8) -> bool
    ensures { result ≡ is_plain byte }
{
    (0x21..=0x7e).contains(&byte) && byte != b'\\'
}

/// A byte as it is, or as `\xNN`.
#[derive(Clone, Copy)]
struct Byte(u8);

impl fmt::Display for Byte {
    ghost output = { λ byte. Some (byte_text byte.0) };

    fn fmt<W: fmt::Write>(&self, f: &mut fmt::Formatter<W>) -> fmt::Result {
        let byte = self.0;
        if is_plain(byte) {
            return f.write_char(byte as char);
        }
        let (high, low) = (byte / 16, byte % 16);
        write!(f, "\\x{high:x}{low:x}")
    }
}

/// Bytes, each as it is or in digits.
#[derive(Clone, Copy)]
struct Escaped<'a>(&'a [u8]);

impl<'a> fmt::Display for Escaped<'a> {
    ghost output = { λ escaped. Some (flat_map byte_text escaped.0.now) };

    fn fmt<W: fmt::Write>(&self, f: &mut fmt::Formatter<W>) -> fmt::Result {
        let bytes = self.0;
        for byte in bytes {
            let byte = Byte(*byte);
            write!(f, "{byte}")?;
        }
        Ok(())
    }
}

/// Returns what stands after a name that is cut.
fn cut_mark(is_cut: bool) -> &'static str
    ensures { result.now ≡ cut_mark is_cut }
{
    if is_cut { ".." } else { "" }
}

impl ShownName {
    /// Returns the bytes that are shown.
    fn shown(&self) -> &[u8]
        ensures { result.now ≡ take self.now.count self.now.bytes }
    {
        &self.bytes[..self.count.min(MOST)]
    }
}

impl fmt::Display for ShownName {
    ghost output = { λ name. Some (name_text name) };

    fn fmt<W: fmt::Write>(&self, f: &mut fmt::Formatter<W>) -> fmt::Result {
        if self.count == 0 {
            return f.write_str("-");
        }
        let (shown, mark) = (Escaped(self.shown()), cut_mark(self.is_cut));
        write!(f, "{shown}{mark}")
    }
}
