//! Lines with the time.
ghost use Rattle.std.specs.Prelude.{◌≡◌};
ghost use Rattle.journal_files.specs.Moments.{is_digit, fits_byte, fits, is_moment, not_before};

/// `0` stands for a digit, and each other byte for itself.
const PATTERN: &str = "at 0000-00-00T00:00:00Z";

fn is_digit(byte: u8) -> bool
    ensures { result ≡ is_digit byte }
{
    b'0' <= byte && byte <= b'9'
}

fn fits_byte(pattern: u8, byte: u8) -> bool
    ensures { result ≡ fits_byte pattern byte }
{
    if pattern == b'0' {
        is_digit(byte)
    } else {
        pattern == byte
    }
}

/// Tests whether each byte fits the pattern there, and there are as many.
fn fits(pattern: &[u8], bytes: &[u8]) -> bool
    ensures { result ≡ fits pattern.now bytes.now }
{
    if pattern.len() != bytes.len() {
        return false;
    }
    for i in 0..pattern.len() {
        if !fits_byte(pattern[i], bytes[i]) {
            return false;
        }
    }
    true
}

/// Tests whether the line is one with the time.
#[tactic(auto, unfolding(crate::specs::Moments::is_moment))]
pub fn is_moment(line: &str) -> bool
    ensures { result ≡ is_moment line.now }
{
    fits(PATTERN.as_bytes(), line.as_bytes())
}

/// Tests whether a moment isn't before another, given their lines. Nothing is before the empty line.
pub fn not_before(moment: &[u8], other: &[u8]) -> bool
    ensures { result ≡ not_before moment.now other.now }
{
    for i in 0..other.len() {
        if i == moment.len() {
            return false;
        }
        if moment[i] != other[i] {
            return other[i] < moment[i];
        }
    }
    true
}
