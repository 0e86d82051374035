//! The lines of a file, in bounded memory.
use crate::ends::ReplayEnd;
use std::io;
use std::io::{BufRead, ErrorKind, Read};

/// The most bytes that a line has: a whole link text may stand in one.
const MOST_BYTES: u64 = 16_000_000;

/// What comes next in a file.
#[derive(Clone, Copy, Debug, PartialEq, Eq)]
pub(crate) enum Piece {
    /// A line. A line break ends it.
    Line,
    /// A line that is cut short: the file ends in it.
    Cut,
    /// More bytes than a line has.
    TooLong,
    /// The end of the file.
    End,
}

/// Returns how a replay ends whose file isn't read.
pub(crate) fn fault_end(error: &io::Error) -> ReplayEnd {
    match error.kind() {
        ErrorKind::OutOfMemory => ReplayEnd::OutOfMemory,
        _ => ReplayEnd::Device,
    }
}

/// Reads the next line, without its line break, in the place of what `line` had.
pub(crate) fn read_line<F: BufRead>(
    reader: &mut F,
    line: &mut Vec<u8>,
) -> Result<Piece, ReplayEnd> {
    line.clear();
    let mut bounded = reader.by_ref().take(MOST_BYTES);
    if let Err(error) = bounded.read_until(b'\n', line) {
        return Err(fault_end(&error));
    }
    if line.is_empty() {
        return Ok(Piece::End);
    }
    if line.last() == Some(&b'\n') {
        line.pop();
        return Ok(Piece::Line);
    }
    if line.len() as u64 >= MOST_BYTES {
        return Ok(Piece::TooLong);
    }
    Ok(Piece::Cut)
}
