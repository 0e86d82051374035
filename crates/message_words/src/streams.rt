//! Lines of hexadecimal digits, and what the messages in them say.

ghost use Rattle.std.specs.Prelude.{◌≡◌, ◌<◌, ◌≤◌, ◌≢◌, ◌++◌, [], length};
ghost use Rattle.message_words.specs.Streams.{first_length};

use crate::decoding::add_decoded;
use hex::FromHexError;
use std::alloc::{AllocError, Global};
use std::fmt::Write;

/// Reads the bytes of digits with spaces anywhere. None: there are none, or it is something else.
fn bytes_in(alloc: Global, digits: &str) -> Result<Option<Vec<u8>>, AllocError> {
    let plain: Vec<u8> = digits
        .as_bytes()
        .iter()
        .copied()
        .filter(|byte| *byte != b' ')
        .collect(alloc)?;
    if plain.is_empty() {
        return Ok(None);
    }
    match hex::decode(alloc, &plain) {
        Ok(bytes) => Ok(Some(bytes)),
        Err(FromHexError::OutOfMemory) => Err(AllocError),
        Err(_) => Ok(None),
    }
}

/// A line with bytes of a peer.
#[derive(Clone, Copy)]
struct PeerLine<'a> {
    word: &'a str,
    peer: &'a str,
    digits: &'a str,
}

/// Reads a line `out PEER HEX`, `msg PEER HEX` or `report PEER HEX`.
fn peer_line(line: &str) -> Option<PeerLine<'_>> {
    let (word, rest) = line.split_once(' ')?;
    if word != "out" && word != "msg" && word != "report" {
        return None;
    }
    let (peer, digits) = rest.split_once(' ')?;
    Some(PeerLine { word, peer, digits })
}

/// Returns how long the first message is, by the length in its header (RFC 5440 section 6.1). It is all of the bytes if
/// that length is less than a header or more than there is.
fn first_length(bytes: &[u8]) -> usize
    ensures length { result ≡ first_length bytes.now }
    ensures fits { result ≤ length bytes.now }
{
    if bytes.len() >= 4 {
        let said = usize::from(bytes[2]) * 256 + usize::from(bytes[3]);
        if 4 <= said && said <= bytes.len() {
            return said;
        }
    }
    bytes.len()
}

/// Cuts the bytes after their first message.
fn cut_message(bytes: &[u8]) -> (&[u8], &[u8])
    requires { bytes.now ≢ [] }
    ensures whole { result.0.now ++ result.1.now ≡ bytes.now }
    ensures first { length result.0.now ≡ first_length bytes.now }
    ensures shorter { length result.1.now < length bytes.now }
{
    bytes.split_at(first_length(bytes))
}

/// Adds what each message of the bytes says, each beginning on a line of its own.
fn add_messages(alloc: Global, bytes: &[u8], text: &mut String) -> Result<(), AllocError> {
    let mut rest = bytes;
    while !rest.is_empty() {
        let (message, after) = cut_message(rest);
        if !text.is_empty() {
            text.push_str("\n")?;
        }
        add_decoded(alloc, message, text)?;
        rest = after;
    }
    Ok(())
}

/// Adds each line of the words from a new line on, as a comment.
fn add_comments(words: &str, text: &mut String) -> Result<(), AllocError> {
    for line in words.lines() {
        write!(text, "\n# {line}")?;
    }
    Ok(())
}

fn add_commented(alloc: Global, bytes: &[u8], text: &mut String) -> Result<(), AllocError> {
    let mut words = String::new(alloc);
    add_commented_by(alloc, bytes, &mut words, text)
}

fn add_commented_by(
    alloc: Global,
    bytes: &[u8],
    words: &mut String,
    text: &mut String,
) -> Result<(), AllocError> {
    add_messages(alloc, bytes, words)?;
    add_comments(words.as_str(), text)
}

fn add_peer_messages(
    alloc: Global,
    line: PeerLine<'_>,
    bytes: &[u8],
    text: &mut String,
) -> Result<(), AllocError> {
    let PeerLine { word, peer, .. } = line;
    write!(text, "{word} {peer}")?;
    add_messages(alloc, bytes, text)
}

/// Adds a line whose digits are the messages of a peer, or the line as it is if they aren't bytes.
fn add_peer_line(
    alloc: Global,
    line: &str,
    found: PeerLine<'_>,
    text: &mut String,
) -> Result<(), AllocError> {
    match bytes_in(alloc, found.digits)? {
        Some(bytes) => add_peer_messages(alloc, found, &bytes, text),
        None => text.push_str(line),
    }
}

/// Adds a line that has only digits, or any other line as it is.
fn add_bare_line(alloc: Global, line: &str, text: &mut String) -> Result<(), AllocError> {
    match bytes_in(alloc, line)? {
        Some(bytes) => add_messages(alloc, &bytes, text),
        None => text.push_str(line),
    }
}

/// Adds what a line of a script or of its output says, to an empty text. If the line has digits, alone or after `out`,
/// `msg` or `report` and a peer, these words stay in front and the messages follow in words. Any other line is added as
/// it is. The last line has no line break.
pub fn add_line(alloc: Global, line: &str, text: &mut String) -> Result<(), AllocError> {
    match peer_line(line) {
        Some(found) => add_peer_line(alloc, line, found, text),
        None => add_bare_line(alloc, line, text),
    }
}

/// Adds a line of a script's output. After `out PEER HEX` it adds the messages in words, each of their lines as a
/// comment.
pub fn add_explained(alloc: Global, line: &str, text: &mut String) -> Result<(), AllocError> {
    text.push_str(line)?;
    let Some(found) = peer_line(line) else {
        return Ok(());
    };
    match bytes_in(alloc, found.digits)? {
        Some(bytes) => add_commented(alloc, &bytes, text),
        None => Ok(()),
    }
}
