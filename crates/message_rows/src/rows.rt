//! The rows, by their first words.

use crate::bytes::bytes_of;
use crate::counts::add_count;
use crate::cuts::add_cuts;
use crate::messages::add_read_message;
use crate::notices::add_notice;
use crate::objects::add_read_object;
use crate::words::{add_address, add_number, add_priorities, add_word};
use message_words::add_line;
use std::alloc::{AllocError, Global};

/// Adds what the bytes are, in the way that the row's first word asks for.
fn add_reading(
    alloc: Global,
    word: &str,
    bytes: &[u8],
    text: &mut String,
) -> Result<(), AllocError> {
    match word {
        "message" => add_read_message(alloc, bytes, text),
        "object" => add_read_object(alloc, bytes, text),
        "count" => add_count(alloc, bytes, text),
        "cuts" => add_cuts(alloc, bytes, text),
        _ => text.push_str("bad row"),
    }
}

/// Adds the answer of a row that is about bytes.
fn add_answer_of_bytes(
    alloc: Global,
    word: &str,
    rest: &str,
    text: &mut String,
) -> Result<(), AllocError> {
    match bytes_of(alloc, rest) {
        Ok(bytes) => add_reading(alloc, word, &bytes, text),
        Err(_) => text.push_str("bad row"),
    }
}

/// Adds the answer of a row, given its first word and its rest.
fn add_answer_with(
    alloc: Global,
    word: &str,
    rest: &str,
    text: &mut String,
) -> Result<(), AllocError> {
    match word {
        "word" => add_word(rest, text),
        "number" => add_number(rest, text),
        "priorities" => add_priorities(rest, text),
        "address" => add_address(rest, text),
        "notice" => add_notice(alloc, rest, text),
        "line" => add_line(alloc, rest, text),
        _ => add_answer_of_bytes(alloc, word, rest, text),
    }
}

/// Adds what is printed for a line: the answer of a row, or a comment as it is.
pub fn add_answer(alloc: Global, line: &str, text: &mut String) -> Result<(), AllocError> {
    if line.is_empty() || line.starts_with("#") {
        return text.push_str(line);
    }
    match line.split_once(' ') {
        Some((word, rest)) => add_answer_with(alloc, word, rest, text),
        None => add_answer_with(alloc, line, "", text),
    }
}
