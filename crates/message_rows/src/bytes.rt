//! Bytes as hexadecimal digits.

use anyhow::Result;
use std::alloc::{AllocError, Global};
use std::fmt::Write;

/// Appends the bytes `count` times.
fn append_often(piece: &[u8], count: u16, bytes: &mut Vec<u8>) -> Result<(), AllocError> {
    for _ in 0..count {
        bytes.extend_from_slice(piece)?;
    }
    Ok(())
}

/// Appends the bytes of the digits `count` times.
fn append_digits(alloc: Global, digits: &str, count: u16, bytes: &mut Vec<u8>) -> Result<()> {
    let piece = hex::decode(alloc, digits)?;
    Ok(append_often(&piece, count, bytes)?)
}

/// Appends the bytes of a word: of digits, or of a number, a star and the digits that it repeats.
fn append_word(alloc: Global, word: &str, bytes: &mut Vec<u8>) -> Result<()> {
    match word.split_once('*') {
        Some((count, digits)) => append_digits(alloc, digits, count.parse::<u16>()?, bytes),
        None => append_digits(alloc, word, 1, bytes),
    }
}

fn append_words(alloc: Global, row: &str, bytes: &mut Vec<u8>) -> Result<()> {
    for word in row.split_whitespace() {
        append_word(alloc, word, bytes)?;
    }
    Ok(())
}

/// Returns the bytes of words of digits.
pub fn bytes_of(alloc: Global, row: &str) -> Result<Vec<u8>> {
    let mut bytes = Vec::new(alloc);
    append_words(alloc, row, &mut bytes)?;
    Ok(bytes)
}

/// Adds the bytes in digits.
pub fn add_hex(bytes: &[u8], text: &mut String) -> Result<(), AllocError> {
    for byte in bytes {
        write!(text, "{byte:02x}")?;
    }
    Ok(())
}
