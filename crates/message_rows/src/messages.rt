//! Rows of one message.

use crate::written::add_written_message;
use message_words::{add_fault, add_message};
use pcep_messages::{Message, read_message};
use sequence::PlainData;
use std::alloc::{AllocError, Global};

/// Adds a message, and how it is written again.
fn add_whole_message(
    alloc: Global,
    message: &Message,
    read: &[u8],
    text: &mut String,
) -> Result<(), AllocError> {
    add_message(alloc, message, text)?;
    add_written_message(alloc, message, read, text)
}

/// Adds a copy of a message, so that each kind is shown to be copied.
fn add_copy(
    alloc: Global,
    message: &Message,
    read: &[u8],
    text: &mut String,
) -> Result<(), AllocError> {
    add_whole_message(alloc, &message.copy()?, read, text)
}

/// Adds the message of the bytes, or its fault.
pub fn add_read_message(alloc: Global, bytes: &[u8], text: &mut String) -> Result<(), AllocError> {
    match read_message(alloc, bytes) {
        Ok(message) => add_copy(alloc, &message, bytes, text),
        Err(fault) => add_fault(fault, text),
    }
}
