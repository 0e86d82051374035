//! How what was read is written again.

use crate::bytes::add_hex;
use pcep_messages::{Message, write_message};
use pcep_objects::{Object, WriteFault, write_object};
use std::alloc::{AllocError, Global};
use std::fmt::Write;

/// Adds the bytes that were written: says that they are those that were read, or gives them, or their number if there
/// are many.
fn add_spelling(written: &[u8], read: &[u8], text: &mut String) -> Result<(), AllocError> {
    if written == read {
        return text.push_str("\n  written again");
    }
    if written.len() > 1024 {
        let size = written.len();
        return write!(text, "\n  written in {size} bytes");
    }
    text.push_str("\n  written ")?;
    add_hex(written, text)
}

/// Adds the result of writing.
pub fn add_written(
    outcome: Result<(), WriteFault>,
    written: &[u8],
    read: &[u8],
    text: &mut String,
) -> Result<(), AllocError> {
    match outcome {
        Ok(()) => add_spelling(written, read, text),
        Err(fault) => write!(text, "\n  {fault}"),
    }
}

/// Adds how a message is written again, if its kind is written.
pub fn add_written_message(
    alloc: Global,
    message: &Message,
    read: &[u8],
    text: &mut String,
) -> Result<(), AllocError> {
    if !message.is_written() {
        return Ok(());
    }
    let mut written = Vec::new(alloc);
    let outcome = write_message(message, &mut written);
    add_written(outcome, &written, read, text)
}

/// Adds how an object is written again.
pub fn add_written_object(
    alloc: Global,
    object: &Object,
    read: &[u8],
    text: &mut String,
) -> Result<(), AllocError> {
    let mut written = Vec::new(alloc);
    let outcome = write_object(object, &mut written);
    add_written(outcome, &written, read, text)
}
