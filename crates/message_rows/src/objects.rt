//! Rows of one object.

use crate::written::add_written_object;
use message_words::{add_object, add_object_fault};
use pcep_objects::{Object, ObjectFault, read_object};
use sequence::PlainData;
use std::alloc::{AllocError, Global};
use std::fmt::Write;

/// Adds an object of these bytes, how it is written again, and how many bytes follow it.
fn add_whole_object(
    alloc: Global,
    object: &Object,
    read: &[u8],
    rest: &[u8],
    text: &mut String,
) -> Result<(), AllocError> {
    add_object(alloc, object, text)?;
    add_written_object(alloc, object, read, text)?;
    if rest.is_empty() {
        return Ok(());
    }
    let count = rest.len();
    write!(text, "\n  {count} bytes follow")
}

/// Adds the P flag and the length of an object that isn't known.
fn add_unknown(p: bool, size: usize, text: &mut String) -> Result<(), AllocError> {
    let p = u8::from(p);
    write!(text, ", p {p}, {size} bytes")
}

/// Adds the fault of an object.
fn add_fault(fault: ObjectFault, text: &mut String) -> Result<(), AllocError> {
    add_object_fault(fault, text)?;
    match fault {
        ObjectFault::UnknownClass { p, size } => add_unknown(p, size, text),
        ObjectFault::UnknownType { p, size } => add_unknown(p, size, text),
        _ => Ok(()),
    }
}

/// Adds a copy of an object, so that each kind is shown to be copied.
fn add_copy(
    alloc: Global,
    object: &Object,
    read: &[u8],
    rest: &[u8],
    text: &mut String,
) -> Result<(), AllocError> {
    add_whole_object(alloc, &object.copy()?, read, rest, text)
}

/// Adds the object at the front of the bytes, or its fault.
pub fn add_read_object(alloc: Global, bytes: &[u8], text: &mut String) -> Result<(), AllocError> {
    match read_object(alloc, bytes) {
        Ok((object, size)) => {
            let (read, rest) = bytes.split_at(size);
            add_copy(alloc, &object, read, rest, text)
        }
        Err(fault) => add_fault(fault, text),
    }
}
