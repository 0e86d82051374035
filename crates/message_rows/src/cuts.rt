//! Messages cut short.

use message_words::add_fault;
use pcep_messages::{MessageFault, read_message};
use std::alloc::{AllocError, Global};
use std::fmt::Write;

/// Cuts of the lengths from `first` to `last`, which all have the same answer.
#[derive(Clone, Copy)]
struct Run {
    first: usize,
    last: usize,
    fault: Option<MessageFault>,
}

/// Adds a run of cuts: `8 to 28 bytes: fault: ..`.
fn add_run(word: &str, run: Run, text: &mut String) -> Result<(), AllocError> {
    let (first, last) = (run.first, run.last);
    write!(text, "{word}{first} to {last} bytes: ")?;
    match run.fault {
        Some(fault) => add_fault(fault, text),
        None => text.push_str("read"),
    }
}

/// Returns the run with one more cut. If that has another answer, adds the run to the text and begins another.
fn next_run(
    word: &str,
    run: Run,
    len: usize,
    fault: Option<MessageFault>,
    text: &mut String,
) -> Result<Run, AllocError> {
    if run.fault == fault {
        return Ok(Run { last: len, ..run });
    }
    add_run(word, run, text)?;
    text.push_str("\n")?;
    Ok(Run {
        first: len,
        last: len,
        fault,
    })
}

/// Returns the fault of bytes; `None`: they are read.
fn fault_of(alloc: Global, bytes: &[u8]) -> Option<MessageFault> {
    read_message(alloc, bytes).err()
}

/// Writes a message of a cut, with the length of the cut in its header.
fn append_mended(cut: &[u8], bytes: &mut Vec<u8>) -> Result<(), AllocError> {
    let [version, kind, _, _, body @ ..] = cut else {
        return Ok(());
    };
    let [.., high, low] = cut.len().to_be_bytes();
    bytes.extend_from_slice(&[*version, *kind, high, low])?;
    bytes.extend_from_slice(body)
}

/// Returns the fault of a cut with its own length in the header; `None`: it is read.
fn fault_of_mended(alloc: Global, cut: &[u8]) -> Result<Option<MessageFault>, AllocError> {
    let mut bytes = Vec::new(alloc);
    append_mended(cut, &mut bytes)?;
    Ok(fault_of(alloc, &bytes))
}

/// Adds the cuts of each length, with the length left as it is.
fn add_plain_cuts(alloc: Global, bytes: &[u8], text: &mut String) -> Result<(), AllocError> {
    let mut run = Run {
        first: 0,
        last: 0,
        fault: fault_of(alloc, &[]),
    };
    for len in 1..bytes.len() {
        let (cut, _) = bytes.split_at(len);
        run = next_run("cut, ", run, len, fault_of(alloc, cut), text)?;
    }
    add_run("cut, ", run, text)
}

/// Adds the cuts of whole words from the header on, with the length mended.
fn add_mended_cuts(alloc: Global, bytes: &[u8], text: &mut String) -> Result<(), AllocError> {
    let Some((header, _)) = bytes.split_at_checked(4) else {
        return Ok(());
    };
    let mut run = Run {
        first: 4,
        last: 4,
        fault: fault_of_mended(alloc, header)?,
    };
    for words in 2..bytes.len().div_ceil(4) {
        let Some((cut, _)) = bytes.split_at_checked(words * 4) else {
            return Ok(());
        };
        run = next_run(
            "mended, ",
            run,
            words * 4,
            fault_of_mended(alloc, cut)?,
            text,
        )?;
    }
    add_run("mended, ", run, text)
}

/// Adds how each proper prefix of a message is answered: with the length left in its header, and, if it consists of
/// whole words, with the length mended.
pub fn add_cuts(alloc: Global, bytes: &[u8], text: &mut String) -> Result<(), AllocError> {
    add_plain_cuts(alloc, bytes, text)?;
    text.push_str("\n")?;
    add_mended_cuts(alloc, bytes, text)
}
