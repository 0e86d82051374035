//! `pced decode` and `pced script --explain`: lines of digits in words.

use message_words::{add_explained, add_line};
use std::alloc::{AllocError, Global};
use std::io;

fn decoded(alloc: Global, line: &str) -> Result<String, AllocError> {
    let mut text = String::new(alloc);
    add_line(alloc, line, &mut text)?;
    Ok(text)
}

/// Prints what each line of standard input says, and gives the status.
pub fn decode<R: Input + Print + AllocGlobal>(rt: &R) -> io::Result<u8> {
    for line in rt.lines(rt.alloc()) {
        let text = decoded(rt.alloc(), line?.as_str())?;
        println!(*rt; "{text}")?;
    }
    Ok(0)
}

fn explained(alloc: Global, line: &str) -> Result<String, AllocError> {
    let mut text = String::new(alloc);
    add_explained(alloc, line, &mut text)?;
    Ok(text)
}

fn explain_line<R: Print + AllocGlobal>(rt: &R, line: &str) -> io::Result<()> {
    let text = explained(rt.alloc(), line)?;
    println!(*rt; "{text}")
}

/// Prints what a script printed, with its messages in words.
pub fn explain<R: Print + AllocGlobal>(rt: &R, printed: &[u8]) -> io::Result<()> {
    let Ok(printed) = str::from_utf8(printed) else {
        return Ok(());
    };
    for line in printed.lines() {
        explain_line(rt, line)?;
    }
    Ok(())
}
