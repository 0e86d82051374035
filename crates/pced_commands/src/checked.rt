//! `pced check`: what is printed about a link text in a file.

use crate::statuses::{checked_status, unread};
use script_commands::status;
use std::alloc::{AllocError, Global};
use std::fmt::Write;
use std::fs::File;
use std::io;
use std::rt::Files;
use te_base::TeFault;
use te_words::check_text;
use text_files::{FileFault, read_file};

/// Adds what is printed about the bytes of a link text, and returns its fault.
pub fn add_checked(
    alloc: Global,
    bytes: &[u8],
    text: &mut String,
) -> Result<Option<TeFault>, AllocError> {
    match str::from_utf8(bytes) {
        Ok(source) => Ok(check_text(alloc, source, text)?.map(|found| found.fault)),
        Err(error) => {
            let byte = error.valid_up_to();
            write!(text, "te fault 1: not UTF-8 at byte {byte}")?;
            Ok(Some(TeFault::NotToml))
        }
    }
}

fn print_checked<R: Print + AllocGlobal>(
    rt: &R,
    bytes: &[u8],
    text: &mut String,
) -> io::Result<u8> {
    let found = add_checked(rt.alloc(), bytes, text)?;
    println!(*rt; "{text}")?;
    Ok(checked_status(found))
}

/// Prints why the file can't be read, and returns the status.
fn print_unread<R: Eprint>(rt: &R, file: &str, fault: &FileFault) -> io::Result<u8> {
    eprintln!(*rt; "cannot read {file}: {fault}")?;
    let fault = unread(fault.is_out_of_memory());
    eprintln!(*rt; "{fault}")?;
    Ok(status(fault))
}

/// Prints the first fault of the link text in a file in words, or what its network has, and returns the status. Only a
/// regular file of at most 16 MB is read.
pub fn check<R: Files<File = File> + Print + Eprint + AllocGlobal>(
    rt: &R,
    file: &str,
) -> io::Result<u8> {
    match read_file(rt, file) {
        Ok(bytes) => print_checked(rt, &bytes, &mut String::new(rt.alloc())),
        Err(fault) => print_unread(rt, file, &fault),
    }
}
