//! `pced --version`: which program this is.

use pced_build::{LOGIC, VERSION, commit};
use std::io;
use std::rt::Files;

fn print_version_of<R: Print>(rt: &R, commit: &str) -> io::Result<()> {
    if commit.is_empty() {
        return println!(*rt; "pced {VERSION} logic {LOGIC}");
    }
    println!(*rt; "pced {VERSION} logic {LOGIC} commit {commit}")
}

/// Prints the version, the toolchain's logic and, if it is known, the commit.
pub fn print_version<R: Files + Print + AllocGlobal>(rt: &R) -> io::Result<()> {
    let commit = commit(rt);
    print_version_of(rt, &commit)
}
