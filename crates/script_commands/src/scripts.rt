//! `pced script`: a script from standard input.

use crate::decoded::explain;
use crate::ends::end;
use pce_engine::run_script;
use std::alloc::Global;
use std::io;
use std::rt::Runtime;

/// Runs the script of standard input, prints what it prints, and gives its status.
pub fn print_script<R: Runtime<A = Global>>(rt: &R) -> io::Result<u8> {
    end(
        rt,
        run_script(rt.alloc(), &mut rt.reader(), &mut io::writer(rt)),
    )
}

/// Runs a script, and prints what it prints, explained, at its end.
fn explain_printed<R: Runtime<A = Global>>(rt: &R, printed: &mut Vec<u8>) -> io::Result<u8> {
    let outcome = run_script(rt.alloc(), &mut rt.reader(), printed);
    explain(rt, printed)?;
    end(rt, outcome)
}

/// Runs the script of standard input, and prints its messages in words.
pub fn explain_script<R: Runtime<A = Global>>(rt: &R) -> io::Result<u8> {
    explain_printed(rt, &mut Vec::new(rt.alloc()))
}
