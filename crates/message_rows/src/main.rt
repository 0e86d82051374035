//! Says what rows of bytes are. Each line of standard input is a row: a first word, and its text after a space. A line
//! that is empty or begins with `#` is printed as it is.
//!
//! | Row | Prints |
//! |---|---|
//! | `message HEX` | the kind of the message, a line for each object that counts, and how it is written again |
//! | `object HEX` | a line for the object at the front, and how it is written again |
//! | `count HEX` | how many items and hops a long message has, and how it is written again |
//! | `cuts HEX` | how the message is read when it is cut short, with the length left, and with the length mended |
//! | `line TEXT` | what `pced decode` says of the line |
//! | `notice NOTICE` | the bytes of a message that a session sends by itself |
//! | `word HEX` | the bandwidth and the metric of a word, and their words |
//! | `number N` | the least bandwidth that is not below the number, and the number as a metric, with their words |
//! | `priorities SETUP HOLD` | the priorities that are in force |
//! | `address TEXT` | the address that the text writes |
//!
//! HEX is hexadecimal digits with spaces between bytes; `N*DIGITS` stands for the bytes N times. NOTICE is `keepalive`,
//! `close REASON` or `error TYPE VALUE`, the last also with `request N` or `srp N` after it. What can't be read is
//! answered by a line `fault: ..`, a row of another form by `bad row`.
//!
//! The lines of messages and objects have the names of the RFCs. They say what counts of a message, so a report has an
//! LSPA and a BANDWIDTH even if its bytes have none.
#![tactic(auto)]

mod bytes;
mod counts;
mod cuts;
mod messages;
mod notices;
mod objects;
mod rows;
mod words;
mod written;

use rows::add_answer;
use std::alloc::{AllocError, Global};
use std::io;
use std::rt::Runtime;

/// Returns what is printed for a line.
fn printed(alloc: Global, line: &str) -> Result<String, AllocError> {
    let mut text = String::new(alloc);
    add_answer(alloc, line, &mut text)?;
    Ok(text)
}

fn main(rt: HostRuntime) -> io::Result<()> {
    for line in rt.lines(rt.alloc()) {
        let text = printed(rt.alloc(), line?.as_str())?;
        println!(rt; "{text}")?;
    }
    Ok(())
}
