//! `pced tell PATH watch`: what a running server says of its links, routers, LSPs, grants and decisions, again and again.
use crate::tell::{LinesEnd, TellFault, end_of, tell_fault, write_answer};
use control_socket::{outcome_of, tell};
use server_talk::{PolledInput, TimedRead};
use std::alloc::{AllocError, Global};
use std::io::{ErrorKind, IsTerminal, Read};
use std::net::Net;
use std::rt::Runtime;
use std::time::{Clock, Duration};
use std::{io, thread};
use watch_board::{ASKED, Board, Unread, block};

/// How many answers in a row may break off.
const BROKEN_MOST: u32 = 1;

/// Where to wait for Enter.
#[derive(Drop)]
struct Keys<'a, I: TimedRead> {
    input: &'a mut I,
    /// The input is a terminal, of which the end ends the watch too.
    is_terminal: bool,
    /// The input hasn't ended.
    is_open: bool,
}

impl<'a, I: TimedRead> Keys<'a, I> {
    /// Waits for Enter for at most this long. Returns whether it came.
    fn await_enter<R: Clock>(&mut self, rt: &R, pause: Duration) -> bool {
        if !self.is_open {
            thread::sleep(rt, pause);
            return false;
        }
        self.input.set_timeout(milliseconds(pause));
        let mut bytes = [0u8; 256];
        match self.input.read(&mut bytes) {
            Ok(0) => self.end_after(rt, pause),
            Ok(count) => bytes.iter().take(count).any(|byte| *byte == b'\n'),
            Err(error) if is_no_end(error.kind()) => false,
            Err(_) => self.end_after(rt, pause),
        }
    }

    /// Notes that the input has ended, and returns whether that ends the watch. If not, the pause is still waited for.
    fn end_after<R: Clock>(&mut self, rt: &R, pause: Duration) -> bool {
        self.is_open = false;
        if !self.is_terminal {
            thread::sleep(rt, pause);
        }
        self.is_terminal
    }
}

fn milliseconds(pause: Duration) -> u64 {
    u64::try_from(pause.as_millis()).unwrap_or(u64::MAX)
}

/// Tests whether an input that failed with this error goes on.
fn is_no_end(kind: ErrorKind) -> bool {
    matches!(
        kind,
        ErrorKind::WouldBlock | ErrorKind::TimedOut | ErrorKind::Interrupted
    )
}

fn short(_refused: AllocError) -> TellFault {
    TellFault::OutOfMemory
}

fn fault_of(unread: Unread) -> TellFault {
    match unread {
        Unread::OutOfMemory => TellFault::OutOfMemory,
        Unread::NoDocument => TellFault::BrokenOff,
    }
}

/// Makes the text of a block from a server's answer.
fn block_text(alloc: Global, is_terminal: bool, answer: &str) -> Result<String, TellFault> {
    let mut board = Board::new(alloc);
    for document in answer.lines() {
        board.hear(alloc, document).map_err(fault_of)?;
    }
    let text = board.text(alloc).map_err(short)?;
    block(alloc, is_terminal, &text).map_err(short)
}

/// Asks a server, and prints a block.
fn show_block<R: Runtime<A = Global> + Net>(
    rt: &R,
    path: &str,
    is_terminal: bool,
) -> Result<(), TellFault> {
    let alloc = rt.alloc();
    let answer = match tell(rt, alloc, path, ASKED) {
        Ok(answer) => answer,
        Err(error) => return Err(tell_fault(error.kind())),
    };
    match end_of(outcome_of(ASKED, &answer))? {
        LinesEnd::AllHeard => {}
        LinesEnd::SomeShort => return Err(TellFault::OutOfMemory),
        _ => return Err(TellFault::BrokenOff),
    }
    let Ok(text) = str::from_utf8(&answer) else {
        return Err(TellFault::BrokenOff);
    };
    let block = block_text(alloc, is_terminal, text)?;
    write_answer(&mut io::writer(rt), block.as_bytes())
}

/// Shows block after block, until Enter comes or nobody listens at the path any more.
fn show_blocks<R: Runtime<A = Global> + Net, I: TimedRead>(
    rt: &R,
    path: &str,
    pause: Duration,
    is_shown: bool,
    is_terminal: bool,
    input: &mut I,
) -> Result<LinesEnd, TellFault> {
    let mut keys = Keys {
        input,
        is_terminal,
        is_open: true,
    };
    let mut broken = 0;
    for _block in 0..u64::MAX {
        if keys.await_enter(rt, pause) {
            break;
        }
        match show_block(rt, path, is_shown) {
            Ok(()) => broken = 0,
            Err(TellFault::Nobody) => break,
            Err(TellFault::BrokenOff) if broken < BROKEN_MOST => broken += 1,
            Err(fault) => return Err(fault),
        }
    }
    Ok(LinesEnd::AllHeard)
}

/// Shows what the server at the path says, again after so many seconds each: on a terminal in place, else a block after the
/// other. Ends once Enter comes on standard input or the server has ended; that nobody listens at first is a fault.
pub fn watch_server<R: Runtime<A = Global> + Net>(
    rt: &R,
    files: &HostRuntime,
    path: &str,
    seconds: u64,
) -> Result<LinesEnd, TellFault> {
    let is_shown = files.stdout().is_terminal();
    let is_terminal = files.reader().is_terminal();
    let mut reader = rt.reader();
    let mut input = match PolledInput::new(rt, rt.alloc(), &mut reader, files, is_terminal) {
        Ok(input) => input,
        Err(_) => return Err(TellFault::Device),
    };
    show_block(rt, path, is_shown)?;
    let pause = Duration::from_secs(seconds);
    show_blocks(rt, path, pause, is_shown, is_terminal, &mut input)
}
