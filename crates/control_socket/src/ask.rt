//! Asking a running server as an operator.
ghost use Rattle.std.specs.Prelude.{◌≡◌, ◌++◌, codes, OnOk, IfOk, IfSome};
ghost use Rattle.std.specs.Io.KnownBytes.{Appends, IsAtEnd};
ghost use Rattle.control_socket.specs.Answers.{is_line, outcome_of};
ghost use Rattle.control_socket.specs.Waits.{is_refused};

use crate::waits::is_gone;
use std::alloc::Global;
use std::io::{Read, Write};
use std::net::{Net, Shutdown};
use std::os::unix::net::UnixStream;
use std::time::{Clock, Duration};
use std::{io, thread};

/// The longest wait for an answer, or for more of it, in milliseconds.
const ANSWER_WAIT_MS: u64 = 30_000;

/// How often to check whether a server has ended, and the wait in between in milliseconds: a minute in all.
const END_LOOKS: u32 = 1200;

const END_WAIT_MS: u64 = 50;

/// What an answer says.
#[derive(Clone, Copy, PartialEq, Eq, Debug)]
pub enum Outcome {
    /// The line was heard, and this is its whole answer.
    Answered,
    /// What the line asks for was refused.
    Refused,
    /// The line is bad, or the link text that it asks to read.
    Bad,
    /// The link text can't be read.
    Unread,
    /// Memory ran out, or the history is full.
    Short,
    /// The answer is missing, or its last line has no line break.
    BrokenOff,
}

/// Tests whether the text is one line, without a line break.
pub fn is_line(text: &str) -> bool
    ensures { result ≡ is_line text.now }
{
    !text.as_bytes().contains(&b'\n')
}

/// Returns what an answer says to the line. `end` gets no answer.
#[tactic(auto, unfolding(crate::specs::Answers::outcome_of))]
pub fn outcome_of(line: &str, answer: &[u8]) -> Outcome
    ensures { result ≡ outcome_of line.now answer.now }
{
    if line == "end" && answer.is_empty() {
        return Outcome::Answered;
    }
    if !answer.ends_with(b"\n") {
        return Outcome::BrokenOff;
    }
    if answer.starts_with(b"bad line ") {
        return Outcome::Bad;
    }
    if answer.starts_with(b"te fault ") {
        return Outcome::Bad;
    }
    if answer.starts_with(b"refused ") {
        return Outcome::Refused;
    }
    if answer.starts_with(b"device fault\n") {
        return Outcome::Unread;
    }
    if answer.starts_with(b"out of memory\n") {
        return Outcome::Short;
    }
    if answer.starts_with(b"history full\n") {
        return Outcome::Short;
    }
    Outcome::Answered
}

/// Sends a line.
fn send<W: Write>(writer: &mut W, line: &str) -> io::Result<()>
    ensures { OnOk result (Appends (W.contents writer.old) (W.contents writer.new) (line.now ++ codes "\n")) }
{
    writer.write_all(line.as_bytes())?;
    writer.write_all(b"\n")
}

/// Receives all that comes, up to its end.
fn receive<R: Read>(alloc: Global, reader: &mut R) -> io::Result<Vec<u8>>
    ensures bytes { IfOk result (λ answer. IfSome (R.remaining reader.old) (λ bytes. answer.items ≡ bytes)) }
    ensures end { OnOk result (IsAtEnd (R.remaining reader.new)) }
{
    let mut answer = Vec::new(alloc);
    reader.read_to_end(&mut answer)?;
    Ok(answer)
}

/// Returns what the server at the path answers a line, or several with line breaks in between. A connection carries them
/// only; when it has ended, the answer is complete.
pub fn tell<R: Net>(rt: &R, alloc: Global, path: &str, line: &str) -> io::Result<Vec<u8>> {
    let stream = UnixStream::connect(rt, path)?;
    stream.set_read_timeout(Some(Duration::from_millis(ANSWER_WAIT_MS)))?;
    stream.set_write_timeout(Some(Duration::from_millis(ANSWER_WAIT_MS)))?;
    send(&mut &stream, line)?;
    stream.shutdown(Shutdown::Write)?;
    receive(alloc, &mut &stream)
}

/// Tests whether there was no server to connect to.
fn is_refused(connected: &io::Result<UnixStream>) -> bool
    ensures { result ≡ is_refused connected.now }
{
    match connected {
        Ok(_) => false,
        Err(error) => is_gone(error.kind()),
    }
}

/// Connects to the path, and returns whether no server listens there.
fn finds_nobody<R: Net>(rt: &R, path: &str) -> bool {
    let connected = UnixStream::connect(rt, path);
    is_refused(&connected)
}

/// Waits until no server listens at the path any more, for a minute at most. Returns whether none does.
pub fn await_end<R: Net + Clock>(rt: &R, path: &str) -> bool {
    for _look in 0..END_LOOKS {
        if finds_nobody(rt, path) {
            return true;
        }
        thread::sleep(rt, Duration::from_millis(END_WAIT_MS));
    }
    false
}
