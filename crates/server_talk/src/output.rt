//! Standard output, and the waits for it.
use mio::unix::SourceFd;
use mio::{Events, Interest, Poll, Token};
use std::alloc::{AllocError, Global};
use std::io;
use std::io::Write;
use std::net::Net;
use std::os::fd::RawFd;
use std::time::Duration;

/// The descriptor of standard output.
const STANDARD_OUTPUT: RawFd = 1;

/// The most bytes that are written at once. A pipe that takes any bytes takes this many.
const PIECE: usize = 4096;

/// How long a write waits for a reader, in milliseconds.
const WRITE_WAIT_MS: u64 = 250;

/// Standard output, which may be a pipe that nobody reads. A write waits a while for its reader; if that was in vain,
/// it takes nothing. What can't be waited for, such as a file, is written at once.
#[derive(Drop)]
pub struct PolledOutput<'a, O: Write> {
    writer: &'a mut O,
    poll: Option<Poll>,
    found: Events,
}

/// Makes a poll of standard output, if it can be waited for.
fn poll_of<R: Net>(rt: &R) -> io::Result<Poll> {
    let poll = Poll::new(rt)?;
    let registry = poll.registry();
    registry.register(
        &mut SourceFd(&STANDARD_OUTPUT),
        Token(0),
        Interest::WRITABLE,
    )?;
    Ok(poll)
}

/// Waits until standard output takes a piece, and returns whether it does within the time of a write. It is noted anew, so
/// that room that there was is found.
fn wait_writable(poll: &mut Poll, found: &mut Events) -> io::Result<bool> {
    let registry = poll.registry();
    registry.reregister(
        &mut SourceFd(&STANDARD_OUTPUT),
        Token(0),
        Interest::WRITABLE,
    )?;
    poll.poll(found, Some(Duration::from_millis(WRITE_WAIT_MS)))?;
    Ok(!found.is_empty())
}

impl<'a, O: Write> PolledOutput<'a, O> {
    /// Makes a writer of standard output, over the given one.
    pub fn new<R: Net>(
        rt: &R,
        alloc: Global,
        writer: &'a mut O,
    ) -> Result<PolledOutput<'a, O>, AllocError> {
        let found = Events::with_capacity(alloc, 1)?;
        Ok(PolledOutput {
            writer,
            poll: poll_of(rt).ok(),
            found,
        })
    }
}

impl<'a, O: Write> Write for PolledOutput<'a, O> {
    fn write(&mut self, buf: &[u8]) -> io::Result<usize> {
        if let Some(poll) = &mut self.poll {
            if !wait_writable(poll, &mut self.found)? {
                return Ok(0);
            }
        }
        self.writer.write(&buf[..buf.len().min(PIECE)])
    }

    fn flush(&mut self) -> io::Result<()> {
        self.writer.flush()
    }
}
