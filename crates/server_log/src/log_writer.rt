//! The thread that writes the log.
use crate::log_lines::{LogLine, write_line};
use crate::log_queue::LogQueue;
use log::Log;
use mio::unix::SourceFd;
use mio::{Events, Interest, Poll, Token};
use server_talk::Watch;
use std::alloc::{AllocError, Global};
use std::io;
use std::net::Net;
use std::os::fd::RawFd;
use std::sync::Wait;
use std::time::{Clock, Duration};

/// The descriptor of standard error.
const STANDARD_ERROR: RawFd = 2;

/// The wait for standard error, in milliseconds.
const READY_WAIT_MS: u64 = 250;

/// Standard error, which may be a pipe that nobody reads.
#[derive(Drop)]
pub struct ErrorOutput {
    /// `None` where it can't be waited for, as a file.
    poll: Option<Poll>,
    found: Events,
}

/// Makes a poll of standard error, if it can be waited for.
fn poll_of<R: Net>(rt: &R) -> io::Result<Poll> {
    let poll = Poll::new(rt)?;
    let registry = poll.registry();
    registry.register(&mut SourceFd(&STANDARD_ERROR), Token(0), Interest::WRITABLE)?;
    Ok(poll)
}

/// Waits until standard error takes a line, so long at most, and returns whether it does. It is noted anew, so that room
/// that there was is found.
fn await_room(poll: &mut Poll, found: &mut Events, most: Duration) -> io::Result<bool> {
    let registry = poll.registry();
    registry.reregister(&mut SourceFd(&STANDARD_ERROR), Token(0), Interest::WRITABLE)?;
    poll.poll(found, Some(most))?;
    Ok(!found.is_empty())
}

impl ErrorOutput {
    pub fn new<R: Net>(rt: &R, alloc: Global) -> Result<ErrorOutput, AllocError> {
        Ok(ErrorOutput {
            poll: poll_of(rt).ok(),
            found: Events::with_capacity(alloc, 1)?,
        })
    }

    /// Waits until a line can be written without waiting for a reader, so long at most, and returns whether it can.
    pub fn wait_writable(&mut self, most: Duration) -> bool {
        match &mut self.poll {
            None => true,
            Some(poll) => await_room(poll, &mut self.found, most).unwrap_or(false),
        }
    }
}

/// Waits for standard error. False where the log is over meanwhile.
fn await_ready<R: Wait + Clock>(rt: &R, log: &LogQueue, output: &mut ErrorOutput) -> bool {
    for _ in rt.forever() {
        if output.wait_writable(Duration::from_millis(READY_WAIT_MS)) {
            return true;
        }
        if log.is_over(rt) {
            return false;
        }
    }
    unreachable!()
}

/// Writes these lines. False where standard error takes no more, and the log is over.
fn write_lines<R: Wait + Clock + Log>(
    rt: &R,
    log: &LogQueue,
    output: &mut ErrorOutput,
    lines: &[LogLine],
) -> bool {
    for line in lines {
        if !await_ready(rt, log, output) {
            return false;
        }
        write_line(rt, *line);
    }
    true
}

/// Writes what is said, by way of these lines, of which there are none, until the log is over.
fn write_on<R: Wait + Clock + Log, W: Watch>(
    rt: &R,
    log: &LogQueue,
    watch: &W,
    output: &mut ErrorOutput,
    lines: &mut Vec<LogLine>,
) {
    for _ in rt.forever() {
        let is_over = log.swap(rt, lines, watch.now_ms());
        if !write_lines(rt, log, output, lines.as_slice()) || (is_over && lines.is_empty()) {
            return;
        }
        lines.clear();
    }
}

fn write_to<R: Wait + Clock + Log, W: Watch>(
    rt: &R,
    alloc: Global,
    log: &LogQueue,
    watch: &W,
    output: &mut ErrorOutput,
) -> Result<(), AllocError> {
    let mut lines = log.room(alloc)?;
    write_on(rt, log, watch, output, &mut lines);
    Ok(())
}

/// Writes what is said to standard error, until the log is over. The watch gives the moments. Where there is no memory for
/// that, nothing is written.
pub fn write_log<R: Wait + Clock + Net + Log, W: Watch>(
    rt: &R,
    alloc: Global,
    log: &LogQueue,
    watch: &W,
) -> Result<(), AllocError> {
    let mut output = ErrorOutput::new(rt, alloc)?;
    write_to(rt, alloc, log, watch, &mut output)
}

/// Writes the last line of the log, which is over, unless standard error takes none for a while.
pub fn write_last<R: Net + Log>(rt: &R, alloc: Global, line: LogLine) {
    let Ok(mut output) = ErrorOutput::new(rt, alloc) else {
        return;
    };
    if output.wait_writable(Duration::from_millis(READY_WAIT_MS)) {
        write_line(rt, line);
    }
}
