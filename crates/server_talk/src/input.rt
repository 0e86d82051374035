//! Standard input, and the waits for it.
use crate::terminal::is_in_front;
use crate::traits::TimedRead;
use mio::unix::SourceFd;
use mio::{Events, Interest, Poll, Token};
use std::alloc::Global;
use std::fs::Files;
use std::io;
use std::io::{ErrorKind, Read};
use std::net::Net;
use std::os::fd::RawFd;
use std::time::Duration;

/// The descriptor of standard input.
const STANDARD_INPUT: RawFd = 0;

/// The token of standard input among what a wait finds.
const INPUT: Token = Token(0);

/// The error of a descriptor that isn't open for reading (errno(3), EBADF).
const BAD_DESCRIPTOR: i32 = 9;

/// Tests whether a read failed because the descriptor isn't open for reading.
fn is_not_open(read: &io::Result<usize>) -> bool {
    match read {
        Ok(_) => false,
        Err(error) => error.raw_os_error() == Some(BAD_DESCRIPTOR),
    }
}

/// Standard input. A wait for it takes no longer than the given time. A regular file, which can't be waited for, is
/// read at once. A terminal is read only while this process is in its foreground. If the descriptor isn't open for
/// reading, the input has ended.
#[derive(Drop)]
pub struct PolledInput<'a, I: Read, F: Files> {
    reader: &'a mut I,
    files: &'a F,
    is_terminal: bool,
    poll: Poll,
    can_wait: bool,
    found: Events,
    most_ms: u64,
}

impl<'a, I: Read, F: Files + AllocGlobal> PolledInput<'a, I, F> {
    /// Makes a reader of standard input. The reader that it is given must not read ahead.
    pub fn new<R: Net>(
        rt: &R,
        alloc: Global,
        reader: &'a mut I,
        files: &'a F,
        is_terminal: bool,
    ) -> io::Result<PolledInput<'a, I, F>> {
        let poll = Poll::new(rt)?;
        let registry = poll.registry();
        let can_wait = registry
            .register(&mut SourceFd(&STANDARD_INPUT), INPUT, Interest::READABLE)
            .is_ok();
        Ok(PolledInput {
            reader,
            files,
            is_terminal,
            poll,
            can_wait,
            found: Events::with_capacity(alloc, 1)?,
            most_ms: 0,
        })
    }

    /// Registers standard input again, so that a wait also finds what came before it.
    fn note_input(&mut self) -> io::Result<()> {
        let registry = self.poll.registry();
        let noted = registry.reregister(&mut SourceFd(&STANDARD_INPUT), INPUT, Interest::READABLE);
        if noted.is_ok() {
            return Ok(());
        }
        registry.register(&mut SourceFd(&STANDARD_INPUT), INPUT, Interest::READABLE)
    }

    /// Waits until there is something to read, or the end, and returns whether there is in time.
    fn wait_readable(&mut self) -> io::Result<bool> {
        if self.is_terminal && !is_in_front(self.files) {
            let _was_noted = self
                .poll
                .registry()
                .deregister(&mut SourceFd(&STANDARD_INPUT));
        } else {
            self.note_input()?;
        }
        let most = Duration::from_millis(self.most_ms);
        self.poll.poll(&mut self.found, Some(most))?;
        Ok(self.found.iter().any(|event| event.token() == INPUT))
    }
}

impl<'a, I: Read, F: Files + AllocGlobal> Read for PolledInput<'a, I, F> {
    fn read(&mut self, buf: &mut [u8]) -> io::Result<usize> {
        if self.can_wait && !self.wait_readable()? {
            return Err(io::Error::from(ErrorKind::WouldBlock));
        }
        let read = self.reader.read(buf);
        if is_not_open(&read) {
            return Ok(0);
        }
        read
    }
}

impl<'a, I: Read, F: Files + AllocGlobal> TimedRead for PolledInput<'a, I, F> {
    ghost use Rattle.std.specs.Prelude.{◌≡◌};

    ghost may_wait = { λ s ms. s.most_ms ≡ ms };

    fn set_timeout(&mut self, most_ms: u64) {
        self.most_ms = most_ms;
    }
}
