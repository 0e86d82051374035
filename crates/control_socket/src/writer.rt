//! What is sent to an operator, and how long to wait until it is taken.
use crate::listen::Watch;
use crate::places::{Place, Stopwatch};
use crate::waits::is_quiet;
use std::io;
use std::io::{ErrorKind, Write};
use std::os::unix::net::UnixStream;
use std::time::Clock;

/// The most waits of one write, each as long as the socket's.
const WAITS: u32 = 40;

/// A socket as a writer that gives up on an operator who takes nothing: at once if the run should end, or if the
/// operator must make room for another.
#[derive(Drop)]
pub(crate) struct ControlWriter<'a, R: Clock, W: Watch> {
    pub stream: &'a UnixStream,
    pub place: &'a Place,
    pub clock: &'a Stopwatch<'a, R>,
    pub watch: &'a W,
}

impl<'a, R: Clock, W: Watch> Write for ControlWriter<'a, R, W> {
    fn write(&mut self, buf: &[u8]) -> io::Result<usize> {
        let mut stream = self.stream;
        self.place.wait(self.clock.now_ms());
        for _wait in 0..WAITS {
            match stream.write(buf) {
                Err(error) if is_quiet(error.kind()) => {}
                written => {
                    self.place.answer();
                    return written;
                }
            }
            if self.watch.is_closing() || self.place.must_go() {
                break;
            }
        }
        Err(io::Error::from(ErrorKind::TimedOut))
    }

    fn flush(&mut self) -> io::Result<()> {
        Ok(())
    }
}
