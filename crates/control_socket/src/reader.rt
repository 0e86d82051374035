//! What an operator sends.
use crate::places::{Place, Stopwatch};
use crate::waits::is_quiet;
use std::io;
use std::io::Read;
use std::os::unix::net::UnixStream;
use std::time::Clock;

/// A socket as a reader. It is at its end when the operator must make room for another.
#[derive(Drop)]
pub(crate) struct ControlReader<'a, R: Clock> {
    pub stream: &'a UnixStream,
    pub place: &'a Place,
    pub clock: &'a Stopwatch<'a, R>,
}

impl<'a, R: Clock> Read for ControlReader<'a, R> {
    fn read(&mut self, buf: &mut [u8]) -> io::Result<usize> {
        if self.place.must_go() {
            return Ok(0);
        }
        self.place.wait(self.clock.now_ms());
        let mut stream = self.stream;
        match stream.read(buf) {
            Ok(count) => {
                self.place.answer();
                Ok(count)
            }
            Err(error) if is_quiet(error.kind()) && self.place.must_go() => Ok(0),
            Err(error) => Err(error),
        }
    }
}
