//! A peer's socket whose messages are counted, and whose reading may pause.
ghost use Rattle.std.specs.Io.{ReadsAtMost};

use crate::reading::Reading;
use server_counts::{Counters, MessageStream, Way};
use server_signals::Wakers;
use server_talk::{PolledSocket, TimedRead, Watch};
use short_lock::acquire;
use std::io;
use std::io::{ErrorKind, Read, Write};
use std::net::TcpStream;
use std::sync::{Mutex, Wait};

/// Counts the messages of a stream.
#[derive(Drop)]
struct MessageCount<'a, R> {
    rt: &'a R,
    counters: &'a Mutex<Counters>,
    way: Way,
    stream: MessageStream,
}

impl<'a, R: Wait> MessageCount<'a, R> {
    fn hear(&mut self, piece: &[u8]) {
        if !piece.is_empty() {
            let mut counters = acquire(self.rt, self.counters);
            self.stream.hear(self.way, piece, &mut counters);
        }
    }
}

/// What a peer sends.
#[derive(Drop)]
pub(crate) struct TappedReader<'a, R, W> {
    messages: MessageCount<'a, R>,
    socket: PolledSocket<'a>,
    /// Ends a wait of the socket; the connection has this slot there.
    wakers: &'a Wakers,
    slot: usize,
    watch: &'a W,
    reading: &'a Reading,
}

impl<'a, R: Wait, W: Watch> TappedReader<'a, R, W> {
    pub fn new(
        rt: &'a R,
        counters: &'a Mutex<Counters>,
        socket: PolledSocket<'a>,
        wakers: &'a Wakers,
        slot: usize,
        watch: &'a W,
        reading: &'a Reading,
    ) -> TappedReader<'a, R, W> {
        TappedReader {
            messages: MessageCount {
                rt,
                counters,
                way: Way::In,
                stream: MessageStream::new(),
            },
            socket,
            wakers,
            slot,
            watch,
            reading,
        }
    }

    /// Waits for this time or until a ring, and reads nothing. Returns `WouldBlock`, or why it couldn't wait. What
    /// should be written meanwhile isn't delayed by that.
    fn pause(&mut self, most_ms: u64) -> io::Error {
        let waited = self.socket.await_ring(most_ms);
        self.wakers.rearm(self.messages.rt, self.slot);
        match waited {
            Ok(()) => io::Error::from(ErrorKind::WouldBlock),
            Err(error) => error,
        }
    }

    fn read_now(&mut self, buf: &mut [u8]) -> io::Result<usize>
        ensures { ReadsAtMost result buf.new }
    {
        let read = self.socket.read(buf);
        self.wakers.rearm(self.messages.rt, self.slot);
        let count = read?;
        self.reading.hear(self.watch.now_ms());
        self.messages.hear(&buf[..count]);
        Ok(count)
    }
}

impl<'a, R: Wait, W: Watch> Read for TappedReader<'a, R, W> {
    fn read(&mut self, buf: &mut [u8]) -> io::Result<usize> {
        match self.reading.pause_ms(self.watch.now_ms()) {
            0 => self.read_now(buf),
            pause_ms => Err(self.pause(pause_ms)),
        }
    }
}

impl<'a, R: Wait, W: Watch> TimedRead for TappedReader<'a, R, W> {
    fn set_timeout(&mut self, most_ms: u64) {
        self.socket.set_timeout(most_ms);
    }
}

/// What is sent to a peer.
#[derive(Drop)]
pub(crate) struct TappedWriter<'a, R> {
    messages: MessageCount<'a, R>,
    stream: &'a TcpStream,
}

impl<'a, R: Wait> TappedWriter<'a, R> {
    pub fn new(
        rt: &'a R,
        counters: &'a Mutex<Counters>,
        stream: &'a TcpStream,
    ) -> TappedWriter<'a, R> {
        TappedWriter {
            messages: MessageCount {
                rt,
                counters,
                way: Way::Out,
                stream: MessageStream::new(),
            },
            stream,
        }
    }
}

impl<'a, R: Wait> Write for TappedWriter<'a, R> {
    fn write(&mut self, buf: &[u8]) -> io::Result<usize> {
        let mut stream = self.stream;
        let count = stream.write(buf)?;
        self.messages.hear(&buf[..count]);
        Ok(count)
    }

    fn flush(&mut self) -> io::Result<()> {
        let mut stream = self.stream;
        stream.flush()
    }
}
