//! A peer's socket, the waits for it, and its end.
use crate::talk::TAKEN_WITHIN_MS;
use crate::traits::{TimedRead, Watch};
use mio::unix::SourceFd;
use mio::{Events, Interest, Poll, Token, Waker};
use std::alloc::Global;
use std::io;
use std::io::{ErrorKind, Read};
use std::net::{Net, Shutdown, SocketAddr, TcpListener, TcpStream};
use std::os::fd::{AsRawFd, OwnedFd, RawFd};
use std::time::Duration;

/// How long a read waits for bytes that were announced and aren't there, and for what a peer still sends after the end,
/// in milliseconds.
const READ_WAIT_MS: u64 = 80;

/// How long an accept waits, in milliseconds.
pub const ACCEPT_WAIT_MS: u64 = 100;

/// How long a write waits for a peer that takes nothing, in milliseconds. When it gives up, a clock says that the
/// peer's time is over.
const WRITE_WAIT_MS: u64 = TAKEN_WITHIN_MS + 20;

/// How long to read what a peer still sends after the end, in milliseconds.
const LINGER_MS: u64 = 1000;

/// The most reads after the end.
const LINGER_READS: u32 = 64;

/// The token of the socket among what a wait finds, and that of a ring.
const SOCKET: Token = Token(0);

const BELL: Token = Token(1);

/// The most things that one wait finds: bytes, and a ring.
const FOUND: usize = 2;

/// A socket that is waited for together with a bell.
#[derive(Drop)]
pub struct PolledSocket<'a> {
    stream: &'a TcpStream,
    descriptor: RawFd,
    poll: Poll,
    found: Events,
    most_ms: u64,
}

impl<'a> PolledSocket<'a> {
    pub fn new<R: Net>(
        rt: &R,
        alloc: Global,
        stream: &'a TcpStream,
    ) -> io::Result<PolledSocket<'a>> {
        let descriptor = stream.as_raw_fd();
        let poll = Poll::new(rt)?;
        poll.registry()
            .register(&mut SourceFd(&descriptor), SOCKET, Interest::READABLE)?;
        Ok(PolledSocket {
            stream,
            descriptor,
            poll,
            found: Events::with_capacity(alloc, FOUND)?,
            most_ms: 0,
        })
    }

    /// Makes a waker, by which another thread ends a wait of this socket.
    pub fn waker(&self) -> io::Result<Waker> {
        Waker::new(self.poll.registry(), BELL)
    }

    /// Waits for a ring, at most for this time. What comes meanwhile doesn't end the wait, and is found by the next
    /// read.
    pub fn await_ring(&mut self, most_ms: u64) -> io::Result<()> {
        let registry = self.poll.registry();
        registry.deregister(&mut SourceFd(&self.descriptor))?;
        let most = Duration::from_millis(self.most_ms.min(most_ms));
        let waited = self.poll.poll(&mut self.found, Some(most));
        let registry = self.poll.registry();
        registry.register(&mut SourceFd(&self.descriptor), SOCKET, Interest::READABLE)?;
        waited
    }

    /// Waits until bytes come, or the end, and returns whether they did in time. The socket is noted anew, so that what
    /// came before the wait is found too.
    fn wait_readable(&mut self) -> io::Result<bool> {
        let registry = self.poll.registry();
        registry.reregister(&mut SourceFd(&self.descriptor), SOCKET, Interest::READABLE)?;
        let most = Duration::from_millis(self.most_ms);
        self.poll.poll(&mut self.found, Some(most))?;
        Ok(self.found.iter().any(|event| event.token() == SOCKET))
    }
}

impl<'a> Read for PolledSocket<'a> {
    fn read(&mut self, buf: &mut [u8]) -> io::Result<usize> {
        if !self.wait_readable()? {
            return Err(io::Error::from(ErrorKind::WouldBlock));
        }
        let mut stream = self.stream;
        stream.read(buf)
    }
}

impl<'a> TimedRead for PolledSocket<'a> {
    ghost use Rattle.std.specs.Prelude.{◌≡◌};

    ghost may_wait = { λ s ms. s.most_ms ≡ ms };

    fn set_timeout(&mut self, most_ms: u64) {
        self.most_ms = most_ms;
    }
}

/// Returns the number of the source address, by which a peer is known; 0 if it isn't an IPv4 address.
pub fn peer_of(address: SocketAddr) -> u32 {
    match address {
        SocketAddr::V4(v4) => v4.ip().to_bits(),
        SocketAddr::V6(_) => 0,
    }
}

/// Sets a socket to send without delay, and bounds its waits.
pub fn prepare(stream: &TcpStream) -> io::Result<()> {
    stream.set_nodelay(true)?;
    stream.set_read_timeout(Some(Duration::from_millis(READ_WAIT_MS)))?;
    stream.set_write_timeout(Some(Duration::from_millis(WRITE_WAIT_MS)))
}

/// Bounds the wait of an accept. The option belongs to the socket, whichever handle sets it.
pub fn bound_accepts(listener: &TcpListener) -> io::Result<()> {
    let handle = TcpStream::from(OwnedFd::from(listener.try_clone()?));
    handle.set_read_timeout(Some(Duration::from_millis(ACCEPT_WAIT_MS)))
}

/// Reads once, and returns whether the peer may send more: it doesn't once it has closed, or a read fails.
fn drain_once(stream: &TcpStream, buffer: &mut [u8]) -> bool {
    let mut reader = stream;
    match reader.read(buffer) {
        Ok(count) => count > 0,
        Err(error) => matches!(error.kind(), ErrorKind::WouldBlock | ErrorKind::TimedOut),
    }
}

/// Tells the peer that no more comes, and reads for a while what it still sends. A socket that is closed over unread
/// bytes is reset, and the peer may then lose the last bytes that were sent to it.
pub fn linger_close<W: Watch>(stream: &TcpStream, watch: &W) {
    if stream.shutdown(Shutdown::Write).is_err() {
        return;
    }
    let mut buffer = [0u8; 1024];
    let start_ms = watch.now_ms();
    for _read in 0..LINGER_READS {
        if !drain_once(stream, &mut buffer)
            || watch.now_ms().saturating_sub(start_ms) >= LINGER_MS
        {
            return;
        }
    }
}
