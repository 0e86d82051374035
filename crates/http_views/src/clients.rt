//! A few connections, served by one thread.
ghost use Rattle.std.specs.Prelude.{IfOk};
ghost use Rattle.http_views.specs.Turns.{Leads};

use crate::turn::{Turn, take_turn};
use http_server::{Config, Connection, Service};
use http1::Limits;
use mio::unix::SourceFd;
use mio::{Events, Interest, Poll, Token};
use server_rules::who_goes;
use std::alloc::{AllocError, Global};
use std::hash::RandomState;
use std::io;
use std::io::ErrorKind;
use std::net::{Net, TcpListener, TcpStream};
use std::os::fd::AsRawFd;
use std::sync::Wait;
use std::time::Duration;

/// The most connections that are open at once.
pub const AT_ONCE: usize = 8;

/// The time after which a connection ends if no byte of an answer goes out, in milliseconds.
pub const IDLE_MS: u64 = 10_000;

/// The time between two checks whether the run is over, in milliseconds.
const WATCH_MS: u64 = 100;

/// Heads are short, no request has a body, and one answer at a time is pending.
const CONFIG: Config = Config {
    limits: Limits {
        max_head_len: 8192,
        max_extensions_len: 64,
        max_trailers_len: 64,
    },
    max_body_len: 0,
    max_pending: 0,
    read_size: 2048,
};

/// What the thread knows about its run.
pub trait Watch {
    ghost use Rattle.std.specs.Prelude.{◌≡◌, true, ⊤};

    /// The run may be over.
    ghost may_end: { Self → Type 0 } = { λ _. ⊤ };

    /// Returns milliseconds since some moment.
    fn now_ms(&self) -> u64;

    /// Tests whether no more should be served.
    fn is_over(&self) -> bool
        ensures { result ≡ true → may_end self.now };
}

#[derive(Drop)]
struct Client {
    stream: TcpStream,
    connection: Connection,
    /// When bytes of an answer last went out, or else when the connection came.
    served_ms: u64,
}

impl Client {
    fn take_turn<S: Service>(&mut self, service: &mut S, now_ms: u64) -> Turn
        ensures { Leads S.answers service.old service.new }
    {
        let stream = &self.stream;
        let mut reader = stream;
        let mut writer = stream;
        let turn = take_turn(&mut self.connection, service, &mut reader, &mut writer);
        if turn == Turn::Wrote {
            self.served_ms = now_ms;
        }
        if turn != Turn::Over && now_ms.saturating_sub(self.served_ms) >= IDLE_MS {
            return Turn::Over;
        }
        turn
    }
}

/// A client that came while all slots were taken.
#[derive(Drop)]
struct Newcomer {
    stream: TcpStream,
    came_ms: u64,
}

/// The connections that are open, each in a slot, and one that waits for a slot.
#[derive(Drop)]
struct Clients {
    alloc: Global,
    keys: RandomState,
    poll: Poll,
    found: Events,
    slots: Vec<Option<Client>>,
    newcomer: Option<Newcomer>,
}

fn empty_slots(alloc: Global) -> Result<Vec<Option<Client>>, AllocError> {
    let mut slots = Vec::with_capacity(alloc, AT_ONCE)?;
    for _slot in 0..AT_ONCE {
        slots.push(None)?;
    }
    Ok(slots)
}

impl Clients {
    fn new<R: Net>(
        rt: &R,
        alloc: Global,
        keys: RandomState,
        listener: &TcpListener,
    ) -> io::Result<Clients> {
        let poll = Poll::new(rt)?;
        listener.set_nonblocking(true)?;
        let descriptor = listener.as_raw_fd();
        poll.registry().register(
            &mut SourceFd(&descriptor),
            Token(AT_ONCE),
            Interest::READABLE,
        )?;
        Ok(Clients {
            alloc,
            keys,
            poll,
            found: Events::with_capacity(alloc, AT_ONCE)?,
            slots: empty_slots(alloc)?,
            newcomer: None,
        })
    }

    /// Gives the slot to a connection, in place of the one that has it.
    fn place(&mut self, at: usize, stream: TcpStream, now_ms: u64) -> io::Result<()> {
        stream.set_nonblocking(true)?;
        stream.set_nodelay(true)?;
        let descriptor = stream.as_raw_fd();
        self.poll.registry().register(
            &mut SourceFd(&descriptor),
            Token(at),
            Interest::READABLE | Interest::WRITABLE,
        )?;
        if let Some(slot) = self.slots.get_mut(at) {
            *slot = Some(Client {
                stream,
                connection: Connection::new(self.alloc, self.keys, CONFIG),
                served_ms: now_ms,
            });
        }
        Ok(())
    }

    /// Returns the slot for a connection that came at that moment: a free one, or else that of the client who has been
    /// idle longest, once either has waited for a second.
    fn slot_for(&self, came_ms: u64, now_ms: u64) -> Option<usize> {
        if let Some(at) = self.slots.iter().position(|slot| slot.is_none()) {
            return Some(at);
        }
        let mut since_ms = [now_ms; AT_ONCE];
        for (since, slot) in since_ms.iter_mut().zip(self.slots.iter()) {
            if let Some(client) = slot {
                *since = client.served_ms;
            }
        }
        who_goes(&since_ms, came_ms, now_ms)
    }

    /// Accepts a connection that waits, if there is one.
    fn meet(&mut self, listener: &TcpListener, now_ms: u64) {
        if self.newcomer.is_none() {
            if let Ok((stream, _address)) = listener.accept() {
                self.newcomer = Some(Newcomer {
                    stream,
                    came_ms: now_ms,
                });
            }
        }
    }

    /// Accepts one connection, if one waits, and a slot is free or becomes free for it. Returns whether it did.
    fn accept(&mut self, listener: &TcpListener, now_ms: u64) -> bool {
        self.meet(listener, now_ms);
        let Some(newcomer) = self.newcomer.take() else {
            return false;
        };
        match self.slot_for(newcomer.came_ms, now_ms) {
            Some(at) => self.place(at, newcomer.stream, now_ms).is_ok(),
            None => {
                self.newcomer = Some(newcomer);
                false
            }
        }
    }

    /// Takes a turn of each connection. Returns whether one moved.
    fn serve<S: Service>(&mut self, service: &mut S, now_ms: u64) -> bool
        ensures { Leads S.answers service.old service.new }
    {
        let mut has_moved = false;
        for slot in self.slots.iter_mut() {
            if let Some(client) = slot {
                match client.take_turn(service, now_ms) {
                    Turn::Wrote | Turn::Read => has_moved = true,
                    Turn::Quiet => {}
                    Turn::Over => *slot = None,
                }
            }
        }
        has_moved
    }

    /// Waits until a connection can move. A signal ends the wait early.
    fn wait(&mut self, has_moved: bool) -> io::Result<()> {
        let most = if has_moved { 0 } else { WATCH_MS };
        let waited = self
            .poll
            .poll(&mut self.found, Some(Duration::from_millis(most)));
        match waited {
            Err(error) if error.kind() != ErrorKind::Interrupted => Err(error),
            _ => Ok(()),
        }
    }
}

/// Serves connections from one service until the run is over. A connection that fails ends only itself; the error is
/// one of the listener, or of the wait for all connections.
pub fn serve_views<R: Net<Listener = TcpListener, Stream = TcpStream> + Wait, S: Service, W: Watch>(
    rt: &R,
    alloc: Global,
    keys: RandomState,
    listener: &TcpListener,
    service: &mut S,
    watch: &W,
) -> io::Result<()>
    ensures over { IfOk result (λ _. W.may_end watch.now) }
    ensures calls { Leads S.answers service.old service.new }
{
    let mut clients = Clients::new(rt, alloc, keys, listener)?;
    for _ in rt.forever() {
        if watch.is_over() {
            return Ok(());
        }
        let now_ms = watch.now_ms();
        let has_come = clients.accept(listener, now_ms);
        let has_moved = clients.serve(service, now_ms);
        clients.wait(has_come || has_moved)?;
    }
    unreachable!()
}
