//! Each client that connects is served in a thread of its own.
ghost use Rattle.std.specs.Prelude.{IfNone};

use crate::places::{AT_ONCE, Place, Stopwatch, free_place, free_places, make_room};
use crate::reader::ControlReader;
use crate::waits::is_quiet;
use crate::writer::ControlWriter;
use std::io::{Read, Write};
use std::os::fd::OwnedFd;
use std::os::unix::net::{UnixListener, UnixStream};
use std::sync::Wait;
use std::thread::{Scope, Threads};
use std::time::{Clock, Duration};
use std::{io, thread};

/// The longest wait of a read or a write of a connection, in milliseconds. After it, an operator's reader gives
/// `WouldBlock`.
const WAIT_MS: u64 = 250;

/// The longest wait of an accept, and the pause after a failed one, in milliseconds.
const ACCEPT_WAIT_MS: u64 = 100;

/// The time between two checks for a free place, in milliseconds.
const ROOM_WAIT_MS: u64 = 10;

/// What a connection knows about its run.
pub trait Watch {
    ghost use Rattle.std.specs.Prelude.{◌≡◌, true, ⊤};

    /// The run may be asked to end.
    ghost may_close: { Self → Type 0 } = { λ _. ⊤ };

    /// Tests whether the run should end.
    fn is_closing(&self) -> bool
        ensures { result ≡ true → may_close self.now };
}

/// Answers the lines of a connection.
pub trait Operator {
    /// Serves one connection, up to its end. A read that has waited for a while gives `WouldBlock`.
    fn operate<I: Read, O: Write>(&self, reader: &mut I, writer: &mut O);
}

/// Bounds the wait of an accept. The option belongs to the socket, whichever handle sets it.
fn bound_accepts(listener: &UnixListener) -> io::Result<()> {
    let handle = UnixStream::from(OwnedFd::from(listener.try_clone()?));
    handle.set_read_timeout(Some(Duration::from_millis(ACCEPT_WAIT_MS)))
}

/// Bounds the waits of a connection.
fn bound_waits(stream: &UnixStream) -> io::Result<()> {
    stream.set_read_timeout(Some(Duration::from_millis(WAIT_MS)))?;
    stream.set_write_timeout(Some(Duration::from_millis(WAIT_MS)))
}

/// Serves one connection.
fn attend<R: Clock, P: Operator, W: Watch>(
    stream: &UnixStream,
    place: &Place,
    clock: &Stopwatch<'_, R>,
    watch: &W,
    operator: &P,
) {
    if bound_waits(stream).is_err() {
        return;
    }
    let mut reader = ControlReader {
        stream,
        place,
        clock,
    };
    let mut writer = ControlWriter {
        stream,
        place,
        clock,
        watch,
    };
    operator.operate(&mut reader, &mut writer);
}

/// Runs the thread of one connection.
fn attend_one<R: Clock, P: Operator, W: Watch>(
    stream: UnixStream,
    place: &Place,
    clock: &Stopwatch<'_, R>,
    watch: &W,
    operator: &P,
) {
    attend(&stream, place, clock, watch, operator);
    drop(stream);
    place.leave();
}

/// Waits for a place, while the operator who has been idle longest makes room. `None`: the run should end.
fn await_place<'a, R: Wait + Clock, W: Watch>(
    rt: &R,
    places: &'a [Place; AT_ONCE],
    clock: &Stopwatch<'_, R>,
    watch: &W,
) -> Option<&'a Place>
    ensures { IfNone result (W.may_close watch.now) }
{
    let came_ms = clock.now_ms();
    for _ in rt.forever() {
        if watch.is_closing() {
            return None;
        }
        if let Some(place) = free_place(places) {
            return Some(place);
        }
        make_room(places, came_ms, clock.now_ms());
        thread::sleep(rt, Duration::from_millis(ROOM_WAIT_MS));
    }
    unreachable!()
}

/// Serves the clients that connect, each in a thread of the scope, until the run should end.
fn accept_until_closing<
    's,
    E: 's,
    R: Wait + Threads + Clock + Sync,
    P: Operator + Sync,
    W: Watch + Sync,
>(
    scope: &Scope<'s, E>,
    listener: &UnixListener,
    rt: &R,
    places: &'s [Place; AT_ONCE],
    clock: &'s Stopwatch<'s, R>,
    watch: &'s W,
    operator: &'s P,
)
    ensures { W.may_close watch.now }
{
    for _ in rt.forever() {
        if watch.is_closing() {
            return;
        }
        match listener.accept() {
            Ok((stream, _)) => {
                let Some(place) = await_place(rt, places, clock, watch) else {
                    return;
                };
                place.take(clock.now_ms());
                if scope
                    .spawn(move || attend_one(stream, place, clock, watch, operator))
                    .is_err()
                {
                    place.leave();
                }
            }
            Err(error) if is_quiet(error.kind()) => {}
            Err(_) => thread::sleep(rt, Duration::from_millis(ACCEPT_WAIT_MS)),
        }
    }
}

/// Serves the clients that connect until the run should end, and waits for the ends of all connections. Four are served
/// at once; for a fifth, the one that has been idle longest ends. A connection whose thread can't be started ends at
/// once. The only fault is a listener whose waits can't be bounded: then nobody was served.
pub fn listen_on<R: Wait + Threads + Clock + Sync, P: Operator + Sync, W: Watch + Sync>(
    rt: &R,
    listener: &UnixListener,
    watch: &W,
    operator: &P,
) -> io::Result<()> {
    bound_accepts(listener)?;
    let all = free_places();
    let places = &all;
    let stopwatch = Stopwatch::new(rt);
    let clock = &stopwatch;
    thread::scope(thread::scope_env(), rt, |scope| {
        accept_until_closing(scope, listener, rt, places, clock, watch, operator)
    });
    Ok(())
}
