//! The acceptor. Each client that comes gets a thread, a seat and a connection, unless it has gone again before.
ghost use Rattle.std.specs.Prelude.{◌≡◌};
ghost use Rattle.server_rules.specs.Ranges.{one_fewer};

use crate::connection::attend;
use end_reasons::Reason;
use history_seats::Brands;
use server_base::Context;
use server_counts::Counted;
use server_log::LogLine;
use server_rules::{FailedAccept, Sessions, failed_accept};
use server_signals::RunFault;
use server_talk::peer_of;
use std::io::ErrorKind;
use std::net::{Net, SocketAddr, TcpListener, TcpStream};
use std::sync::Wait;
use std::thread::Threads;
use std::time::{Clock, Duration};
use std::{io, thread};

/// The pause of the acceptor after an accept that failed because descriptors, memory or the network were short, in
/// milliseconds.
const FAILURE_PAUSE_MS: u64 = 50;

/// How long the acceptor waits for the seat of a connection that ends, in milliseconds.
const SEAT_WAIT_MS: u64 = 1000;

/// What an accept gave.
enum Knock {
    Came(TcpStream, SocketAddr),
    Failed(FailedAccept),
}

/// Returns how many connections are still to be accepted after one came.
fn one_fewer(left: Sessions) -> Sessions
    ensures { result ≡ one_fewer left }
{
    match left {
        Sessions::Count(left) => Sessions::Count(left.saturating_sub(1)),
        Sessions::Endless => Sessions::Endless,
    }
}

fn listen(listener: &TcpListener) -> Knock {
    match listener.accept() {
        Ok((stream, address)) => Knock::Came(stream, address),
        Err(error) => Knock::Failed(failed_accept(error.kind(), error.raw_os_error())),
    }
}

/// Returns the slot of the seat of a new connection of the address, if it may have a place.
fn slot_for<R: Wait + Clock, B: Brands>(
    context: &Context<'_, R, B>,
    address: u32,
) -> Option<usize> {
    if !context.wakers.admit(context.rt, address) {
        return None;
    }
    let most = Duration::from_millis(SEAT_WAIT_MS);
    let slot = context.pool.promise(context.rt, context.seats, most)?;
    if !context.wakers.enter(context.rt, slot, address) {
        context.pool.release(context.rt, slot);
        return None;
    }
    Some(slot)
}

/// Logs that a connection of the peer ended for which no thread was started.
fn note_ended<R: Wait + Clock, B: Brands>(context: &Context<'_, R, B>, peer: u32, reason: Reason) {
    context.note_end(peer, usize::MAX, reason);
    context.say(LogLine::Ended { peer, reason });
}

/// Says whether and how the connection has ended, given a look at what the peer has sent: the peer has closed it, or it
/// is broken.
fn end_by(peeked: io::Result<usize>) -> Option<Reason> {
    match peeked {
        Ok(0) => Some(Reason::PeerClosed),
        Ok(_) => None,
        Err(error) => match error.kind() {
            ErrorKind::WouldBlock | ErrorKind::Interrupted => None,
            _ => Some(Reason::ReadFault),
        },
    }
}

/// Returns why the connection has ended, if its peer has gone already. Makes a few system calls, and doesn't wait.
fn ended_already(stream: &TcpStream) -> io::Result<Option<Reason>> {
    stream.set_nonblocking(true)?;
    let peeked = stream.peek(&mut [0u8; 1]);
    stream.set_nonblocking(false)?;
    Ok(end_by(peeked))
}

/// Returns the slot for a connection of a peer that came, and counts it among those to be accepted. Returns `None` if
/// the peer isn't known, has gone already, or may have no place.
fn slot_of_comer<R: Wait + Clock, B: Brands>(
    context: &Context<'_, R, B>,
    stream: &TcpStream,
    peer: u32,
    left: &mut Sessions,
) -> Option<usize> {
    if !context.is_known(peer) {
        return None;
    }
    *left = one_fewer(*left);
    context.count(Counted::Accepted);
    if let Some(reason) = ended_already(stream).unwrap_or(Some(Reason::ReadFault)) {
        note_ended(context, peer, reason);
        return None;
    }
    let slot = slot_for(context, peer);
    if slot.is_none() {
        note_ended(context, peer, Reason::Unheard);
    }
    slot
}

/// Accepts connections, each in a thread of its own, until as many came as were ordered or the run should end; then
/// waits for their ends. If a thread can't be started, only that connection ends at once. A broken listener ends the
/// run; other resources that are short may come back.
pub fn accept_all<
    R: Wait + Clock + Net<Listener = TcpListener, Stream = TcpStream> + Threads + Sync,
    B: Brands + Send + Sync,
>(context: &Context<'_, R, B>, listener: &TcpListener, sessions: Sessions) {
    let rt = context.rt;
    thread::scope(thread::scope_env(), rt, |scope| {
        let mut left = sessions;
        for _ in rt.forever() {
            if left == Sessions::Count(0) || context.run.is_closing() {
                break;
            }
            match listen(listener) {
                Knock::Came(stream, address) => {
                    let peer = peer_of(address);
                    let Some(slot) = slot_of_comer(context, &stream, peer, &mut left) else {
                        drop(stream);
                        continue;
                    };
                    if scope
                        .spawn(move || attend(context, stream, peer, slot))
                        .is_err()
                    {
                        note_ended(context, peer, Reason::Unheard);
                        context.wakers.leave(rt, slot);
                        context.pool.release(rt, slot);
                    }
                }
                Knock::Failed(FailedAccept::Nobody) => {}
                Knock::Failed(FailedAccept::Wait) => {
                    context.say(LogLine::AcceptFailed);
                    thread::sleep(rt, Duration::from_millis(FAILURE_PAUSE_MS));
                }
                Knock::Failed(FailedAccept::Broken) => context.cut(RunFault::Device),
            }
        }
    });
}
