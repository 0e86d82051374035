//! The thread of one connection.
use crate::notes::Notes;
use crate::observed_store::ObservedStore;
use crate::overheard::{TappedReader, TappedWriter};
use crate::reading::Reading;
use crate::sent::SentRequests;
use end_reasons::Reason;
use engine_core::Store;
use history_seats::Brands;
use seated_store::Seated;
use server_base::{Context, Standing};
use server_log::{EndFacts, LogLine, PeerTimers};
use server_rules::{ConnectionNotes, ReadPause};
use server_talk::{ConnectionEnd, Ended, PolledSocket, Watch, connection, linger_close, prepare};
use shared_pce::Seat;
use std::io;
use std::net::{Net, TcpListener, TcpStream};
use std::sync::Wait;
use std::time::Clock;

/// The timers of a peer whose Open hasn't come yet.
const NO_TIMERS: PeerTimers = PeerTimers {
    keepalive: 0,
    dead: 0,
};

/// How a connection was left: how it ended, whether its session is up, and why it ended.
#[derive(Clone, Copy)]
struct Left {
    ended: Ended,
    standing: Standing,
    reason: Reason,
}

/// Returns why the connection of this slot ended, given the number by which its session was refused, if it was.
fn reason_of<R: Wait + Clock, B: Brands>(
    context: &Context<'_, R, B>,
    slot: usize,
    departure: ConnectionEnd,
    refused: Option<u8>,
) -> Reason {
    let end = EndFacts {
        ended: departure.ended,
        session: departure.reason,
        refused,
        gives_place: context.wakers.is_ended(context.rt, slot),
        run_ends: context.run.is_closing(),
    };
    end.reason()
}

/// Makes the notes of a connection whose Open hasn't come yet.
fn new_notes<'a, 'c, 't, R: Wait + Clock, B: Brands>(
    context: &'a Context<'c, R, B>,
    slot: usize,
    peer: u32,
    trials: &'t mut ReadPause,
    reading: &'t Reading,
) -> Notes<'a, 'c, 't, R, B> {
    Notes {
        context,
        slot,
        peer,
        timers: NO_TIMERS,
        session: ConnectionNotes::new(),
        standing: Standing::new(),
        trials,
        reading,
        sent: SentRequests::new(context.alloc),
        front: context.shared.front(context.rt),
    }
}

/// Serves the peer from this seat until the end of its connection.
fn receive<R: Wait + Clock, B: Brands>(
    context: &Context<'_, R, B>,
    socket: PolledSocket<'_>,
    stream: &TcpStream,
    peer: u32,
    slot: usize,
    seat: &mut Seat<B>,
    trials: &mut ReadPause,
) -> Left {
    let moments = context.moments_at(slot);
    let reading = Reading::new(moments.now_ms());
    let mut heard = TappedReader::new(
        context.rt,
        context.counters,
        socket,
        context.wakers,
        slot,
        &moments,
        &reading,
    );
    let mut said = TappedWriter::new(context.rt, context.counters, stream);
    let mut store = ObservedStore {
        notes: new_notes(context, slot, peer, trials, &reading),
        store: Seated::new(context.rt, context.alloc, context.shared, seat),
    };
    let departure = connection(
        context.rt,
        context.alloc,
        peer,
        &mut heard,
        &mut said,
        &moments,
        &mut store,
    );
    store.forget();
    Left {
        ended: departure.ended,
        standing: store.notes.standing,
        reason: reason_of(context, slot, departure, store.notes.session.refused()),
    }
}

/// Makes the prepared socket, whose waits others may end.
fn connected<'a, R: Wait + Clock + Net<Listener = TcpListener, Stream = TcpStream>, B: Brands>(
    context: &Context<'_, R, B>,
    stream: &'a TcpStream,
    slot: usize,
) -> io::Result<PolledSocket<'a>> {
    prepare(stream)?;
    let socket = PolledSocket::new(context.rt, context.alloc, stream)?;
    context.wakers.set(context.rt, slot, socket.waker()?);
    Ok(socket)
}

/// Lets a connection wait for its peer to close, so that the end of the session reaches it, and returns whether it may.
fn try_linger<R: Wait + Clock, B: Brands>(
    context: &Context<'_, R, B>,
    ended: Ended,
    slot: usize,
) -> bool {
    ended == Ended::SessionEnded
        && (context.run.is_closing() || context.wakers.try_linger(context.rt, slot))
}

/// Notes that a connection is closed without being served.
fn release<R: Wait + Clock, B: Brands>(
    context: &Context<'_, R, B>,
    peer: u32,
    slot: usize,
) -> Reason {
    context.note_end(peer, slot, Reason::Unheard);
    Reason::Unheard
}

/// Serves a peer through its prepared socket, notes when the peer is to be forgotten, and ends the connection. Returns
/// why the connection ended. If there is no memory to note its end, nothing is sent to the peer.
fn serve<R: Wait + Clock, B: Brands>(
    context: &Context<'_, R, B>,
    socket: PolledSocket<'_>,
    stream: &TcpStream,
    peer: u32,
    slot: usize,
    seat: &mut Seat<B>,
    trials: &mut ReadPause,
) -> Reason {
    if context.peers.connected(context.rt, peer).is_err() {
        context.run.note_short_memory(context.rt);
        return release(context, peer, slot);
    }
    let left = receive(context, socket, stream, peer, slot, seat, trials);
    context.peers.ended(context.rt, peer, left.standing);
    context.note_end(peer, slot, left.reason);
    if try_linger(context, left.ended, slot) {
        linger_close(stream, &context.moments());
    }
    left.reason
}

/// Serves a peer. If its socket can't be prepared, or there is no memory for what is noted about it, nothing is sent to
/// it.
fn host<R: Wait + Clock + Net<Listener = TcpListener, Stream = TcpStream>, B: Brands>(
    context: &Context<'_, R, B>,
    stream: &TcpStream,
    peer: u32,
    slot: usize,
    seat: &mut Seat<B>,
) -> Reason {
    let Ok(socket) = connected(context, stream, slot) else {
        return release(context, peer, slot);
    };
    let Ok(mut trials) = ReadPause::new(context.alloc) else {
        context.run.note_short_memory(context.rt);
        drop(socket);
        return release(context, peer, slot);
    };
    serve(context, socket, stream, peer, slot, seat, &mut trials)
}

/// Runs the thread of one connection, for which the seat of a slot is promised. Frees its place and its seat when
/// nothing else is left to do.
pub(crate) fn attend<R: Wait + Clock + Net<Listener = TcpListener, Stream = TcpStream>, B: Brands>(
    context: &Context<'_, R, B>,
    stream: TcpStream,
    peer: u32,
    slot: usize,
) {
    let Some(mut seat) = context.pool.take(context.rt, slot) else {
        return;
    };
    let reason = host(context, &stream, peer, slot, &mut seat);
    drop(stream);
    context.say(LogLine::Ended { peer, reason });
    context.shared.fold(context.rt, &mut seat);
    context.wakers.leave(context.rt, slot);
    context.pool.put(context.rt, slot, seat);
}
