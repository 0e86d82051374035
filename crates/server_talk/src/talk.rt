//! One connection: its reads, its writes and its end, over any reader, writer and store.
ghost use Rattle.std.specs.Prelude.{◌≡◌, ◌<◌, ◌≤◌, ◌⊎◌, ℕ, max, true, false, [], List, length, take, ⊤, Option, None, Some, MatchOption};
ghost use Rattle.std.specs.Io.KnownBytes.{Consumes, Appends, Keeps};
ghost use Rattle.pcep_session.specs.Timers.{is_due_at};
ghost use Rattle.pcep_session.specs.Turns.{is_closed};
ghost use Rattle.engine_core.specs.Deeds.{Deed, calls_of};
ghost use Rattle.engine_core.specs.Engine.{ending};
ghost use Rattle.engine_core.specs.Joining.{joined_after};
ghost use Rattle.server_talk.specs.Goings.{Goes};
ghost use Rattle.server_talk.specs.Heard.{IsWithin, Hears, IsDue, WaitsUntilDue, wait_until, heard_of_fault, taken_of_fault};
ghost use Rattle.server_talk.specs.Watches.{watch_of};
ghost use Rattle.server_talk.specs.Connections.{SoFar, TakesAll, GoesOut, MayEndSo, IsUnexplained, spoken, Leaves, owes_down, IsServed, IsUnserved};

use crate::traits::{TimedRead, Watch};
use engine_core::{Client, Fault, ServerStore, hang_up, serve};
use pcep_session::EndReason;
use std::alloc::Global;
use std::io::{ErrorKind, Write};
use std::sync::Wait;

/// The most bytes that a turn reads.
pub const PIECE: usize = 4096;

/// The longest wait of a session for bytes, in milliseconds, before it looks for messages to send.
const LONGEST_WAIT_MS: u64 = 10_000;

/// The time within which a peer must take a turn's bytes, in milliseconds; otherwise its connection ends.
pub const TAKEN_WITHIN_MS: u64 = 10_000;

/// How often the writes of some bytes may be interrupted, or take nothing.
pub(crate) const INTERRUPTS: usize = 1000;

/// How often submitting that a peer went down is tried.
const HANG_UPS: u32 = 4;

/// No explanation (RFC 5440 section 7.17).
const NO_EXPLANATION: u8 = 1;

/// How a connection ended. The peer is left joined only if it is `StoreFault`.
#[derive(Clone, Copy, PartialEq, Eq, Debug)]
pub enum Ended {
    /// The peer sends no more.
    PeerClosed,
    /// The session has ended: by a Close, by an error, by a timer, or because memory ran out for it.
    SessionEnded,
    /// A read failed.
    ReadFault,
    /// A write failed, or the peer didn't take all of it in time.
    WriteFault,
    /// That the peer went down could not be submitted in four tries.
    StoreFault(Fault),
}

/// How a connection ended, and why its session had ended by then.
#[derive(Clone, Copy, PartialEq, Eq, Debug)]
pub struct ConnectionEnd {
    pub ended: Ended,
    /// Why the session itself ended, before the end of the connection ended it. `None` if it hadn't ended, or there was
    /// no memory for it.
    pub reason: Option<EndReason>,
}

/// What a turn's read gave.
#[derive(Clone, Copy)]
enum Heard {
    Bytes(usize),
    Nothing,
    Ended(Ended),
}

/// A session with its peer.
#[derive(Drop)]
struct Talk {
    peer: u32,
    client: Client,
    /// When it was served last, in milliseconds.
    served_ms: u64,
}

/// Serves one peer until its end. Every call that the store gets is one that the engine's table names for this peer and
/// the bytes that the reader gave, or the Down at its end. At the end the store's list has only that Down, or nothing
/// if the peer wasn't joined. The store is shown the peer's Open and each message that the session delivers. All that
/// the session sends goes to the writer. If there is no memory for a session, nothing is done, and the result is
/// `SessionEnded`.
pub fn connection<R: Wait, I: TimedRead, O: Write, W: Watch, D: ServerStore>(
    rt: &R,
    alloc: Global,
    peer: u32,
    reader: &mut I,
    writer: &mut O,
    watch: &W,
    store: &mut D,
) -> ConnectionEnd
    ensures down { (deeds : List Deed) × Goes D.Store store.old deeds store.new × (joined_after false (calls_of deeds) ≡ owes_down result.ended) }
    ensures is_served { IsUnserved result store.old store.new reader.old reader.new writer.old writer.new
        ⊎ IsServed D.Store (watch_of W.Watch watch.now) peer store.old (I.remaining reader.old) (O.contents writer.old) result store.new (I.remaining reader.new) (O.contents writer.new) }
{
    let served_ms = watch.now_ms();
    let Ok(client) = Client::new(alloc, served_ms) else {
        return ConnectionEnd {
            ended: Ended::SessionEnded,
            reason: None,
        };
    };
    let mut talk = Talk {
        peer,
        client,
        served_ms,
    };
    let ended = talk_on(rt, &mut talk, reader, writer, watch, store);
    let reason = talk.client.session.end_reason();
    match leave(&mut talk, store) {
        Ok(()) => ConnectionEnd { ended, reason },
        Err(fault) => ConnectionEnd {
            ended: Ended::StoreFault(fault),
            reason,
        },
    }
}

/// Makes room after a fault, so that the next call finds some: a full history is rolled, unless another thread has
/// rolled it. If it isn't full, memory ran out; the store is asked anyway, since it may know who can make room.
pub(crate) fn make_room<D: ServerStore>(store: &mut D)
    ensures { (start : D) (deeds : List Deed) → Goes D.Store start deeds store.old → Goes D.Store start deeds store.new }
{
    let _rolled = store.roll_if_full();
}

/// Hangs up, and again after a fault. The list of the store then has only the calls of that.
fn leave<D: ServerStore>(talk: &mut Talk, store: &mut D) -> Result<(), Fault>
    ensures { (start : D) (deeds : List Deed) → Goes D.Store start deeds store.old
        → Leaves result D.Store talk.old.peer talk.old.client.joined start deeds store.new }
{
    let mut last = Fault::OutOfMemory;
    for _try in 0..HANG_UPS {
        store.forget();
        match hang_up(&mut talk.client, talk.peer, store) {
            Ok(()) => return Ok(()),
            Err(fault) => {
                make_room(store);
                last = fault;
            }
        }
    }
    Err(last)
}

fn talk_on<R: Wait, I: TimedRead, O: Write, W: Watch, D: ServerStore>(
    rt: &R,
    talk: &mut Talk,
    reader: &mut I,
    writer: &mut O,
    watch: &W,
    store: &mut D,
) -> Ended
    ensures silent { talk.new.client.session.output ≡ [] }
    ensures peer { talk.new.peer ≡ talk.old.peer }
    ensures ended { (start : D) (unread blank : Option (List ℕ))
        → SoFar D.Store (watch_of W.Watch watch.now) talk.old.peer start unread blank None store.old (I.remaining reader.old) (O.contents writer.old) talk.old.served_ms talk.old.client
        → SoFar D.Store (watch_of W.Watch watch.now) talk.old.peer start unread blank (Some result) store.new (I.remaining reader.new) (O.contents writer.new) talk.new.served_ms talk.new.client }
{
    let mut buffer = [0u8; PIECE];
    if let Some(ended) = answer(talk, &[], writer, watch, store) {
        return ended;
    }
    for _ in rt.forever() {
        if let Some(ended) = turn(talk, &mut buffer, reader, writer, watch, store) {
            return ended;
        }
    }
    unreachable!()
}

/// Reads once, serves what came, and writes what the session has to send. Returns the end, if it has come. If nothing
/// came and nothing is due, the store's list is emptied once more, by which a seat drops its receipts of rolled steps.
fn turn<I: TimedRead, O: Write, W: Watch, D: ServerStore>(
    talk: &mut Talk,
    buffer: &mut [u8],
    reader: &mut I,
    writer: &mut O,
    watch: &W,
    store: &mut D,
) -> Option<Ended>
    requires room { 0 < length buffer.old }
    requires open { is_closed talk.old.client.session.state ≡ false }
    ensures open { result ≡ None → is_closed talk.new.client.session.state ≡ false }
    ensures silent { talk.old.client.session.output ≡ [] → talk.new.client.session.output ≡ [] }
    ensures peer { talk.new.peer ≡ talk.old.peer }
    ensures turned { (start : D) (unread blank : Option (List ℕ))
        → SoFar D.Store (watch_of W.Watch watch.now) talk.old.peer start unread blank None store.old (I.remaining reader.old) (O.contents writer.old) talk.old.served_ms talk.old.client
        → SoFar D.Store (watch_of W.Watch watch.now) talk.old.peer start unread blank result store.new (I.remaining reader.new) (O.contents writer.new) talk.new.served_ms talk.new.client }
{
    if watch.is_closing() {
        close(talk);
        return say(talk, writer, watch);
    }
    wait_for_timer(talk, reader, watch);
    let heard = hear(reader, buffer);
    match heard {
        Heard::Ended(ended) => Some(ended),
        Heard::Bytes(count) => answer(talk, &buffer[..count], writer, watch, store),
        Heard::Nothing => {
            if look_if_due(talk, watch, store) {
                return answer_due(talk, reader, writer, watch, store);
            }
            store.forget();
            None
        }
    }
}

/// Serves the session because something is due: messages wait for the peer, or a timer is due. What can be read is
/// served first, since the wait may have been interrupted: a timer acts only if nothing came.
fn answer_due<I: TimedRead, O: Write, W: Watch, D: ServerStore>(
    talk: &mut Talk,
    reader: &mut I,
    writer: &mut O,
    watch: &W,
    store: &mut D,
) -> Option<Ended>
    requires open { is_closed talk.old.client.session.state ≡ false }
    ensures open { result ≡ None → is_closed talk.new.client.session.state ≡ false }
    ensures silent { talk.old.client.session.output ≡ [] → talk.new.client.session.output ≡ [] }
    ensures peer { talk.new.peer ≡ talk.old.peer }
    ensures turned { (start : D) (unread blank : Option (List ℕ))
        → SoFar D.Store (watch_of W.Watch watch.now) talk.old.peer start unread blank None store.old (I.remaining reader.old) (O.contents writer.old) talk.old.served_ms talk.old.client
        → SoFar D.Store (watch_of W.Watch watch.now) talk.old.peer start unread blank result store.new (I.remaining reader.new) (O.contents writer.new) talk.new.served_ms talk.new.client }
{
    let mut buffer = [0u8; PIECE];
    match hear_at_once(reader, &mut buffer) {
        Heard::Ended(ended) => Some(ended),
        Heard::Bytes(count) => answer(talk, &buffer[..count], writer, watch, store),
        Heard::Nothing => answer(talk, &[], writer, watch, store),
    }
}

/// Sets the reader to wait until the session's next timer is due, and no longer.
fn wait_for_timer<I: TimedRead, W: Watch>(talk: &Talk, reader: &mut I, watch: &W)
    ensures kept { Keeps (I.remaining reader.old) (I.remaining reader.new) }
    ensures waits { WaitsUntilDue (I.may_wait reader.new) (W.may_show watch.now) talk.now.client.session }
{
    let next = talk.client.session.next_due_ms();
    let now_ms = watch.now_ms();
    reader.set_timeout(wait_until(next, now_ms));
}

/// Returns how long the session may wait for bytes, in milliseconds, if its next timer is due at a moment.
fn wait_until(next: Option<u64>, now_ms: u64) -> u64
    ensures { result ≡ wait_until next now_ms }
{
    match next {
        Some(due_ms) => due_ms.saturating_sub(now_ms).min(LONGEST_WAIT_MS),
        None => LONGEST_WAIT_MS,
    }
}

/// Tests whether a timer of the session is due (RFC 5440 section 4.2.1).
fn is_timer_due(talk: &Talk, now_ms: u64) -> bool
    ensures { result ≡ is_due_at now_ms talk.now.client.session }
{
    match talk.client.session.next_due_ms() {
        Some(due_ms) => now_ms >= due_ms,
        None => false,
    }
}

/// Looks whether the session is to be served though no bytes came: messages wait for the peer, or a timer is due.
fn look_if_due<W: Watch, D: ServerStore>(talk: &Talk, watch: &W, store: &mut D) -> bool
    ensures due { IsDue (D.queues store.new talk.now.peer) (W.may_show watch.now) talk.now.client.session result }
    ensures same { D.moves store.old [] store.new }
{
    let is_queued = store.queued(talk.peer);
    let now_ms = watch.now_ms();
    is_queued || is_timer_due(talk, now_ms)
}

/// Says what a failed read means. If nothing came in time, or the wait was interrupted, it is tried again.
fn heard_of_fault(kind: ErrorKind) -> Heard
    ensures table { result ≡ heard_of_fault kind }
    ensures within { (buffer : List ℕ) → IsWithin result buffer }
    ensures heard { (old new : Option (List ℕ)) (buffer : List ℕ) → Keeps old new → Hears result old new buffer }
{
    match kind {
        ErrorKind::WouldBlock | ErrorKind::TimedOut | ErrorKind::Interrupted => Heard::Nothing,
        _ => Heard::Ended(Ended::ReadFault),
    }
}

/// Reads once. What came is at the front of the buffer.
fn hear<I: TimedRead>(reader: &mut I, buffer: &mut [u8]) -> Heard
    requires room { 0 < length buffer.old }
    ensures within { IsWithin result buffer.new }
    ensures heard { Hears result (I.remaining reader.old) (I.remaining reader.new) buffer.new }
{
    match reader.read(buffer) {
        Ok(0) => Heard::Ended(Ended::PeerClosed),
        Ok(count) => Heard::Bytes(count),
        Err(error) => heard_of_fault(error.kind()),
    }
}

/// Reads what is there, without waiting.
fn hear_at_once<I: TimedRead>(reader: &mut I, buffer: &mut [u8]) -> Heard
    requires room { 0 < length buffer.old }
    ensures within { IsWithin result buffer.new }
    ensures heard { Hears result (I.remaining reader.old) (I.remaining reader.new) buffer.new }
{
    reader.set_timeout(0);
    hear(reader, buffer)
}

/// Returns the present moment, or, if it is later, the last one at which the session was served.
fn moment_ms<W: Watch>(talk: &Talk, watch: &W) -> u64
    ensures rises { talk.now.served_ms ≤ result }
    ensures shown { (result ≡ talk.now.served_ms) ⊎ W.may_show watch.now result }
    ensures latest { (now_ms : ℕ) × W.may_show watch.now now_ms × (result ≡ max talk.now.served_ms now_ms) }
{
    let now_ms = watch.now_ms();
    if now_ms < talk.served_ms {
        return talk.served_ms;
    }
    now_ms
}

/// Serves a piece at the present moment.
fn serve_piece<W: Watch, D: ServerStore>(talk: &mut Talk, piece: &[u8], watch: &W, store: &mut D)
    ensures peer { talk.new.peer ≡ talk.old.peer }
    ensures served { (start : D) (unread blank left read written : Option (List ℕ))
        → SoFar D.Store (watch_of W.Watch watch.now) talk.old.peer start unread blank None store.old left written talk.old.served_ms talk.old.client → Consumes left read piece.now
        → SoFar D.Store (watch_of W.Watch watch.now) talk.old.peer start unread blank None store.new read written talk.new.served_ms talk.new.client }
{
    let now_ms = moment_ms(talk, watch);
    talk.served_ms = now_ms;
    let served = serve(&mut talk.client, talk.peer, piece, now_ms, store);
    store.forget();
    if let Err(_fault) = served {
        make_room(store);
    }
}

/// Serves a piece, and writes what the session has to send in one call.
fn answer<O: Write, W: Watch, D: ServerStore>(
    talk: &mut Talk,
    piece: &[u8],
    writer: &mut O,
    watch: &W,
    store: &mut D,
) -> Option<Ended>
    ensures open { result ≡ None → is_closed talk.new.client.session.state ≡ false }
    ensures silent { talk.new.client.session.output ≡ [] }
    ensures peer { talk.new.peer ≡ talk.old.peer }
    ensures answered { (start : D) (unread blank left read : Option (List ℕ))
        → SoFar D.Store (watch_of W.Watch watch.now) talk.old.peer start unread blank None store.old left (O.contents writer.old) talk.old.served_ms talk.old.client → Consumes left read piece.now
        → SoFar D.Store (watch_of W.Watch watch.now) talk.old.peer start unread blank result store.new read (O.contents writer.new) talk.new.served_ms talk.new.client }
{
    serve_piece(talk, piece, watch, store);
    say(talk, writer, watch)
}

/// Writes what the session has to send, and returns the end, if it has come.
fn say<O: Write, W: Watch>(talk: &mut Talk, writer: &mut O, watch: &W) -> Option<Ended>
    ensures peer { talk.new.peer ≡ talk.old.peer }
    ensures moment { talk.new.served_ms ≡ talk.old.served_ms }
    ensures spoken { talk.new.client ≡ spoken talk.old.client }
    ensures out { GoesOut result (O.contents writer.old) (O.contents writer.new) talk.old.client.session.output }
    ensures ends_so { (left : Option (List ℕ)) → MayEndSo result left talk.new.client }
    ensures open { result ≡ None → is_closed talk.new.client.session.state ≡ false }
{
    let output = talk.client.session.take_output();
    if !write_in_time(writer, watch, &output) {
        return Some(Ended::WriteFault);
    }
    if talk.client.session.state().is_closed() {
        return Some(Ended::SessionEnded);
    }
    None
}

/// Returns how many bytes a failed write took: none if it was interrupted.
fn taken_of_fault(kind: ErrorKind) -> Option<usize>
    ensures table { result ≡ taken_of_fault kind }
    ensures none { MatchOption result ⊤ (λ count. count ≡ 0) }
{
    match kind {
        ErrorKind::Interrupted => Some(0),
        _ => None,
    }
}

/// Writes once, and returns how many bytes were taken: 0 if the write was interrupted, `None` if it failed.
pub(crate) fn write_once<O: Write>(writer: &mut O, bytes: &[u8]) -> Option<usize>
    ensures { MatchOption result (Keeps (O.contents writer.old) (O.contents writer.new))
        (λ count. (count ≤ length bytes.now) × Appends (O.contents writer.old) (O.contents writer.new) (take count bytes.now)) }
{
    match writer.write(bytes) {
        Ok(count) => Some(count),
        Err(error) => taken_of_fault(error.kind()),
    }
}

/// Writes bytes, in one call unless a write takes only a part of them, and returns whether the peer took all of them
/// in time. A write that waited for its time has used it up, though a part was taken meanwhile.
fn write_in_time<O: Write, W: Watch>(writer: &mut O, watch: &W, bytes: &[u8]) -> bool
    ensures { TakesAll result (O.contents writer.old) (O.contents writer.new) bytes.now }
{
    if bytes.is_empty() {
        return true;
    }
    let begun_ms = watch.now_ms();
    let mut rest = bytes;
    for _write in 0..bytes.len().saturating_add(INTERRUPTS) {
        let Some(count) = write_once(writer, rest) else {
            return false;
        };
        rest = &rest[count..];
        if rest.is_empty() {
            return true;
        }
        if watch.now_ms().saturating_sub(begun_ms) >= TAKEN_WITHIN_MS {
            return false;
        }
    }
    false
}

/// Ends the session, with a Close if there is memory for it.
fn close(talk: &mut Talk)
    ensures peer { talk.new.peer ≡ talk.old.peer }
    ensures moment { talk.new.served_ms ≡ talk.old.served_ms }
    ensures closed { (reason : Option ℕ) × IsUnexplained reason × (talk.new.client ≡ ending None reason talk.old.client) }
{
    let session = &mut talk.client.session;
    if session.end(None, Some(NO_EXPLANATION)).is_err() {
        let _ended = session.end(None, None);
    }
}
