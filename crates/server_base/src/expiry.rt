//! When peers are forgotten: what happens to them is noted here, and what is due for them is submitted.
ghost use Rattle.std.specs.Prelude.{◌≡◌, List, Some, IfSome, IsTrue};
ghost use Rattle.server_rules.specs.Peers.{Adds, needs_no_room};
ghost use Rattle.database_looks.specs.Steps.{kind_of};
ghost use Rattle.engine_core.specs.declared.store.Call.{Call};
ghost use Rattle.server_base.specs.Counting.{step_counted};
ghost use Rattle.server_base.specs.Expiries.{event_of, happened, happening_of, settled_of, NotesHappened, NotesOwed, NotesGone, NotesEnd, Stands};

use crate::counting::count_step;
use crate::holders::{Holders, HoldersLook};
use crate::seat_pool::SeatPool;
use crate::standing::Standing;
use engine_core::{Call, Reply};
use history_seats::Brands;
use pce_seen::EventKind;
use server_counts::Counters;
use server_rules::{Due, Expiry, Happening, Owing};
use server_talk::Watch;
use shared_pce::{Event, Fault, SPARE_AT, Seat, Shared};
use std::alloc::{AllocError, Global};
use std::sync::{Mutex, Wait};

/// The result of submitting what was due.
#[derive(Clone, Copy, PartialEq, Eq, Debug)]
pub enum Settled {
    /// Nothing was due.
    Nothing,
    /// An owed Down of the peer was submitted.
    WentDown(u32),
    /// The peer was forgotten.
    Forgotten(u32),
    /// The peer couldn't be forgotten, with the number of the refusal: a session of it is up again, or it isn't known.
    Kept(u32, u8),
}

/// What happened to the peers of a run.
#[derive(Drop)]
pub struct Peers {
    expiry: Mutex<Expiry>,
}

impl Peers {
    pub fn new(alloc: Global) -> Peers {
        Peers {
            expiry: Mutex::new(Expiry::new(alloc)),
        }
    }

    /// Notes that a connection of the peer was accepted. From then on its end takes no memory.
    pub fn connected<R: Wait>(&self, rt: &R, peer: u32) -> Result<(), AllocError> {
        self.expiry.lock(rt).connected(peer)
    }

    /// Notes what a session's call says happened to its peer, by this moment. Each call is noted as soon as it is made,
    /// so a session that comes up is noted before its Down is submitted.
    pub fn note_call<R: Wait>(&self, rt: &R, call: &Call, now_ms: u64) {
        if let Some(happened) = happened(call, now_ms) {
            note_happened(&mut self.expiry.lock(rt), happened);
        }
    }

    /// Notes that a connection of the peer ended, whose session is up or not.
    pub fn ended<R: Wait>(&self, rt: &R, peer: u32, standing: Standing) {
        note_end(&mut self.expiry.lock(rt), peer, standing);
    }

    /// Tests whether a peer's Down couldn't be submitted yet.
    pub fn owes_a_down<R: Wait>(&self, rt: &R) -> bool {
        self.expiry.lock(rt).owes_a_down()
    }

    /// Submits what is due for a peer, if anything is and peers are kept for this time, and returns the result.
    /// Meanwhile nothing else is noted. A session that comes up is noted before its Down is submitted, so no peer is
    /// forgotten because of a Down that is older than its last, and the state keeps a peer that is up. After a fault it
    /// stays due, and what is due for another peer comes first next time.
    pub fn settle<R: Wait, W: Watch, B: Brands>(
        &self,
        rt: &R,
        watch: &W,
        shared: &Shared<B>,
        seat: &mut Seat<B>,
        counters: &Mutex<Counters>,
        keep_ms: u64,
    ) -> Result<Settled, Fault> {
        let mut expiry = self.expiry.lock(rt);
        let Some(due) = expiry.due(watch.now_ms(), keep_ms) else {
            return Ok(Settled::Nothing);
        };
        let settled = submit_due(rt, watch, shared, seat, counters, &mut expiry, due);
        if settled.is_err() {
            expiry.put_off(due.peer);
        }
        settled
    }

    /// Makes room for a session of the peer that comes up, if the peer isn't known and there is no room for one more.
    /// Of the peers that are down and hold no LSP, the one that has been down longest is forgotten. Returns the result.
    /// The seat for that rests in this slot of the pool. Meanwhile nothing else is noted, as in `settle`.
    pub fn make_room<R: Wait, W: Watch, B: Brands>(
        &self,
        rt: &R,
        watch: &W,
        shared: &Shared<B>,
        pool: &SeatPool<B>,
        slot: usize,
        counters: &Mutex<Counters>,
        peer: u32,
    ) -> Result<Settled, Fault> {
        let mut expiry = self.expiry.lock(rt);
        let Some(mut seat) = pool.take(rt, slot) else {
            return Ok(Settled::Nothing);
        };
        let settled = forget_for(rt, watch, shared, &mut seat, counters, &mut expiry, peer);
        pool.put(rt, slot, seat);
        settled
    }
}

/// Sees who holds LSPs, if the peer isn't known and there is no room for one more. If memory runs out, the history is
/// rolled, and it is tried once more.
fn holders_beside<R: Wait, B: Brands>(
    rt: &R,
    shared: &Shared<B>,
    seat: &mut Seat<B>,
    peer: u32,
) -> Result<Option<Holders>, AllocError> {
    let look = HoldersLook { peer };
    let seen = shared.look_at(rt, seat, &look);
    if seen.is_err() {
        let _rolled = shared.roll_if(rt, seat, SPARE_AT)?;
        return shared.look_at(rt, seat, &look);
    }
    seen
}

/// Forgets the peer that makes room for this one, if one must.
fn forget_for<R: Wait, W: Watch, B: Brands>(
    rt: &R,
    watch: &W,
    shared: &Shared<B>,
    seat: &mut Seat<B>,
    counters: &Mutex<Counters>,
    expiry: &mut Expiry,
    peer: u32,
) -> Result<Settled, Fault> {
    let Some(holders) = holders_beside(rt, shared, seat, peer)? else {
        return Ok(Settled::Nothing);
    };
    let Some(peer) = expiry.longest_down(&holders.peers) else {
        return Ok(Settled::Nothing);
    };
    let due = Due {
        peer,
        what: Owing::Expire,
    };
    submit_due(rt, watch, shared, seat, counters, expiry, due)
}

/// Submits what is due for a peer, and returns the result.
fn submit_due<R: Wait, W: Watch, B: Brands>(
    rt: &R,
    watch: &W,
    shared: &Shared<B>,
    seat: &mut Seat<B>,
    counters: &Mutex<Counters>,
    expiry: &mut Expiry,
    due: Due,
) -> Result<Settled, Fault> {
    let reply = shared.submit(rt, seat, event_of(due))?;
    let now_ms = watch.now_ms();
    Ok(note_settled(expiry, &mut counters.lock(rt), due, &reply, now_ms))
}

/// Returns what a session's call says happened to its peer, by this moment.
fn happened(call: &Call, now_ms: u64) -> Option<(u32, Happening)>
    ensures happened { result ≡ happened call.now.event call.now.reply now_ms }
    ensures no_room { IfSome result (λ h. IsTrue (needs_no_room h.1)) }
{
    match (call.event.event(), &call.reply) {
        (Event::Up { peer, .. }, Reply::Done) => Some((*peer, Happening::Up)),
        (Event::Down { .. }, Reply::Refused(_)) => None,
        (Event::Down { peer }, _) => Some((*peer, Happening::Down(now_ms))),
        _ => None,
    }
}

/// Notes that this happened to a peer.
fn note_happened(expiry: &mut Expiry, happened: (u32, Happening))
    requires { IsTrue (needs_no_room happened.1) }
    ensures { NotesHappened (Some happened) expiry.old expiry.new }
{
    expiry.note(happened.0, happened.1);
}

/// Notes that a Down is owed if the session is still up.
fn note_owed(expiry: &mut Expiry, peer: u32, is_joined: bool)
    ensures { NotesOwed is_joined peer expiry.old expiry.new }
{
    if !is_joined {
        return;
    }
    expiry.owed(peer);
}

/// Notes that a connection of the peer ended, and that its Down is owed if its session is still up.
fn note_gone(expiry: &mut Expiry, peer: u32, is_joined: bool)
    ensures { NotesGone is_joined peer expiry.old expiry.new }
{
    note_owed(expiry, peer, is_joined);
    expiry.gone(peer);
}

/// Notes the same for a connection with this standing.
fn note_end(expiry: &mut Expiry, peer: u32, standing: Standing)
    ensures { (calls : List Call) → Stands standing calls → NotesEnd calls peer expiry.old expiry.new }
{
    note_gone(expiry, peer, standing.is_joined());
}

/// Notes and counts that what was due was submitted and got this reply, and returns what to report.
fn note_settled(
    expiry: &mut Expiry,
    counters: &mut Counters,
    due: Due,
    reply: &Reply,
    now_ms: u64,
) -> Settled
    ensures noted { Adds expiry.old expiry.new due.peer (happening_of due reply.now now_ms) }
    ensures counted { counters.new ≡ step_counted (kind_of (event_of due)) reply.now counters.old }
    ensures settled { result ≡ settled_of due reply.now }
{
    count_step(counters, kind_of_due(due), reply);
    match (due.what, reply) {
        (Owing::Down, _) => {
            expiry.submitted(due.peer, now_ms);
            Settled::WentDown(due.peer)
        }
        (Owing::Expire, Reply::Refused(why)) => {
            expiry.kept(due.peer);
            Settled::Kept(due.peer, why.number())
        }
        (Owing::Expire, _) => {
            expiry.forgotten(due.peer);
            Settled::Forgotten(due.peer)
        }
    }
}

/// Returns the kind of the event that is submitted for a peer.
fn kind_of_due(due: Due) -> EventKind
    ensures { result ≡ kind_of (event_of due) }
{
    match due.what {
        Owing::Down => EventKind::Down,
        Owing::Expire => EventKind::Expire,
    }
}

/// Returns the event that should be submitted for a peer.
fn event_of(due: Due) -> Event
    ensures { result ≡ event_of due }
{
    let peer = due.peer;
    match due.what {
        Owing::Down => Event::Down { peer },
        Owing::Expire => Event::Expire { peer },
    }
}
