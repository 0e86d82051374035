//! Grants, and awaited deletions, which their routers don't settle: what happens to them is noted here, and those that
//! should end are dropped.
use crate::context::Context;
use crate::grant_of::{GrantOfLook, GrantsOfPeerLook};
use crate::lsp_names::LspNames;
use crate::retries::Retries;
use crate::retrying::SeenRetries;
use crate::routers::{RoutersLook, SeenRouter, find};
use database_looks::{SeenGrant, UpkeepLook};
use engine_core::{Call, Reply};
use history_core::Brief;
use history_seats::Brands;
use indexmap::IndexMap;
use lsp_words::Plsp;
use pce_seen::{Deletion, EventKind};
use server_counts::Counted;
use server_log::LogLine;
use server_rules::{Pending, PendingDue, PendingEnd, PendingHappening, PendingTable};
use server_talk::Watch;
use shared_pce::{Event, Fault, Front, Seat};
use short_lock::acquire;
use std::alloc::{AllocError, Global};
use std::sync::atomic::{AtomicU64, Ordering};
use std::sync::{Mutex, Wait};
use std::time::Clock;

/// The most pages that are seen in one look at all paths and records: there are at most 16,384 of each, and 256 on a
/// page.
const PAGES: u32 = 65;

/// The most grants and deletions that one turn drops.
const DROPPED_AT_ONCE: usize = 256;

/// A grant or an awaited deletion as it was seen.
#[derive(Clone, Copy)]
struct Standing {
    /// Its LSP; 0 for a grant that is not bound to one.
    plsp: Plsp,
    is_covered: bool,
    /// It was made, or bound to its LSP, in the latest session of its router.
    is_fresh: bool,
}

/// What upkeep knows about grants and deletions, from all that happened to them and to their routers.
#[derive(Drop)]
pub struct Upkeep {
    table: Mutex<PendingTable>,
    /// Held by the connection's thread that drops a grant.
    ending: Mutex<()>,
    /// How many grants and deletions had been made when none stood; the greatest number while one stands.
    idle_at: AtomicU64,
    retries: Retries,
    /// The names with which routers reported LSPs.
    names: Mutex<LspNames>,
}

impl Upkeep {
    /// Makes the upkeep of a run in which nothing has happened.
    pub fn new(alloc: Global) -> Upkeep {
        Upkeep {
            table: Mutex::new(PendingTable::new(alloc)),
            ending: Mutex::new(()),
            idle_at: AtomicU64::new(u64::MAX),
            retries: Retries::new(alloc),
            names: Mutex::new(LspNames::new(alloc)),
        }
    }

    /// Lends what is known about grants and deletions that stand.
    pub(crate) fn pending(&self) -> &Mutex<PendingTable> {
        &self.table
    }

    /// Lends what is known about LSPs without a path.
    pub(crate) fn retries(&self) -> &Retries {
        &self.retries
    }

    /// Lends the names of LSPs.
    pub(crate) fn names(&self) -> &Mutex<LspNames> {
        &self.names
    }

    /// Notes what a session's call says about a grant or deletion, at this moment: a report that names its SRP-ID puts
    /// off its limit. Also notes what the call says about LSPs that may have to be asked for again, and about names.
    pub fn note_call<R: Wait>(&self, rt: &R, call: &Call, now_ms: u64) {
        if let Some(of) = named_by(call) {
            let named = PendingHappening::Named { of, now_ms };
            let _noted = acquire(rt, &self.table).note(named);
        }
        self.retries.note_call(rt, call, now_ms);
        self.note_name(rt, call);
    }

    fn note<R: Wait>(&self, rt: &R, what: PendingHappening) -> Result<(), AllocError> {
        acquire(rt, &self.table).note(what)
    }

    fn due<R: Wait>(
        &self,
        rt: &R,
        alloc: Global,
        now_ms: u64,
        answer_ms: u64,
    ) -> Result<Vec<PendingDue>, AllocError> {
        acquire(rt, &self.table).due(alloc, now_ms, answer_ms)
    }
}

/// Returns the grant or deletion that a report names by its SRP-ID.
fn named_by(call: &Call) -> Option<Pending> {
    match (call.event.event(), &call.reply) {
        (_, Reply::Refused(_)) => None,
        (Event::Report { peer, report }, _) => Some(Pending {
            peer: *peer,
            srp: report.srp?,
        }),
        _ => None,
    }
}

/// What the timer thread remembers from one look to the next.
#[derive(Drop)]
pub struct Seen {
    routers: Vec<SeenRouter>,
    standing: IndexMap<Pending, Standing>,
    retries: SeenRetries,
}

impl Seen {
    /// Makes an empty memory, with which nothing was seen.
    pub fn new(alloc: Global) -> Seen {
        Seen {
            routers: Vec::new(alloc),
            standing: IndexMap::new(alloc),
            retries: SeenRetries::new(alloc),
        }
    }
}

/// Adds the grants of a page.
fn add_grants(
    standing: &mut IndexMap<Pending, Standing>,
    grants: &[SeenGrant],
) -> Result<(), AllocError> {
    for grant in grants {
        let of = Pending {
            peer: grant.peer,
            srp: grant.srp,
        };
        let is = Standing {
            plsp: grant.plsp,
            is_covered: grant.is_covered,
            is_fresh: grant.is_fresh,
        };
        standing.insert(of, is)?;
    }
    Ok(())
}

/// Adds the awaited deletions of a page.
fn add_deletions(
    standing: &mut IndexMap<Pending, Standing>,
    deletions: &[Deletion],
) -> Result<(), AllocError> {
    for deletion in deletions {
        let of = Pending {
            peer: deletion.peer,
            srp: deletion.srp,
        };
        let is = Standing {
            plsp: deletion.plsp,
            is_covered: false,
            is_fresh: true,
        };
        standing.insert(of, is)?;
    }
    Ok(())
}

/// Notes what happened to a router since it was last seen, if it was.
fn note_router<R: Wait>(
    rt: &R,
    upkeep: &Upkeep,
    old: Option<SeenRouter>,
    new: SeenRouter,
) -> Result<(), AllocError> {
    let peer = new.peer;
    let is_same = old.is_some_and(|old| old.session == new.session);
    if !is_same {
        upkeep.note(rt, PendingHappening::Up { peer })?;
    }
    if new.in_sync && !(is_same && old.is_some_and(|old| old.in_sync)) {
        upkeep.note(rt, PendingHappening::SyncEnded { peer })?;
    }
    if !new.is_up && !(is_same && old.is_some_and(|old| !old.is_up)) {
        upkeep.note(rt, PendingHappening::Down { peer })?;
    }
    Ok(())
}

/// Notes what happened to routers. If memory runs out for one, it is tried again at the next look.
fn note_routers<R: Wait>(
    rt: &R,
    upkeep: &Upkeep,
    routers: &mut Vec<SeenRouter>,
    now: &[SeenRouter],
) -> Result<(), AllocError> {
    for old in routers.iter() {
        let peer = old.peer;
        if find(now, peer).is_none() {
            upkeep.note(rt, PendingHappening::Expired { peer })?;
        }
    }
    let mut kept = Vec::with_capacity(*routers.allocator(), now.len())?;
    let mut noted = Ok(());
    for new in now {
        let old = find(routers, new.peer);
        match note_router(rt, upkeep, old, *new) {
            Ok(()) => kept.push(*new)?,
            Err(error) => {
                noted = Err(error);
                if let Some(old) = old {
                    kept.push(old)?;
                }
            }
        }
    }
    *routers = kept;
    noted
}

/// Notes a grant or deletion that stands.
fn note_standing<R: Wait>(
    rt: &R,
    upkeep: &Upkeep,
    of: Pending,
    is: Standing,
    now_ms: u64,
) -> Result<(), AllocError> {
    upkeep.note(rt, PendingHappening::Made { of, now_ms })?;
    if is.is_covered {
        upkeep.note(rt, PendingHappening::Covered { of })
    } else {
        upkeep.note(rt, PendingHappening::Uncovered { of })
    }
}

/// Notes the grants that were made in earlier sessions, before the sessions that came up since the last look are noted.
fn note_earlier<R: Wait>(
    rt: &R,
    upkeep: &Upkeep,
    standing: &IndexMap<Pending, Standing>,
    now_ms: u64,
) -> Result<(), AllocError> {
    for at in 0..standing.len() {
        if let Some((of, is)) = standing.get_index(at) {
            if !is.is_fresh {
                upkeep.note(rt, PendingHappening::Made { of: *of, now_ms })?;
            }
        }
    }
    Ok(())
}

/// Notes which grants and deletions stand, and which no longer do.
fn note_all<R: Wait>(
    rt: &R,
    upkeep: &Upkeep,
    old: &IndexMap<Pending, Standing>,
    now: &IndexMap<Pending, Standing>,
    now_ms: u64,
) -> Result<(), AllocError> {
    for at in 0..old.len() {
        if let Some((of, _is)) = old.get_index(at) {
            if now.get(of).is_none() {
                upkeep.note(rt, PendingHappening::Gone { of: *of })?;
            }
        }
    }
    for at in 0..now.len() {
        if let Some((of, is)) = now.get_index(at) {
            note_standing(rt, upkeep, *of, *is, now_ms)?;
        }
    }
    Ok(())
}

impl<'a, R: Wait + Clock, B: Brands> Context<'a, R, B> {
    /// Returns how many grants and deletions were ever made.
    fn made(&self) -> u64 {
        let counters = acquire(self.rt, self.counters);
        let granted = counters.count(Counted::Step(EventKind::Commit, Brief::Granted(0)));
        let removing = counters.count(Counted::Step(EventKind::Delete, Brief::Removing(0)));
        granted.saturating_add(removing)
    }

    /// Sees which grants and deletions stand, a page each time the lock is held.
    fn see_standing(&self, seat: &mut Seat<B>) -> Result<IndexMap<Pending, Standing>, AllocError> {
        let mut standing = IndexMap::new(self.alloc);
        let mut from = 0;
        for _page in 0..PAGES {
            let page = self.shared.look_at(self.rt, seat, &UpkeepLook { from })?;
            add_grants(&mut standing, &page.grants)?;
            add_deletions(&mut standing, &page.deletions)?;
            match page.next {
                Some(next) => from = next,
                None => return Ok(standing),
            }
        }
        Ok(standing)
    }

    /// Looks at what stands, and notes what happened since the last look. Looks at nothing while nothing stands.
    fn look_after(
        &self,
        seat: &mut Seat<B>,
        seen: &mut Seen,
        now_ms: u64,
    ) -> Result<(), AllocError> {
        let made = self.made();
        if self.upkeep.idle_at.load(Ordering::SeqCst) == made {
            return Ok(());
        }
        let routers = self.shared.look_at(self.rt, seat, &RoutersLook)?;
        let standing = self.see_standing(seat)?;
        note_earlier(self.rt, self.upkeep, &standing, now_ms)?;
        note_routers(self.rt, self.upkeep, &mut seen.routers, &routers)?;
        let noted = note_all(self.rt, self.upkeep, &seen.standing, &standing, now_ms);
        let is_idle = standing.is_empty() && noted.is_ok();
        let idle_at = if is_idle { made } else { u64::MAX };
        self.upkeep.idle_at.store(idle_at, Ordering::SeqCst);
        seen.standing = standing;
        noted
    }

    /// Notes the grants of a router whose session has just come up: they were made in earlier sessions. Its reports
    /// will bind them to LSPs of this session as if they were new.
    pub fn note_earlier_grants(&self, front: &mut Front<Event, B>, peer: u32, now_ms: u64) {
        if self.is_idle() {
            return;
        }
        let Ok(srps) = self.shared.look(self.rt, front, &GrantsOfPeerLook { peer }) else {
            return;
        };
        for srp in srps.iter() {
            let of = Pending { peer, srp: *srp };
            let _noted = self
                .upkeep
                .note(self.rt, PendingHappening::Made { of, now_ms });
        }
    }

    /// Tests whether no grant and no deletion stands.
    fn is_idle(&self) -> bool {
        self.upkeep.idle_at.load(Ordering::SeqCst) == self.made()
    }

    /// Drops the grant of an LSP that was just reported, if the report covers it. The timer thread looks after whatever
    /// happens in between. When the run ends, nothing is dropped.
    pub fn end_covered(&self, front: &mut Front<Event, B>, peer: u32, plsp: Plsp) {
        if self.is_idle() || self.run.is_closing() {
            return;
        }
        let look = GrantOfLook { peer, plsp };
        let Ok(Some(srp)) = self.shared.look(self.rt, front, &look) else {
            return;
        };
        let ending = self.upkeep.ending.lock(self.rt);
        let Some(mut seat) = self.pool.take(self.rt, self.closer) else {
            return;
        };
        let due = PendingDue {
            pending: Pending { peer, srp },
            end: PendingEnd::Covered,
        };
        let _dropped = self.drop_due(&mut seat, due, plsp);
        self.pool.put(self.rt, self.closer, seat);
        drop(ending);
    }

    /// Submits that a grant or deletion ends, if it should still end. Returns `None` if a covered grant isn't covered
    /// any more.
    fn end(&self, seat: &mut Seat<B>, due: PendingDue, plsp: Plsp) -> Result<Option<Reply>, Fault> {
        let Pending { peer, srp } = due.pending;
        match due.end {
            PendingEnd::Covered => self.shared.drop_covered(self.rt, seat, peer, plsp, srp),
            PendingEnd::EarlierSession | PendingEnd::NoAnswer => {
                let reply = self
                    .shared
                    .submit(self.rt, seat, Event::Refused { peer, srp })?;
                Ok(Some(reply))
            }
        }
    }

    /// Counts that a grant or deletion was dropped, and logs it if its router didn't answer.
    fn note_dropped(&self, due: PendingDue, plsp: Plsp, reply: &Reply) {
        let Pending { peer, srp } = due.pending;
        self.count_step(EventKind::Refused, reply);
        if due.end == PendingEnd::NoAnswer {
            self.count(Counted::NoAnswer);
            self.say(LogLine::NoAnswer {
                peer,
                srp,
                plsp: plsp.number(),
            });
        }
    }

    /// Drops a grant or deletion that should end. That its router doesn't answer is noted first, so that its LSP isn't
    /// asked for again.
    fn drop_due(&self, seat: &mut Seat<B>, due: PendingDue, plsp: Plsp) -> Result<(), Fault> {
        let of = due.pending;
        if due.end == PendingEnd::NoAnswer {
            self.upkeep.retries.note_no_answer(self.rt, of.peer, plsp)?;
        }
        let what = match self.end(seat, due, plsp)? {
            Some(reply) => {
                self.note_dropped(due, plsp, &reply);
                PendingHappening::Gone { of }
            }
            None => PendingHappening::Uncovered { of },
        };
        self.upkeep.note(self.rt, what)?;
        Ok(())
    }

    /// Looks after grants and awaited deletions, and drops those that should end: as soon as a report covers them, at
    /// the end of synchronization if they were made in an earlier session, and when their routers haven't answered in
    /// time. Then asks again for LSPs that are down. When the run ends, nothing more is submitted. After a fault the
    /// next turn goes on.
    pub fn keep_up(&self, seat: &mut Seat<B>, seen: &mut Seen) -> Result<(), Fault> {
        let now_ms = self.moments().now_ms();
        self.look_after(seat, seen, now_ms)?;
        let due = self
            .upkeep
            .due(self.rt, self.alloc, now_ms, self.answer_ms)?;
        for due in due.iter().take(DROPPED_AT_ONCE) {
            if self.run.is_closing() {
                return Ok(());
            }
            if let Some(is) = seen.standing.get(&due.pending).copied() {
                self.drop_due(seat, *due, is.plsp)?;
            }
        }
        self.retry(seat, &mut seen.retries)
    }
}
