//! What the timer thread does for LSPs without a path: it looks which there are, and asks again for those that are due.
use crate::context::Context;
use crate::down_paths::{DownPaths, ReportedPath};
use crate::linkless::{LinklessLook, SeenLinkless, StandsLook};
use crate::retries::Retries;
use crate::routers::{RoutersLook, SeenRouter, find};
use history_core::Brief;
use history_seats::Brands;
use indexmap::IndexMap;
use lsp_words::Plsp;
use pce_seen::EventKind;
use server_counts::Counted;
use server_log::Asker;
use server_rules::{LspSight, RetryHappening, RouterLsp};
use server_talk::Watch;
use shared_pce::{Event, Fault, Seat};
use short_lock::acquire;
use std::alloc::{AllocError, Global};
use std::sync::Wait;
use std::time::Clock;
use step_core::Purpose;

/// The most pages of paths that are seen in a turn: there are at most 16,384 paths, and 256 on a page.
const PAGES: u32 = 65;

/// An LSP that is delegated and has no path.
#[derive(Clone, Copy)]
struct Pathless {
    plsp: Plsp,
    sight: LspSight,
}

/// What the timer thread remembers about LSPs without a path, from one look to the next.
#[derive(Drop)]
pub(crate) struct SeenRetries {
    routers: Vec<SeenRouter>,
    pathless: IndexMap<RouterLsp, Pathless>,
    /// How many reloads were done.
    reloads: u64,
}

impl SeenRetries {
    /// Makes an empty memory, with which nothing was seen.
    pub fn new(alloc: Global) -> SeenRetries {
        SeenRetries {
            routers: Vec::new(alloc),
            pathless: IndexMap::new(alloc),
            reloads: 0,
        }
    }
}

/// Tests whether the router has come in sync since it was last seen.
fn is_first(old: Option<SeenRouter>, new: SeenRouter) -> bool {
    let was_in_sync = old.is_some_and(|old| old.session == new.session && old.in_sync);
    new.in_sync && !was_in_sync
}

/// Returns the state of an LSP without a path, given one of its paths: whether that was last reported DOWN, and with A
/// set.
fn sight_of(router: SeenRouter, path: &SeenLinkless, down: &DownPaths) -> LspSight {
    let reported = ReportedPath {
        peer: path.peer,
        plsp: path.plsp.number(),
        lsp: path.lsp,
    };
    let down = down.of(reported);
    LspSight {
        router_is_up: router.is_up,
        router_in_sync: router.in_sync,
        takes_updates: router.takes_updates,
        is_delegated: path.is_delegated,
        is_down: down.is_some(),
        is_switched_on: down == Some(true),
        has_grant: path.has_grant,
        has_ticket: path.has_ticket,
        is_removing: path.is_removing,
    }
}

/// Joins what two paths of an LSP say: it is down if both are, and switched on if both were reported with A set.
fn joined(sight: LspSight, other: LspSight) -> LspSight {
    LspSight {
        is_down: sight.is_down && other.is_down,
        is_switched_on: sight.is_switched_on && other.is_switched_on,
        ..sight
    }
}

/// Returns the state of an LSP that has a path again.
fn held(sight: LspSight) -> LspSight {
    LspSight {
        is_down: false,
        has_grant: false,
        has_ticket: false,
        ..sight
    }
}

/// Adds an LSP that is delegated and has no path, given one of its paths.
fn add_pathless(
    pathless: &mut IndexMap<RouterLsp, Pathless>,
    routers: &[SeenRouter],
    path: &SeenLinkless,
    down: &DownPaths,
) -> Result<(), AllocError> {
    if !path.is_delegated || path.holds_links {
        return Ok(());
    }
    let Some(router) = find(routers, path.peer) else {
        return Ok(());
    };
    let plsp = path.plsp;
    let of = RouterLsp {
        peer: path.peer,
        plsp: plsp.number(),
    };
    let sight = sight_of(router, path, down);
    let sight = match pathless.get(&of) {
        Some(other) => joined(sight, other.sight),
        None => sight,
    };
    pathless.insert(of, Pathless { plsp, sight })?;
    Ok(())
}

/// Notes what happened to routers. An end of synchronization is found by `is_first`.
fn note_routers<R: Wait>(
    rt: &R,
    retries: &Retries,
    old: &[SeenRouter],
    now: &[SeenRouter],
) -> Result<(), AllocError> {
    for router in old {
        let peer = router.peer;
        if find(now, peer).is_none() {
            retries.forget(rt, peer)?;
        }
    }
    for router in now {
        let peer = router.peer;
        let session = find(old, peer).map(|old| old.session);
        if session != Some(router.session) {
            retries.note(rt, RetryHappening::Up { peer })?;
        }
    }
    Ok(())
}

impl<'a, R: Wait + Clock, B: Brands> Context<'a, R, B> {
    /// Returns how many reloads were done.
    fn reloads(&self) -> u64 {
        let reload = Counted::Step(EventKind::Reload, Brief::Done);
        acquire(self.rt, self.counters).count(reload)
    }

    /// Sees which LSPs are delegated and have no path, a page of paths each time the lock is held.
    fn see_pathless(
        &self,
        seat: &mut Seat<B>,
        routers: &[SeenRouter],
    ) -> Result<IndexMap<RouterLsp, Pathless>, AllocError> {
        let mut pathless = IndexMap::new(self.alloc);
        let mut from = 0;
        for _page in 0..PAGES {
            let page = self.shared.look_at(self.rt, seat, &LinklessLook { from })?;
            let down = acquire(self.rt, self.upkeep.retries().down());
            for path in page.paths.iter() {
                add_pathless(&mut pathless, routers, path, &down)?;
            }
            drop(down);
            match page.next {
                Some(next) => from = next,
                None => return Ok(pathless),
            }
        }
        Ok(pathless)
    }

    /// Notes that an LSP has a path again, or is no longer known.
    fn note_held(
        &self,
        seat: &mut Seat<B>,
        of: RouterLsp,
        is: Pathless,
        now_ms: u64,
    ) -> Result<(), AllocError> {
        let look = StandsLook {
            peer: of.peer,
            plsp: is.plsp,
        };
        let what = if self.shared.look_at(self.rt, seat, &look)? {
            RetryHappening::Seen {
                of,
                sight: held(is.sight),
                is_first: false,
                now_ms,
            }
        } else {
            RetryHappening::Gone { of }
        };
        self.upkeep.retries().note(self.rt, what)
    }

    /// Notes the LSPs that have no path, and those that no longer belong to them.
    fn note_pathless(
        &self,
        seat: &mut Seat<B>,
        seen: &SeenRetries,
        routers: &[SeenRouter],
        pathless: &IndexMap<RouterLsp, Pathless>,
        now_ms: u64,
    ) -> Result<(), AllocError> {
        for at in 0..seen.pathless.len() {
            if let Some((of, is)) = seen.pathless.get_index(at) {
                if pathless.get(of).is_none() {
                    self.note_held(seat, *of, *is, now_ms)?;
                }
            }
        }
        for at in 0..pathless.len() {
            if let Some((of, is)) = pathless.get_index(at) {
                let first = |router: SeenRouter| is_first(find(&seen.routers, of.peer), router);
                let what = RetryHappening::Seen {
                    of: *of,
                    sight: is.sight,
                    is_first: find(routers, of.peer).is_some_and(first),
                    now_ms,
                };
                self.upkeep.retries().note(self.rt, what)?;
            }
        }
        Ok(())
    }

    /// Looks at the LSPs that have no path, and notes what happened since the last look.
    fn look_for_retries(
        &self,
        seat: &mut Seat<B>,
        seen: &mut SeenRetries,
        now_ms: u64,
    ) -> Result<(), AllocError> {
        let retries = self.upkeep.retries();
        let routers = self.shared.look_at(self.rt, seat, &RoutersLook)?;
        note_routers(self.rt, retries, &seen.routers, &routers)?;
        let pathless = self.see_pathless(seat, &routers)?;
        self.note_pathless(seat, seen, &routers, &pathless, now_ms)?;
        let reloads = self.reloads();
        if reloads != seen.reloads {
            retries.note(self.rt, RetryHappening::Reloaded)?;
        }
        *seen = SeenRetries {
            routers,
            pathless,
            reloads,
        };
        Ok(())
    }

    /// Asks for a path for an LSP again. If memory runs out, or the history is full, the LSP stays due at the next
    /// turn.
    fn retry_one(&self, seat: &mut Seat<B>, of: RouterLsp, plsp: Plsp) -> Result<(), Fault> {
        let purpose = Purpose::Update { plsp };
        let event = Event::Ask {
            peer: of.peer,
            purpose: Purpose::Update { plsp },
        };
        let asked_us = self.moments().now_us();
        let reply = self.shared.submit(self.rt, seat, event)?;
        self.count_step(EventKind::Ask, &reply);
        self.note_asked(&reply, asked_us);
        self.say_asked_for(of.peer, &purpose, &reply, Asker::Retry);
        let now_ms = self.moments().now_ms();
        let tried = RetryHappening::Tried { of, now_ms };
        self.upkeep.retries().note(self.rt, tried)?;
        Ok(())
    }

    /// Asks again for the LSPs that are due, once paths may be granted. Looks at nothing while no delegated LSP is
    /// down. When the run ends, nothing more is submitted. After a fault the next turn goes on.
    pub(crate) fn retry(&self, seat: &mut Seat<B>, seen: &mut SeenRetries) -> Result<(), Fault> {
        let retries = self.upkeep.retries();
        let Some(stirs) = retries.stirs() else {
            return Ok(());
        };
        if self.retry_ms == 0 {
            return Ok(());
        }
        let now_ms = self.moments().now_ms();
        self.look_for_retries(seat, seen, now_ms)?;
        if seen.pathless.is_empty() {
            retries.rest_at(stirs);
            return Ok(());
        }
        if !self.grants.is_open() {
            return Ok(());
        }
        let due = retries.due(self.rt, self.alloc, now_ms, self.retry_ms)?;
        for of in due.iter() {
            if self.run.is_closing() {
                return Ok(());
            }
            if let Some(is) = seen.pathless.get(of) {
                self.retry_one(seat, *of, is.plsp)?;
            }
        }
        Ok(())
    }
}
