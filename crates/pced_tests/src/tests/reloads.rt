//! Links that are reloaded while a search for a path runs.
use super::meeting::{Came, ask, came_to, come_up};
use super::*;
use history_core::{Event, LinkReload, Reply};
use history_seats::Brands;
use sequence::Sequence;
use shared_pce::{Fault, Gate, Quiet, Seat, Shared};
use std::process::Abort;
use std::sync::Wait;
use te_base::LinkValues;

/// Submits a reload of one link, and returns whether it was made.
fn is_reloaded<R: Wait, B: Brands>(
    rt: &R,
    alloc: Global,
    shared: &Shared<B>,
    seat: &mut Seat<B>,
    entry: LinkReload,
) -> Result<bool, Fault> {
    let mut links = Vec::new(alloc);
    links.push(entry)?;
    let links = Sequence::from_vec(links);
    let reply = shared.submit(rt, seat, Event::Reload { links })?;
    Ok(matches!(reply, Reply::Done))
}

/// Reloads a link after a ticket was taken, and before its path is searched for.
#[derive(Drop)]
struct Reloading<'a, R: Wait, B: Brands> {
    rt: &'a R,
    alloc: Global,
    shared: &'a Shared<B>,
    seat: &'a mut Seat<B>,
    entry: LinkReload,
    is_done: bool,
}

impl<'a, R: Wait, B: Brands> Gate for Reloading<'a, R, B> {
    fn computing(&mut self, _ticket: u64) {
        let made = is_reloaded(self.rt, self.alloc, self.shared, self.seat, self.entry);
        self.is_done = matches!(made, Ok(true));
    }
}

/// Returns the result of a search during which this link is given these values.
fn came_beside<R: Wait, B: Brands>(
    rt: &R,
    alloc: Global,
    shared: &Shared<B>,
    worker: &mut Seat<B>,
    seat: &mut Seat<B>,
    link: usize,
    values: Option<LinkValues>,
) -> Result<Came, Fail> {
    let Some(values) = values else {
        return Err(Fail::new("numbers out of their ranges"));
    };
    let mut gate = Reloading {
        rt,
        alloc,
        shared,
        seat,
        entry: LinkReload { link, values },
        is_done: false,
    };
    let came = came_to(&shared.work_one(rt, worker, &mut gate)?);
    if gate.is_done {
        Ok(came)
    } else {
        Err(Fail::new("the link is reloaded"))
    }
}

/// Returns what is left of each link at the best priority.
fn left_now<R: Wait, B: Brands>(rt: &R, shared: &Shared<B>) -> Result<[i64; 4], Fail> {
    let mut best = [0i64; 4];
    let table = shared.left(rt, &mut shared.front(rt))?;
    for (link, amounts) in table.iter().enumerate().take(4) {
        best[link] = amounts[0];
    }
    Ok(best)
}

/// Tests that a search uses the links of the moment when its ticket was taken: the way over B is granted, although it
/// costs more by then. The next search uses the present links, over C; at the commit a link of that way can carry too
/// little, so the path is searched for again, and found over B.
pub fn reload_beside_searches<R: Wait + Abort, B: Brands>(
    rt: &R,
    alloc: Global,
    shared: &Shared<B>,
    worker: &mut Seat<B>,
    seat: &mut Seat<B>,
) -> Result<(), Fail> {
    come_up(rt, shared, worker, 1)?;
    let first = "initiate 1 t1 10.0.0.1 10.0.0.4 600000 7 0";
    ask(rt, alloc, shared, worker, first)?;
    let dear = LinkValues::new(90, 90, 0, 1_000_000);
    let came = came_beside(rt, alloc, shared, worker, seat, 0, dear)?;
    let left = left_now(rt, shared)?;
    assert_eq!(rt;
        (came, left),
        (Came::Granted(1), [400_000, 400_000, 1_000_000, 1_000_000])
    );
    let second = "initiate 1 t2 10.0.0.1 10.0.0.4 300000 7 0";
    ask(rt, alloc, shared, worker, second)?;
    let narrow = LinkValues::new(20, 20, 0, 100_000);
    let came = came_beside(rt, alloc, shared, worker, seat, 2, narrow)?;
    assert_eq!(rt; came, Came::Again);
    let came = came_to(&shared.work_one(rt, worker, &mut Quiet)?);
    let left = left_now(rt, shared)?;
    assert_eq!(rt;
        (came, left),
        (Came::Granted(2), [100_000, 100_000, 100_000, 1_000_000])
    );
    Ok(())
}

/// Tests the audit, with both reloads in the history.
pub fn replays<R: Abort, B: Brands>(
    rt: &R,
    shared: Shared<B>,
    seats: Vec<Seat<B>>,
) -> Result<(), Fail> {
    let Ok(audit) = shared.close(seats) else {
        return Err(Fail::new("the audit failed"));
    };
    assert_eq!(rt; (audit.steps, audit.grants), (12, 2));
    Ok(())
}
