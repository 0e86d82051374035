//! What the log says about a worker's turn.
ghost use Rattle.std.specs.Prelude.{◌≡◌, IfSome, find, option_copied};
ghost use Rattle.server_workers.specs.Decided.{commits, offered_in, IsDecided, IsInTheWay};

use history_core::Job;
use history_seats::{Brands, Receipt};
use path_looks::{Obstacle, PathAnswer, path_on};
use server_base::Context;
use server_log::{Decision, Kind, LogLine, ShownLinks, ShownName, offered, verdict};
use server_talk::Watch;
use shared_pce::{Event, Reply, Seat, Worked};
use std::alloc::Global;
use std::sync::Wait;
use std::time::Clock;

/// Tests whether an event commits this ticket.
fn commits(ticket: u64, event: &Event) -> bool
    ensures { result ≡ commits ticket event.now }
{
    match event {
        Event::Commit { ticket: number, .. } => *number == ticket,
        _ => false,
    }
}

/// Finds the first step that commits this ticket.
fn commit_in(receipts: &[Receipt], ticket: u64) -> Option<&Receipt>
    ensures { option_copied result ≡ find (λ r. commits ticket r.event) receipts.now }
{
    receipts
        .iter()
        .find(|receipt| commits(ticket, receipt.event()))
}

/// Returns the links that were offered when this ticket was committed. Only the last two receipts are read, since after
/// the commit a worker takes at most the next ticket.
fn offered_in(receipts: &[Receipt], ticket: u64) -> ShownLinks
    ensures { result ≡ offered_in receipts.now ticket }
{
    let newest = &receipts[receipts.len().saturating_sub(2)..];
    match commit_in(newest, ticket) {
        Some(receipt) => offered(receipt.event()),
        None => ShownLinks::new(&[]),
    }
}

/// Finds what prevents a job's path on the job's network. Returns `None` if there is no way at all, or memory runs out.
fn obstacle_to(alloc: Global, job: &Job) -> Option<Obstacle>
    ensures { IfSome result (IsInTheWay job.now) }
{
    match path_on(alloc, &job.snapshot, &job.ticket.constraints) {
        Ok(PathAnswer::Blocked { by, .. }) => Some(by),
        _ => None,
    }
}

/// Finds what prevents a job's path, if the reply says that there is none.
fn why_not(alloc: Global, job: &Job, reply: &Reply) -> Option<Obstacle>
    ensures { IfSome result (IsInTheWay job.now) }
{
    match reply {
        Reply::NoPath => obstacle_to(alloc, job),
        _ => None,
    }
}

/// Returns what the log says about a job's ticket, which one of these receipts committed. If there is no path, it says
/// what prevents one.
fn decided(
    alloc: Global,
    job: &Job,
    receipts: &[Receipt],
    reply: &Reply,
    name: ShownName,
) -> Option<Decision>
    ensures { IsDecided job.now receipts.now reply.now name result }
{
    let why = why_not(alloc, job, reply);
    let links = offered_in(receipts, job.ticket.id);
    verdict(&job.ticket, links, reply, name, why)
}

/// Logs that there is no path for a job. Searches for what prevents one only if the line isn't held back.
fn say_no_path<R: Wait + Clock, B: Brands>(
    context: &Context<'_, R, B>,
    job: &Job,
    receipts: &[Receipt],
    reply: &Reply,
) {
    let (peer, now_ms) = (job.ticket.peer, context.moments().now_ms());
    if !context.log.admits(context.rt, Kind::NoPath, peer, now_ms) {
        return;
    }
    let name = context.name_for(peer, &job.ticket.purpose);
    if let Some(decision) = decided(context.alloc, job, receipts, reply, name) {
        context
            .log
            .say_admitted(context.rt, LogLine::Decided(decision), now_ms);
    }
}

/// Logs what was decided about the ticket of a worker's turn.
pub(crate) fn say_worked<R: Wait + Clock, B: Brands>(
    context: &Context<'_, R, B>,
    seat: &Seat<B>,
    worked: &Worked,
) {
    let Worked::Done { job, reply } = worked else {
        return;
    };
    match reply {
        Reply::NoPath => say_no_path(context, job, seat.receipts(), reply),
        Reply::Granted(_) | Reply::Answered | Reply::GivenUp => {
            let name = context.name_for(job.ticket.peer, &job.ticket.purpose);
            context.say_decided(decided(context.alloc, job, seat.receipts(), reply, name));
        }
        _ => {}
    }
}
