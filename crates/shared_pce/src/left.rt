//! What a step leaves of the links of the path that it adds, read under the same lock before the step and after it.
ghost use Rattle.std.specs.Prelude.{ℕ, ◌≡◌, true, [], All, None, length, map, IfOk, IfSome};
ghost use Rattle.delegate_rules.specs.Reports.{hops_of};
ghost use Rattle.history_core.specs.Histories.{Content, Replays};
ghost use Rattle.step_core.specs.Steps.{step};
ghost use Rattle.shared_pce.specs.Residuals.{adds_path, is_long, links_in, row_after, row_before, IsBefore, IsLookedAt, WasLeft};

use delegate_rules::report_links;
use history_core::{Database, Event, Reply};
use pcep_messages::StateReport;
use pcep_word::Priority;
use sequence::PlainData;
use server_counts::ResidualRow;
use std::alloc::{AllocError, Global};
use te_base::{LinkNumber, TeBase};

/// The most links of a path that are read.
const LINK_LIMIT: usize = 64;

/// The most hops of a report whose links are read: four for each of the most links that are read. Only the step walks a
/// longer route, so that no router can make the lock last by a walk that shows nothing.
const HOP_LIMIT: usize = 256;

/// Counts the hops of the route that a report gives its path.
fn hop_count(report: &StateReport) -> usize
    ensures { result ≡ length (hops_of report.now) }
{
    match &report.rro {
        Some(hops) => hops.as_slice().len(),
        None => report.ero.as_slice().len(),
    }
}

/// Tests whether an event's route is so long that its links aren't read.
fn is_long(event: &Event) -> bool
    ensures { result ≡ is_long event.now }
{
    match event {
        Event::Report { report, .. } => hop_count(report) > HOP_LIMIT,
        _ => false,
    }
}

/// Lists the links of the path that an event adds.
fn links_in(alloc: Global, te: &TeBase, event: &Event) -> Result<Vec<LinkNumber>, AllocError>
    ensures { IfOk result (λ links. links.items ≡ links_in te.now event.now) }
{
    match event {
        Event::Report { report, .. } => report_links(alloc, te, report),
        Event::Commit {
            offer: Some(links),
            ..
        } => links.as_slice().to_vec(alloc),
        _ => Ok(Vec::new(alloc)),
    }
}

/// Reads what is left of a link. `None` if there is no such link.
fn row_before(database: &Database, link: LinkNumber, priority: Priority) -> Option<ResidualRow>
    ensures { IfSome result (λ row. row ≡ row_before database.now priority link) }
{
    let left = database.unreserved(link, priority)?;
    Some(ResidualRow {
        step: database.steps(),
        link,
        priority,
        before: left,
        after: left,
    })
}

/// Reads what is left of each link. `None` if one doesn't exist, there are too many, or memory runs out.
fn rows_before(
    alloc: Global,
    database: &Database,
    links: &[LinkNumber],
    priority: Priority,
) -> Option<Vec<ResidualRow>>
    ensures { IfSome result (λ rows. rows.items ≡ map (row_before database.now priority) links.now) }
{
    if links.len() > LINK_LIMIT {
        return None;
    }
    let mut rows = Vec::with_capacity(alloc, links.len()).ok()?;
    for link in links {
        rows.push(row_before(database, *link, priority)?).ok()?;
    }
    Some(rows)
}

/// Reads what is left of each link of an event, if it can be read and the route isn't too long.
fn rows_of_event(
    alloc: Global,
    database: &Database,
    event: &Event,
    priority: Priority,
) -> Option<Vec<ResidualRow>>
    ensures rows { IfSome result (λ rows. rows.items ≡ map (row_before database.now priority) (links_in database.now.state.te event.now)) }
    ensures long { is_long event.now ≡ true → result ≡ None }
{
    if is_long(event) {
        return None;
    }
    let links = links_in(alloc, database.te_base(), event).ok()?;
    rows_before(alloc, database, &links, priority)
}

/// Reads what is left of each link of an event, or nothing. A long route isn't walked.
pub(crate) fn see_before(
    alloc: Global,
    database: &Database,
    event: &Event,
    priority: Priority,
) -> Vec<ResidualRow>
    ensures before { All (IsBefore database.now event.now priority) result.items }
    ensures long { is_long event.now ≡ true → result.items ≡ [] }
{
    match rows_of_event(alloc, database, event, priority) {
        Some(rows) => rows,
        None => Vec::new(alloc),
    }
}

/// Reads what is left of a row's link after the step. `None` if there is no such link.
fn row_after(database: &Database, row: &ResidualRow) -> Option<ResidualRow>
    ensures { IfSome result (λ after. after ≡ row_after database.now.state row.now) }
{
    let after = database.unreserved(row.link, row.priority)?;
    Some(ResidualRow { after, ..*row })
}

/// Reads what is left of each row's link after the step. `None` if one doesn't exist, or memory runs out.
fn rows_after(
    alloc: Global,
    database: &Database,
    before: &[ResidualRow],
) -> Option<Vec<ResidualRow>>
    ensures { IfSome result (λ rows. rows.items ≡ map (row_after database.now.state) before.now) }
{
    let mut rows = Vec::with_capacity(alloc, before.len()).ok()?;
    for row in before {
        rows.push(row_after(database, row)?).ok()?;
    }
    Some(rows)
}

/// Tests whether a path was booked or granted.
fn adds_path(reply: &Reply) -> bool
    ensures { result ≡ adds_path reply.now }
{
    matches!(reply, Reply::Booked { .. } | Reply::Granted(_))
}

/// Reads what is left of each row's link after a step that added a path, or nothing.
pub(crate) fn see_after(
    alloc: Global,
    database: &Database,
    reply: &Reply,
    before: &[ResidualRow],
) -> Vec<ResidualRow>
    ensures { (d : Content) (e : Event) (priority : ℕ) → Replays d → IsLookedAt e priority → All (IsBefore d e priority) before.now
        → reply.now ≡ (step d.state e).reply → database.now.state ≡ (step d.state e).state → All WasLeft result.items }
{
    if !adds_path(reply) {
        return Vec::new(alloc);
    }
    match rows_after(alloc, database, before) {
        Some(rows) => rows,
        None => Vec::new(alloc),
    }
}
