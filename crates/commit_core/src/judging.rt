//! What becomes of a ticket when its search answers.
ghost use Rattle.std.specs.Prelude.{◌≡◌, ◌≤◌, false, length, Some, option_copied};
ghost use Rattle.lsp_base.specs.declared.path.Path.{Path};
ghost use Rattle.te_snapshot.specs.Network.{network_of};
ghost use Rattle.bandwidth_book.specs.Books as books;
ghost use Rattle.bandwidth_book.specs.Books.{StandsFor};
ghost use Rattle.commit_core.specs.Routes.{is_admissible, is_acceptable};
ghost use Rattle.commit_core.specs.Searched.{IsFoundNow};
ghost use Rattle.commit_core.specs.Sound.{LeavesRoom};
ghost use Rattle.commit_core.specs.declared.verdict.Verdict.TheVariants.{Grant, Answer};
ghost use Rattle.commit_core.specs.Verdicts.{is_moot, is_gone, unless_tried, cannot_be_granted, accepted, judged, verdict};

use crate::offers::is_request;
use crate::route::is_route;
use crate::ticket::{Purpose, TRY_LIMIT, Ticket};
use crate::verdict::{PeerView, Verdict};
use bandwidth_book::Book;
use lsp_base::{Constraints, LspBase, PATH_LIMIT, Path, is_delegated, is_pending};
use te_base::TeBase;
use te_snapshot::keeps_other_bounds;

/// Tests whether there is nothing left to update.
fn is_moot(base: &LspBase, peer: u32, purpose: &Purpose) -> bool
    ensures { result ≡ is_moot base.now.content peer purpose.now }
{
    match purpose {
        Purpose::Update { plsp } => {
            !is_delegated(base.lsp(peer, *plsp)) || is_pending(base, peer, *plsp)
        }
        Purpose::Initiate { .. } | Purpose::Answer { .. } => false,
    }
}

fn is_gone(ticket: &Ticket, base: &LspBase, view: PeerView) -> bool
    ensures { result ≡ is_gone base.now.content ticket.now view }
{
    let is_up = view.up && view.session == ticket.session;
    let is_held_up = !is_request(&ticket.purpose) && view.syncing;
    !is_up || is_held_up || is_moot(base, ticket.peer, &ticket.purpose)
}

fn unless_tried(ticket: &Ticket, verdict: Verdict) -> Verdict
    ensures { result ≡ unless_tried ticket.now verdict }
{
    if ticket.tries < TRY_LIMIT {
        Verdict::Again
    } else {
        verdict
    }
}

fn cannot_be_granted(base: &LspBase, view: PeerView) -> bool
    ensures { result ≡ cannot_be_granted base.now.content view }
{
    base.paths().len() >= PATH_LIMIT || view.srp_in_use
}

fn accepted(ticket: &Ticket, base: &LspBase, view: PeerView) -> Verdict
    ensures { result ≡ accepted base.now.content ticket.now view }
{
    if is_request(&ticket.purpose) {
        Verdict::Answer
    } else if cannot_be_granted(base, view) {
        Verdict::GivenUp
    } else {
        Verdict::Grant
    }
}

/// Tests whether one more path is admissible now, and within all bounds.
fn is_acceptable(
    te: &TeBase,
    base: &LspBase,
    book: &Book,
    constraints: &Constraints,
    path: &Path,
) -> bool
    requires network { books.network_of book.now ≡ network_of te.now }
    requires stands { StandsFor book.now base.now.content.paths }
    ensures { result ≡ is_acceptable te.now base.now.content.paths constraints.now path.now }
{
    let links = path.links.as_slice();
    is_route(te, constraints, links)
        && book.fits(path, constraints.priorities.setup())
        && keeps_other_bounds(te.links(), constraints, links)
}

#[tactic(auto, unfolding(crate::specs::Verdicts::verdict))]
fn verdict_of(
    ticket: &Ticket,
    offer: Option<&Path>,
    base: &LspBase,
    book: &Book,
    te: &TeBase,
    view: PeerView,
) -> Verdict
    requires network { books.network_of book.now ≡ network_of te.now }
    requires stands { StandsFor book.now base.now.content.paths }
    ensures { result ≡ verdict ticket.now (option_copied offer.entry) base.now.content te.now view }
{
    if is_gone(ticket, base, view) {
        return Verdict::Gone;
    }
    match offer {
        Some(path) if is_acceptable(te, base, book, &ticket.constraints, path) => {
            accepted(ticket, base, view)
        }
        Some(_) => unless_tried(ticket, Verdict::GivenUp),
        None if view.changes == ticket.seen => Verdict::NoPath,
        None => unless_tried(ticket, Verdict::NoPath),
    }
}

/// Decides what becomes of a taken ticket, given the LSPs as they are now. `offer` is the path that a grant of what the
/// search found would add (`offered_path`), or `None` if it found nothing. The search's own figures play no part.
/// Allocates nothing.
///
/// Answers `Gone` if the peer isn't up in the session in which the ticket was asked for, if it is synchronizing (except
/// for a request), or if an LSP to update isn't delegated any more or awaits a grant or a removal. With an offer that
/// is admissible and within all bounds, answers `Answer` for a request, else `Grant`, or `GivenUp` if there are 16,384
/// paths or the next SRP-ID is still in use. With any other offer, answers `Again`, and `GivenUp` at the fourth try.
/// Without an offer, answers `NoPath`, but `Again` if paths came or went or links were reloaded since the ticket was
/// taken, up to the fourth try.
///
/// A grant leaves no link below zero at its setup priority or a better one, on links that it charges anew. What a
/// search finds is accepted if nothing changed since.
pub fn judge(
    ticket: &Ticket,
    offer: Option<&Path>,
    base: &LspBase,
    book: &Book,
    te: &TeBase,
    view: PeerView,
) -> Verdict
    requires network { books.network_of book.now ≡ network_of te.now }
    requires stands { StandsFor book.now base.now.content.paths }
    ensures verdict { result ≡ verdict ticket.now (option_copied offer.entry) base.now.content te.now view }
    ensures leaves_room { (g : Path) → option_copied offer.entry ≡ Some g → result ≡ Grant
        → LeavesRoom te.now.links base.now.content.paths g ticket.now.constraints.priorities.setup }
    ensures short { (g : Path) → option_copied offer.entry ≡ Some g → result ≡ Answer → length g.links ≤ 64 }
    ensures found_is_accepted { IsFoundNow te.now base.now.content ticket.now (option_copied offer.entry)
        → is_gone base.now.content ticket.now view ≡ false → result ≡ accepted base.now.content ticket.now view }
{
    // only for the proof: a setup priority is at most 7
    let _setup = ticket.constraints.priorities.setup().number();
    verdict_of(ticket, offer, base, book, te, view)
}
