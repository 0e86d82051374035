//! A page of the answer to a question.
ghost use Rattle.std.specs.Prelude.{IfOk};
ghost use Rattle.pce_view.specs.Questions.{AnswersAs};
ghost use Rattle.pce_view.specs.declared.heard.Heard.{Heard};
ghost use Rattle.server_answers.specs.Pages.{IsPageOf, PageOf};

use crate::observer::Observer;
use asks::Ask;
use history_seats::Brands;
use pce_view::{
    Better, Form, Grants, Heard, History, Link, LinkLine, Links, Lsp, Lsps, Path, Peers, Question,
    Said, ServerInfo, Status, Tickets, Tunnels, Why, Without, answer_text,
};
use server_base::RunView;
use std::alloc::AllocError;
use std::sync::Wait;
use std::time::Clock;

/// A page, and the ask for the next one, if one follows.
#[derive(Drop)]
pub struct Page {
    pub text: Vec<u8>,
    pub next: Option<Ask>,
}

/// Takes over what reports said of the paths that were seen.
fn hear_words<Q: Question, R: Wait + Clock, B: Brands>(
    run_view: &RunView<'_, R, B>,
    question: &Q,
    seen: &Q::Seen,
    heard: &mut Heard,
) -> Result<(), AllocError> {
    let words = run_view.words.lock(run_view.rt);
    question.hear(Said::Words(&words), seen, heard)
}

/// Takes over by what routers refused what was asked of what was seen.
fn hear_errors<Q: Question, R: Wait + Clock, B: Brands>(
    run_view: &RunView<'_, R, B>,
    question: &Q,
    seen: &Q::Seen,
    heard: &mut Heard,
) -> Result<(), AllocError> {
    let errors = run_view.errors.lock(run_view.rt);
    question.hear(Said::Errors(&errors), seen, heard)
}

/// Takes over what routers said of what was seen, and since when they haven't answered. One lock is held at a time.
pub fn hear<Q: Question, R: Wait + Clock, B: Brands>(
    run_view: &RunView<'_, R, B>,
    question: &Q,
    seen: &Q::Seen,
    heard: &mut Heard,
) -> Result<(), AllocError> {
    hear_words(run_view, question, seen, heard)?;
    hear_errors(run_view, question, seen, heard)?;
    let pending = run_view.pending.lock(run_view.rt);
    question.hear(Said::Pending(&pending), seen, heard)
}

/// Writes what was seen, with what routers said of it.
fn written<Q: Question, R: Wait + Clock, B: Brands>(
    run_view: &RunView<'_, R, B>,
    form: Form,
    info: &ServerInfo<'_>,
    question: &Q,
    seen: &Q::Seen,
) -> Result<Vec<u8>, AllocError>
    ensures { IfOk result (λ text. (heard : Heard) × AnswersAs (Q.reads question.now) form info.now heard seen.now text.items) }
{
    let mut heard = Heard::nothing(run_view.alloc);
    hear(run_view, question, seen, &mut heard)?;
    answer_text(run_view.alloc, form, info, &heard, question, seen)
}

/// Looks once, and writes what was seen.
fn shown<Q: Question, R: Wait + Clock, B: Brands, O: Observer<R, B>>(
    run_view: &RunView<'_, R, B>,
    observer: &mut O,
    form: Form,
    info: &ServerInfo<'_>,
    question: &Q,
) -> Result<Page, AllocError>
where
    Q::Seen: Drop,
    ensures looked { O.looked observer.old observer.new }
    ensures page { IfOk result (λ page. PageOf (Q.sees question.now) (Q.reads question.now) (Q.followed_by question.now) form info.now (O.database observer.new) page.next page.text.items) }
{
    let seen = observer.look(run_view, question)?;
    let text = written(run_view, form, info, question, &seen)?;
    Ok(Page {
        text,
        next: question.next(&seen),
    })
}

/// Gives the page that is asked for: what one look sees now.
pub fn page_of<R: Wait + Clock, B: Brands, O: Observer<R, B>>(
    run_view: &RunView<'_, R, B>,
    observer: &mut O,
    form: Form,
    info: &ServerInfo<'_>,
    ask: &Ask,
) -> Result<Page, AllocError>
    ensures looked { O.looked observer.old observer.new }
    ensures page { IfOk result (λ page. IsPageOf form info.now (O.database observer.new) ask.now page.next page.text.items) }
{
    match *ask {
        Ask::Status => shown(run_view, observer, form, info, &Status),
        Ask::Links => shown(run_view, observer, form, info, &Links),
        Ask::LinkLine(link) => shown(run_view, observer, form, info, &LinkLine(link)),
        Ask::Link(link) => shown(run_view, observer, form, info, &Link(link)),
        Ask::Peers => shown(run_view, observer, form, info, &Peers),
        Ask::Tickets => shown(run_view, observer, form, info, &Tickets),
        Ask::Lsps(asked) => shown(run_view, observer, form, info, &Lsps(asked)),
        Ask::Lsp(lsp) => shown(run_view, observer, form, info, &Lsp(lsp)),
        Ask::History(last) => shown(run_view, observer, form, info, &History(last)),
        Ask::Why(lsp) => shown(run_view, observer, form, info, &Why(lsp)),
        Ask::Better(asked) => shown(run_view, observer, form, info, &Better(asked)),
        Ask::Without(link) => shown(run_view, observer, form, info, &Without(link)),
        Ask::Grants(asked) => shown(run_view, observer, form, info, &Grants(asked)),
        Ask::Tunnels(asked) => shown(run_view, observer, form, info, &Tunnels(asked)),
        Ask::Path(wanted) => shown(run_view, observer, form, info, &Path(wanted)),
    }
}
