//! Lines that show something of what is known at a step.
ghost use Rattle.std.specs.Prelude.{IfOk};
ghost use Rattle.replay_commands.specs.Shown.{SeenAs};

use crate::run::Known;
use asks::Ask;
use pce_view::{
    Better, Form, Grants, Heard, History, Link, LinkLine, Links, Lsp, Lsps, Path, Peers, Question,
    Said, ServerInfo, Status, Tickets, Tunnels, Why, Without, answer_text,
};
use pced_build::{LOGIC, VERSION};
use script_lines::{ViewLine, book_text, view_line_in};
use std::alloc::{AllocError, Global};

/// The most pages of an answer: as many as LSPs that may be known.
const MOST_PAGES: u32 = 65_536;

/// A page, and the ask for the next one, if one follows.
#[derive(Drop)]
struct Page {
    text: Vec<u8>,
    next: Option<Ask>,
}

/// Returns what a server notes beside its steps, of which a journal has nothing.
fn surroundings() -> ServerInfo<'static> {
    ServerInfo {
        version: VERSION,
        logic: LOGIC,
        commit: "",
        uptime_ms: 0,
        peer_states: &[],
        marks: &[],
        residuals: &[],
    }
}

/// Looks at the database, and writes what is seen with what routers said of it.
fn page_with<Q: Question>(
    alloc: Global,
    known: &Known<'_>,
    form: Form,
    question: &Q,
) -> Result<Page, AllocError>
where
    Q::Seen: Drop,
    ensures { IfOk result (λ page. SeenAs (Q.sees question.now) (Q.reads question.now) form known.now.database.now page.text.items) }
{
    let seen = question.see(alloc, known.database)?;
    let mut heard = Heard::nothing(alloc);
    question.hear(Said::Words(known.words), &seen, &mut heard)?;
    let text = answer_text(alloc, form, &surroundings(), &heard, question, &seen)?;
    Ok(Page {
        text,
        next: question.next(&seen),
    })
}

/// Writes the page that is asked for.
fn page_of(alloc: Global, known: &Known<'_>, form: Form, ask: Ask) -> Result<Page, AllocError> {
    match ask {
        Ask::Status => page_with(alloc, known, form, &Status),
        Ask::Links => page_with(alloc, known, form, &Links),
        Ask::LinkLine(link) => page_with(alloc, known, form, &LinkLine(link)),
        Ask::Link(link) => page_with(alloc, known, form, &Link(link)),
        Ask::Peers => page_with(alloc, known, form, &Peers),
        Ask::Tickets => page_with(alloc, known, form, &Tickets),
        Ask::Lsps(asked) => page_with(alloc, known, form, &Lsps(asked)),
        Ask::Lsp(lsp) => page_with(alloc, known, form, &Lsp(lsp)),
        Ask::History(last) => page_with(alloc, known, form, &History(last)),
        Ask::Why(lsp) => page_with(alloc, known, form, &Why(lsp)),
        Ask::Better(asked) => page_with(alloc, known, form, &Better(asked)),
        Ask::Without(link) => page_with(alloc, known, form, &Without(link)),
        Ask::Grants(asked) => page_with(alloc, known, form, &Grants(asked)),
        Ask::Tunnels(asked) => page_with(alloc, known, form, &Tunnels(asked)),
        Ask::Path(wanted) => page_with(alloc, known, form, &Path(wanted)),
    }
}

/// Shows all pages from this ask on.
pub(crate) fn shown(
    alloc: Global,
    known: &Known<'_>,
    form: Form,
    first: Ask,
) -> Result<Vec<u8>, AllocError> {
    let mut text = Vec::new(alloc);
    let mut ask = first;
    for _page in 0..MOST_PAGES {
        let Page { text: page, next } = page_of(alloc, known, form, ask)?;
        text.extend_from_slice(&page)?;
        if matches!(form, Form::Json) {
            text.push(b'\n')?;
        }
        match next {
            Some(next) => ask = next,
            None => return Ok(text),
        }
    }
    Ok(text)
}

/// Returns the form in which a line is answered: as JSON if it says so, or all lines are.
fn form_of(line: &ViewLine, is_json: bool) -> Form {
    if line.is_json || is_json {
        Form::Json
    } else {
        Form::Table
    }
}

/// Answers a line; `None` for one that shows nothing.
pub(crate) fn answer(
    alloc: Global,
    known: &Known<'_>,
    line: &str,
    is_json: bool,
) -> Result<Option<Vec<u8>>, AllocError> {
    if line == "book" {
        return Ok(Some(book_text(alloc, known.database)?.into_bytes()));
    }
    match view_line_in(line) {
        Some(view) => Ok(Some(shown(alloc, known, form_of(&view, is_json), view.ask)?)),
        None => Ok(None),
    }
}
