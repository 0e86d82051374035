//! What operators are shown: one look after another at the database, each as a table or as JSON. Each look is shown to
//! the operator's own seat, so later looks have seen all that earlier ones had, and all that the operator's lines did.
ghost use Rattle.std.specs.Prelude.{◌≡◌, ◌++◌, [], All, IfOk, OnOk};
ghost use Rattle.seated_store.specs.Seating.{SeatedMoves};
ghost use Rattle.shared_pce.specs.Residuals.{WasLeft};
ghost use Rattle.server_operators.specs.Shows.{bounded, form_of, line_end, AddsPage, IsShown};

use crate::links_look::LinksLook;
use crate::names_look::NamesLook;
use crate::reload_log::ReloadLog;
use asks::Ask;
use history_seats::Brands;
use line_names::Named;
use pce_view::{Form, ServerInfo};
use pced_build::{LOGIC, VERSION};
use script_lines::ViewLine;
use seated_store::Seated;
use server_answers::page_of;
use server_base::RunView;
use server_counts::{Mark, PeerState, ResidualRow};
use server_talk::{Show, Watch};
use shared_pce::{Event, Front};
use std::alloc::{AllocError, Global};
use std::sync::Wait;
use std::time::Clock;
use te_base::LinkValues;

/// Returns the form that a line asks for.
fn form_of(is_json: bool) -> Form
    ensures { result ≡ form_of is_json }
{
    if is_json { Form::Json } else { Form::Table }
}

/// The most steps that a line shows.
const MOST_STEPS: u64 = 4096;

/// Returns the same question, limited to the last 4,096 steps.
fn bounded(ask: Ask) -> Ask
    ensures { result ≡ bounded ask }
{
    match ask {
        Ask::History(last) => Ask::History(last.min(MOST_STEPS)),
        ask => ask,
    }
}

/// Ends the line of a document of JSON.
fn end_line(form: Form, text: &mut Vec<u8>) -> Result<(), AllocError>
    ensures { OnOk result (text.new.items ≡ text.old.items ++ line_end form) }
{
    if form == Form::Json {
        text.push(b'\n')?;
    }
    Ok(())
}

/// Adds a page, with the end of its line.
fn add_text(form: Form, page: Vec<u8>, text: &mut Vec<u8>) -> Result<(), AllocError>
    ensures { OnOk result (text.new.items ≡ text.old.items ++ (page.items ++ line_end form)) }
{
    text.extend_from_slice(&page)?;
    end_line(form, text)
}

/// Adds what one look shows, and returns what the next one asks for.
fn add_page<R: Wait + Clock, B: Brands>(
    run_view: &RunView<'_, R, B>,
    store: &mut Seated<'_, R, B>,
    form: Form,
    info: &ServerInfo<'_>,
    ask: &Ask,
    text: &mut Vec<u8>,
) -> Result<Option<Ask>, AllocError>
    ensures page { IfOk result (λ next. AddsPage B.text form info.now ask.now next store.old.seat.now.seen text.old.items store.new.seat.now.seen text.new.items) }
    ensures same { SeatedMoves B.text store.old.seat store.old.calls.items [] store.new.seat store.new.calls.items }
{
    let page = page_of(run_view, store, form, info, ask)?;
    let next = page.next;
    add_text(form, page.text, text)?;
    Ok(next)
}

/// Shows an ask and its further pages, up to the last. Each page comes from a look that saw no less than the one
/// before.
fn show_pages<R: Wait + Clock, B: Brands>(
    run_view: &RunView<'_, R, B>,
    store: &mut Seated<'_, R, B>,
    form: Form,
    info: &ServerInfo<'_>,
    first: Ask,
) -> Result<Vec<u8>, AllocError>
    ensures shown { IfOk result (λ text. IsShown B.text form info.now store.old.seat.now.seen first text.items store.new.seat.now.seen) }
    ensures same { SeatedMoves B.text store.old.seat store.old.calls.items [] store.new.seat store.new.calls.items }
{
    let mut text = Vec::new(run_view.alloc);
    let mut ask = first;
    for _page in 0..u64::MAX {
        match add_page(run_view, store, form, info, &ask, &mut text)? {
            Some(next) => ask = next,
            None => return Ok(text),
        }
    }
    Err(AllocError)
}

/// Shows what a line asks to see. If memory runs out, the history is rolled for that, and it is tried once more.
fn sure_pages<R: Wait + Clock, B: Brands>(
    run_view: &RunView<'_, R, B>,
    store: &mut Seated<'_, R, B>,
    info: &ServerInfo<'_>,
    line: &ViewLine,
) -> Result<Vec<u8>, AllocError>
    ensures shown { IfOk result (λ text. IsShown B.text (form_of line.now.is_json) info.now store.old.seat.now.seen (bounded line.now.ask) text.items store.new.seat.now.seen) }
    ensures same { SeatedMoves B.text store.old.seat store.old.calls.items [] store.new.seat store.new.calls.items }
{
    let shown = show_pages(
        run_view,
        store,
        form_of(line.is_json),
        info,
        bounded(line.ask),
    );
    match shown {
        Ok(text) => Ok(text),
        Err(AllocError) => {
            run_view.await_memory();
            show_pages(
                run_view,
                store,
                form_of(line.is_json),
                info,
                bounded(line.ask),
            )
        }
    }
}

/// Returns how many steps there were at which moments, if the question needs that.
fn marks_for<R: Wait + Clock, B: Brands>(
    run_view: &RunView<'_, R, B>,
    front: &mut Front<Event, B>,
    ask: &Ask,
) -> Result<Vec<Mark>, AllocError> {
    match ask {
        Ask::Why(_) => run_view.all_marks(front),
        _ => Ok(Vec::new(run_view.alloc)),
    }
}

/// Returns what the last steps that added paths left of their links, if the question needs that.
fn lefts_for<R: Wait + Clock, B: Brands>(
    run_view: &RunView<'_, R, B>,
    ask: &Ask,
) -> Result<Vec<ResidualRow>, AllocError>
    ensures { IfOk result (λ rows. All WasLeft rows.items) }
{
    match ask {
        Ask::Why(_) => run_view.shared.residuals(run_view.rt),
        _ => Ok(Vec::new(run_view.alloc)),
    }
}

/// What the server noted apart from the steps.
#[derive(Drop)]
struct ServerNotes {
    peer_states: Vec<(u32, PeerState)>,
    marks: Vec<Mark>,
    residuals: Vec<ResidualRow>,
}

/// Returns what the server noted that a question needs.
fn notes_for<R: Wait + Clock, B: Brands>(
    run_view: &RunView<'_, R, B>,
    front: &mut Front<Event, B>,
    ask: &Ask,
) -> Result<ServerNotes, AllocError>
    ensures { IfOk result (λ notes. All WasLeft notes.residuals.items) }
{
    Ok(ServerNotes {
        peer_states: run_view.all_peer_states()?,
        marks: marks_for(run_view, front, ask)?,
        residuals: lefts_for(run_view, ask)?,
    })
}

impl<'a, 'c, 's, R: Wait + Clock, B: Brands> Show for ReloadLog<'a, 'c, 's, R, B> {
    ghost use Rattle.std.specs.Prelude.{◌≡◌, All, map};
    ghost use Rattle.history_seats.specs.Past.{database_at};
    ghost use Rattle.line_names.specs.Names.{named_in};
    ghost use Rattle.pce_view.specs.declared.question.ServerInfo.{ServerInfo};
    ghost use Rattle.server_operators.specs.Shows.{bounded, form_of, IsShown};
    ghost use Rattle.shared_pce.specs.Residuals.{WasLeft};
    ghost use Rattle.te_base.specs.Values.{values_in};
    ghost use Rattle.te_snapshot.specs.Left.{all_left};

    ghost has_links = { λ s values left. let d = database_at B.text s.store.seat.now.seen in (values ≡ values_in d.state.te) × (left ≡ all_left d.state.te.links d.state.base.paths) };

    ghost names = { λ s line named. let d = database_at B.text s.store.seat.now.seen in named ≡ named_in d.state.te (map (λ p. p.number) d.state.peers) line };

    ghost shows = { λ old line text new. (info : ServerInfo) × All WasLeft info.residuals.now × IsShown B.text (form_of line.is_json) info old.store.seat.now.seen (bounded line.ask) text new.store.seat.now.seen };

    fn links(&mut self) -> Result<(Vec<LinkValues>, Vec<[i64; 8]>), AllocError> {
        self.store.look(&LinksLook)
    }

    fn named(&mut self, _alloc: Global, line: &str) -> Result<Named, AllocError> {
        self.store.look(&NamesLook { line })
    }

    fn show(&mut self, _alloc: Global, line: &ViewLine) -> Result<Vec<u8>, AllocError> {
        let run_view = self.context.run_view();
        let notes = notes_for(&run_view, &mut self.front, &line.ask)?;
        let info = ServerInfo {
            version: VERSION,
            logic: LOGIC,
            commit: "",
            uptime_ms: run_view.moments.now_ms(),
            peer_states: &notes.peer_states,
            marks: &notes.marks,
            residuals: &notes.residuals,
        };
        sure_pages(&run_view, &mut self.store, &info, line)
    }
}
