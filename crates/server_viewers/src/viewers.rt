//! Viewers: documents and metrics of the run, over HTTP.
ghost use Rattle.std.specs.Prelude.{ℕ, List, IfOk, OnOk};
ghost use mathlib.Core.List.{IsPrefix};
ghost use Rattle.http_server.specs.Response.{IsBlank, IsResponse};
ghost use Rattle.http_views.specs.Answers.{json_kind, metrics_kind, text_fields};
ghost use Rattle.server_viewers.specs.Views.{IsDocument, IsMetrics, IsNumbers};

use crate::process::process_of;
use crate::states::all_states;
use asks::Ask;
use database_looks::NumbersLook;
use history_seats::Brands;
use http_server::Response;
use http_views::{PAGE, ViewService, ViewSource, give_document, give_metrics, serve_views};
use metrics_text::{Process, metrics_text};
use pce_view::{Form, ServerInfo, ShownState};
use pced_build::{LOGIC, VERSION, commit};
use server_answers::page_of;
use server_base::{Context, RunView};
use server_counts::{Counters, PeerState};
use server_log::LogLine;
use server_talk::Watch;
use shared_pce::{Event, Front};
use std::alloc::AllocError;
use std::hash::RandomState;
use std::marker::Model;
use std::net::{Net, TcpListener, TcpStream};
use std::snapshot::Snapshot;
use std::sync::Wait;
use std::time::Clock;

/// Where viewers connect.
#[derive(Drop)]
pub struct ViewerListener<'a> {
    pub listener: &'a TcpListener,
    /// Secret keys for the maps of a request's fields.
    pub keys: RandomState,
    /// The JSON document that says where on a map the network's nodes are.
    pub places: &'a [u8],
    /// The name by which viewers may ask for the server, besides its address. It may be empty.
    pub name: &'a str,
    /// Where what the system says about the process is read.
    pub files: &'a HostRuntime,
}

/// Writes the JSON document of what one look sees.
fn document_text<R: Wait + Clock, B: Brands>(
    run_view: &RunView<'_, R, B>,
    front: &mut Front<Event, B>,
    info: &ServerInfo<'_>,
    ask: &Ask,
) -> Result<Vec<u8>, AllocError>
    ensures begins { IsPrefix front.old front.new }
    ensures text { IfOk result (λ text. IsDocument B.text front.new ask.now text.items) }
{
    Ok(page_of(run_view, front, Form::Json, info, ask)?.text)
}

/// Writes the same. If memory runs out, the history is rolled for that, and it is tried once more.
fn sure_text<R: Wait + Clock, B: Brands>(
    run_view: &RunView<'_, R, B>,
    front: &mut Front<Event, B>,
    info: &ServerInfo<'_>,
    ask: &Ask,
) -> Result<Vec<u8>, AllocError>
    ensures begins { IsPrefix front.old front.new }
    ensures text { IfOk result (λ text. IsDocument B.text front.new ask.now text.items) }
{
    match document_text(run_view, front, info, ask) {
        Ok(text) => Ok(text),
        Err(AllocError) => {
            run_view.await_memory();
            document_text(run_view, front, info, ask)
        }
    }
}

/// Writes the metrics of what one look sees, of what was counted, and of the states in which LSPs are shown.
fn counted_text<R: Wait + Clock, B: Brands>(
    run_view: &RunView<'_, R, B>,
    front: &mut Front<Event, B>,
    info: &ServerInfo<'_>,
    counters: &Counters,
    process: Process,
    states: &[ShownState],
) -> Result<Vec<u8>, AllocError>
    ensures begins { IsPrefix front.old front.new }
    ensures text { IfOk result (λ text. IsNumbers B.text front.new states.now text.items) }
{
    let numbers = run_view.look(front, &NumbersLook)?;
    metrics_text(run_view.alloc, info, &numbers, counters, process, states)
}

/// Writes the metrics: the states in which all LSPs are shown, and then the rest from one look.
fn numbers_text<R: Wait + Clock, B: Brands>(
    run_view: &RunView<'_, R, B>,
    front: &mut Front<Event, B>,
    info: &ServerInfo<'_>,
    counters: &Counters,
    process: Process,
) -> Result<Vec<u8>, AllocError>
    ensures begins { IsPrefix front.old front.new }
    ensures text { IfOk result (λ text. IsMetrics B.text front.old front.new text.items) }
{
    let states = all_states(run_view, front)?;
    counted_text(run_view, front, info, counters, process, &states)
}

/// Answers with the document of one look.
fn answer_document<R: Wait + Clock, B: Brands>(
    run_view: &RunView<'_, R, B>,
    front: &mut Front<Event, B>,
    peer_states: &[(u32, PeerState)],
    ask: &Ask,
    response: &mut Response,
) -> Result<(), AllocError>
    requires { IsBlank response.old }
    ensures begins { IsPrefix front.old front.new }
    ensures answer { OnOk result ((text : List ℕ) × IsDocument B.text front.new ask.now text × IsResponse 200 (text_fields json_kind) text response.new) }
{
    let info = ServerInfo {
        version: VERSION,
        logic: LOGIC,
        commit: "",
        uptime_ms: run_view.moments.now_ms(),
        peer_states,
        marks: &[],
        residuals: &[],
    };
    let text = sure_text(run_view, front, &info, ask)?;
    give_document(response, text)
}

/// Answers with the metrics.
fn answer_metrics<R: Wait + Clock, B: Brands>(
    run_view: &RunView<'_, R, B>,
    front: &mut Front<Event, B>,
    files: &HostRuntime,
    response: &mut Response,
) -> Result<(), AllocError>
    requires { IsBlank response.old }
    ensures begins { IsPrefix front.old front.new }
    ensures answer { OnOk result ((text : List ℕ) × IsMetrics B.text front.old front.new text × IsResponse 200 (text_fields metrics_kind) text response.new) }
{
    let commit = commit(files);
    let info = ServerInfo {
        version: VERSION,
        logic: LOGIC,
        commit: &commit,
        uptime_ms: run_view.moments.now_ms(),
        peer_states: &[],
        marks: &[],
        residuals: &[],
    };
    let counters = *run_view.counters.lock(run_view.rt);
    let process = process_of(files, run_view.shared.journal_steps());
    let text = numbers_text(run_view, front, &info, &counters, process)?;
    give_metrics(response, text)
}

/// What viewers see. Each document comes from one look; the metrics come from one look, after others for the states of
/// LSPs. All looks are shown to one front. A contract sees what that front had seen when viewers were last answered; an
/// answer that runs out of memory shows nothing.
#[derive(Drop)]
pub(crate) struct Views<'a, 'c, 'f, R: Clock, B: Brands> {
    run_view: &'a RunView<'c, R, B>,
    files: &'f HostRuntime,
    front: Front<Event, B>,
    shown: Snapshot<Front<Event, B>>,
}

impl<'a, 'c, 'f, R: Clock, B: Brands> Model for Views<'a, 'c, 'f, R, B> {
    ghost use Rattle.std.specs.Prelude.{List};
    ghost use mathlib.Core.List.{IsPrefix};
    ghost use Rattle.history_tokens.specs.declared.rule.Happening.{Happening};
    ghost use Rattle.step_core.specs.declared.event.Event.{Event};

    ghost Value = { List (Happening Event) };

    ghost view = { λ v. v.shown.value };

    ghost invariant = { λ v. IsPrefix v.shown.value v.front };
}

impl<'a, 'c, 'f, R: Wait + Clock, B: Brands> Views<'a, 'c, 'f, R, B> {
    /// Makes the views of what is seen from now on.
    fn new(run_view: &'a RunView<'c, R, B>, files: &'f HostRuntime) -> Views<'a, 'c, 'f, R, B> {
        let front = run_view.front();
        let shown = Snapshot::of(&front);
        Views {
            run_view,
            files,
            front,
            shown,
        }
    }
}

impl<'a, 'c, 'f, R: Wait + Clock, B: Brands> ViewSource for Views<'a, 'c, 'f, R, B> {
    ghost use mathlib.Core.List.{IsPrefix};
    ghost use Rattle.server_viewers.specs.Views.{IsDocument, IsMetrics};

    ghost is_document = { λ old ask text new. IsPrefix old new × IsDocument B.text new ask text };

    ghost is_metrics = { λ old text new. IsPrefix old new × IsMetrics B.text old new text };

    fn document(&mut self, ask: &Ask, response: &mut Response) -> Result<(), AllocError> {
        let peer_states = self.run_view.all_peer_states()?;
        answer_document(self.run_view, &mut self.front, &peer_states, ask, response)?;
        self.shown = Snapshot::of(&self.front);
        Ok(())
    }

    fn metrics(&mut self, response: &mut Response) -> Result<(), AllocError> {
        answer_metrics(self.run_view, &mut self.front, self.files, response)?;
        self.shown = Snapshot::of(&self.front);
        Ok(())
    }
}

/// Tells until when viewers are served.
#[derive(Drop)]
struct Serving<'a, 'c, R: Clock, B: Brands> {
    run_view: &'a RunView<'c, R, B>,
}

impl<'a, 'c, R: Wait + Clock, B: Brands> http_views::Watch for Serving<'a, 'c, R, B> {
    fn now_ms(&self) -> u64 {
        self.run_view.moments.now_ms()
    }

    fn is_over(&self) -> bool {
        self.run_view.shared.is_over()
    }
}

/// Runs the thread that serves viewers until the run is over. If it can't, that is logged, and the run goes on.
pub fn show_views<R: Wait + Clock + Net<Listener = TcpListener, Stream = TcpStream>, B: Brands>(
    context: &Context<'_, R, B>,
    at: &ViewerListener<'_>,
) {
    let run_view = context.run_view();
    let mut service = ViewService {
        alloc: context.alloc,
        source: Views::new(&run_view, at.files),
        name: at.name,
        page: PAGE,
        places: at.places,
    };
    let served = serve_views(
        context.rt,
        context.alloc,
        at.keys,
        at.listener,
        &mut service,
        &Serving {
            run_view: &run_view,
        },
    );
    if served.is_err() {
        context.say(LogLine::ViewersGone);
    }
}
