//! What is done with what a session gives.

ghost use Rattle.std.specs.Prelude.{◌≡◌, ◌<◌, [], length, OnOk, OnErr, IfErr};
ghost use Rattle.history_core.specs.declared.fault.Fault.TheVariants.{OutOfMemory};
ghost use Rattle.engine_core.specs.Calls.{newest_reply};
ghost use Rattle.engine_core.specs.Engine.{event_of, on_up, on_wanted, after_report, on_report, on_reports, refused_request, after_request, on_request, on_requests, on_refusal, on_refusals, joining, taking, on_message, on_down, on_input, turns};
ghost use Rattle.engine_core.specs.Deeds.{open_shown};
ghost use Rattle.engine_core.specs.Plans.{Plan};
ghost use Rattle.engine_core.specs.Stores.{Serves};
ghost use Rattle.engine_core.specs.declared.client.Client.{Client};
ghost use Rattle.pcep_session.specs.Ends.{most_turns};

use crate::client::{Client, after_up, next, refuse_report, send};
use crate::requests::{no_path_for, purpose_of, vector_for};
use crate::store::{Store, hand_in, reply};
use history_core::{Event, Fault, Purpose, Reply, Why};
use pcep_messages::{Errors, Message, PathRequest, StateReport};
use pcep_objects::{Capabilities, Plsp};
use pcep_session::{Input, Session};

/// Shows the store the Open of the session's peer.
fn show_open<S: Store>(session: &Session, store: &mut S)
    ensures { S.moves store.old (open_shown session.now.peer) store.new }
{
    if let Some(peer_open) = session.peer_open() {
        store.show_open(peer_open);
    }
}

fn join<S: Store>(
    client: &mut Client,
    peer: u32,
    capabilities: Option<Capabilities>,
    store: &mut S,
) -> Result<(), Fault>
    ensures { (go_on : Client → Plan Client) → Serves result S.moves S.is_full store.old store.new client.old client.new (joining peer capabilities client.old go_on) go_on }
{
    hand_in(store, Event::Up { peer, capabilities })?;
    after_up(client, reply(store))
}

/// Submits the Up of a session, after showing its peer's Open.
fn on_up<S: Store>(
    client: &mut Client,
    peer: u32,
    capabilities: Option<Capabilities>,
    store: &mut S,
) -> Result<(), Fault>
    ensures { (go_on : Client → Plan Client) → Serves result S.moves S.is_full store.old store.new client.old client.new (on_up peer capabilities client.old go_on) go_on }
{
    show_open(&client.session, store);
    join(client, peer, capabilities, store)
}

/// Returns the event of a report: the end of synchronization (RFC 8231 section 5.6), or the report of an LSP.
fn event_of(peer: u32, report: StateReport) -> Event
    ensures { result ≡ event_of peer report }
{
    if report.plsp.number() == 0 && !report.sync && report.ero.as_slice().is_empty() {
        return Event::Marker { peer };
    }
    Event::Report { peer, report }
}

/// Asks for a path, to update the LSP. The store's reply means nothing for the session.
fn on_wanted<S: Store>(client: &Client, peer: u32, plsp: Plsp, store: &mut S) -> Result<(), Fault>
    ensures { (go_on : Client → Plan Client) → Serves result S.moves S.is_full store.old store.new client.now client.now (on_wanted peer plsp client.now go_on) go_on }
{
    let purpose = Purpose::Update { plsp };
    hand_in(store, Event::Ask { peer, purpose })?;
    Ok(())
}

/// Does what the reply to a report means: asks for a path for an LSP that waits for one, and answers a refused report.
#[tactic(auto, unfolding(crate::specs::Engine::after_report))]
fn after_report<S: Store>(
    client: &mut Client,
    peer: u32,
    plsp: Plsp,
    srp: Option<u32>,
    store: &mut S,
) -> Result<(), Fault>
    requires { 0 < length (S.calls store.old) }
    ensures { (go_on : Client → Plan Client) → Serves result S.moves S.is_full store.old store.new client.old client.new (after_report peer plsp srp (newest_reply (S.calls store.old)) client.old go_on) go_on }
{
    match reply(store) {
        Reply::Refused(_) => refuse_report(client, srp),
        Reply::Booked { wants_path } => {
            if *wants_path {
                return on_wanted(client, peer, plsp, store);
            }
            Ok(())
        }
        _ => Ok(()),
    }
}

fn on_report<S: Store>(
    client: &mut Client,
    peer: u32,
    report: StateReport,
    store: &mut S,
) -> Result<(), Fault>
    ensures { (go_on : Client → Plan Client) → Serves result S.moves S.is_full store.old store.new client.old client.new (on_report peer report client.old go_on) go_on }
{
    let plsp = report.plsp;
    let srp = report.srp;
    hand_in(store, event_of(peer, report))?;
    after_report(client, peer, plsp, srp, store)
}

fn on_reports<S: Store>(
    client: &mut Client,
    peer: u32,
    reports: Vec<StateReport>,
    store: &mut S,
) -> Result<(), Fault>
    ensures { (go_on : Client → Plan Client) → Serves result S.moves S.is_full store.old store.new client.old client.new (on_reports peer reports.items client.old go_on) go_on }
{
    for report in reports {
        on_report(client, peer, report, store)?;
    }
    Ok(())
}

/// Submits the peer's refusal of the request of an SRP-ID.
fn on_refusal<S: Store>(client: &Client, peer: u32, srp: u32, store: &mut S) -> Result<(), Fault>
    ensures { (go_on : Client → Plan Client) → Serves result S.moves S.is_full store.old store.new client.now client.now (on_refusal peer srp client.now go_on) go_on }
{
    hand_in(store, Event::Refused { peer, srp })?;
    Ok(())
}

fn on_refusals<S: Store>(
    client: &Client,
    peer: u32,
    srps: Vec<u32>,
    store: &mut S,
) -> Result<(), Fault>
    ensures { (go_on : Client → Plan Client) → Serves result S.moves S.is_full store.old store.new client.now client.now (on_refusals peer srps.items client.now go_on) go_on }
{
    for srp in srps {
        on_refusal(client, peer, srp, store)?;
    }
    Ok(())
}

/// Answers a refused request, if there is an answer that says why.
fn refuse_request(client: &mut Client, request: u32, why: Why) -> Result<(), Fault>
    ensures answered { OnOk result (client.new ≡ refused_request request why client.old) }
    ensures unchanged { OnErr result (client.new ≡ client.old) }
    ensures joined { client.new.joined ≡ client.old.joined }
    ensures only_memory { IfErr result (λ fault. fault ≡ OutOfMemory) }
{
    match vector_for(why) {
        Some(vector) => send(client, &no_path_for(request, vector)),
        None => Ok(()),
    }
}

/// Does what the reply to a path request means: if there can't be a path it is answered at once.
#[tactic(auto, unfolding(crate::specs::Engine::after_request))]
fn after_request<S: Store>(client: &mut Client, request: u32, store: &S) -> Result<(), Fault>
    requires { 0 < length (S.calls store.now) }
    ensures { (go_on : Client → Plan Client) → Serves result S.moves S.is_full store.now store.now client.old client.new (after_request request (newest_reply (S.calls store.now)) client.old go_on) go_on }
{
    match reply(store) {
        Reply::Refused(why) => refuse_request(client, request, *why),
        _ => Ok(()),
    }
}

/// Asks for a path, to answer a request.
fn on_request<S: Store>(
    client: &mut Client,
    peer: u32,
    request: PathRequest,
    store: &mut S,
) -> Result<(), Fault>
    ensures { (go_on : Client → Plan Client) → Serves result S.moves S.is_full store.old store.new client.old client.new (on_request peer request client.old go_on) go_on }
{
    let purpose = purpose_of(&request);
    hand_in(store, Event::Ask { peer, purpose })?;
    after_request(client, request.request, store)
}

fn on_requests<S: Store>(
    client: &mut Client,
    peer: u32,
    requests: Vec<PathRequest>,
    store: &mut S,
) -> Result<(), Fault>
    ensures { (go_on : Client → Plan Client) → Serves result S.moves S.is_full store.old store.new client.old client.new (on_requests peer requests.items client.old go_on) go_on }
{
    for request in requests {
        on_request(client, peer, request, store)?;
    }
    Ok(())
}

fn take_message<S: Store>(
    client: &mut Client,
    peer: u32,
    message: Message,
    store: &mut S,
) -> Result<(), Fault>
    ensures { (go_on : Client → Plan Client) → Serves result S.moves S.is_full store.old store.new client.old client.new (taking peer message client.old go_on) go_on }
{
    match message {
        Message::Report(reports) => on_reports(client, peer, reports.into_vec(), store),
        Message::Request(requests) => on_requests(client, peer, requests.into_vec(), store),
        Message::Error(Errors { srps, .. }) => on_refusals(client, peer, srps.into_vec(), store),
        _ => Ok(()),
    }
}

/// Shows a message that the session delivered, then submits its events.
fn on_message<S: Store>(
    client: &mut Client,
    peer: u32,
    message: Message,
    store: &mut S,
) -> Result<(), Fault>
    ensures { (go_on : Client → Plan Client) → Serves result S.moves S.is_full store.old store.new client.old client.new (on_message peer message client.old go_on) go_on }
{
    store.show_message(&message);
    take_message(client, peer, message, store)
}

/// Submits the Down of a joined peer.
pub(crate) fn on_down<S: Store>(client: &mut Client, peer: u32, store: &mut S) -> Result<(), Fault>
    ensures went_down { (go_on : Client → Plan Client) → Serves result S.moves S.is_full store.old store.new client.old client.new (on_down peer client.old go_on) go_on }
    ensures unchanged { OnErr result (client.new ≡ client.old) }
    ensures nothing_submitted { OnErr result (S.moves store.old [] store.new) }
{
    if client.joined {
        hand_in(store, Event::Down { peer })?;
        client.joined = false;
    }
    Ok(())
}

#[tactic(auto, unfolding(crate::specs::Engine::on_input))]
fn on_input<S: Store>(
    client: &mut Client,
    peer: u32,
    input: Input,
    store: &mut S,
) -> Result<(), Fault>
    ensures { (go_on : Client → Plan Client) → Serves result S.moves S.is_full store.old store.new client.old client.new (on_input peer input client.old go_on) go_on }
{
    match input {
        Input::Up(capabilities) => on_up(client, peer, capabilities, store),
        Input::Message(message) => on_message(client, peer, message, store),
        Input::Down => on_down(client, peer, store),
        Input::Handled => Ok(()),
    }
}

/// Handles all that the session gives, in order.
pub(crate) fn take_turns<S: Store>(
    client: &mut Client,
    peer: u32,
    store: &mut S,
) -> Result<(), Fault>
    ensures { (go_on : Client → Plan Client) → Serves result S.moves S.is_full store.old store.new client.old client.new (turns (most_turns client.old.session) peer client.old go_on) go_on }
{
    for _ in 0..client.session.most_turns() {
        let Some(input) = next(client)? else {
            return Ok(());
        };
        on_input(client, peer, input, store)?;
    }
    Ok(())
}
