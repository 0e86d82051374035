//! The calls on a client: its peer's bytes, and the end of the transport.

ghost use Rattle.std.specs.Prelude.{◌≡◌, ◌<◌, true, false, [], length, None, fold, OnErr, OnOk, IfErr};
ghost use Rattle.pcep_session.specs.Calls.{fed};
ghost use Rattle.pcep_session.specs.Ends.{most_turns};
ghost use Rattle.pcep_session.specs.Turns.{is_closed};
ghost use Rattle.engine_core.specs.Calls.{newest_reply};
ghost use Rattle.engine_core.specs.Engine.{client_with, messages_of, sending_one, draining, served_from, served, hung_up};
ghost use Rattle.engine_core.specs.Plans.{Plan, Returns, Reaches};
ghost use Rattle.engine_core.specs.Sent.{SomeSent};
ghost use Rattle.engine_core.specs.Stores.{Serves, ServesOrEnds};
ghost use Rattle.history_core.specs.declared.fault.Fault.TheVariants.{OutOfMemory};
ghost use Rattle.engine_core.specs.declared.client.Client.{Client};

use crate::client::{Client, close, send_each};
use crate::inputs::{on_down, take_turns};
use crate::store::{Store, hand_in, reply};
use history_core::{Event, Fault, Reply};

/// Stores bytes of the peer, and the moment at which they came.
fn feed(client: &mut Client, piece: &[u8], now_ms: u64) -> Result<(), Fault>
    requires { is_closed client.old.session.state ≡ false }
    ensures fed { OnOk result (client.new ≡ client_with (fed piece.now now_ms client.old.session) client.old) }
    ensures unchanged { OnErr result (client.new ≡ client.old) }
    ensures only_memory { IfErr result (λ fault. fault ≡ OutOfMemory) }
{
    match client.session.feed(piece, now_ms) {
        Ok(()) => Ok(()),
        Err(_) => Err(Fault::OutOfMemory),
    }
}

/// Sends the messages of a reply.
fn send_out<S: Store>(client: &mut Client, store: &S) -> Result<(), Fault>
    requires { 0 < length (S.calls store.now) }
    ensures sent { OnOk result (client.new ≡ fold sending_one client.old (messages_of (newest_reply (S.calls store.now)))) }
    ensures some_sent { OnErr result (SomeSent (messages_of (newest_reply (S.calls store.now))) client.old client.new) }
    ensures joined { client.new.joined ≡ client.old.joined }
    ensures only_memory { IfErr result (λ fault. fault ≡ OutOfMemory) }
{
    match reply(store) {
        Reply::Out(messages) => send_each(client, messages.as_slice()),
        _ => Ok(()),
    }
}

/// Sends the messages that wait for a peer whose session is up.
fn drain<S: Store>(client: &mut Client, peer: u32, store: &mut S) -> Result<(), Fault>
    ensures { (go_on : Client → Plan Client) → Serves result S.moves S.is_full store.old store.new client.old client.new (draining peer client.old go_on) go_on }
{
    if !client.session.state().is_up() {
        return Ok(());
    }
    hand_in(store, Event::Drain { peer })?;
    send_out(client, store)
}

/// Handles all that an open session makes of what it holds.
fn serve_open<S: Store>(client: &mut Client, peer: u32, store: &mut S) -> Result<(), Fault>
    ensures { (go_on : Client → Plan Client) → Serves result S.moves S.is_full store.old store.new client.old client.new (served_from peer client.old go_on) go_on }
{
    take_turns(client, peer, store)?;
    drain(client, peer, store)
}

fn serve_fed<S: Store>(
    client: &mut Client,
    peer: u32,
    piece: &[u8],
    now_ms: u64,
    store: &mut S,
) -> Result<(), Fault>
    requires { is_closed client.old.session.state ≡ false }
    ensures { Serves result S.moves S.is_full store.old store.new client.old client.new (Reaches client.old (served_from peer (client_with (fed piece.now now_ms client.old.session) client.old) Returns)) Returns }
{
    feed(client, piece, now_ms)?;
    serve_open(client, peer, store)
}

#[tactic(auto, unfolding(crate::specs::Engine::served))]
fn serve_piece<S: Store>(
    client: &mut Client,
    peer: u32,
    piece: &[u8],
    now_ms: u64,
    store: &mut S,
) -> Result<(), Fault>
    ensures { Serves result S.moves S.is_full store.old store.new client.old client.new (served peer piece.now now_ms client.old) Returns }
{
    if client.session.state().is_closed() {
        return Ok(());
    }
    serve_fed(client, peer, piece, now_ms, store)
}

/// Serves a session with bytes of its peer at a moment, in milliseconds of one clock of the caller's. What the session
/// makes of them is submitted to the store as events of the peer, and their replies are answered in the session's
/// output. Finally, if the session is up, what waits for the peer is put there too. Does nothing on a session that has
/// ended.
///
/// After a fault the session has ended in the state that it had come to, and no Close is sent. The events that were
/// submitted stay, and so does all output up to then. The caller then calls `hang_up`.
pub fn serve<S: Store>(
    client: &mut Client,
    peer: u32,
    piece: &[u8],
    now_ms: u64,
    store: &mut S,
) -> Result<(), Fault>
    ensures served { ServesOrEnds result S.moves S.is_full store.old store.new client.old client.new (served peer piece.now now_ms client.old) }
    ensures closed_after_fault { OnErr result (is_closed client.new.session.state ≡ true) }
{
    let outcome = serve_piece(client, peer, piece, now_ms, store);
    if outcome.is_err() {
        close(client);
    }
    outcome
}

/// Ends the transport: a joined peer goes down, and the session ends. After a fault all is as before.
#[tactic(auto, unfolding(crate::specs::Engine::hung_up))]
pub fn hang_up<S: Store>(client: &mut Client, peer: u32, store: &mut S) -> Result<(), Fault>
    ensures hung_up { Serves result S.moves S.is_full store.old store.new client.old client.new (hung_up peer client.old) Returns }
    ensures unchanged { OnErr result (client.new ≡ client.old) }
    ensures nothing_submitted { OnErr result (S.moves store.old [] store.new) }
{
    on_down(client, peer, store)?;
    close(client);
    Ok(())
}
