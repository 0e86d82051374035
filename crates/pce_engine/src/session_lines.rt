//! The lines that speak for a peer: its session begins, takes bytes, ends.

ghost use Rattle.std.specs.Prelude.{◌≡◌, Ok, None, string_bytes};
ghost use Rattle.pce_engine.specs.SessionLines.{message_line, end_line, open_line, up_line};
ghost use Rattle.pce_engine.specs.Sessions.{session_of, gone_if, placed};
ghost use Rattle.script_lines.specs.LineAnswer.{AnswersLine, Leaves};

use crate::sessions::Sessions;
use crate::standing::Standing;
use crate::talks::{hang_up, take_left_text, talk};
use engine_core::Client;
use script_lines::CommandFault;
use std::alloc::Global;

fn drop_ended(sessions: &mut Sessions, peer: u32, ended: bool)
    ensures { sessions.new ≡ gone_if ended peer sessions.old }
{
    if ended {
        let _ended = sessions.remove(peer);
    }
}

fn place(sessions: &mut Sessions, peer: u32, client: Client) -> Result<(), CommandFault>
    requires { session_of peer sessions.old ≡ None }
    ensures { Leaves result (Ok (placed peer client sessions.old)) sessions.new }
{
    if client.session.state().is_closed() {
        return Ok(());
    }
    sessions.insert(peer, client)?;
    Ok(())
}

/// Takes bytes of a peer. A bad line if it has no open session.
#[tactic(auto, unfolding(crate::specs::SessionLines::message_line))]
pub(crate) fn message_line(
    alloc: Global,
    standing: &mut Standing,
    peer: u32,
    piece: &[u8],
) -> Result<String, CommandFault>
    ensures { AnswersLine string_bytes result (message_line peer piece.now standing.old) standing.new }
{
    let Some(client) = standing.sessions.get_mut(peer) else {
        return Err(CommandFault::BadLine);
    };
    let now_ms = standing.moment_ms;
    let text = talk(alloc, &mut standing.database, client, peer, piece, now_ms)?;
    let ended = client.session.state().is_closed();
    drop_ended(&mut standing.sessions, peer, ended);
    Ok(text)
}

/// Ends the transport of a peer's session. A bad line if it has no open session.
#[tactic(auto, unfolding(crate::specs::SessionLines::end_line))]
pub(crate) fn end_line(
    alloc: Global,
    standing: &mut Standing,
    peer: u32,
) -> Result<String, CommandFault>
    ensures { AnswersLine string_bytes result (end_line peer standing.old) standing.new }
{
    let Some(client) = standing.sessions.get_mut(peer) else {
        return Err(CommandFault::BadLine);
    };
    let text = hang_up(alloc, &mut standing.database, client, peer)?;
    let ended = client.session.state().is_closed();
    drop_ended(&mut standing.sessions, peer, ended);
    Ok(text)
}

/// Begins a session. A bad line if the peer has one already.
#[tactic(auto, unfolding(crate::specs::SessionLines::open_line))]
pub(crate) fn open_line(
    alloc: Global,
    standing: &mut Standing,
    peer: u32,
) -> Result<String, CommandFault>
    ensures { AnswersLine string_bytes result (open_line peer standing.old) standing.new }
{
    if standing.sessions.lives(peer) {
        return Err(CommandFault::BadLine);
    }
    let mut client = Client::new(alloc, standing.moment_ms)?;
    let text = take_left_text(alloc, peer, false, &mut client)?;
    place(&mut standing.sessions, peer, client)?;
    Ok(text)
}

/// The Open and the Keepalive of a router (RFC 5440 sections 6.2 and 6.3): Keepalive 30 s, DeadTimer 120 s,
/// SID 0, and a STATEFUL-PCE-CAPABILITY with U and I.
const ROUTER_OPENING: [u8; 24] = [
    0x20, 0x01, 0x00, 0x14, 0x01, 0x10, 0x00, 0x10, 0x20, 0x1e, 0x78, 0x00, 0x00, 0x10, 0x00, 0x04,
    0x00, 0x00, 0x00, 0x05, 0x20, 0x02, 0x00, 0x04,
];

/// Begins a session, which its peer opens and accepts at once. A bad line if the peer has one already.
#[tactic(auto, unfolding(crate::specs::SessionLines::up_line))]
pub(crate) fn up_line(
    alloc: Global,
    standing: &mut Standing,
    peer: u32,
) -> Result<String, CommandFault>
    ensures { AnswersLine string_bytes result (up_line peer standing.old) standing.new }
{
    if standing.sessions.lives(peer) {
        return Err(CommandFault::BadLine);
    }
    let now_ms = standing.moment_ms;
    let mut client = Client::new(alloc, now_ms)?;
    let text = talk(
        alloc,
        &mut standing.database,
        &mut client,
        peer,
        &ROUTER_OPENING,
        now_ms,
    )?;
    place(&mut standing.sessions, peer, client)?;
    Ok(text)
}
