//! A session in one line.

ghost use Rattle.std.specs.Prelude.{◌≡◌, ◌++◌, IfOk, OnOk, string_bytes};
ghost use Rattle.engine_core.specs.Engine.{served, hung_up};
ghost use Rattle.engine_core.specs.Performed.{performed};
ghost use Rattle.pce_engine.specs.Talks.{output_text, change_text, left_text, sent_out, talk, talk_of, talked, hung};
ghost use Rattle.script_lines.specs.LineAnswer.{AnswersLine, Leaves};

use engine_core::{Client, hang_up_database, serve_database};
use history_core::Database;
use pcep_session::State;
use script_lines::CommandFault;
use std::alloc::{AllocError, Global};
use std::fmt::Write;

fn add_output(alloc: Global, text: &mut String, peer: u32, output: &[u8]) -> Result<(), AllocError>
    ensures { OnOk result (string_bytes text.new ≡ string_bytes text.old ++ output_text peer output.now) }
{
    if output.is_empty() {
        return Ok(());
    }
    let digits = hex::encode(alloc, output)?;
    write!(text, "out {peer} {digits}\n")
}

fn add_change(text: &mut String, peer: u32, was_up: bool, state: State) -> Result<(), AllocError>
    ensures { OnOk result (string_bytes text.new ≡ string_bytes text.old ++ change_text peer was_up state) }
{
    match state {
        State::Closed => write!(text, "down {peer}\n"),
        State::Up if !was_up => write!(text, "up {peer}\n"),
        _ => Ok(()),
    }
}

/// Takes what a session leaves to be printed, with the bytes that it has to send.
pub(crate) fn take_left_text(
    alloc: Global,
    peer: u32,
    was_up: bool,
    client: &mut Client,
) -> Result<String, AllocError>
    ensures text { IfOk result (λ text. string_bytes text ≡ left_text peer was_up client.old) }
    ensures sent { OnOk result (client.new ≡ sent_out client.old) }
{
    let output = client.session.take_output();
    let mut text = String::new(alloc);
    add_output(alloc, &mut text, peer, &output)?;
    add_change(&mut text, peer, was_up, client.session.state())?;
    Ok(text)
}

fn serve(
    alloc: Global,
    database: &mut Database,
    client: &mut Client,
    peer: u32,
    piece: &[u8],
    now_ms: u64,
) -> Result<(), CommandFault>
    ensures { Leaves result (talk_of (performed (served peer piece.now now_ms client.old) database.old)) (talk client.new database.new) }
{
    serve_database(alloc, database, client, peer, piece, now_ms)?;
    Ok(())
}

/// Serves a session with bytes of its peer, and returns what it leaves to be printed.
#[tactic(auto, unfolding(crate::specs::Talks::talked))]
pub(crate) fn talk(
    alloc: Global,
    database: &mut Database,
    client: &mut Client,
    peer: u32,
    piece: &[u8],
    now_ms: u64,
) -> Result<String, CommandFault>
    ensures { AnswersLine string_bytes result (talked peer piece.now now_ms client.old database.old) (talk client.new database.new) }
{
    let was_up = client.session.state().is_up();
    serve(alloc, database, client, peer, piece, now_ms)?;
    Ok(take_left_text(alloc, peer, was_up, client)?)
}

fn end(
    alloc: Global,
    database: &mut Database,
    client: &mut Client,
    peer: u32,
) -> Result<(), CommandFault>
    ensures { Leaves result (talk_of (performed (hung_up peer client.old) database.old)) (talk client.new database.new) }
{
    hang_up_database(alloc, database, client, peer)?;
    Ok(())
}

/// Ends a session whose transport has ended, and returns what it leaves to be printed.
#[tactic(auto, unfolding(crate::specs::Talks::hung))]
pub(crate) fn hang_up(
    alloc: Global,
    database: &mut Database,
    client: &mut Client,
    peer: u32,
) -> Result<String, CommandFault>
    ensures { AnswersLine string_bytes result (hung peer client.old database.old) (talk client.new database.new) }
{
    let was_up = client.session.state().is_up();
    end(alloc, database, client, peer)?;
    Ok(take_left_text(alloc, peer, was_up, client)?)
}
