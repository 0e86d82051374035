//! A script after its link text.

ghost use Rattle.std.specs.Prelude.{◌≡◌, [], Some, IfOk, string_bytes};
ghost use Rattle.pce_engine.specs.Standing.{at_start, served_in_turn, all_served, tick_line, may_queue, operator_line, obeyed, standing_line, AnswersSearched};
ghost use Rattle.pce_engine.specs.SessionLines.{message_line};
ghost use Rattle.script_lines.specs.Orders.{order_of};
ghost use Rattle.script_lines.specs.LineAnswer.{line_answer, behind, AnswersLine, Leaves};

use crate::session_lines::{end_line, message_line, open_line, up_line};
use crate::sessions::Sessions;
use history_core::{Database, Event};
use script_lines::{
    CommandFault, Order, book_text, event_line, history_text, order_of, report_line, roll_line,
    take_line,
};
use std::alloc::{AllocError, Global};
use te_base::TeBase;

/// The database, the open sessions, and the moment of the script, in milliseconds.
pub(crate) struct Standing {
    pub database: Database,
    pub sessions: Sessions,
    pub moment_ms: u64,
}

/// Drops each part. Written by hand because a derived drop would be proved again for every owner.
impl Drop for Standing {
    fn drop(self) {
        let Standing {
            database,
            sessions,
            moment_ms: _,
        } = self;
        drop(database);
        drop(sessions);
    }
}

fn serve_one(
    alloc: Global,
    standing: &mut Standing,
    peer: u32,
    text: &mut String,
) -> Result<(), CommandFault>
    ensures { Leaves result (behind (string_bytes text.old) (message_line peer [] standing.old)) (line_answer (string_bytes text.new) standing.new) }
{
    let more = message_line(alloc, standing, peer, &[])?;
    text.push_str(&more)?;
    Ok(())
}

fn serve_each(
    alloc: Global,
    standing: &mut Standing,
    peers: &[u32],
    text: &mut String,
) -> Result<(), CommandFault>
    ensures { Leaves result (behind (string_bytes text.old) (served_in_turn peers.now standing.old)) (line_answer (string_bytes text.new) standing.new) }
{
    for peer in peers {
        serve_one(alloc, standing, *peer, text)?;
    }
    Ok(())
}

/// Serves every session with no bytes, and adds what they leave to be printed.
#[tactic(auto, unfolding(crate::specs::Standing::all_served))]
fn serve_all(alloc: Global, standing: &mut Standing, text: &mut String) -> Result<(), CommandFault>
    ensures { Leaves result (behind (string_bytes text.old) (all_served standing.old)) (line_answer (string_bytes text.new) standing.new) }
{
    let peers: Vec<u32> = standing.sessions.peers(alloc)?;
    serve_each(alloc, standing, &peers, text)
}

/// Changes the moment, and serves every session with no bytes.
#[tactic(auto, unfolding(crate::specs::Standing::tick_line), using(script_lines::proofs::LineAnswers::behind_nothing))]
fn tick_line(alloc: Global, standing: &mut Standing, now_ms: u64) -> Result<String, CommandFault>
    ensures { AnswersLine string_bytes result (tick_line now_ms standing.old) standing.new }
{
    standing.moment_ms = now_ms;
    let mut text = String::new(alloc);
    serve_all(alloc, standing, &mut text)?;
    Ok(text)
}

/// Tests whether messages may wait to be sent after this event of an operator.
fn may_queue(event: &Event) -> bool
    ensures { result ≡ may_queue event.now }
{
    match event {
        Event::Commit { .. } | Event::Return { .. } | Event::Delete { .. } => true,
        _ => false,
    }
}

/// Submits an operator's event, and returns its reply as a line. If messages may then wait to be sent, serves every
/// session.
#[tactic(auto, unfolding(crate::specs::Standing::operator_line))]
fn operator_line(
    alloc: Global,
    standing: &mut Standing,
    event: Event,
) -> Result<String, CommandFault>
    ensures { AnswersLine string_bytes result (operator_line event standing.old) standing.new }
{
    let queues = may_queue(&event);
    let mut text = event_line(alloc, &mut standing.database, event)?;
    if queues {
        serve_all(alloc, standing, &mut text)?;
    }
    Ok(text)
}

impl Standing {
    /// Makes a script with no sessions, at moment 0.
    pub(crate) fn new(alloc: Global, te: TeBase) -> Result<Standing, AllocError>
        ensures { IfOk result (λ standing. standing ≡ at_start te) }
    {
        let database = Database::new(alloc, te)?;
        Ok(Standing {
            database,
            sessions: Sessions::new(alloc),
            moment_ms: 0,
        })
    }

    #[tactic(auto, unfolding(crate::specs::Standing::obeyed))]
    fn obey(&mut self, alloc: Global, order: Order) -> Result<String, CommandFault>
        ensures { AnswersSearched string_bytes result (Some order) (λ answer. obeyed answer order self.old) self.old self.new }
    {
        match order {
            Order::Report(peer, reports) => report_line(alloc, &mut self.database, peer, reports),
            Order::Book => Ok(book_text(alloc, &self.database)?),
            Order::History => Ok(history_text(alloc, &self.database)?),
            Order::Open(peer) => open_line(alloc, self, peer),
            Order::Up(peer) => up_line(alloc, self, peer),
            Order::Bytes(peer, piece) => message_line(alloc, self, peer, piece.as_slice()),
            Order::End(peer) => end_line(alloc, self, peer),
            Order::Tick(now_ms) => tick_line(alloc, self, now_ms),
            Order::Submit(event) => operator_line(alloc, self, event),
            Order::Take => take_line(alloc, &mut self.database),
            Order::Roll => roll_line(alloc, &mut self.database),
        }
    }

    /// Takes a line, and returns what it prints, or its fault.
    #[tactic(auto, unfolding(crate::specs::Standing::standing_line))]
    pub(crate) fn line(&mut self, alloc: Global, line: &[u8]) -> Result<String, CommandFault>
        ensures { AnswersSearched string_bytes result (order_of line.now) (λ answer. standing_line answer self.old line.now) self.old self.new }
    {
        match order_of(alloc, line)? {
            None => Err(CommandFault::BadLine),
            Some(order) => self.obey(alloc, order),
        }
    }
}
