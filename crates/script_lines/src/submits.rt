//! The events of a line.

ghost use Rattle.std.specs.Prelude.{◌≡◌, ◌++◌, List, ℕ, OnOk, string_bytes};
ghost use Rattle.script_lines.specs.Submits.{answer, submitted, came_up, up_at_least, reply_line, event_line, reports_answer, report_line};
ghost use Rattle.script_lines.specs.LineAnswer.{line_answer, behind, Gives, AnswersLine, Leaves};

use crate::fault::CommandFault;
use crate::texts::add_reply;
use history_core::{Database, Event, Reply};
use pcep_messages::StateReport;
use pcep_objects::Capabilities;
use sequence::Sequence;
use std::alloc::{AllocError, Global};

#[tactic(auto, unfolding(crate::specs::Submits::submitted))]
pub(crate) fn submit(database: &mut Database, event: Event) -> Result<Reply, CommandFault>
    ensures { Gives (λ reply. answer reply database.new) result (submitted database.old event) }
{
    Ok(database.apply(event)?)
}

#[tactic(auto, unfolding(crate::specs::Submits::came_up))]
fn come_up(database: &mut Database, peer: u32) -> Result<(), CommandFault>
    ensures { Leaves result (came_up database.old peer) database.new }
{
    let capabilities = Some(Capabilities {
        update: true,
        create: true,
    });
    drop(submit(database, Event::Up { peer, capabilities })?);
    drop(submit(database, Event::Marker { peer })?);
    Ok(())
}

/// Brings the peer up, if it isn't.
#[tactic(auto, unfolding(crate::specs::Submits::up_at_least))]
fn come_up_first(database: &mut Database, peer: u32) -> Result<(), CommandFault>
    ensures { Leaves result (up_at_least database.old peer) database.new }
{
    if database.is_up(peer) {
        return Ok(());
    }
    come_up(database, peer)
}

/// Adds a reply on a line.
fn add_reply_line(text: &mut String, reply: &Reply) -> Result<(), AllocError>
    ensures { OnOk result (string_bytes text.new ≡ string_bytes text.old ++ reply_line reply.now) }
{
    add_reply(text, reply)?;
    text.push_str("\n")
}

/// Submits an event, and adds its reply on a line.
#[tactic(auto, unfolding(crate::specs::Submits::event_line))]
fn add_event(database: &mut Database, event: Event, text: &mut String) -> Result<(), CommandFault>
    ensures { Leaves result (behind (string_bytes text.old) (event_line event database.old)) (line_answer (string_bytes text.new) database.new) }
{
    let reply = submit(database, event)?;
    add_reply_line(text, &reply)?;
    Ok(())
}

fn report_each(
    database: &mut Database,
    peer: u32,
    text: &mut String,
    reports: Vec<StateReport>,
) -> Result<(), CommandFault>
    ensures { Leaves result (behind (string_bytes text.old) (reports_answer peer reports.items database.old)) (line_answer (string_bytes text.new) database.new) }
{
    for report in reports {
        add_event(database, Event::Report { peer, report }, text)?;
    }
    Ok(())
}

/// Submits the reports of a peer, which comes up first if it isn't up, and returns their replies.
#[tactic(auto, unfolding(crate::specs::Submits::report_line), using(crate::proofs::LineAnswers::behind_nothing))]
pub fn report_line(
    alloc: Global,
    database: &mut Database,
    peer: u32,
    reports: Sequence<StateReport>,
) -> Result<String, CommandFault>
    ensures { AnswersLine string_bytes result (report_line database.old peer reports) database.new }
{
    come_up_first(database, peer)?;
    let mut text = String::new(alloc);
    report_each(database, peer, &mut text, reports.into_vec())?;
    Ok(text)
}

/// Submits an event, and returns its reply on a line.
#[tactic(auto, using(crate::proofs::LineAnswers::behind_nothing))]
pub fn event_line(
    alloc: Global,
    database: &mut Database,
    event: Event,
) -> Result<String, CommandFault>
    ensures { AnswersLine string_bytes result (event_line event database.old) database.new }
{
    let mut text = String::new(alloc);
    add_event(database, event, &mut text)?;
    Ok(text)
}
