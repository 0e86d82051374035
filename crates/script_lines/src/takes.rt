//! The line `take`: a ticket is taken, and its path is searched for.

ghost use Rattle.std.specs.Prelude.{◌≡◌, ◌++◌, List, ℕ, Option, OnOk, codes, string_bytes};
ghost use Rattle.step_core.specs.Searches.{MayAnswer, MayAnswerTo};
ghost use Rattle.script_lines.specs.Takes.{job_line, taken_text, AnswersTaken};

use crate::fault::CommandFault;
use crate::submits::submit;
use crate::texts::{add_answer, add_brief, add_reply};
use history_core::{Brief, Database, Event, Job, Reply};
use std::alloc::{AllocError, Global};

/// Searches for the path of a job, and adds its line.
fn add_job(alloc: Global, text: &mut String, job: &Job) -> Result<(), AllocError>
    ensures { OnOk result ((answer : Option (List ℕ)) × MayAnswer job.now answer × (string_bytes text.new ≡ string_bytes text.old ++ job_line job.now answer)) }
{
    let answer = job.search(alloc)?;
    add_brief(text, Brief::Job(job.ticket.id))?;
    text.push_str(" ")?;
    match &answer {
        Some(links) => add_answer(text, Some(links.as_slice())),
        None => add_answer(text, None),
    }
}

/// Adds the reply to Take. If it is a job, its path is searched for.
fn add_taken(alloc: Global, text: &mut String, reply: &Reply) -> Result<(), AllocError>
    ensures { OnOk result ((answer : Option (List ℕ)) × MayAnswerTo reply.now answer × (string_bytes text.new ≡ string_bytes text.old ++ taken_text answer reply.now)) }
{
    match reply {
        Reply::Job(job) => add_job(alloc, text, job),
        _ => add_reply(text, reply),
    }
}

/// Takes the waiting ticket of the least number, searches for its path, and returns the answer on a line.
#[tactic(auto, unfolding(crate::specs::Takes::take_line))]
pub fn take_line(alloc: Global, database: &mut Database) -> Result<String, CommandFault>
    ensures { AnswersTaken string_bytes result database.old database.new }
{
    let reply = submit(database, Event::Take)?;
    let mut text = String::new(alloc);
    add_taken(alloc, &mut text, &reply)?;
    text.push_str("\n")?;
    Ok(text)
}
