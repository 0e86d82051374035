//! Messages: a line for the kind, and one for each object that counts.

ghost use Rattle.message_words.specs.Fields.{Adds};
ghost use Rattle.message_words.specs.Messages.{cost_line, found_cost, answer_words, rp_lines, srp_lines, error_line, error_lines, errors_words, reply_words, opening_words, close_line, unknown_words, words_of};

use crate::asking::{add_initiate, add_update};
use crate::fields::add_vector;
use crate::lines::{add_ero_line, add_rp_line, add_srp_line};
use crate::objects::{add_error, add_open};
use crate::reports::add_reports;
use crate::requests::add_requests;
use pcep_messages::{Answer, Cost, Errors, Message, PathReply};
use pcep_objects::{Open, PcepError};
use std::alloc::{AllocError, Global};
use std::fmt::Write;

fn add_cost_line(cost: Cost, text: &mut String) -> Result<(), AllocError>
    ensures { Adds result text.old text.new (cost_line cost) }
{
    let (metric_type, value) = (cost.metric_type, cost.value.value());
    write!(text, "\n  METRIC type {metric_type} value {value}")
}

fn add_cost(cost: Option<Cost>, text: &mut String) -> Result<(), AllocError>
    ensures { Adds result text.old text.new (found_cost cost) }
{
    match cost {
        Some(cost) => add_cost_line(cost, text),
        None => Ok(()),
    }
}

/// Adds the path of a reply, or why there is none.
fn add_answer(alloc: Global, answer: &Answer, text: &mut String) -> Result<(), AllocError>
    ensures { Adds result text.old text.new (answer_words answer.now) }
{
    match answer {
        Answer::Found(hops, cost) => {
            add_ero_line(alloc, hops.as_slice(), text)?;
            add_cost(*cost, text)
        }
        Answer::NoPath(vector) => {
            text.push_str("\n  NO-PATH")?;
            add_vector(*vector, text)
        }
    }
}

fn add_reply(alloc: Global, reply: &PathReply, text: &mut String) -> Result<(), AllocError>
    ensures { Adds result text.old text.new (reply_words reply.now) }
{
    text.push_str("PCRep")?;
    add_rp_line(reply.request, text)?;
    add_answer(alloc, &reply.answer, text)
}

fn add_each_request(ids: &[u32], text: &mut String) -> Result<(), AllocError>
    ensures { Adds result text.old text.new (rp_lines ids.now) }
{
    for id in ids {
        add_rp_line(*id, text)?;
    }
    Ok(())
}

fn add_each_srp(ids: &[u32], text: &mut String) -> Result<(), AllocError>
    ensures { Adds result text.old text.new (srp_lines ids.now) }
{
    for id in ids {
        add_srp_line(*id, text)?;
    }
    Ok(())
}

fn add_error_line(error: &PcepError, text: &mut String) -> Result<(), AllocError>
    ensures { Adds result text.old text.new (error_line error.now) }
{
    text.push_str("\n  ")?;
    add_error(error, text)
}

fn add_each_error(errors: &[PcepError], text: &mut String) -> Result<(), AllocError>
    ensures { Adds result text.old text.new (error_lines errors.now) }
{
    for error in errors {
        add_error_line(error, text)?;
    }
    Ok(())
}

fn add_errors(errors: &Errors, text: &mut String) -> Result<(), AllocError>
    ensures { Adds result text.old text.new (errors_words errors.now) }
{
    text.push_str("PCErr")?;
    add_each_request(errors.requests.as_slice(), text)?;
    add_each_srp(errors.srps.as_slice(), text)?;
    add_each_error(errors.errors.as_slice(), text)
}

fn add_opening(opening: &Open, text: &mut String) -> Result<(), AllocError>
    ensures { Adds result text.old text.new (opening_words opening.now) }
{
    text.push_str("Open\n  ")?;
    add_open(opening, text)
}

fn add_closing(reason: u8, text: &mut String) -> Result<(), AllocError>
    ensures { Adds result text.old text.new (close_line reason) }
{
    write!(text, "Close\n  CLOSE reason {reason}")
}

fn add_unknown(kind: u8, text: &mut String) -> Result<(), AllocError>
    ensures { Adds result text.old text.new (unknown_words kind) }
{
    write!(text, "message of type {kind}")
}

/// Adds a message's lines, the last without a line break.
pub fn add_message(alloc: Global, message: &Message, text: &mut String) -> Result<(), AllocError>
    ensures { Adds result text.old text.new (words_of message.now) }
{
    match message {
        Message::Opening(opening) => add_opening(opening, text),
        Message::Keepalive => text.push_str("Keepalive"),
        Message::Request(requests) => add_requests(alloc, requests.as_slice(), text),
        Message::Reply(reply) => add_reply(alloc, reply, text),
        Message::Notify => text.push_str("PCNtf"),
        Message::Error(errors) => add_errors(errors, text),
        Message::Close(reason) => add_closing(*reason, text),
        Message::Report(reports) => add_reports(alloc, reports.as_slice(), text),
        Message::Update(update) => add_update(alloc, update, text),
        Message::Initiate(initiate) => add_initiate(alloc, initiate, text),
        Message::Unknown(kind) => add_unknown(*kind, text),
    }
}
