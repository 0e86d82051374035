//! Long messages, given by the numbers of their items and hops.

use crate::written::add_written_message;
use message_words::add_fault;
use pcep_messages::{Answer, Initiate, Message, StateReport, read_message};
use std::alloc::{AllocError, Global};
use std::fmt::Write;

/// How many items a message has, and how many hops their routes have.
#[derive(Clone, Copy)]
struct Counts {
    items: usize,
    hops: usize,
}

fn recorded_in(report: &StateReport) -> usize {
    match &report.rro {
        Some(hops) => hops.as_slice().len(),
        None => 0,
    }
}

fn counts_of_reports(reports: &[StateReport]) -> Counts {
    let mut hops = 0usize;
    for report in reports {
        hops = hops.saturating_add(report.ero.as_slice().len());
        hops = hops.saturating_add(recorded_in(report));
    }
    Counts {
        items: reports.len(),
        hops,
    }
}

fn hops_of_answer(answer: &Answer) -> usize {
    match answer {
        Answer::Found(hops, _) => hops.as_slice().len(),
        Answer::NoPath(_) => 0,
    }
}

fn hops_of_initiate(initiate: &Initiate) -> usize {
    match initiate {
        Initiate::Create(create) => create.ero.as_slice().len(),
        Initiate::Remove { .. } => 0,
    }
}

fn one_item(hops: usize) -> Counts {
    Counts { items: 1, hops }
}

fn counts_of(message: &Message) -> Counts {
    match message {
        Message::Report(reports) => counts_of_reports(reports.as_slice()),
        Message::Request(requests) => Counts {
            items: requests.as_slice().len(),
            hops: 0,
        },
        Message::Error(errors) => Counts {
            items: errors.errors.as_slice().len(),
            hops: 0,
        },
        Message::Reply(reply) => one_item(hops_of_answer(&reply.answer)),
        Message::Update(update) => one_item(update.ero.as_slice().len()),
        Message::Initiate(initiate) => one_item(hops_of_initiate(initiate)),
        _ => one_item(0),
    }
}

/// Adds the counts of a message, and how it is written again.
fn add_counts(
    alloc: Global,
    message: &Message,
    read: &[u8],
    text: &mut String,
) -> Result<(), AllocError> {
    let Counts { items, hops } = counts_of(message);
    write!(text, "{items} items {hops} hops")?;
    add_written_message(alloc, message, read, text)
}

/// Adds the counts of the message of the bytes, or its fault.
pub fn add_count(alloc: Global, bytes: &[u8], text: &mut String) -> Result<(), AllocError> {
    match read_message(alloc, bytes) {
        Ok(message) => add_counts(alloc, &message, bytes, text),
        Err(fault) => add_fault(fault, text),
    }
}
