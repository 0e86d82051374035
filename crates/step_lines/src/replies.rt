//! The words of replies, and the replies that words stand for.
ghost use Rattle.std.specs.Prelude.{◌≡◌, ◌++◌, option_map, OnOk, string_bytes};
ghost use Rattle.history_core.specs.declared.step.Brief.TheVariants as brief;
ghost use Rattle.asks.specs.Words.{number_in, long_number_in};
ghost use Rattle.step_lines.specs.Replies.{ends_text, why_text, booked_text, reply_text};
ghost use Rattle.step_lines.specs.ReplyReading.{unknown_node_in, later_why_in, why_in, long_reply_with, long_reply_in, reply_in};

use asks::{cut_at_space, long_number_in, number_in};
use history_core::{Brief, Why};
use lsp_base::Ends;
use std::alloc::AllocError;
use std::fmt::Write;

// ---- words of replies

fn ends_text(ends: Ends) -> &'static str
    ensures { result.now ≡ ends_text ends }
{
    match ends {
        Ends::Source => "13 source",
        Ends::Destination => "13 destination",
        Ends::Both => "13 both",
    }
}

fn why_text(why: Why) -> &'static str
    ensures { result.now ≡ why_text why }
{
    match why {
        Why::UnknownPeer => "1",
        Why::PeerUp => "2",
        Why::PeerDown => "3",
        Why::UnknownLsp => "4",
        Why::NotDelegated => "5",
        Why::Pending => "6",
        Why::NoUpdate => "7",
        Why::NoInitiate => "8",
        Why::NotCreatedHere => "9",
        Why::TooManyTickets => "10",
        Why::TooManyPaths => "11",
        Why::TooManyPeers => "12",
        Why::UnknownNode(ends) => ends_text(ends),
        Why::UnknownTicket => "14",
        Why::NotTaken => "15",
        Why::NameInUse => "16",
        Why::SrpInUse => "17",
        Why::Syncing => "18",
        Why::BadReport => "19",
        Why::UnknownLink => "20",
    }
}

fn booked_text(wants_path: bool) -> &'static str
    ensures { result.now ≡ booked_text wants_path }
{
    if wants_path { "booked wants" } else { "booked" }
}

fn add_refusal(text: &mut String, why: Why) -> Result<(), AllocError>
    ensures { OnOk result (string_bytes text.new ≡ string_bytes text.old ++ reply_text (brief.Refused why)) }
{
    text.push_str("refused ")?;
    text.push_str(why_text(why))
}

/// Adds the words of a reply, of which this is kept.
pub fn add_reply(text: &mut String, brief: Brief) -> Result<(), AllocError>
    ensures { OnOk result (string_bytes text.new ≡ string_bytes text.old ++ reply_text brief) }
{
    match brief {
        Brief::Done => text.push_str("done"),
        Brief::Booked { wants_path } => text.push_str(booked_text(wants_path)),
        Brief::Asked(ticket) => write!(text, "asked {ticket}"),
        Brief::Job(ticket) => write!(text, "job {ticket}"),
        Brief::Idle => text.push_str("idle"),
        Brief::Granted(srp) => write!(text, "granted {srp}"),
        Brief::Answered => text.push_str("answered"),
        Brief::Again => text.push_str("again"),
        Brief::NoPath => text.push_str("nopath"),
        Brief::GivenUp => text.push_str("givenup"),
        Brief::Gone => text.push_str("gone"),
        Brief::Removing(srp) => write!(text, "removing {srp}"),
        Brief::Out { messages } => write!(text, "out {messages}"),
        Brief::Refused(why) => add_refusal(text, why),
    }
}

// ---- replies of words

fn unknown_node_in(words: &str) -> Option<Why>
    ensures { result ≡ unknown_node_in words.now }
{
    match words {
        "13 source" => Some(Why::UnknownNode(Ends::Source)),
        "13 destination" => Some(Why::UnknownNode(Ends::Destination)),
        "13 both" => Some(Why::UnknownNode(Ends::Both)),
        _ => None,
    }
}

/// Reads the refusals from the eleventh on.
fn later_why_in(words: &str) -> Option<Why>
    ensures { result ≡ later_why_in words.now }
{
    match words {
        "11" => Some(Why::TooManyPaths),
        "12" => Some(Why::TooManyPeers),
        "14" => Some(Why::UnknownTicket),
        "15" => Some(Why::NotTaken),
        "16" => Some(Why::NameInUse),
        "17" => Some(Why::SrpInUse),
        "18" => Some(Why::Syncing),
        "19" => Some(Why::BadReport),
        "20" => Some(Why::UnknownLink),
        _ => unknown_node_in(words),
    }
}

#[tactic(auto, unfolding(crate::specs::ReplyReading::why_in))]
fn why_in(words: &str) -> Option<Why>
    ensures { result ≡ why_in words.now }
{
    match words {
        "1" => Some(Why::UnknownPeer),
        "2" => Some(Why::PeerUp),
        "3" => Some(Why::PeerDown),
        "4" => Some(Why::UnknownLsp),
        "5" => Some(Why::NotDelegated),
        "6" => Some(Why::Pending),
        "7" => Some(Why::NoUpdate),
        "8" => Some(Why::NoInitiate),
        "9" => Some(Why::NotCreatedHere),
        "10" => Some(Why::TooManyTickets),
        _ => later_why_in(words),
    }
}

fn messages_in(word: &str) -> Option<Brief>
    ensures { result ≡ option_map brief.Out (long_number_in word.now) }
{
    match long_number_in(word) {
        Some(messages) => Some(Brief::Out { messages }),
        None => None,
    }
}

/// Reads a reply of several words.
#[tactic(auto, unfolding(crate::specs::ReplyReading::long_reply_with))]
fn long_reply_with(word: &str, rest: &str) -> Option<Brief>
    ensures { result ≡ long_reply_with word.now rest.now }
{
    match word {
        "asked" => long_number_in(rest).map(|ticket| Brief::Asked(ticket)),
        "job" => long_number_in(rest).map(|ticket| Brief::Job(ticket)),
        "granted" => number_in(rest).map(|srp| Brief::Granted(srp)),
        "removing" => number_in(rest).map(|srp| Brief::Removing(srp)),
        "out" => messages_in(rest),
        "refused" => why_in(rest).map(|why| Brief::Refused(why)),
        _ => None,
    }
}

#[tactic(auto, unfolding(crate::specs::ReplyReading::long_reply_in))]
fn long_reply_in(text: &str) -> Option<Brief>
    ensures { result ≡ long_reply_in text.now }
{
    match cut_at_space(text) {
        Some((word, rest)) => long_reply_with(word, rest),
        None => None,
    }
}

/// Reads what is kept of the reply that the words stand for.
#[tactic(auto, unfolding(crate::specs::ReplyReading::reply_in))]
pub(crate) fn reply_in(text: &str) -> Option<Brief>
    ensures { result ≡ reply_in text.now }
{
    match text {
        "done" => Some(Brief::Done),
        "booked" => Some(Brief::Booked { wants_path: false }),
        "booked wants" => Some(Brief::Booked { wants_path: true }),
        "idle" => Some(Brief::Idle),
        "answered" => Some(Brief::Answered),
        "again" => Some(Brief::Again),
        "nopath" => Some(Brief::NoPath),
        "givenup" => Some(Brief::GivenUp),
        "gone" => Some(Brief::Gone),
        _ => long_reply_in(text),
    }
}
