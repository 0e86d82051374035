//! Words for what is counted, as labels have them.
ghost use Rattle.std.specs.Prelude.{◌≡◌};
ghost use Rattle.metrics_text.specs.Words.{message_word, refusal_word, state_label, word_of};

use pce_view::{LspState, state_word};
use server_counts::{Counted, MessageKind};

/// Names a refusal by its number.
fn refusal_word(number: u8) -> &'static str
    ensures { result.now ≡ refusal_word number }
{
    match number {
        1 => "unknown peer",
        2 => "peer up",
        3 => "peer down",
        4 => "unknown LSP",
        5 => "not delegated",
        6 => "pending",
        7 => "no update",
        8 => "no initiation",
        9 => "not created here",
        10 => "too many tickets",
        11 => "too many paths",
        12 => "too many peers",
        13 => "no node owns an end",
        14 => "unknown ticket",
        15 => "ticket not taken",
        16 => "name in use",
        17 => "SRP-ID in use",
        18 => "still synchronizing",
        19 => "bad report",
        20 => "unknown link",
        _ => "other",
    }
}

/// Names a type of messages.
fn message_word(message: MessageKind) -> &'static str
    ensures { result.now ≡ message_word message }
{
    match message {
        MessageKind::Open => "Open",
        MessageKind::Keepalive => "Keepalive",
        MessageKind::Request => "PCReq",
        MessageKind::Reply => "PCRep",
        MessageKind::Notification => "PCNtf",
        MessageKind::Error => "PCErr",
        MessageKind::Close => "Close",
        MessageKind::Report => "PCRpt",
        MessageKind::Update => "PCUpd",
        MessageKind::Initiate => "PCInitiate",
        MessageKind::Other => "other",
    }
}

/// Returns the word that tells what is counted from the others of its metric.
pub(crate) fn word_of(what: Counted) -> &'static str
    ensures { result.now ≡ word_of what }
{
    match what {
        Counted::Step(_, reply) => reply.word(),
        Counted::Refusal(number) => refusal_word(number),
        Counted::Ended(reason) => reason.word(),
        Counted::Received(message) | Counted::Sent(message) => message_word(message),
        Counted::Accepted
        | Counted::Stranger
        | Counted::ErrorSent(..)
        | Counted::ErrorReceived(..)
        | Counted::NoAnswer => "",
    }
}

/// Names a state of LSPs.
pub(crate) fn state_label(state: LspState) -> &'static str
    ensures { result.now ≡ state_label state }
{
    match state_word(state) {
        Some(word) => word,
        None => "unknown",
    }
}
