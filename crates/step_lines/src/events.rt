//! The event that words stand for.
ghost use Rattle.std.specs.Prelude.{◌≡◌, Ok, IfOk};
ghost use Rattle.pcep_messages.specs.Messages.{message_in};
ghost use Rattle.pcep_messages.specs.declared.message.Message.TheVariants as messages;
ghost use Rattle.step_core.specs.declared.event.Event.TheVariants as event;
ghost use Rattle.step_lines.specs.EventReading.{capabilities_in, up_in, one_report, report_in, ask_in, commit_in, refused_in, lsp_in, reload_in, of_peer, of_lsp, rare_event_with, event_with, event_in};

use crate::links::{entries_in, offer_in};
use crate::purposes::{plsp_in, purpose_in};
use asks::cut_at_space;
use history_core::Event;
use line_words::{first_address, first_bytes, first_long_number, first_number};
use lsp_words::{Capabilities, Plsp};
use pcep_messages::{Message, MessageFault, StateReport, read_message};
use sequence::Sequence;
use std::alloc::{AllocError, Global};

/// Reads what a peer lets the PCE do, or `-` if it didn't say.
#[tactic(auto, unfolding(crate::specs::EventReading::capabilities_in))]
fn capabilities_in(text: &str) -> Option<Option<Capabilities>>
    ensures { result ≡ capabilities_in text.now }
{
    match text {
        "- " => Some(None),
        "" => Some(Some(Capabilities {
            update: false,
            create: false,
        })),
        "update " => Some(Some(Capabilities {
            update: true,
            create: false,
        })),
        "initiate " => Some(Some(Capabilities {
            update: false,
            create: true,
        })),
        "update initiate " => Some(Some(Capabilities {
            update: true,
            create: true,
        })),
        _ => None,
    }
}

#[tactic(auto, unfolding(crate::specs::EventReading::up_in))]
fn up_in(text: &str) -> Option<Event>
    ensures { result ≡ up_in text.now }
{
    let (peer, rest) = first_address(text)?;
    let capabilities = capabilities_in(rest)?;
    Some(Event::Up { peer, capabilities })
}

/// Takes the report of a message that has one and no more.
fn only(reports: Sequence<StateReport>) -> Option<StateReport>
    ensures { result ≡ one_report (Ok (messages.Report reports)) }
{
    let mut reports = reports.into_vec();
    if reports.len() != 1 {
        return None;
    }
    reports.pop()
}

/// Reads the one report of a message.
fn one_report(alloc: Global, bytes: &[u8]) -> Result<Option<StateReport>, AllocError>
    ensures { IfOk result (λ found. found ≡ one_report (message_in bytes.now)) }
{
    match read_message(alloc, bytes) {
        Ok(Message::Report(reports)) => Ok(only(reports)),
        Ok(_) => Ok(None),
        Err(MessageFault::OutOfMemory) => Err(AllocError),
        Err(_) => Ok(None),
    }
}

#[tactic(auto, unfolding(crate::specs::EventReading::report_in))]
fn report_in(alloc: Global, text: &str) -> Result<Option<Event>, AllocError>
    ensures { IfOk result (λ found. found ≡ report_in text.now) }
{
    let Some((peer, rest)) = first_address(text) else {
        return Ok(None);
    };
    let Some((bytes, _)) = first_bytes(alloc, rest)? else {
        return Ok(None);
    };
    match one_report(alloc, bytes.as_slice())? {
        Some(report) => Ok(Some(Event::Report { peer, report })),
        None => Ok(None),
    }
}

#[tactic(auto, unfolding(crate::specs::EventReading::ask_in))]
fn ask_in(alloc: Global, text: &str) -> Result<Option<Event>, AllocError>
    ensures { IfOk result (λ found. found ≡ ask_in text.now) }
{
    let Some((peer, rest)) = first_address(text) else {
        return Ok(None);
    };
    match purpose_in(alloc, rest)? {
        Some(purpose) => Ok(Some(Event::Ask { peer, purpose })),
        None => Ok(None),
    }
}

#[tactic(auto, unfolding(crate::specs::EventReading::commit_in))]
fn commit_in(alloc: Global, text: &str) -> Result<Option<Event>, AllocError>
    ensures { IfOk result (λ found. found ≡ commit_in text.now) }
{
    let Some((ticket, rest)) = first_long_number(text) else {
        return Ok(None);
    };
    let Some((offer, _)) = cut_at_space(rest) else {
        return Ok(None);
    };
    match offer_in(alloc, offer)? {
        Some(offer) => Ok(Some(Event::Commit { ticket, offer })),
        None => Ok(None),
    }
}

#[tactic(auto, unfolding(crate::specs::EventReading::refused_in))]
fn refused_in(text: &str) -> Option<Event>
    ensures { result ≡ refused_in text.now }
{
    let (peer, rest) = first_address(text)?;
    let (srp, _) = first_number(rest)?;
    Some(Event::Refused { peer, srp })
}

/// Reads a peer, and a PLSP-ID of its own.
#[tactic(auto, unfolding(crate::specs::EventReading::lsp_in))]
fn lsp_in(text: &str) -> Option<(u32, Plsp)>
    ensures { result ≡ lsp_in text.now }
{
    let (peer, rest) = first_address(text)?;
    let plsp = plsp_in(rest)?;
    Some((peer, plsp))
}

#[tactic(auto, unfolding(crate::specs::EventReading::of_lsp))]
fn return_in(text: &str) -> Option<Event>
    ensures { result ≡ of_lsp event.Return text.now }
{
    let (peer, plsp) = lsp_in(text)?;
    Some(Event::Return { peer, plsp })
}

#[tactic(auto, unfolding(crate::specs::EventReading::of_lsp))]
fn delete_in(text: &str) -> Option<Event>
    ensures { result ≡ of_lsp event.Delete text.now }
{
    let (peer, plsp) = lsp_in(text)?;
    Some(Event::Delete { peer, plsp })
}

#[tactic(auto, unfolding(crate::specs::EventReading::of_peer))]
fn marker_in(text: &str) -> Option<Event>
    ensures { result ≡ of_peer event.Marker text.now }
{
    let (peer, _) = first_address(text)?;
    Some(Event::Marker { peer })
}

#[tactic(auto, unfolding(crate::specs::EventReading::of_peer))]
fn down_in(text: &str) -> Option<Event>
    ensures { result ≡ of_peer event.Down text.now }
{
    let (peer, _) = first_address(text)?;
    Some(Event::Down { peer })
}

#[tactic(auto, unfolding(crate::specs::EventReading::of_peer))]
fn expire_in(text: &str) -> Option<Event>
    ensures { result ≡ of_peer event.Expire text.now }
{
    let (peer, _) = first_address(text)?;
    Some(Event::Expire { peer })
}

#[tactic(auto, unfolding(crate::specs::EventReading::of_peer))]
fn drain_in(text: &str) -> Option<Event>
    ensures { result ≡ of_peer event.Drain text.now }
{
    let (peer, _) = first_address(text)?;
    Some(Event::Drain { peer })
}

#[tactic(auto, unfolding(crate::specs::EventReading::reload_in))]
fn reload_in(alloc: Global, text: &str) -> Result<Option<Event>, AllocError>
    ensures { IfOk result (λ found. found ≡ reload_in text.now) }
{
    match entries_in(alloc, text)? {
        Some(links) => Ok(Some(Event::Reload { links })),
        None => Ok(None),
    }
}

/// Reads the events of which there are fewer.
#[tactic(auto, unfolding(crate::specs::EventReading::rare_event_with))]
fn rare_event_with(alloc: Global, word: &str, rest: &str) -> Result<Option<Event>, AllocError>
    ensures { IfOk result (λ found. found ≡ rare_event_with word.now rest.now) }
{
    match word {
        "down" => Ok(down_in(rest)),
        "expire" => Ok(expire_in(rest)),
        "refused" => Ok(refused_in(rest)),
        "return" => Ok(return_in(rest)),
        "delete" => Ok(delete_in(rest)),
        "reload" => reload_in(alloc, rest),
        _ => Ok(None),
    }
}

#[tactic(auto, unfolding(crate::specs::EventReading::event_with))]
fn event_with(alloc: Global, word: &str, rest: &str) -> Result<Option<Event>, AllocError>
    ensures { IfOk result (λ found. found ≡ event_with word.now rest.now) }
{
    match word {
        "report" => report_in(alloc, rest),
        "drain" => Ok(drain_in(rest)),
        "ask" => ask_in(alloc, rest),
        "take" => Ok(Some(Event::Take)),
        "commit" => commit_in(alloc, rest),
        "up" => Ok(up_in(rest)),
        "marker" => Ok(marker_in(rest)),
        _ => rare_event_with(alloc, word, rest),
    }
}

/// Reads the event that the words stand for.
#[tactic(auto, unfolding(crate::specs::EventReading::event_in))]
pub(crate) fn event_in(alloc: Global, text: &str) -> Result<Option<Event>, AllocError>
    ensures { IfOk result (λ found. found ≡ event_in text.now) }
{
    match cut_at_space(text) {
        Some((word, rest)) => event_with(alloc, word, rest),
        None => Ok(None),
    }
}
