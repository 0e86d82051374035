//! What words ask a path for.
ghost use Rattle.std.specs.Prelude.{◌≡◌, Ok, option_map, IfOk};
ghost use Rattle.commit_core.specs.declared.ticket.Purpose.TheVariants as purpose;
ghost use Rattle.pcep_messages.specs.Messages.{message_in};
ghost use Rattle.pcep_messages.specs.declared.message.Message.TheVariants as messages;
ghost use Rattle.step_lines.specs.EventReading.{one_request, plsp_in, initiate_in, answer_in, purpose_with, purpose_in};

use crate::requests::purpose_of;
use crate::wanted::{bound_by, wanted_in};
use asks::cut_at_space;
use history_core::{LspName, Purpose};
use line_words::{first_bytes, first_plsp};
use lsp_words::Plsp;
use pcep_messages::{Message, MessageFault, PathRequest, read_message};
use sequence::Sequence;
use std::alloc::{AllocError, Global};

/// Reads a PLSP-ID, and nothing after it.
#[tactic(auto, unfolding(crate::specs::EventReading::plsp_in))]
pub(crate) fn plsp_in(text: &str) -> Option<Plsp>
    ensures { result ≡ plsp_in text.now }
{
    let Some((plsp, _)) = first_plsp(text) else {
        return None;
    };
    Some(plsp)
}

fn update_in(text: &str) -> Option<Purpose>
    ensures { result ≡ option_map purpose.Update (plsp_in text.now) }
{
    match plsp_in(text) {
        Some(plsp) => Some(Purpose::Update { plsp }),
        None => None,
    }
}

/// Reads a name and what is asked of the path.
#[tactic(auto, unfolding(crate::specs::EventReading::initiate_in))]
fn initiate_in(alloc: Global, text: &str) -> Result<Option<Purpose>, AllocError>
    ensures { IfOk result (λ found. found ≡ initiate_in text.now) }
{
    let Some((bytes, rest)) = first_bytes(alloc, text)? else {
        return Ok(None);
    };
    let Some(wanted) = wanted_in(rest) else {
        return Ok(None);
    };
    match LspName::new(bytes) {
        Some(name) => Ok(Some(Purpose::Initiate {
            name,
            constraints: bound_by(wanted),
        })),
        None => Ok(None),
    }
}

/// Takes the request of a message that has one and no more.
fn only(requests: &[PathRequest]) -> Option<PathRequest>
    ensures { result ≡ one_request (Ok (messages.Request requests.now)) }
{
    match requests {
        [request] => Some(*request),
        _ => None,
    }
}

/// Reads the one request of a message.
fn one_request(alloc: Global, bytes: &[u8]) -> Result<Option<PathRequest>, AllocError>
    ensures { IfOk result (λ found. found ≡ one_request (message_in bytes.now)) }
{
    match read_message(alloc, bytes) {
        Ok(Message::Request(requests)) => Ok(only(requests.as_slice())),
        Ok(_) => Ok(None),
        Err(MessageFault::OutOfMemory) => Err(AllocError),
        Err(_) => Ok(None),
    }
}

/// Reads what is asked to answer the request of a PCReq.
#[tactic(auto, unfolding(crate::specs::EventReading::answer_in))]
fn answer_in(alloc: Global, text: &str) -> Result<Option<Purpose>, AllocError>
    ensures { IfOk result (λ found. found ≡ answer_in text.now) }
{
    let Some((bytes, _)) = first_bytes(alloc, text)? else {
        return Ok(None);
    };
    match one_request(alloc, bytes.as_slice())? {
        Some(request) => Ok(Some(purpose_of(&request))),
        None => Ok(None),
    }
}

#[tactic(auto, unfolding(crate::specs::EventReading::purpose_with))]
fn purpose_with(alloc: Global, word: &str, rest: &str) -> Result<Option<Purpose>, AllocError>
    ensures { IfOk result (λ found. found ≡ purpose_with word.now rest.now) }
{
    match word {
        "update" => Ok(update_in(rest)),
        "initiate" => initiate_in(alloc, rest),
        "answer" => answer_in(alloc, rest),
        _ => Ok(None),
    }
}

/// Reads what a path is asked for.
#[tactic(auto, unfolding(crate::specs::EventReading::purpose_in))]
pub(crate) fn purpose_in(alloc: Global, text: &str) -> Result<Option<Purpose>, AllocError>
    ensures { IfOk result (λ found. found ≡ purpose_in text.now) }
{
    match cut_at_space(text) {
        Some((word, rest)) => purpose_with(alloc, word, rest),
        None => Ok(None),
    }
}
