//! What a line of a server's operator asks for.
ghost use Rattle.std.specs.Prelude.{◌≡◌, IfOk, IfErr, IsSome, option_map};
ghost use Rattle.server_talk.specs.Naming.{if_named, IsNamedText};
ghost use Rattle.server_talk.specs.Requests.{bare, explained_in, request_in, request_of};

use asks::cut_at_space;
use engine_core::Event;
use line_names::has_names;
use script_lines::{ViewLine, operator_event_in, view_line_in};
use std::alloc::{AllocError, Global};

/// The most bytes of a line. A longer one is bad.
pub const LINE_LIMIT: usize = 4096;

/// What a line asks for.
#[derive(Drop)]
pub(crate) enum Request {
    /// What is left of each link.
    Book,
    /// What a reload would change.
    Check,
    /// The end of the run.
    End,
    /// To read the link text again, and give the links its values from now on.
    Reload,
    /// To see something.
    View(ViewLine),
    /// An initiation, an update, a return or a removal of an LSP.
    Submit(Event),
}

/// Returns what a text asks for, or `None` for a bad line. Only a line that asks for something takes memory.
#[tactic(auto, unfolding(crate::specs::Requests::request_in))]
fn request_in(alloc: Global, text: &str) -> Result<Option<Request>, AllocError>
    ensures request { IfOk result (λ request. request ≡ request_in text.now) }
    ensures good { IfErr result (λ _. IsSome (request_in text.now)) }
{
    if text == "book" {
        return Ok(Some(Request::Book));
    }
    if text == "end" {
        return Ok(Some(Request::End));
    }
    if text == "reload" {
        return Ok(Some(Request::Reload));
    }
    if text == "reload check" {
        return Ok(Some(Request::Check));
    }
    if let Some(view) = view_line_in(text) {
        return Ok(Some(Request::View(view)));
    }
    match operator_event_in(alloc, text)? {
        Some(event) => Ok(Some(Request::Submit(event))),
        None => Ok(None),
    }
}

/// Returns what comes after the word `words`: the line whose answer is to be explained.
#[tactic(auto, unfolding(crate::specs::Requests::explained_in))]
pub(crate) fn explained_in(text: &str) -> Option<&str>
    ensures { option_map (λ rest. rest.now) result ≡ explained_in text.now }
{
    match cut_at_space(text) {
        Some(("words", rest)) => Some(rest),
        _ => None,
    }
}

/// Returns the line without the word `words`.
#[tactic(auto, unfolding(crate::specs::Requests::bare))]
fn bare(text: &str) -> &str
    ensures { result.now ≡ bare text.now }
{
    match explained_in(text) {
        Some(rest) => rest,
        None => text,
    }
}

/// Returns a text if it has names.
fn if_named(text: &str) -> Option<&str>
    ensures { option_map (λ text. text.now) result ≡ if_named text.now }
{
    if has_names(text) { Some(text) } else { None }
}

/// Returns the text of a line that has names, without the word `words`.
#[tactic(auto, unfolding(crate::specs::Naming::is_named))]
pub(crate) fn named_in(line: &[u8]) -> Option<&str>
    ensures { IsNamedText (option_map (λ text. text.now) result) line.now }
{
    if line.len() > LINE_LIMIT {
        return None;
    }
    match str::from_utf8(line) {
        Ok(text) => if_named(bare(text)),
        Err(_) => None,
    }
}

/// Returns what a line asks for, or `None` for a bad line. Only a line that asks for something takes memory.
#[tactic(auto, unfolding(crate::specs::Requests::request_of))]
pub(crate) fn request_of(alloc: Global, line: &[u8]) -> Result<Option<Request>, AllocError>
    ensures request { IfOk result (λ request. request ≡ request_of line.now) }
    ensures good { IfErr result (λ _. IsSome (request_of line.now)) }
{
    if line.len() > LINE_LIMIT {
        return Ok(None);
    }
    match str::from_utf8(line) {
        Ok(text) => request_in(alloc, bare(text)),
        Err(_) => Ok(None),
    }
}
