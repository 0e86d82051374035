//! The line that an operator's line stands for. A word that can be read as it stands keeps its meaning.
ghost use Rattle.std.specs.Prelude.{◌≡◌, ◌++◌, IfOk, OnOk, string_bytes};
ghost use Rattle.line_names.specs.Plain.{address_or, has_names, plain_address, plain_ends, plain_line, plain_named_path, plain_peer, plain_peer_first, plain_request, plain_rest, plain_to, plain_words};

use asks::{
    cut_at_space, is_request, names_peer, peer_in, question_in, wrong_from_in, wrong_peer_in,
    wrong_to_in,
};
use pcep_word::Ipv4;
use std::alloc::{AllocError, Global};
use std::fmt::Write;

/// The addresses that the names in a line stand for. `None` for a name that stands for no address.
#[derive(Clone, Copy, Debug, PartialEq, Eq)]
pub struct Named {
    pub peer: Option<Ipv4>,
    pub from: Option<Ipv4>,
    pub to: Option<Ipv4>,
}

/// Adds an address, or the word if there is none.
fn add_address_or(text: &mut String, word: &str, address: Option<Ipv4>) -> Result<(), AllocError>
    ensures { OnOk result (string_bytes text.new ≡ string_bytes text.old ++ address_or word.now address) }
{
    match address {
        Some(address) => write!(text, "{address}"),
        None => text.push_str(word),
    }
}

/// Adds a peer's word, or the address that it stands for.
fn add_peer(text: &mut String, word: &str, named: Option<Ipv4>) -> Result<(), AllocError>
    ensures { OnOk result (string_bytes text.new ≡ string_bytes text.old ++ plain_peer named word.now) }
{
    match peer_in(word) {
        Some(_) => text.push_str(word),
        None => add_address_or(text, word, named),
    }
}

/// Adds the word of an end of a path, or the address that it stands for.
fn add_address(text: &mut String, word: &str, named: Option<Ipv4>) -> Result<(), AllocError>
    ensures { OnOk result (string_bytes text.new ≡ string_bytes text.old ++ plain_address named word.now) }
{
    match Ipv4::parse(word) {
        Some(_) => text.push_str(word),
        None => add_address_or(text, word, named),
    }
}

/// Adds the end of a path, and what follows it.
fn add_to(text: &mut String, line: &str, named: Named) -> Result<(), AllocError>
    ensures { OnOk result (string_bytes text.new ≡ string_bytes text.old ++ plain_to named line.now) }
{
    match cut_at_space(line) {
        None => add_address(text, line, named.to),
        Some((to, rest)) => {
            add_address(text, to, named.to)?;
            text.push_str(" ")?;
            text.push_str(rest)
        }
    }
}

/// Adds the beginning of a path, and what follows it.
fn add_ends(text: &mut String, line: &str, named: Named) -> Result<(), AllocError>
    ensures { OnOk result (string_bytes text.new ≡ string_bytes text.old ++ plain_ends named line.now) }
{
    match cut_at_space(line) {
        None => add_address(text, line, named.from),
        Some((from, rest)) => {
            add_address(text, from, named.from)?;
            text.push_str(" ")?;
            add_to(text, rest, named)
        }
    }
}

/// Adds the name of an LSP, and what follows it.
fn add_named_path(text: &mut String, line: &str, named: Named) -> Result<(), AllocError>
    ensures { OnOk result (string_bytes text.new ≡ string_bytes text.old ++ plain_named_path named line.now) }
{
    match cut_at_space(line) {
        None => text.push_str(line),
        Some((name, rest)) => {
            text.push_str(name)?;
            text.push_str(" ")?;
            add_ends(text, rest, named)
        }
    }
}

/// Adds the words of a request for a path.
fn add_request(text: &mut String, line: &str, named: Named) -> Result<(), AllocError>
    ensures { OnOk result (string_bytes text.new ≡ string_bytes text.old ++ plain_request named line.now) }
{
    match cut_at_space(line) {
        None => add_peer(text, line, named.peer),
        Some((peer, rest)) => {
            add_peer(text, peer, named.peer)?;
            text.push_str(" ")?;
            add_named_path(text, rest, named)
        }
    }
}

/// Adds a peer, and what follows it.
fn add_peer_first(text: &mut String, line: &str, named: Named) -> Result<(), AllocError>
    ensures { OnOk result (string_bytes text.new ≡ string_bytes text.old ++ plain_peer_first named line.now) }
{
    match cut_at_space(line) {
        None => add_peer(text, line, named.peer),
        Some((peer, rest)) => {
            add_peer(text, peer, named.peer)?;
            text.push_str(" ")?;
            text.push_str(rest)
        }
    }
}

/// Adds what follows a line's first word.
#[tactic(auto, unfolding(crate::specs::Plain::plain_rest))]
fn add_rest(text: &mut String, word: &str, rest: &str, named: Named) -> Result<(), AllocError>
    ensures { OnOk result (string_bytes text.new ≡ string_bytes text.old ++ plain_rest named word.now rest.now) }
{
    if word == "path" {
        return add_ends(text, rest, named);
    }
    if is_request(word) {
        return add_request(text, rest, named);
    }
    if names_peer(word) {
        return add_peer_first(text, rest, named);
    }
    text.push_str(rest)
}

/// Adds the words of a line without the word `json`.
fn add_words(text: &mut String, line: &str, named: Named) -> Result<(), AllocError>
    ensures { OnOk result (string_bytes text.new ≡ string_bytes text.old ++ plain_words named line.now) }
{
    match cut_at_space(line) {
        None => text.push_str(line),
        Some((word, rest)) => {
            text.push_str(word)?;
            text.push_str(" ")?;
            add_rest(text, word, rest, named)
        }
    }
}

/// Returns the line that an operator's line stands for: each name gives way to its address.
#[tactic(auto, unfolding(crate::specs::Plain::plain_line))]
pub fn plain_line(alloc: Global, line: &str, named: Named) -> Result<String, AllocError>
    ensures { IfOk result (λ text. string_bytes text ≡ plain_line named line.now) }
{
    let mut text = String::new(alloc);
    match question_in(line) {
        Some(rest) => {
            text.push_str("json ")?;
            add_words(&mut text, rest, named)?;
        }
        None => add_words(&mut text, line, named)?,
    }
    Ok(text)
}

/// Tests whether a word of a line isn't read as it stands.
pub fn has_names(line: &str) -> bool
    ensures { result ≡ has_names line.now }
{
    wrong_peer_in(line).is_some() || wrong_from_in(line).is_some() || wrong_to_in(line).is_some()
}
