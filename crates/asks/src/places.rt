//! Which word of an operator's line can't be read.
ghost use Rattle.std.specs.Prelude.{◌≡◌, option_map};
ghost use Rattle.std.specs.List.{list_any};
ghost use Rattle.asks.specs.Places.{asked, behind_name, ends_words, first_word, wrong_from_in, is_request, keys_of_line, names_peer, of_address, of_peer, of_rate, wrong_peer_in, question_in, wrong_to_in, wrong_rate_in};

use crate::limits::{PathKeys, with_word};
use crate::rates::bandwidth_or_rate_in;
use crate::words::{cut_at_space, peer_in};
use pcep_word::Ipv4;

/// Tests whether a line with this first word asks for a path to set an LSP up.
pub fn is_request(word: &str) -> bool
    ensures { result ≡ is_request word.now }
{
    matches!(word, "initiate" | "place")
}

/// Tests whether a line with this first word has a peer as its second.
pub fn names_peer(word: &str) -> bool
    ensures { result ≡ names_peer word.now }
{
    matches!(
        word,
        "update"
            | "return"
            | "delete"
            | "drop"
            | "lsps"
            | "lsp"
            | "why"
            | "better"
            | "grants"
            | "tunnels"
    )
}

/// Gives what comes after the word `json`.
pub fn question_in(line: &str) -> Option<&str>
    ensures { option_map (λ rest. rest.now) result ≡ question_in line.now }
{
    match cut_at_space(line) {
        Some(("json", rest)) => Some(rest),
        _ => None,
    }
}

/// Gives the first word of a line.
fn first_word(line: &str) -> &str
    ensures { result.now ≡ first_word line.now }
{
    match cut_at_space(line) {
        Some((word, _)) => word,
        None => line,
    }
}

/// Gives what follows a peer and a name.
#[tactic(auto, unfolding(crate::specs::Places::behind_name))]
fn behind_name(line: &str) -> Option<&str>
    ensures { option_map (λ rest. rest.now) result ≡ behind_name line.now }
{
    let (_, rest) = cut_at_space(line)?;
    let (_, rest) = cut_at_space(rest)?;
    Some(rest)
}

/// Gives the words of a line that begin with the ends of a path.
#[tactic(auto, unfolding(crate::specs::Places::ends_words))]
fn ends_words(line: &str) -> Option<&str>
    ensures { option_map (λ words. words.now) result ≡ ends_words line.now }
{
    let (word, rest) = cut_at_space(line)?;
    if word == "path" {
        return Some(rest);
    }
    if is_request(word) {
        return behind_name(rest);
    }
    None
}

/// Gives a word that is no address.
fn of_address(word: &str) -> Option<&str>
    ensures { option_map (λ word. word.now) result ≡ of_address word.now }
{
    match Ipv4::parse(word) {
        Some(_) => None,
        None => Some(word),
    }
}

/// Gives a word that is neither a number nor an address.
fn of_peer(word: &str) -> Option<&str>
    ensures { option_map (λ word. word.now) result ≡ of_peer word.now }
{
    match peer_in(word) {
        Some(_) => None,
        None => Some(word),
    }
}

/// Gives a word that is no bandwidth.
fn of_rate(word: &str) -> Option<&str>
    ensures { option_map (λ rate. rate.now) result ≡ of_rate word.now }
{
    match bandwidth_or_rate_in(word) {
        Some(_) => None,
        None => Some(word),
    }
}

/// Gives the line without the word `json`.
fn asked(line: &str) -> &str
    ensures { result.now ≡ asked line.now }
{
    match question_in(line) {
        Some(rest) => rest,
        None => line,
    }
}

/// Gives the word for the peer of a line if it isn't one.
#[tactic(auto, unfolding(crate::specs::Places::wrong_peer_in))]
pub fn wrong_peer_in(line: &str) -> Option<&str>
    ensures { option_map (λ word. word.now) result ≡ wrong_peer_in line.now }
{
    let (word, rest) = cut_at_space(asked(line))?;
    if is_request(word) {
        return of_peer(first_word(rest));
    }
    if names_peer(word) {
        return of_peer(first_word(rest));
    }
    None
}

/// Gives the beginning of a line's path if it is no address.
#[tactic(auto, unfolding(crate::specs::Places::wrong_from_in))]
pub fn wrong_from_in(line: &str) -> Option<&str>
    ensures { option_map (λ word. word.now) result ≡ wrong_from_in line.now }
{
    let words = ends_words(asked(line))?;
    of_address(first_word(words))
}

/// Gives the end of a line's path if it is no address.
#[tactic(auto, unfolding(crate::specs::Places::wrong_to_in))]
pub fn wrong_to_in(line: &str) -> Option<&str>
    ensures { option_map (λ word. word.now) result ≡ wrong_to_in line.now }
{
    let words = ends_words(asked(line))?;
    let (_, rest) = cut_at_space(words)?;
    of_address(first_word(rest))
}

/// Gives the word for the bandwidth of a line's path if it isn't one.
#[tactic(auto, unfolding(crate::specs::Places::wrong_rate_in))]
pub fn wrong_rate_in(line: &str) -> Option<&str>
    ensures { option_map (λ rate. rate.now) result ≡ wrong_rate_in line.now }
{
    let words = ends_words(asked(line))?;
    let (_, rest) = cut_at_space(words)?;
    let (_, rest) = cut_at_space(rest)?;
    of_rate(first_word(rest))
}

/// Gives the keys of a line's path.
#[tactic(auto, unfolding(crate::specs::Places::keys_of_line))]
fn keys_of_line(line: &str) -> Option<&str>
    ensures { option_map (λ keys. keys.now) result ≡ keys_of_line line.now }
{
    let words = ends_words(asked(line))?;
    let (_, rest) = cut_at_space(words)?;
    let (_, rest) = cut_at_space(rest)?;
    let (_, rest) = cut_at_space(rest)?;
    let (_, rest) = cut_at_space(rest)?;
    let (_, keys) = cut_at_space(rest)?;
    Some(keys)
}

/// Finds the first key of a line's path that gives no limit.
pub fn wrong_key_in(line: &str) -> Option<&str> {
    let mut keys = PathKeys::none();
    for word in keys_of_line(line)?.split(' ') {
        match with_word(Ok(keys), word) {
            Ok(more) => keys = more,
            Err(_) => return Some(word),
        }
    }
    None
}

/// Gives the first word of what a line asks.
pub fn word_in(line: &str) -> &str
    ensures { result.now ≡ first_word (asked line.now) }
{
    first_word(asked(line))
}
