//! Links that words name, and their values.
ghost use Rattle.std.specs.Prelude.{◌≡◌, IfOk, option_map};
ghost use Rattle.std.specs.List.{list_all, filter_map};
ghost use Rattle.asks.specs.Words.{long_number_in};
ghost use Rattle.step_lines.specs.EventReading.{parts, is_link, links_in, offer_in, pieces, first_values, entry_at, entry_in, is_entry, entries_in};

use asks::{cut_at_space, long_number_in};
use line_words::{first_long_number, is_nothing};
use link_reload::LinkReload;
use sequence::Sequence;
use std::alloc::{AllocError, Global};
use te_base::{LinkNumber, LinkValues};

/// Reads the number of a link, whether there is such a link or not.
fn link_in(word: &str) -> Option<LinkNumber>
    ensures { result ≡ long_number_in word.now }
{
    match long_number_in(word) {
        Some(number) => Some(number as usize),
        None => None,
    }
}

fn are_links(text: &str) -> bool
    ensures { result ≡ list_all is_link (parts text.now) }
{
    text.split(',').all(|word| link_in(word).is_some())
}

fn links_of(alloc: Global, text: &str) -> Result<Vec<LinkNumber>, AllocError>
    ensures { IfOk result (λ links. links.items ≡ filter_map long_number_in (parts text.now)) }
{
    text.split(',')
        .filter_map(|word| link_in(word))
        .collect(alloc)
}

/// Reads link numbers joined by commas, or none.
#[tactic(auto, unfolding(crate::specs::EventReading::links_in))]
pub fn links_in(alloc: Global, text: &str) -> Result<Option<Sequence<LinkNumber>>, AllocError>
    ensures { IfOk result (λ links. links ≡ links_in text.now) }
{
    if is_nothing(text) {
        return Ok(Some(Sequence::from_vec(Vec::new(alloc))));
    }
    if !are_links(text) {
        return Ok(None);
    }
    let links = links_of(alloc, text)?;
    Ok(Some(Sequence::from_vec(links)))
}

/// Reads what a search answered: `none`, or the numbers of a path's links.
#[tactic(auto, unfolding(crate::specs::EventReading::offer_in))]
pub(crate) fn offer_in(
    alloc: Global,
    word: &str,
) -> Result<Option<Option<Sequence<LinkNumber>>>, AllocError>
    ensures { IfOk result (λ offer. offer ≡ offer_in word.now) }
{
    if word == "none" {
        return Ok(Some(None));
    }
    match links_in(alloc, word)? {
        Some(links) => Ok(Some(Some(links))),
        None => Ok(None),
    }
}

/// Reads two metrics, a colour and a bandwidth, each in its range.
#[tactic(auto, unfolding(crate::specs::EventReading::first_values))]
pub fn first_values(text: &str) -> Option<(LinkValues, &str)>
    ensures { option_map (λ x. (x.0, x.1.now)) result ≡ first_values text.now }
{
    let (igp, rest) = first_long_number(text)?;
    let (te, rest) = first_long_number(rest)?;
    let (colour, rest) = first_long_number(rest)?;
    let (reservable, rest) = first_long_number(rest)?;
    let values = LinkValues::new(igp, te, colour, reservable)?;
    Some((values, rest))
}

#[tactic(auto, unfolding(crate::specs::EventReading::entry_at))]
fn entry_at(text: &str) -> Option<LinkReload>
    ensures { result ≡ entry_at text.now }
{
    let (link, rest) = first_long_number(text)?;
    let Some((values, _)) = first_values(rest) else {
        return None;
    };
    Some(LinkReload {
        link: link as usize,
        values,
    })
}

/// Reads a link and its values. After a semicolon they have a space in front.
#[tactic(auto, unfolding(crate::specs::EventReading::entry_in))]
fn entry_in(text: &str) -> Option<LinkReload>
    ensures { result ≡ entry_in text.now }
{
    let (word, rest) = cut_at_space(text)?;
    if is_nothing(word) {
        entry_at(rest)
    } else {
        entry_at(text)
    }
}

fn are_entries(text: &str) -> bool
    ensures { result ≡ list_all is_entry (pieces text.now) }
{
    text.split(';').all(|piece| entry_in(piece).is_some())
}

fn entries_of(alloc: Global, text: &str) -> Result<Vec<LinkReload>, AllocError>
    ensures { IfOk result (λ entries. entries.items ≡ filter_map entry_in (pieces text.now)) }
{
    text.split(';')
        .filter_map(|piece| entry_in(piece))
        .collect(alloc)
}

/// Reads links and their values, joined by semicolons, or none.
#[tactic(auto, unfolding(crate::specs::EventReading::entries_in))]
pub(crate) fn entries_in(
    alloc: Global,
    text: &str,
) -> Result<Option<Sequence<LinkReload>>, AllocError>
    ensures { IfOk result (λ entries. entries ≡ entries_in text.now) }
{
    if is_nothing(text) {
        return Ok(Some(Sequence::from_vec(Vec::new(alloc))));
    }
    if !are_entries(text) {
        return Ok(None);
    }
    let entries = entries_of(alloc, text)?;
    Ok(Some(Sequence::from_vec(entries)))
}
