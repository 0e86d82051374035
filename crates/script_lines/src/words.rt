//! Words of a script's line that `asks` doesn't read: bytes, names and paths.

ghost use Rattle.std.specs.Prelude.{◌≡◌, option_map, is_some, Some, IfOk, IfErr, IsSome};
ghost use Rattle.std.specs.List.{list_all, filter_map};
ghost use Rattle.std.specs.Result.{result_ok};
ghost use Rattle.hex.specs.Hex.{decode_of};
ghost use Rattle.asks.specs.Words.{long_number_in};
ghost use Rattle.script_lines.specs.Words.{without_spaces, octets, is_printed, name_in, parts, is_link, links_in, offer_in};

use asks::long_number_in;
use hex::FromHexError;
use history_core::LspName;
use sequence::Sequence;
use std::alloc::{AllocError, Global};
use te_base::LinkNumber;

fn without_spaces(alloc: Global, text: &str) -> Result<Vec<u8>, AllocError>
    ensures { IfOk result (λ digits. digits.items ≡ without_spaces text.now) }
{
    text.as_bytes()
        .iter()
        .copied()
        .filter(|byte| *byte != b' ')
        .collect(alloc)
}

/// Reads bytes in hexadecimal of either case.
fn decoded(alloc: Global, digits: &[u8]) -> Result<Option<Vec<u8>>, AllocError>
    ensures { IfOk result (λ found. option_map (λ bytes. bytes.items) found ≡ result_ok (decode_of digits.now)) }
{
    match hex::decode(alloc, digits) {
        Ok(bytes) => Ok(Some(bytes)),
        Err(FromHexError::OutOfMemory) => Err(AllocError),
        Err(_) => Ok(None),
    }
}

/// Reads bytes in hexadecimal of either case, with spaces anywhere. If there are spaces, the digits without them take
/// memory.
pub(crate) fn octets_in(alloc: Global, text: &str) -> Result<Option<Vec<u8>>, AllocError>
    ensures { IfOk result (λ found. option_map (λ bytes. bytes.items) found ≡ octets text.now) }
{
    if !text.as_bytes().contains(&b' ') {
        return decoded(alloc, text.as_bytes());
    }
    decoded(alloc, &without_spaces(alloc, text)?)
}

fn is_printed(word: &str) -> bool
    ensures { result ≡ list_all is_printed word.now }
{
    word.as_bytes()
        .iter()
        .all(|byte| (0x21..=0x7e).contains(byte))
}

fn copied(alloc: Global, word: &str) -> Result<Sequence<u8>, AllocError>
    ensures { IfOk result (λ bytes. bytes ≡ word.now) }
{
    let bytes: Vec<u8> = word.as_bytes().iter().copied().collect(alloc)?;
    Ok(Sequence::from_vec(bytes))
}

/// Reads a name of 1 to 64 printed characters of ASCII, none of them a space. Only a name takes memory.
pub(crate) fn name_in(alloc: Global, word: &str) -> Result<Option<LspName>, AllocError>
    ensures name { IfOk result (λ name. name ≡ name_in word.now) }
    ensures good { IfErr result (λ _. IsSome (name_in word.now)) }
{
    if word.is_empty() || word.len() > 64 || !is_printed(word) {
        return Ok(None);
    }
    let bytes = copied(alloc, word)?;
    Ok(LspName::new(bytes))
}

/// Reads the number of a link, which need not exist: a decimal number below 2^64.
pub(crate) fn link_in(word: &str) -> Option<LinkNumber>
    ensures { result ≡ long_number_in word.now }
{
    match long_number_in(word) {
        Some(number) => Some(number as usize),
        None => None,
    }
}

fn are_links(text: &str) -> bool
    ensures { result ≡ list_all is_link (parts text.now) }
{
    text.split(',').all(|word| link_in(word).is_some())
}

fn links_of(alloc: Global, text: &str) -> Result<Vec<LinkNumber>, AllocError>
    ensures { IfOk result (λ links. links.items ≡ filter_map long_number_in (parts text.now)) }
{
    text.split(',')
        .filter_map(|word| link_in(word))
        .collect(alloc)
}

/// Reads link numbers in decimal, joined by commas. Only such a text takes memory.
fn links_in(alloc: Global, text: &str) -> Result<Option<Sequence<LinkNumber>>, AllocError>
    ensures links { IfOk result (λ links. links ≡ links_in text.now) }
    ensures good { IfErr result (λ _. IsSome (links_in text.now)) }
{
    if !are_links(text) {
        return Ok(None);
    }
    let links = links_of(alloc, text)?;
    Ok(Some(Sequence::from_vec(links)))
}

/// Reads what a search answered: `none`, or the numbers of a path's links. Only such a text takes memory.
pub(crate) fn offer_in(
    alloc: Global,
    word: &str,
) -> Result<Option<Option<Sequence<LinkNumber>>>, AllocError>
    ensures offer { IfOk result (λ offer. offer ≡ offer_in word.now) }
    ensures good { IfErr result (λ _. IsSome (offer_in word.now)) }
{
    if word == "none" {
        return Ok(Some(None));
    }
    match links_in(alloc, word)? {
        Some(links) => Ok(Some(Some(links))),
        None => Ok(None),
    }
}
