//! Words that only bases have, and the text after them.
ghost use Rattle.std.specs.Prelude.{◌≡◌, option_map, IfOk};
ghost use Rattle.base_lines.specs.WordsIn.{first_flag, first_links, first_name, first_part, first_short_number, first_tunnel, part_with, signalled_in, asked_in, unsignalled_in, tunnel_with};

use asks::{cut_at_space, number_in};
use line_words::{bytes_in, first_address, first_number, first_plsp};
use lsp_base::{Part, Tunnel};
use pcep_word::Ipv4;
use sequence::Sequence;
use std::alloc::{AllocError, Global};
use step_lines::links_in;
use te_base::LinkNumber;

/// Reads one of two words.
#[tactic(auto, unfolding(crate::specs::WordsIn::first_flag))]
pub(crate) fn first_flag<'a>(text: &'a str, on: &str, off: &str) -> Option<(bool, &'a str)>
    ensures { option_map (λ x. (x.0, x.1.now)) result ≡ first_flag on.now off.now text.now }
{
    let (word, rest) = cut_at_space(text)?;
    if word == on {
        return Some((true, rest));
    }
    if word == off {
        return Some((false, rest));
    }
    None
}

/// Reads a number below 2^16.
#[tactic(auto, unfolding(crate::specs::WordsIn::first_short_number))]
pub(crate) fn first_short_number(text: &str) -> Option<(u16, &str)>
    ensures { option_map (λ x. (x.0, x.1.now)) result ≡ first_short_number text.now }
{
    let (word, rest) = cut_at_space(text)?;
    match number_in(word) {
        Some(number) if number < 1 << 16 => Some((number as u16, rest)),
        _ => None,
    }
}

/// Reads bytes in hexadecimal, or `-` if there are none.
#[tactic(auto, unfolding(crate::specs::WordsIn::first_name))]
pub(crate) fn first_name(
    alloc: Global,
    text: &str,
) -> Result<Option<(Sequence<u8>, &str)>, AllocError>
    ensures { IfOk result (λ found. option_map (λ x. (x.0, x.1.now)) found ≡ first_name text.now) }
{
    let Some((word, rest)) = cut_at_space(text) else {
        return Ok(None);
    };
    if word == "-" {
        return Ok(Some((Sequence::from_vec(Vec::new(alloc)), rest)));
    }
    match bytes_in(alloc, word)? {
        Some(bytes) => Ok(Some((Sequence::from_vec(bytes), rest))),
        None => Ok(None),
    }
}

/// Reads link numbers joined by commas, or `-` if there are none.
#[tactic(auto, unfolding(crate::specs::WordsIn::first_links))]
pub(crate) fn first_links(
    alloc: Global,
    text: &str,
) -> Result<Option<(Sequence<LinkNumber>, &str)>, AllocError>
    ensures { IfOk result (λ found. option_map (λ x. (x.0, x.1.now)) found ≡ first_links text.now) }
{
    let Some((word, rest)) = cut_at_space(text) else {
        return Ok(None);
    };
    if word == "-" {
        return Ok(Some((Sequence::from_vec(Vec::new(alloc)), rest)));
    }
    match links_in(alloc, word)? {
        Some(links) => Ok(Some((links, rest))),
        None => Ok(None),
    }
}

#[tactic(auto, unfolding(crate::specs::WordsIn::part_with))]
fn part_with<'a>(word: &str, rest: &'a str) -> Option<(Part, &'a str)>
    ensures { option_map (λ x. (x.0, x.1.now)) result ≡ part_with word.now rest.now }
{
    match word {
        "lsp" => {
            let (lsp, rest) = first_short_number(rest)?;
            Some((Part::Reported(lsp), rest))
        }
        "srp" => {
            let (srp, rest) = first_number(rest)?;
            Some((Part::Granted(srp), rest))
        }
        _ => None,
    }
}

/// Reads which of an LSP's paths a path is.
#[tactic(auto, unfolding(crate::specs::WordsIn::first_part))]
pub(crate) fn first_part(text: &str) -> Option<(Part, &str)>
    ensures { option_map (λ x. (x.0, x.1.now)) result ≡ first_part text.now }
{
    let (word, rest) = cut_at_space(text)?;
    part_with(word, rest)
}

#[tactic(auto, unfolding(crate::specs::WordsIn::signalled_in))]
fn signalled_in(text: &str) -> Option<(Tunnel, &str)>
    ensures { option_map (λ x. (x.0, x.1.now)) result ≡ signalled_in text.now }
{
    let (peer, rest) = first_address(text)?;
    let (endpoint, rest) = first_address(rest)?;
    let (tunnel, rest) = first_short_number(rest)?;
    let (extended, rest) = first_number(rest)?;
    let tunnel = Tunnel::Signalled {
        peer,
        endpoint: Ipv4(endpoint),
        tunnel,
        extended,
    };
    Some((tunnel, rest))
}

#[tactic(auto, unfolding(crate::specs::WordsIn::unsignalled_in))]
fn unsignalled_in(text: &str) -> Option<(Tunnel, &str)>
    ensures { option_map (λ x. (x.0, x.1.now)) result ≡ unsignalled_in text.now }
{
    let (peer, rest) = first_address(text)?;
    let Some((plsp, rest)) = first_plsp(rest) else {
        return None;
    };
    Some((Tunnel::Unsignalled { peer, plsp }, rest))
}

#[tactic(auto, unfolding(crate::specs::WordsIn::asked_in))]
fn asked_in(text: &str) -> Option<(Tunnel, &str)>
    ensures { option_map (λ x. (x.0, x.1.now)) result ≡ asked_in text.now }
{
    let (peer, rest) = first_address(text)?;
    let (srp, rest) = first_number(rest)?;
    Some((Tunnel::Asked { peer, srp }, rest))
}

#[tactic(auto, unfolding(crate::specs::WordsIn::tunnel_with))]
fn tunnel_with<'a>(word: &str, rest: &'a str) -> Option<(Tunnel, &'a str)>
    ensures { option_map (λ x. (x.0, x.1.now)) result ≡ tunnel_with word.now rest.now }
{
    match word {
        "signalled" => signalled_in(rest),
        "unsignalled" => unsignalled_in(rest),
        "asked" => asked_in(rest),
        _ => None,
    }
}

/// Reads a tunnel.
#[tactic(auto, unfolding(crate::specs::WordsIn::first_tunnel))]
pub(crate) fn first_tunnel(text: &str) -> Option<(Tunnel, &str)>
    ensures { option_map (λ x. (x.0, x.1.now)) result ≡ first_tunnel text.now }
{
    let (word, rest) = cut_at_space(text)?;
    tunnel_with(word, rest)
}
