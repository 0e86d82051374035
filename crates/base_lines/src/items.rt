//! The item that a line stands for.
ghost use Rattle.std.specs.Prelude.{◌≡◌, option_map, IfOk};
ghost use Rattle.pcep_messages.specs.Messages.{message_in};
ghost use Rattle.base_lines.specs.WordsIn.{counts_in, value_in, first_capabilities, peer_in, read_well, waits_in, path_in, first_lsp, record_in, name_in, ticket_in, item_with, worded_item, item_in};

use crate::first::{first_flag, first_links, first_name, first_part, first_tunnel};
use crate::item::{Counts, Item};
use crate::purposes::{first_constraints, first_purpose};
use asks::cut_at_space;
use commit_core::{LspName, Ticket};
use line_words::{
    first_address, first_bytes, first_long_number, first_number, first_number_or_missing,
    first_plsp, is_nothing,
};
use lsp_base::{Lsp, Path, Record};
use lsp_words::Capabilities;
use pcep_messages::{Message, MessageFault, read_message};
use std::alloc::{AllocError, Global};
use step_core::{AwaitedName, Peer, Queue};
use step_lines::{LINE_LIMIT, first_bandwidth, first_priority, first_values};

#[tactic(auto, unfolding(crate::specs::WordsIn::counts_in))]
fn counts_in(text: &str) -> Option<(Item, &str)>
    ensures { option_map (λ x. (x.0, x.1.now)) result ≡ counts_in text.now }
{
    let (steps, rest) = first_long_number(text)?;
    let (grants, rest) = first_long_number(rest)?;
    let (changes, rest) = first_long_number(rest)?;
    let (last_session, rest) = first_long_number(rest)?;
    let (last_ticket, rest) = first_long_number(rest)?;
    let counts = Counts {
        steps,
        grants,
        changes,
        last_session,
        last_ticket,
    };
    Some((Item::Counts(counts), rest))
}

#[tactic(auto, unfolding(crate::specs::WordsIn::value_in))]
fn value_in(text: &str) -> Option<(Item, &str)>
    ensures { option_map (λ x. (x.0, x.1.now)) result ≡ value_in text.now }
{
    let Some((values, rest)) = first_values(text) else {
        return None;
    };
    Some((Item::Value(values), rest))
}

#[tactic(auto, unfolding(crate::specs::WordsIn::first_capabilities))]
fn first_capabilities(text: &str) -> Option<(Capabilities, &str)>
    ensures { option_map (λ x. (x.0, x.1.now)) result ≡ first_capabilities text.now }
{
    let (update, rest) = first_flag(text, "update", "-")?;
    let (create, rest) = first_flag(rest, "initiate", "-")?;
    Some((Capabilities { update, create }, rest))
}

#[tactic(auto, unfolding(crate::specs::WordsIn::peer_in))]
fn peer_in(alloc: Global, text: &str) -> Option<(Item, &str)>
    ensures { option_map (λ x. (x.0, x.1.now)) result ≡ peer_in text.now }
{
    let (number, rest) = first_address(text)?;
    let (up, rest) = first_flag(rest, "up", "down")?;
    let (session, rest) = first_long_number(rest)?;
    let Some((capabilities, rest)) = first_capabilities(rest) else {
        return None;
    };
    let (syncing, rest) = first_flag(rest, "syncing", "synced")?;
    let (last_srp, rest) = first_number(rest)?;
    let peer = Peer {
        number,
        up,
        session,
        capabilities,
        syncing,
        last_srp,
        outgoing: Queue::new(alloc),
    };
    Some((Item::Peer(peer), rest))
}

/// Reads a message of a kind that is written.
fn message_of(alloc: Global, bytes: &[u8]) -> Result<Option<Message>, AllocError>
    ensures { IfOk result (λ found. found ≡ read_well (message_in bytes.now)) }
{
    match read_message(alloc, bytes) {
        Ok(message) if message.is_written() => Ok(Some(message)),
        Ok(_) => Ok(None),
        Err(MessageFault::OutOfMemory) => Err(AllocError),
        Err(_) => Ok(None),
    }
}

#[tactic(auto, unfolding(crate::specs::WordsIn::waits_in))]
fn waits_in(alloc: Global, text: &str) -> Result<Option<(Item, &str)>, AllocError>
    ensures { IfOk result (λ found. option_map (λ x. (x.0, x.1.now)) found ≡ waits_in text.now) }
{
    let Some((bytes, rest)) = first_bytes(alloc, text)? else {
        return Ok(None);
    };
    match message_of(alloc, bytes.as_slice())? {
        Some(message) => Ok(Some((Item::Waits(message), rest))),
        None => Ok(None),
    }
}

#[tactic(auto, unfolding(crate::specs::WordsIn::path_in))]
fn path_in(alloc: Global, text: &str) -> Result<Option<(Item, &str)>, AllocError>
    ensures { IfOk result (λ found. option_map (λ x. (x.0, x.1.now)) found ≡ path_in text.now) }
{
    let Some((peer, rest)) = first_address(text) else {
        return Ok(None);
    };
    let Some((plsp, rest)) = first_plsp(rest) else {
        return Ok(None);
    };
    let Some((part, rest)) = first_part(rest) else {
        return Ok(None);
    };
    let Some((tunnel, rest)) = first_tunnel(rest) else {
        return Ok(None);
    };
    let Some((hold, rest)) = first_priority(rest) else {
        return Ok(None);
    };
    let Some((bandwidth, rest)) = first_bandwidth(rest) else {
        return Ok(None);
    };
    let Some((fresh, rest)) = first_flag(rest, "fresh", "stale") else {
        return Ok(None);
    };
    let Some((links, rest)) = first_links(alloc, rest)? else {
        return Ok(None);
    };
    let path = Path {
        peer,
        plsp,
        part,
        tunnel,
        hold,
        bandwidth,
        links,
        fresh,
    };
    Ok(Some((Item::Path(path), rest)))
}

/// Reads what is known of an LSP.
#[tactic(auto, unfolding(crate::specs::WordsIn::first_lsp))]
fn first_lsp(alloc: Global, text: &str) -> Result<Option<(Lsp, &str)>, AllocError>
    ensures { IfOk result (λ found. option_map (λ x. (x.0, x.1.now)) found ≡ first_lsp text.now) }
{
    let Some((name, rest)) = first_name(alloc, text)? else {
        return Ok(None);
    };
    let Some((delegated, rest)) = first_flag(rest, "delegated", "-") else {
        return Ok(None);
    };
    let Some((created, rest)) = first_flag(rest, "created", "-") else {
        return Ok(None);
    };
    let Some((removing, rest)) = first_number_or_missing(rest) else {
        return Ok(None);
    };
    let Some((tunnel, rest)) = first_tunnel(rest) else {
        return Ok(None);
    };
    let Some((constraints, rest)) = first_constraints(rest) else {
        return Ok(None);
    };
    let lsp = Lsp {
        name,
        delegated,
        created,
        constraints,
        tunnel,
        removing,
    };
    Ok(Some((lsp, rest)))
}

#[tactic(auto, unfolding(crate::specs::WordsIn::record_in))]
fn record_in(alloc: Global, text: &str) -> Result<Option<(Item, &str)>, AllocError>
    ensures { IfOk result (λ found. option_map (λ x. (x.0, x.1.now)) found ≡ record_in text.now) }
{
    let Some((peer, rest)) = first_address(text) else {
        return Ok(None);
    };
    let Some((plsp, rest)) = first_plsp(rest) else {
        return Ok(None);
    };
    let Some((lsp, rest)) = first_lsp(alloc, rest)? else {
        return Ok(None);
    };
    Ok(Some((Item::Record(Record { peer, plsp, lsp }), rest)))
}

#[tactic(auto, unfolding(crate::specs::WordsIn::name_in))]
fn name_in(alloc: Global, text: &str) -> Result<Option<(Item, &str)>, AllocError>
    ensures { IfOk result (λ found. option_map (λ x. (x.0, x.1.now)) found ≡ name_in text.now) }
{
    let Some((peer, rest)) = first_address(text) else {
        return Ok(None);
    };
    let Some((srp, rest)) = first_number(rest) else {
        return Ok(None);
    };
    let Some((bytes, rest)) = first_bytes(alloc, rest)? else {
        return Ok(None);
    };
    match LspName::new(bytes) {
        Some(name) => Ok(Some((Item::Name(AwaitedName { peer, srp, name }), rest))),
        None => Ok(None),
    }
}

#[tactic(auto, unfolding(crate::specs::WordsIn::ticket_in))]
fn ticket_in(alloc: Global, text: &str) -> Result<Option<(Item, &str)>, AllocError>
    ensures { IfOk result (λ found. option_map (λ x. (x.0, x.1.now)) found ≡ ticket_in text.now) }
{
    let Some((id, rest)) = first_long_number(text) else {
        return Ok(None);
    };
    let Some((peer, rest)) = first_address(rest) else {
        return Ok(None);
    };
    let Some((session, rest)) = first_long_number(rest) else {
        return Ok(None);
    };
    let Some((tries, rest)) = first_number(rest) else {
        return Ok(None);
    };
    let Some((seen, rest)) = first_long_number(rest) else {
        return Ok(None);
    };
    let Some((taken, rest)) = first_flag(rest, "taken", "waits") else {
        return Ok(None);
    };
    let Some((purpose, rest)) = first_purpose(alloc, rest)? else {
        return Ok(None);
    };
    let Some((constraints, rest)) = first_constraints(rest) else {
        return Ok(None);
    };
    let ticket = Ticket {
        id,
        peer,
        session,
        purpose,
        constraints,
        tries,
        seen,
        taken,
    };
    Ok(Some((Item::Ticket(ticket), rest)))
}

#[tactic(auto, unfolding(crate::specs::WordsIn::item_with))]
fn item_with<'a>(
    alloc: Global,
    word: &str,
    rest: &'a str,
) -> Result<Option<(Item, &'a str)>, AllocError>
    ensures { IfOk result (λ found. option_map (λ x. (x.0, x.1.now)) found ≡ item_with word.now rest.now) }
{
    match word {
        "path" => path_in(alloc, rest),
        "record" => record_in(alloc, rest),
        "waits" => waits_in(alloc, rest),
        "ticket" => ticket_in(alloc, rest),
        "value" => Ok(value_in(rest)),
        "peer" => Ok(peer_in(alloc, rest)),
        "name" => name_in(alloc, rest),
        "base" => Ok(counts_in(rest)),
        _ => Ok(None),
    }
}

/// Reads an item, and nothing after it.
#[tactic(auto, unfolding(crate::specs::WordsIn::worded_item))]
fn worded_item(alloc: Global, line: &str) -> Result<Option<Item>, AllocError>
    ensures { IfOk result (λ found. found ≡ worded_item line.now) }
{
    let Some((word, rest)) = cut_at_space(line) else {
        return Ok(None);
    };
    match item_with(alloc, word, rest)? {
        Some((item, rest)) if is_nothing(rest) => Ok(Some(item)),
        _ => Ok(None),
    }
}

/// Reads the item that a line stands for; `None` for a bad line.
#[tactic(auto, unfolding(crate::specs::WordsIn::item_in))]
pub(crate) fn item_in(alloc: Global, line: &str) -> Result<Option<Item>, AllocError>
    ensures { IfOk result (λ found. found ≡ item_in line.now) }
{
    if line.len() > LINE_LIMIT {
        return Ok(None);
    }
    if line == "end" {
        return Ok(Some(Item::End));
    }
    worded_item(alloc, line)
}
