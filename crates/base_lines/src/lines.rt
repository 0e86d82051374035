//! The lines of a base.
ghost use Rattle.std.specs.Prelude.{◌≡◌, ◌++◌, ◌∷◌, [], true, false, map, OnOk, IfOk, IfErr, string_bytes};
ghost use Rattle.std.specs.List.{list_all};
ghost use Rattle.pcep_messages.specs.Spelling.{written};
ghost use Rattle.step_core.specs.States.{emptied};
ghost use Rattle.line_words.specs.Written.{text_of};
ghost use Rattle.step_lines.specs.declared.fault.LineFault.TheVariants.{NoLine};
ghost use Rattle.base_lines.specs.Items.{counts_of, peer_items, peers_items};
ghost use Rattle.base_lines.specs.Lines.{base_lines, has_lines, message_has_line, peer_has_lines, text_of_items};
ghost use Rattle.base_lines.specs.Words.{line_of, lsp_words, peer_words, place_words, reserved_words, turn_words};
ghost use Rattle.base_lines.specs.declared.item.Item.TheVariants as items;

use crate::placed::PlacedBase;
use crate::words::{
    add_capabilities, add_constraints, add_links, add_name, add_part, add_purpose, add_tunnel,
    flag_word,
};
use commit_core::Ticket;
use line_words::add_hex;
use lsp_base::{Lsp, Path, Record};
use pcep_messages::{Message, write_message};
use pcep_objects::WriteFault;
use pcep_word::Ipv4;
use std::alloc::{AllocError, Global};
use std::fmt::Write;
use step_core::{AwaitedName, Peer};
use step_lines::LineFault;
use te_base::LinkValues;

#[tactic(auto, unfolding(crate::specs::Words::line_of))]
fn add_counts(text: &mut String, base: &PlacedBase) -> Result<(), AllocError>
    ensures { OnOk result (string_bytes text.new ≡ string_bytes text.old ++ (line_of (items.Counts (counts_of base.now)) ++ 10 ∷ [])) }
{
    let (steps, grants) = (base.steps, base.grants);
    let changes = base.base.changes;
    let (session, ticket) = (base.base.last_session, base.base.last_ticket);
    write!(
        text,
        "base {steps} {grants} {changes} {session} {ticket} \n"
    )
}

#[tactic(auto, unfolding(crate::specs::Words::line_of))]
fn add_value(text: &mut String, values: LinkValues) -> Result<(), AllocError>
    ensures { OnOk result (string_bytes text.new ≡ string_bytes text.old ++ (line_of (items.Value values) ++ 10 ∷ [])) }
{
    let (igp, te) = (values.igp(), values.te());
    let (colour, reservable) = (values.colour(), values.reservable());
    write!(text, "value {igp} {te} {colour} {reservable} \n")
}

fn add_values(text: &mut String, values: &[LinkValues]) -> Result<(), AllocError>
    ensures { OnOk result (string_bytes text.new ≡ string_bytes text.old ++ text_of_items (map (λ v. items.Value v) values.now)) }
{
    for value in values {
        add_value(text, *value)?;
    }
    Ok(())
}

/// Adds what is known of a peer, without what waits for it.
fn add_known(text: &mut String, peer: &Peer) -> Result<(), AllocError>
    ensures { OnOk result (string_bytes text.new ≡ string_bytes text.old ++ peer_words peer.now) }
{
    let (number, session) = (Ipv4(peer.number), peer.session);
    let up = flag_word(peer.up, "up", "down");
    write!(text, "{number} {up} {session} ")?;
    add_capabilities(text, peer.capabilities)?;
    let srp = peer.last_srp;
    let syncing = flag_word(peer.syncing, "syncing", "synced");
    write!(text, "{syncing} {srp} ")
}

/// Adds the line of a peer, without what waits for it.
#[tactic(auto, unfolding(crate::specs::Words::line_of))]
fn add_peer_line(text: &mut String, peer: &Peer) -> Result<(), AllocError>
    ensures { OnOk result (string_bytes text.new ≡ string_bytes text.old ++ (line_of (items.Peer (emptied peer.now)) ++ 10 ∷ [])) }
{
    text.push_str("peer ")?;
    add_known(text, peer)?;
    text.push_str("\n")
}

/// Writes the bytes of a message that waits. Fails with `NoLine` exactly if it is of no kind that is written, or a length
/// doesn't fit its field.
fn message_bytes(alloc: Global, message: &Message) -> Result<Vec<u8>, LineFault>
    ensures written { IfOk result (λ bytes. bytes.items ≡ written message.now) }
    ensures has { IfOk result (λ _. message_has_line message.now ≡ true) }
    ensures no_line { IfErr result (λ e. e ≡ NoLine → message_has_line message.now ≡ false) }
{
    if !message.is_written() {
        return Err(LineFault::NoLine);
    }
    let mut bytes = Vec::new(alloc);
    match write_message(message, &mut bytes) {
        Ok(()) => Ok(bytes),
        Err(WriteFault::TooLong) => Err(LineFault::NoLine),
        Err(WriteFault::OutOfMemory) => Err(LineFault::OutOfMemory),
    }
}

#[tactic(auto, unfolding(crate::specs::Words::line_of))]
fn add_message(alloc: Global, text: &mut String, message: &Message) -> Result<(), LineFault>
    ensures words { OnOk result (string_bytes text.new ≡ string_bytes text.old ++ (line_of (items.Waits message.now) ++ 10 ∷ [])) }
    ensures has { IfOk result (λ _. message_has_line message.now ≡ true) }
    ensures no_line { IfErr result (λ e. e ≡ NoLine → message_has_line message.now ≡ false) }
{
    let bytes = message_bytes(alloc, message)?;
    text.push_str("waits ")?;
    add_hex(alloc, text, &bytes)?;
    text.push_str("\n")?;
    Ok(())
}

/// Adds the lines of what waits for a peer.
fn add_messages(alloc: Global, text: &mut String, messages: &[Message]) -> Result<(), LineFault>
    ensures words { OnOk result (string_bytes text.new ≡ string_bytes text.old ++ text_of_items (map (λ m. items.Waits m) messages.now)) }
    ensures has { IfOk result (λ _. list_all message_has_line messages.now ≡ true) }
    ensures no_line { IfErr result (λ e. e ≡ NoLine → list_all message_has_line messages.now ≡ false) }
{
    for message in messages {
        add_message(alloc, text, message)?;
    }
    Ok(())
}

/// Adds the lines of a peer and of what waits for it.
fn add_peer(alloc: Global, text: &mut String, peer: &Peer) -> Result<(), LineFault>
    ensures words { OnOk result (string_bytes text.new ≡ string_bytes text.old ++ text_of_items (peer_items peer.now)) }
    ensures has { IfOk result (λ _. peer_has_lines peer.now ≡ true) }
    ensures no_line { IfErr result (λ e. e ≡ NoLine → peer_has_lines peer.now ≡ false) }
{
    add_peer_line(text, peer)?;
    add_messages(alloc, text, peer.outgoing.as_slice())
}

fn add_peers(alloc: Global, text: &mut String, peers: &[Peer]) -> Result<(), LineFault>
    ensures words { OnOk result (string_bytes text.new ≡ string_bytes text.old ++ text_of_items (peers_items peers.now)) }
    ensures has { IfOk result (λ _. list_all peer_has_lines peers.now ≡ true) }
    ensures no_line { IfErr result (λ e. e ≡ NoLine → list_all peer_has_lines peers.now ≡ false) }
{
    for peer in peers {
        add_peer(alloc, text, peer)?;
    }
    Ok(())
}

/// Adds which path it is.
fn add_place(text: &mut String, path: &Path) -> Result<(), AllocError>
    ensures { OnOk result (string_bytes text.new ≡ string_bytes text.old ++ place_words path.now) }
{
    let (peer, plsp) = (Ipv4(path.peer), path.plsp.number());
    write!(text, "{peer} {plsp} ")?;
    add_part(text, path.part)?;
    add_tunnel(text, path.tunnel)
}

/// Adds what a path reserves.
fn add_reserved(text: &mut String, path: &Path) -> Result<(), AllocError>
    ensures { OnOk result (string_bytes text.new ≡ string_bytes text.old ++ reserved_words path.now) }
{
    let (hold, bandwidth) = (path.hold.number(), path.bandwidth.value());
    let fresh = flag_word(path.fresh, "fresh", "stale");
    write!(text, "{hold} {bandwidth} {fresh} ")?;
    add_links(text, path.links.as_slice())
}

#[tactic(auto, unfolding(crate::specs::Words::line_of))]
fn add_path(text: &mut String, path: &Path) -> Result<(), AllocError>
    ensures { OnOk result (string_bytes text.new ≡ string_bytes text.old ++ (line_of (items.Path path.now) ++ 10 ∷ [])) }
{
    text.push_str("path ")?;
    add_place(text, path)?;
    add_reserved(text, path)?;
    text.push_str("\n")
}

fn add_paths(text: &mut String, paths: &[Path]) -> Result<(), AllocError>
    ensures { OnOk result (string_bytes text.new ≡ string_bytes text.old ++ text_of_items (map (λ p. items.Path p) paths.now)) }
{
    for path in paths {
        add_path(text, path)?;
    }
    Ok(())
}

/// Adds what is known of an LSP.
fn add_lsp(alloc: Global, text: &mut String, lsp: &Lsp) -> Result<(), AllocError>
    ensures { OnOk result (string_bytes text.new ≡ string_bytes text.old ++ lsp_words lsp.now) }
{
    add_name(alloc, text, lsp.name.as_slice())?;
    let delegated = flag_word(lsp.delegated, "delegated", "-");
    let created = flag_word(lsp.created, "created", "-");
    write!(text, "{delegated} {created} ")?;
    match lsp.removing {
        Some(srp) => write!(text, "{srp} ")?,
        None => text.push_str("- ")?,
    }
    add_tunnel(text, lsp.tunnel)?;
    add_constraints(text, &lsp.constraints)
}

#[tactic(auto, unfolding(crate::specs::Words::line_of))]
fn add_record(alloc: Global, text: &mut String, known: &Record) -> Result<(), AllocError>
    ensures { OnOk result (string_bytes text.new ≡ string_bytes text.old ++ (line_of (items.Record known.now) ++ 10 ∷ [])) }
{
    let (peer, plsp) = (Ipv4(known.peer), known.plsp.number());
    write!(text, "record {peer} {plsp} ")?;
    add_lsp(alloc, text, &known.lsp)?;
    text.push_str("\n")
}

fn add_records(alloc: Global, text: &mut String, records: &[Record]) -> Result<(), AllocError>
    ensures { OnOk result (string_bytes text.new ≡ string_bytes text.old ++ text_of_items (map (λ r. items.Record r) records.now)) }
{
    for known in records {
        add_record(alloc, text, known)?;
    }
    Ok(())
}

#[tactic(auto, unfolding(crate::specs::Words::line_of))]
fn add_awaited(alloc: Global, text: &mut String, name: &AwaitedName) -> Result<(), AllocError>
    ensures { OnOk result (string_bytes text.new ≡ string_bytes text.old ++ (line_of (items.Name name.now) ++ 10 ∷ [])) }
{
    let (peer, srp) = (Ipv4(name.peer), name.srp);
    write!(text, "name {peer} {srp} ")?;
    add_hex(alloc, text, name.name.as_slice())?;
    text.push_str("\n")
}

fn add_names(alloc: Global, text: &mut String, names: &[AwaitedName]) -> Result<(), AllocError>
    ensures { OnOk result (string_bytes text.new ≡ string_bytes text.old ++ text_of_items (map (λ a. items.Name a) names.now)) }
{
    for name in names {
        add_awaited(alloc, text, name)?;
    }
    Ok(())
}

/// Adds whose ticket it is, and how often it was taken.
fn add_turn(text: &mut String, ticket: &Ticket) -> Result<(), AllocError>
    ensures { OnOk result (string_bytes text.new ≡ string_bytes text.old ++ turn_words ticket.now) }
{
    let (id, peer, session) = (ticket.id, Ipv4(ticket.peer), ticket.session);
    write!(text, "{id} {peer} {session} ")?;
    let (tries, seen) = (ticket.tries, ticket.seen);
    let taken = flag_word(ticket.taken, "taken", "waits");
    write!(text, "{tries} {seen} {taken} ")
}

#[tactic(auto, unfolding(crate::specs::Words::line_of))]
fn add_ticket(alloc: Global, text: &mut String, ticket: &Ticket) -> Result<(), AllocError>
    ensures { OnOk result (string_bytes text.new ≡ string_bytes text.old ++ (line_of (items.Ticket ticket.now) ++ 10 ∷ [])) }
{
    text.push_str("ticket ")?;
    add_turn(text, ticket)?;
    add_purpose(alloc, text, &ticket.purpose)?;
    add_constraints(text, &ticket.constraints)?;
    text.push_str("\n")
}

fn add_tickets(alloc: Global, text: &mut String, tickets: &[Ticket]) -> Result<(), AllocError>
    ensures { OnOk result (string_bytes text.new ≡ string_bytes text.old ++ text_of_items (map (λ t. items.Ticket t) tickets.now)) }
{
    for ticket in tickets {
        add_ticket(alloc, text, ticket)?;
    }
    Ok(())
}

/// Writes the lines of a base, each with its line break. Fails with `NoLine` exactly if a message that waits can't be
/// written.
pub fn base_text(alloc: Global, placed: &PlacedBase) -> Result<String, LineFault>
    ensures text { IfOk result (λ text. string_bytes text ≡ text_of (base_lines placed.now)) }
    ensures has { IfOk result (λ _. has_lines placed.now ≡ true) }
    ensures no_line { IfErr result (λ e. e ≡ NoLine → has_lines placed.now ≡ false) }
{
    let mut text = String::new(alloc);
    let base = &placed.base;
    add_counts(&mut text, placed)?;
    add_values(&mut text, base.values.as_slice())?;
    add_peers(alloc, &mut text, base.peers.as_slice())?;
    add_paths(&mut text, base.paths.as_slice())?;
    add_records(alloc, &mut text, base.records.as_slice())?;
    add_names(alloc, &mut text, base.names.as_slice())?;
    add_tickets(alloc, &mut text, base.tickets.as_slice())?;
    text.push_str("end\n")?;
    Ok(text)
}
