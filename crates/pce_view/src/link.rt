//! `link N`: a link with the tunnels on it.
ghost use Rattle.std.specs.Prelude.{◌≡◌, ◌++◌, Some, IfOk, OnOk};
ghost use Rattle.json.specs.Tree.{json_tokens};
ghost use Rattle.json.specs.Json.{array, document};
ghost use Rattle.pce_view.specs.Link.{held_items, held_json, use_json};
ghost use Rattle.pce_view.specs.Link.{IsLinkText, IsUseText};

use crate::closing::{closed, null_text};
use crate::fields::{Field, Member, begin_with, lsp_id, put_object, srp_id};
use crate::heard::Heard;
use crate::question::{Question, ServerInfo};
use asks::Ask;
use database_looks::{Look, see_link};
use history_core::Database;
use json::Writer;
use pce_seen::{HeldPath, LinkUse, tunnels_on};
use pcep_word::Ipv4;
use std::alloc::{AllocError, Global};
use std::fmt::Write;
use table_text::{add_name, add_percent, add_rate};
use te_base::Node;

#[tactic(auto, unfolding(crate::specs::Link::held_json))]
fn put_held(alloc: Global, writer: &mut Writer, held: &HeldPath) -> Result<(), AllocError>
    ensures before { writer.new.before ≡ writer.old.before }
    ensures written { OnOk result (writer.new.tokens ≡ writer.old.tokens ++ json_tokens (held_json held.now)) }
{
    put_object(
        alloc,
        writer,
        &[
            Member("peer", Field::Peer(held.peer)),
            Member("plsp_id", Field::Plsp(held.plsp)),
            Member("lsp_id", Field::LspId(held.part)),
            Member("srp_id", Field::SrpId(held.part)),
            Member("hold_priority", Field::Level(held.hold)),
            Member("bandwidth_bytes_per_second", Field::Rate(held.bandwidth)),
        ],
    )
}

fn put_each_held(alloc: Global, writer: &mut Writer, paths: &[HeldPath]) -> Result<(), AllocError>
    ensures before { writer.new.before ≡ writer.old.before }
    ensures written { OnOk result (writer.new.tokens ≡ writer.old.tokens ++ json_tokens (array (held_items paths.now))) }
{
    writer.begin_array()?;
    for held in paths {
        put_held(alloc, writer, held)?;
    }
    writer.end_array()
}

fn put_use(
    alloc: Global,
    writer: &mut Writer,
    number: u64,
    seen: &LinkUse,
    tunnels: &[HeldPath],
) -> Result<(), AllocError>
    ensures before { writer.new.before ≡ writer.old.before }
    ensures written { OnOk result (writer.new.tokens ≡ writer.old.tokens ++ json_tokens (use_json number seen.now tunnels.now)) }
{
    begin_with(
        alloc,
        writer,
        &[
            Member("link", Field::Whole(number)),
            Member("from", Field::Node(&seen.from.name)),
            Member("to", Field::Node(&seen.to.name)),
            Member("local_address", Field::Address(seen.link.local)),
            Member("remote_address", Field::Address(seen.link.remote)),
            Member("igp_metric", Field::Whole(seen.link.igp as u64)),
            Member("te_metric", Field::Whole(seen.link.te as u64)),
            Member("colour", Field::Whole(seen.link.colour as u64)),
            Member(
                "reservable_bytes_per_second",
                Field::Whole(seen.link.reservable),
            ),
            Member("unreserved_bytes_per_second", Field::Amounts(&seen.left)),
        ],
        "tunnels",
    )?;
    put_each_held(alloc, writer, tunnels)?;
    writer.end_object()?;
    Ok(())
}

/// Writes a link with the tunnels on it.
fn use_text(
    alloc: Global,
    number: u64,
    seen: &LinkUse,
    tunnels: &[HeldPath],
) -> Result<Vec<u8>, AllocError>
    ensures { IfOk result (λ text. document text.items ≡ Some (use_json number seen.now tunnels.now)) }
{
    let mut writer = Writer::new(Vec::new(alloc));
    put_use(alloc, &mut writer, number, seen, tunnels)?;
    Ok(closed(writer))
}

/// Lists the tunnels on a link, and writes the link with them.
fn link_with_tunnels(alloc: Global, number: u64, seen: &LinkUse) -> Result<Vec<u8>, AllocError>
    ensures { IfOk result (λ text. IsUseText number seen.now text.items) }
{
    let tunnels = tunnels_on(alloc, &seen.paths)?;
    use_text(alloc, number, seen, &tunnels)
}

fn add_held(text: &mut String, held: &HeldPath) -> Result<(), AllocError> {
    let peer = Ipv4(held.peer);
    let plsp = held.plsp.number();
    let hold = held.hold.number();
    write!(text, "{peer}\t{plsp}\t{hold}\t")?;
    add_rate(text, held.bandwidth.value() as i64)?;
    text.push('\n')
}

/// Adds the name of the node at an end of a link, and the link's address there.
fn add_node_end(text: &mut String, node: &Node, address: Ipv4) -> Result<(), AllocError> {
    add_name(text, node.name.as_str().as_bytes())?;
    writeln!(text, " {address}")
}

/// Adds a link, and a line for each tunnel on it, the one that holds most first.
fn add_use(
    alloc: Global,
    text: &mut String,
    number: u64,
    seen: &LinkUse,
) -> Result<(), AllocError> {
    let igp = seen.link.igp;
    let te = seen.link.te;
    let colour = seen.link.colour;
    write!(text, "link\t{number}\nfrom\t")?;
    add_node_end(text, &seen.from, seen.link.local)?;
    text.push_str("to\t")?;
    add_node_end(text, &seen.to, seen.link.remote)?;
    write!(
        text,
        "metrics\tIGP {igp}, TE {te}\ncolour\t{colour:#010x}\nreservable\t"
    )?;
    add_rate(text, seen.link.reservable.min(1 << 48) as i64)?;
    text.push('\n')?;
    for (priority, left) in seen.left.iter().enumerate() {
        write!(text, "left at {priority}\t")?;
        add_rate(text, *left)?;
        text.push('\t')?;
        add_percent(text, seen.link.reservable, *left)?;
        text.push_str(" reserved")?;
        text.push('\n')?;
    }
    text.push_str("\x0cPEER\tPLSP\tHOLD\tBANDWIDTH\n")?;
    for held in &tunnels_on(alloc, &seen.paths)? {
        add_held(text, held)?;
    }
    Ok(())
}

/// A link with the tunnels on it.
#[derive(Clone, Copy)]
pub struct Link(pub u64);

impl Look for Link {
    ghost use Rattle.std.specs.Prelude.{true};
    ghost use Rattle.database_looks.specs.Looks.{SeesLink};

    type Seen = Option<LinkUse>;

    ghost sees = { λ q d seen. SeesLink q.0 true d seen };

    fn see(&self, alloc: Global, database: &Database) -> Result<Option<LinkUse>, AllocError> {
        see_link(alloc, database, self.0, true)
    }
}

impl Question for Link {
    ghost use Rattle.pce_view.specs.Link.{IsLinkText};

    ghost reads = { λ q _ _ seen text. IsLinkText q.0 seen text };

    fn json(
        &self,
        alloc: Global,
        _around: &ServerInfo<'_>,
        _heard: &Heard,
        seen: &Option<LinkUse>,
    ) -> Result<Vec<u8>, AllocError> {
        match seen {
            Some(seen) => link_with_tunnels(alloc, self.0, seen),
            None => null_text(alloc),
        }
    }

    fn rows(
        &self,
        alloc: Global,
        text: &mut String,
        _around: &ServerInfo<'_>,
        _heard: &Heard,
        seen: &Option<LinkUse>,
    ) -> Result<(), AllocError> {
        match seen {
            Some(seen) => add_use(alloc, text, self.0, seen),
            None => text.push_str("no such link\n"),
        }
    }

    fn next(&self, _seen: &Option<LinkUse>) -> Option<Ask> {
        None
    }
}
