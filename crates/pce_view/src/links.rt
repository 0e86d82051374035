//! `links`: the nodes, the links and what is left of each.
ghost use Rattle.std.specs.Prelude.{◌≡◌, ◌++◌, OnOk};
ghost use Rattle.json.specs.Tree.{json_tokens};
ghost use Rattle.json.specs.Json.{array};
ghost use Rattle.pce_view.specs.Links.{book_json, link_json, links_json, node_json, nodes_json};

use crate::closing::closed;
use crate::columns::add_ends;
use crate::fields::{Field, Member, name_at, put_object};
use crate::heard::Heard;
use crate::question::{Question, ServerInfo};
use crate::runs::{Run, runs_of};
use asks::Ask;
use database_looks::{Look, see_book};
use history_core::Database;
use json::Writer;
use pce_seen::Book;
use std::alloc::{AllocError, Global};
use std::fmt::Write;
use table_text::{add_percent, add_rate};
use te_base::{Link, Node};

#[tactic(auto, unfolding(crate::specs::Links::node_json))]
fn put_node(
    alloc: Global,
    writer: &mut Writer,
    number: usize,
    node: &Node,
) -> Result<(), AllocError>
    ensures before { writer.new.before ≡ writer.old.before }
    ensures written { OnOk result (writer.new.tokens ≡ writer.old.tokens ++ json_tokens (node_json number node.now)) }
{
    put_object(
        alloc,
        writer,
        &[
            Member("node", Field::Whole(number as u64)),
            Member("name", Field::Node(&node.name)),
            Member("router_id", Field::Address(node.id)),
        ],
    )
}

fn put_nodes(alloc: Global, writer: &mut Writer, nodes: &[Node]) -> Result<(), AllocError>
    ensures before { writer.new.before ≡ writer.old.before }
    ensures written { OnOk result (writer.new.tokens ≡ writer.old.tokens ++ json_tokens (array (nodes_json 0 nodes.now))) }
{
    writer.begin_array()?;
    for (number, node) in nodes.iter().enumerate() {
        put_node(alloc, writer, number, node)?;
    }
    writer.end_array()
}

#[tactic(auto, unfolding(crate::specs::Links::link_json))]
fn put_link<'x>(
    alloc: Global,
    writer: &mut Writer,
    nodes: &'x [Node],
    number: usize,
    link: &'x Link,
    left: &'x [i64; 8],
) -> Result<(), AllocError>
    ensures before { writer.new.before ≡ writer.old.before }
    ensures written { OnOk result (writer.new.tokens ≡ writer.old.tokens ++ json_tokens (link_json nodes.now number link.now left.now)) }
{
    put_object(
        alloc,
        writer,
        &[
            Member("link", Field::Whole(number as u64)),
            Member("from", Field::NodeAt(nodes, link.from)),
            Member("to", Field::NodeAt(nodes, link.to)),
            Member("local_address", Field::Address(link.local)),
            Member("remote_address", Field::Address(link.remote)),
            Member("igp_metric", Field::Whole(link.igp as u64)),
            Member("te_metric", Field::Whole(link.te as u64)),
            Member("colour", Field::Whole(link.colour as u64)),
            Member("reservable_bytes_per_second", Field::Whole(link.reservable)),
            Member("unreserved_bytes_per_second", Field::Amounts(left)),
        ],
    )
}

/// Writes a link, where it is there.
fn put_links(
    alloc: Global,
    writer: &mut Writer,
    nodes: &[Node],
    links: &[Link],
    lefts: &[[i64; 8]],
) -> Result<(), AllocError>
    ensures before { writer.new.before ≡ writer.old.before }
    ensures written { OnOk result (writer.new.tokens ≡ writer.old.tokens ++ json_tokens (array (links_json nodes.now 0 links.now lefts.now))) }
{
    writer.begin_array()?;
    let count = links.len().min(lefts.len());
    for number in 0..count {
        put_link(alloc, writer, nodes, number, &links[number], &lefts[number])?;
    }
    writer.end_array()?;
    Ok(())
}

fn put_book(alloc: Global, writer: &mut Writer, book: &Book) -> Result<(), AllocError>
    ensures before { writer.new.before ≡ writer.old.before }
    ensures written { OnOk result (writer.new.tokens ≡ writer.old.tokens ++ json_tokens (book_json book.now.nodes.items book.now.links.items book.now.left.items)) }
{
    writer.begin_object()?;
    writer.key("nodes")?;
    put_nodes(alloc, writer, &book.nodes)?;
    writer.key("links")?;
    put_links(alloc, writer, &book.nodes, &book.links, &book.left)?;
    writer.end_object()
}

/// Adds a priority, or the first and the last of several.
fn add_levels(text: &mut String, first: usize, count: usize) -> Result<(), AllocError> {
    if count == 1 {
        return write!(text, "{first}\t");
    }
    let last = first.saturating_add(count).saturating_sub(1);
    write!(text, "{first}-{last}\t")
}

/// Adds what is left from a priority on, to the line of the link or to a line of its own.
fn add_run(text: &mut String, reservable: u64, first: usize, run: &Run) -> Result<(), AllocError> {
    if first != 0 {
        text.push_str("\t\t\t\t\t\t\t\t\t")?;
    }
    add_levels(text, first, run.count)?;
    add_rate(text, run.number)?;
    text.push('\t')?;
    add_percent(text, reservable, run.number)?;
    text.push('\n')
}

/// Adds what is left of a link: a line for priorities in a row at which as much is left.
fn add_lefts(
    alloc: Global,
    text: &mut String,
    reservable: u64,
    left: &[i64; 8],
) -> Result<(), AllocError> {
    let mut first = 0usize;
    for run in &runs_of(alloc, left)? {
        add_run(text, reservable, first, run)?;
        first = first.saturating_add(run.count);
    }
    Ok(())
}

pub(crate) fn add_link(
    alloc: Global,
    text: &mut String,
    from: &str,
    to: &str,
    number: u64,
    link: &Link,
    left: &[i64; 8],
) -> Result<(), AllocError> {
    let local = link.local;
    let remote = link.remote;
    let igp = link.igp;
    let te = link.te;
    let colour = link.colour;
    write!(text, "{number}\t")?;
    add_ends(text, from, to)?;
    write!(text, "{local}\t{remote}\t{igp}\t{te}\t{colour:#010x}\t")?;
    add_rate(text, link.reservable.min(1 << 48) as i64)?;
    text.push('\t')?;
    add_lefts(alloc, text, link.reservable, left)
}

pub(crate) const LINK_HEAD: &str =
    "LINK\tFROM\tTO\tLOCAL\tREMOTE\tIGP\tTE\tCOLOUR\tRESERVABLE\tPRIORITY\tUNRESERVED\tRESERVED\n";

/// The nodes, the links and what is left of each.
#[derive(Clone, Copy)]
pub struct Links;

impl Look for Links {
    ghost use Rattle.database_looks.specs.Looks.{SeesBook};

    type Seen = Book;

    ghost sees = { λ _ d seen. SeesBook d seen };

    fn see(&self, alloc: Global, database: &Database) -> Result<Book, AllocError> {
        see_book(alloc, database)
    }
}

impl Question for Links {
    ghost use Rattle.pce_view.specs.Links.{ReadsLinks};

    ghost reads = { λ _ _ _ seen text. ReadsLinks seen text };

    fn json(
        &self,
        alloc: Global,
        _around: &ServerInfo<'_>,
        _heard: &Heard,
        seen: &Book,
    ) -> Result<Vec<u8>, AllocError> {
        let mut writer = Writer::new(Vec::new(alloc));
        put_book(alloc, &mut writer, seen)?;
        Ok(closed(writer))
    }

    fn rows(
        &self,
        alloc: Global,
        text: &mut String,
        _around: &ServerInfo<'_>,
        _heard: &Heard,
        seen: &Book,
    ) -> Result<(), AllocError> {
        text.push_str(LINK_HEAD)?;
        let count = seen.links.len().min(seen.left.len());
        for number in 0..count {
            let link = &seen.links[number];
            add_link(
                alloc,
                text,
                name_at(&seen.nodes, link.from),
                name_at(&seen.nodes, link.to),
                number as u64,
                link,
                &seen.left[number],
            )?;
        }
        Ok(())
    }

    fn next(&self, _seen: &Book) -> Option<Ask> {
        None
    }
}
