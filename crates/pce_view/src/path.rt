//! `path FROM TO BW SETUP HOLD [KEY=VALUE ..]`: a path that nobody asks the network for, or what stands in its way.
ghost use Rattle.std.specs.Prelude.{◌≡◌, IfOk, ◌++◌, Some, OnOk};
ghost use Rattle.pce_view.specs.Path.{SeesNetwork};
ghost use Rattle.json.specs.Tree.{json_tokens};
ghost use Rattle.json.specs.Json.{array, document};
ghost use Rattle.pce_view.specs.Path.{full_items, full_json, path_answer_json};
ghost use Rattle.pce_view.specs.Path.{wanted, IsPathText};
ghost use Rattle.path_looks.specs.Paths.{full_links, IsPathAnswer};
ghost use Rattle.path_looks.specs.Tightest.{tightest};
ghost use Rattle.pce_view.specs.Words.{links_in};

use crate::closing::closed;
use crate::columns::add_ends;
use crate::fields::{Field, Member, begin_with, name_at, put_object};
use crate::heard::Heard;
use crate::question::{Question, ServerInfo};
use crate::words::{links_in, obstacle_word};
use asks::{Ask, PathWanted};
use database_looks::{Look, nodes_of, snapshot_of};
use history_core::Database;
use json::Writer;
use lsp_base::{Constraints, OtherBounds};
use path_looks::{FullLink, LinkRoom, PathAnswer, full_links, path_on, tightest};
use pce_seen::Network;
use pcep_word::Priority;
use std::alloc::{AllocError, Global};
use std::fmt::Write;
use table_text::add_rate;
use te_base::{LinkNumber, Node};
use te_snapshot::Snapshot;

/// Gives what is asked of a path. No metric is bounded but the one that is to be least.
fn wanted(asked: PathWanted) -> Constraints
    ensures { result ≡ wanted asked }
{
    Constraints {
        source: Some(asked.from),
        destination: Some(asked.to),
        bandwidth: asked.bandwidth,
        priorities: asked.priorities,
        colours: asked.limits.colours,
        minimise: asked.limits.minimise,
        bound: asked.limits.max_cost,
        hop_bound: asked.limits.max_hops,
        other_bounds: OtherBounds {
            igp: None,
            te: None,
        },
        local_protection: false,
    }
}

/// What is found on a network: a path or what stands in its way, and of its links the one on which least is left and those
/// that are too full.
#[derive(Drop)]
struct Finding {
    answer: PathAnswer,
    tightest: Option<LinkRoom>,
    full: Vec<FullLink>,
}

/// Searches for a path, and looks at its links.
fn search(alloc: Global, snapshot: &Snapshot, wanted: &Constraints) -> Result<Finding, AllocError>
    ensures answer { IfOk result (λ found. IsPathAnswer snapshot.now wanted.now found.answer) }
    ensures tightest { IfOk result (λ found. found.tightest ≡ tightest snapshot.now.unreserved wanted.now (links_in found.answer)) }
    ensures full { IfOk result (λ found. found.full.items ≡ full_links snapshot.now.unreserved wanted.now (links_in found.answer)) }
{
    let answer = path_on(alloc, snapshot, wanted)?;
    let room = tightest(snapshot, wanted, links_in(&answer));
    match full_links(alloc, snapshot, wanted, links_in(&answer)) {
        Ok(full) => Ok(Finding {
            answer,
            tightest: room,
            full,
        }),
        Err(error) => {
            drop(answer);
            Err(error)
        }
    }
}

/// Searches for a path and writes it, or what stands in its way, as JSON.
fn found_text(
    alloc: Global,
    snapshot: &Snapshot,
    wanted: &Constraints,
) -> Result<Vec<u8>, AllocError>
    ensures { IfOk result (λ text. IsPathText snapshot.now wanted.now text.items) }
{
    let found = search(alloc, snapshot, wanted)?;
    path_text(alloc, &found.answer, &found.tightest, &found.full)
}

#[tactic(auto, unfolding(crate::specs::Path::full_json))]
fn put_full(alloc: Global, writer: &mut Writer, full: &FullLink) -> Result<(), AllocError>
    ensures before { writer.new.before ≡ writer.old.before }
    ensures written { OnOk result (writer.new.tokens ≡ writer.old.tokens ++ json_tokens (full_json full.now)) }
{
    put_object(
        alloc,
        writer,
        &[
            Member("link", Field::Whole(full.link as u64)),
            Member("priority", Field::Whole(full.priority as u64)),
        ],
    )
}

fn put_each_full(alloc: Global, writer: &mut Writer, links: &[FullLink]) -> Result<(), AllocError>
    ensures before { writer.new.before ≡ writer.old.before }
    ensures written { OnOk result (writer.new.tokens ≡ writer.old.tokens ++ json_tokens (array (full_items links.now))) }
{
    writer.begin_array()?;
    for full in links {
        put_full(alloc, writer, full)?;
    }
    writer.end_array()
}

fn put_answer<'x>(
    alloc: Global,
    writer: &mut Writer,
    answer: &'x PathAnswer,
    tightest: &'x Option<LinkRoom>,
    full: &[FullLink],
) -> Result<(), AllocError>
    ensures before { writer.new.before ≡ writer.old.before }
    ensures written { OnOk result (writer.new.tokens ≡ writer.old.tokens ++ json_tokens (path_answer_json answer.now tightest.now full.now)) }
{
    begin_with(
        alloc,
        writer,
        &[
            Member("is_found", Field::IsFound(answer)),
            Member("obstacle", Field::ObstacleOf(answer)),
            Member("cost", Field::CostOf(answer)),
            Member("links", Field::LinksOf(answer)),
            Member("tightest_link", Field::TightestLink(tightest)),
            Member(
                "tightest_left_bytes_per_second",
                Field::TightestLeft(tightest),
            ),
        ],
        "full_links",
    )?;
    put_each_full(alloc, writer, full)?;
    writer.end_object()?;
    Ok(())
}

/// Writes a path, or what stands in its way, as JSON.
pub(crate) fn path_text(
    alloc: Global,
    answer: &PathAnswer,
    tightest: &Option<LinkRoom>,
    full: &[FullLink],
) -> Result<Vec<u8>, AllocError>
    ensures { IfOk result (λ text. document text.items ≡ Some (path_answer_json answer.now tightest.now full.now)) }
{
    let mut writer = Writer::new(Vec::new(alloc));
    put_answer(alloc, &mut writer, answer, tightest, full)?;
    Ok(closed(writer))
}

fn add_hop(
    text: &mut String,
    nodes: &[Node],
    snapshot: &Snapshot,
    number: LinkNumber,
) -> Result<(), AllocError> {
    let Some(link) = snapshot.topology().link(number) else {
        return Ok(());
    };
    let from = name_at(nodes, link.from);
    let to = name_at(nodes, link.to);
    let te = link.te;
    write!(text, "{number}\t")?;
    add_ends(text, from, to)?;
    writeln!(text, "{te}")
}

fn add_hops(
    text: &mut String,
    nodes: &[Node],
    snapshot: &Snapshot,
    links: &[LinkNumber],
) -> Result<(), AllocError> {
    text.push_str("\x0cLINK\tFROM\tTO\tCOST\n")?;
    for number in links {
        add_hop(text, nodes, snapshot, *number)?;
    }
    Ok(())
}

fn add_full(text: &mut String, snapshot: &Snapshot, full: &[FullLink]) -> Result<(), AllocError> {
    text.push('\x0c')?;
    for found in full {
        let link = found.link;
        let priority = found.priority;
        write!(text, "link {link}\tis too full at priority {priority}\t")?;
        if let Some(left) = snapshot.unreserved(link, Priority::capped(priority)) {
            add_rate(text, left)?;
        }
        text.push('\n')?;
    }
    Ok(())
}

/// Adds the link of a path on which least is left.
fn add_tightest(text: &mut String, tightest: &Option<LinkRoom>) -> Result<(), AllocError> {
    let Some(room) = tightest else {
        return Ok(());
    };
    let link = room.link;
    write!(text, "tightest link\t{link}, left ")?;
    add_rate(text, room.left)?;
    text.push('\n')
}

/// Adds a path, or what stands in its way.
pub(crate) fn add_answer(
    text: &mut String,
    nodes: &[Node],
    snapshot: &Snapshot,
    answer: &PathAnswer,
    tightest: &Option<LinkRoom>,
    full: &[FullLink],
) -> Result<(), AllocError> {
    match answer {
        PathAnswer::Path(found) => {
            let cost = found.cost;
            writeln!(text, "cost\t{cost}")?;
            add_tightest(text, tightest)?;
            add_hops(text, nodes, snapshot, found.links.as_slice())
        }
        PathAnswer::Blocked { by, path } => {
            let word = obstacle_word(*by);
            let cost = path.cost;
            writeln!(text, "no path\t{word}")?;
            writeln!(text, "without that, cost\t{cost}")?;
            add_hops(text, nodes, snapshot, path.links.as_slice())?;
            add_full(text, snapshot, full)
        }
        PathAnswer::NoWay => text.push_str("no path, whatever its bandwidth, colours and bounds\n"),
    }
}

/// A path that nobody asks the network for, or what stands in its way.
#[derive(Clone, Copy)]
pub struct Path(pub PathWanted);

impl Look for Path {
    ghost use Rattle.pce_view.specs.Path.{SeesNetwork};

    type Seen = Network;

    ghost sees = { λ _ d seen. SeesNetwork d seen };

    fn see(&self, alloc: Global, database: &Database) -> Result<Network, AllocError> {
        let nodes = nodes_of(alloc, database.te_base())?;
        match snapshot_of(alloc, database) {
            Ok(snapshot) => Ok(Network { nodes, snapshot }),
            Err(error) => {
                drop(nodes);
                Err(error)
            }
        }
    }
}

impl Question for Path {
    ghost use Rattle.pce_view.specs.Path.{ReadsPath};

    ghost reads = { λ q _ _ seen text. ReadsPath q.0 seen text };

    fn json(
        &self,
        alloc: Global,
        _around: &ServerInfo<'_>,
        _heard: &Heard,
        seen: &Network,
    ) -> Result<Vec<u8>, AllocError> {
        found_text(alloc, &seen.snapshot, &wanted(self.0))
    }

    fn rows(
        &self,
        alloc: Global,
        text: &mut String,
        _around: &ServerInfo<'_>,
        _heard: &Heard,
        seen: &Network,
    ) -> Result<(), AllocError> {
        let found = search(alloc, &seen.snapshot, &wanted(self.0))?;
        add_answer(
            text,
            &seen.nodes,
            &seen.snapshot,
            &found.answer,
            &found.tightest,
            &found.full,
        )
    }

    fn next(&self, _seen: &Network) -> Option<Ask> {
        None
    }
}
