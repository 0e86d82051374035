//! `links N`: the line of one link among those of all.
ghost use Rattle.std.specs.Prelude.{◌≡◌, ◌++◌, Some, OnOk};
ghost use Rattle.json.specs.Tree.{json_tokens};
ghost use Rattle.json.specs.Json.{array, item, no_items};
ghost use Rattle.pce_view.specs.LinkLine.{line_items, line_json, lines_json};

use crate::closing::closed;
use crate::fields::{Field, Member, put_object};
use crate::heard::Heard;
use crate::links::{LINK_HEAD, add_link};
use crate::question::{Question, ServerInfo};
use asks::Ask;
use database_looks::{Look, see_link};
use history_core::Database;
use json::Writer;
use pce_seen::LinkUse;
use std::alloc::{AllocError, Global};
use std::fmt::Write;

#[tactic(auto, unfolding(crate::specs::LinkLine::line_json))]
fn put_line(
    alloc: Global,
    writer: &mut Writer,
    number: u64,
    seen: &LinkUse,
) -> Result<(), AllocError>
    ensures before { writer.new.before ≡ writer.old.before }
    ensures written { OnOk result (writer.new.tokens ≡ writer.old.tokens ++ json_tokens (line_json number seen.now)) }
{
    put_object(
        alloc,
        writer,
        &[
            Member("link", Field::Whole(number)),
            Member("from", Field::Node(&seen.from.name)),
            Member("to", Field::Node(&seen.to.name)),
            Member("local_address", Field::Address(seen.link.local)),
            Member("remote_address", Field::Address(seen.link.remote)),
            Member("igp_metric", Field::Whole(seen.link.igp as u64)),
            Member("te_metric", Field::Whole(seen.link.te as u64)),
            Member("colour", Field::Whole(seen.link.colour as u64)),
            Member(
                "reservable_bytes_per_second",
                Field::Whole(seen.link.reservable),
            ),
            Member("unreserved_bytes_per_second", Field::Amounts(&seen.left)),
        ],
    )
}

fn put_one_line(
    alloc: Global,
    writer: &mut Writer,
    number: u64,
    seen: &LinkUse,
) -> Result<(), AllocError>
    ensures before { writer.new.before ≡ writer.old.before }
    ensures written { OnOk result (writer.new.tokens ≡ writer.old.tokens ++ json_tokens (array (item (line_json number seen.now) no_items))) }
{
    writer.begin_array()?;
    put_line(alloc, writer, number, seen)?;
    writer.end_array()
}

fn put_no_line(writer: &mut Writer) -> Result<(), AllocError>
    ensures before { writer.new.before ≡ writer.old.before }
    ensures written { OnOk result (writer.new.tokens ≡ writer.old.tokens ++ json_tokens (array no_items)) }
{
    writer.begin_array()?;
    writer.end_array()
}

fn put_line_or(
    alloc: Global,
    writer: &mut Writer,
    number: u64,
    seen: &Option<LinkUse>,
) -> Result<(), AllocError>
    ensures before { writer.new.before ≡ writer.old.before }
    ensures written { OnOk result (writer.new.tokens ≡ writer.old.tokens ++ json_tokens (array (line_items number seen.now))) }
{
    match seen {
        Some(seen) => put_one_line(alloc, writer, number, seen),
        None => put_no_line(writer),
    }
}

fn put_lines(
    alloc: Global,
    writer: &mut Writer,
    number: u64,
    seen: &Option<LinkUse>,
) -> Result<(), AllocError>
    ensures before { writer.new.before ≡ writer.old.before }
    ensures written { OnOk result (writer.new.tokens ≡ writer.old.tokens ++ json_tokens (lines_json number seen.now)) }
{
    writer.begin_object()?;
    writer.key("links")?;
    put_line_or(alloc, writer, number, seen)?;
    writer.end_object()
}

/// The line of one link among those of all.
#[derive(Clone, Copy)]
pub struct LinkLine(pub u64);

impl Look for LinkLine {
    ghost use Rattle.std.specs.Prelude.{false};
    ghost use Rattle.database_looks.specs.Looks.{SeesLink};

    type Seen = Option<LinkUse>;

    ghost sees = { λ q d seen. SeesLink q.0 false d seen };

    fn see(&self, alloc: Global, database: &Database) -> Result<Option<LinkUse>, AllocError> {
        see_link(alloc, database, self.0, false)
    }
}

impl Question for LinkLine {
    ghost use Rattle.pce_view.specs.LinkLine.{ReadsLinkLine};

    ghost reads = { λ q _ _ seen text. ReadsLinkLine q.0 seen text };

    fn json(
        &self,
        alloc: Global,
        _around: &ServerInfo<'_>,
        _heard: &Heard,
        seen: &Option<LinkUse>,
    ) -> Result<Vec<u8>, AllocError> {
        let mut writer = Writer::new(Vec::new(alloc));
        put_lines(alloc, &mut writer, self.0, seen)?;
        Ok(closed(writer))
    }

    fn rows(
        &self,
        alloc: Global,
        text: &mut String,
        _around: &ServerInfo<'_>,
        _heard: &Heard,
        seen: &Option<LinkUse>,
    ) -> Result<(), AllocError> {
        text.push_str(LINK_HEAD)?;
        match seen {
            Some(seen) => add_link(
                alloc,
                text,
                seen.from.name.as_str(),
                seen.to.name.as_str(),
                self.0,
                &seen.link,
                &seen.left,
            ),
            None => Ok(()),
        }
    }

    fn next(&self, _seen: &Option<LinkUse>) -> Option<Ask> {
        None
    }
}
