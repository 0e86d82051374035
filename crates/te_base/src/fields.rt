//! The fields of a table, before any value is judged.
ghost use Rattle.std.specs.Prelude.{◌≡◌, map, option_map};
ghost use Rattle.toml.specs.View.{view, table_view, array_view};
ghost use Rattle.toml.specs.Data.{get_member};
ghost use Rattle.te_base.specs.Fields.{integer_at, text_at, number_at, drawn_at, node_text, link_text, tables_at, tables_of};
ghost use Rattle.te_base.specs.Places.{GivesAt};
ghost use Rattle.te_base.specs.Views.{node_texts, link_texts};

use crate::fault::{FaultPlace, PlacedFault, TeFault};
use crate::keys::{Key, TableKind};
use crate::network::NodePlace;
use std::alloc::Global;
use toml::value::Array;
use toml::{Table, Value};

/// A node's fields.
#[derive(Drop)]
pub(crate) struct NodeFields<'a> {
    pub name: &'a str,
    pub id: &'a str,
    pub place: Option<NodePlace>,
}

/// A link's fields.
#[derive(Drop)]
pub(crate) struct LinkFields<'a> {
    pub from: &'a str,
    pub to: &'a str,
    pub local: &'a str,
    pub remote: &'a str,
    pub igp: i64,
    pub te: i64,
    pub colour: i64,
    pub reservable: i64,
}

/// Looks up the value at a key.
fn field<'a>(table: &'a Table, key: &str) -> Option<&'a Value>
    ensures { option_map (λ v. view v.now) result ≡ get_member key.now (table_view table.now) }
{
    table.get(key)
}

fn integer(table: &Table, key: &str) -> Option<i64>
    ensures { result ≡ integer_at key.now (table_view table.now) }
{
    match field(table, key) {
        Some(value) => value.as_integer(),
        None => None,
    }
}

fn text<'a>(table: &'a Table, place: FaultPlace, key: Key) -> Result<&'a str, PlacedFault>
    ensures { GivesAt (λ s. s.now) result (text_at place key (table_view table.now)) }
{
    match field(table, key.word()) {
        Some(value) => match value.as_str() {
            Some(text) => Ok(text),
            None => Err(PlacedFault::at_key(place, key, TeFault::MissingField)),
        },
        None => Err(PlacedFault::at_key(place, key, TeFault::MissingField)),
    }
}

fn number(table: &Table, place: FaultPlace, key: Key) -> Result<i64, PlacedFault>
    ensures { GivesAt (λ n. n) result (number_at place key (table_view table.now)) }
{
    match integer(table, key.word()) {
        Some(number) => Ok(number),
        None => Err(PlacedFault::at_key(place, key, TeFault::MissingField)),
    }
}

/// Reads the node's place on a map, if its table has one.
fn drawn_at(table: &Table) -> Option<NodePlace>
    ensures { result ≡ drawn_at (table_view table.now) }
{
    match (integer(table, "x"), integer(table, "y")) {
        (Some(x), Some(y)) => Some(NodePlace { x, y }),
        _ => None,
    }
}

#[tactic(auto, unfolding(crate::specs::Fields::node_text))]
pub(crate) fn node_fields(table: &Table, at: FaultPlace) -> Result<NodeFields<'_>, PlacedFault>
    ensures { GivesAt node_texts result (node_text at (table_view table.now)) }
{
    let name = text(table, at, Key::Name)?;
    let id = text(table, at, Key::Id)?;
    let place = drawn_at(table);
    Ok(NodeFields { name, id, place })
}

#[tactic(auto, unfolding(crate::specs::Fields::link_text))]
pub(crate) fn link_fields(table: &Table, at: FaultPlace) -> Result<LinkFields<'_>, PlacedFault>
    ensures { GivesAt link_texts result (link_text at (table_view table.now)) }
{
    let from = text(table, at, Key::From)?;
    let to = text(table, at, Key::To)?;
    let local = text(table, at, Key::Local)?;
    let remote = text(table, at, Key::Remote)?;
    let igp = number(table, at, Key::Igp)?;
    let te = number(table, at, Key::Te)?;
    let colour = number(table, at, Key::Colour)?;
    let reservable = number(table, at, Key::Reservable)?;
    Ok(LinkFields {
        from,
        to,
        local,
        remote,
        igp,
        te,
        colour,
        reservable,
    })
}

fn all_tables(alloc: Global, array: &Array, kind: TableKind) -> Result<Vec<&Table>, PlacedFault>
    ensures { GivesAt (λ v. map (λ t. table_view t.now) v.items) result (tables_of kind 0 (array_view array.now)) }
{
    let mut tables = Vec::new(alloc);
    for (number, value) in array.iter().enumerate() {
        match value.as_table() {
            Some(table) => tables.push(table)?,
            None => {
                let place = FaultPlace::InTable(kind, number);
                return Err(PlacedFault::in_part(place, TeFault::MissingField));
            }
        }
    }
    Ok(tables)
}

/// Lists the tables of a kind. None if the document has no array of them.
pub(crate) fn tables(
    alloc: Global,
    document: &Table,
    kind: TableKind,
) -> Result<Vec<&Table>, PlacedFault>
    ensures { GivesAt (λ v. map (λ t. table_view t.now) v.items) result (tables_at kind (table_view document.now)) }
{
    match field(document, kind.word()) {
        None => Ok(Vec::new(alloc)),
        Some(value) => match value.as_array() {
            Some(array) => all_tables(alloc, array, kind),
            None => {
                let place = FaultPlace::InArray(kind);
                Err(PlacedFault::in_part(place, TeFault::MissingField))
            }
        },
    }
}
