//! Reads the tables of a link text one after the other. Each adds a node or a link to what was read before.
ghost use Rattle.std.specs.Prelude.{◌≡◌, map};
ghost use Rattle.toml.specs.View.{table_view};
ghost use Rattle.te_base.specs.Owners.{owned};
ghost use Rattle.te_base.specs.LinkText.{next_link, with_node, with_link, with_nodes, with_links, with_tables, ends_of};
ghost use Rattle.te_base.specs.Places.{GivesAt, LeavesAt};
ghost use Rattle.te_base.specs.Views.{link_texts, base_in};

use crate::fault::{FaultPlace, PlacedFault, TeFault};
use crate::fields::{LinkFields, link_fields, node_fields};
use crate::keys::{Key, TableKind};
use crate::network::{Link, NodeNumber, Owner, Parts};
use crate::owners::OwnerTable;
use crate::ranges::{link_addresses, link_values, node_of};
use pcep_word::Ipv4;
use std::alloc::Global;
use toml::Table;

fn own(
    owners: &mut OwnerTable,
    address: Ipv4,
    node: NodeNumber,
    at: FaultPlace,
    key: Key,
) -> Result<(), PlacedFault>
    ensures { LeavesAt result (owned at key owners.old address node) owners.new }
{
    match owners.node(address) {
        None => {
            owners.push(Owner { address, node })?;
            Ok(())
        }
        Some(other) => {
            if other == node {
                Ok(())
            } else {
                Err(PlacedFault::with_node(at, key, TeFault::AddressTwice, other))
            }
        }
    }
}

#[tactic(auto, unfolding(crate::specs::LinkText::with_node))]
fn add_node(alloc: Global, parts: &mut Parts, table: &Table) -> Result<(), PlacedFault>
    ensures { LeavesAt result (with_node (base_in parts.old) (table_view table.now)) (base_in parts.new) }
{
    let number = parts.nodes.len();
    let at = FaultPlace::InTable(TableKind::Nodes, number);
    let fields = node_fields(table, at)?;
    let node = node_of(alloc, &fields, at)?;
    if let Some(other) = parts.nodes.number(node.name.as_str()) {
        return Err(PlacedFault::with_node(at, Key::Name, TeFault::NameTwice, other));
    }
    own(&mut parts.owners, node.id, number, at, Key::Id)?;
    parts.nodes.push(node)?;
    Ok(())
}

#[tactic(auto, unfolding(crate::specs::LinkText::ends_of))]
fn ends(
    parts: &Parts,
    fields: &LinkFields,
    at: FaultPlace,
) -> Result<(NodeNumber, NodeNumber), PlacedFault>
    requires { at ≡ next_link (base_in parts.now) }
    ensures { GivesAt (λ p. p) result (ends_of (base_in parts.now) (link_texts fields.now)) }
{
    let Some(from) = parts.nodes.number(fields.from) else {
        return Err(PlacedFault::at_key(at, Key::From, TeFault::UnknownNode));
    };
    let Some(to) = parts.nodes.number(fields.to) else {
        return Err(PlacedFault::at_key(at, Key::To, TeFault::UnknownNode));
    };
    if from == to {
        return Err(PlacedFault::in_part(at, TeFault::SelfLoop));
    }
    Ok((from, to))
}

#[tactic(auto, unfolding(crate::specs::LinkText::with_link))]
fn add_link(parts: &mut Parts, table: &Table) -> Result<(), PlacedFault>
    ensures { LeavesAt result (with_link (base_in parts.old) (table_view table.now)) (base_in parts.new) }
{
    let at = FaultPlace::InTable(TableKind::Links, parts.links.as_slice().len());
    let fields = link_fields(table, at)?;
    let (local, remote) = link_addresses(&fields, at)?;
    let values = link_values(&fields, at)?;
    let (from, to) = ends(parts, &fields, at)?;
    own(&mut parts.owners, local, from, at, Key::Local)?;
    own(&mut parts.owners, remote, to, at, Key::Remote)?;
    parts.links.reserve(1)?;
    parts.links.push(Link {
        from,
        to,
        local,
        remote,
        igp: values.igp(),
        te: values.te(),
        colour: values.colour(),
        reservable: values.reservable(),
    });
    Ok(())
}

fn add_nodes(alloc: Global, parts: &mut Parts, tables: &[&Table]) -> Result<(), PlacedFault>
    ensures { LeavesAt result (with_nodes (map (λ t. table_view t.now) tables.now) (base_in parts.old)) (base_in parts.new) }
{
    for table in tables {
        add_node(alloc, parts, table)?;
    }
    Ok(())
}

fn add_links(parts: &mut Parts, tables: &[&Table]) -> Result<(), PlacedFault>
    ensures { LeavesAt result (with_links (map (λ t. table_view t.now) tables.now) (base_in parts.old)) (base_in parts.new) }
{
    for table in tables {
        add_link(parts, table)?;
    }
    Ok(())
}

/// Adds all nodes, and then all links.
pub(crate) fn add_tables(
    alloc: Global,
    parts: &mut Parts,
    nodes: &[&Table],
    links: &[&Table],
) -> Result<(), PlacedFault>
    ensures { LeavesAt result (with_tables (map (λ t. table_view t.now) nodes.now) (map (λ t. table_view t.now) links.now) (base_in parts.old)) (base_in parts.new) }
{
    add_nodes(alloc, parts, nodes)?;
    add_links(parts, links)
}
