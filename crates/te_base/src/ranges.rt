//! The values of a table's fields, each in its range.
ghost use Rattle.std.specs.Prelude.{IfOk, IsTrue};
ghost use Rattle.te_base.specs.Keys.{is_within};
ghost use Rattle.te_base.specs.Places.{GivesAt};
ghost use Rattle.te_base.specs.Ranges.{name_of, address_in, number_in, node_value, link_addresses, link_values};
ghost use Rattle.te_base.specs.Views.{node_texts, link_texts};

use crate::fault::{FaultPlace, PlacedFault, TeFault};
use crate::fields::{LinkFields, NodeFields};
use crate::keys::Key;
use crate::link_values::LinkValues;
use crate::name::Name;
use crate::network::Node;
use pcep_word::Ipv4;
use std::alloc::Global;

fn checked_name(text: &str, at: FaultPlace, key: Key) -> Result<&str, PlacedFault>
    ensures { GivesAt (λ s. s.now) result (name_of at key text.now) }
{
    if !key.is_within(text.len() as u64) {
        return Err(PlacedFault::at_key(at, key, TeFault::OutOfRange));
    }
    Ok(text)
}

fn address(text: &str, at: FaultPlace, key: Key) -> Result<Ipv4, PlacedFault>
    ensures { GivesAt (λ a. a) result (address_in at key text.now) }
{
    match Ipv4::parse(text) {
        Some(address) if key.is_within(u64::from(address.0)) => Ok(address),
        _ => Err(PlacedFault::at_key(at, key, TeFault::OutOfRange)),
    }
}

fn number(number: i64, at: FaultPlace, key: Key) -> Result<u64, PlacedFault>
    ensures given { GivesAt (λ n. n) result (number_in at key number) }
    ensures within { IfOk result (λ n. IsTrue (is_within key n)) }
{
    if number < 0 || !key.is_within(number as u64) {
        return Err(PlacedFault::at_key(at, key, TeFault::OutOfRange));
    }
    Ok(number as u64)
}

#[tactic(auto, unfolding(crate::specs::Ranges::node_value))]
pub(crate) fn node_of(
    alloc: Global,
    fields: &NodeFields,
    at: FaultPlace,
) -> Result<Node, PlacedFault>
    ensures { GivesAt (λ n. n) result (node_value at (node_texts fields.now)) }
{
    let name = checked_name(fields.name, at, Key::Name)?;
    let id = address(fields.id, at, Key::Id)?;
    let (name, place) = (Name::new(alloc, name)?, fields.place);
    Ok(Node { name, id, place })
}

/// Reads the addresses of the link at the node that it leaves and at the one that it reaches. Judges the names of both
/// first.
#[tactic(auto, unfolding(crate::specs::Ranges::link_addresses))]
pub(crate) fn link_addresses(
    fields: &LinkFields,
    at: FaultPlace,
) -> Result<(Ipv4, Ipv4), PlacedFault>
    ensures { GivesAt (λ p. p) result (link_addresses at (link_texts fields.now)) }
{
    checked_name(fields.from, at, Key::From)?;
    checked_name(fields.to, at, Key::To)?;
    let local = address(fields.local, at, Key::Local)?;
    let remote = address(fields.remote, at, Key::Remote)?;
    Ok((local, remote))
}

#[tactic(auto, unfolding(crate::specs::Ranges::link_values, crate::specs::Values::checked_values))]
pub(crate) fn link_values(fields: &LinkFields, at: FaultPlace) -> Result<LinkValues, PlacedFault>
    ensures { GivesAt (λ v. v) result (link_values at (link_texts fields.now)) }
{
    let igp = number(fields.igp, at, Key::Igp)?;
    let te = number(fields.te, at, Key::Te)?;
    let colour = number(fields.colour, at, Key::Colour)?;
    let reservable = number(fields.reservable, at, Key::Reservable)?;
    match LinkValues::new(igp, te, colour, reservable) {
        Some(values) => Ok(values),
        None => unreachable!(),
    }
}
