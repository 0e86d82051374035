//! What a reload compares and changes.
ghost use Rattle.std.specs.Prelude.{◌≡◌, ◌<◌, All, IfOk, length, map};
ghost use Rattle.std.specs.Cmp.Lexicographic.{pointwise};
ghost use Rattle.te_base.specs.Reload.{same_ends, same_network};
ghost use Rattle.te_base.specs.Values.{AreInRange, set_values, values_of};
ghost use Rattle.te_base.specs.Views.{base_in};

use crate::link_values::LinkValues;
use crate::network::{Link, LinkNumber, Parts};
use keyed_list::KeyedList;
use std::alloc::{AllocError, Global};

/// Tests whether both links join the same nodes, with the same addresses there.
fn same_ends(link: &Link, other: &Link) -> bool
    ensures { result ≡ same_ends link.now other.now }
{
    link.from == other.from
        && link.to == other.to
        && link.local == other.local
        && link.remote == other.remote
}

fn all_same_ends(links: &[Link], others: &[Link]) -> bool
    ensures { result ≡ pointwise same_ends links.now others.now }
{
    if links.len() != others.len() {
        return false;
    }
    for (place, link) in links.iter().enumerate() {
        if !same_ends(link, &others[place]) {
            return false;
        }
    }
    true
}

/// Tests whether both are the same network, apart from the values of its links.
pub(crate) fn is_same(parts: &Parts, others: &Parts) -> bool
    ensures { result ≡ same_network (base_in parts.now) (base_in others.now) }
{
    parts.nodes.is_same(&others.nodes)
        && all_same_ends(parts.links.as_slice(), others.links.as_slice())
}

/// Lists the values of each link.
pub(crate) fn all_values(alloc: Global, links: &[Link]) -> Result<Vec<LinkValues>, AllocError>
    requires { All (λ l. AreInRange (values_of l)) links.now }
    ensures { IfOk result (λ values. values.items ≡ map values_of links.now) }
{
    let mut values = Vec::with_capacity(alloc, links.len())?;
    for link in links {
        values.push(link.values())?;
    }
    Ok(values)
}

/// Gives the link of this number other values.
pub fn set_values(links: &mut [Link], number: LinkNumber, values: LinkValues)
    requires { number < length links.old }
    ensures links { links.new ≡ set_values links.old number values }
    ensures ranges { AreInRange values }
{
    links[number] = links[number].with_values(values);
}

/// Gives the link of this number in a list with an index other values.
pub(crate) fn set_listed_values(links: &mut KeyedList<Link>, number: LinkNumber, values: LinkValues)
    requires { number < length links.old.items }
    ensures links { links.new.items ≡ set_values links.old.items number values }
    ensures ranges { AreInRange values }
{
    let link = links.as_slice()[number];
    links.replace(number, link.with_values(values));
}
