//! The links of the TED. Those that leave a node are found by an index.
ghost use Rattle.std.specs.Prelude.{◌≡◌, ◌==◌, ◌&&◌, position};
ghost use Rattle.te_base.specs.Entries.{link_bucket, node_bucket};
ghost use Rattle.te_base.specs.Walk.{chosen_link, joins, remembered_link};

use crate::network::{Link, LinkNumber, NodeNumber};
use keyed_list::{Keyed, KeyedList, Test};
use pcep_word::Ipv4;

/// Returns the bucket of the links that leave a node.
fn bucket_of_node(node: NodeNumber) -> u16
    ensures { result ≡ node_bucket node }
{
    (node % 16384) as u16
}

impl Keyed for Link {
    ghost bucket_of = { link_bucket };

    fn bucket(&self) -> u16 {
        bucket_of_node(self.from)
    }
}

/// A link from one node to another.
#[derive(Drop)]
struct Joining {
    from: NodeNumber,
    to: NodeNumber,
}

impl Test<Link> for Joining {
    ghost passes = { λ s l. joins s.from s.to l };

    fn passes(&self, link: &Link) -> bool {
        link.from == self.from && link.to == self.to
    }
}

/// A link from one node to another, with this remote address.
#[derive(Drop)]
struct WithRemote {
    joining: Joining,
    remote: Ipv4,
}

impl Test<Link> for WithRemote {
    ghost passes = { λ s l. joins s.joining.from s.joining.to l && l.remote == s.remote };

    fn passes(&self, link: &Link) -> bool {
        self.joining.passes(link) && link.remote == self.remote
    }
}

/// A link from one node to another, with this local address.
#[derive(Drop)]
struct WithLocal {
    joining: Joining,
    local: Ipv4,
}

impl Test<Link> for WithLocal {
    ghost passes = { λ s l. joins s.joining.from s.joining.to l && l.local == s.local };

    fn passes(&self, link: &Link) -> bool {
        self.joining.passes(link) && link.local == self.local
    }
}

fn by_remote(
    links: &KeyedList<Link>,
    from: NodeNumber,
    to: NodeNumber,
    remote: Ipv4,
) -> Option<LinkNumber>
    ensures { result ≡ position (λ l. joins from to l && l.remote == remote) links.now.items }
{
    let joining = Joining { from, to };
    links.position(bucket_of_node(from), &WithRemote { joining, remote })
}

fn by_local(
    links: &KeyedList<Link>,
    from: NodeNumber,
    to: NodeNumber,
    local: Ipv4,
) -> Option<LinkNumber>
    ensures { result ≡ position (λ l. joins from to l && l.local == local) links.now.items }
{
    let joining = Joining { from, to };
    links.position(bucket_of_node(from), &WithLocal { joining, local })
}

fn by_remembered(
    links: &KeyedList<Link>,
    from: NodeNumber,
    to: NodeNumber,
    remembered: Option<Ipv4>,
) -> Option<LinkNumber>
    ensures { result ≡ remembered_link links.now.items from to remembered }
{
    match remembered {
        None => None,
        Some(local) => by_local(links, from, to, local),
    }
}

fn any_link(links: &KeyedList<Link>, from: NodeNumber, to: NodeNumber) -> Option<LinkNumber>
    ensures { result ≡ position (joins from to) links.now.items }
{
    links.position(bucket_of_node(from), &Joining { from, to })
}

/// Finds the link that leads from one node to another, for the hop at this address.
pub(crate) fn chosen(
    links: &KeyedList<Link>,
    from: NodeNumber,
    to: NodeNumber,
    address: Ipv4,
    remembered: Option<Ipv4>,
) -> Option<LinkNumber>
    ensures { result ≡ chosen_link links.now.items from to address remembered }
{
    match by_remote(links, from, to, address) {
        Some(link) => Some(link),
        None => match by_remembered(links, from, to, remembered) {
            Some(link) => Some(link),
            None => any_link(links, from, to),
        },
    }
}
