//! What the names of nodes in an operator's line stand for.
ghost use Rattle.std.specs.Prelude.{◌≡◌, count_by, find, option_copied};
ghost use Rattle.line_names.specs.Names.{end_named, id_of, is_at, named_in, node_named, peer_among, peer_named, peer_of_node};

use crate::plain::Named;
use asks::{wrong_from_in, wrong_peer_in, wrong_to_in};
use pcep_word::Ipv4;
use te_base::{Node, NodeNumber, TeBase};

/// Finds the node with a name.
fn node_named(nodes: &[Node], name: &str) -> Option<NodeNumber>
    ensures { result ≡ node_named nodes.now name.now }
{
    nodes.iter().position(|node| node.name.as_str() == name)
}

/// Returns the id of a node.
fn id_of(nodes: &[Node], number: NodeNumber) -> Option<Ipv4>
    ensures { result ≡ id_of nodes.now number }
{
    match nodes.get(number) {
        Some(node) => Some(node.id),
        None => None,
    }
}

/// Finds the end of a path that a name stands for: the id of its node.
#[tactic(auto, unfolding(crate::specs::Names::end_named))]
fn end_named(nodes: &[Node], name: &str) -> Option<Ipv4>
    ensures { result ≡ end_named nodes.now name.now }
{
    id_of(nodes, node_named(nodes, name)?)
}

/// Tests whether a node owns a peer's address.
fn is_at(te: &TeBase, node: NodeNumber, peer: u32) -> bool
    ensures { result ≡ is_at te.now node peer }
{
    match te.owner(Ipv4(peer)) {
        Some(owner) => owner == node,
        None => false,
    }
}

/// Counts the peers whose address a node owns.
fn count_at(te: &TeBase, peers: &[u32], node: NodeNumber) -> usize
    ensures { result ≡ count_by (is_at te.now node) peers.now }
{
    peers.iter().filter(|peer| is_at(te, node, **peer)).count()
}

/// Finds the first peer whose address a node owns.
fn first_at<'a>(te: &TeBase, peers: &'a [u32], node: NodeNumber) -> Option<&'a u32>
    ensures { option_copied result ≡ find (is_at te.now node) peers.now }
{
    peers.iter().find(|peer| is_at(te, node, **peer))
}

/// Returns the peer whose address a node owns, or the node's id if there is none; `None` if there are several.
fn peer_among(te: &TeBase, peers: &[u32], node: NodeNumber, id: Ipv4) -> Option<Ipv4>
    ensures { result ≡ peer_among te.now peers.now node id }
{
    match count_at(te, peers, node) {
        0 => Some(id),
        1 => match first_at(te, peers, node) {
            Some(peer) => Some(Ipv4(*peer)),
            None => None,
        },
        _ => None,
    }
}

/// Returns the peer that a node stands for.
fn peer_of_node(te: &TeBase, nodes: &[Node], peers: &[u32], node: NodeNumber) -> Option<Ipv4>
    requires nodes { nodes.now ≡ te.now.nodes }
    ensures peer { result ≡ peer_of_node te.now peers.now node }
{
    let id = id_of(nodes, node)?;
    peer_among(te, peers, node, id)
}

/// Finds the peer that a name stands for.
#[tactic(auto, unfolding(crate::specs::Names::peer_named))]
fn peer_named(te: &TeBase, nodes: &[Node], peers: &[u32], name: &str) -> Option<Ipv4>
    requires nodes { nodes.now ≡ te.now.nodes }
    ensures peer { result ≡ peer_named te.now peers.now name.now }
{
    peer_of_node(te, nodes, peers, node_named(nodes, name)?)
}

/// Finds what the names in a line stand for in a network with these nodes, if these peers are known.
pub fn named_in(te: &TeBase, nodes: &[Node], peers: &[u32], line: &str) -> Named
    requires nodes { nodes.now ≡ te.now.nodes }
    ensures named { result ≡ named_in te.now peers.now line.now }
{
    Named {
        peer: match wrong_peer_in(line) {
            Some(name) => peer_named(te, nodes, peers, name),
            None => None,
        },
        from: match wrong_from_in(line) {
            Some(name) => end_named(nodes, name),
            None => None,
        },
        to: match wrong_to_in(line) {
            Some(name) => end_named(nodes, name),
            None => None,
        },
    }
}
