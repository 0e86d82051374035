//! The network that snapshots share.
ghost use Rattle.std.specs.Prelude.{◌≡◌, ◌<◌, ◌≤◌, IfOk, IfSome, All, length, slice_get};
ghost use Rattle.te_base.specs.Ted.{IsLinkAmong};
ghost use Rattle.te_snapshot.specs.Admissible.{node_of};
ghost use Rattle.te_snapshot.specs.Leaving.{entering, leaving, IsArcAmong};
ghost use Rattle.te_snapshot.specs.Network.{network_of, with_links, AreLinksOf};

use crate::leaving::{entering, leaving};
use crate::outgoing::Outgoing;
use crate::route::node_of;
use crate::spans::Arcs;
use pcep_word::Ipv4;
use sequence::PlainData;
use std::alloc::{AllocError, Global};
use std::marker::Model;
use std::sync::Arc;
use te_base::{Link, LinkNumber, NodeNumber, OwnerTable, TeBase};

/// The links, the links that leave each node and those that enter it, and the owners of addresses with their index.
/// Topologies of one network share the owners. A contract sees it as a `Network` of lists, which is sound.
#[derive(Drop)]
pub struct Topology {
    nodes: usize,
    links: Vec<Link>,
    owners: Arc<OwnerTable, Global>,
    leaving: Arcs,
    entering: Arcs,
}

impl Model for Topology {
    ghost use Rattle.te_snapshot.specs.Network.{Network};

    ghost Value = { Network };

    ghost use Rattle.te_snapshot.specs.Inside.{network_in, IsInOrder};

    ghost view = { network_in };

    ghost invariant = { IsInOrder };
}

impl Topology {
    /// Copies the network of a link text into memory of its own.
    pub fn new(alloc: Global, te: &TeBase) -> Result<Topology, AllocError>
        ensures { IfOk result (λ t. t ≡ network_of te.now) }
    {
        let nodes = te.node_count();
        Ok(Topology {
            nodes,
            links: te.links().to_vec(alloc)?,
            owners: Arc::new(alloc, te.owners().copy()?)?,
            leaving: leaving(alloc, te.links(), nodes)?,
            entering: entering(alloc, te.links(), nodes)?,
        })
    }

    /// Makes the network with other values of its links, each at its number. The owners are shared.
    pub fn with_links(&self, alloc: Global, links: &[Link]) -> Result<Topology, AllocError>
        requires { AreLinksOf self.now links.now }
        ensures { IfOk result (λ t. t ≡ with_links self.now links.now) }
    {
        Ok(Topology {
            nodes: self.nodes,
            links: links.to_vec(alloc)?,
            owners: Arc::try_clone(&self.owners)?,
            leaving: self.leaving.with_values_of(alloc, links)?,
            entering: self.entering.with_values_of(alloc, links)?,
        })
    }

    /// Counts the nodes, at most 1,024. They are numbered from 0.
    pub fn node_count(&self) -> usize
        ensures count { result ≡ self.now.nodes }
        ensures few { result ≤ 1024 }
    {
        self.nodes
    }

    /// Lends all links, each at its number.
    pub fn links(&self) -> &[Link]
        ensures links { result.now ≡ self.now.links }
        ensures few { length result.now ≤ 4096 }
        ensures sound { All (IsLinkAmong self.now.nodes) result.now }
    {
        &self.links
    }

    /// Looks up the link of a number. None past the last.
    pub fn link(&self, number: LinkNumber) -> Option<Link>
        ensures link { result ≡ slice_get self.now.links number }
        ensures sound { IfSome result (IsLinkAmong self.now.nodes) }
    {
        self.links.get(number).copied()
    }

    /// Finds the node that owns the address of an end. None if the end isn't given or no node owns it.
    pub fn node_of(&self, end: Option<Ipv4>) -> Option<NodeNumber>
        ensures node { result ≡ node_of self.now.owners end }
        ensures within { IfSome result (λ n. n < self.now.nodes) }
    {
        node_of(&self.owners, end)
    }

    /// Lends the links that leave a node, in the order of their numbers.
    pub fn leaving(&self, node: NodeNumber) -> &[Outgoing]
        requires { node < self.now.nodes }
        ensures links { result.now ≡ leaving self.now.links node }
        ensures sound { All (IsArcAmong self.now.nodes) result.now }
    {
        self.leaving.at(node)
    }

    /// Lends the links that enter a node, in the order of their numbers. Each is turned round: `to` is the node that
    /// the link leaves.
    pub fn entering(&self, node: NodeNumber) -> &[Outgoing]
        requires { node < self.now.nodes }
        ensures links { result.now ≡ entering self.now.links node }
        ensures sound { All (IsArcAmong self.now.nodes) result.now }
    {
        self.entering.at(node)
    }
}
