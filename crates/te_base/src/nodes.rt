//! The nodes of the TED, by number and by name.
ghost use Rattle.std.specs.Prelude.{◌≡◌, ◌++◌, ◌∷◌, ℕ, [], Option, Some, None, length, map, option_map, slice_get, OnOk};
ghost use Rattle.std.specs.declared.alloc.Global.{Global};
ghost use Rattle.std.specs.declared.string.String.{String};
ghost use Rattle.std.specs.Cmp.Lexicographic.{pointwise};
ghost use Rattle.te_base.specs.declared.network.NodePlace.{NodePlace};
ghost use Rattle.te_base.specs.Entries.{node_under};
ghost use Rattle.te_base.specs.LinkText.{node_named};
ghost use Rattle.te_base.specs.Reload.{same_node};

use crate::network::{Node, NodeNumber, NodePlace};
use indexmap::IndexMap;
use pcep_word::Ipv4;
use std::alloc::{AllocError, Global};
use std::marker::Model;

/// Tests whether both tables have a node of the same name and id at the number.
fn same_at(
    ids: &IndexMap<String, (Ipv4, Option<NodePlace>)>,
    others: &IndexMap<String, (Ipv4, Option<NodePlace>)>,
    number: NodeNumber,
) -> bool
    ensures { (e f : String Global × (ℕ × Option NodePlace)) → slice_get ids.now.entries number ≡ Some e → slice_get others.now.entries number ≡ Some f
        → result ≡ same_node (node_under e) (node_under f) }
{
    match (ids.get_index(number), others.get_index(number)) {
        (Some((name, rest)), Some((other, other_rest))) => {
            name == other && rest.0 == other_rest.0
        }
        _ => false,
    }
}

fn same_entries(
    ids: &IndexMap<String, (Ipv4, Option<NodePlace>)>,
    others: &IndexMap<String, (Ipv4, Option<NodePlace>)>,
) -> bool
    ensures { result ≡ pointwise same_node (map node_under ids.now.entries) (map node_under others.now.entries) }
{
    if ids.len() != others.len() {
        return false;
    }
    for number in 0..ids.len() {
        if !same_at(ids, others, number) {
            return false;
        }
    }
    true
}

/// Nodes by number, found by name. A contract sees the list of them.
#[derive(Debug, Drop)]
pub(crate) struct NodeTable {
    ids: IndexMap<String, (Ipv4, Option<NodePlace>)>,
}

impl Model for NodeTable {
    ghost use Rattle.std.specs.Prelude.{List, map};
    ghost use Rattle.te_base.specs.declared.network.Node.{Node};
    ghost use Rattle.te_base.specs.Entries.{node_under};

    ghost Value = { List Node };

    ghost view = { λ t. map node_under t.ids.entries };
}

impl NodeTable {
    /// Makes a table of no nodes. Allocates nothing.
    pub fn new(alloc: Global) -> NodeTable
        ensures { result ≡ [] }
    {
        NodeTable {
            ids: IndexMap::new(alloc),
        }
    }

    /// Counts the nodes.
    pub fn len(&self) -> usize
        ensures { result ≡ length self.now }
    {
        self.ids.len()
    }

    /// Looks up the name, the id and the place of a node. None past the last.
    pub fn get(&self, number: NodeNumber) -> Option<(&str, Ipv4, Option<NodePlace>)>
        ensures { option_map (λ n. record { name = n.0.now; id = n.1; place = n.2 }) result ≡ slice_get self.now number }
    {
        let (name, rest) = self.ids.get_index(number)?;
        Some((name.as_str(), rest.0, rest.1))
    }

    /// Finds the number of the node with this name.
    pub fn number(&self, name: &str) -> Option<NodeNumber>
        ensures { result ≡ node_named self.now name.now }
    {
        self.ids.get_index_of(name)
    }

    /// Tests whether another table has the same nodes at the same numbers.
    pub fn is_same(&self, other: &NodeTable) -> bool
        ensures { result ≡ pointwise same_node self.now other.now }
    {
        same_entries(&self.ids, &other.ids)
    }

    /// Adds a node at the end. No node has its name yet.
    pub fn push(&mut self, node: Node) -> Result<(), AllocError>
        requires new { node_named self.old node.name ≡ None }
        ensures pushed { OnOk result (self.new ≡ self.old ++ node ∷ []) }
    {
        let Node { name, id, place } = node;
        self.ids.insert(name.into_text(), (id, place))?;
        Ok(())
    }
}
