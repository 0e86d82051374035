//! The nodes of a network, copied.
ghost use Rattle.std.specs.Prelude.{◌≡◌, ◌<◌, length, slice_get, Some, IfOk};

use std::alloc::{AllocError, Global};
use te_base::{Name, Node, NodeNumber, TeBase};

/// Copies a node.
pub fn node_at(alloc: Global, te: &TeBase, number: NodeNumber) -> Result<Node, AllocError>
    requires { number < length te.now.nodes }
    ensures { IfOk result (λ node. slice_get te.now.nodes number ≡ Some node) }
{
    let Some((name, id, place)) = te.node(number) else {
        unreachable!()
    };
    Ok(Node {
        name: Name::new(alloc, name)?,
        id,
        place,
    })
}

/// Copies all nodes, by their numbers.
pub fn nodes_of(alloc: Global, te: &TeBase) -> Result<Vec<Node>, AllocError>
    ensures { IfOk result (λ nodes. nodes.items ≡ te.now.nodes) }
{
    let count = te.node_count();
    let mut nodes = Vec::with_capacity(alloc, count)?;
    for number in 0..count {
        nodes.push(node_at(alloc, te, number)?)?;
    }
    Ok(nodes)
}
