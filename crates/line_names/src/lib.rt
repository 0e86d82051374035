//! Names of nodes in an operator's line. A word that can be read as it stands keeps its meaning. Any other word for a peer or
//! an end of a path is the name of a node: at an end it stands for the node's id, and as a peer for that address of the node
//! which is a known peer, or for the node's id if none is (`specs/Names.antt`). `plain_line` puts the addresses in place of the
//! names (`specs/Plain.antt`).
//!
//! ```text
//! fn plain(alloc: Global, te: &TeBase, nodes: &[Node], peers: &[u32], line: &str) -> Result<String, AllocError>
//!     requires { nodes.now ≡ te.now.nodes }
//! {
//!     plain_line(alloc, line, named_in(te, nodes, peers, line))
//! }
//! ```
#![tactic(auto)]

mod named;
mod plain;

pub use named::named_in;
pub use plain::{Named, has_names, plain_line};
