//! Nodes, links and owners of addresses, as plain data.
use crate::name::Name;
use crate::nodes::NodeTable;
use crate::owners::OwnerTable;
use keyed_list::KeyedList;
use pcep_word::Ipv4;
use sequence::PlainData;
use std::alloc::AllocError;

/// The place of a node in the link text, from 0.
pub type NodeNumber = usize;

/// The place of a link in the link text, from 0.
pub type LinkNumber = usize;

/// Where a node is drawn on a map, in any unit. The TED doesn't use it.
#[derive(Clone, Copy, Debug, PartialEq, Eq)]
pub struct NodePlace {
    /// To the east.
    pub x: i64,
    /// To the north.
    pub y: i64,
}

/// A router.
#[derive(Debug, Drop)]
pub struct Node {
    /// 1 to 64 bytes. No other node has this name.
    pub name: Name,
    /// Its own address, which is its router ID (RFC 3630 section 2.4.1).
    pub id: Ipv4,
    /// Where it is drawn, if its table says so.
    pub place: Option<NodePlace>,
}

impl PlainData for Node {
    fn copy(&self) -> Result<Node, AllocError> {
        let name = self.name.copy()?;
        Ok(Node { name, ..*self })
    }
}

/// A directed link between two nodes.
#[derive(Clone, Copy, Debug, PartialEq, Eq)]
pub struct Link {
    /// The node that it leaves.
    pub from: NodeNumber,
    /// The node that it reaches, another one.
    pub to: NodeNumber,
    /// Its address at the node that it leaves (RFC 3630 section 2.5.3).
    pub local: Ipv4,
    /// Its address at the node that it reaches (RFC 3630 section 2.5.4).
    pub remote: Ipv4,
    /// Its IGP metric, 1 to 16,777,215.
    pub igp: u32,
    /// Its traffic engineering metric, 1 to 16,777,215 (RFC 3630 section 2.5.5).
    pub te: u32,
    /// Its administrative groups, one per bit (RFC 3630 section 2.5.9).
    pub colour: u32,
    /// The bandwidth that may be reserved on it, in bytes per second, below 2^48 (RFC 3630 section 2.5.7).
    pub reservable: u64,
}

/// A node owns an address.
#[derive(Clone, Copy, Debug, PartialEq, Eq)]
pub struct Owner {
    /// The address.
    pub address: Ipv4,
    /// The node that owns it.
    pub node: NodeNumber,
}

/// What has been read so far of a link text.
#[derive(Debug, Drop)]
pub(crate) struct Parts {
    pub nodes: NodeTable,
    pub links: KeyedList<Link>,
    pub owners: OwnerTable,
}
