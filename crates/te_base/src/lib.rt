//! The TED (traffic engineering database): nodes, directed links and who owns which address. `TeBase::read` reads it
//! from a link text in TOML, or gives the text's first fault. After that only metrics, colours and reservable bandwidth
//! of links can change (`TeBase::set_values`), to those of the text read again (`TeBase::reload`).
//!
//! The layer above may rely on each `TeBase` being sound: it has at most 1,024 nodes and 4,096 links; each link joins
//! two different nodes and has every number in its range; each address is owned by the node that has it as its own or
//! as its end of a link, and by no other. `TeBase::walk` gives the links that a route of RFC 3209 uses. Each of them
//! exists and none comes twice. They are the links on which a path with that route reserves.
//!
//! The definitions are in `specs/`. `LinkText` says what the text means and which fault comes first, in which table and at
//! which key, over `Fields`, `Ranges` and `Owners`; `Keys` has the keys with their ranges, `Places` the faults. `Ted` has the lists and `IsSound`, `Values` the
//! values of links and what stays when they change, `Reload` the text read again, `Walk` the walk, and `Faults` the
//! words in which a clause says "this value, or this fault first". Names and addresses are looked up in an `IndexMap`,
//! the links that leave a node in a `KeyedList`.
//!
//! - `network`, `link_values`, `name`, `keys`, `fault`: plain data, the keys of a link text and its faults
//! - `fields`, `ranges`: a table's fields, and their values
//! - `nodes`, `owners`, `links`: what is found by name, by address and by node
//! - `tables`: nodes and links read from their tables
//! - `reload`: a network compared with another, and values of links set
//! - `walk`: the links of a route
//! - `base`: the TED
//!
//! ```text
//! fn first_link(alloc: Global, text: &str, from: Ipv4, to: Ipv4) -> Result<Option<Link>, TeFault> {
//!     let base = TeBase::read(alloc, text)?;
//!     let links = base.walk(alloc, from, &[], to)?;
//!     match links.first() {
//!         Some(number) => Ok(base.link(*number)),
//!         None => Ok(None),
//!     }
//! }
//! ```
#![tactic(auto)]

mod base;
mod fault;
mod fields;
mod keys;
mod link_values;
mod links;
mod name;
mod network;
mod nodes;
mod owners;
mod ranges;
mod reload;
mod tables;
mod walk;

pub use base::{LINK_LIMIT, NODE_LIMIT, TeBase};
pub use fault::{FaultPlace, PlacedFault, TeFault};
pub use keys::{Key, TableKind};
pub use link_values::LinkValues;
pub use name::Name;
pub use network::{Link, LinkNumber, Node, NodeNumber, NodePlace, Owner};
pub use owners::OwnerTable;
pub use reload::set_values;
