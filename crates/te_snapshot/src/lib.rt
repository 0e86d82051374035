//! What a path search reads: the network, and how much every link can still carry at one moment.
//!
//! A `Topology` is made from a `TeBase`, or from another topology with other values of its links, and never changes. It
//! has the links, the links that leave each node and those that enter it, and the owners of addresses. A `Snapshot`
//! joins it with a `Table` of unreserved bandwidth, eight numbers per link, one for each priority. Both are shared:
//! copying a snapshot counts one more owner, so it can be searched while the network is booked on. Tables share the
//! pages of 64 links in which they agree. `Marks` says which rows are out of date. `OwnShares` says what a tunnel holds
//! already.
//!
//! The layer above may rely on each snapshot being sound: it has at most 1,024 nodes and 4,096 links, each link joins
//! two nodes with metrics from 1 to 16,777,215, and there are eight numbers for each link. The definitions are in
//! `specs/`: `Network` has the lists, `Leaving` the links that leave or enter a node, `Room` says whether a bandwidth
//! fits on a link given what the tunnel holds there, and `Admissible` which paths constraints allow. `Pages` says how a
//! table holds its rows. `route` has the tests of a path that a search and a verdict share.
//!
//! ```text
//! fn snapshot_of(alloc: Global, te: &TeBase, unreserved: Vec<[i64; 8]>) -> Result<Snapshot, AllocError>
//!     requires { length unreserved.items ≡ length te.now.links }
//!     ensures { IfOk result (λ s. s ≡ state_of (network_of te.now) unreserved.items) }
//! {
//!     let topology = Arc::new(alloc, Topology::new(alloc, te)?)?;
//!     Snapshot::new(alloc, topology, unreserved)
//! }
//! ```
#![tactic(auto)]

mod leaving;
mod marks;
mod outgoing;
mod own;
mod route;
mod snapshot;
mod spans;
mod table;
mod topology;

pub use marks::Marks;
pub use outgoing::Outgoing;
pub use own::{OwnShare, OwnShares, own_share};
pub use route::{colours_pass, cost_of, is_within, keeps_other_bounds, node_of};
pub use snapshot::Snapshot;
pub use table::Table;
pub use topology::Topology;
