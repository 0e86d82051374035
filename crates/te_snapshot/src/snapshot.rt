//! A network and how much its links can still carry.
ghost use Rattle.std.specs.Prelude.{◌≡◌, ◌<◌, ◌≤◌, ℤ, IfOk, IfSome, All, length, slice_get, option_map};
ghost use Rattle.std.specs.Arc.{arc_value};
ghost use Rattle.te_base.specs.Ted.{IsLinkAmong};
ghost use Rattle.te_base.specs.Owners.{owner_of};
ghost use Rattle.te_snapshot.specs.Network.{state_of};
ghost use Rattle.te_snapshot.specs.Room.{left};

use crate::table::Table;
use crate::topology::Topology;
use pcep_word::{Ipv4, Priority};
use sequence::PlainData;
use std::alloc::{AllocError, Global};
use std::marker::Model;
use std::sync::Arc;
use te_base::{Link, LinkNumber, NodeNumber};

/// What copies of a snapshot share.
#[derive(Drop)]
struct Shared {
    topology: Arc<Topology, Global>,
    unreserved: Table,
}

/// A network and the unreserved bandwidth of its links at one moment, in bytes per second for each priority. It never
/// changes. A contract sees it as a `NetworkState`, with eight numbers for each link.
#[derive(Drop)]
pub struct Snapshot {
    shared: Arc<Shared, Global>,
}

impl Model for Snapshot {
    ghost use Rattle.te_snapshot.specs.Network.{NetworkState};

    ghost Value = { NetworkState };

    ghost use Rattle.te_snapshot.specs.Shared.{state_in, IsWhole};

    ghost view = { state_in };

    ghost invariant = { IsWhole };
}

impl Snapshot {
    /// Joins the network with these numbers. The eight at a place are what is unreserved on the link of that number, by
    /// priority. They are below 0 if more was reported than the link can carry.
    pub fn new(
        alloc: Global,
        topology: Arc<Topology, Global>,
        unreserved: Vec<[i64; 8]>,
    ) -> Result<Snapshot, AllocError>
        requires { length unreserved.items ≡ length (arc_value topology).links }
        ensures { IfOk result (λ s. s ≡ state_of (arc_value topology) unreserved.items) }
    {
        let _few = topology.links();
        let table = Table::new(alloc, &unreserved)?;
        Snapshot::of(alloc, topology, table)
    }

    /// Joins the network with this table.
    pub fn of(
        alloc: Global,
        topology: Arc<Topology, Global>,
        unreserved: Table,
    ) -> Result<Snapshot, AllocError>
        requires { length unreserved ≡ length (arc_value topology).links }
        ensures { IfOk result (λ s. s ≡ state_of (arc_value topology) unreserved) }
    {
        let shared = Arc::new(
            alloc,
            Shared {
                topology,
                unreserved,
            },
        )?;
        Ok(Snapshot { shared })
    }

    /// Lends the network.
    pub fn topology(&self) -> &Topology
        ensures { result.now ≡ self.now.network }
    {
        &self.shared.topology
    }

    /// Shares the network. Allocates nothing.
    pub fn shared_topology(&self) -> Result<Arc<Topology, Global>, AllocError>
        ensures { IfOk result (λ t. arc_value t ≡ self.now.network) }
    {
        Arc::try_clone(&self.shared.topology)
    }

    /// Looks up what is unreserved on a link at a priority, in bytes per second. None if there is no such link.
    pub fn unreserved(&self, link: LinkNumber, priority: Priority) -> Option<i64>
        ensures { result ≡ option_map (λ _. left self.now.unreserved link priority) (slice_get self.now.network.links link) }
    {
        let numbers = self.table().get(link)?;
        Some(numbers[priority.number() as usize])
    }

    /// Lends what is unreserved on each link: eight numbers at the link's number, by priority.
    pub fn table(&self) -> &Table
        ensures table { result.now ≡ self.now.unreserved }
        ensures whole { length result.now ≡ length self.now.network.links }
    {
        &self.shared.unreserved
    }
}

impl PlainData for Snapshot {
    /// Shares the snapshot. Allocates nothing.
    fn copy(&self) -> Result<Snapshot, AllocError> {
        Ok(Snapshot {
            shared: Arc::try_clone(&self.shared)?,
        })
    }
}
