//! Who owns which address.
ghost use Rattle.std.specs.Prelude.{◌≡◌, ◌++◌, ◌∷◌, [], None, OnOk};
ghost use Rattle.te_base.specs.Owners.{owner_of};

use crate::network::{NodeNumber, Owner};
use indexmap::IndexMap;
use pcep_word::Ipv4;
use sequence::PlainData;
use std::alloc::{AllocError, Global};
use std::marker::Model;

/// Owners in the order in which the link text names them, found by address. A contract sees the list of them.
#[derive(Debug)]
pub struct OwnerTable {
    map: IndexMap<Ipv4, Owner>,
}

/// Drops its map. Written by hand because a derived drop would be proved again for every owner.
impl Drop for OwnerTable {
    fn drop(self) {
        let OwnerTable { map } = self;
        drop(map);
    }
}

impl Model for OwnerTable {
    ghost use Rattle.std.specs.Prelude.{List};
    ghost use Rattle.indexmap.specs.IndexMap.{values};
    ghost use Rattle.te_base.specs.declared.network.Owner.{Owner};
    ghost use Rattle.te_base.specs.Entries.{AreKeyed};

    ghost Value = { List Owner };

    ghost view = { λ t. values t.map };

    ghost invariant = { λ t. AreKeyed t.map.entries };
}

impl OwnerTable {
    /// Makes a table of no owners. Allocates nothing.
    pub(crate) fn new(alloc: Global) -> OwnerTable
        ensures { result ≡ [] }
    {
        OwnerTable {
            map: IndexMap::new(alloc),
        }
    }

    /// Finds the node that owns an address.
    pub fn node(&self, address: Ipv4) -> Option<NodeNumber>
        ensures { result ≡ owner_of self.now address }
    {
        match self.map.get(&address) {
            Some(owner) => Some(owner.node),
            None => None,
        }
    }

    /// Adds an owner at the end. No node owns the address yet.
    pub(crate) fn push(&mut self, owner: Owner) -> Result<(), AllocError>
        requires new { owner_of self.old owner.address ≡ None }
        ensures pushed { OnOk result (self.new ≡ self.old ++ owner ∷ []) }
    {
        self.map.insert(owner.address, owner)?;
        Ok(())
    }
}

impl PlainData for OwnerTable {
    /// Copies the owners with their index.
    fn copy(&self) -> Result<OwnerTable, AllocError> {
        let map = self.map.clone()?;
        Ok(OwnerTable { map })
    }
}
