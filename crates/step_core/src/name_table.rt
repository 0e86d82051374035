//! The names of granted initiations, found by their grants.
ghost use Rattle.std.specs.Prelude.{◌≡◌, ◌<◌, ◌++◌, ◌∷◌, [], false, find, OnOk, option_copied};
ghost use Rattle.std.specs.List.{list_any};
ghost use Rattle.lsp_base.specs.Lsps.{without_first};
ghost use Rattle.step_core.specs.Names.{is_of_grant};
ghost use Rattle.step_core.specs.States.{is_awaited_as, is_grant_of_name, names_without};

use crate::names::{AwaitedName, GrantKey, unbound_srp};
use indexmap::IndexMap;
use initiate_rules::is_same_name;
use lsp_base::Path;
use std::alloc::{AllocError, Global};
use std::marker::Model;

/// The names in order, under the keys of their grants. A contract sees the list of names, and for how many more there
/// is room.
#[derive(Drop)]
pub(crate) struct NameTable {
    map: IndexMap<GrantKey, AwaitedName>,
}

impl Model for NameTable {
    ghost use Rattle.indexmap.specs.IndexMap.{spare, values};
    ghost use Rattle.step_core.specs.Names.{AreKeyed, NameRoom};

    ghost Value = { NameRoom };

    ghost view = { λ t. record { names = values t.map; room = spare t.map } };

    ghost invariant = { λ t. AreKeyed t.map.entries };
}

impl NameTable {
    /// Makes a table of no names. Allocates nothing.
    pub fn new(alloc: Global) -> NameTable
        ensures { result.names ≡ [] }
    {
        NameTable {
            map: IndexMap::new(alloc),
        }
    }

    /// Lends the names, in order.
    pub fn as_slice(&self) -> &[AwaitedName]
        ensures { result.now ≡ self.now.names }
    {
        self.map.values().as_slice()
    }

    /// Finds the name of the peer's grant of an SRP-ID.
    pub fn of_grant(&self, peer: u32, srp: u32) -> Option<&AwaitedName>
        ensures { option_copied result ≡ find (is_of_grant peer srp) self.now.names }
    {
        self.map.get(&GrantKey { peer, srp })
    }

    /// Makes room for a name.
    pub fn reserve(&mut self) -> Result<(), AllocError>
        ensures room { OnOk result (0 < self.new.room) }
        ensures names { self.new.names ≡ self.old.names }
    {
        self.map.reserve(1)?;
        Ok(())
    }

    /// Adds the name of a grant that has none at the end, into reserved room.
    pub fn add(&mut self, name: AwaitedName)
        requires room { 0 < self.old.room }
        requires absent { list_any (is_of_grant name.peer name.srp) self.old.names ≡ false }
        ensures { self.new.names ≡ self.old.names ++ name ∷ [] }
    {
        let key = GrantKey {
            peer: name.peer,
            srp: name.srp,
        };
        let _old = self.map.insert(key, name).unwrap();
    }

    /// Removes the name of a grant. The last one takes its place.
    fn drop_of_grant(&mut self, peer: u32, srp: u32)
        ensures { self.new.names ≡ without_first (is_of_grant peer srp) self.old.names }
    {
        self.map.swap_remove(&GrantKey { peer, srp });
    }

    /// Removes the name of a grant that goes away. Any other path has none.
    fn drop_name(&mut self, gone: &Path)
        ensures { self.new.names ≡ without_first (λ a. is_grant_of_name a gone.now) self.old.names }
    {
        if let Some(srp) = unbound_srp(gone) {
            self.drop_of_grant(gone.peer, srp);
        }
    }

    /// Removes the names of those of these paths that are grants.
    pub fn drop_names(&mut self, gone: &[Path])
        ensures { self.new.names ≡ names_without self.old.names gone.now }
    {
        for path in gone {
            self.drop_name(path);
        }
    }

    /// Tests whether a granted initiation of the peer has the name and no report has named it yet.
    pub fn is_awaited(&self, peer: u32, name: &[u8]) -> bool
        ensures { result ≡ list_any (is_awaited_as peer name.now) self.now.names }
    {
        self.as_slice().iter().any(|awaited| awaited.peer == peer
            && is_same_name(awaited.name.as_slice(), name))
    }
}
