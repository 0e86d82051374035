//! Why a link text was refused.
ghost use Rattle.std.specs.Prelude.{◌≡◌};
ghost use Rattle.te_base.specs.declared.fault.TeFault.TheVariants.{OutOfMemory};
ghost use Rattle.te_base.specs.Places.{fault_at, fault_in, fault_with};

use crate::keys::{Key, TableKind};
use crate::network::NodeNumber;
use std::alloc::{AllocError, AllocFailed};
use thiserror::Error;

/// The first fault of a link text. The text itself comes first, then too many tables, then each node's table in order,
/// then each link's. Within a table, faults come in the order that the variants' comments give. The text of a fault
/// contains its number.
#[derive(Clone, Copy, Debug, PartialEq, Eq, Error)]
pub enum TeFault {
    /// The text is not TOML. An integer that TOML can't hold is one reason.
    #[error("te fault 1")]
    NotToml,
    /// A field is absent or of another kind, or `node` or `link` is not an array of tables. All fields of
    /// a table are looked for before any value is judged.
    #[error("te fault 2")]
    MissingField,
    /// A name is empty or has more than 64 bytes, an address is not four numbers joined by dots or is 0.0.0.0, or a
    /// number is out of its range.
    #[error("te fault 3")]
    OutOfRange,
    /// An end of a link is no node's name.
    #[error("te fault 4")]
    UnknownNode,
    /// An address has two nodes as owners. This is the last fault of a table that is looked for.
    #[error("te fault 5")]
    AddressTwice,
    /// An earlier node has the name.
    #[error("te fault 6")]
    NameTwice,
    /// Both ends of a link are one node.
    #[error("te fault 7")]
    SelfLoop,
    /// There are more than 1,024 nodes or 4,096 links. This is looked for before anything in a table.
    #[error("te fault 8")]
    TooMany,
    /// Memory ran out. This may come in place of any answer.
    #[error("out of memory")]
    OutOfMemory,
    /// The text, read again, has other nodes, or other ends or addresses of links, or more or fewer of them. Only a
    /// reload finds this, and it is looked for last.
    #[error("te fault 10")]
    OtherLinks,
}

/// A part of a link text.
#[derive(Clone, Copy, Debug, PartialEq, Eq)]
pub enum FaultPlace {
    /// The text as a whole: its TOML, how many tables there are.
    InText,
    /// The array of all tables of a kind.
    InArray(TableKind),
    /// The table of this number, from 0, in the array.
    InTable(TableKind, usize),
}

/// A fault and where it is.
#[derive(Clone, Copy, Debug, PartialEq, Eq)]
pub struct PlacedFault {
    /// The fault.
    pub fault: TeFault,
    /// The part that has the fault. If memory ran out, the rest means nothing.
    pub place: FaultPlace,
    /// The key at fault. None if the part as a whole is.
    pub key: Option<Key>,
    /// The node that already has the name or owns the address.
    pub other: Option<NodeNumber>,
}

impl PlacedFault {
    /// Makes the fault of a part as a whole.
    pub fn in_part(place: FaultPlace, fault: TeFault) -> PlacedFault
        ensures { result ≡ fault_in place fault }
    {
        PlacedFault {
            fault,
            place,
            key: None,
            other: None,
        }
    }

    /// Makes the fault of a key.
    pub(crate) fn at_key(place: FaultPlace, key: Key, fault: TeFault) -> PlacedFault
        ensures { result ≡ fault_at place key fault }
    {
        PlacedFault {
            fault,
            place,
            key: Some(key),
            other: None,
        }
    }

    /// Makes the fault of a key whose value another node has.
    pub(crate) fn with_node(
        place: FaultPlace,
        key: Key,
        fault: TeFault,
        node: NodeNumber,
    ) -> PlacedFault
        ensures { result ≡ fault_with place key fault node }
    {
        PlacedFault {
            fault,
            place,
            key: Some(key),
            other: Some(node),
        }
    }
}

impl From<AllocError> for PlacedFault {
    ghost from_gives = { λ _ e. e.fault ≡ OutOfMemory };

    fn from(_e: AllocError) -> PlacedFault {
        PlacedFault::in_part(FaultPlace::InText, TeFault::OutOfMemory)
    }
}

impl<T: Drop> From<AllocFailed<T>> for PlacedFault {
    ghost from_gives = { λ _ e. e.fault ≡ OutOfMemory };

    fn from(_e: AllocFailed<T>) -> PlacedFault {
        PlacedFault::in_part(FaultPlace::InText, TeFault::OutOfMemory)
    }
}

impl From<AllocError> for TeFault {
    ghost from_gives = { λ _ e. e ≡ OutOfMemory };

    fn from(_e: AllocError) -> TeFault {
        TeFault::OutOfMemory
    }
}

impl<T: Drop> From<AllocFailed<T>> for TeFault {
    ghost from_gives = { λ _ e. e ≡ OutOfMemory };

    fn from(_e: AllocFailed<T>) -> TeFault {
        TeFault::OutOfMemory
    }
}

impl TeFault {
    ghost use Rattle.te_base.specs.Faults.{fault_number};

    /// Returns the number of the fault, 1 to 10.
    pub fn number(self) -> u8
        ensures { result ≡ fault_number self }
    {
        match self {
            TeFault::NotToml => 1,
            TeFault::MissingField => 2,
            TeFault::OutOfRange => 3,
            TeFault::UnknownNode => 4,
            TeFault::AddressTwice => 5,
            TeFault::NameTwice => 6,
            TeFault::SelfLoop => 7,
            TeFault::TooMany => 8,
            TeFault::OutOfMemory => 9,
            TeFault::OtherLinks => 10,
        }
    }
}
