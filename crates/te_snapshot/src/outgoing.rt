//! A link as seen from a node at its end.
use te_base::{Link, LinkNumber, NodeNumber};

/// A link as seen from the node that it leaves, with what a search asks of it.
#[derive(Clone, Copy, Debug, PartialEq, Eq)]
pub struct Outgoing {
    pub number: LinkNumber,
    /// The node that it reaches.
    pub to: NodeNumber,
    /// Its IGP metric, 1 to 16,777,215.
    pub igp: u32,
    /// Its traffic engineering metric, 1 to 16,777,215.
    pub te: u32,
    /// Its administrative groups, one per bit.
    pub colour: u32,
}

impl Outgoing {
    ghost use Rattle.std.specs.Prelude.{◌≡◌};
    ghost use Rattle.te_snapshot.specs.Leaving.{arc_of};

    /// Makes the entry of the link of this number.
    #[inline(always)]
    pub fn of(number: LinkNumber, link: &Link) -> Outgoing
        ensures { result ≡ arc_of number link.now }
    {
        Outgoing {
            number,
            to: link.to,
            igp: link.igp,
            te: link.te,
            colour: link.colour,
        }
    }
}
