//! What a tunnel holds already.
ghost use Rattle.std.specs.Prelude.{◌≡◌};
ghost use Rattle.te_snapshot.specs.Room.{own_share};

use pcep_word::Priority;
use sequence::{PlainData, Sequence};
use std::alloc::AllocError;
use te_base::LinkNumber;

/// What a tunnel reserves on a link, in bytes per second for each priority.
#[derive(Clone, Copy, Debug, PartialEq, Eq)]
pub struct OwnShare {
    pub link: LinkNumber,
    pub shares: [u64; 8],
}

/// What a tunnel reserves on its links. It reserves nothing on a link that is not listed.
pub type OwnShares = Sequence<OwnShare>;

/// Returns what the tunnel reserves on a link at a priority, in bytes per second.
pub fn own_share(own: &[OwnShare], link: LinkNumber, priority: Priority) -> u64
    ensures { result ≡ own_share own.now link priority }
{
    for held in own {
        if held.link == link {
            return held.shares[priority.number() as usize];
        }
    }
    0
}

impl PlainData for OwnShare {
    fn copy(&self) -> Result<OwnShare, AllocError> {
        Ok(*self)
    }
}
