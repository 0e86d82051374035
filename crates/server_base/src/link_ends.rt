//! The ends of each link of a network.
use std::alloc::{AllocError, Global};
use te_base::TeBase;

/// The addresses of a link's interfaces, at the node that it leaves and at the node that it reaches.
#[derive(Clone, Copy, PartialEq, Eq, Debug)]
pub struct LinkEnds {
    pub local: u32,
    pub remote: u32,
}

/// Returns the ends of each link.
pub fn ends_of(alloc: Global, te: &TeBase) -> Result<Vec<LinkEnds>, AllocError> {
    let mut ends = Vec::with_capacity(alloc, te.link_count())?;
    for link in te.links() {
        ends.push(LinkEnds {
            local: link.local.0,
            remote: link.remote.0,
        })?;
    }
    Ok(ends)
}
