//! What a reload says of a link.
use sequence::PlainData;
use std::alloc::AllocError;
use te_base::{LinkNumber, LinkValues};

/// The values that a link has from now on.
#[derive(Clone, Copy, Debug, PartialEq, Eq)]
pub struct LinkReload {
    pub link: LinkNumber,
    pub values: LinkValues,
}

impl PlainData for LinkReload {
    fn copy(&self) -> Result<LinkReload, AllocError> {
        Ok(*self)
    }
}
