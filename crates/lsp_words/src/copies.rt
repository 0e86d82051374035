//! Copies of the words for LSPs.
use crate::object::{Capabilities, Colours, Hop, Plsp};
use sequence::PlainData;
use std::alloc::AllocError;

impl PlainData for Plsp {
    fn copy(&self) -> Result<Plsp, AllocError> {
        Ok(*self)
    }
}

impl PlainData for Capabilities {
    fn copy(&self) -> Result<Capabilities, AllocError> {
        Ok(*self)
    }
}

impl PlainData for Colours {
    fn copy(&self) -> Result<Colours, AllocError> {
        Ok(*self)
    }
}

impl PlainData for Hop {
    fn copy(&self) -> Result<Hop, AllocError> {
        match self {
            Hop::Host(address, loose) => Ok(Hop::Host(*address, *loose)),
            Hop::Other(kind, bytes) => Ok(Hop::Other(*kind, bytes.copy()?)),
        }
    }
}
