//! A base with its place.
use step_core::Base;

/// A base, and how many steps had been taken before it.
#[derive(Debug, Drop)]
pub struct PlacedBase {
    pub base: Base,
    pub steps: u64,
    /// How many of the steps were grants.
    pub grants: u64,
}
