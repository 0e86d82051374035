//! Where the steps of a database start.
use step_core::Base;

/// What was known before the first step of which a database speaks, and how many steps had been taken until then.
#[derive(Drop)]
pub(crate) struct Start {
    pub(crate) base: Base,
    pub(crate) steps: u64,
    /// How many of the steps were grants.
    pub(crate) grants: u64,
}
