//! The steps that a roll drops.
use history_core::Step;

/// The steps that were kept until a roll.
#[derive(Drop)]
pub struct RolledSteps {
    /// The place of the first of them among all steps.
    pub first: u64,
    /// Oldest first.
    pub steps: Vec<Step>,
}
