//! A step with its place.
use history_core::{Brief, Event};

/// A step: its place among all steps that were taken, its event, and what is kept of the reply.
#[derive(Debug, Drop)]
pub struct PlacedStep {
    pub place: u64,
    pub event: Event,
    pub brief: Brief,
}
