//! Events that several lists keep.
ghost use Rattle.std.specs.Prelude.{◌≡◌, IfOk};

use crate::event::Event;
use sequence::PlainData;
use std::alloc::{AllocError, Global};
use std::marker::Model;
use std::sync::Arc;

/// An event that several lists keep, and that is in memory once. A contract sees the event.
#[derive(Debug, Drop)]
pub struct SharedEvent {
    event: Arc<Event, Global>,
}

impl Model for SharedEvent {
    ghost use Rattle.std.specs.Arc.{arc_value};
    ghost use Rattle.step_core.specs.declared.event.Event.{Event};

    ghost Value = { Event };

    ghost view = { λ s. arc_value s.event };
}

impl SharedEvent {
    /// Makes the event one that can be shared. Drops it if memory runs out.
    pub fn new(alloc: Global, event: Event) -> Result<SharedEvent, AllocError>
        ensures { IfOk result (λ shared. shared ≡ event) }
    {
        Ok(SharedEvent {
            event: Arc::new(alloc, event)?,
        })
    }

    /// Lends the event.
    pub fn event(&self) -> &Event
        ensures { result.now ≡ self.now }
    {
        &self.event
    }
}

/// Shares the event once more. Allocates nothing. Fails if 2^63 lists keep the event.
impl PlainData for SharedEvent {
    fn copy(&self) -> Result<SharedEvent, AllocError> {
        Ok(SharedEvent {
            event: Arc::try_clone(&self.event)?,
        })
    }
}
