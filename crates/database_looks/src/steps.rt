//! The kinds of events.
ghost use Rattle.std.specs.Prelude.{◌≡◌, ◌-◌};
ghost use Rattle.database_looks.specs.Steps.{kind_of};

use pce_seen::EventKind;
use step_core::Event;

/// Names the kind of an event.
pub fn kind_of(event: &Event) -> EventKind
    ensures { result ≡ kind_of event.now }
{
    match event {
        Event::Up { .. } => EventKind::Up,
        Event::Report { .. } => EventKind::Report,
        Event::Marker { .. } => EventKind::Marker,
        Event::Down { .. } => EventKind::Down,
        Event::Expire { .. } => EventKind::Expire,
        Event::Ask { .. } => EventKind::Ask,
        Event::Take => EventKind::Take,
        Event::Commit { .. } => EventKind::Commit,
        Event::Drain { .. } => EventKind::Drain,
        Event::Refused { .. } => EventKind::Refused,
        Event::Return { .. } => EventKind::Return,
        Event::Delete { .. } => EventKind::Delete,
        Event::Reload { .. } => EventKind::Reload,
    }
}
