//! Kinds of events.

/// The kind of event that a step took.
#[derive(Clone, Copy)]
pub enum EventKind {
    Up,
    Report,
    Marker,
    Down,
    Expire,
    Ask,
    Take,
    Commit,
    Drain,
    Refused,
    Return,
    Delete,
    Reload,
}
