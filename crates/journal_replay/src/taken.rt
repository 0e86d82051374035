//! What became of a line.
use history_core::Brief;

/// What became of a line of a journal.
#[derive(Clone, Copy, Debug, PartialEq, Eq)]
pub enum Taken {
    /// A step, whose recorded reply is the one that its event gets.
    AsRecorded,
    /// A line with the time.
    Moment,
    /// A step, whose event gets another reply.
    Differs {
        place: u64,
        recorded: Brief,
        replayed: Brief,
    },
    /// Neither, or a step of another place. Nothing has changed.
    BadLine,
}
