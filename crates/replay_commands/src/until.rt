//! Up to which step is replayed.
ghost use Rattle.std.specs.Prelude.{◌≡◌};
ghost use Rattle.replay_commands.specs.Until.{is_past_step, is_past_moment, is_before_step};

use asks::long_number_in;
use journal_files::{is_moment, not_before};
use std::alloc::{AllocError, Global};

/// Up to which step is replayed.
#[derive(Debug, Drop)]
pub enum Until {
    /// To the end of the journal.
    End,
    /// Up to the step of this place.
    Step(u64),
    /// Up to the last step of this moment. It has the line of the moment.
    Moment(String),
}

impl Until {
    /// Reads the number of a step, or a moment as `2026-11-29T01:30:00Z`. `None` for another word.
    pub(crate) fn of_word(alloc: Global, word: &str) -> Result<Option<Until>, AllocError> {
        if let Some(place) = long_number_in(word) {
            return Ok(Some(Until::Step(place)));
        }
        let line = format!(in alloc; "at {word}")?;
        if is_moment(&line) {
            Ok(Some(Until::Moment(line)))
        } else {
            Ok(None)
        }
    }

    /// Tests whether the step of this place isn't replayed any more.
    pub(crate) fn is_past_step(&self, place: u64) -> bool
        ensures { result ≡ is_past_step self.now place }
    {
        match self {
            Until::Step(last) => place > *last,
            _ => false,
        }
    }

    /// Tests whether this is a step before the one of this place.
    pub(crate) fn is_before_step(&self, place: u64) -> bool
        ensures { result ≡ is_before_step self.now place }
    {
        match self {
            Until::Step(last) => *last < place,
            _ => false,
        }
    }

    /// Tests whether the steps after this line with the time aren't replayed any more.
    pub(crate) fn is_past_moment(&self, line: &str) -> bool
        ensures { result ≡ is_past_moment self.now line.now }
    {
        match self {
            Until::Moment(last) => !not_before(last.as_bytes(), line.as_bytes()),
            _ => false,
        }
    }
}
