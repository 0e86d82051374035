//! How many LSPs are in each state.
ghost use Rattle.std.specs.Prelude.{◌≡◌};
ghost use Rattle.table_text.specs.Adding.{Adds};
ghost use Rattle.watch_board.specs.States.{count_words, counted, state_words};

use std::alloc::AllocError;
use std::fmt::Write;

/// How many LSPs are in each state.
#[derive(Clone, Copy)]
pub struct StateCounts {
    pub active: u64,
    pub up: u64,
    pub going_up: u64,
    pub going_down: u64,
    pub down: u64,
    pub unplaced: u64,
    pub unknown: u64,
}

impl StateCounts {
    pub(crate) const NONE: StateCounts = StateCounts {
        active: 0,
        up: 0,
        going_up: 0,
        going_down: 0,
        down: 0,
        unplaced: 0,
        unknown: 0,
    };
}

/// Counts an LSP that is in the state of this word.
pub(crate) fn count(counts: &mut StateCounts, word: &str)
    ensures { counts.new ≡ counted word.now counts.old }
{
    match word {
        "active" => counts.active = counts.active.saturating_add(1),
        "up" => counts.up = counts.up.saturating_add(1),
        "going up" => counts.going_up = counts.going_up.saturating_add(1),
        "going down" => counts.going_down = counts.going_down.saturating_add(1),
        "down" => counts.down = counts.down.saturating_add(1),
        "unplaced" => counts.unplaced = counts.unplaced.saturating_add(1),
        _ => counts.unknown = counts.unknown.saturating_add(1),
    }
}

/// Adds a number of LSPs with its word, if it isn't 0.
fn add_count(text: &mut String, n: u64, word: &str) -> Result<(), AllocError>
    ensures { Adds result text.old text.new (count_words n word.now) }
{
    if n == 0 {
        return Ok(());
    }
    write!(text, "  {n} {word}")
}

/// Adds how many LSPs are in each state in which there is one.
pub(crate) fn add_states(text: &mut String, counts: &StateCounts) -> Result<(), AllocError>
    ensures { Adds result text.old text.new (state_words counts.now) }
{
    add_count(text, counts.active, "active")?;
    add_count(text, counts.up, "up")?;
    add_count(text, counts.going_up, "going up")?;
    add_count(text, counts.going_down, "going down")?;
    add_count(text, counts.down, "down")?;
    add_count(text, counts.unplaced, "unplaced")?;
    add_count(text, counts.unknown, "unknown")
}
