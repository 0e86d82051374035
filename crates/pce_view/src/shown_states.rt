//! The states in which LSPs are shown, and how many of their paths have a gap.
ghost use Rattle.std.specs.Prelude.{◌≡◌, ◌++◌, is_some, length, filter, OnOk};
ghost use Rattle.pce_view.specs.States.{shown_state, shown_states};

use crate::heard::Heard;
use crate::notes::gaps_at;
use crate::states::{LspState, state_of};
use pce_seen::{Gap, KnownLsp, PlacedPage};
use sequence::Sequence;
use std::alloc::AllocError;

/// Whose an LSP is, in which state it is shown, and how many of its paths have a gap.
#[derive(Clone, Copy)]
pub struct ShownState {
    pub peer: u32,
    pub state: LspState,
    pub broken_paths: u64,
}

/// Counts the gaps.
fn gap_count(gaps: &[Option<Gap>]) -> u64
    ensures { result ≡ length (filter (λ g. is_some g) gaps.now) }
{
    let mut count = 0;
    for gap in gaps {
        if gap.is_some() {
            count += 1;
        }
    }
    count
}

/// Says in which state an LSP is shown whose paths have these gaps.
fn shown_state(heard: &Heard, gaps: &[Option<Gap>], seen: &KnownLsp) -> ShownState
    ensures { result ≡ shown_state heard.now gaps.now seen.now }
{
    ShownState {
        peer: seen.known.peer,
        state: state_of(&heard.words, seen.paths.as_slice()),
        broken_paths: gap_count(gaps),
    }
}

fn add_each_state(
    states: &mut Vec<ShownState>,
    heard: &Heard,
    gaps: &[Sequence<Option<Gap>>],
    lsps: &[KnownLsp],
) -> Result<(), AllocError>
    ensures { OnOk result (states.new.items ≡ states.old.items ++ shown_states heard.now gaps.now 0 lsps.now) }
{
    for (place, seen) in lsps.iter().enumerate() {
        states.push(shown_state(heard, gaps_at(gaps, place), seen))?;
    }
    Ok(())
}

/// Adds the state of each LSP of a page.
pub fn add_states(
    states: &mut Vec<ShownState>,
    heard: &Heard,
    placed: &PlacedPage,
) -> Result<(), AllocError>
    ensures { OnOk result (states.new.items ≡ states.old.items ++ shown_states heard.now placed.now.gaps.items 0 placed.now.page.lsps.items) }
{
    add_each_state(states, heard, &placed.gaps, &placed.page.lsps)
}
