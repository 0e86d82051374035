//! Samples of the states of LSPs.
ghost use Rattle.std.specs.Prelude.{◌≡◌, ◌++◌, OnOk};
ghost use Rattle.metrics_text.specs.Rows.{lines_of};
ghost use Rattle.metrics_text.specs.Samples.{broken_in, is_in, number_in, state_counts, state_number};

use crate::counts::put_number;
use crate::format::{LabelText, Metric};
use crate::words::state_label;
use pce_view::{LspState, ShownState};
use std::alloc::AllocError;

fn state_number(state: LspState) -> usize
    ensures { result ≡ state_number state }
{
    match state {
        LspState::Active => 0,
        LspState::Up => 1,
        LspState::GoingUp => 2,
        LspState::GoingDown => 3,
        LspState::Down => 4,
        LspState::Unplaced => 5,
        LspState::Unknown => 6,
    }
}

pub(crate) fn is_in(state: LspState, shown: &ShownState) -> bool
    ensures { result ≡ is_in state shown.now }
{
    state_number(shown.state) == state_number(state)
}

/// Counts the LSPs in a state.
fn number_in(state: LspState, states: &[ShownState]) -> u64
    ensures { result ≡ number_in state states.now }
{
    let mut count = 0;
    for shown in states {
        if is_in(state, shown) {
            count += 1;
        }
    }
    count
}

/// Adds how many LSPs are in each of these states.
#[tactic(auto, using(crate::proofs::Lines::lines), unfolding(crate::specs::Samples::state_counts))]
pub(crate) fn put_states(
    text: &mut Vec<u8>,
    metric: &Metric<'_>,
    states: &[ShownState],
    each: &[LspState],
) -> Result<(), AllocError>
    ensures { OnOk result (text.new.items ≡ text.old.items
        ++ lines_of metric.now (state_counts states.now each.now)) }
{
    for state in each {
        let label = LabelText::Text(state_label(*state));
        put_number(text, metric, &[label], number_in(*state, states))?;
    }
    Ok(())
}

/// Counts the paths that have a gap.
#[tactic(auto, unfolding(crate::specs::Samples::broken_in))]
pub(crate) fn broken_in(states: &[ShownState]) -> u64
    ensures { result ≡ broken_in states.now }
{
    let mut count = 0u64;
    for shown in states {
        count = count.saturating_add(shown.broken_paths);
    }
    count
}
