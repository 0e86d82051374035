//! The states in which LSPs are shown, of all of them: a look for each page.
ghost use Rattle.std.specs.Prelude.{◌≡◌, ◌++◌, IfOk, OnOk};
ghost use mathlib.Core.List.{IsPrefix};
ghost use Rattle.pce_view.specs.States.{shown_states};
ghost use Rattle.pce_view.specs.declared.heard.Heard.{Heard};
ghost use Rattle.server_viewers.specs.States.{AddsStates, AreStates};

use asks::PeerPage;
use history_seats::Brands;
use pce_seen::PlacedPage;
use pce_view::{Heard, Lsps, ShownState, add_states};
use server_answers::hear;
use server_base::RunView;
use shared_pce::{Event, Front};
use std::alloc::AllocError;
use std::sync::Wait;
use std::time::Clock;

/// Adds the states of the LSPs of a page, with what routers said about them.
fn add_heard<R: Wait + Clock, B: Brands>(
    run_view: &RunView<'_, R, B>,
    question: &Lsps,
    placed: &PlacedPage,
    states: &mut Vec<ShownState>,
) -> Result<(), AllocError>
    ensures { OnOk result ((heard : Heard) × (states.new.items ≡ states.old.items ++ shown_states heard placed.now.gaps.items 0 placed.now.page.lsps.items)) }
{
    let mut heard = Heard::nothing(run_view.alloc);
    hear(run_view, question, placed, &mut heard)?;
    add_states(states, &heard, placed)
}

/// Adds the states of a page of LSPs, and returns where the next page starts.
fn add_page<R: Wait + Clock, B: Brands>(
    run_view: &RunView<'_, R, B>,
    front: &mut Front<Event, B>,
    from: u64,
    states: &mut Vec<ShownState>,
) -> Result<Option<u64>, AllocError>
    ensures begins { IsPrefix front.old front.new }
    ensures states { IfOk result (λ next. AddsStates B.text from next front.old states.old.items front.new states.new.items) }
{
    let question = Lsps(PeerPage { peer: None, from });
    let placed = run_view.look(front, &question)?;
    add_heard(run_view, &question, &placed, states)?;
    Ok(placed.page.next)
}

/// Returns the states of all LSPs, page by page. Each page comes from a look that saw no less than the one before.
pub(crate) fn all_states<R: Wait + Clock, B: Brands>(
    run_view: &RunView<'_, R, B>,
    front: &mut Front<Event, B>,
) -> Result<Vec<ShownState>, AllocError>
    ensures begins { IsPrefix front.old front.new }
    ensures states { IfOk result (λ states. AreStates B.text front.old 0 states.items front.new) }
{
    let mut states = Vec::new(run_view.alloc);
    let mut from = 0;
    for _page in 0..u64::MAX {
        match add_page(run_view, front, from, &mut states)? {
            Some(next) => from = next,
            None => return Ok(states),
        }
    }
    Err(AllocError)
}
