//! What holds of every step of a kind.
ghost use Rattle.std.specs.Prelude.{◌≡◌, ◌<◌, ◌∷◌, [], length};
ghost use Rattle.step_core.specs.Consistent.{IsConsistent};
ghost use Rattle.step_core.specs.declared.event.Event.{Event};
ghost use Rattle.step_core.specs.declared.event.Event.TheVariants.{Reload};
ghost use Rattle.link_reload.specs.declared.entry.LinkReload.{LinkReload};
ghost use Rattle.step_core.specs.Laws.{AreAlike, MovesAlone};
ghost use Rattle.step_core.specs.States.{State};
ghost use Rattle.step_core.specs.Steps.{step};

/// Shows that a reload of one existing link moves what is unreserved on it, at each priority, by the difference of the
/// two reservable bandwidths, and moves nothing on any other link.
#[tactic(auto, using(crate::proofs::Reloading::moves_alone))]
pub fn reload_moves_one_link()
    ensures { (s : State) (entry : LinkReload) → entry.link < length s.te.links → MovesAlone entry s (step s (Reload (entry ∷ []))).state }
{}

/// Shows that the order of paths, records and names doesn't matter. States that differ only in that order give the same
/// reply to each event, and differ only in it afterwards. So each peer is sent the same.
pub fn order_makes_no_difference()
    ensures replies { (s t : State) (event : Event) → IsConsistent s → AreAlike s t → (step s event).reply ≡ (step t event).reply }
    ensures states { (s t : State) (event : Event) → IsConsistent s → AreAlike s t → AreAlike (step s event).state (step t event).state }
{}
