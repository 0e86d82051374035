//! What holds of every database.
ghost use Rattle.std.specs.Prelude.{List};
ghost use Rattle.history_core.specs.declared.step.Step.{Step};
ghost use Rattle.history_core.specs.Histories.{Content, Replays, IsLegalFrom, IsPast, IsSoundFrom, replay, steps_of, grants_of};
ghost use Rattle.step_core.specs.Consistent.{IsConsistent};
ghost use Rattle.step_core.specs.Laws.{AreAlike};
ghost use Rattle.step_core.specs.States.{State};
ghost use Rattle.te_base.specs.Values.{IsSameNetwork};

/// Shows that all steps since the start, those before the base too, are one history: it is legal, leads from what was
/// known at the start to the state, and is sound.
#[tactic(auto, using(crate::proofs::Rolling::one_history))]
pub fn one_history()
    ensures { (d : Content) → Replays d → (all : List Step) × IsPast d.start all (steps_of d) (grants_of d) d.state × IsSoundFrom d.start.state all }
{}

/// Shows that the network is that of the start, apart from the values of its links: nodes, owners, and ends and
/// addresses of links stay.
pub fn network_stays()
    ensures { (d : Content) → Replays d → IsSameNetwork d.start.state.te d.state.te }
{}

/// Shows that the order of paths, records and names makes no difference to a history. One that is legal from a state is
/// legal from each state that differs from it only in that order, and leads to states that differ only in it.
pub fn order_makes_no_difference()
    ensures legal { (s t : State) (history : List Step) → IsConsistent s → AreAlike s t → IsLegalFrom s history → IsLegalFrom t history }
    ensures leads { (s t : State) (history : List Step) → IsConsistent s → AreAlike s t → IsLegalFrom s history → AreAlike (replay s history) (replay t history) }
{}
