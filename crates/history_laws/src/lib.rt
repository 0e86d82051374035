//! Laws of databases. They follow from the history: whatever holds at its start and is kept by each step holds of the
//! state, whatever tables keep that state. Some are of every database, and some only of those whose steps start from the
//! network of the link text, of which nothing was reported. The database of a server is one of these.
#![tactic(auto)]

ghost use Rattle.std.specs.Prelude.{◌≡◌, All};
ghost use Rattle.history_core.specs.Histories.{Content, Replays, StartsFromText};
ghost use Rattle.history_laws.specs.Plain.{plain, plain_event, plain_outcome};
ghost use Rattle.history_laws.specs.WellFormed.{AreOfKnownPeers, IsNumbered, IsQuietIfDown, TakesLinksOnce};
ghost use Rattle.step_core.specs.Consistent.{IsConsistent};
ghost use Rattle.step_core.specs.Laws.{AreAlike};
ghost use Rattle.step_core.specs.States.{State};
ghost use Rattle.step_core.specs.Steps.{step};
ghost use Rattle.step_core.specs.declared.event.Event.{Event};

/// Shows that the state of a database is consistent: each LSP has at most one record and one grant, no two grants or
/// awaited removals of a peer have the same SRP-ID, each awaited name is that of one grant, and each peer is listed
/// once.
pub fn consistent()
    ensures { (d : Content) → Replays d → IsConsistent d.state }
{}

/// Shows that two databases that differ only in the order of their lists give the same reply to each event, and differ
/// only in that order after it. So what a router is sent doesn't depend on the tables that keep the state.
pub fn same_replies()
    ensures replies { (d e : Content) (event : Event) → Replays d → AreAlike d.state e.state → (step d.state event).reply ≡ (step e.state event).reply }
    ensures states { (d e : Content) (event : Event) → Replays d → AreAlike d.state e.state → AreAlike (step d.state event).state (step e.state event).state }
{}

/// Shows that each path, each record and each awaited name is of a known peer, if the steps start from the link text.
pub fn of_known_peers()
    ensures { (d : Content) → Replays d → StartsFromText d → AreOfKnownPeers d.state }
{}

/// Shows that no message waits for a peer that is down, and that such a peer isn't synchronizing (RFC 8231 section
/// 5.6), if the steps start from the link text.
pub fn quiet_if_down()
    ensures { (d : Content) → Replays d → StartsFromText d → All IsQuietIfDown d.state.peers }
{}

/// Shows that no reported path has PLSP-ID 0, which is reserved (RFC 8231 section 7.3), if the steps start from the link
/// text.
pub fn reports_are_numbered()
    ensures { (d : Content) → Replays d → StartsFromText d → All IsNumbered d.state.base.paths }
{}

/// Shows that each link of each path, reported or granted, is one of the network's, and that no path has a link twice,
/// if the steps start from the link text.
pub fn links_stand_once()
    ensures { (d : Content) → Replays d → StartsFromText d → All (TakesLinksOnce d.state.te.links) d.state.base.paths }
{}

/// Shows that local protection (flag L of LSPA, RFC 5440 section 7.11) decides nothing. Without it each event gets the
/// same reply and leaves the same state, apart from that flag. If no event and no state has it, no step sets it.
pub fn local_protection_decides_nothing()
    ensures nothing_else { (s : State) (event : Event) → plain_outcome (step s event) ≡ plain_outcome (step (plain s) (plain_event event)) }
    ensures never_set { (s : State) (event : Event) → step (plain s) (plain_event event) ≡ plain_outcome (step s event) }
{}
