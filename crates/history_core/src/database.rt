//! A state with its history.
ghost use Rattle.std.specs.Prelude.{◌≡◌, ◌<◌, ◌≤◌, ◌+◌, ◌^◌, ◌↔◌, if◌then◌else◌, IsTrue, List, [], ◌∷◌, ◌++◌, length, vec_len, vec_capacity, IfOk, OnOk, OnErr, IsNone, IfNone, IfSome};
ghost use Rattle.std.specs.Arc.{arc_value};
ghost use Rattle.lsp_base.specs.Shares.{unreserved};
ghost use Rattle.te_base.specs.Values.{values_in};
ghost use Rattle.te_snapshot.specs.Network.{network_of};
ghost use Rattle.step_core.specs.Bases.{known_in, state_over};
ghost use Rattle.step_core.specs.States.{is_up, is_queued, has_waiting};
ghost use Rattle.step_core.specs.Steps.{step};
ghost use Rattle.step_core.specs.Laws.{peer_of, OthersStay};
ghost use Rattle.history_core.specs.Briefs.{brief_of, is_grant};
ghost use Rattle.history_core.specs.Histories.{Replays, IsCounted, IsSound, IsStart, MayBegin, begun, begun_over, nothing_happened, kept_step, stepped, is_full, steps_of, grants_of, rolled_up, last_step};

use crate::fault::Fault;
use crate::start::Start;
use crate::step::{Brief, Step};
use pcep_word::Priority;
use std::alloc::{AllocError, Global};
use std::marker::Model;
use std::mem;
use std::sync::Arc;
use step_core::{Base, Event, Reply, SharedEvent, State};
use te_base::{LinkNumber, TeBase};
use te_snapshot::Topology;

/// The greatest number of steps that are kept.
pub const STEP_LIMIT: usize = 1_048_576;

/// The greatest number of steps that are ever taken.
pub const LAST_STEP: u64 = 1 << 62;

/// What is known, with the history that led to it from a base.
pub struct Database {
    /// What was known before the first of all steps.
    start: Start,
    /// What was known before the first of the kept steps.
    base: Base,
    /// How many steps were taken before the base.
    rolled: u64,
    /// How many of these were grants.
    rolled_grants: u64,
    state: State,
    history: Vec<Step>,
    /// How many of all steps are grants.
    grants: u64,
}

/// Drops each part. Written by hand because a derived drop would be proved again for every owner.
impl Drop for Database {
    fn drop(self) {
        let Database {
            start,
            base,
            rolled: _,
            rolled_grants: _,
            state,
            history,
            grants: _,
        } = self;
        drop(start);
        drop(base);
        drop(state);
        drop(history);
    }
}

impl Model for Database {
    ghost use Rattle.history_core.specs.Histories.{Content, IsKept, content};

    ghost Value = { Content };

    ghost view = { λ d. content d.state d.history.items d.base d.start d.rolled d.rolled_grants };

    ghost invariant = { λ d. IsKept d.state d.history.items d.base d.start d.rolled d.rolled_grants d.grants };
}

/// Returns for how many more steps to reserve room, given how many are kept. The first step reserves room for all of
/// them, so that none is ever moved. Memory that isn't written yet costs only addresses.
fn wanted_room(kept: usize) -> usize
    ensures { 1 ≤ result }
{
    STEP_LIMIT.saturating_sub(kept).max(1)
}

fn is_grant(brief: Brief) -> bool
    ensures { result ≡ is_grant brief }
{
    matches!(brief, Brief::Granted(_))
}

/// Appends a step (the event and the brief of its reply) to the history, and counts it if it is a grant. The caller has
/// reserved the room.
fn keep(history: &mut Vec<Step>, grants: &mut u64, event: SharedEvent, reply: &Reply)
    requires room { vec_len history.old + 1 ≤ vec_capacity history.old }
    requires grants { grants.old < 2 ^ 62 }
    ensures kept { history.new.items ≡ history.old.items ++ kept_step event reply.now ∷ [] }
    ensures counted { grants.new ≡ grants.old + (if is_grant (brief_of reply.now) then 1 else 0) }
{
    let brief = Brief::of(reply);
    if is_grant(brief) {
        *grants += 1;
    }
    history.push_reserved(Step { event, brief });
}

/// Tests whether no count of what was known is above the number of steps that led to it, nor are the grants, and no more
/// steps were taken than ever are.
fn is_counted(base: &Base, steps: u64, grants: u64) -> bool
    ensures { IsTrue result ↔ IsCounted base.now steps grants }
{
    base.changes <= steps
        && base.last_session <= steps
        && base.last_ticket <= steps
        && grants <= steps
        && steps <= LAST_STEP
}

/// Copies what is known twice.
fn known_twice(state: &State) -> Result<(Base, Base), AllocError>
    ensures first { IfOk result (λ known. known.0 ≡ known_in state.now) }
    ensures second { IfOk result (λ known. known.1 ≡ known_in state.now) }
{
    let first = state.copy()?;
    match state.copy() {
        Ok(second) => Ok((first, second)),
        Err(error) => {
            drop(first);
            Err(error)
        }
    }
}

impl Database {
    /// Makes the database of a network of which nothing was reported yet. Drops the links and nodes if memory runs out.
    pub fn new(alloc: Global, te: TeBase) -> Result<Database, AllocError>
        ensures { IfOk result (λ database. database ≡ nothing_happened te) }
    {
        let state = State::new(alloc, te)?;
        Database::begun(alloc, state, 0, 0)
    }

    /// Makes the database that begins at what was read, over a network of these nodes and links, after so many steps and
    /// grants. `None` if it may not stand, or a count of it is above the number of steps. Drops what it is given if
    /// memory runs out.
    pub fn over(
        alloc: Global,
        te: TeBase,
        base: Base,
        steps: u64,
        grants: u64,
    ) -> Result<Option<Database>, AllocError>
        ensures made { IfOk result (λ made. IfSome made (λ database. database ≡ begun_over te base steps grants)) }
        ensures begins { IfOk result (λ made. IfSome made (λ _. MayBegin te base steps grants)) }
        ensures refused { IfOk result (λ made. IfNone made (MayBegin te base steps grants → ⊥)) }
    {
        if !is_counted(&base, steps, grants) {
            return Ok(None);
        }
        match State::over(alloc, te, base)? {
            Some(state) => Ok(Some(Database::begun(alloc, state, steps, grants)?)),
            None => Ok(None),
        }
    }

    /// Makes the database that begins at the state, after so many steps and grants. Drops the state if memory runs out.
    fn begun(alloc: Global, state: State, steps: u64, grants: u64) -> Result<Database, AllocError>
        requires starts { IsStart (record { state = state; steps = steps; grants = grants }) }
        ensures { IfOk result (λ database. database ≡ begun (record { state = state; steps = steps; grants = grants })) }
    {
        state.what_stands_may_stand(); // for the proof only
        match known_twice(&state) {
            Ok((base, first)) => Ok(Database {
                start: Start {
                    base: first,
                    steps,
                    grants,
                },
                base,
                rolled: steps,
                rolled_grants: grants,
                state,
                history: Vec::new(alloc),
                grants,
            }),
            Err(error) => {
                drop(state);
                Err(error)
            }
        }
    }

    /// Tests whether no further step can be kept.
    pub fn is_full(&self) -> bool
        ensures { result ≡ is_full self.now }
    {
        self.history.len() == STEP_LIMIT || self.steps() == LAST_STEP
    }

    /// Takes one event, and keeps it with the brief of its reply. A refused event is kept too, and changes nothing
    /// else. Fails with `HistoryFull` exactly if 1,048,576 steps are kept, or 2^62 were ever taken. After a fault
    /// nothing has changed, and the event is dropped.
    #[tactic(auto, using(crate::proofs::Sounding::sound_by_replay))]
    pub fn apply(&mut self, event: Event) -> Result<Reply, Fault>
        ensures step { IfOk result (λ reply. self.new ≡ stepped self.old event reply) }
        ensures reply { IfOk result (λ reply. reply ≡ (step self.old.state event).reply) }
        ensures full { (result ≡ Err Fault.HistoryFull) ↔ IsTrue (is_full self.old) }
        ensures unchanged_on_fault { OnErr result (self.new ≡ self.old) }
        ensures unchanged_by_refused { (why : _) → result ≡ Ok (Reply.Refused why) → self.new.state ≡ self.old.state }
        ensures others_stay { OthersStay (peer_of self.old.state event) self.old.state self.new.state }
        ensures replays { Replays self.new }
        ensures sound { IsSound self.new }
    {
        if self.is_full() {
            return Err(Fault::HistoryFull);
        }
        let shared = SharedEvent::new(*self.history.allocator(), event)?;
        self.apply_shared(shared)
    }

    /// Does what `apply` does, with an event that others keep too.
    #[tactic(auto, using(crate::proofs::Sounding::sound_by_replay))]
    pub fn apply_shared(&mut self, event: SharedEvent) -> Result<Reply, Fault>
        ensures step { IfOk result (λ reply. self.new ≡ stepped self.old event reply) }
        ensures reply { IfOk result (λ reply. reply ≡ (step self.old.state event).reply) }
        ensures full { (result ≡ Err Fault.HistoryFull) ↔ IsTrue (is_full self.old) }
        ensures unchanged_on_fault { OnErr result (self.new ≡ self.old) }
        ensures unchanged_by_refused { (why : _) → result ≡ Ok (Reply.Refused why) → self.new.state ≡ self.old.state }
        ensures others_stay { OthersStay (peer_of self.old.state event) self.old.state self.new.state }
        ensures replays { Replays self.new }
        ensures sound { IsSound self.new }
    {
        if self.is_full() {
            return Err(Fault::HistoryFull);
        }
        self.history.reserve(wanted_room(self.history.len()))?;
        let reply = self.state.step(event.event())?;
        keep(&mut self.history, &mut self.grants, event, &reply);
        Ok(reply)
    }

    /// Makes the state the base, and drops the kept steps, so that more can be kept again. This is no step, it changes
    /// no reply to a later event, and the steps and grants stay counted. If memory runs out nothing has changed.
    pub fn roll(&mut self) -> Result<(), AllocError>
        ensures rolled { OnOk result (self.new ≡ rolled_up self.old) }
        ensures unchanged_without_memory { OnErr result (self.new ≡ self.old) }
        ensures replays { Replays self.new }
    {
        let _kept_no_longer = self.take_rolled()?;
        Ok(())
    }

    /// Does what `roll` does, and returns the steps that were kept, oldest first. Dropping a million of them takes
    /// time, which the caller can spend after it has freed a lock.
    pub fn take_rolled(&mut self) -> Result<Vec<Step>, AllocError>
        ensures rolled { OnOk result (self.new ≡ rolled_up self.old) }
        ensures given { IfOk result (λ steps. steps.items ≡ self.old.history) }
        ensures unchanged_without_memory { OnErr result (self.new ≡ self.old) }
        ensures replays { Replays self.new }
    {
        self.state.what_stands_may_stand(); // for the proof only
        let base = self.state.copy()?;
        self.base = base;
        self.rolled += self.history.len() as u64;
        self.rolled_grants = self.grants;
        let alloc = *self.history.allocator();
        Ok(mem::replace(&mut self.history, Vec::new(alloc)))
    }

    /// Returns what was known at the last roll, before the first of the kept steps. Before the first roll that is what
    /// the database began with. `over` doesn't refuse it after the steps that `rolled` counts. Allocates nothing.
    pub fn base(&self) -> &Base
        ensures known { state_over self.now.state.te result.now ≡ self.now.base }
        ensures values { result.now.values ≡ values_in self.now.base.te }
        ensures begins { MayBegin self.now.state.te result.now self.now.rolled self.now.rolled_grants }
    {
        &self.base
    }

    /// Returns how many steps were taken before the base. Allocates nothing.
    pub fn rolled(&self) -> u64
        ensures { result ≡ self.now.rolled }
    {
        self.rolled
    }

    /// Returns how many of the steps before the base were grants. Allocates nothing.
    pub fn rolled_grants(&self) -> u64
        ensures { result ≡ self.now.rolled_grants }
    {
        self.rolled_grants
    }

    /// Lends the kept steps, oldest first. The first has the place `rolled` among all steps.
    #[tactic(auto, using(crate::proofs::Sounding::sound_by_replay))]
    pub fn history(&self) -> &[Step]
        ensures history { result.now ≡ self.now.history }
        ensures few { steps_of self.now ≤ last_step }
        ensures replays { Replays self.now }
        ensures sound { IsSound self.now }
    {
        self.history.as_slice()
    }

    /// Returns how many steps were ever taken, at most 2^62.
    pub fn steps(&self) -> u64
        ensures steps { result ≡ steps_of self.now }
        ensures few { result ≤ last_step }
    {
        self.rolled + self.history.len() as u64
    }

    /// Returns how many of all steps were grants.
    pub fn grants(&self) -> u64
        ensures { result ≡ grants_of self.now }
    {
        self.grants
    }

    /// Tests whether a ticket waits to be searched for.
    pub fn waiting(&self) -> bool
        ensures waiting { result ≡ has_waiting self.now.state }
        ensures replays { Replays self.now }
    {
        self.state.waiting()
    }

    /// Computes what is left on a link at a priority, in bytes per second: the reservable bandwidth, minus the sum over
    /// tunnels of the greatest bandwidth of the tunnel's paths there that are held at that priority or a better one. It
    /// is below zero if more is reported than the link can carry. `None` if there is no such link. Allocates nothing.
    pub fn unreserved(&self, link: LinkNumber, priority: Priority) -> Option<i64>
        ensures no_such_link { IsNone result ↔ (length self.now.state.te.links ≤ link) }
        ensures left { IfSome result (λ left. left ≡ unreserved self.now.state.te.links self.now.state.base.paths link priority) }
        ensures replays { Replays self.now }
    {
        self.state.unreserved(link, priority)
    }

    /// Tests whether a session of the peer is up.
    pub fn is_up(&self, peer: u32) -> bool
        ensures is_up { result ≡ is_up self.now.state peer }
        ensures replays { Replays self.now }
    {
        self.state.is_up(peer)
    }

    /// Tests whether messages wait to be sent to the peer.
    pub fn queued(&self, peer: u32) -> bool
        ensures queued { result ≡ is_queued self.now.state peer }
        ensures replays { Replays self.now }
    {
        self.state.queued(peer)
    }

    /// Returns the network with the current links: that of the last snapshot, or a new one if a link has other values
    /// since.
    pub fn topology_now(&self) -> Result<Arc<Topology, Global>, AllocError>
        ensures { IfOk result (λ topology. arc_value topology ≡ network_of self.now.state.te) }
    {
        self.state.topology_now()
    }

    /// Lends the links and nodes.
    pub fn te_base(&self) -> &TeBase
        ensures { result.now ≡ self.now.state.te }
    {
        self.state.te_base()
    }

    /// Lends what is known at this moment.
    pub fn state(&self) -> &State
        ensures state { result.now ≡ self.now.state }
        ensures replays { Replays self.now }
    {
        &self.state
    }
}
