//! `history N`: the last steps of the kept history.
ghost use Rattle.std.specs.Prelude.{◌≡◌, ◌-◌, map, IfOk, ◌++◌, Some, OnOk};
ghost use Rattle.database_looks.specs.Steps.{kind_of};
ghost use Rattle.pce_view.specs.History.{known_step, peer_of_event};
ghost use Rattle.pce_view.specs.History.{SeesSteps};
ghost use Rattle.json.specs.Tree.{json_tokens};
ghost use Rattle.json.specs.Json.{array};
ghost use Rattle.pce_view.specs.History.{step_items, step_json, steps_json};

use crate::closing::closed;
use crate::fields::{Field, Member, put_object};
use crate::heard::Heard;
use crate::question::{Question, ServerInfo};
use crate::words::event_word;
use asks::Ask;
use database_looks::{Look, kind_of};
use history_core::{Brief, Database, Step};
use json::Writer;
use pce_seen::EventKind;
use pcep_word::Ipv4;
use std::alloc::{AllocError, Global};
use std::fmt::Write;
use step_core::Event;

/// A kept step: the kind of its event, the peer that the event is of, and its reply.
#[derive(Clone, Copy)]
pub struct KnownStep {
    pub event: EventKind,
    pub peer: Option<u32>,
    pub reply: Brief,
}

/// The last kept steps, oldest first.
#[derive(Drop)]
pub struct LastSteps {
    /// The place of the first of them among all steps that were ever taken.
    pub first: u64,
    pub steps: Vec<KnownStep>,
}

/// Names the peer that the event itself names, if it names one.
fn peer_of(event: &Event) -> Option<u32>
    ensures { result ≡ peer_of_event event.now }
{
    match event {
        Event::Up { peer, .. }
        | Event::Report { peer, .. }
        | Event::Marker { peer }
        | Event::Down { peer }
        | Event::Expire { peer }
        | Event::Ask { peer, .. }
        | Event::Drain { peer }
        | Event::Refused { peer, .. }
        | Event::Return { peer, .. }
        | Event::Delete { peer, .. } => Some(*peer),
        Event::Take | Event::Commit { .. } | Event::Reload { .. } => None,
    }
}

fn known_step(step: &Step) -> KnownStep
    ensures { result ≡ known_step step.now }
{
    let event = step.event.event();
    KnownStep {
        event: kind_of(event),
        peer: peer_of(event),
        reply: step.brief,
    }
}

fn known_steps(alloc: Global, steps: &[Step]) -> Result<Vec<KnownStep>, AllocError>
    ensures { IfOk result (λ seen. seen.items ≡ map known_step steps.now) }
{
    let mut seen = Vec::with_capacity(alloc, steps.len())?;
    for step in steps {
        seen.push(known_step(step))?;
    }
    Ok(seen)
}

/// Finds the place of the first of the `last` steps at most that end a list of `count`.
fn start_of(count: usize, last: u64) -> usize
    ensures { result ≡ count - last }
{
    count.saturating_sub(last as usize)
}

#[tactic(auto, unfolding(crate::specs::History::step_json))]
fn put_step(
    alloc: Global,
    writer: &mut Writer,
    place: u64,
    step: &KnownStep,
) -> Result<(), AllocError>
    ensures before { writer.new.before ≡ writer.old.before }
    ensures written { OnOk result (writer.new.tokens ≡ writer.old.tokens ++ json_tokens (step_json place step.now)) }
{
    put_object(
        alloc,
        writer,
        &[
            Member("step", Field::Whole(place)),
            Member("event", Field::Event(step.event)),
            Member("peer", Field::PeerOr(step.peer)),
            Member("outcome", Field::Reply(step.reply)),
            Member("number", Field::ReplyNumber(step.reply)),
        ],
    )
}

fn put_steps(
    alloc: Global,
    writer: &mut Writer,
    first: u64,
    steps: &[KnownStep],
) -> Result<(), AllocError>
    ensures before { writer.new.before ≡ writer.old.before }
    ensures written { OnOk result (writer.new.tokens ≡ writer.old.tokens ++ json_tokens (array (step_items first 0 steps.now))) }
{
    writer.begin_array()?;
    for (number, step) in steps.iter().enumerate() {
        put_step(alloc, writer, first.saturating_add(number as u64), step)?;
    }
    writer.end_array()
}

fn put_all(alloc: Global, writer: &mut Writer, seen: &LastSteps) -> Result<(), AllocError>
    ensures before { writer.new.before ≡ writer.old.before }
    ensures written { OnOk result (writer.new.tokens ≡ writer.old.tokens ++ json_tokens (steps_json seen.now.first seen.now.steps.items)) }
{
    writer.begin_object()?;
    writer.key("steps")?;
    put_steps(alloc, writer, seen.first, &seen.steps)?;
    writer.end_object()
}

fn add_step(text: &mut String, place: u64, step: &KnownStep) -> Result<(), AllocError> {
    let event = event_word(step.event);
    write!(text, "{place}\t{event}\t")?;
    match step.peer {
        Some(peer) => {
            let peer = Ipv4(peer);
            write!(text, "{peer}\t")?;
        }
        None => text.push_str("-\t")?,
    }
    text.push_str(step.reply.word())?;
    if let Some(number) = step.reply.number() {
        write!(text, " {number}")?;
    }
    text.push('\n')
}

/// The last steps of the kept history: so many at most.
#[derive(Clone, Copy)]
pub struct History(pub u64);

impl Look for History {
    ghost use Rattle.pce_view.specs.History.{SeesSteps};

    type Seen = LastSteps;

    ghost sees = { λ q d seen. SeesSteps q.0 d seen };

    fn see(&self, alloc: Global, database: &Database) -> Result<LastSteps, AllocError> {
        let steps = database.history();
        let start = start_of(steps.len(), self.0);
        Ok(LastSteps {
            first: database.rolled() + start as u64,
            steps: known_steps(alloc, &steps[start..])?,
        })
    }
}

impl Question for History {
    ghost use Rattle.pce_view.specs.History.{ReadsHistory};

    ghost reads = { λ _ _ _ seen text. ReadsHistory seen text };

    fn json(
        &self,
        alloc: Global,
        _around: &ServerInfo<'_>,
        _heard: &Heard,
        seen: &LastSteps,
    ) -> Result<Vec<u8>, AllocError> {
        let mut writer = Writer::new(Vec::new(alloc));
        put_all(alloc, &mut writer, seen)?;
        Ok(closed(writer))
    }

    fn rows(
        &self,
        _alloc: Global,
        text: &mut String,
        _around: &ServerInfo<'_>,
        _heard: &Heard,
        seen: &LastSteps,
    ) -> Result<(), AllocError> {
        text.push_str("STEP\tEVENT\tPEER\tREPLY\n")?;
        for (number, step) in seen.steps.iter().enumerate() {
            add_step(text, seen.first.saturating_add(number as u64), step)?;
        }
        Ok(())
    }

    fn next(&self, _seen: &LastSteps) -> Option<Ask> {
        None
    }
}
