//! A store that logs what operators ask for, the replies, and which links a reload leaves below zero.
use engine_core::{Call, Event, Fault, Reply, ServerStore, Store};
use history_seats::Brands;
use pcep_messages::Message;
use pcep_objects::Open;
use seated_store::Seated;
use server_base::{Context, LinkEnds, forget_counted};
use server_log::{Asker, LogLine, ordered, reloaded};
use shared_pce::Front;
use short_lock::acquire;
use std::alloc::{AllocError, Global};
use std::sync::Wait;
use std::time::Clock;
use step_core::LinkReload;
use te_base::LinkValues;

/// Returns the least that would be left of a link at a priority.
fn worst_after(old: LinkValues, new: LinkValues, left: &[i64; 8]) -> i64 {
    let least = left.iter().copied().min().unwrap_or(0);
    least
        .saturating_sub(old.reservable() as i64)
        .saturating_add(new.reservable() as i64)
}

/// Returns the line of a link that a reload leaves with less than before and below zero.
fn line_of(
    entry: LinkReload,
    ends: &[LinkEnds],
    values: &[LinkValues],
    left: &[[i64; 8]],
) -> Option<LogLine> {
    let (ends, old, left) = (
        ends.get(entry.link)?,
        values.get(entry.link)?,
        left.get(entry.link)?,
    );
    let worst = worst_after(*old, entry.values, left);
    if worst >= 0 || entry.values.reservable() >= old.reservable() {
        return None;
    }
    Some(LogLine::BelowZero {
        link: entry.link,
        local: ends.local,
        remote: ends.remote,
        worst,
    })
}

/// Returns a line for each link that a reload leaves with less than before and below zero.
fn lines_of(
    alloc: Global,
    entries: &[LinkReload],
    ends: &[LinkEnds],
    values: &[LinkValues],
    left: &[[i64; 8]],
) -> Result<Vec<LogLine>, AllocError> {
    let mut lines = Vec::new(alloc);
    for entry in entries {
        if let Some(line) = line_of(*entry, ends, values, left) {
            lines.push(line)?;
        }
    }
    Ok(lines)
}

/// The store of an operator's lines.
#[derive(Drop)]
pub(crate) struct ReloadLog<'a, 'c, 's, R: Wait + Clock, B: Brands> {
    pub context: &'a Context<'c, R, B>,
    /// What the operator's thread has seen of the history.
    pub front: Front<Event, B>,
    pub store: Seated<'s, R, B>,
}

/// Returns the lines to log about these entries after they are submitted.
fn lines_at<R: Wait + Clock, B: Brands>(
    context: &Context<'_, R, B>,
    front: &mut Front<Event, B>,
    entries: &[LinkReload],
) -> Result<Vec<LogLine>, AllocError> {
    let (values, left) = context.shared.links(context.rt, front)?;
    lines_of(context.alloc, entries, context.ends, &values, &left)
}

/// Returns the lines to log about an event after it is submitted.
fn lines_for<R: Wait + Clock, B: Brands>(
    context: &Context<'_, R, B>,
    front: &mut Front<Event, B>,
    event: &Event,
) -> Result<Vec<LogLine>, AllocError> {
    match event {
        Event::Reload { links } => lines_at(context, front, links.as_slice()),
        _ => Ok(Vec::new(context.alloc)),
    }
}

impl<'a, 'c, 's, R: Wait + Clock, B: Brands> ReloadLog<'a, 'c, 's, R, B> {
    /// Logs what the last event asked for and its reply, and unless it was refused also these lines.
    fn say_all(&self, lines: &[LogLine]) {
        let Some(call) = self.store.calls().last() else {
            return;
        };
        let (event, reply) = (call.event.event(), &call.reply);
        self.context.say_decided(ordered(event, reply));
        if !matches!(reply, Reply::Done) {
            return;
        }
        for line in lines {
            self.context.say(*line);
        }
        self.context
            .say_decided(reloaded(event, reply, lines.len()));
    }
}

impl<'a, 'c, 's, R: Wait + Clock, B: Brands> Store for ReloadLog<'a, 'c, 's, R, B> {
    ghost use Rattle.seated_store.specs.Seating.{SeatedMoves, SeatedRolls, SameSeat, WasFull};
    ghost use Rattle.seated_store.specs.SeatingLaws.{moves_nowhere, moves_on};

    ghost calls = { λ s. s.store.calls.items };

    ghost moves = { λ old made new. SeatedMoves B.text old.store.seat old.store.calls.items made new.store.seat new.store.calls.items };

    ghost same_but_calls = { λ old new. SameSeat B.text old.store.seat new.store.seat };

    ghost is_full = { λ s. WasFull B.text s.store.seat };

    ghost rolls = { λ old steps new. SeatedRolls B.text old.store.seat old.store.calls.items steps new.store.seat new.store.calls.items };

    ghost moves_nowhere = { λ s. moves_nowhere B.text s.store.seat s.store.calls.items };

    ghost moves_on = { λ a b c first second h k. moves_on B.text a.store.seat b.store.seat c.store.seat a.store.calls.items b.store.calls.items c.store.calls.items first second h k };

    ghost moves_add = { λ a b made h. h.added };

    /// Submits an event. If there is no memory for the lines of a reload, nothing is done.
    fn submit(&mut self, event: Event) -> Result<(), Fault> {
        let lines = match lines_for(self.context, &mut self.front, &event) {
            Ok(lines) => lines,
            Err(_) => {
                self.context.run.note_short_memory(self.context.rt);
                return Err(Fault::OutOfMemory);
            }
        };
        let asked_us = self.context.moments().now_us();
        let submitted = self.store.submit(event);
        if submitted.is_ok() {
            self.say_all(&lines);
            self.context
                .note_ask(self.store.calls(), asked_us, Asker::Operator);
        }
        submitted
    }

    fn show_open(&mut self, peer_open: Open) {
        self.store.show_open(peer_open);
    }

    fn show_message(&mut self, message: &Message) {
        self.store.show_message(message);
    }

    fn calls(&self) -> &[Call] {
        self.store.calls()
    }

    fn forget(&mut self) {
        let context = self.context;
        forget_counted(&mut self.store, &mut acquire(context.rt, context.counters));
    }

    fn roll(&mut self) -> Result<u64, AllocError> {
        self.store.roll()
    }
}

impl<'a, 'c, 's, R: Wait + Clock, B: Brands> ServerStore for ReloadLog<'a, 'c, 's, R, B> {
    ghost use Rattle.std.specs.Prelude.{◌≡◌};
    ghost use Rattle.history_seats.specs.Past.{database_at};
    ghost use Rattle.step_core.specs.States.{is_queued};
    ghost use Rattle.te_snapshot.specs.Left.{all_left};

    ghost queues = { λ s peer waits. waits ≡ is_queued (database_at B.text s.store.seat.now.seen).state peer };

    ghost is_left = { λ s table. let d = database_at B.text s.store.seat.now.seen in table ≡ all_left d.state.te.links d.state.base.paths };

    fn roll_if_full(&mut self) -> Result<Option<u64>, AllocError> {
        self.store.roll_if_full()
    }

    fn queued(&mut self, peer: u32) -> bool {
        ServerStore::queued(&mut self.store, peer)
    }

    fn left(&mut self) -> Result<Vec<[i64; 8]>, AllocError> {
        ServerStore::left(&mut self.store)
    }
}
