//! A store that notes what happens to its peer's session.
use crate::notes::Notes;
use engine_core::{Call, Event, Fault, ServerStore, Store};
use history_seats::Brands;
use pcep_messages::Message;
use pcep_objects::Open;
use server_base::forget_counted;
use server_log::Asker;
use server_rules::SessionHappening;
use server_talk::Watch;
use short_lock::acquire;
use std::alloc::AllocError;
use std::sync::Wait;
use std::time::Clock;

/// The store of one session. Each call is noted as soon as it is made. So that the session came up or went down is
/// noted wherever that was submitted and accepted, and what was reported before the end of synchronization is
/// distinguished from what came after it. What the session shows is noted too, before its events are submitted.
#[derive(Drop)]
pub(crate) struct ObservedStore<'a, 'c, 't, R: Clock, B: Brands, D: ServerStore + Drop> {
    pub notes: Notes<'a, 'c, 't, R, B>,
    pub store: D,
}

impl<'a, 'c, 't, R: Wait + Clock, B: Brands, D: ServerStore + Drop> Store
    for ObservedStore<'a, 'c, 't, R, B, D> {
    ghost calls = { λ s. D.calls s.store };

    ghost moves = { λ old made new. D.moves old.store made new.store };

    ghost same_but_calls = { λ old new. D.same_but_calls old.store new.store };

    ghost is_full = { λ s. D.is_full s.store };

    ghost rolls = { λ old steps new. D.rolls old.store steps new.store };

    ghost moves_nowhere = { λ s. D.moves_nowhere s.store };

    ghost moves_on = { λ a b c first second h k. D.moves_on a.store b.store c.store first second h k };

    ghost moves_add = { λ a b made h. D.moves_add a.store b.store made h };

    fn submit(&mut self, event: Event) -> Result<(), Fault> {
        if let Event::Up { peer, .. } = &event {
            self.notes.come_up(*peer);
        }
        if matches!(event, Event::Down { .. }) {
            self.notes.lose_sync();
        }
        let is_ask = matches!(event, Event::Ask { .. });
        let asked_us = if is_ask {
            self.notes.await_share();
            self.notes.context.moments().now_us()
        } else {
            0
        };
        let submitted = self.store.submit(event);
        if submitted.is_ok() {
            self.notes.note_last(self.store.calls());
        }
        if is_ask && submitted.is_ok() {
            self.notes
                .context
                .note_ask(self.store.calls(), asked_us, Asker::Report);
        }
        submitted
    }

    fn show_open(&mut self, peer_open: Open) {
        self.notes.hear_open(peer_open);
        self.store.show_open(peer_open);
    }

    fn show_message(&mut self, message: &Message) {
        self.notes.hear(message);
        self.store.show_message(message);
    }

    fn calls(&self) -> &[Call] {
        self.store.calls()
    }

    fn forget(&mut self) {
        let context = self.notes.context;
        self.notes.session.note(SessionHappening::TurnEnded);
        forget_counted(&mut self.store, &mut acquire(context.rt, context.counters));
    }

    fn roll(&mut self) -> Result<u64, AllocError> {
        self.store.roll()
    }
}

impl<'a, 'c, 't, R: Wait + Clock, B: Brands, D: ServerStore + Drop> ServerStore
    for ObservedStore<'a, 'c, 't, R, B, D> {
    ghost queues = { λ s peer waits. D.queues s.store peer waits };

    ghost is_left = { λ s table. D.is_left s.store table };

    fn roll_if_full(&mut self) -> Result<Option<u64>, AllocError> {
        let rolled = self.store.roll_if_full();
        self.notes.note_rolled(&rolled);
        rolled
    }

    fn queued(&mut self, peer: u32) -> bool {
        self.store.queued(peer)
    }

    fn left(&mut self) -> Result<Vec<[i64; 8]>, AllocError> {
        self.store.left()
    }
}
