//! What the log says about decisions.
use crate::context::Context;
use crate::upkeep::Upkeep;
use engine_core::{Call, Reply};
use history_seats::Brands;
use server_log::{Asker, Decision, LogLine, ShownName, asked};
use server_rules::RouterLsp;
use shared_pce::Event;
use short_lock::acquire;
use std::sync::Wait;
use std::time::Clock;
use step_core::Purpose;

impl Upkeep {
    /// Notes what a session's call says about the names of LSPs.
    pub(crate) fn note_name<R: Wait>(&self, rt: &R, call: &Call) {
        match (call.event.event(), &call.reply) {
            (_, Reply::Refused(_)) => {}
            (Event::Up { peer, .. }, _) => acquire(rt, self.names()).forget(*peer),
            (Event::Report { peer, report }, _) => acquire(rt, self.names()).hear(*peer, report),
            _ => {}
        }
    }
}

impl<'a, R: Wait + Clock, B: Brands> Context<'a, R, B> {
    /// Returns the name that an LSP's router last reported, or an unknown one.
    pub fn name_of(&self, peer: u32, plsp: u32) -> ShownName {
        match acquire(self.rt, self.upkeep.names()).of(RouterLsp { peer, plsp }) {
            Some(name) => name,
            None => ShownName::UNKNOWN,
        }
    }

    /// Returns the name of the LSP that an update is for. Other purposes need none: they have a name or a request.
    pub fn name_for(&self, peer: u32, purpose: &Purpose) -> ShownName {
        match purpose {
            Purpose::Update { plsp } => self.name_of(peer, plsp.number()),
            _ => ShownName::UNKNOWN,
        }
    }

    /// Logs what was asked for, decided or answered, if anything was.
    pub fn say_decided(&self, decision: Option<Decision>) {
        if let Some(decision) = decision {
            self.say(LogLine::Decided(decision));
        }
    }

    /// Logs that a peer's path was asked for, if the reply says so.
    pub(crate) fn say_asked_for(&self, peer: u32, purpose: &Purpose, reply: &Reply, by: Asker) {
        if matches!(reply, Reply::Asked(_)) {
            let name = self.name_for(peer, purpose);
            self.say_decided(asked(peer, purpose, reply, name, by));
        }
    }

    /// Logs that a call asked for a path, if it did.
    pub(crate) fn say_asked(&self, call: &Call, by: Asker) {
        if let Event::Ask { peer, purpose } = call.event.event() {
            self.say_asked_for(*peer, purpose, &call.reply, by);
        }
    }
}
