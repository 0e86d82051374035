//! What a connection's thread notes and logs about its session.
use crate::asked::{AskedLook, AskedLsp};
use crate::reading::Reading;
use crate::sayings::{answer_of, path_happening, replaced_lsp, session_happening, trial_happening};
use crate::sent::SentRequests;
use engine_core::{Call, Event, Reply};
use history_seats::Brands;
use lsp_base::Why;
use path_sayings::lsp_of;
use pcep_messages::{Errors, Initiate, Message, StateReport};
use pcep_objects::{Capabilities, Open, Plsp};
use server_base::{Context, Standing, StandsLook};
use server_counts::Counted;
use server_log::{Decision, LogLine, PeerTimers, ShownName, refusal_line};
use server_rules::{
    ConnectionNotes, PathHappening, PauseHappening, PcErr, PcErrHappening, ReadPause, RouterLsp,
    SessionHappening,
};
use server_talk::Watch;
use shared_pce::Front;
use short_lock::acquire;
use std::alloc::AllocError;
use std::sync::Wait;
use std::thread;
use std::time::{Clock, Duration};

/// The pause of a session whose router has as many tickets as are free, in milliseconds. The session waits meanwhile,
/// and so do its Keepalives.
const SHARE_PAUSE_MS: u64 = 5;

/// The most of these pauses in one turn.
const SHARE_PAUSES: u32 = 100;

/// A second, in milliseconds.
const SECOND_MS: u64 = 1000;

/// What a connection's thread notes about its session.
#[derive(Drop)]
pub(crate) struct Notes<'a, 'c, 't, R: Clock, B: Brands> {
    pub context: &'a Context<'c, R, B>,
    /// The slot of the connection's seat.
    pub slot: usize,
    pub peer: u32,
    /// The timers of the peer's Open.
    pub timers: PeerTimers,
    pub session: ConnectionNotes,
    /// Says whether the session is up.
    pub standing: Standing,
    /// The LSPs that recently were granted paths or went down.
    pub trials: &'t mut ReadPause,
    pub reading: &'t Reading,
    /// The requests that the router hasn't answered.
    pub sent: SentRequests,
    /// What the connection's thread has seen of the history.
    pub front: Front<Event, B>,
}

impl<'a, 'c, 't, R: Wait + Clock, B: Brands> Notes<'a, 'c, 't, R, B> {
    fn now_ms(&self) -> u64 {
        self.context.moments().now_ms()
    }

    /// Marks the session of the peer as one that comes up, so that its connection doesn't end for another, and lets a
    /// peer that is down make room for it if one must. If its connection has already ended for another, the session is
    /// closed at its next turn.
    pub fn come_up(&self, peer: u32) {
        let context = self.context;
        let _has_place = context.wakers.mark(context.rt, self.slot, true);
        context.make_room_for(peer);
    }

    /// Pauses while the router has as many tickets as are free.
    pub fn await_share(&mut self) {
        let context = self.context;
        for _pause in 0..SHARE_PAUSES {
            if !self.session.may_pause()
                || context.run.is_closing()
                || context.look_for_share(&mut self.front, self.peer)
            {
                return;
            }
            self.session.note(SessionHappening::Paused);
            thread::sleep(context.rt, Duration::from_millis(SHARE_PAUSE_MS));
        }
    }

    /// Notes that the session hasn't come up.
    fn stay_down(&mut self) {
        let context = self.context;
        let _has_place = context.wakers.mark(context.rt, self.slot, false);
    }

    fn rise(&mut self, capabilities: Option<Capabilities>) {
        let context = self.context;
        let up_ms = self.session.up_ms();
        context.note_earlier_grants(&mut self.front, self.peer, up_ms);
        let noted = context
            .peer_states
            .lock(context.rt)
            .came_up(self.peer, self.slot, up_ms);
        if noted.is_err() {
            context.say(LogLine::MemoryRefused);
        }
        context.say(LogLine::Up {
            peer: self.peer,
            timers: self.timers,
            capabilities,
        });
    }

    /// Notes that the peer has reported all of its LSPs. What it reports later in the same bytes isn't counted among
    /// them.
    fn sync(&mut self) {
        let context = self.context;
        let lsps = context
            .shared
            .lsp_count(context.rt, &mut self.front, self.peer);
        context.grants.note(context.rt, self.peer, true);
        context.say(LogLine::InSync {
            peer: self.peer,
            lsps,
            after_ms: self.now_ms().saturating_sub(self.session.up_ms()),
        });
    }

    /// Notes that what the peer holds isn't known any more.
    pub fn lose_sync(&self) {
        self.context.grants.note(self.context.rt, self.peer, false);
    }

    /// Notes that the history was to be rolled. If it wasn't full, memory ran out for the session, and the timer thread
    /// rolls the history for that. The session has ended, but its router finds memory when it connects again.
    pub fn note_rolled(&self, rolled: &Result<Option<u64>, AllocError>) {
        if !matches!(rolled, Ok(Some(_))) {
            self.context.run.note_short_memory(self.context.rt);
        }
    }

    /// Notes and logs that the state refused an event of the session.
    fn refuse(&mut self, event: &Event, why: Why) {
        if matches!(event, Event::Up { .. }) {
            self.stay_down();
        }
        self.context.say(refusal_line(self.peer, event, why));
    }

    /// Notes and logs what a call says.
    fn note(&mut self, call: &Call) {
        match (call.event.event(), &call.reply) {
            (event, Reply::Refused(why)) => self.refuse(event, *why),
            (Event::Up { capabilities, .. }, Reply::Done) => self.rise(*capabilities),
            (Event::Up { .. }, _) => self.stay_down(),
            (Event::Marker { .. }, _) => self.sync(),
            (Event::Report { report, .. }, _) => self.note_report(report),
            (_, Reply::Out(messages)) => self.note_sent(messages.as_slice()),
            _ => {}
        }
    }

    /// Acts on an accepted report.
    fn note_report(&mut self, report: &StateReport) {
        let context = self.context;
        if report.remove {
            self.note_removal(report);
        } else {
            context.end_unsignalled(&mut self.front, self.peer, report);
            context.end_covered(&mut self.front, self.peer, report.plsp);
        }
    }

    /// Notes the last of these calls, which was just made. Whether the peer's session is up is noted first.
    pub fn note_last(&mut self, calls: &[Call]) {
        let Some(call) = calls.last() else {
            return;
        };
        self.standing = self.standing.after(call);
        let now_ms = self.now_ms();
        if let Some(report) = answer_of(call) {
            self.hear_answer(report, now_ms);
        }
        if let Some(what) = session_happening(call, now_ms) {
            self.session.note(what);
        }
        self.context.peers.note_call(self.context.rt, call, now_ms);
        self.context.upkeep.note_call(self.context.rt, call, now_ms);
        self.note_words(call);
        if let Some(what) = trial_happening(call, now_ms) {
            self.note_trial(what, now_ms);
        }
        self.note(call);
    }

    /// Notes what a call says about the router's paths that the state doesn't keep.
    fn note_words(&self, call: &Call) {
        let Some(what) = path_happening(call) else {
            return;
        };
        if let Some(of) = replaced_lsp(call) {
            self.note_word(PathHappening::LspRemoved { of });
        }
        self.note_word(what);
        if let PathHappening::Up { peer } = what {
            self.note_error(PcErrHappening::Up { peer });
        }
    }

    /// Notes what happened to the router's paths.
    fn note_word(&self, what: PathHappening) {
        let context = self.context;
        if acquire(context.rt, context.words).note(what).is_err() {
            context.say(LogLine::MemoryRefused);
        }
    }

    /// Notes what happened to refusals of the router.
    fn note_error(&self, what: PcErrHappening) {
        let context = self.context;
        if acquire(context.rt, context.errors).note(what).is_err() {
            context.say(LogLine::MemoryRefused);
        }
    }

    /// Acts on an accepted removal: if no path of its LSP is left, the refusal that is known for it is forgotten.
    fn note_removal(&mut self, report: &StateReport) {
        let context = self.context;
        let of = lsp_of(self.peer, report);
        if acquire(context.rt, context.errors).of(of).is_none() {
            return;
        }
        let look = StandsLook {
            peer: self.peer,
            plsp: report.plsp,
        };
        let stands = context.shared.look(context.rt, &mut self.front, &look);
        if matches!(stands, Ok(false)) {
            self.note_error(PcErrHappening::LspRemoved { of });
        }
    }

    /// Returns the name of a report's LSP: the one in the report, or in an earlier one.
    fn name_in(&self, report: &StateReport) -> ShownName {
        match &report.name {
            Some(name) => ShownName::new(name.as_slice()),
            None => self.context.name_of(self.peer, report.plsp.number()),
        }
    }

    /// Logs that the router answered a request, if this report is the first to answer it.
    fn hear_answer(&mut self, report: &StateReport, now_ms: u64) {
        let Some(srp) = report.srp else {
            return;
        };
        let Some(sent_ms) = self.sent.answer(srp) else {
            return;
        };
        self.context.say_decided(Some(Decision::Answered {
            peer: self.peer,
            srp,
            lsp: self.name_in(report),
            after_ms: now_ms.saturating_sub(sent_ms),
        }));
    }

    /// Notes that a PCUpd is on its way to the router, which grants its LSP a path.
    fn note_update(&mut self, srp: u32, plsp: Plsp, now_ms: u64) {
        self.sent.note(srp, now_ms);
        let plsp = plsp.number();
        self.note_trial(PauseHappening::Granted { plsp, now_ms }, now_ms);
    }

    /// Notes the requests among these messages, which are on their way to the router.
    fn note_sent(&mut self, messages: &[Message]) {
        let now_ms = self.now_ms();
        for message in messages {
            match message {
                Message::Update(update) => self.note_update(update.srp, update.plsp, now_ms),
                Message::Initiate(Initiate::Create(create)) => self.sent.note(create.srp, now_ms),
                Message::Initiate(Initiate::Remove { srp, .. }) => self.sent.note(*srp, now_ms),
                _ => {}
            }
        }
    }

    /// Returns when the peer's DeadTimer is due, if it has one (RFC 5440 section 7.3).
    fn dead_ms(&self) -> Option<u64> {
        match self.timers.dead {
            0 => None,
            seconds => Some(
                self.reading
                    .heard_ms()
                    .saturating_add(SECOND_MS * seconds as u64),
            ),
        }
    }

    /// Notes what happened to an LSP that was granted a path, and until when reading pauses because of it.
    fn note_trial(&mut self, what: PauseHappening, now_ms: u64) {
        let dead_ms = self.dead_ms();
        let is_line_due = self.trials.note(what);
        let pause_ms = self.trials.wait_ms(now_ms, dead_ms);
        self.reading.pause_until(now_ms.saturating_add(pause_ms));
        if is_line_due {
            self.context.say(LogLine::Slowed {
                peer: self.peer,
                pause_ms,
            });
        }
    }

    /// Notes the timers of the peer's Open, as the session comes up.
    pub fn hear_open(&mut self, peer_open: Open) {
        self.timers = PeerTimers {
            keepalive: peer_open.keepalive,
            dead: peer_open.dead_timer,
        };
    }

    /// Takes in a message of the peer, before its events are submitted.
    pub fn hear(&mut self, message: &Message) {
        if let Message::Error(errors) = message {
            self.hear_errors(errors);
        }
    }

    /// Counts the errors of a PCErr of the router. By the first one it refuses what these SRP-IDs asked for.
    fn hear_errors(&mut self, errors: &Errors) {
        for error in errors.errors.as_slice() {
            self.context
                .count(Counted::ErrorReceived(error.error_type, error.value));
        }
        let Some(first) = errors.errors.as_slice().first() else {
            return;
        };
        let error = PcErr {
            kind: first.error_type,
            value: first.value,
        };
        if errors.srps.as_slice().is_empty() {
            self.say_refused(0, ShownName::UNKNOWN, error);
        }
        for srp in errors.srps.as_slice() {
            self.hear_refusal(*srp, error);
        }
    }

    fn say_refused(&self, srp: u32, lsp: ShownName, error: PcErr) {
        self.context.say(LogLine::RouterRefused {
            peer: self.peer,
            srp,
            lsp,
            error,
        });
    }

    /// Notes and logs that the router refused what an SRP-ID asked for.
    fn hear_refusal(&mut self, srp: u32, error: PcErr) {
        let context = self.context;
        let _sent_ms = self.sent.answer(srp);
        let peer = self.peer;
        let look = AskedLook { peer, srp };
        let Ok(Some(AskedLsp { plsp, name })) = context
            .shared
            .look(context.rt, &mut self.front, &look)
        else {
            self.say_refused(srp, ShownName::UNKNOWN, error);
            return;
        };
        let plsp = plsp.number();
        if plsp != 0 {
            let of = RouterLsp { peer, plsp };
            self.note_error(PcErrHappening::Sent { of, error });
        }
        self.say_refused(srp, name, error);
    }
}
