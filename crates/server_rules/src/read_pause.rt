//! How long reading from a connection pauses if its router reports LSPs as DOWN again and again.
ghost use Rattle.std.specs.Prelude.{◌≡◌, ◌+◌, ◌≤◌, ◌∷◌, [], List, IfOk, IfSome};
ghost use Rattle.server_rules.specs.Pauses.{after_down, counts_of, is_other, pause_from, says, says_after_down, trial_of, wait_ms, with_trial};
ghost use Rattle.server_rules.specs.declared.pausing.PauseHappening.{PauseHappening};

use crate::pausing::{
    PauseHappening, Pausing, Trial, ended, failed, fails_again, granted, is_line_due, is_recent,
    paused, wait_ms,
};
use std::alloc::{AllocError, Global};
use std::marker::Model;

/// The most LSPs that are watched.
const WATCHED: usize = 64;

/// The LSPs of a connection that were recently granted a path or failed, and the pauses of its reading.
#[derive(Drop)]
pub struct ReadPause {
    trials: Vec<Trial>,
    pausing: Pausing,
}

impl Model for ReadPause {
    ghost use Rattle.std.specs.Prelude.{◌≤◌, length, vec_capacity};
    ghost use Rattle.server_rules.specs.Pauses.{Paused};

    ghost Value = { Paused };

    ghost view = { λ p. record { trials = p.trials.items; pausing = p.pausing } };

    ghost invariant = { λ p. (64 ≤ vec_capacity p.trials) × (length p.trials.items ≤ 64) };
}

/// Tests whether this was noted about the LSP and still counts.
fn counts_of(trial: Trial, plsp: u32, now_ms: u64) -> bool
    ensures { result ≡ counts_of plsp now_ms trial }
{
    trial.plsp == plsp && is_recent(trial, now_ms)
}

/// Tests whether this was noted about another LSP and still counts.
fn is_other(other: Trial, trial: Trial) -> bool
    ensures { result ≡ is_other trial other }
{
    other.plsp != trial.plsp && is_recent(other, trial.at_ms)
}

impl ReadPause {
    /// Makes the record of a connection to which nothing has happened. Takes all the memory that it will need.
    pub fn new(alloc: Global) -> Result<ReadPause, AllocError>
        ensures { IfOk result (λ p. p ≡ pause_from []) }
    {
        Ok(ReadPause {
            trials: Vec::with_capacity(alloc, WATCHED)?,
            pausing: Pausing::NEVER,
        })
    }

    /// Returns what counts for an LSP.
    fn trial(&self, plsp: u32, now_ms: u64) -> Option<Trial>
        ensures { result ≡ trial_of plsp now_ms self.now.trials }
    {
        self.trials
            .iter()
            .find(|trial| counts_of(**trial, plsp, now_ms))
            .copied()
    }

    /// Notes what happened to an LSP, if it may be watched.
    fn watch(&mut self, trial: Trial)
        ensures { self.new ≡ record self.old { trials = with_trial trial self.old.trials } }
    {
        self.trials.retain(|other| is_other(*other, trial));
        if self.trials.len() < WATCHED {
            let _pushed = self.trials.push(trial);
        }
    }

    /// Notes that the LSP was reported DOWN. Returns true if a line should say that a pause begins.
    fn down(&mut self, plsp: u32, now_ms: u64) -> bool
        ensures after { self.new ≡ after_down plsp now_ms (trial_of plsp now_ms self.old.trials) self.old }
        ensures line { result ≡ says_after_down now_ms (trial_of plsp now_ms self.old.trials) self.old.pausing }
    {
        let Some(trial) = self.trial(plsp, now_ms) else {
            return false;
        };
        if !trial.is_granted {
            return false;
        }
        self.watch(failed(plsp, now_ms));
        if !fails_again(trial, now_ms) {
            return false;
        }
        let is_line_due = is_line_due(self.pausing, now_ms);
        self.pausing = paused(self.pausing, now_ms);
        is_line_due
    }

    /// Notes what happened. Returns true if a line should say that a pause begins.
    pub fn note(&mut self, what: PauseHappening) -> bool
        ensures adds { (past : List PauseHappening) → self.old ≡ pause_from past → self.new ≡ pause_from (what ∷ past) }
        ensures line { result ≡ says what self.old }
    {
        match what {
            PauseHappening::Granted { plsp, now_ms } => {
                let trial = granted(plsp, now_ms, self.trial(plsp, now_ms));
                self.watch(trial);
                false
            }
            PauseHappening::Down { plsp, now_ms } => self.down(plsp, now_ms),
            PauseHappening::CameUp => {
                self.trials.clear();
                self.pausing = ended(self.pausing);
                false
            }
        }
    }

    /// Returns how long reading should wait from this moment on, in milliseconds: at most 5,000, and never past the
    /// moment at which the peer's DeadTimer is due, if it has one.
    pub fn wait_ms(&self, now_ms: u64, dead_ms: Option<u64>) -> u64
        ensures wait { result ≡ wait_ms now_ms dead_ms self.now.pausing }
        ensures alive { IfSome dead_ms (λ dead_ms. now_ms ≤ dead_ms → now_ms + result ≤ dead_ms) }
    {
        wait_ms(self.pausing, now_ms, dead_ms)
    }
}
