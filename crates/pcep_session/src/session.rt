//! A session and its calls.

ghost use Rattle.std.specs.Prelude.{◌≡◌, ◌≤◌, ◌*◌, [], length, true, false, None, IsOk, IfOk, IfErr, OnErr, is_some};
ghost use Rattle.pcep_session.specs.Turns.{is_closed, next, IsTurn};
ghost use Rattle.pcep_session.specs.Timers.{IsNextDue};
ghost use Rattle.pcep_session.specs.Ends.{most_turns};
ghost use Rattle.pcep_session.specs.Calls.{begun, ticked, fed_by, sent, error_reported, ended_by, output_taken, Does};
ghost use Rattle.pcep_session.specs.declared.fault.SessionFault.TheVariants.{OutOfMemory};

use crate::contents::Contents;
use crate::fault::SessionFault;
use crate::table::{EndReason, Input, State};
use crate::{calls, timers, turns};
use pcep_messages::{Message, PcError};
use pcep_objects::Open;
use std::alloc::Global;
use std::marker::Model;

/// One session of PCEP with a peer, as the side that accepted the connection (RFC 5440 section 6). It reads no
/// clock and no socket: bytes and moments go in by `feed` and `tick`, `next` says what they mean, and bytes
/// for the peer come out by `take_output`. Moments are milliseconds of one clock of the caller's.
///
/// Contracts see a session as its `Contents`. Each call is one step on them, in `specs/Calls` and `specs/Turns`. A
/// refused call leaves the session as it was.
#[derive(Debug, Drop)]
pub struct Session {
    alloc: Global,
    contents: Contents,
}

impl Model for Session {
    ghost use Rattle.pcep_session.specs.declared.contents.Contents.{Contents};

    ghost Value = { Contents };

    ghost view = { λ s. s.contents };
}

impl Session {
    /// Makes a session that begins at this moment, with its Open in the output: Keepalive 30 s, DeadTimer 120 s, SID 0,
    /// and the capabilities to update and to create LSPs. Fails with `OutOfMemory` if memory runs out.
    pub fn new(alloc: Global, now_ms: u64) -> Result<Session, SessionFault>
        ensures begun { IfOk result (λ s. s ≡ begun now_ms) }
        ensures only_memory { IfErr result (λ e. e ≡ OutOfMemory) }
    {
        let contents = calls::begin(alloc, now_ms)?;
        Ok(Session { alloc, contents })
    }

    /// Stores bytes of the peer, and the moment at which they came. A moment that is smaller than an earlier one is
    /// ignored. Fails with `Closed` if the session has ended, and stores neither; else with `OutOfMemory` if memory
    /// runs out.
    pub fn feed(&mut self, piece: &[u8], now_ms: u64) -> Result<(), SessionFault>
        ensures step { Does result self.old self.new (fed_by piece.now now_ms self.old) }
    {
        calls::feed(&mut self.contents, piece, now_ms)
    }

    /// Stores the moment. One that is smaller than an earlier one is ignored.
    pub fn tick(&mut self, now_ms: u64)
        ensures step { self.new ≡ ticked now_ms self.old }
    {
        calls::tick(&mut self.contents, now_ms);
    }

    /// Handles the next whole message, else the timer that is due, else returns None. It may put bytes into the output.
    /// The `next` that ends the session returns `Down`; after `end` the first one does. On a session that has ended it
    /// then returns None, and allocates nothing. Fails with `OutOfMemory` if memory runs out.
    pub fn next(&mut self) -> Result<Option<Input>, SessionFault>
        ensures step { IfOk result (λ input. IsTurn (next self.old) input self.new) }
        ensures unchanged_on_refusal { OnErr result (self.new ≡ self.old) }
        ensures only_memory { IfErr result (λ e. e ≡ OutOfMemory) }
        ensures no_memory_once_closed { is_closed self.old.state ≡ true → IsOk result }
    {
        turns::next(self.alloc, &mut self.contents)
    }

    /// Tests whether `next` has an input to give. This costs less than a `next` that returns None, which pays after
    /// each small piece of a message.
    pub fn has_input(&self) -> bool
        ensures { result ≡ is_some (next self.now).input }
    {
        turns::has_input(&self.contents)
    }

    /// Puts a message into the output. Fails with `Closed` if the session has ended, with `NotUp` if it isn't up yet,
    /// and with `TooLong` if a length doesn't fit its field or messages of the kind aren't written (PCReq, PCRpt, PCNtf
    /// and unknown types). Fails with `OutOfMemory` if memory runs out, which may come in place of `TooLong`.
    pub fn send(&mut self, message: &Message) -> Result<(), SessionFault>
        ensures step { Does result self.old self.new (sent message.now self.old) }
    {
        calls::send(&mut self.contents, message)
    }

    /// Puts a PCErr into the output, and the session goes on. Fails with `Closed` if the session has ended, with
    /// `NotUp` if it isn't up yet, and with `OutOfMemory` if memory runs out.
    pub fn report_error(&mut self, error: PcError) -> Result<(), SessionFault>
        ensures step { Does result self.old self.new (error_reported error self.old) }
    {
        calls::report_error(self.alloc, &mut self.contents, error)
    }

    /// Puts a PCErr and a Close with this reason into the output, as far as they are given, and ends the session, in
    /// any state. Fails with `Closed` if the session has ended already, and with `OutOfMemory` if memory runs out,
    /// which can't happen if neither is given.
    pub fn end(&mut self, error: Option<PcError>, reason: Option<u8>) -> Result<(), SessionFault>
        ensures step { Does result self.old self.new (ended_by error reason self.old) }
        ensures no_memory_for_nothing { is_closed self.old.state ≡ false → error ≡ None → reason ≡ None → IsOk result }
    {
        calls::end(self.alloc, &mut self.contents, error, reason)
    }

    /// Hands out the bytes to be sent. Allocates nothing.
    pub fn take_output(&mut self) -> Vec<u8>
        ensures output { result.items ≡ self.old.output }
        ensures step { self.new ≡ output_taken self.old }
    {
        self.contents.output.take()
    }

    /// Returns how often `next` returns Some at most, until more bytes or a later moment come.
    pub fn most_turns(&self) -> usize
        ensures { result ≡ most_turns self.now }
    {
        self.contents.bytes.as_slice().len() + 2
    }

    /// Returns the moment from which on a timer is due, if nothing is fed or sent until then: that of the session's
    /// Keepalive or of the peer's DeadTimer, or of the end of a wait for its Open or Keepalive. `None` if no timer will
    /// ever be due, for instance once the session has ended.
    pub fn next_due_ms(&self) -> Option<u64>
        ensures { IsNextDue result self.now }
    {
        timers::next_due_ms(&self.contents)
    }

    /// Returns how many received bytes the session keeps: those that wait to be handled, and handled ones that it
    /// hasn't dropped, never more than wait.
    pub fn kept_bytes(&self) -> usize
        ensures at_least { length self.now.bytes ≤ result }
        ensures at_most { result ≤ 2 * length self.now.bytes }
    {
        self.contents.bytes.kept()
    }

    /// Returns for how many received bytes the session holds memory: for those that wait, and for no more than 65,536
    /// if none do.
    pub fn room_for_bytes(&self) -> usize
        ensures at_least { length self.now.bytes ≤ result }
        ensures at_most { self.now.bytes ≡ [] → result ≤ 65536 }
    {
        self.contents.bytes.room()
    }

    /// Returns the peer's Open, once it has come: its timers and capabilities (RFC 5440 section 7.3).
    pub fn peer_open(&self) -> Option<Open>
        ensures { result ≡ self.now.peer }
    {
        self.contents.peer
    }

    /// Returns why the session has ended. `None` while it goes on.
    pub fn end_reason(&self) -> Option<EndReason>
        ensures { result ≡ self.now.end }
    {
        self.contents.end
    }

    /// Returns the state of the session.
    pub fn state(&self) -> State
        ensures { result ≡ self.now.state }
    {
        self.contents.state
    }
}
