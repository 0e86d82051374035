//! What the threads of a run say, on its way to the thread that writes it. Nobody waits to say something.
ghost use Rattle.std.specs.Prelude.{◌≡◌, ◌≤◌, length};
ghost use Rattle.server_log.specs.Queues.{Loses, Pushes, TellsLost};

use crate::held::Held;
use crate::kinds::{KINDS, Kind};
use crate::log_lines::LogLine;
use log::Level;
use std::alloc::{AllocError, Global};
use std::mem;
use std::sync::{Condvar, CondvarTimeouts, Mutex, Wait};
use std::time::{Clock, Duration};

/// The number of lines that wait to be written, at most. More are counted.
const LINES: usize = 1024;

/// The wait of the writing thread for a line, in milliseconds.
const LINE_WAIT_MS: u64 = 250;

/// The lines that wait to be written, the oldest first.
#[derive(Drop)]
struct Queue {
    lines: Vec<LogLine>,
    held: Held,
    /// The number of lines that found no room.
    lost: u64,
    is_over: bool,
}

impl Queue {
    /// Adds a line. One that finds no room is counted.
    fn push(&mut self, line: LogLine)
        ensures pushes { Pushes line self.old self.new }
        ensures no_room { 1024 ≤ length self.old.lines.items → Loses self.old self.new }
    {
        if self.lines.len() >= LINES || self.lines.push(line).is_err() {
            self.lost = self.lost.saturating_add(1);
        }
    }

    /// Adds how many lines were lost, once, if any were and there is room.
    fn add_lost(&mut self)
        ensures { TellsLost self.old.lost self.old self.new }
    {
        let lines = self.lost;
        if lines == 0 || self.lines.len() >= LINES {
            return;
        }
        if self.lines.push(LogLine::Lost { lines }).is_ok() {
            self.lost = 0;
        }
    }

    /// Adds a line that isn't held back, after the count of those that were.
    fn add(&mut self, line: LogLine, now_ms: u64) {
        self.add_held(line.kind(), now_ms);
        self.push(line);
    }

    /// Adds the line unless it is held back. Returns whether it was added.
    fn say(&mut self, line: LogLine, now_ms: u64) -> bool {
        let is_said = self.held.lets(line.kind(), line.router(), now_ms);
        if is_said {
            self.add(line, now_ms);
        }
        is_said
    }

    /// Adds how many lines of a kind were held back, if it is time.
    fn add_held(&mut self, kind: Kind, now_ms: u64) {
        if let Some(lines) = self.held.held_by(kind, now_ms) {
            self.push(LogLine::Withheld { kind, lines });
        }
    }

    /// Adds the counts of what was held back or lost, if it is time, and at the end in any case.
    fn add_counts(&mut self, now_ms: u64) {
        let now_ms = if self.is_over { u64::MAX } else { now_ms };
        for kind in KINDS {
            self.add_held(kind, now_ms);
        }
        self.add_lost();
    }
}

/// What the threads of a run say.
#[derive(Drop)]
pub struct LogQueue {
    queue: Mutex<Queue>,
    filled: Condvar,
    /// Lines of level debug are wanted.
    is_debug: bool,
}

impl LogQueue {
    /// Makes room for all lines that may wait, so that saying takes no memory.
    pub fn new(alloc: Global, is_debug: bool) -> Result<LogQueue, AllocError> {
        let held = Held::new(alloc)?;
        let queue = Queue {
            lines: Vec::with_capacity(alloc, LINES)?,
            held,
            lost: 0,
            is_over: false,
        };
        Ok(LogQueue {
            queue: Mutex::new(queue),
            filled: Condvar::new(),
            is_debug,
        })
    }

    /// Makes an empty list with room for all lines that may wait.
    pub fn room(&self, alloc: Global) -> Result<Vec<LogLine>, AllocError> {
        Vec::with_capacity(alloc, LINES)
    }

    /// Says a line at this moment.
    pub fn say<R: Wait>(&self, rt: &R, line: LogLine, now_ms: u64) {
        if line.level() == Level::Debug && !self.is_debug {
            return;
        }
        let is_said = self.queue.lock(rt).say(line, now_ms);
        if is_said {
            self.filled.notify_one();
        }
    }

    /// Tests whether a line of this kind about a router may be written at this moment. If not, it is counted as held back.
    pub fn admits<R: Wait>(&self, rt: &R, kind: Kind, router: u32, now_ms: u64) -> bool {
        self.queue.lock(rt).held.lets(kind, router, now_ms)
    }

    /// Adds a line that was admitted at this moment.
    pub fn say_admitted<R: Wait>(&self, rt: &R, line: LogLine, now_ms: u64) {
        self.queue.lock(rt).add(line, now_ms);
        self.filled.notify_one();
    }

    /// Swaps these lines, of which there are none, for those that wait, with the counts of what was withheld or lost by
    /// this moment. Waits a while for one. Says whether the log is over.
    pub fn swap<R: Wait + Clock>(&self, rt: &R, lines: &mut Vec<LogLine>, now_ms: u64) -> bool {
        let most = Duration::from_millis(LINE_WAIT_MS);
        let (mut queue, _timeout) = self
            .filled
            .wait_timeout_while(rt, self.queue.lock(rt), most, |queue| {
                queue.lines.is_empty() && !queue.is_over
            });
        let queue = &mut *queue;
        queue.add_counts(now_ms);
        mem::swap(&mut queue.lines, lines);
        queue.is_over
    }

    /// Ends the log: what waits is written as far as that can be done at once.
    pub fn end<R: Wait>(&self, rt: &R) {
        self.queue.lock(rt).is_over = true;
        self.filled.notify_all();
    }

    pub fn is_over<R: Wait>(&self, rt: &R) -> bool {
        self.queue.lock(rt).is_over
    }
}
