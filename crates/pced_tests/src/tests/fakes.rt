//! Readers, writers, watches and stores that do what a test wants.
use engine_core::{Call, Event, Fault, Reply, ServerStore, Store};
use history_core::{LinkReload, SharedEvent};
use line_names::Named;
use pcep_messages::Message;
use pcep_objects::Open;
use script_lines::ViewLine;
use sequence::Sequence;
use server_talk::{Plan, PlanFault, Show, TAKEN_WITHIN_MS, TimedRead, Watch};
use std::alloc::{AllocError, Global};
use std::cell::Cell;
use std::collections::VecDeque;
use std::io;
use std::io::{ErrorKind, Read, Write};
use te_base::{LinkValues, TeFault};

/// What a read gives. After the end of the list the peer has closed.
#[derive(Clone, Copy)]
pub enum Beat {
    Bytes(&'static [u8]),
    Nothing,
    Fault,
}

/// A reader of beats.
#[derive(Drop)]
pub struct Beats {
    pub beats: VecDeque<Beat>,
}

impl Read for Beats {
    fn read(&mut self, buf: &mut [u8]) -> io::Result<usize> {
        match self.beats.pop_front() {
            Some(Beat::Bytes(bytes)) => {
                let count = bytes.len().min(buf.len());
                buf[..count].copy_from_slice(&bytes[..count]);
                Ok(count)
            }
            Some(Beat::Nothing) => Err(io::Error::from(ErrorKind::WouldBlock)),
            Some(Beat::Fault) => Err(io::Error::from(ErrorKind::ConnectionReset)),
            None => Ok(0),
        }
    }
}

impl TimedRead for Beats {
    fn set_timeout(&mut self, _most_ms: u64) {}
}

/// A reader of bytes that are there.
#[derive(Drop)]
pub struct Given<'a> {
    pub bytes: &'a [u8],
}

impl<'a> Read for Given<'a> {
    fn read(&mut self, buf: &mut [u8]) -> io::Result<usize> {
        self.bytes.read(buf)
    }
}

impl<'a> TimedRead for Given<'a> {
    fn set_timeout(&mut self, _most_ms: u64) {}
}

/// A link text that gives two links values, or has a fault. The first link gets the values that it has, the second
/// other ones.
#[derive(Drop)]
pub struct Text {
    pub alloc: Global,
    pub fault: Option<PlanFault>,
}

impl Plan for Text {
    fn read(&self) -> Result<Sequence<LinkReload>, PlanFault> {
        match self.fault {
            Some(fault) => Err(fault),
            None => match entries(self.alloc) {
                Ok(links) => Ok(links),
                Err(_) => Err(PlanFault::Te(TeFault::OutOfMemory)),
            },
        }
    }
}

/// Makes the values of a link of this bandwidth.
fn values_with(metric: u64, reservable: u64) -> Result<LinkValues, AllocError> {
    LinkValues::new(metric, 10, 0, reservable).ok_or(AllocError)
}

fn entries(alloc: Global) -> Result<Sequence<LinkReload>, AllocError> {
    let mut links = Vec::new(alloc);
    links.push(LinkReload {
        link: 0,
        values: values_with(10, 1_000_000)?,
    })?;
    links.push(LinkReload {
        link: 1,
        values: values_with(20, 400_000)?,
    })?;
    Ok(Sequence::from_vec(links))
}

/// A writer that takes `left` writes, of at most `most` bytes each, and then fails.
#[derive(Drop)]
pub struct Tap {
    pub left: u64,
    pub most: usize,
    pub bytes: Vec<u8>,
}

impl Write for Tap {
    fn write(&mut self, buf: &[u8]) -> io::Result<usize> {
        if self.left == 0 {
            return Err(io::Error::from(ErrorKind::BrokenPipe));
        }
        self.left -= 1;
        let count = buf.len().min(self.most);
        match self.bytes.extend_from_slice(&buf[..count]) {
            Ok(()) => Ok(count),
            Err(_) => Err(io::Error::from(ErrorKind::OutOfMemory)),
        }
    }

    fn flush(&mut self) -> io::Result<()> {
        Ok(())
    }
}

/// A watch that stands still.
#[derive(Drop)]
pub struct Noon {
    pub is_closing: bool,
}

impl Watch for Noon {
    fn now_ms(&self) -> u64 {
        43_200_000
    }

    fn is_closing(&self) -> bool {
        self.is_closing
    }

    fn ring(&self, _peer: u32) {}
}

/// A watch on which each look takes as long as a peer may let a write wait.
#[derive(Drop)]
pub struct Slow {
    pub now_ms: Cell<u64>,
}

impl Watch for Slow {
    fn now_ms(&self) -> u64 {
        self.now_ms
            .set(self.now_ms.get().saturating_add(TAKEN_WITHIN_MS));
        self.now_ms.get()
    }

    fn is_closing(&self) -> bool {
        false
    }

    fn ring(&self, _peer: u32) {}
}

/// The kind of events that a store answers with a fault.
#[derive(Clone, Copy, PartialEq, Eq)]
pub enum Failing {
    Ups,
    Downs,
    Asks,
}

impl Failing {
    fn has(self, event: &Event) -> bool {
        match self {
            Failing::Ups => matches!(event, Event::Up { .. }),
            Failing::Downs => matches!(event, Event::Down { .. }),
            Failing::Asks => matches!(event, Event::Ask { .. }),
        }
    }
}

/// A store that replies Done to everything, but first answers `faults` events of a kind with a fault.
#[derive(Drop)]
pub struct Faulty {
    pub calls: Vec<Call>,
    pub failing: Failing,
    pub fault: Fault,
    pub faults: u32,
    pub downs: u32,
    pub rolls: u32,
    /// How often its list was emptied.
    pub forgets: u32,
}

impl Store for Faulty {
    ghost use Rattle.std.specs.Prelude.{◌≡◌, ◌++◌, ⊤};
    ghost use Rattle.std.proofs.Common.{sym};
    ghost use Rattle.std.proofs.lemmas.List.{append-nil};
    ghost use Rattle.engine_core.specs.DeedLaws.{added_on};
    ghost use Rattle.engine_core.specs.Deeds.{calls_of};

    ghost calls = { λ s. s.calls.items };

    ghost moves = { λ old made new. new.calls.items ≡ old.calls.items ++ calls_of made };

    ghost same_but_calls = { λ old new. new.faults ≡ old.faults };

    ghost is_full = { λ s. ⊤ };

    ghost rolls = { λ old steps new. new.calls ≡ old.calls };

    ghost moves_nowhere = { λ s. sym (append-nil s.calls.items) };

    ghost moves_on = { λ a b c first second h k. added_on a.calls.items b.calls.items c.calls.items first second h k };

    ghost moves_add = { λ a b made h. h };

    fn submit(&mut self, event: Event) -> Result<(), Fault> {
        let is_down = matches!(event, Event::Down { .. });
        if self.failing.has(&event) && self.faults > 0 {
            self.faults -= 1;
            return Err(self.fault);
        }
        let event = SharedEvent::new(*self.calls.allocator(), event)?;
        self.calls.push(Call {
            event,
            reply: Reply::Done,
        })?;
        self.downs = self.downs.wrapping_add(u32::from(is_down));
        Ok(())
    }

    fn show_open(&mut self, _peer_open: Open) {}

    fn show_message(&mut self, _message: &Message) {}

    fn calls(&self) -> &[Call] {
        self.calls.as_slice()
    }

    fn forget(&mut self) {
        self.forgets = self.forgets.wrapping_add(1);
        self.calls.clear();
    }

    fn roll(&mut self) -> Result<u64, AllocError> {
        self.rolls = self.rolls.wrapping_add(1);
        Ok(0)
    }
}

impl ServerStore for Faulty {
    ghost use Rattle.std.specs.Prelude.{⊤};

    ghost is_left = { λ _ table. ⊤ };

    /// Rolls whenever it is asked.
    fn roll_if_full(&mut self) -> Result<Option<u64>, AllocError> {
        let steps = self.roll()?;
        Ok(Some(steps))
    }

    fn queued(&mut self, _peer: u32) -> bool {
        false
    }

    /// Returns what is left of two links; more is reported on the second than it can carry.
    fn left(&mut self) -> Result<Vec<[i64; 8]>, AllocError> {
        let mut table = Vec::new(*self.calls.allocator());
        table.push([1, 2, 3, 4, 5, 6, 7, 8])?;
        table.push([-1; 8])?;
        Ok(table)
    }
}

impl Show for Faulty {
    /// Returns the values of two links, and what is left of them; more is reported on the second than it can carry.
    fn links(&mut self) -> Result<(Vec<LinkValues>, Vec<[i64; 8]>), AllocError> {
        let mut values = Vec::new(*self.calls.allocator());
        values.push(values_with(10, 1_000_000)?)?;
        values.push(values_with(10, 1_000_000)?)?;
        let left = self.left()?;
        Ok((values, left))
    }

    fn named(&mut self, _alloc: Global, _line: &str) -> Result<Named, AllocError> {
        Ok(Named {
            peer: None,
            from: None,
            to: None,
        })
    }

    fn show(&mut self, alloc: Global, _line: &ViewLine) -> Result<Vec<u8>, AllocError> {
        Ok(Vec::new(alloc))
    }
}
