//! Bytes that are added at the end and removed at the front.

ghost use Rattle.std.specs.Prelude.{◌≡◌, ◌≤◌, ◌*◌, [], ◌++◌, ◌∷◌, length, drop, vec_capacity, OnOk, OnErr, IfErr, true, false};
ghost use Rattle.pcep_messages.specs.Spelling.{is_written, fits, written};
ghost use Rattle.pcep_session.specs.Framing.{is_waiting, front_of};
ghost use Rattle.pcep_objects.specs.declared.fault.WriteFault.TheVariants.{TooLong};

use crate::framing::{HEADER, needed_in};
use pcep_messages::{Message, write_message};
use pcep_objects::WriteFault;
use std::alloc::{AllocError, Global};
use std::marker::Model;
use std::mem;

/// The room that a buffer keeps if nothing waits in it, in bytes: what the longest message takes, rounded up.
const KEPT_ROOM: usize = 65_536;

/// Bytes that were received and not handled yet. Handled bytes are kept before them, but never more than wait. If none
/// wait, no more room is kept than for a message.
#[derive(Debug, Drop)]
pub struct ReceivedBytes {
    items: Vec<u8>,
    /// How many of the items are handled.
    start: usize,
    /// How many bytes must wait until there is something to handle. So when bytes come one by one, one comparison shows
    /// that there is nothing to handle yet.
    needed: usize,
}

impl Model for ReceivedBytes {
    ghost use Rattle.std.specs.Prelude.{List, ℕ, drop, length, vec_capacity, ◌-◌, ◌≡◌, ◌≤◌};
    ghost use Rattle.pcep_session.specs.Framing.{bytes_needed};

    ghost Value = { List ℕ };

    ghost view = { λ p. drop p.start p.items.items };

    ghost invariant = { λ p. (p.start ≤ length p.items.items - p.start) × (length p.items.items ≡ 0 → vec_capacity p.items ≤ 65536)
        × (p.needed ≡ bytes_needed (drop p.start p.items.items)) };
}

fn remove_front(items: &mut Vec<u8>, count: usize)
    requires { count ≤ length items.old.items }
    ensures { items.new.items ≡ drop count items.old.items }
{
    let len = items.len();
    items.copy_within(count..len, 0);
    items.truncate(len - count);
}

/// Frees the room of an empty buffer if it is more than it keeps.
fn release(items: &mut Vec<u8>)
    ensures items { items.new.items ≡ items.old.items }
    ensures released { length items.new.items ≡ 0 → vec_capacity items.new ≤ 65536 }
{
    if items.is_empty() && items.capacity() > KEPT_ROOM {
        items.shrink_to_fit();
    }
}

impl ReceivedBytes {
    #[tactic(auto, using(crate::proofs::Needed::none_needs))]
    pub fn new(alloc: Global) -> ReceivedBytes
        ensures { result ≡ [] }
    {
        ReceivedBytes {
            items: Vec::new(alloc),
            start: 0,
            needed: HEADER,
        }
    }

    pub fn as_slice(&self) -> &[u8]
        ensures { result.now ≡ self.now }
    {
        &self.items[self.start..]
    }

    /// Tests whether there is nothing to handle yet.
    #[tactic(auto, using(crate::proofs::Needed::waits_behind))]
    pub fn is_waiting(&self) -> bool
        ensures { result ≡ is_waiting (front_of self.now) }
    {
        self.items.len() - self.start < self.needed
    }

    /// Returns how many bytes are kept: those that wait, and handled ones before them.
    pub fn kept(&self) -> usize
        ensures at_least { length self.now ≤ result }
        ensures at_most { result ≤ 2 * length self.now }
    {
        self.items.len()
    }

    /// Returns for how many bytes there is memory.
    pub fn room(&self) -> usize
        ensures at_least { length self.now ≤ result }
        ensures at_most { self.now ≡ [] → result ≤ 65536 }
    {
        self.items.capacity()
    }

    /// Appends one byte, as a peer's bytes may come one by one. Then some wait, and no room is freed.
    #[tactic(auto, using(crate::proofs::Needed::one_more_needs))]
    fn push(&mut self, byte: u8) -> Result<(), AllocError>
        ensures ok { OnOk result (self.new ≡ self.old ++ byte ∷ []) }
        ensures err { OnErr result (self.new ≡ self.old) }
    {
        if self.items.push(byte).is_err() {
            release(&mut self.items);
            return Err(AllocError);
        }
        if self.items.len() - self.start >= self.needed {
            self.needed = needed_in(&self.items[self.start..]);
        }
        Ok(())
    }

    pub fn append(&mut self, piece: &[u8]) -> Result<(), AllocError>
        ensures ok { OnOk result (self.new ≡ self.old ++ piece.now) }
        ensures err { OnErr result (self.new ≡ self.old) }
    {
        if piece.len() == 1 {
            return self.push(piece[0]);
        }
        let appended = self.items.extend_from_slice(piece);
        release(&mut self.items);
        self.needed = needed_in(&self.items[self.start..]);
        appended
    }

    /// Marks bytes as handled. Once more are handled than wait, those that wait move to the front. Each handled byte
    /// pays for less than one that is moved, so the moves are linear in the bytes handled.
    pub fn skip(&mut self, count: usize)
        requires { count ≤ length self.old }
        ensures { self.new ≡ drop count self.old }
    {
        self.start += count;
        if self.start > self.items.len() - self.start {
            remove_front(&mut self.items, self.start);
            self.start = 0;
            release(&mut self.items);
        }
        self.needed = needed_in(&self.items[self.start..]);
    }

    #[tactic(auto, using(crate::proofs::Needed::none_needs))]
    pub fn clear(&mut self)
        ensures { self.new ≡ [] }
    {
        self.items.clear();
        self.start = 0;
        self.needed = HEADER;
        release(&mut self.items);
    }
}

/// Bytes to be sent.
#[derive(Debug, Drop)]
pub struct Output {
    items: Vec<u8>,
}

impl Model for Output {
    ghost use Rattle.std.specs.Prelude.{List, ℕ};

    ghost Value = { List ℕ };

    ghost view = { λ o. o.items.items };
}

impl Output {
    pub fn new(alloc: Global) -> Output
        ensures { result ≡ [] }
    {
        Output {
            items: Vec::new(alloc),
        }
    }

    pub fn append(&mut self, bytes: &[u8]) -> Result<(), AllocError>
        ensures ok { OnOk result (self.new ≡ self.old ++ bytes.now) }
        ensures err { OnErr result (self.new ≡ self.old) }
    {
        self.items.extend_from_slice(bytes)
    }

    /// Appends the spelling of a message.
    pub fn write(&mut self, message: &Message) -> Result<(), WriteFault>
        requires { is_written message.now ≡ true }
        ensures fits { OnOk result (fits message.now ≡ true) }
        ensures written { OnOk result (self.new ≡ self.old ++ written message.now) }
        ensures too_long { IfErr result (λ e. e ≡ TooLong → fits message.now ≡ false) }
        ensures err { OnErr result (self.new ≡ self.old) }
    {
        write_message(message, &mut self.items)
    }

    /// Hands out the bytes. Allocates nothing.
    pub fn take(&mut self) -> Vec<u8>
        ensures taken { result.items ≡ self.old }
        ensures empty { self.new ≡ [] }
    {
        let alloc = *self.items.allocator();
        mem::replace(&mut self.items, Vec::new(alloc))
    }
}
