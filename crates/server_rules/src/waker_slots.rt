//! Which connections can be woken, and which were woken and haven't looked since.
ghost use Rattle.std.specs.Prelude.{◌≡◌, ◌∷◌, [], List, IfOk, set};
ghost use Rattle.server_rules.specs.Wakings.{after, is_rung, slots_from};
ghost use Rattle.server_rules.specs.declared.waker_slots.SlotHappening.{SlotHappening};
ghost use Rattle.server_rules.specs.declared.waker_slots.SlotHappening.TheVariants.{Prepared, Woken, Looked, Left};
ghost use Rattle.server_rules.specs.declared.waker_slots.SlotState.TheVariants.{Deaf, Ready, Rung};

use std::alloc::{AllocError, Global};
use std::marker::Model;

/// What happens to the connection that has a slot.
#[derive(Clone, Copy, PartialEq, Eq, Debug)]
pub enum SlotHappening {
    /// Its socket is prepared: from now on it can be woken.
    Prepared { slot: usize },
    /// It was woken.
    Woken { slot: usize },
    /// It looks at what waits for its peer.
    Looked { slot: usize },
    /// It is gone.
    Left { slot: usize },
}

/// The state of the connection that has a slot.
#[derive(Clone, Copy, PartialEq, Eq, Debug)]
pub enum SlotState {
    /// It can't be woken.
    Deaf,
    /// It can be woken.
    Ready,
    /// It was woken, and hasn't looked since.
    Rung,
}

/// The state of each connection, by its slot. A contract sees the list of them.
#[derive(Drop)]
pub struct WakerSlots {
    slots: Vec<SlotState>,
}

impl Model for WakerSlots {
    ghost use Rattle.std.specs.Prelude.{List};
    ghost use Rattle.server_rules.specs.declared.waker_slots.SlotState.{SlotState};

    ghost Value = { List SlotState };

    ghost view = { λ s. s.slots.items };
}

impl WakerSlots {
    /// Makes this number of slots, which no connection has.
    pub fn new(alloc: Global, count: usize) -> Result<WakerSlots, AllocError>
        ensures { IfOk result (λ slots. slots ≡ slots_from count []) }
    {
        let mut slots = Vec::new(alloc);
        slots.resize(count, SlotState::Deaf)?;
        Ok(WakerSlots { slots })
    }

    fn set(&mut self, slot: usize, state: SlotState)
        ensures { self.new ≡ set self.old slot state }
    {
        if let Some(place) = self.slots.get_mut(slot) {
            *place = state;
        }
    }

    /// Notes that the socket of the connection that has this slot is prepared.
    pub fn prepare(&mut self, slot: usize)
        ensures { self.new ≡ after (Prepared slot) self.old }
    {
        self.set(slot, SlotState::Ready);
    }

    /// Wakes the connection that has this slot, if it can be woken and has looked since it last was. Returns whether it
    /// is woken now.
    pub fn wake(&mut self, slot: usize) -> bool
        ensures woken { self.new ≡ after (Woken slot) self.old }
        ensures rung { result ≡ is_rung slot self.old }
    {
        let is_ready = self.slots.get(slot).copied() == Some(SlotState::Ready);
        if is_ready {
            self.set(slot, SlotState::Rung);
        }
        is_ready
    }

    /// Notes that the connection that has this slot looks at what waits for its peer.
    pub fn look(&mut self, slot: usize)
        ensures { self.new ≡ after (Looked slot) self.old }
    {
        if self.slots.get(slot).copied() == Some(SlotState::Rung) {
            self.set(slot, SlotState::Ready);
        }
    }

    /// Notes that the connection that has this slot is gone.
    pub fn leave(&mut self, slot: usize)
        ensures { self.new ≡ after (Left slot) self.old }
    {
        self.set(slot, SlotState::Deaf);
    }
}
