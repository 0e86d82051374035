//! Messages that wait.
ghost use Rattle.std.specs.Prelude.{◌≡◌, ◌++◌, ◌∷◌, [], length, OnOk, OnErr};
ghost use Rattle.step_core.specs.States.{is_nothing};

use crate::base::copies;
use pcep_messages::Message;
use sequence::{PlainData, Sequence};
use std::alloc::{AllocError, Global};
use std::marker::Model;
use std::mem;

/// Messages that wait to be sent, oldest first.
#[derive(Debug, Drop)]
pub struct Queue {
    messages: Vec<Message>,
}

impl Model for Queue {
    ghost use Rattle.std.specs.Prelude.{List};
    ghost use Rattle.pcep_messages.specs.declared.message.Message.{Message};

    ghost Value = { List Message };

    ghost view = { λ q. q.messages.items };
}

impl Queue {
    /// Makes an empty queue. Allocates nothing.
    pub fn new(alloc: Global) -> Queue
        ensures { result ≡ [] }
    {
        Queue {
            messages: Vec::new(alloc),
        }
    }

    /// Tests whether nothing waits.
    pub fn is_empty(&self) -> bool
        ensures { result ≡ is_nothing self.now }
    {
        self.messages.is_empty()
    }

    /// Counts the waiting messages.
    pub fn len(&self) -> usize
        ensures { result ≡ length self.now }
    {
        self.messages.len()
    }

    /// Lends the waiting messages, oldest first.
    pub fn as_slice(&self) -> &[Message]
        ensures { result.now ≡ self.now }
    {
        self.messages.as_slice()
    }

    /// Appends a message.
    pub fn push(&mut self, message: Message) -> Result<(), AllocError>
        ensures added { OnOk result (self.new ≡ self.old ++ message ∷ []) }
        ensures unchanged { OnErr result (self.new ≡ self.old) }
    {
        self.messages.reserve(1)?;
        self.messages.push_reserved(message);
        Ok(())
    }

    /// Hands out all that waits, in order. Allocates nothing.
    pub fn take(&mut self) -> Sequence<Message>
        ensures taken { result ≡ self.old }
        ensures empty { self.new ≡ [] }
    {
        let alloc = *self.messages.allocator();
        Sequence::from_vec(mem::replace(&mut self.messages, Vec::new(alloc)))
    }
}

impl PlainData for Queue {
    fn copy(&self) -> Result<Queue, AllocError> {
        let copies = copies(*self.messages.allocator(), self.messages.as_slice())?;
        Ok(Queue {
            messages: copies.into_vec(),
        })
    }
}
