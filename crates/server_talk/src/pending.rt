//! A line that hasn't ended.
ghost use Rattle.std.specs.Prelude.{◌≡◌, ◌+◌, ◌-◌, ◌^◌, min, ◌∷◌, ◌++◌, [], ℕ, List, option_map, IfOk};
ghost use Rattle.server_talk.specs.Listening.{AreKept, Asks, IsKept};
ghost use Rattle.server_talk.specs.Naming.{IsNamedText};
ghost use Rattle.server_talk.specs.Notes.{MayExplain};
ghost use Rattle.server_talk.specs.Requests.{explained_in, request_of};

use crate::requests::{LINE_LIMIT, Request, explained_in, named_in, request_of};
use std::alloc::{AllocError, Global};

/// A line that hasn't ended, and its number from 1.
#[derive(Drop)]
pub(crate) struct OpenLine {
    pub number: u64,
    pub bytes: Vec<u8>,
    pub is_long: bool,
}

impl OpenLine {
    /// Adds a byte, or notes that the line is too long. Takes no memory.
    pub fn add(&mut self, byte: u8)
        ensures number { self.new.number ≡ self.old.number }
        ensures kept { (line : List ℕ) → IsKept self.old line → IsKept self.new (line ++ byte ∷ []) }
    {
        if self.bytes.len() < LINE_LIMIT && self.bytes.push(byte).is_ok() {
            return;
        }
        self.is_long = true;
    }

    /// Begins the next line.
    pub fn end(&mut self)
        ensures number { self.new.number ≡ min (self.old.number + 1) (2 ^ 64 - 1) }
        ensures kept { (line : List ℕ) → IsKept self.old line → IsKept self.new [] }
    {
        self.bytes.clear();
        self.is_long = false;
        self.number = self.number.saturating_add(1);
    }

    /// Returns what the line asks for. A line that is too long is bad.
    pub fn request(&self, alloc: Global) -> Result<Option<Request>, AllocError>
        ensures { (line : List ℕ) → AreKept self.now.is_long self.now.bytes.items line → Asks result (request_of line) }
    {
        if self.is_long {
            return Ok(None);
        }
        request_of(alloc, &self.bytes)
    }

    /// Returns the text of a line that has names, without the word `words`.
    pub fn named(&self) -> Option<&str>
        ensures { (line : List ℕ) → IsKept self.now line → IsNamedText (option_map (λ text. text.now) result) line }
    {
        if self.is_long {
            return None;
        }
        named_in(&self.bytes)
    }

    /// Keeps a text as the line with this number.
    pub fn of_text(alloc: Global, number: u64, text: &str) -> Result<OpenLine, AllocError>
        ensures { IfOk result (λ line. AreKept line.is_long line.bytes.items text.now) }
    {
        let mut bytes = Vec::new(alloc);
        if text.len() > LINE_LIMIT {
            return Ok(OpenLine {
                number,
                bytes,
                is_long: true,
            });
        }
        bytes.extend_from_slice(text.as_bytes())?;
        Ok(OpenLine {
            number,
            bytes,
            is_long: false,
        })
    }

    /// Returns the text of a line that isn't too long.
    pub fn text(&self) -> Option<&str> {
        if self.is_long {
            return None;
        }
        str::from_utf8(&self.bytes).ok()
    }

    /// Returns the line whose answer is to be explained: what comes after the word `words`.
    pub fn explained(&self) -> Option<&str>
        ensures { (line : List ℕ) → IsKept self.now line → MayExplain (option_map (λ asked. asked.now) result) (explained_in line) }
    {
        if self.is_long {
            return None;
        }
        match str::from_utf8(&self.bytes) {
            Ok(text) => explained_in(text),
            Err(_) => None,
        }
    }
}
