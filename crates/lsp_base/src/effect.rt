//! What an event does to paths and records.
ghost use Rattle.std.specs.Prelude.{◌≡◌, IfOk};
ghost use Rattle.lsp_base.specs.Lsps.{effect_of};

use crate::lsp::Lsp;
use crate::path::Path;
use lsp_words::Plsp;
use sequence::{PlainData, Sequence};
use std::alloc::AllocError;

/// What is known of one LSP, under its peer and PLSP-ID.
#[derive(Debug, Drop)]
pub struct Record {
    pub peer: u32,
    pub plsp: Plsp,
    pub lsp: Lsp,
}

impl PlainData for Record {
    fn copy(&self) -> Result<Record, AllocError> {
        Ok(Record {
            peer: self.peer,
            plsp: self.plsp,
            lsp: self.lsp.copy()?,
        })
    }
}

/// What becomes of one record of a peer: `None` removes it.
#[derive(Debug, Drop)]
pub struct RecordChange {
    pub plsp: Plsp,
    pub lsp: Option<Lsp>,
}

impl PlainData for RecordChange {
    fn copy(&self) -> Result<RecordChange, AllocError> {
        Ok(RecordChange {
            plsp: self.plsp,
            lsp: self.lsp.copy()?,
        })
    }
}

/// Paths that go and paths that come. The dropped ones go first.
#[derive(Debug, Drop)]
pub struct Change {
    pub dropped: Sequence<Path>,
    pub added: Sequence<Path>,
}

impl PlainData for Change {
    fn copy(&self) -> Result<Change, AllocError> {
        Ok(Change {
            dropped: self.dropped.copy()?,
            added: self.added.copy()?,
        })
    }
}

/// What an event does to paths, and to the records of one peer.
#[derive(Debug, Drop)]
pub struct Effect {
    pub change: Change,
    pub records: Sequence<RecordChange>,
    /// The LSP is delegated and down, and the peer gave it no route: it waits for a path
    /// (RFC 8231 section 5.7.1).
    pub wants_path: bool,
}

impl PlainData for Effect {
    fn copy(&self) -> Result<Effect, AllocError> {
        Ok(Effect {
            change: self.change.copy()?,
            records: self.records.copy()?,
            wants_path: self.wants_path,
        })
    }
}

impl Effect {
    /// Makes the effect of these parts. Allocates nothing.
    pub fn new(
        dropped: Vec<Path>,
        added: Vec<Path>,
        records: Vec<RecordChange>,
        wants_path: bool,
    ) -> Effect
        ensures { result ≡ effect_of dropped.items added.items records.items wants_path }
    {
        Effect {
            change: Change {
                dropped: Sequence::from_vec(dropped),
                added: Sequence::from_vec(added),
            },
            records: Sequence::from_vec(records),
            wants_path,
        }
    }
}
