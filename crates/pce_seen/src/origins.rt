//! The steps by which the paths of an LSP came.
use lsp_base::Path;
use lsp_words::Plsp;

/// How a path came.
#[derive(Clone, Copy, Debug, PartialEq, Eq)]
pub enum Origin {
    /// Its router reported it, in the kept step at this place among all steps that were ever taken.
    Report { step: u64 },
    /// It was granted to a ticket, in the kept step at this place.
    Grant { step: u64, ticket: u64 },
    /// None of the kept steps that were read says so.
    Unknown,
}

/// A path, and how it came.
#[derive(Drop)]
pub struct TracedPath {
    pub path: Path,
    pub origin: Origin,
}

/// The paths of an LSP, and the kept step by which each came.
#[derive(Drop)]
pub struct LspOrigins {
    pub peer: u32,
    pub plsp: Plsp,
    pub paths: Vec<TracedPath>,
    /// The place of the first step that was read.
    pub first: u64,
    /// The place of the first step that is kept.
    pub rolled: u64,
}
