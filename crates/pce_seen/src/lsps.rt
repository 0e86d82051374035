//! LSPs with their paths.
use lsp_base::{Part, Path, Record, Tunnel};
use lsp_words::Plsp;
use pcep_word::{Bandwidth, Priority};
use sequence::Sequence;
use te_base::{Link, Node};

/// The most LSPs of a page.
pub const PAGE_LIMIT: usize = 256;

/// An LSP with its paths: those that its peer reported, and grants that are bound to it.
#[derive(Drop)]
pub struct KnownLsp {
    pub known: Record,
    pub paths: Sequence<Path>,
}

/// LSPs of one moment, in the order of their records.
#[derive(Drop)]
pub struct LspPage {
    /// How many steps were ever taken. If two pages have the same count, nothing has happened between them.
    pub steps: u64,
    pub lsps: Vec<KnownLsp>,
    /// The place of the next page; `None` if no record follows.
    pub next: Option<u64>,
}

/// A path over a link, with what it holds there.
#[derive(Clone, Copy)]
pub struct HeldPath {
    pub peer: u32,
    /// 0 for a grant that is not bound to an LSP.
    pub plsp: Plsp,
    pub part: Part,
    pub tunnel: Tunnel,
    pub hold: Priority,
    pub bandwidth: Bandwidth,
}

/// A link, its ends, what is left of it at the eight priorities in bytes per second, and the paths over it.
#[derive(Drop)]
pub struct LinkUse {
    pub link: Link,
    pub from: Node,
    pub to: Node,
    pub left: [i64; 8],
    pub paths: Vec<HeldPath>,
}
