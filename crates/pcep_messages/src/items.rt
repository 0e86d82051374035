//! What has been read of an item of a state report.

ghost use Rattle.std.specs.Prelude.{◌≡◌};
ghost use Rattle.pcep_messages.specs.ReportSteps.{no_objects};

use pcep_objects::{Hop, LspObject, Lspa, Srp};
use pcep_word::Bandwidth;
use sequence::Sequence;

/// What counts of the objects of an item that were read.
#[derive(Debug, Drop)]
pub struct Item {
    pub srp: Option<Srp>,
    pub lsp: Option<LspObject>,
    pub ero: Option<Sequence<Hop>>,
    pub rro: Option<Sequence<Hop>>,
    pub lspa: Option<Lspa>,
    /// The greatest bandwidth, or 0 if there is none.
    pub bandwidth: Bandwidth,
}

/// Where a reader of items is.
#[derive(Clone, Copy, Debug, PartialEq, Eq)]
pub enum ItemPosition {
    /// Before the first item.
    InFront,
    /// Right after the SRP that started an item.
    BehindSrp,
    /// Further on in an item.
    Within,
}

pub fn no_objects() -> Item
    ensures { result ≡ no_objects }
{
    Item {
        srp: None,
        lsp: None,
        ero: None,
        rro: None,
        lspa: None,
        bandwidth: Bandwidth::zero(),
    }
}
