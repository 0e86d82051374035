//! How far a base was read.
ghost use Rattle.std.specs.Prelude.{◌≡◌};
ghost use Rattle.base_lines.specs.Items.{rank, may_come};
ghost use Rattle.base_lines.specs.Lines.{said_at};

/// Which part of a base the last line was of.
#[derive(Clone, Copy, Debug, PartialEq, Eq)]
pub(crate) enum Stage {
    /// No line was read.
    Start,
    /// The counts or values.
    Values,
    Peers,
    Paths,
    Records,
    Names,
    Tickets,
    /// The end.
    Ended,
    /// It was a bad line, or none that may stand there. So is each further line.
    Failed,
}

/// What a line is to the reader of a base.
#[derive(Clone, Copy, Debug, PartialEq, Eq)]
pub enum BaseLine {
    /// A part of the base.
    Item,
    /// The end of the base.
    End,
    /// No line of a base, or none that may stand there.
    Bad,
}

impl Stage {
    /// Returns the place of the part in a base.
    pub(crate) fn rank(self) -> u8
        ensures { result ≡ rank self }
    {
        match self {
            Stage::Start => 0,
            Stage::Values => 1,
            Stage::Peers => 2,
            Stage::Paths => 3,
            Stage::Records => 4,
            Stage::Names => 5,
            Stage::Tickets => 6,
            Stage::Ended => 7,
            Stage::Failed => 8,
        }
    }

    /// Tests whether an item of the part may come next.
    pub(crate) fn may_come(self, part: Stage) -> bool
        ensures { result ≡ may_come self part }
    {
        1 <= self.rank() && self.rank() <= part.rank()
    }

    /// Returns what the last line was.
    pub(crate) fn said(self) -> BaseLine
        ensures { result ≡ said_at self }
    {
        match self {
            Stage::Ended => BaseLine::End,
            Stage::Failed => BaseLine::Bad,
            _ => BaseLine::Item,
        }
    }
}
