//! How a worker goes on after several faults in a row.
ghost use Rattle.std.specs.Prelude.{◌≡◌, ◌+◌, min, [], ◌∷◌, List};
ghost use Rattle.server_rules.specs.Faults.{Knows, after_fault, in_a_row};
ghost use Rattle.server_rules.specs.declared.faults.Turn.{Turn};
ghost use Rattle.server_rules.specs.declared.faults.Turn.TheVariants.{Went, Failed};

/// The number of faults in a row after which a worker gives up.
const MOST: u32 = 4;

/// The pause after a fault, for memory to come back, in milliseconds.
const PAUSE_MS: u64 = 50;

/// The result of a worker's turn.
#[derive(Clone, Copy, PartialEq, Eq, Debug)]
pub enum Turn {
    /// It went well.
    Went,
    /// A fault ended it.
    Failed,
}

/// What a worker does after a fault.
#[derive(Clone, Copy, PartialEq, Eq, Debug)]
pub enum AfterFault {
    /// It pauses for this time, in milliseconds, and tries again.
    Pause(u64),
    /// It gives up, and the run ends.
    GiveUp,
}

/// How many turns of a worker failed in a row.
#[derive(Clone, Copy, Debug)]
pub struct FaultsInARow {
    count: u32,
}

impl FaultsInARow {
    /// Makes the count of a worker that made no turn.
    pub fn none() -> FaultsInARow
        ensures { Knows result [] }
    {
        FaultsInARow { count: 0 }
    }

    /// Notes that a turn went well.
    pub fn went(&mut self)
        ensures { (past : List Turn) → Knows self.old past → Knows self.new (Went ∷ past) }
    {
        self.count = 0;
    }

    /// Notes that a fault ended a turn, and returns what the worker does now.
    pub fn failed(&mut self) -> AfterFault
        ensures adds { (past : List Turn) → Knows self.old past → Knows self.new (Failed ∷ past) }
        ensures answer { (past : List Turn) → Knows self.old past → result ≡ after_fault (in_a_row (Failed ∷ past)) }
    {
        self.count = self.count.saturating_add(1).min(MOST);
        if self.count >= MOST {
            AfterFault::GiveUp
        } else {
            AfterFault::Pause(PAUSE_MS)
        }
    }
}
