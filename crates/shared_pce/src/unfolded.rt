//! What the receipts of rolled steps take in memory.
ghost use Rattle.std.specs.Prelude.{◌≡◌, ◌+◌, ◌-◌, ◌^◌, min};

/// How many bytes rolled steps take whose receipts their seats haven't folded yet.
#[derive(Drop)]
pub(crate) struct Unfolded {
    bytes: u64,
}

impl Unfolded {
    pub fn new() -> Unfolded
        ensures { result.bytes ≡ 0 }
    {
        Unfolded { bytes: 0 }
    }

    /// Adds the bytes of steps that are rolled.
    pub fn roll(&mut self, kept: u64)
        ensures { self.new.bytes ≡ min (self.old.bytes + kept) (2 ^ 64 - 1) }
    {
        self.bytes = self.bytes.saturating_add(kept);
    }

    /// Subtracts the bytes of steps whose receipts a seat has folded.
    pub fn fold(&mut self, folded: u64)
        ensures { self.new.bytes ≡ self.old.bytes - folded }
    {
        self.bytes = self.bytes.saturating_sub(folded);
    }

    /// Returns the bytes.
    pub fn bytes(&self) -> u64
        ensures { result ≡ self.now.bytes }
    {
        self.bytes
    }
}
