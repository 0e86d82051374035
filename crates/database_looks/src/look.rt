//! A look.
use history_core::Database;
use std::alloc::{AllocError, Global};

/// What is seen of a database in one look. The database is locked as long as the look takes, so a look reads a bounded
/// part.
pub trait Look {
    ghost use Rattle.std.specs.Prelude.{IfOk};
    ghost use Rattle.history_core.specs.Histories.{Content};

    type Seen;

    /// In this content, this is seen.
    ghost sees: { Self → Content → Self.Seen → Type 0 };

    /// Copies out what is seen.
    fn see(&self, alloc: Global, database: &Database) -> Result<Self::Seen, AllocError>
        ensures { IfOk result (λ seen. sees self.now database.now seen) };
}
