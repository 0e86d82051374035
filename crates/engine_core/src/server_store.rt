//! A store that can also be queried.

use crate::store::Store;
use std::alloc::AllocError;

/// A store that also says whether messages wait for a peer, and what is left of each link, and whose history is rolled
/// when it is full.
pub trait ServerStore: Store {
    ghost use Rattle.std.specs.Prelude.{ℕ, ℤ, Bool, List, [], ⊤, IfOk, OnErr};
    ghost use Rattle.engine_core.specs.Stores.{MakesRoom};

    /// Messages may wait for a peer, as far as the store knows.
    ghost queues: { Self → ℕ → Bool → Type 0 } = { λ _ _ _. ⊤ };

    /// What is left of each link at each priority, in what the store stands for.
    ghost is_left: { Self → List (List ℤ) → Type 0 };

    /// Rolls the history if it is full, so that more steps can be kept, and returns how many were taken before its new
    /// base. Returns `None` if it isn't full, for instance because another thread has rolled it. No call is made. If
    /// memory runs out nothing has changed.
    fn roll_if_full(&mut self) -> Result<Option<u64>, AllocError>
        ensures rolled { IfOk result (MakesRoom Self.moves Self.is_full Self.rolls self.old self.new) }
        ensures unchanged { OnErr result (Self.moves self.old [] self.new) };

    /// Tests whether messages wait to be sent to the peer, in what the store has then seen. No call is made.
    fn queued(&mut self, peer: u32) -> bool
        ensures queued { queues self.new peer result }
        ensures same { Self.moves self.old [] self.new };

    /// Lists what is left of each link at each of the eight priorities, in bytes per second, by the number of the link,
    /// in what the store has then seen. No call is made.
    fn left(&mut self) -> Result<Vec<[i64; 8]>, AllocError>
        ensures left { IfOk result (λ table. is_left self.new table.items) }
        ensures same { Self.moves self.old [] self.new };
}
