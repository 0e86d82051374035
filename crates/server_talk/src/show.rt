//! What a server shows an operator about itself.
use engine_core::ServerStore;
use line_names::Named;
use script_lines::ViewLine;
use std::alloc::{AllocError, Global};
use te_base::LinkValues;

/// A store that shows what it stands for. Showing something makes no call, but the store has then seen more. So what is
/// shown later is of a store that has seen all that was shown before.
pub trait Show: ServerStore {
    ghost use Rattle.std.specs.Prelude.{ℕ, ℤ, List, [], IfOk, ⊤};
    ghost use Rattle.te_base.specs.Values.{Values};
    ghost use Rattle.line_names.specs.declared.plain.Named.{Named};
    ghost use Rattle.script_lines.specs.declared.views.ViewLine.{ViewLine};

    /// In what the store stands for, these may be the values of the links, and this may be left of each at each
    /// priority.
    ghost has_links: { Self → List Values → List (List ℤ) → Type 0 } = { λ _ _ _. ⊤ };

    /// In what the store stands for, the names in this line may stand for these addresses.
    ghost names: { Self → List ℕ → Named → Type 0 } = { λ _ _ _. ⊤ };

    /// From the first state on, this may be shown to a line that asks to see something, and it leaves the second state.
    ghost shows: { Self → ViewLine → List ℕ → Self → Type 0 } = { λ _ _ _ _. ⊤ };

    /// Returns the values of each link, and what is left of it at each of the eight priorities in bytes per second, by
    /// the number of the link. All of it is of one moment, in what the store has seen by then. Makes no call.
    fn links(&mut self) -> Result<(Vec<LinkValues>, Vec<[i64; 8]>), AllocError>
        ensures links { IfOk result (λ table. has_links self.new table.0.items table.1.items) }
        ensures same { Self.moves self.old [] self.new };

    /// Finds what the names in a line stand for, in what the store has seen by then. Makes no call.
    fn named(&mut self, alloc: Global, line: &str) -> Result<Named, AllocError>
        ensures named { IfOk result (λ named. names self.new line.now named) }
        ensures same { Self.moves self.old [] self.new };

    /// Returns what the line is shown. Makes no call.
    fn show(&mut self, alloc: Global, line: &ViewLine) -> Result<Vec<u8>, AllocError>
        ensures shown { IfOk result (λ text. shows self.old line.now text.items self.new) }
        ensures same { Self.moves self.old [] self.new };
}
