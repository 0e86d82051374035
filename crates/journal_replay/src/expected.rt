//! The base that a file has to have that others come before.
ghost use Rattle.std.specs.Prelude.{◌≡◌, ◌≢◌, ◌↔◌, ℕ, List, [], ◌∷◌, ◌++◌, true, false, IfOk, IfErr};
ghost use Rattle.base_lines.specs.Lines.{base_lines, has_lines};
ghost use Rattle.journal_replay.specs.Bases.{base_at};
ghost use Rattle.line_words.specs.Written.{text_of};
ghost use Rattle.step_lines.specs.declared.fault.LineFault.TheVariants.{NoLine};

use base_lines::{PlacedBase, base_text};
use history_core::Database;
use std::alloc::{AllocError, Global};
use std::marker::Model;
use step_lines::LineFault;

/// The text of the base that a file has to have, as far as no line of it was taken.
#[derive(Drop)]
pub struct ExpectedBase {
    text: Vec<u8>,
    /// How many bytes of it were taken.
    taken: usize,
}

impl Model for ExpectedBase {
    ghost use Rattle.std.specs.Prelude.{ℕ, ◌≤◌, List, length, drop};

    ghost Value = { List ℕ };

    ghost view = { λ b. drop b.taken b.text.items };

    ghost invariant = { λ b. b.taken ≤ length b.text.items };
}

/// Copies what is known, with its place.
fn base_at(database: &Database) -> Result<PlacedBase, AllocError>
    ensures { IfOk result (λ base. base ≡ base_at database.now) }
{
    Ok(PlacedBase {
        base: database.state().copy()?,
        steps: database.steps(),
        grants: database.grants(),
    })
}

impl ExpectedBase {
    /// Writes the base of what is known. Fails with `NoLine` exactly if a message that waits has no line.
    pub fn of(alloc: Global, database: &Database) -> Result<ExpectedBase, LineFault>
        ensures text { IfOk result (λ expected. expected ≡ text_of (base_lines (base_at database.now))) }
        ensures has { IfOk result (λ _. has_lines (base_at database.now) ≡ true) }
        ensures no_line { IfErr result (λ e. e ≡ NoLine → has_lines (base_at database.now) ≡ false) }
    {
        let base = base_at(database)?;
        let text = base_text(alloc, &base)?;
        Ok(ExpectedBase {
            text: text.into_bytes(),
            taken: 0,
        })
    }

    /// Takes a line, if it comes next. Returns whether it does; else nothing has changed.
    pub fn take(&mut self, line: &str) -> bool
        ensures next { result ≡ true → self.old ≡ line.now ++ 10 ∷ self.new }
        ensures other { result ≡ false → (left : List ℕ) → self.old ≢ line.now ++ 10 ∷ left }
        ensures unchanged { result ≡ false → self.new ≡ self.old }
    {
        let Some(rest) = self.text[self.taken..].strip_prefix(line.as_bytes()) else {
            return false;
        };
        if rest.first() != Some(&b'\n') {
            return false;
        }
        self.taken += line.len() + 1;
        true
    }

    /// Tests whether all lines were taken.
    pub fn is_done(&self) -> bool
        ensures { result ≡ true ↔ self.now ≡ [] }
    {
        self.taken == self.text.len()
    }
}
