//! The line `roll`: the history is rolled.

ghost use Rattle.std.specs.Prelude.{◌≡◌, ◌++◌, IfOk, codes, string_bytes};
ghost use Rattle.script_lines.specs.Rolls.{roll_line, rolled_text};
ghost use Rattle.script_lines.specs.LineAnswer.{AnswersLine};

use crate::fault::CommandFault;
use history_core::Database;
use std::alloc::{AllocError, Global};
use std::fmt::Write;

fn rolled_line(alloc: Global, steps: u64) -> Result<String, AllocError>
    ensures { IfOk result (λ text. string_bytes text ≡ rolled_text steps ++ codes "\n") }
{
    let mut text = String::new(alloc);
    write!(text, "rolled {steps}\n")?;
    Ok(text)
}

/// Rolls the history, and says how many steps were taken before its base. If memory runs out, nothing has changed.
#[tactic(auto, unfolding(crate::specs::Rolls::roll_line))]
pub fn roll_line(alloc: Global, database: &mut Database) -> Result<String, CommandFault>
    ensures { AnswersLine string_bytes result (roll_line database.old) database.new }
{
    let text = rolled_line(alloc, database.steps())?;
    database.roll()?;
    Ok(text)
}
