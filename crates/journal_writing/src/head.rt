//! The head of a file.
ghost use Rattle.std.specs.Prelude.{◌≡◌, ◌++◌, IfOk, OnOk, string_bytes};
ghost use Rattle.journal_writing.specs.Heads.{has_last_break, head_text, with_last_break};

use std::alloc::{AllocError, Global};
use std::fmt::Write;

/// Tests whether each line of a text ends with a line break.
fn has_last_break(text: &str) -> bool
    ensures { result ≡ has_last_break text.now }
{
    text.is_empty() || text.ends_with('\n')
}

/// Adds a text, with a line break at the end of its last line.
fn add_lines(head: &mut String, text: &str) -> Result<(), AllocError>
    ensures { OnOk result (string_bytes head.new ≡ string_bytes head.old ++ with_last_break text.now) }
{
    head.push_str(text)?;
    if has_last_break(text) {
        return Ok(());
    }
    head.push_str("\n")
}

/// Writes the head of a file whose first step has this number.
#[tactic(auto, unfolding(crate::specs::Heads::head_line, crate::specs::Heads::head_text))]
pub(crate) fn head_of(
    alloc: Global,
    run: &str,
    first: u64,
    text: &str,
) -> Result<String, AllocError>
    ensures { IfOk result (λ head. string_bytes head ≡ head_text run.now first text.now) }
{
    let mut head = String::new(alloc);
    write!(head, "journal 1 {run} {first}\n")?;
    add_lines(&mut head, text)?;
    head.push_str("---\n")?;
    Ok(head)
}
