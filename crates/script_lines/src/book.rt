//! The book: what is unreserved on each link, in bytes per second.

ghost use Rattle.std.specs.Prelude.{◌≡◌, ◌++◌, IfOk, OnOk, string_bytes};
ghost use Rattle.script_lines.specs.Book.{amounts_text, link_line, table_text, book_text};

use database_looks::{LeftLook, Look};
use history_core::Database;
use std::alloc::{AllocError, Global};
use std::fmt::Write;
use te_base::LinkNumber;

fn add_amounts(text: &mut String, amounts: &[i64; 8]) -> Result<(), AllocError>
    ensures { OnOk result (string_bytes text.new ≡ string_bytes text.old ++ amounts_text amounts.now) }
{
    for amount in amounts {
        write!(text, " {amount}")?;
    }
    Ok(())
}

fn add_link(text: &mut String, link: LinkNumber, amounts: &[i64; 8]) -> Result<(), AllocError>
    ensures { OnOk result (string_bytes text.new ≡ string_bytes text.old ++ link_line link amounts.now) }
{
    write!(text, "link {link}")?;
    add_amounts(text, amounts)?;
    text.push_str("\n")
}

/// Writes a line for each link, with what is left of it at each priority.
pub fn table_text(alloc: Global, table: &[[i64; 8]]) -> Result<String, AllocError>
    ensures { IfOk result (λ text. string_bytes text ≡ table_text 0 table.now) }
{
    let mut text = String::new(alloc);
    for (link, amounts) in table.iter().enumerate() {
        add_link(&mut text, link, amounts)?;
    }
    Ok(text)
}

/// Writes a line for each link of a database, with what is unreserved at each priority.
pub fn book_text(alloc: Global, database: &Database) -> Result<String, AllocError>
    ensures { IfOk result (λ text. string_bytes text ≡ book_text database.now.state) }
{
    let table = LeftLook.see(alloc, database)?;
    table_text(alloc, &table)
}
