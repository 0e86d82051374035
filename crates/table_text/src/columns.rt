//! Rows in columns.

use std::alloc::{AllocError, Global};
use unicode_width::UnicodeWidthStr;

/// Makes each column as wide as its widest cell on this line, if it isn't yet.
fn widen(widths: &mut Vec<usize>, line: &str) -> Result<(), AllocError> {
    let mut column = 0usize;
    for cell in line.split('\t') {
        let width = cell.width();
        match widths.get_mut(column) {
            Some(known) => *known = (*known).max(width),
            None => widths.push(width)?,
        }
        column = column.saturating_add(1);
    }
    Ok(())
}

/// Adds `count` spaces.
fn add_spaces(text: &mut String, count: usize) -> Result<(), AllocError> {
    for _ in 0..count {
        text.push(' ')?;
    }
    Ok(())
}

/// Adds a line with its cells under one another's, two spaces apart.
fn add_line(text: &mut String, widths: &[usize], line: &str) -> Result<(), AllocError> {
    let mut column = 0usize;
    let mut owed = 0usize;
    for cell in line.split('\t') {
        add_spaces(text, owed)?;
        text.push_str(cell)?;
        let width = widths.get(column).copied().unwrap_or(0);
        owed = width.saturating_sub(cell.width()).saturating_add(2);
        column = column.saturating_add(1);
    }
    text.push('\n')
}

/// Adds each line of the rows.
fn add_lines(text: &mut String, widths: &[usize], rows: &str) -> Result<(), AllocError> {
    for line in rows.lines() {
        add_line(text, widths, line)?;
    }
    Ok(())
}

/// Measures the columns of the rows.
fn widths_of(widths: &mut Vec<usize>, rows: &str) -> Result<(), AllocError> {
    for line in rows.lines() {
        widen(widths, line)?;
    }
    Ok(())
}

/// Lays a block of rows out in columns.
fn add_block(alloc: Global, text: &mut String, rows: &str) -> Result<(), AllocError> {
    let mut widths = Vec::new(alloc);
    widths_of(&mut widths, rows)?;
    add_lines(text, &widths, rows)
}

/// Lays rows out in columns: a row is a line, with a tab between its cells. Blocks of rows, with a form feed between two,
/// have columns of their own.
pub fn add_aligned(alloc: Global, text: &mut String, rows: &str) -> Result<(), AllocError> {
    for block in rows.split('\x0c') {
        add_block(alloc, text, block)?;
    }
    Ok(())
}
