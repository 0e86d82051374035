//! What `pced tell PATH watch` shows: a board of what a server's answers in JSON say, for a screen of 80 by 24. Nothing here
//! takes a handle.
//!
//! - `members`: members of a document (`specs/Members.antt`)
//! - `shares`: links by how much of them is reserved, the fullest first (`specs/Shares.antt`)
//! - `states`: LSPs by state (`specs/States.antt`)
//! - `steps`: which steps are decisions (`specs/Steps.antt`)
//! - `rows`: the row of each table (`specs/Rows.antt`)
//! - `board`: the tables of all documents, and the text of a block (`specs/Boards.antt`)
//!
//! ```text
//! fn shown(alloc: Global, answer: &str) -> Result<String, Unread> {
//!     let mut board = Board::new(alloc);
//!     for document in answer.lines() {
//!         board.hear(alloc, document)?;
//!     }
//!     Ok(board.text(alloc)?)
//! }
//! ```
#![tactic(auto)]

mod board;
mod members;
mod rows;
mod shares;
mod states;
mod steps;

pub use board::{ASKED, Board, Unread, block};
