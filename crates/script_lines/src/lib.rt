//! The lines of a script and of an operator that concern only a database: what each asks for, what its events do, and
//! what it prints. Lines are cut from bytes in one way (`specs/Lines.antt`). `order_of` reads a script's lines
//! (`specs/Orders.antt`, `specs/Words.antt`). `event_line` and `report_line` submit events and return their replies
//! (`specs/Submits.antt`), `book_text` and `history_text` say what is unreserved and what was done (`specs/Book.antt`,
//! `specs/Texts.antt`), and `roll_line` rolls the history (`specs/Rolls.antt`). Lines that concern sessions are read
//! here and carried out in the crates above.
//!
//! `command` does what an operator's line asks for (`specs/Commands.antt`), over any store (`specs/Answered.antt`). A
//! server accepts fewer events from its operator, by `operator_event_in`, and submits them by the same `answer_event`.
//! It also has lines that ask to see something, by `view_line_in` (`specs/Views.antt`).
//!
//! ```text
//! fn obey(alloc: Global, database: &mut Database, line: &str) -> Result<String, CommandFault>
//! {
//!     command(alloc, line, &mut Lent::new(alloc, database))
//! }
//! ```
#![tactic(auto)]

mod book;
mod commands;
mod events;
mod fault;
mod orders;
mod rolls;
mod submits;
mod takes;
mod texts;
mod views;
mod words;

pub use book::{book_text, table_text};
pub use commands::{answer_event, command};
pub use events::operator_event_in;
pub use fault::CommandFault;
pub use orders::{Order, order_of};
pub use rolls::roll_line;
pub use submits::{event_line, report_line};
pub use takes::take_line;
pub use texts::history_text;
pub use views::{ViewLine, view_line_in};
