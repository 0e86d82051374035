//! Tickets: the paths that are asked for, in the order in which they were asked for. A ticket waits, is taken to be
//! searched for, waits again or ends.
//!
//! The layer above may rely on a `TicketTable` being the list of `specs/Tickets.antt` with the last number that was
//! given or skipped. The numbers rise and none is above the last. The first waiting ticket has the least number of all
//! that wait. None was taken more than four times. Only `push` and `copies` allocate, and if memory runs out nothing has
//! changed.
//!
//! The map holds the tickets by number, in the order in which they were asked for. Each ticket is in memory of its own,
//! so an entry is a number, a peer and a pointer. A ticket that ends is removed by `shift_remove`: it is dropped at
//! once, and only the entries after it move.
//!
//! ```text
//! tickets.push(ticket)?;
//! if let Some(waiting) = tickets.first_waiting() {
//!     let id = waiting.id;
//!     tickets.take_first(changes);
//!     tickets.end(id);
//! }
//! ```
#![tactic(auto)]

mod standing;
mod table;

pub use table::{TICKET_LIMIT, TicketTable};
