//! A seat of a shared database as the store of a session. Each event that is submitted is one step under the lock, of
//! which the seat gets the receipt. The list of calls shares the event with the history and the receipt. Each call of
//! the list is that of its receipt (`specs/Seating.antt`).
//!
//! ```text
//! fn answered<R: Wait, B: Brands>(rt: &R, alloc: Global, shared: &Shared<B>, seat: &mut Seat<B>, client: &mut Client, piece: &[u8]) -> Result<Vec<u8>, Fault>
//! {
//!     let mut store = Seated::new(rt, alloc, shared, seat);
//!     serve(client, 1, piece, 0, &mut store)?;
//!     Ok(client.session.take_output())
//! }
//! ```
#![tactic(auto)]

mod seated;

pub use seated::Seated;
