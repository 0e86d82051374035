//! The engine: what a router's PCEP session does to a database (RFC 8231 sections 5 and 6).
//!
//! A `Client` is a session with a peer. `serve` hands it bytes at a moment, submits what the session makes of them to a
//! `Store` as events of the peer, puts the answers to the replies into the session's output, and sends what waits for
//! the peer. `hang_up` is the end of the transport. The store is shown the peer's Open as the session comes up, and
//! each message that the session delivers before its events. This crate touches no clock, socket or lock: `Lent` is a
//! database on one thread, and another store may be one that threads share. `serve_database` and `hang_up_database` do
//! the same over a database whose calls nobody reads.
//!
//! What `serve` does is a plan (`specs/Plans`): events that are submitted one after the other, each chosen by the
//! replies to those before it, what is shown between them, and the states of the client on the way. `specs/Engine` has
//! the plan of each call as a table: what is shown and submitted for each input of the session, and what the replies
//! mean for it. The contracts say that what was done with the store (`specs/Deeds`: the calls that were added to its
//! list, and what it was shown) carries that plan out, and that the session is the one in which it ends. After a fault
//! only the beginning of the plan was carried out, and the session is ended as it was where the plan broke off, with
//! all output up to there (`specs/Stores`). A session is served until it gives nothing more (`specs/Laws`).
//! `specs/Performed` carries a plan out against one database.
//!
//! ```text
//! fn answered(alloc: Global, database: &mut Database, client: &mut Client, piece: &[u8]) -> Result<Vec<u8>, Fault>
//! {
//!     let mut store = Lent::new(alloc, database);
//!     serve(client, 1, piece, 0, &mut store)?;
//!     Ok(client.session.take_output())
//! }
//! ```
//!
//! The modules, lowest first: `store`, `server_store`, `client`, `requests`, `inputs`, `serving`, `lent`.
#![tactic(auto)]

mod client;
mod inputs;
mod laws;
mod lent;
mod requests;
mod server_store;
mod serving;
mod store;

pub use client::Client;
pub use history_core::{Event, Fault, Reply};
pub use laws::all_handled;
pub use lent::{Lent, hang_up_database, serve_database};
pub use server_store::ServerStore;
pub use serving::{hang_up, serve};
pub use store::{Call, Store, last_reply};
