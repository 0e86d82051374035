//! The connections of routers: each router that comes gets a thread, a seat and a session. `server_talk` proves what is
//! sent on a connection, and `server_rules` what is noted about it.
//!
//! - `reading`: when bytes of a connection came last, and until when its reading pauses
//! - `overheard`: a socket whose messages are counted, and whose reading may pause
//! - `sayings`: what a call says about a session, and about its router's paths and LSPs (`specs/Sayings`)
//! - `asked`: the LSP of a request that its router refuses (`specs/Asked`)
//! - `sent`: the requests that a router hasn't answered (`specs/Sent`)
//! - `notes`: what a connection's thread notes and logs about its session
//! - `observed_store`: a store that notes what happens to its peer's session
//! - `connection`: a connection's thread
//! - `acceptor`: the thread that accepts them
#![tactic(auto)]

mod acceptor;
mod asked;
mod connection;
mod notes;
mod observed_store;
mod overheard;
mod reading;
mod sayings;
mod sent;

pub use acceptor::accept_all;
