//! What the threads of a run tell each other.
//!
//! - `run`: tells whether and why the run should end (`specs/Texts` has its texts)
//! - `wakers`: what wakes a connection, and how many an address has
//! - `grant_gate`: tells whether paths may be granted yet
#![tactic(auto)]

mod grant_gate;
mod run;
mod wakers;

pub use grant_gate::{GrantGate, GrantGateLook};
pub use run::{Run, RunFault};
pub use wakers::Wakers;
