//! The threads of a run that serve no connection: the workers, which search for paths, and the timer, which forgets
//! peers that stay down and rolls the history.
//!
//! - `decided`: what the log says about a worker's turn (`specs/Decided`)
//! - `workers`: the threads (`specs/Faults`, `specs/Rings`, `specs/Turns`)
#![tactic(auto)]

mod decided;
mod workers;

pub use workers::{keep_time, work};
