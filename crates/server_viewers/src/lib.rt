//! The viewers of a run, which see documents and metrics over HTTP (`specs/Views`). They change nothing.
//!
//! - `process`: what the system says about the process
//! - `states`: the states in which LSPs are shown, of all of them
//! - `viewers`: what viewers see, and the thread that serves them
#![tactic(auto)]

mod process;
mod states;
mod viewers;

pub use viewers::{ViewerListener, show_views};
