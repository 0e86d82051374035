//! What the words of `pced`'s command line ask for.
#![tactic(auto)]

mod arguments;

pub use arguments::{ReplayWords, ServeWords, Task, TellWords, parse};
