//! What `pced script` and `pced decode` do, and how they end (docs/FORMAT.md lists the statuses and the texts of faults).
//!
//! - `scripts`: a script from standard input, plain or explained
//! - `decoded`: lines of digits in words
//! - `ends`: the exit status and the text of each end (`specs/Statuses`)
//! - `standard`: the first three descriptors of the process
#![tactic(auto)]

mod decoded;
mod ends;
mod scripts;
mod standard;

pub use decoded::decode;
pub use ends::{DEVICE, INPUT, MEMORY, end, fail, status};
pub use scripts::{explain_script, print_script};
pub use standard::open_standard;
