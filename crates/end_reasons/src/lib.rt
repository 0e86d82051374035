//! Why a connection to a router ended: one enum for what is logged, counted and shown of it, with its words.
//!
//! ```
//! let said = LastWords { error: None, close: Some(2) };
//! assert_eq!(Reason::Session(said).word(), "DeadTimer");
//! ```
#![tactic(auto)]

mod reason;

pub use reason::{ErrorNumbers, LastWords, Reason};
