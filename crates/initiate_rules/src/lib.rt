//! What the PCE asks a peer for: to update an LSP or to take it back (RFC 8231 section 6.2), to set one up or to remove
//! one (RFC 8281 sections 5.3 and 5.4). `next_srp` numbers the requests, `check_initiate` and `check_delete` say why
//! one may not be made, and the other functions make the messages. Nothing is changed here. The layer above may rely on
//! each answer being the definition's in `specs/`: `Numbers` has the numbers of requests, `Checks` the refusals in
//! their order, `Messages` the messages.
//!
//! ```text
//! check_delete(&base, peer, plsp)?;
//! let srp = next_srp(last_srp);
//! queue.push(delete_message(srp, plsp))?;
//! ```
#![tactic(auto)]

mod checks;
mod messages;
mod numbers;

pub use checks::{check_delete, check_initiate};
pub use lsp_base::is_same_name;
pub use messages::{
    answer_message, delete_message, initiate_message, no_path_message, return_message,
    update_message,
};
pub use numbers::{is_srp_used, next_srp};
