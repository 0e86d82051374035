//! Seats: who received which steps, and the audit that compares what they received with the history. `Held` is a
//! database that takes every step for a seat. A step is `Database::apply` with one receipt to that seat: the place of
//! the step among all, its event, and the brief of its reply. Nothing else gives a seat a receipt, and a fault leaves
//! both as they were. Each seat has a share of all steps and one of all grants (`std::sync::ledger`). One type
//! parameter, `Brands`, names these ledgers, the source of places and the history. So the type of a seat says which
//! `Held` it belongs to, and an audit of all its seats never finds that the sums differ.
//!
//! Each step's place is drawn for its seat from a source under the same lock (`place_tokens`). So every step that ever
//! was, rolled or kept, was received by exactly one seat, once (`received_once`), and no audit finds a place twice, or
//! places that fall. After `Held::audit` each kept step has exactly one receipt, with its event and brief
//! (`one_receipt_each`). Receipts of rolled places are folded into numbers when their seat steps next, or by
//! `Held::fold`, and stay counted (`fold_counts`): their places stay known in the proofs, but their events and briefs
//! are no longer compared. `specs/Receipts.antt` has what a seat receives, `specs/Audits.antt` what an audit compares,
//! and when each fault comes.
//!
//! ```text
//! fn closed<B: Brands>(held: Held<B>, seats: &mut Vec<Seat<B>>) -> Result<Database, AuditFault>
//!     ensures audited { IfOk result (λ database. IsAudited B.seats database seats.old.items) }
//!     ensures same_seats { seats.new.items ≡ seats.old.items }
//! {
//!     let mut held = held;
//!     held.audit(seats)?;
//!     Ok(held.into_database())
//! }
//! ```
#![tactic(auto)]

mod audit;
mod brands;
mod bytes;
mod fault;
mod held;
mod laws;
mod receipt;
mod sameness;
mod seat;
mod shares;
#[cfg(test)]
mod tests;

pub use brands::Brands;
pub use bytes::receipt_bytes;
pub use fault::AuditFault;
pub use held::Held;
pub use history_tokens::{Front, Unnamed};
pub use laws::{all_steps, each_replays, fold_counts, one_receipt_each, received_once};
pub use receipt::Receipt;
pub use seat::Seat;
