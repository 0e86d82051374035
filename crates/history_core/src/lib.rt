//! The database: a state with the history of the steps that led to it. Every event that `apply` answers with `Ok`, even
//! a refused one, is kept as one `Step`, which has the event and the brief of its reply. The history of every
//! `Database` replays: from its base, on one thread, its events give these very briefs and lead to its state
//! (`specs/Histories.antt`). So what `unreserved` answers is what the reports leave of a link. At most 1,048,576 steps
//! are kept. A roll makes the state the base, and drops the steps before it, which stay counted. All steps ever taken,
//! those before the base too, are one legal and sound history (`one_history`). It starts from the network of the link
//! text, of which nothing was reported, or from what was read, to which earlier steps had led (`Database::over`).
//!
//! ```text
//! fn left_after(database: &mut Database, event: Event) -> Result<Option<i64>, Fault>
//!     ensures step { IfOk result (λ _. database.new.state ≡ (step database.old.state event).state) }
//!     ensures left { IfOk result (λ left. IfSome left (λ n. n ≡ unreserved database.new.state.te.links database.new.state.base.paths 0 7)) }
//!     ensures replays { Replays database.new }
//! {
//!     let _reply = database.apply(event)?;
//!     Ok(database.unreserved(0, Priority::capped(7)))
//! }
//! ```
#![tactic(auto)]

mod database;
mod fault;
mod laws;
mod start;
mod step;

pub use database::{Database, LAST_STEP, STEP_LIMIT};
pub use fault::Fault;
pub use laws::{network_stays, one_history, order_makes_no_difference};
pub use step::{Brief, Step};
pub use step_core::{Event, Job, LinkReload, LspName, Purpose, Reply, SharedEvent, Why};
