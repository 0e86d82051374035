//! CSPF (constrained shortest path first): a path of least cost that keeps every constraint, found on a snapshot.
//!
//! `find` searches from both ends, and then tests what it found: the labels show that no path is cheaper, and the
//! path's links that it may be taken and costs that much. The search itself needs no proof and may be changed freely.
//! If the labels show nothing, which happens if the cheapest walk has too many links, a second search goes by numbers
//! of links. This one is proved in full.
//!
//! The layer above may rely on each answer being an admissible path of least cost, and on `None` coming only if no path
//! is admissible or a least path breaks another bound. What is admissible and least is defined in te_snapshot's
//! `specs/Admissible`. Here `specs/Answers` says what `find` answers, and `Walks` has walks with their costs and the
//! certificate.
//!
//! ```text
//! fn cost_between(alloc: Global, snapshot: &Snapshot, wanted: &Constraints) -> Result<Option<u64>, AllocError> {
//!     let own = OwnShares::from_vec(Vec::new(alloc));
//!     let found = find(alloc, snapshot, wanted, &own)?;
//!     Ok(found.map(|path| path.cost))
//! }
//! ```
#![tactic(auto)]

mod answer;
mod certificate;
mod filter;
mod found;
mod least;
mod query;
mod queue;
mod quick;
mod rounds;
mod walk;

pub use answer::find;
pub use found::Found;
