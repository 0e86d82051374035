//! A link text in words: its first fault with the table, the key, what stands there and what is wanted; or what the
//! network has. The fault, its table and its key are those of te_base's reader: only the value is looked up here. And the
//! places of its nodes as JSON.
//!
//! ```text
//! fn places_in_file(alloc: Global, base: &TeBase) -> Result<Vec<u8>, AllocError> {
//!     places_text(alloc, base)
//! }
//! ```
#![tactic(auto)]

mod check;
mod fault;
mod places;
mod summary;

pub use check::check_text;
pub use places::places_text;
