//! What an answer to an operator's line means: a sentence for those answers that are a word and a number
//! (`specs/Refusals.antt`, `specs/Wanted.antt`, `specs/Sentences.antt`).
//!
//! ```text
//! fn meaning(alloc: Global) -> Result<Option<String>, AllocError> {
//!     // "refused 4: 127.0.1.1 has no LSP 9"
//!     sentence(alloc, "delete 127.0.1.1 9", "refused 4\n")
//! }
//! ```
#![tactic(auto)]

mod refusals;
mod sentences;
mod wanted;

pub use sentences::sentence;
