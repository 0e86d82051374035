//! What the RFCs call the errors of a PCErr and the reasons of a Close (`specs/Errors.antt`).
//!
//! ```text
//! fn add_error(text: &mut String, error_type: u8, value: u8) -> Result<(), AllocError> {
//!     let words = error_words(error_type, value);
//!     write!(text, "PCErr {error_type}/{value} {words}")
//! }
//! ```
#![tactic(auto)]

mod errors;

pub use errors::{close_words, error_words};
