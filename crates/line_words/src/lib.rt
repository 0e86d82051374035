//! The words of a line of a journal. `first_number` and the other functions of `first` read the first word of a text and
//! give the text after it; those of `written` add a word to a text. Questions (`asks`) don't have bytes in hexadecimal,
//! nor what stands before a `=`. A word has no space in it, and no `=`. The layer above may rely on it that each number below its bound, each
//! address and each list of bytes is written as a word, that a word ends at the space after it, and that numbers and bytes
//! are read again from what they are written as (`words_are_read_again`). Other texts may read as the same: whoever wants
//! one text for each value compares what was read with what it is written as.
//!
//! ```text
//! // `7 0a2f` as a number and bytes.
//! fn pair(alloc: Global, line: &str) -> Result<Option<(u32, Vec<u8>)>, AllocError> {
//!     let Some((number, digits)) = first_number(line) else { return Ok(None) };
//!     Ok(bytes_in(alloc, digits)?.map(|bytes| (number, bytes)))
//! }
//! ```
#![tactic(auto)]

mod first;
mod laws;
mod words;
mod written;

pub use first::{
    first_address, first_address_or_missing, first_bytes, first_long_number, first_long_or_missing,
    first_number, first_number_or_missing, first_plsp, first_plsp_or_missing, is_nothing,
};
pub use laws::words_are_read_again;
pub use words::{bytes_in, cut_at_equals};
pub use written::{add_hex, add_number, add_number_or_dash};
