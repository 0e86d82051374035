//! Messages of PCEP in words: a line for the kind, and one for each object that counts, with its fields by the names of
//! the RFCs.
//!
//! The definitions say what is added to a text: `words_of` of a message (`specs/Messages.antt`), `object_words` of an
//! object (`specs/Objects.antt`), `fault_words` of a fault (`specs/Faults.antt`). `add_decoded` says which of them the
//! bytes of one message have: what they read as, or their first fault, with the byte at which an object has it.
//! `specs/Streams.antt` says how bytes are cut into messages. No clause says how a line is read (`streams`).
#![tactic(auto)]

mod asking;
mod codes;
mod decoding;
mod faults;
mod fields;
mod laws;
mod lines;
mod messages;
mod objects;
mod places;
mod reports;
mod requests;
mod streams;

pub use decoding::add_decoded;
pub use faults::{add_fault, add_object_fault};
pub use fields::add_hex;
pub use laws::{what_is_said_is_answered, what_is_written_is_said};
pub use messages::add_message;
pub use objects::add_object;
pub use streams::{add_explained, add_line};
