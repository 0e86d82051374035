//! Lists in plain data. Messages, events and paths hold a `Sequence` instead of a bare `Vec`. A contract sees a
//! `Sequence` as the list of its elements, so two of them are equal if their elements are, whatever their capacity or
//! pointer. `PlainData` is data that can be copied if there is memory, and the copy equals the original: `u8`, `u32`,
//! `usize`, options and lists of plain data, and each type above that has an impl. `specs/Memory.antt` says what a call
//! returns if memory may run out: what is due, or an error that memory ran out.
//!
//! ```
//! let mut labels = Vec::new(alloc);
//! labels.push(16)?;
//! let labels: Sequence<u32> = Sequence::from_vec(labels);
//! let copy = labels.copy()?;
//! assert_eq!(copy.as_slice(), labels.as_slice());
//! ```
#![tactic(auto)]

mod list;
mod plain;

pub use list::Sequence;
pub use plain::PlainData;
