//! A list that finds its items by a key's bucket: the table of the LSP-DB's paths. Items are kept in order, and equal
//! items as often as they were added. If an item is removed, the last one takes its place. The whole list is lent as a
//! slice. A layer above may rely on two things: each call gives what the same call of a plain list gives (`position`,
//! `any`, `filter`, `swap_remove`, `map`), and only `reserve` and `filter_in` allocate.
//!
//! A bucket is a number below 65,536 that `Keyed` gives an item. Equal keys have equal buckets, and other keys may
//! share one. A look-up names the bucket that all items it wants are in, and reads only the places of that bucket.
//! `specs/List.antt` defines what a contract sees, `specs/Index.antt` the index by bucket.
//!
//! - `index`: the bucket of each place, and a way from a bucket's last place to its first
//! - `keyed`: what a list asks of items, tests and edits
//! - `list`: the list
//!
//! ```
//! let mut list = KeyedList::new(alloc);
//! list.reserve(1)?;
//! list.push(item);
//! let place = list.position(bucket, &test);
//! ```
#![tactic(auto)]

mod index;
mod keyed;
mod list;

pub use index::BucketIndex;
pub use keyed::{Edit, Keyed, Test};
pub use list::{KeyedList, any, edit_all};
