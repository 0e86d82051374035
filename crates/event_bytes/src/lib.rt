//! How many bytes a step takes in memory, by its event: the event itself, the block that its owners share, the step of
//! the history and the receipt of its seat, and all that the event holds on the heap (routes, names, links and values).
//! The sizes are those of 64-bit machines and of the GNU C library's allocator. At most 2^40 bytes are counted for one
//! event, so that no sum overflows.
//!
//! The layer above may rely on `bytes_of`, which is the definition `bytes_of` of `specs/Bytes.antt`. It takes a few
//! nanoseconds for each hop of a route, and allocates nothing.
//!
//! ```text
//! let bytes = bytes_of(&event);
//! self.kept_bytes = self.kept_bytes.saturating_add(bytes);
//! ```
#![tactic(auto)]

mod blocks;
mod event;
mod routes;

pub use event::bytes_of;
