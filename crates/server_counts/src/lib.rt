//! What the server counts apart from its database: steps by their event and reply, refusals, connections, messages.
//! Nothing here waits or reads a clock: threads report what happened, and each number that is read is the number of
//! those calls.
//!
//! - `kinds`: what there is to count
//! - `counters`: the table
//! - `laws`: as many steps are counted as there were
//! - `histogram`: times, by how long they were
//! - `marks`: how many steps there were at which moments
//! - `residuals`: what steps left of links
//! - `stream`: messages counted in a stream of bytes
//! - `peer_states`: since when each peer is up or down, and how its last connection ended
//! - `waits`: when paths were asked for, and when their tickets were settled
//!
//! ```
//! let mut counters = Counters::new();
//! counters.add(Counted::Accepted);
//! assert_eq!(counters.count(Counted::Accepted), 1);
//! ```
#![tactic(auto)]

mod counters;
mod histogram;
mod kinds;
mod laws;
mod marks;
mod peer_states;
mod residuals;
mod stream;
mod waits;

pub use counters::{Counters, Timed};
pub use histogram::{BOUNDS_US, Histogram};
pub use kinds::{Counted, MessageKind};
pub use laws::steps_are_counted;
pub use marks::{Mark, Marks, mark_before, mark_behind};
pub use peer_states::{LastEnd, PeerState, PeerStates, peer_state_in};
pub use residuals::{ResidualRow, rows_of};
pub use stream::{MessageStream, Way};
pub use waits::{Moment, Waits};
