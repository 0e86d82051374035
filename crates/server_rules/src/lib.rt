//! The rules by which the server stays up: when a router is forgotten, who has a place, which lines are logged, when
//! paths may be granted after a start, and which failures of an accept end a run. Nothing here waits, reads a clock or
//! opens a socket: the server's threads report what happens, and when, and act on the answer.
//!
//! `Expiry` says which routers should be forgotten (the State Timeout of RFC 8231 section 5.6), and which Down is still
//! to be submitted, given all that happened before (`specs/Peers`). `admit` says what happens to a new connection
//! (`specs/Places`), `PlaceTable` keeps who has a place (`specs/Placings`), and `who_goes` says which idle client makes
//! room for another (`specs/Idles`). `LineRate` limits the lines of one kind (`specs/Lines`). `Settling` says whether a
//! server that has just started may grant paths (`specs/Settled`). `failed_accept` is a table (`specs/Failures`).
//! `PendingTable` says which grants and awaited deletions should end although their routers don't settle them, and
//! since when each is unanswered (`specs/Pendings`). `RetryTable` says which LSPs without a path should be asked for
//! again (`specs/Retries`), and `ReadPause` how long reading pauses for a router that reports LSPs as DOWN again and
//! again (`specs/Pauses`). `PathWords` keeps what routers say about paths that the state doesn't keep
//! (`specs/PathWords`), and `PeerErrors` the last error that a router sent for each LSP (`specs/PcErrs`). `PendingWakes`
//! keeps whose connections a worker has yet to wake, and `SeatStates` which seats are free (`specs/Seats`).
//! `WakerSlots` says which connections can be woken and which were (`specs/Wakings`), `ConnectionNotes` is what a
//! connection notes about its session (`specs/Notes`), `FaultsInARow` says when a worker gives up (`specs/Faults`), and
//! `RunState` whether and why a run should end (`specs/Runs`). `Orders` is what a run is given (`specs/Ranges`).
//!
//! ```
//! let mut expiry = Expiry::new(alloc);
//! expiry.connected(peer)?;
//! expiry.up(peer);
//! expiry.down(peer, 1_000);
//! expiry.gone(peer);
//! assert_eq!(expiry.due(60_000, 60_000), None);
//! assert_eq!(expiry.due(61_000, 60_000), Some(Due { peer, what: Owing::Expire }));
//! ```
#![tactic(auto)]

mod connection_notes;
mod entrance;
mod expiry;
mod failures;
mod faults;
mod idle;
mod known;
mod log_rate;
mod orders;
mod path_word;
mod path_words;
mod pausing;
mod peer_errors;
mod pending;
mod pending_table;
mod pending_wakes;
mod places;
mod read_pause;
mod retry;
mod retry_table;
mod run_state;
mod seats;
mod settling;
mod waker_slots;

pub use connection_notes::{ConnectionNotes, SessionHappening};
pub use entrance::{Entrance, Taken, admit};
pub use expiry::{Due, Expiry};
pub use failures::{FailedAccept, failed_accept};
pub use faults::{AfterFault, FaultsInARow, Turn};
pub use idle::{PATIENCE_MS, who_goes};
pub use known::{Happening, Known, Owing};
pub use log_rate::{LINES, LineRate, WITHIN_MS};
pub use orders::{AT_ONCE, Orders, Sessions};
pub use path_word::{Operational, PathHappening, PathKey, PathWord, RsvpError, better_of};
pub use path_words::PathWords;
pub use pausing::PauseHappening;
pub use peer_errors::{PcErr, PcErrHappening, PeerErrors};
pub use pending::{Pending, PendingEnd, PendingHappening};
pub use pending_table::{PendingDue, PendingTable};
pub use pending_wakes::PendingWakes;
pub use places::{Admission, PlaceTable};
pub use read_pause::ReadPause;
pub use retry::{LspSight, RetryHappening, RouterLsp};
pub use retry_table::{RETRIES_AT_ONCE, RetryTable};
pub use run_state::{RunHappening, RunState};
pub use seats::{SeatState, SeatStates};
pub use settling::Settling;
pub use waker_slots::{SlotHappening, SlotState, WakerSlots};
