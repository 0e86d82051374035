//! One PCEP session as a machine over bytes and moments (RFC 5440 section 6, RFC 8231 section 5).
//!
//! Bytes of a peer and moments go in; inputs for the layer above and bytes for the peer come out. The crate touches no
//! clock and no socket. The layer above may rely on these facts. Each call is exactly one step of the definitions, so a
//! list of calls is a run of them. A refused call changes nothing. The same bytes at the same moments give the same
//! inputs and the same output however they are cut into pieces. After `most_turns` turns nothing is left to handle.
//!
//! The definitions are in `specs/`. `Table` has the reaction to what comes, state by state, and the timers. `Framing`
//! tells a whole message, a bad header and a part of a message apart. `Turns` is `next`, `Timers` says when a timer is
//! due, `Calls` are the other calls, `Runs` lists of calls, `Cuts` the law of pieces, `Ends` that the turns end.
//!
//! ```
//! // All inputs of a piece, and the bytes to be sent.
//! fn serve(session: &mut Session, piece: &[u8], now_ms: u64) -> Result<Vec<u8>, SessionFault> {
//!     session.feed(piece, now_ms)?;
//!     for _ in 0..session.most_turns() {
//!         match session.next()? {
//!             Some(Input::Message(message)) => handle(message),
//!             Some(_) => {}
//!             None => break,
//!         }
//!     }
//!     Ok(session.take_output())
//! }
//! ```
//!
//! The modules, lowest first: `bytes`, `fault`, `table`, `contents`, `framing`, `reactions`, `arrivals`,
//! `turns`, `timers`, `calls`, `session`, `laws`.
#![tactic(auto)]

mod arrivals;
mod bytes;
mod calls;
mod contents;
mod fault;
mod framing;
mod laws;
mod reactions;
mod session;
mod table;
mod timers;
mod turns;

pub use contents::Contents;
pub use fault::SessionFault;
pub use laws::{calls_are_a_run, cut_any_way, own_open_is_a_message, turns_end, turns_run_out};
pub use session::Session;
pub use table::{EndReason, Input, Notices, State};
