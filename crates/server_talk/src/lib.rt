//! PCEP over one connection, and an operator's lines. All of it runs over any reader, writer, watch and store, on one
//! thread.
//!
//! `connection` is one connection. However it ends, the peer's Down is submitted before it returns, or a fault of the
//! store says that it wasn't. Every other call, and all that the store is shown, is named by the engine's table for
//! this peer and the bytes that came (`specs/Connections`). Its result says why the session ended. `operate` is an
//! operator: each line asks for at most one thing (`specs/Requests`), which is done once and answered
//! (`specs/Operators`). The layers below prove what a session makes of bytes and what a step does. `PolledSocket` is a
//! peer's socket as a reader whose wait another thread may end; `PolledInput` and `PolledOutput` are standard input and
//! output. Only tests show that they deliver.
//!
//! ```text
//! fn ends_by_line<R: Wait, D: Show, I: TimedRead, O: Write, W: Watch, P: Plan>(rt: &R, alloc: Global, reader: &mut I, writer: &mut O, watch: &W, plan: &P, store: &mut D) -> bool
//! {
//!     operate(rt, alloc, reader, writer, watch, plan, store) == Ok(OperatorEnd::EndAsked)
//! }
//! ```
//!
//! The modules, lowest first: `traits` (what a connection needs from its surroundings), `talk` (a connection),
//! `socket`, `terminal`, `input`, `requests` (what a line asks for), `pending` (a line that hasn't ended),
//! `reload_check` (what a reload would change), `commands` (what a line does), `operator`.
#![tactic(auto)]

mod commands;
mod input;
mod operator;
mod output;
mod pending;
mod plan;
mod reload_check;
mod requests;
mod show;
mod socket;
mod talk;
mod terminal;
mod traits;

pub use input::PolledInput;
pub use operator::{OperatorEnd, operate};
pub use output::PolledOutput;
pub use plan::{Plan, PlanFault};
pub use requests::LINE_LIMIT;
pub use show::Show;
pub use socket::{ACCEPT_WAIT_MS, PolledSocket, bound_accepts, linger_close, peer_of, prepare};
pub use talk::{ConnectionEnd, Ended, TAKEN_WITHIN_MS, connection};
pub use traits::{TimedRead, Watch};
