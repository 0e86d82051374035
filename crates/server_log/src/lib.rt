//! The log of a run: what is said, and its way to standard error. Nobody waits to say something, for a thread of its own
//! writes the lines, and none waits for whoever reads them.
//!
//! - `log_lines`: the lines of the log
//! - `texts`: what they say (`specs/Texts.antt`)
//! - `kinds`: what lines are about (`specs/LogLines.antt`)
//! - `reason`: why connections end (`specs/Reasons.antt`)
//! - `shown_name`: names of LSPs in lines (`specs/Names.antt`)
//! - `shown_links`: links of paths in lines (`specs/Paths.antt`)
//! - `decisions`, `decided`: what was asked for and decided, and its texts (`specs/Decisions.antt`)
//! - `held`: which lines are held back
//! - `log_queue`: the lines that wait to be written
//! - `log_writer`: the thread that writes them
#![tactic(auto)]

mod decided;
mod decisions;
mod held;
mod kinds;
mod limits;
mod log_lines;
mod log_queue;
mod log_writer;
mod reason;
mod shown_links;
mod shown_name;
mod texts;

pub use decisions::{
    AskedPath, Asker, Decision, Initiation, Order, OrderReply, Wanted, asked, offered, ordered,
    reloaded, verdict,
};
pub use kinds::Kind;
pub use log_lines::{LogLine, PeerTimers, is_debug_wanted, refusal_line};
pub use log_queue::LogQueue;
pub use log_writer::{ErrorOutput, write_last, write_log};
pub use reason::EndFacts;
pub use shown_links::ShownLinks;
pub use shown_name::ShownName;
