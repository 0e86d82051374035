//! A control socket: a file (a Unix-domain stream socket, unix(7)) by which operators on this machine send lines to a
//! running server, and by which `tell` asks it something.
//!
//! `open_path` makes the file. At each moment that it exists only its owner may connect to it. No file of another is
//! replaced or removed: the path is taken by link(2) under a lock, and `close_path` compares which file it is.
//! `listen_on` serves the clients that connect, four at once, each in a thread of its own and through any reader and
//! writer that an `Operator` takes; for a fifth, the one that has been idle longest makes room. A connection that fails
//! ends no other, and none delays the end of the run: a read gives up after a quarter of a second, and so does a write
//! when the run closes. It is proved what is sent, what an answer is, and which names files have (`specs/Answers`,
//! `specs/Waits`, `specs/Paths`), and who makes room (`server_rules`). Only tests show what files and sockets do.
//!
//! ```text
//! fn ends<R: Net + Clock>(rt: &R, alloc: Global, path: &str) -> io::Result<bool> {
//!     let answer = tell(rt, alloc, path, "end")?;
//!     Ok(outcome_of("end", &answer) == Outcome::Answered && await_end(rt, path))
//! }
//! ```
//!
//! The modules, lowest first: `waits` (what faults mean), `lock`, `named` and `path` (the file), `places` (who has a
//! place), `reader`, `writer`, `listen`, `ask`.
#![tactic(auto)]

mod ask;
mod listen;
mod lock;
mod named;
mod path;
mod places;
mod reader;
mod waits;
mod writer;

pub use ask::{Outcome, await_end, is_line, outcome_of, tell};
pub use listen::{Operator, Watch, listen_on};
pub use path::{ControlFile, close_path, open_path};
pub use places::AT_ONCE;
