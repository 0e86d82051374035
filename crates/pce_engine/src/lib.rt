//! Scripts over the database and PCEP sessions: a link text, a line `---`, then lines that bring bytes of routers, take
//! state reports, or print the bandwidth book or the history. `run_script` takes a script from any reader, piece by
//! piece, and writes what it prints to any writer. What it writes is exactly `script` of what it read
//! (`specs/Script.antt`): each line by the database's and the sessions' own steps, and a fault only after the output of
//! all lines before it. The line `take` searches for a path. `script` takes what each search answers as an argument, so
//! what was written is `script` for answers that the searches may give (`Allowed`). If memory runs out or a read fails,
//! the output ends with a whole line (`specs/Ends.antt`). `script_lines` defines what a line asks for and what it does
//! to the database. `specs/SessionLines.antt`, `specs/Talks.antt` and `specs/Standing.antt` define what it does to
//! sessions.
//!
//! ```text
//! fn answers(alloc: Global, text: &[u8]) -> Result<Vec<u8>, ScriptFault>
//!     ensures { IfOk result (λ out. (answers : Searches) × Allowed answers (lines_of text.now) start
//!         × (script answers text.now ≡ record { text = out.items; fault = None })) }
//! {
//!     let mut reader = text;
//!     let mut out = Vec::new(alloc);
//!     run_script(alloc, &mut reader, &mut out)?;
//!     Ok(out)
//! }
//! ```
#![tactic(auto)]

mod fault;
mod script;
mod session_lines;
mod sessions;
mod stage;
mod standing;
mod talks;

pub use fault::ScriptFault;
pub use script::run_script;
pub use te_base::TeFault;
