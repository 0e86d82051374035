//! What `pced tell` and `pced check` do, and the exit status and the text of each fault of theirs and of `pced serve`
//! (docs/FORMAT.md lists all of them).
//!
//! - `descriptors`, `stamped`: what `serve` needs from the system, and the time before a log line
//! - `fault`: why `serve` ends with a fault (`specs/Texts`)
//! - `tell`: lines for a running server (`specs/Tells`)
//! - `watch_word`, `watch`: what a running server says, again and again (`specs/Watches`, `watch_board`)
//! - `statuses`: exit statuses (`specs/Statuses`)
//! - `checked`: what is printed about a link text
//! - `version`: which program this is
#![tactic(auto)]

mod checked;
mod descriptors;
mod fault;
mod stamped;
mod statuses;
mod tell;
mod version;
mod watch;
mod watch_word;

pub use checked::{add_checked, check};
pub use descriptors::descriptor_limit;
pub use fault::ServeFault;
pub use stamped::Stamped;
pub use statuses::{lines_status, refused, serve_status, tell_status};
pub use tell::{LinesEnd, TellFault, tell_all};
pub use version::print_version;
pub use watch::watch_server;
pub use watch_word::{WatchWord, watch_in};
