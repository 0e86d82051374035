//! What an operator is shown of what was seen of the database: JSON for programs, columns for people. Nothing here takes
//! a handle. Each question of an operator (`asks::Ask`) is a module under the name of its line: what it sees of a database,
//! what a reader of JSON (RFC 8259) reads the answer as (`specs`, a file for each), and the rows of its table, of which
//! nothing is claimed. `question` has the trait.
//!
//! - `fields`, `closing`: objects from tables of their members, and the text of a whole value
//! - `words`: words for what is seen
//! - `heard`, `states`, `notes`: what routers said of LSPs beside what the state has, and what is shown by that (`specs/States.antt`)
//! - `unanswered`: for how long routers haven't answered (`specs/Unanswered.antt`)
//! - `moments`, `age`: how long ago a peer came up or went down, and how long ago a step was taken
//! - `left`: what a step left of links
//! - `origins`: by which kept steps the paths of an LSP came (`specs/Origins.antt`)
//! - `runs`: equal numbers in a row
//! - `columns`: cells of tables, in the texts of `table_text`
//! - `shown_states`: what metrics count of LSPs (`metrics_text`)
//!
//! ```text
//! fn status_of(alloc: Global, counts: Counts) -> Result<Vec<u8>, AllocError> {
//!     let info = ServerInfo { version: "1.0", logic: "", commit: "", uptime_ms: 0, peer_states: &[], marks: &[], residuals: &[] };
//!     answer_text(alloc, Form::Json, &info, &Heard::nothing(alloc), &Status, &counts)
//! }
//! ```
#![tactic(auto)]

mod age;
mod better;
mod closing;
mod columns;
mod fields;
mod grants;
mod heard;
mod history;
mod left;
mod link;
mod link_line;
mod links;
mod lsp;
mod lsps;
mod moments;
mod notes;
mod origins;
mod path;
mod peers;
mod question;
mod runs;
mod shown_states;
mod states;
mod status;
mod tickets;
mod tunnels;
mod unanswered;
mod why;
mod without;
mod words;

pub use better::Better;
pub use fields::name_at;
pub use grants::Grants;
pub use heard::{Heard, Said};
pub use history::{History, KnownStep, LastSteps};
pub use link::Link;
pub use link_line::LinkLine;
pub use links::Links;
pub use lsp::Lsp;
pub use lsps::Lsps;
pub use path::Path;
pub use peers::Peers;
pub use question::{Form, Question, ServerInfo, answer_text};
pub use shown_states::{ShownState, add_states};
pub use states::LspState;
pub use status::Status;
pub use tickets::Tickets;
pub use tunnels::{SeenTunnels, Tunnels};
pub use why::Why;
pub use without::Without;
pub use words::{event_word, state_word};
