//! What an event says about paths of routers beside what the state keeps: the operational states and errors in reports. The
//! layer above may rely on it that a report says this about the path that it names, that a removal without identifiers is
//! one of the whole LSP, and that a report of an unsignalled LSP leaves no other reported path of it (`specs/Sayings`).
//!
//! - `sayings`: what reports say
//!
//! ```text
//! // The step of this event wasn't refused.
//! if let Some(of) = replaced_in(event) {
//!     words.note(PathHappening::LspRemoved { of })?;
//! }
//! if let Some(what) = path_event(event) {
//!     words.note(what)?;
//! }
//! ```
#![tactic(auto)]

mod sayings;

pub use sayings::{lsp_of, operational_of, path_event, replaced_in};
