//! What operators and viewers are shown to a question: what one look saw of the database, with what routers said of it, as a
//! table or as JSON. `page` is the one place that knows all questions (`specs/Pages.antt` says what each is shown), and
//! `observer` has those who are shown it: a front, or an operator's seat.
//!
//! ```text
//! fn status_text(run_view: &RunView<'_, R, B>, front: &mut Front<Event, B>, info: &ServerInfo<'_>) -> Result<Vec<u8>, AllocError> {
//!     Ok(page_of(run_view, front, Form::Json, info, &Ask::Status)?.text)
//! }
//! ```
#![tactic(auto)]

mod observer;
mod page;

pub use observer::Observer;
pub use page::{Page, hear, page_of};
