//! Messages of one item, as bytes: a PCRpt of one report and a PCReq of one request. No session sends either; they are what
//! is kept of an event, in the words of the wire. `report_bytes` and `request_bytes` leave out each object that says no
//! more than its absence: an LSPA of defaults, a BANDWIDTH of 0, a METRIC that asks for the TE metric, and the empty ERO of
//! an LSP that was removed. So a report that came in a message fits into one.
//!
//! The layer above may rely on it that each report and each request that the wire can have is read again from its bytes,
//! as the only one of the message (`reports_are_read_again`, `requests_are_read_again`). The definitions stand in
//! `specs/Reports` and `specs/Requests`, the objects that both share in `specs/Objects`.
//!
//! ```text
//! let bytes = report_bytes(alloc, &report)?;
//! let same = read_message(alloc, &bytes)?; // Message::Report of this one report
//! ```
#![tactic(auto)]

mod framing;
mod laws;
mod reports;
mod requests;
mod wishes;

pub use laws::{reports_are_read_again, requests_are_read_again};
pub use reports::report_bytes;
pub use requests::request_bytes;
