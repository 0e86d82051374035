//! The objects of PCEP as values, read from bytes and written as bytes.
//!
//! An object is a header of four bytes and a body by its class and type (RFC 5440 section 7, RFC 8231 section 7).
//! `read_object` returns the object at the front of some bytes with its length, or the first fault. `write_object`
//! appends an object's one spelling. The layer above may rely on these facts. The answer is exactly the one of the
//! definitions, for every list of bytes. Bytes never both read and have a fault. Each object that was read, with P as
//! it is written, is spelled as bytes that read as it. After a refusal to write, the vector is as before. `front_of`
//! reads only the header, and `read_body` or the `read_` function of a class the body, for a caller that knows the
//! class.
//!
//! The definitions are in `specs/`. `Kinds` has the classes and types. `Tlvs` and `Routes` cut an object's lists into
//! pieces. `Bodies`, `SessionObjects`, `RequestObjects` and `Metrics` have the layout of each class. `Objects` has the
//! header, `Reads` and `IsFaulty`. `Spelling` has the spelling of each object, the lengths that fit and the objects
//! that are normal.
//!
//! ```
//! // The first object of a message's body, and the bytes after it.
//! fn first_object(alloc: Global, body: &[u8]) -> Result<(Object, &[u8]), ObjectFault> {
//!     let (object, size) = read_object(alloc, body)?;
//!     Ok((object, &body[size..]))
//! }
//! ```
//!
//! The modules, lowest first: `object` with `session_objects`, `request_objects` and `metric`, `kind`, `copies`,
//! `fault`, `tlvs`, `lsp_errors`, `routes`, `bodies`, `header`, `reading`, `sizes`, `spelled`, `putting`,
//! `paths`, `writing`, `borrowed`. A `put_` function appends one object in place.
#![tactic(auto)]

mod bodies;
mod borrowed;
mod copies;
mod fault;
mod header;
mod kind;
mod lsp_errors;
mod metric;
mod object;
mod paths;
mod putting;
mod reading;
mod request_objects;
mod routes;
mod session_objects;
mod sizes;
mod spelled;
mod tlvs;
mod writing;

pub use bodies::{read_bandwidth, read_ero, read_lsp, read_lspa, read_srp};
pub use borrowed::{put_ero, put_named_lsp};
pub use fault::{BodyFault, ObjectFault, WriteFault};
pub use kind::Kind;
pub use lsp_words::{Capabilities, Colours, Hop, MetricType, Plsp};
pub use metric::{put_metric, read_metric};
pub use object::{
    BandwidthType, Identifiers, Kept, KeptClass, LspObject, Lspa, Metric, MetricValue, Object,
    Operational, RsvpError, Srp,
};
pub use paths::put_lsp;
pub use putting::{put_bandwidth, put_lspa, put_srp};
pub use reading::{RawObject, front_of, objects_are_read_or_faulty, read_body, read_object};
pub use request_objects::{
    EndPoints, NoPath, NoPathVector, Rp, put_end_points, put_no_path, put_rp, read_end_points,
    read_rp,
};
pub use session_objects::{Close, Notification, Open, PcepError, put_close, put_error, put_open};
pub use writing::{objects_are_read_again, what_is_read_is_normal, write_object};
