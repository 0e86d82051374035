//! What a session consists of.

use crate::bytes::{Output, ReceivedBytes};
use crate::table::{EndReason, State};
use pcep_objects::Open;
use sequence::Sequence;

/// What a session consists of. All moments are in milliseconds, of one clock of the caller's.
#[derive(Debug, Drop)]
pub struct Contents {
    pub state: State,
    /// Received bytes that were not handled yet.
    pub bytes: ReceivedBytes,
    /// The greatest moment so far.
    pub moment_ms: u64,
    /// When the last message was handled, and at first when the session began.
    pub received_ms: u64,
    /// When something was last put into the output.
    pub sent_ms: u64,
    /// When unrecognized messages came, in the minute before the last of them.
    pub unrecognized: Sequence<u64>,
    /// The peer's Open, once it came.
    pub peer: Option<Open>,
    /// Why the session has ended; `None` while it goes on.
    pub end: Option<EndReason>,
    /// The caller ended the session, and has not been given its Down yet.
    pub down_pending: bool,
    /// Bytes to be sent that were not taken yet.
    pub output: Output,
}
