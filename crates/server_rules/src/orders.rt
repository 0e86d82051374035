//! What a run is given.

/// The most connections that have a place.
pub const AT_ONCE: usize = 64;

/// How many connections a run accepts.
#[derive(Clone, Copy, PartialEq, Eq, Debug)]
pub enum Sessions {
    /// This number in all. The run ends when these and the operator's lines have ended.
    Count(u64),
    /// Any number, until the operator's lines end; with a control socket, until one of them asks for the end. Then each
    /// session that is open is closed.
    Endless,
}

/// What a run is given.
#[derive(Clone, Copy, Debug)]
pub struct Orders {
    /// The number of threads that search for paths.
    pub workers: u64,
    pub sessions: Sessions,
    /// The time for which a peer whose session ended is kept, in seconds (the State Timeout of RFC 8231 section 5.6).
    pub keep_seconds: u64,
    /// How long after the start no ticket is taken, in seconds, unless each router that was named is in sync.
    pub settle_seconds: u64,
    /// How long a router may leave a grant or a deletion unanswered, in seconds; 0: for ever.
    pub answer_seconds: u64,
    /// The time after which an LSP that is delegated and down is asked for again, in seconds; 0: never.
    pub retry_seconds: u64,
    /// The memory that the history of events may take, in megabytes of 1,000,000 bytes.
    pub history_megabytes: u64,
    /// The number of descriptors that the process may have, if it is known.
    pub descriptors: Option<u64>,
}
