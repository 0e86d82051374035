//! Tickets: paths that are asked for.
use crate::name::LspName;
use lsp_base::Constraints;
use lsp_words::Plsp;
use sequence::PlainData;
use std::alloc::AllocError;

/// How often a ticket is searched for at most.
pub const TRY_LIMIT: u32 = 4;

/// What a path is asked for.
#[derive(Debug, Drop)]
pub enum Purpose {
    /// To update an LSP of the peer that is delegated (RFC 8231 section 6.2).
    Update {
        plsp: Plsp,
    },
    /// To set an LSP of this name up (RFC 8281 section 5.3).
    Initiate {
        name: LspName,
        constraints: Constraints,
    },
    /// To answer a request of the peer (RFC 5440 section 6.4).
    Answer {
        /// The Request-ID.
        request: u32,
        /// The LSP that the path is for, if the request names one (RFC 8231 section 6.4).
        plsp: Option<Plsp>,
        constraints: Constraints,
    },
}

impl PlainData for Purpose {
    fn copy(&self) -> Result<Purpose, AllocError> {
        match self {
            Purpose::Update { plsp } => Ok(Purpose::Update { plsp: *plsp }),
            Purpose::Initiate { name, constraints } => Ok(Purpose::Initiate {
                name: name.copy()?,
                constraints: *constraints,
            }),
            Purpose::Answer {
                request,
                plsp,
                constraints,
            } => Ok(Purpose::Answer {
                request: *request,
                plsp: *plsp,
                constraints: *constraints,
            }),
        }
    }
}

/// A path that is asked for.
#[derive(Debug, Drop)]
pub struct Ticket {
    /// From 1, over all peers, in the order in which the tickets were asked for.
    pub id: u64,
    pub peer: u32,
    /// The peer's session in which it was asked for.
    pub session: u64,
    pub purpose: Purpose,
    /// What is asked of the path. For an update, this is what the LSP's record asked when the ticket was made.
    pub constraints: Constraints,
    /// How often it was taken to be searched for, at most `TRY_LIMIT` times.
    pub tries: u32,
    /// How often paths had come or gone or links been reloaded when it was last taken.
    pub seen: u64,
    /// A search for it is under way.
    pub taken: bool,
}

impl PlainData for Ticket {
    fn copy(&self) -> Result<Ticket, AllocError> {
        Ok(Ticket {
            id: self.id,
            peer: self.peer,
            session: self.session,
            purpose: self.purpose.copy()?,
            constraints: self.constraints,
            tries: self.tries,
            seen: self.seen,
            taken: self.taken,
        })
    }
}
