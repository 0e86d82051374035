//! Events, and the database's replies to them.
use crate::job::Job;
use commit_core::Purpose;
use link_reload::LinkReload;
use lsp_base::Why;
use pcep_messages::{Message, StateReport};
use pcep_objects::{Capabilities, Plsp};
use sequence::{PlainData, Sequence};
use std::alloc::AllocError;
use te_base::LinkNumber;

/// What happens to the database.
#[derive(Debug, Drop)]
pub enum Event {
    /// A session came up. The capabilities are those of the peer's STATEFUL-PCE-CAPABILITY, if it sent
    /// one (RFC 8231 section 7.1.1): it then synchronizes.
    Up {
        peer: u32,
        capabilities: Option<Capabilities>,
    },
    /// An LSP was reported (RFC 8231 section 6.1).
    Report {
        peer: u32,
        report: StateReport,
    },
    /// The end of synchronization (RFC 8231 section 5.6).
    Marker {
        peer: u32,
    },
    /// The peer's session ended.
    Down {
        peer: u32,
    },
    /// A peer that stays down is to be forgotten.
    Expire {
        peer: u32,
    },
    /// A path is asked for.
    Ask {
        peer: u32,
        purpose: Purpose,
    },
    /// The waiting ticket with the least number is to be searched for.
    Take,
    /// The search for a ticket has answered: with the links of a path, or with none.
    Commit {
        ticket: u64,
        offer: Option<Sequence<LinkNumber>>,
    },
    /// What waits for the peer is to be sent.
    Drain {
        peer: u32,
    },
    /// The peer refused the request of this SRP-ID (a PCErr, RFC 8231 section 6.3).
    Refused {
        peer: u32,
        srp: u32,
    },
    /// The LSP is to be given back to the peer (RFC 8231 section 5.7.3).
    Return {
        peer: u32,
        plsp: Plsp,
    },
    /// The LSP, which the PCE initiated, is to be removed (RFC 8281 section 5.4).
    Delete {
        peer: u32,
        plsp: Plsp,
    },
    /// Links get other values. If there are several entries for one link, the last counts.
    Reload {
        links: Sequence<LinkReload>,
    },
}

impl PlainData for Event {
    fn copy(&self) -> Result<Event, AllocError> {
        Ok(match self {
            Event::Up { peer, capabilities } => Event::Up {
                peer: *peer,
                capabilities: *capabilities,
            },
            Event::Report { peer, report } => Event::Report {
                peer: *peer,
                report: report.copy()?,
            },
            Event::Marker { peer } => Event::Marker { peer: *peer },
            Event::Down { peer } => Event::Down { peer: *peer },
            Event::Expire { peer } => Event::Expire { peer: *peer },
            Event::Ask { peer, purpose } => Event::Ask {
                peer: *peer,
                purpose: purpose.copy()?,
            },
            Event::Take => Event::Take,
            Event::Commit { ticket, offer } => Event::Commit {
                ticket: *ticket,
                offer: offer.copy()?,
            },
            Event::Drain { peer } => Event::Drain { peer: *peer },
            Event::Refused { peer, srp } => Event::Refused {
                peer: *peer,
                srp: *srp,
            },
            Event::Return { peer, plsp } => Event::Return {
                peer: *peer,
                plsp: *plsp,
            },
            Event::Delete { peer, plsp } => Event::Delete {
                peer: *peer,
                plsp: *plsp,
            },
            Event::Reload { links } => Event::Reload {
                links: links.copy()?,
            },
        })
    }
}

/// The database's reply to an event.
#[derive(Debug, Drop)]
pub enum Reply {
    Done,
    /// A report was booked. `wants_path` says that the LSP waits for a path that the PCE may give it: it is delegated
    /// and down, has no route, and its peer takes updates and isn't synchronizing.
    Booked { wants_path: bool },
    /// A path is asked for. The ticket has this number.
    Asked(u64),
    /// A ticket was taken, with what its search needs.
    Job(Job),
    /// No ticket waits.
    Idle,
    /// The offer was granted. The peer is asked for it under this SRP-ID.
    Granted(u32),
    /// The offer answers the peer's request.
    Answered,
    /// The offer isn't good any more. Its ticket waits to be searched for again.
    Again,
    /// There is no path. The ticket has ended.
    NoPath,
    /// Four searches were in vain, or the grant can't be kept. The ticket has ended.
    GivenUp,
    /// Nobody waits for the path any more. The ticket has ended.
    Gone,
    /// The peer is asked to remove the LSP, under this SRP-ID.
    Removing(u32),
    /// The messages that waited for the peer, to be sent in this order.
    Out(Sequence<Message>),
    /// The event changed nothing.
    Refused(Why),
}

impl PlainData for Reply {
    fn copy(&self) -> Result<Reply, AllocError> {
        Ok(match self {
            Reply::Done => Reply::Done,
            Reply::Booked { wants_path } => Reply::Booked {
                wants_path: *wants_path,
            },
            Reply::Asked(ticket) => Reply::Asked(*ticket),
            Reply::Job(job) => Reply::Job(job.copy()?),
            Reply::Idle => Reply::Idle,
            Reply::Granted(srp) => Reply::Granted(*srp),
            Reply::Answered => Reply::Answered,
            Reply::Again => Reply::Again,
            Reply::NoPath => Reply::NoPath,
            Reply::GivenUp => Reply::GivenUp,
            Reply::Gone => Reply::Gone,
            Reply::Removing(srp) => Reply::Removing(*srp),
            Reply::Out(messages) => Reply::Out(messages.copy()?),
            Reply::Refused(why) => Reply::Refused(*why),
        })
    }
}
