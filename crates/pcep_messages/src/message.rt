//! What messages say.

use pcep_objects::{
    Colours, Hop, Identifiers, MetricType, MetricValue, NoPathVector, Open, Operational, PcepError,
    Plsp, RsvpError,
};
use pcep_word::{Bandwidth, Ipv4, Priorities};
use sequence::{PlainData, Sequence};
use std::alloc::AllocError;

/// What a peer reports of one LSP (RFC 8231 section 6.1).
#[derive(Debug, Drop)]
pub struct StateReport {
    /// The SRP-ID of the request that the report answers. A report that was read has no `Some(0)`.
    pub srp: Option<u32>,
    pub plsp: Plsp,
    /// The LSP was removed (flag R).
    pub remove: bool,
    /// The report belongs to state synchronization (flag S).
    pub sync: bool,
    /// The LSP is delegated to the PCE (flag D).
    pub delegate: bool,
    /// The LSP is to be active (flag A).
    pub admin: bool,
    pub operational: Operational,
    /// The LSP was created by a PCE (flag C of RFC 8281 section 5.3.1).
    pub created: bool,
    /// The symbolic path name, if the report has one.
    pub name: Option<Sequence<u8>>,
    /// The identifiers of the LSP. A report that was read lacks them only at PLSP-ID 0.
    pub identifiers: Option<Identifiers>,
    /// The intended route; empty if the report has none.
    pub ero: Sequence<Hop>,
    /// The route that the LSP takes, if the report has one.
    pub rro: Option<Sequence<Hop>>,
    /// The greatest of the report's bandwidths, in bytes per second, or 0 if it has none.
    pub bandwidth: Bandwidth,
    /// The setup priority and the holding priority in force. Both are 7 if the report has no LSPA.
    pub priorities: Priorities,
    /// The link colours that the path must and must not have; none if the report has no LSPA.
    pub colours: Colours,
    /// Local protection is wanted (flag L of LSPA, RFC 5440 section 7.11); not if the report has no LSPA.
    pub local_protection: bool,
    /// Why the LSP isn't up, if the report says it (LSP-ERROR-CODE, RFC 8231 section 7.3.3).
    pub error_code: Option<u32>,
    /// What RSVP found, if the report says it (RSVP-ERROR-SPEC, RFC 8231 section 7.3.4).
    pub rsvp_error: Option<RsvpError>,
}

/// The least bound that a request sets on each metric. None: it sets none.
#[derive(Clone, Copy, Debug, PartialEq, Eq)]
pub struct Bounds {
    /// On the IGP metric.
    pub igp: Option<u64>,
    /// On the TE metric.
    pub te: Option<u64>,
    /// On the number of hops.
    pub hops: Option<u64>,
}

/// A request for a path (RFC 5440 section 6.4).
#[derive(Clone, Copy, Debug, PartialEq, Eq)]
pub struct PathRequest {
    /// The Request-ID.
    pub request: u32,
    /// The LSP that the path is for, if the request has an LSP (RFC 8231 section 6.4).
    pub plsp: Option<Plsp>,
    pub source: Ipv4,
    pub destination: Ipv4,
    /// The bandwidth that is asked for, in bytes per second, or 0 if the request has none.
    pub bandwidth: Bandwidth,
    /// The setup priority and the holding priority in force. Both are 7 if the request has no LSPA.
    pub priorities: Priorities,
    /// The link colours that the path must and must not have; none if the request has no LSPA.
    pub colours: Colours,
    /// What the path is to minimise: the TE metric if the request names none.
    pub minimise: MetricType,
    /// The bounds that the METRICs with flag B set on the path.
    pub bounds: Bounds,
}

/// The cost of a path.
#[derive(Clone, Copy, Debug, PartialEq, Eq)]
pub struct Cost {
    /// The metric's type T (RFC 5440 section 7.8): 1 IGP, 2 TE, 3 hops.
    pub metric_type: u8,
    pub value: MetricValue,
}

/// What a reply says of the path that was asked for.
#[derive(Debug, Drop)]
pub enum Answer {
    /// A path, and its cost if the reply has it.
    Found(Sequence<Hop>, Option<Cost>),
    /// There is none, and why, if the reply says it.
    NoPath(Option<NoPathVector>),
}

/// The answer to a request (RFC 5440 section 6.5).
#[derive(Debug, Drop)]
pub struct PathReply {
    /// The Request-ID.
    pub request: u32,
    pub answer: Answer,
}

/// Errors, and the requests that they are about (RFC 5440 section 6.7, RFC 8231 section 6.3).
#[derive(Debug, Drop)]
pub struct Errors {
    /// Request-IDs.
    pub requests: Sequence<u32>,
    /// SRP-IDs.
    pub srps: Sequence<u32>,
    pub errors: Sequence<PcepError>,
}

/// What an LSPA asks of a path.
#[derive(Clone, Copy, Debug, PartialEq, Eq)]
pub struct Attributes {
    pub colours: Colours,
    /// The setup priority and the holding priority in force.
    pub priorities: Priorities,
    /// Local protection is wanted (flag L, RFC 5440 section 7.11).
    pub local_protection: bool,
}

/// A change of an LSP that the PCE asks for (RFC 8231 section 6.2).
#[derive(Debug, Drop)]
pub struct Update {
    /// The SRP-ID.
    pub srp: u32,
    pub plsp: Plsp,
    /// The LSP stays delegated (flag D).
    pub delegate: bool,
    /// The LSP is to be active (flag A).
    pub admin: bool,
    pub ero: Sequence<Hop>,
    pub attributes: Option<Attributes>,
    /// In bytes per second.
    pub bandwidth: Option<Bandwidth>,
}

/// A new LSP that the PCE asks for (RFC 8281 section 5.3).
#[derive(Debug, Drop)]
pub struct Create {
    /// The SRP-ID.
    pub srp: u32,
    /// The symbolic path name; empty if the message has none.
    pub name: Sequence<u8>,
    pub source: Ipv4,
    pub destination: Ipv4,
    pub ero: Sequence<Hop>,
    pub attributes: Option<Attributes>,
    /// In bytes per second.
    pub bandwidth: Option<Bandwidth>,
}

/// What the PCE asks of a peer about LSPs of its own making (RFC 8281 sections 5.3 and 5.4).
#[derive(Debug, Drop)]
pub enum Initiate {
    /// To set an LSP up.
    Create(Create),
    /// To remove this LSP.
    Remove {
        /// The SRP-ID.
        srp: u32,
        plsp: Plsp,
    },
}

/// A message of PCEP.
#[derive(Debug, Drop)]
pub enum Message {
    /// Open (RFC 5440 section 6.2).
    Opening(Open),
    /// Keepalive (RFC 5440 section 6.3).
    Keepalive,
    /// PCReq: the requests in the order of the message (RFC 5440 section 6.4).
    Request(Sequence<PathRequest>),
    /// PCRep (RFC 5440 section 6.5).
    Reply(PathReply),
    /// PCNtf, which is ignored (RFC 5440 section 6.6).
    Notify,
    /// PCErr (RFC 5440 section 6.7).
    Error(Errors),
    /// Close, with its reason (RFC 5440 section 6.8). It is 1, no explanation, if the message has none.
    Close(u8),
    /// PCRpt: the reports in the order of the message (RFC 8231 section 6.1).
    Report(Sequence<StateReport>),
    /// PCUpd (RFC 8231 section 6.2).
    Update(Update),
    /// PCInitiate (RFC 8281 section 5.1).
    Initiate(Initiate),
    /// A message of a type that is not read, with its type. Its body was not looked at.
    Unknown(u8),
}

impl PlainData for StateReport {
    fn copy(&self) -> Result<StateReport, AllocError> {
        Ok(StateReport {
            srp: self.srp,
            plsp: self.plsp,
            remove: self.remove,
            sync: self.sync,
            delegate: self.delegate,
            admin: self.admin,
            operational: self.operational,
            created: self.created,
            name: self.name.copy()?,
            identifiers: self.identifiers,
            ero: self.ero.copy()?,
            rro: self.rro.copy()?,
            bandwidth: self.bandwidth,
            priorities: self.priorities,
            colours: self.colours,
            local_protection: self.local_protection,
            error_code: self.error_code,
            rsvp_error: self.rsvp_error,
        })
    }
}

impl PlainData for Message {
    fn copy(&self) -> Result<Message, AllocError> {
        match self {
            Message::Opening(opening) => Ok(Message::Opening(*opening)),
            Message::Keepalive => Ok(Message::Keepalive),
            Message::Request(requests) => Ok(Message::Request(requests.copy()?)),
            Message::Reply(reply) => Ok(Message::Reply(reply.copy()?)),
            Message::Notify => Ok(Message::Notify),
            Message::Error(errors) => Ok(Message::Error(errors.copy()?)),
            Message::Close(reason) => Ok(Message::Close(*reason)),
            Message::Report(reports) => Ok(Message::Report(reports.copy()?)),
            Message::Update(update) => Ok(Message::Update(update.copy()?)),
            Message::Initiate(initiate) => Ok(Message::Initiate(initiate.copy()?)),
            Message::Unknown(kind) => Ok(Message::Unknown(*kind)),
        }
    }
}

impl PlainData for PathRequest {
    fn copy(&self) -> Result<PathRequest, AllocError> {
        Ok(*self)
    }
}

impl PlainData for Answer {
    fn copy(&self) -> Result<Answer, AllocError> {
        match self {
            Answer::Found(hops, cost) => Ok(Answer::Found(hops.copy()?, *cost)),
            Answer::NoPath(vector) => Ok(Answer::NoPath(*vector)),
        }
    }
}

impl PlainData for PathReply {
    fn copy(&self) -> Result<PathReply, AllocError> {
        Ok(PathReply {
            request: self.request,
            answer: self.answer.copy()?,
        })
    }
}

impl PlainData for Errors {
    fn copy(&self) -> Result<Errors, AllocError> {
        Ok(Errors {
            requests: self.requests.copy()?,
            srps: self.srps.copy()?,
            errors: self.errors.copy()?,
        })
    }
}

impl PlainData for Update {
    fn copy(&self) -> Result<Update, AllocError> {
        Ok(Update {
            srp: self.srp,
            plsp: self.plsp,
            delegate: self.delegate,
            admin: self.admin,
            ero: self.ero.copy()?,
            attributes: self.attributes,
            bandwidth: self.bandwidth,
        })
    }
}

impl PlainData for Create {
    fn copy(&self) -> Result<Create, AllocError> {
        Ok(Create {
            srp: self.srp,
            name: self.name.copy()?,
            source: self.source,
            destination: self.destination,
            ero: self.ero.copy()?,
            attributes: self.attributes,
            bandwidth: self.bandwidth,
        })
    }
}

impl PlainData for Initiate {
    fn copy(&self) -> Result<Initiate, AllocError> {
        match self {
            Initiate::Create(create) => Ok(Initiate::Create(create.copy()?)),
            Initiate::Remove { srp, plsp } => Ok(Initiate::Remove {
                srp: *srp,
                plsp: *plsp,
            }),
        }
    }
}
