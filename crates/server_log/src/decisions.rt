//! What the log says about paths that were asked for: who asked, and what was decided.
ghost use Rattle.std.specs.Prelude.{◌≡◌};
ghost use Rattle.server_log.specs.Decisions.{address_of, asked, asker_of, decision_kind, decision_level, decision_peer, initiate_of, limits_of, offered, ordered, order_of, order_reply, path_of, reloaded, verdict, wanted_by};

use crate::kinds::Kind;
use crate::shown_links::ShownLinks;
use crate::shown_name::ShownName;
use asks::PathLimits;
use commit_core::{Purpose, Ticket};
use history_core::{Event, Reply};
use log::Level;
use lsp_base::Constraints;
use path_looks::Obstacle;
use pcep_word::Ipv4;

/// What a path is for: an LSP of this name, or a request of the router (RFC 5440 section 6.4).
#[derive(Clone, Copy, PartialEq, Eq, Debug)]
pub enum Wanted {
    Lsp(ShownName),
    Request(u32),
}

/// Who asked for a path.
#[derive(Clone, Copy, PartialEq, Eq, Debug)]
pub enum Asker {
    /// A report of a delegated LSP that has no path.
    Report,
    /// A request of the router.
    Request,
    /// A line of an operator.
    Operator,
    /// The server itself, which asks again for an LSP that is down.
    Retry,
}

/// What an operator's `initiate` or `place` asked for. If an end of the path isn't given, its address is 0.
#[derive(Clone, Copy, PartialEq, Eq, Debug)]
pub struct Initiation {
    pub peer: u32,
    pub name: ShownName,
    pub has_source: bool,
    pub source: u32,
    pub has_destination: bool,
    pub destination: u32,
    pub bandwidth: u64,
    pub setup: u8,
    pub hold: u8,
    pub limits: PathLimits,
}

/// What an operator asked for.
#[derive(Clone, Copy, PartialEq, Eq, Debug)]
pub enum Order {
    Initiate(Initiation),
    Update { peer: u32, plsp: u32 },
    Return { peer: u32, plsp: u32 },
    Delete { peer: u32, plsp: u32 },
    Drop { peer: u32, srp: u32 },
    Reload,
}

/// The reply to an operator.
#[derive(Clone, Copy, PartialEq, Eq, Debug)]
pub enum OrderReply {
    Done,
    Asked(u64),
    Removing(u32),
    Refused(u8),
}

/// A path that was asked for: the router, the ticket, and what the path is for.
#[derive(Clone, Copy, PartialEq, Eq, Debug)]
pub struct AskedPath {
    pub peer: u32,
    pub ticket: u64,
    pub wanted: Wanted,
}

/// What was asked for, decided or answered.
#[derive(Clone, Copy, PartialEq, Eq, Debug)]
pub enum Decision {
    /// A path was asked for.
    Asked {
        path: AskedPath,
        by: Asker,
    },
    /// A path was granted. The router is asked for it under this SRP-ID (RFC 8231 section 7.2).
    Granted {
        path: AskedPath,
        srp: u32,
        links: ShownLinks,
    },
    /// A request of the router is answered by a path.
    Replied {
        path: AskedPath,
        links: ShownLinks,
    },
    /// There is no path, and this obstacle prevents it. `None` if there is no way at all.
    NoPath {
        path: AskedPath,
        why: Option<Obstacle>,
    },
    /// Four searches were in vain, or the grant couldn't be kept.
    GaveUp {
        path: AskedPath,
    },
    /// The router answered the request with this SRP-ID by a report, `after_ms` milliseconds after it was sent.
    Answered {
        peer: u32,
        srp: u32,
        lsp: ShownName,
        after_ms: u64,
    },
    /// An operator asked for this and got this reply.
    Ordered {
        order: Order,
        reply: OrderReply,
    },
    /// A reload gave this many links their values, and left `below` of them with less than before and less than nothing.
    Reloaded {
        links: usize,
        below: usize,
    },
    /// A router reported a path that isn't booked, because too many paths stand.
    NotBooked {
        peer: u32,
        plsp: u32,
    },
}

impl Decision {
    /// Returns what the line is about.
    pub(crate) fn kind(&self) -> Kind
        ensures { result ≡ decision_kind self.now }
    {
        match self {
            Decision::Asked { .. } => Kind::Asked,
            Decision::Granted { .. } => Kind::Granted,
            Decision::Replied { .. } => Kind::Replied,
            Decision::NoPath { .. } => Kind::NoPath,
            Decision::GaveUp { .. } => Kind::GaveUp,
            Decision::Answered { .. } => Kind::Answered,
            Decision::Ordered { .. } => Kind::Ordered,
            Decision::Reloaded { .. } => Kind::Reloaded,
            Decision::NotBooked { .. } => Kind::NotBooked,
        }
    }

    /// Returns the address of the router that the line is about, or 0.
    pub(crate) fn router(&self) -> u32
        ensures { result ≡ decision_peer self.now }
    {
        match *self {
            Decision::Asked { path, .. }
            | Decision::Granted { path, .. }
            | Decision::Replied { path, .. }
            | Decision::NoPath { path, .. }
            | Decision::GaveUp { path } => path.peer,
            Decision::Answered { peer, .. } | Decision::NotBooked { peer, .. } => peer,
            Decision::Ordered { .. } | Decision::Reloaded { .. } => 0,
        }
    }

    /// Returns the level: info, or warn for a path that isn't booked.
    pub(crate) fn level(&self) -> Level
        ensures { result ≡ decision_level self.now }
    {
        match self {
            Decision::NotBooked { .. } => Level::Warn,
            _ => Level::Info,
        }
    }
}

/// Returns what a path is for. The name is used for an update, whose purpose has none.
fn wanted_by(purpose: &Purpose, name: ShownName) -> Wanted
    ensures { result ≡ wanted_by purpose.now name }
{
    match purpose {
        Purpose::Update { .. } => Wanted::Lsp(name),
        Purpose::Initiate { name, .. } => Wanted::Lsp(ShownName::new(name.as_slice())),
        Purpose::Answer { request, .. } => Wanted::Request(*request),
    }
}

/// Returns who asked for a path: for a request, always its router.
fn asker_of(purpose: &Purpose, by: Asker) -> Asker
    ensures { result ≡ asker_of purpose.now by }
{
    match purpose {
        Purpose::Answer { .. } => Asker::Request,
        _ => by,
    }
}

/// Returns what the log says about an ask for a path, if the reply gives it a ticket. The name is used for an update,
/// whose purpose has none.
pub fn asked(
    peer: u32,
    purpose: &Purpose,
    reply: &Reply,
    name: ShownName,
    by: Asker,
) -> Option<Decision>
    ensures { result ≡ asked peer purpose.now reply.now name by }
{
    match reply {
        Reply::Asked(ticket) => Some(Decision::Asked {
            path: AskedPath {
                peer,
                ticket: *ticket,
                wanted: wanted_by(purpose, name),
            },
            by: asker_of(purpose, by),
        }),
        _ => None,
    }
}

/// Returns the links that a commit offered, or none if it offered no path.
pub fn offered(commit: &Event) -> ShownLinks
    ensures { result ≡ offered commit.now }
{
    match commit {
        Event::Commit {
            offer: Some(links),
            ..
        } => ShownLinks::new(links.as_slice()),
        _ => ShownLinks::new(&[]),
    }
}

/// Returns the path for which a ticket was given. The name is used for an update, whose purpose has none.
fn path_of(ticket: &Ticket, name: ShownName) -> AskedPath
    ensures { result ≡ path_of ticket.now name }
{
    AskedPath {
        peer: ticket.peer,
        ticket: ticket.id,
        wanted: wanted_by(&ticket.purpose, name),
    }
}

/// Returns what the log says about a ticket, given the links that its commit offered and the reply to that: nothing if
/// the ticket waits again, or nobody waits for it any more. The name is used for an update, whose purpose has none.
pub fn verdict(
    ticket: &Ticket,
    links: ShownLinks,
    reply: &Reply,
    name: ShownName,
    why: Option<Obstacle>,
) -> Option<Decision>
    ensures { result ≡ verdict ticket.now links reply.now name why }
{
    let path = path_of(ticket, name);
    match reply {
        Reply::Granted(srp) => Some(Decision::Granted {
            path,
            srp: *srp,
            links,
        }),
        Reply::Answered => Some(Decision::Replied { path, links }),
        Reply::NoPath => Some(Decision::NoPath { path, why }),
        Reply::GivenUp => Some(Decision::GaveUp { path }),
        _ => None,
    }
}

/// Returns the address of an end of a path, or 0.
fn address_of(end: Option<Ipv4>) -> u32
    ensures { result ≡ address_of end }
{
    match end {
        None => 0,
        Some(address) => address.0,
    }
}

/// Returns the limits of a path.
fn limits_of(wanted: &Constraints) -> PathLimits
    ensures { result ≡ limits_of wanted.now }
{
    PathLimits {
        minimise: wanted.minimise,
        max_cost: wanted.bound,
        max_hops: wanted.hop_bound,
        colours: wanted.colours,
    }
}

/// Returns what an `initiate` or a `place` asked for.
fn initiate_of(peer: u32, name: ShownName, wanted: &Constraints) -> Initiation
    ensures { result ≡ initiate_of peer name wanted.now }
{
    Initiation {
        peer,
        name,
        has_source: wanted.source.is_some(),
        source: address_of(wanted.source),
        has_destination: wanted.destination.is_some(),
        destination: address_of(wanted.destination),
        bandwidth: wanted.bandwidth.value(),
        setup: wanted.priorities.setup().number(),
        hold: wanted.priorities.hold().number(),
        limits: limits_of(wanted),
    }
}

/// Returns what an operator asked for by an event, or `None` if operators don't ask for such an event.
fn order_of(event: &Event) -> Option<Order>
    ensures { result ≡ order_of event.now }
{
    match event {
        Event::Ask {
            peer,
            purpose: Purpose::Initiate { name, constraints },
        } => {
            let name = ShownName::new(name.as_slice());
            Some(Order::Initiate(initiate_of(*peer, name, constraints)))
        }
        Event::Ask {
            peer,
            purpose: Purpose::Update { plsp },
        } => Some(Order::Update {
            peer: *peer,
            plsp: plsp.number(),
        }),
        Event::Return { peer, plsp } => Some(Order::Return {
            peer: *peer,
            plsp: plsp.number(),
        }),
        Event::Delete { peer, plsp } => Some(Order::Delete {
            peer: *peer,
            plsp: plsp.number(),
        }),
        Event::Refused { peer, srp } => Some(Order::Drop {
            peer: *peer,
            srp: *srp,
        }),
        Event::Reload { .. } => Some(Order::Reload),
        _ => None,
    }
}

/// Returns the reply to an operator, or `None` if operators don't get such a reply.
fn order_reply(reply: &Reply) -> Option<OrderReply>
    ensures { result ≡ order_reply reply.now }
{
    match reply {
        Reply::Done => Some(OrderReply::Done),
        Reply::Asked(ticket) => Some(OrderReply::Asked(*ticket)),
        Reply::Removing(srp) => Some(OrderReply::Removing(*srp)),
        Reply::Refused(why) => Some(OrderReply::Refused(why.number())),
        _ => None,
    }
}

/// Returns what the log says about an operator's line, given its event and the reply.
pub fn ordered(event: &Event, reply: &Reply) -> Option<Decision>
    ensures { result ≡ ordered event.now reply.now }
{
    match (order_of(event), order_reply(reply)) {
        (Some(order), Some(reply)) => Some(Decision::Ordered { order, reply }),
        _ => None,
    }
}

/// Returns what the log says about a reload that was done. It left `below` links with less than before and less than
/// nothing.
pub fn reloaded(event: &Event, reply: &Reply, below: usize) -> Option<Decision>
    ensures { result ≡ reloaded event.now reply.now below }
{
    match (event, reply) {
        (Event::Reload { links }, Reply::Done) => Some(Decision::Reloaded {
            links: links.as_slice().len(),
            below,
        }),
        _ => None,
    }
}
