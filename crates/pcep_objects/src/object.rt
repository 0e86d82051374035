//! The objects of PCEP and their parts. All numbers are as on the wire.

ghost use Rattle.std.specs.Prelude.{◌≡◌, ◌<◌, ◌^◌};

use crate::request_objects::{EndPoints, NoPath, Rp};
use crate::session_objects::{Close, Notification, Open, PcepError};
use lsp_words::{Colours, Hop, Plsp};
use pcep_word::{Bandwidth, Ipv4, Priority};
use sequence::Sequence;
use std::marker::Model;

/// The operational state of an LSP (RFC 8231 section 7.3).
#[derive(Clone, Copy, Debug, PartialEq, Eq)]
pub enum Operational {
    /// The LSP is not active.
    Down,
    /// It is signalled.
    Up,
    /// It is up and carries traffic.
    Active,
    /// It is being torn down.
    GoingDown,
    /// It is being signalled.
    GoingUp,
}

/// IPV4-LSP-IDENTIFIERS: what the peer signals the LSP with (RFC 8231 section 7.3.1, RFC 3209 section 4.6).
#[derive(Clone, Copy, Debug, PartialEq, Eq)]
pub struct Identifiers {
    /// The address of the tunnel's first node.
    pub sender: Ipv4,
    /// The LSP ID: the number of this path among those of its tunnel.
    pub lsp: u16,
    /// The Tunnel ID.
    pub tunnel: u16,
    /// The Extended Tunnel ID.
    pub extended: u32,
    /// The address of the tunnel's last node.
    pub endpoint: Ipv4,
}

/// SRP, which numbers the PCE's requests and the reports that answer them (RFC 8231 section 7.2).
#[derive(Clone, Copy, Debug, PartialEq, Eq)]
pub struct Srp {
    /// The LSP is to be removed (flag R of RFC 8281 section 5.2).
    pub remove: bool,
    /// The SRP-ID. 0 and 0xFFFFFFFF are reserved.
    pub id: u32,
}

/// RSVP-ERROR-SPEC with an ERROR_SPEC of IPv4: why RSVP couldn't set up the LSP (RFC 8231 section 7.3.4, RFC 2205 section
/// A.5).
#[derive(Clone, Copy, Debug, PartialEq, Eq)]
pub struct RsvpError {
    /// The address of the node that found the error.
    pub node: Ipv4,
    /// InPlace 0x01 and NotGuilty 0x02.
    pub flags: u8,
    /// The error code (RFC 2205 appendix B).
    pub code: u8,
    /// The error value.
    pub value: u16,
}

/// LSP (RFC 8231 section 7.3).
#[derive(Debug, Drop)]
pub struct LspObject {
    /// The PLSP-ID.
    pub plsp: Plsp,
    /// The LSP is delegated to the PCE (flag D).
    pub delegate: bool,
    /// The object belongs to state synchronization (flag S).
    pub sync: bool,
    /// The LSP was removed (flag R).
    pub remove: bool,
    /// The LSP is to be active (flag A).
    pub admin: bool,
    /// The state of the LSP (field O). A value that the RFC leaves free counts as `Up`.
    pub operational: Operational,
    /// The LSP was created by a PCE (flag C of RFC 8281 section 5.3.1).
    pub created: bool,
    /// The first SYMBOLIC-PATH-NAME.
    pub name: Option<Sequence<u8>>,
    /// The first IPV4-LSP-IDENTIFIERS.
    pub identifiers: Option<Identifiers>,
    /// The first LSP-ERROR-CODE of 4 bytes (RFC 8231 section 7.3.3).
    pub error_code: Option<u32>,
    /// The first RSVP-ERROR-SPEC of 12 bytes, if that is an ERROR_SPEC of IPv4.
    pub rsvp_error: Option<RsvpError>,
}

/// LSPA, the attributes of an LSP (RFC 5440 section 7.11).
#[derive(Clone, Copy, Debug, PartialEq, Eq)]
pub struct Lspa {
    /// The colours that the path must and must not have.
    pub colours: Colours,
    /// The setup priority.
    pub setup: Priority,
    /// The holding priority as written, which may be worse than the setup priority.
    pub hold: Priority,
    /// Local protection is wanted (flag L).
    pub local_protection: bool,
}

/// The object type of a BANDWIDTH (RFC 5440 section 7.7).
#[derive(Clone, Copy, Debug, PartialEq, Eq)]
pub enum BandwidthType {
    /// Type 1: the bandwidth that is asked for.
    Requested,
    /// Type 2: the bandwidth of an existing LSP.
    Current,
}

/// The number of a METRIC, from 0 to 2^48 - 1. A word is rounded down to it, and 2^48 - 1 also stands for every greater
/// value.
#[derive(Clone, Copy, Debug, PartialEq, Eq, PartialOrd, Ord)]
pub struct MetricValue {
    value: u64,
}

impl Model for MetricValue {
    ghost use Rattle.std.specs.Prelude.{ℕ, ◌<◌, ◌^◌};

    ghost Value = { ℕ };

    ghost view = { λ m. m.value };

    ghost invariant = { λ m. m.value < 2 ^ 48 };

    ghost inverse = { λ n. record { value = n } };
}

impl MetricValue {
    /// Makes the metric of this value, which must be below 2^48.
    pub fn new(value: u64) -> MetricValue
        requires { value < 2 ^ 48 }
        ensures { result ≡ value }
    {
        MetricValue { value }
    }

    /// Returns the value, below 2^48.
    pub fn value(self) -> u64
        ensures value { result ≡ self }
        ensures small { result < 2 ^ 48 }
    {
        self.value
    }
}

/// METRIC (RFC 5440 section 7.8).
#[derive(Clone, Copy, Debug, PartialEq, Eq)]
pub struct Metric {
    /// The value is a bound for the path (flag B).
    pub bound: bool,
    /// The value is that of a computed path, or it is asked for (flag C).
    pub computed: bool,
    /// T, the metric's type: 1 IGP, 2 TE, 3 hops; any other is free.
    pub metric_type: u8,
    /// The bound or the cost, in the units of its type.
    pub value: MetricValue,
}

/// The classes of objects that are kept as bytes.
#[derive(Clone, Copy, Debug, PartialEq, Eq)]
pub enum KeptClass {
    /// IRO, nodes that a path must pass (RFC 5440 section 7.12).
    Iro,
    /// SVEC, requests that belong together (RFC 5440 section 7.13).
    Svec,
    /// LOAD-BALANCING, several paths for one request (RFC 5440 section 7.16).
    LoadBalancing,
}

/// An object that is kept as the bytes of its body.
#[derive(Debug, Drop)]
pub struct Kept {
    /// Which of the three it is.
    pub class: KeptClass,
    /// The P flag of the object's header: the object must be processed.
    pub p: bool,
    /// All bytes after the header.
    pub body: Sequence<u8>,
}

/// An object of PCEP.
#[derive(Debug, Drop)]
pub enum Object {
    /// OPEN, what a peer asks of a session (RFC 5440 section 7.3).
    Open(Open),
    /// RP, the number of a request (RFC 5440 section 7.4).
    Rp(Rp),
    /// NO-PATH, a request that no path meets (RFC 5440 section 7.5).
    NoPath(NoPath),
    /// END-POINTS, the ends of a path (RFC 5440 section 7.6).
    EndPoints(EndPoints),
    /// BANDWIDTH, in bytes per second (RFC 5440 section 7.7).
    Bandwidth(BandwidthType, Bandwidth),
    /// METRIC, a bound or a cost of a path (RFC 5440 section 7.8).
    Metric(Metric),
    /// ERO, the route that a path is to take (RFC 5440 section 7.9).
    Ero(Sequence<Hop>),
    /// RRO, the route that a path takes (RFC 5440 section 7.10).
    Rro(Sequence<Hop>),
    /// LSPA, the attributes of an LSP (RFC 5440 section 7.11).
    Lspa(Lspa),
    /// IRO, SVEC or LOAD-BALANCING (RFC 5440 sections 7.12, 7.13 and 7.16).
    Kept(Kept),
    /// NOTIFICATION (RFC 5440 section 7.14).
    Notification(Notification),
    /// PCEP-ERROR (RFC 5440 section 7.15).
    Error(PcepError),
    /// CLOSE, why a session ends (RFC 5440 section 7.17).
    Close(Close),
    /// LSP (RFC 8231 section 7.3).
    Lsp(LspObject),
    /// SRP (RFC 8231 section 7.2).
    Srp(Srp),
}
