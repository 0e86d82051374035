//! PLSP-IDs, hops, colours, metrics and capabilities.
ghost use Rattle.std.specs.Prelude.{◌≡◌, ◌<◌, ◌^◌};

use pcep_word::Ipv4;
use sequence::Sequence;
use std::marker::Model;

/// A PLSP-ID: the number, below 2^20, by which a peer names one of its LSPs while its session lasts (RFC 8231 section
/// 7.3). 0 and 0xFFFFF name no LSP.
#[derive(Clone, Copy, Debug, PartialEq, Eq, Hash)]
pub struct Plsp {
    number: u32,
}

impl Model for Plsp {
    ghost use Rattle.std.specs.Prelude.{ℕ, ◌<◌, ◌^◌};

    ghost Value = { ℕ };

    ghost view = { λ p. p.number };

    ghost invariant = { λ p. p.number < 2 ^ 20 };

    ghost inverse = { λ n. record { number = n } };
}

impl Plsp {
    /// Makes the PLSP-ID of this number, which must be below 2^20.
    pub fn new(number: u32) -> Plsp
        requires { number < 2 ^ 20 }
        ensures { result ≡ number }
    {
        Plsp { number }
    }

    /// Returns the number, below 2^20.
    pub fn number(self) -> u32
        ensures number { result ≡ self }
        ensures small { result < 2 ^ 20 }
    {
        self.number
    }
}

/// A subobject of a route (RFC 3209 section 4.3.3).
#[derive(Debug, Drop)]
pub enum Hop {
    /// An IPv4 address with prefix length 32, and whether the hop is loose. A recorded route has no loose hops.
    Host(Ipv4, bool),
    /// Any other subobject: its whole type byte, and the bytes after the length byte.
    Other(u8, Sequence<u8>),
}

/// What a peer lets the PCE do, from the STATEFUL-PCE-CAPABILITY of its Open (RFC 8231 section 7.1.1).
#[derive(Clone, Copy, Debug, PartialEq, Eq)]
pub struct Capabilities {
    /// The PCE may update LSPs that are delegated to it (flag U).
    pub update: bool,
    /// The PCE may create LSPs (flag I of RFC 8281 section 4.1).
    pub create: bool,
}

/// Which colours a link of the path may have. There are 32 colours, one per bit (RFC 5440 section 7.11).
#[derive(Clone, Copy, Debug, PartialEq, Eq)]
pub struct Colours {
    /// No link of the path has one of these.
    pub exclude_any: u32,
    /// Each link of the path has one of these, unless this is 0.
    pub include_any: u32,
    /// Each link of the path has all of these.
    pub include_all: u32,
}

/// A metric that a path is to minimise (RFC 5440 section 7.8).
#[derive(Clone, Copy, Debug, PartialEq, Eq)]
pub enum MetricType {
    /// The IGP metric (T 1).
    Igp,
    /// The TE metric (T 2).
    Te,
    /// The number of hops (T 3).
    Hops,
}
