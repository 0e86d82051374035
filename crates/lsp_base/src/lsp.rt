//! What is known of one LSP, and what is asked of its path.
use crate::tunnel::Tunnel;
use lsp_words::{Colours, MetricType};
use pcep_word::{Bandwidth, Ipv4, Priorities};
use sequence::{PlainData, Sequence};
use std::alloc::AllocError;

/// Bounds on a metric that is not minimised.
#[derive(Clone, Copy, Debug, PartialEq, Eq)]
pub struct OtherBounds {
    pub igp: Option<u64>,
    pub te: Option<u64>,
}

/// What is asked of a path.
#[derive(Clone, Copy, Debug, PartialEq, Eq)]
pub struct Constraints {
    pub source: Option<Ipv4>,
    pub destination: Option<Ipv4>,
    pub bandwidth: Bandwidth,
    pub priorities: Priorities,
    pub colours: Colours,
    pub minimise: MetricType,
    /// On the minimised metric.
    pub bound: Option<u64>,
    pub hop_bound: Option<u64>,
    pub other_bounds: OtherBounds,
    /// Local protection is wanted (flag L of LSPA, RFC 5440 section 7.11). The search doesn't consider it.
    pub local_protection: bool,
}

/// What is known of one LSP.
#[derive(Debug, Drop)]
pub struct Lsp {
    /// The symbolic path name (RFC 8231 section 7.3.2); empty if none was reported.
    pub name: Sequence<u8>,
    pub delegated: bool,
    /// The PCE initiated it (RFC 8281 section 5.3.1).
    pub created: bool,
    pub constraints: Constraints,
    pub tunnel: Tunnel,
    /// The SRP-ID of the deletion that the PCE asked the peer for.
    pub removing: Option<u32>,
}

impl PlainData for Lsp {
    fn copy(&self) -> Result<Lsp, AllocError> {
        Ok(Lsp {
            name: self.name.copy()?,
            delegated: self.delegated,
            created: self.created,
            constraints: self.constraints,
            tunnel: self.tunnel,
            removing: self.removing,
        })
    }
}
