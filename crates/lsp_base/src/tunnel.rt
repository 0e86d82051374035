//! Tunnels, and which of an LSP's paths a path is.
ghost use Rattle.std.specs.Prelude.{◌≡◌};
ghost use Rattle.lsp_base.specs.Same.{same_tunnel, same_part, is_reported};

use lsp_words::Plsp;
use pcep_word::Ipv4;

/// A session of which all paths share their reservations on a common link (shared explicit reservation, RFC 3209
/// section 2.4.3).
#[derive(Clone, Copy, Debug, PartialEq, Eq, Hash)]
pub enum Tunnel {
    /// The session of RFC 3209 section 4.6.1, kept apart for each peer.
    Signalled {
        peer: u32,
        endpoint: Ipv4,
        tunnel: u16,
        extended: u32,
    },
    /// An LSP that was reported with all identifiers zero: each such LSP is a tunnel of its own.
    Unsignalled {
        peer: u32,
        plsp: Plsp,
    },
    /// A granted initiation that no report has bound yet, by its SRP-ID.
    Asked {
        peer: u32,
        srp: u32,
    },
}

/// Which of an LSP's paths a path is.
#[derive(Clone, Copy, Debug, PartialEq, Eq)]
pub enum Part {
    /// A path that the peer reported, by its LSP ID.
    Reported(u16),
    /// A path that the PCE granted, by its SRP-ID.
    Granted(u32),
}

/// Tests whether two tunnels are the same.
pub fn is_same_tunnel(a: &Tunnel, b: &Tunnel) -> bool
    ensures { result ≡ same_tunnel a.now b.now }
{
    *a == *b
}

/// Tests whether two parts are the same.
pub fn is_same_part(a: &Part, b: &Part) -> bool
    ensures { result ≡ same_part a.now b.now }
{
    *a == *b
}

/// Tests whether the peer reported the path.
pub fn is_part_reported(part: Part) -> bool
    ensures { result ≡ is_reported part }
{
    match part {
        Part::Reported(_) => true,
        Part::Granted(_) => false,
    }
}
