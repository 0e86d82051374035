//! The numbers of requests.
ghost use Rattle.std.specs.Prelude.{◌≡◌, ◌≤◌, ◌<◌};
ghost use Rattle.initiate_rules.specs.Numbers.{next_srp, is_srp_used};

use lsp_base::LspBase;

/// The greatest SRP-ID that is used. 0xFFFFFFFF is reserved, as 0 is (RFC 8231 section 7.2).
const GREATEST_SRP: u32 = 0xffff_fffe;

/// Returns the SRP-ID that comes after another (RFC 8231 section 7.2): 1 comes after 0xFFFFFFFE, and after 0, so it is
/// the first.
pub fn next_srp(last: u32) -> u32
    ensures number { result ≡ next_srp last }
    ensures first { 1 ≤ result }
    ensures last { result ≤ 0xFFFFFFFE }
{
    if last < GREATEST_SRP { last + 1 } else { 1 }
}

/// Tests whether a grant or a removal of the peer has the SRP-ID. Allocates nothing.
pub fn is_srp_used(base: &LspBase, peer: u32, srp: u32) -> bool
    ensures { result ≡ is_srp_used base.now.content peer srp }
{
    base.has_srp(peer, srp)
}
