//! The tunnels on a link.
ghost use Rattle.std.specs.Prelude.{◌≡◌, ◌^◌, ◌-◌, IfOk, OnOk, IsPermutation};
ghost use Rattle.std.specs.List.Sorted.{IsNonDecreasingBy};
ghost use Rattle.lsp_base.specs.Same.{same_tunnel};
ghost use Rattle.pce_seen.specs.Tunnels.{first_of_each, is_beside, with_first, IsByTunnel};

use crate::lsps::HeldPath;
use lsp_base::Tunnel;
use std::alloc::{AllocError, Global};

/// More bandwidth than any path has.
const TOO_MUCH: u64 = 1 << 48;

/// Orders paths by their bandwidth, the greatest first.
fn by_bandwidth(alloc: Global, held: &[HeldPath]) -> Result<Vec<HeldPath>, AllocError>
    ensures same { IfOk result (λ sorted. IsPermutation held.now sorted.items) }
    ensures falling { IfOk result (λ sorted. IsNonDecreasingBy (λ h. 2 ^ 48 - h.bandwidth) sorted.items) }
{
    let mut sorted = held.to_vec(alloc)?;
    sorted.sort_by_key(|path| TOO_MUCH - path.bandwidth.value())?;
    Ok(sorted)
}

fn is_same_tunnel(a: &Tunnel, b: &Tunnel) -> bool
    ensures { result ≡ same_tunnel a.now b.now }
{
    *a == *b
}

/// Tests whether a path of the same tunnel is among these.
fn is_beside(kept: &[HeldPath], path: &HeldPath) -> bool
    ensures { result ≡ is_beside kept.now path.now }
{
    kept.iter()
        .any(|other| is_same_tunnel(&other.tunnel, &path.tunnel))
}

/// Keeps a path, unless one of its tunnel is kept.
fn keep_first(kept: &mut Vec<HeldPath>, path: &HeldPath) -> Result<(), AllocError>
    ensures { OnOk result (kept.new.items ≡ with_first kept.old.items path.now) }
{
    if !is_beside(kept, path) {
        kept.push(*path)?;
    }
    Ok(())
}

/// Keeps the first path of each tunnel.
fn first_of_each(alloc: Global, paths: &[HeldPath]) -> Result<Vec<HeldPath>, AllocError>
    ensures { IfOk result (λ kept. kept.items ≡ first_of_each paths.now) }
{
    let mut kept = Vec::new(alloc);
    for path in paths {
        keep_first(&mut kept, path)?;
    }
    Ok(kept)
}

/// Lists the tunnels of the paths over a link by what they hold there, the greatest first. Each tunnel is listed by its
/// path of the greatest bandwidth, since its paths share what they reserve (RFC 3209 section 2.4.3).
pub fn tunnels_on(alloc: Global, held: &[HeldPath]) -> Result<Vec<HeldPath>, AllocError>
    ensures { IfOk result (λ tunnels. IsByTunnel held.now tunnels.items) }
{
    let sorted = by_bandwidth(alloc, held)?;
    first_of_each(alloc, &sorted)
}
