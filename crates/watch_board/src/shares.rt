//! Links by how much of them is reserved.
ghost use Rattle.std.specs.Prelude.{◌≡◌, ◌<◌, ◌^◌, IfOk, IsPermutation, map};
ghost use Rattle.std.specs.List.Sorted.{IsNonDecreasingBy};
ghost use Rattle.serde_json.specs.View.{view};
ghost use Rattle.table_text.specs.Amounts.{magnitude, reserved};
ghost use Rattle.watch_board.specs.Shares.{fullness, room, share_of, shares_from};

use crate::members::{amount_in, whole_in};
use serde_json::Value;
use std::alloc::{AllocError, Global};

/// More than how full any link is.
const TOO_FULL: u128 = 1 << 96;

/// The worst priority, at which every path counts.
const WORST: usize = 7;

/// A link by its place among all, what may be reserved of it, and what is left of that.
#[derive(Clone, Copy)]
pub(crate) struct LinkShare {
    pub place: usize,
    pub reservable: u64,
    pub left: i64,
}

/// Returns how much of a link is left at the worst priority.
fn share_of(place: usize, link: &Value) -> LinkShare
    ensures { result ≡ share_of place (view link.now) }
{
    LinkShare {
        place,
        reservable: whole_in(link, "reservable_bytes_per_second"),
        left: amount_in(link, "unreserved_bytes_per_second", WORST),
    }
}

fn shares_of(alloc: Global, links: &[Value]) -> Result<Vec<LinkShare>, AllocError>
    ensures { IfOk result (λ shares. shares.items ≡ shares_from 0 (map view links.now)) }
{
    let mut shares = Vec::with_capacity(alloc, links.len())?;
    for (place, link) in links.iter().enumerate() {
        shares.push(share_of(place, link))?;
    }
    Ok(shares)
}

fn magnitude(bytes: i64) -> u64
    ensures value { result ≡ magnitude bytes }
    ensures bound { result < 2 ^ 64 }
{
    bytes.unsigned_abs()
}

/// Returns how much of a link is reserved.
fn reserved(reservable: u64, left: i64) -> u128
    ensures reserved { result ≡ reserved reservable left }
    ensures bound { result < 2 ^ 65 }
{
    let size = u128::from(magnitude(left));
    if left < 0 {
        u128::from(reservable) + size
    } else {
        u128::from(reservable).saturating_sub(size)
    }
}

/// Returns how much of a link is reserved, in billionths of what may be.
fn fullness(share: &LinkShare) -> u128
    ensures value { result ≡ fullness share.now }
    ensures bound { result < 2 ^ 96 }
{
    let size = u128::from(share.reservable.max(1));
    reserved(share.reservable, share.left) * 1_000_000_000 / size
}

/// Returns less, the fuller a link is.
fn room(share: &LinkShare) -> u128
    ensures { result ≡ room share.now }
{
    TOO_FULL - fullness(share)
}

/// Orders links, the fullest first. Of links that are equally full the first comes first.
pub(crate) fn fullest_first(alloc: Global, links: &[Value]) -> Result<Vec<LinkShare>, AllocError>
    ensures same { IfOk result (λ sorted. IsPermutation (shares_from 0 (map view links.now)) sorted.items) }
    ensures fullest_first { IfOk result (λ sorted. IsNonDecreasingBy room sorted.items) }
{
    let mut shares = shares_of(alloc, links)?;
    shares.sort_by_key(|share| room(share))?;
    Ok(shares)
}
