//! In which order the paths of a change go. On a link that many paths of a tunnel share, what they hold is kept in
//! order. A path that goes moves everything between it and the path that went before it. So if many paths go in that
//! order, each path that stays moves once. The search for a path that goes begins at the one before it, which is near.
//! The greatest goes last, so that the sums of the link move once for each holding priority.
ghost use Rattle.std.specs.Prelude.{◌≡◌, ◌<◌, ℕ, IfOk, option_to_list, slice_get};
ghost use Rattle.lsp_base.specs.declared.tunnel.Tunnel.{Tunnel};
ghost use Rattle.bandwidth_book.specs.Ledgers.{count, held_at, promised_on};
ghost use Rattle.bandwidth_book.specs.Paths.{held_by, picked};
ghost use Rattle.bandwidth_book.specs.Reservation.{Reservation, times, without_all};

use crate::ledgers::Ledgers;
use crate::paths::move_paths;
use crate::reservation::{BookOp, held_of};
use lsp_base::Path;
use std::alloc::{AllocError, Global};
use std::slice;

/// From how many paths on they are put in order before they go.
const MANY_PATHS: usize = 4;

/// Ranks the path at a place in the order of what paths hold.
fn rank_at(paths: &[Path], place: usize) -> u64 {
    match paths.get(place) {
        Some(path) => held_of(path).rank(),
        None => 0,
    }
}

/// Lists the places of the paths.
fn places_of(alloc: Global, paths: &[Path]) -> Result<Vec<usize>, AllocError>
    ensures { IfOk result (λ places. picked places.items paths.now ≡ paths.now) }
{
    let mut places = Vec::with_capacity(alloc, paths.len())?;
    for place in 0..paths.len() {
        places.push(place)?;
    }
    Ok(places)
}

/// Lists the places of the paths in the order in which they are to go.
fn places_in_order(alloc: Global, paths: &[Path]) -> Result<Vec<usize>, AllocError>
    ensures { IfOk result (λ places. (l : ℕ) (t : Tunnel) (h : Reservation) → times h (held_by l t (picked places.items paths.now)) ≡ times h (held_by l t paths.now)) }
{
    let mut places = places_of(alloc, paths)?;
    places.sort_unstable_by_key(|place| rank_at(paths, *place));
    Ok(places)
}

/// Lends the path at a place as a list, or an empty one.
fn one_of(paths: &[Path], place: usize) -> &[Path]
    ensures { result.now ≡ option_to_list (slice_get paths.now place) }
{
    match paths.get(place) {
        Some(path) => slice::from_ref(path),
        None => &[],
    }
}

/// Drops the paths at these places.
fn drop_picked(alloc: Global, ledgers: &mut Ledgers, places: &[usize], paths: &[Path])
    ensures count { count ledgers.new ≡ count ledgers.old }
    ensures kept { (l : ℕ) (t : Tunnel) → l < count ledgers.old → held_at ledgers.new l t ≡ without_all (held_at ledgers.old l t) (held_by l t (picked places.now paths.now)) }
    ensures promised { (l : ℕ) (t : Tunnel) → l < count ledgers.old → promised_on ledgers.new l t ≡ promised_on ledgers.old l t }
{
    for place in places {
        move_paths(alloc, ledgers, BookOp::Drop, one_of(paths, *place)).unwrap();
    }
}

/// Drops paths: many of them in the order in which they move least, if there is memory for that order.
pub(crate) fn drop_paths(alloc: Global, ledgers: &mut Ledgers, paths: &[Path])
    ensures count { count ledgers.new ≡ count ledgers.old }
    ensures kept { (l : ℕ) (t : Tunnel) → l < count ledgers.old → held_at ledgers.new l t ≡ without_all (held_at ledgers.old l t) (held_by l t paths.now) }
    ensures promised { (l : ℕ) (t : Tunnel) → l < count ledgers.old → promised_on ledgers.new l t ≡ promised_on ledgers.old l t }
{
    if paths.len() >= MANY_PATHS {
        if let Ok(places) = places_in_order(alloc, paths) {
            drop_picked(alloc, ledgers, &places, paths);
            return;
        }
    }
    move_paths(alloc, ledgers, BookOp::Drop, paths).unwrap();
}
