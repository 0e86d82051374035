//! Links that are too full.
ghost use Rattle.std.specs.Prelude.{◌≡◌, ◌<◌, ◌≤◌, ◌^◌, ◌-◌, ◌||◌, pos, nat_le, int_le, find, IfOk};
ghost use Rattle.lsp_base.specs.Shares.{priorities};
ghost use Rattle.te_snapshot.specs.Room.{left};
ghost use Rattle.path_looks.specs.Paths.{first_full, full_links, is_full_at};

use lsp_base::Constraints;
use pcep_word::Priority;
use std::alloc::{AllocError, Global};
use te_base::LinkNumber;
use te_snapshot::Snapshot;

/// A link on which a bandwidth doesn't fit.
#[derive(Clone, Copy)]
pub struct FullLink {
    pub link: LinkNumber,
    /// The best of the priorities at which it doesn't fit.
    pub priority: u8,
}

/// Reads what is left of a link at a priority.
fn left_at(snapshot: &Snapshot, link: LinkNumber, priority: u8) -> i64
    requires { priority < 8 }
    ensures { result ≡ left snapshot.now.unreserved link priority }
{
    snapshot.table().left(link, Priority::capped(priority))
}

/// Tests whether enough is left for a bandwidth.
fn has_room(left: i64, bandwidth: u64) -> bool
    requires { bandwidth < 2 ^ 48 }
    ensures { result ≡ (nat_le bandwidth 0 || int_le (pos (bandwidth - 0)) left) }
{
    bandwidth == 0 || bandwidth as i64 <= left
}

/// Tests whether a bandwidth doesn't fit on a link at a priority.
fn is_full_at(snapshot: &Snapshot, wanted: &Constraints, link: LinkNumber, priority: u8) -> bool
    requires { priority < 8 }
    ensures { result ≡ is_full_at snapshot.now.unreserved wanted.now link priority }
{
    let left = left_at(snapshot, link, priority);
    !has_room(left, wanted.bandwidth.value())
}

/// Finds the best of the priorities from holding to setup at which a bandwidth doesn't fit on a link.
fn first_priority(snapshot: &Snapshot, wanted: &Constraints, link: LinkNumber) -> Option<u8>
    ensures { result ≡ find (is_full_at snapshot.now.unreserved wanted.now link) (priorities wanted.now.priorities.hold wanted.now.priorities.setup) }
{
    let hold = wanted.priorities.hold().number();
    let setup = wanted.priorities.setup().number();
    for priority in hold..setup + 1 {
        if is_full_at(snapshot, wanted, link, priority) {
            return Some(priority);
        }
    }
    None
}

/// Finds the best priority at which a link is too full for a bandwidth, if there is one.
fn first_full(snapshot: &Snapshot, wanted: &Constraints, link: LinkNumber) -> Option<FullLink>
    ensures { result ≡ first_full snapshot.now.unreserved wanted.now link }
{
    match first_priority(snapshot, wanted, link) {
        Some(priority) => Some(FullLink { link, priority }),
        None => None,
    }
}

/// Lists those of these links on which what is asked for doesn't fit, each with the best of the priorities at which it
/// is too full.
pub fn full_links(
    alloc: Global,
    snapshot: &Snapshot,
    wanted: &Constraints,
    links: &[LinkNumber],
) -> Result<Vec<FullLink>, AllocError>
    ensures { IfOk result (λ full. full.items ≡ full_links snapshot.now.unreserved wanted.now links.now) }
{
    let mut full = Vec::new(alloc);
    for link in links {
        if let Some(found) = first_full(snapshot, wanted, *link) {
            full.push(found)?;
        }
    }
    Ok(full)
}
