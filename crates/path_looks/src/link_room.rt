//! The link of a path on which least is left.
ghost use Rattle.std.specs.Prelude.{◌≡◌};
ghost use Rattle.te_snapshot.specs.Room.{left};
ghost use Rattle.path_looks.specs.Tightest.{room_on, tighter, tightest};

use lsp_base::Constraints;
use te_base::LinkNumber;
use te_snapshot::Snapshot;

/// A link with what is left of it, in bytes per second.
#[derive(Clone, Copy)]
pub struct LinkRoom {
    pub link: LinkNumber,
    pub left: i64,
}

/// Reads what is left of a link at the setup priority.
fn room_on(snapshot: &Snapshot, wanted: &Constraints, link: LinkNumber) -> LinkRoom
    ensures { result ≡ room_on snapshot.now.unreserved wanted.now link }
{
    let left = snapshot.table().left(link, wanted.priorities.setup());
    LinkRoom { link, left }
}

/// Returns the one of two links on which less is left; the first if both have the same.
fn tighter(best: Option<LinkRoom>, other: LinkRoom) -> Option<LinkRoom>
    ensures { result ≡ tighter best other }
{
    match best {
        Some(known) if known.left <= other.left => Some(known),
        _ => Some(other),
    }
}

/// Finds the link of a path on which least is left at the setup priority, which is the priority from holding to setup
/// at which least is left.
pub fn tightest(snapshot: &Snapshot, wanted: &Constraints, links: &[LinkNumber]) -> Option<LinkRoom>
    ensures { result ≡ tightest snapshot.now.unreserved wanted.now links.now }
{
    let mut best = None;
    for link in links {
        best = tighter(best, room_on(snapshot, wanted, *link));
    }
    best
}
