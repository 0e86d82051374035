//! What a book says of the paths that it stands for.
ghost use Rattle.std.specs.Prelude.{◌≡◌, ◌<◌, ◌≤◌, ◌+◌, ◌-◌, ◌^◌, ◌-ℤ◌, ◌||◌, pos, int_le, nat_le, ℕ, List, length, slice_index, true};
ghost use Rattle.std.specs.List.{list_all};
ghost use Rattle.lsp_base.specs.Shares.{fits, fits_at, has_link, priorities, reservable, reserved, share, unreserved};
ghost use Rattle.lsp_base.specs.declared.path.Path.{Path};
ghost use Rattle.bandwidth_book.specs.Books.{StandsFor, links_of};
ghost use Rattle.bandwidth_book.specs.Reservation.{most};
ghost use Rattle.bandwidth_book.specs.Ledgers.{count, held_at};
ghost use Rattle.bandwidth_book.specs.Paths.{IsHeldBy};

use crate::book::Book;
use crate::ledgers::Ledgers;
use lsp_base::{Path, Tunnel};
use pcep_word::Priority;
use te_base::{Link, LinkNumber};

/// Finds the greatest bandwidth of a tunnel on a link.
fn maximum_at(ledgers: &Ledgers, tunnel: &Tunnel, link: LinkNumber, priority: Priority) -> u64
    ensures { result ≡ most (held_at ledgers.now link tunnel.now) priority }
{
    ledgers.share(*tunnel, link, priority.number())
}

/// Finds what a tunnel reserves on a link.
fn share_at(ledgers: &Ledgers, tunnel: &Tunnel, link: LinkNumber, priority: Priority) -> u64
    requires { link < count ledgers.now }
    ensures { (paths : List Path) → IsHeldBy (count ledgers.now) (held_at ledgers.now) paths
        → result ≡ share paths tunnel.now link priority }
{
    maximum_at(ledgers, tunnel, link, priority)
}

/// Lends the stored sums of a link.
pub(crate) fn sums_at(ledgers: &Ledgers, link: LinkNumber) -> &[u64; 8]
    requires { link < count ledgers.now }
    ensures reserved { (paths : List Path) → IsHeldBy (count ledgers.now) (held_at ledgers.now) paths
        → (p : ℕ) → p < 8 → slice_index result.now p ≡ reserved paths link p }
    ensures small { (p : ℕ) → p < 8 → slice_index result.now p < 2 ^ 63 - 2 ^ 48 }
{
    ledgers.sums(link)
}

/// Subtracts what is taken from an amount; the rest may be negative.
pub(crate) fn left_of(reservable: u64, sum: u64) -> i64
    requires reservable { reservable < 2 ^ 63 }
    requires sum { sum < 2 ^ 63 }
    ensures { result ≡ pos reservable -ℤ pos sum }
{
    reservable as i64 - sum as i64
}

/// Computes what is left of the reservable bandwidth of a link.
#[tactic(auto, unfolding(lsp_base::specs::Shares::unreserved))]
fn unreserved_at(links: &[Link], ledgers: &Ledgers, link: LinkNumber, priority: Priority) -> i64
    requires link { link < length links.now }
    requires ledger { link < count ledgers.now }
    requires small { reservable links.now link < 2 ^ 48 }
    ensures { (paths : List Path) → IsHeldBy (count ledgers.now) (held_at ledgers.now) paths
        → result ≡ unreserved links.now paths link priority }
{
    let sums = sums_at(ledgers, link);
    left_of(reservable_of(links, link), sums[priority.number() as usize])
}

/// Tests whether a bandwidth fits, given the tunnel's share and how much of the reservable bandwidth is taken.
fn has_room(bandwidth: u64, share: u64, reservable: u64, sum: u64) -> bool
    requires bandwidth { bandwidth < 2 ^ 48 }
    requires reservable { reservable < 2 ^ 48 }
    requires sum { sum < 2 ^ 63 - 2 ^ 48 }
    ensures { result ≡ (nat_le bandwidth share || int_le (pos 0) (pos reservable -ℤ pos (sum + (bandwidth - share)))) }
{
    if bandwidth <= share {
        return true;
    }
    left_of(reservable, sum + (bandwidth - share)) >= 0
}

/// Looks up what may be reserved on a link.
pub(crate) fn reservable_of(links: &[Link], link: LinkNumber) -> u64
    requires { link < length links.now }
    ensures { result ≡ reservable links.now link }
{
    links[link].reservable
}

/// Tests whether the path fits on a link at a priority at which it is held: its tunnel's share doesn't rise there, or
/// what it rises by is left.
fn fits_at(
    links: &[Link],
    ledgers: &Ledgers,
    path: &Path,
    link: LinkNumber,
    priority: Priority,
) -> bool
    requires link { link < length links.now }
    requires ledger { link < count ledgers.now }
    requires small { reservable links.now link < 2 ^ 48 }
    requires held { path.now.hold ≤ priority }
    requires has { has_link link path.now ≡ true }
    ensures { (paths : List Path) → IsHeldBy (count ledgers.now) (held_at ledgers.now) paths
        → result ≡ fits_at links.now paths path.now link priority }
{
    let sums = sums_at(ledgers, link);
    let reservable = reservable_of(links, link);
    let sum = sums[priority.number() as usize];
    let bandwidth = path.bandwidth.value();
    // if it fits without sharing anything, the tunnel's share isn't looked up
    if has_room(bandwidth, 0, reservable, sum) {
        return true;
    }
    let share = share_at(ledgers, &path.tunnel, link, priority);
    has_room(bandwidth, share, reservable, sum)
}

/// Tests whether the path fits on a link at each priority from holding to setup.
#[tactic(auto, using(crate::proofs::Fits::first_priority, crate::proofs::Fits::no_priority))]
fn fits_each(
    links: &[Link],
    ledgers: &Ledgers,
    path: &Path,
    link: LinkNumber,
    setup: Priority,
) -> bool
    requires link { link < length links.now }
    requires ledger { link < count ledgers.now }
    requires small { reservable links.now link < 2 ^ 48 }
    requires has { has_link link path.now ≡ true }
    ensures { (paths : List Path) → IsHeldBy (count ledgers.now) (held_at ledgers.now) paths
        → result ≡ list_all (fits_at links.now paths path.now link) (priorities path.now.hold setup) }
{
    for number in path.hold.number()..setup.number() + 1 {
        if !fits_at(links, ledgers, path, link, Priority::capped(number)) {
            return false;
        }
    }
    true
}

/// Tests whether a path, whose links these are, fits on each of them, and whether each exists.
#[tactic(auto, using(crate::proofs::Fits::has_at), unfolding(lsp_base::specs::Shares::fits))]
fn fits_on(
    links: &[Link],
    ledgers: &Ledgers,
    path: &Path,
    numbers: &[LinkNumber],
    setup: Priority,
) -> bool
    requires same { count ledgers.now ≡ length links.now }
    requires small { (l : ℕ) → reservable links.now l < 2 ^ 48 }
    requires numbers { numbers.now ≡ path.now.links }
    ensures { (paths : List Path) → IsHeldBy (count ledgers.now) (held_at ledgers.now) paths
        → result ≡ fits links.now paths path.now setup }
{
    for link in numbers {
        if *link >= links.len() || !fits_each(links, ledgers, path, *link, setup) {
            return false;
        }
    }
    true
}

impl Book {
    /// Finds what the tunnel reserves on the link at the priority, in bytes per second: the greatest bandwidth
    /// of its paths there that are held at the priority or a better one, or 0.
    pub fn share(&self, tunnel: &Tunnel, link: LinkNumber, priority: Priority) -> u64
        requires { link < length (links_of self.now) }
        ensures { (paths : List Path) → StandsFor self.now paths → result ≡ share paths tunnel.now link priority }
    {
        share_at(&self.ledgers, tunnel, link, priority)
    }

    /// Lends what all tunnels reserve on the link, in bytes per second: eight numbers, by priority, as they are
    /// stored.
    pub fn sums(&self, link: LinkNumber) -> &[u64; 8]
        requires { link < length (links_of self.now) }
        ensures { (paths : List Path) → StandsFor self.now paths → (p : ℕ) → p < 8 → slice_index result.now p ≡ reserved paths link p }
    {
        sums_at(&self.ledgers, link)
    }

    /// Computes what is left of the reservable bandwidth of the link at the priority, in bytes per second. It is below
    /// zero if more was reported than the link can carry.
    pub fn unreserved(&self, link: LinkNumber, priority: Priority) -> i64
        requires { link < length (links_of self.now) }
        ensures { (paths : List Path) → StandsFor self.now paths → result ≡ unreserved (links_of self.now) paths link priority }
    {
        unreserved_at(&self.links, &self.ledgers, link, priority)
    }

    /// Counts the links.
    pub fn link_count(&self) -> usize
        ensures { result ≡ length (links_of self.now) }
    {
        self.links.len()
    }

    /// Tests whether one more path with this setup priority fits. Its links must exist, and with it none may be below
    /// zero at a priority from holding to setup at which its tunnel reserves more than now.
    pub fn fits(&self, path: &Path, setup: Priority) -> bool
        ensures { (paths : List Path) → StandsFor self.now paths → result ≡ fits (links_of self.now) paths path.now setup }
    {
        fits_on(
            &self.links,
            &self.ledgers,
            path,
            path.links.as_slice(),
            setup,
        )
    }
}
