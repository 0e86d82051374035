//! What tunnels hold, by tunnel, and how a path changes it and the sums of its links. A link that doesn't exist holds
//! nothing, and a path's part on it is skipped.
ghost use Rattle.std.specs.Prelude.{◌≡◌, ◌<◌, ◌≤◌, ◌+◌, ◌-◌, ◌^◌, [], ℕ, length, slice_get, slice_index, None, Some, IfOk, IsOk, OnOk, true, false, OnErr, cond};
ghost use Rattle.std.specs.Map.{lookup};
ghost use Rattle.indexmap.specs.IndexMap.{IsUnique, get, insert_entry, keys, values};
ghost use Rattle.lsp_base.specs.declared.tunnel.Tunnel.{Tunnel};
ghost use Rattle.bandwidth_book.specs.Entries.{AreRising, IsMoved, held_in, promised_in};
ghost use Rattle.bandwidth_book.specs.Reservation.{most, promised_after, room_for, takes_memory};
ghost use Rattle.bandwidth_book.specs.Ledgers.{count, entry_at, held_at, promised_on};
ghost use Rattle.bandwidth_book.specs.Tunnels.{AreSums, HasNoEmptyList, entries_in, entry_of, held_by_links, held_by_path, most_on, sum_at, total, tunnel_eq};

use crate::ledgers::Ledgers;
use crate::link_entries::{LinkEntries, LinkEntry};
use crate::reservation::{BookOp, Reservation};
use indexmap::IndexMap;
use lsp_base::Tunnel;
use std::alloc::{AllocError, Global};
use te_base::LinkNumber;

/// How many tunnels can have entries: nearly twice as many as there can be paths. So the sum of their maxima on a link
/// stays far enough below 2^63 for one more path.
const TUNNEL_LIMIT: usize = 30_000;

/// The room that is made with the first tunnel: one for each path, and 64 for what a change adds before it drops
/// others. So no event moves all tunnels.
const FIRST_ROOM: usize = 16_448;

/// Inserts a tunnel that isn't there yet.
fn insert_tunnel(
    tunnels: &mut IndexMap<Tunnel, LinkEntries>,
    tunnel: Tunnel,
    entries: LinkEntries,
) -> Result<(), AllocError>
    ensures entries { OnOk result (tunnels.new.entries ≡ insert_entry tunnel_eq tunnels.old.entries tunnel entries) }
    ensures updates { OnOk result ((t : Tunnel) → lookup (tunnel_eq t) tunnels.new.entries ≡ cond (tunnel_eq tunnel t) (Some entries) (lookup (tunnel_eq t) tunnels.old.entries)) }
    ensures err { OnErr result (tunnels.new.entries ≡ tunnels.old.entries) }
    ensures count { length tunnels.new.entries ≤ length tunnels.old.entries + 1 }
    ensures unique { IsUnique tunnel_eq tunnels.new }
{
    tunnels.reserve(FIRST_ROOM.saturating_sub(tunnels.len()).max(1))?;
    tunnels.insert(tunnel, entries)?;
    Ok(())
}

/// Inserts the first entries of a tunnel, with room for one on each of a path's links. Fails if `TUNNEL_LIMIT` tunnels
/// have entries already.
#[tactic(auto, using(crate::proofs::Moved::no_room_for, crate::proofs::Moved::refused))]
fn put_tunnel(
    alloc: Global,
    tunnels: &mut IndexMap<Tunnel, LinkEntries>,
    sums: &mut [[u64; 8]],
    tunnel: Tunnel,
    links: &[LinkNumber],
    op: BookOp,
    held: Reservation,
) -> Result<(), AllocError>
    requires sums { AreSums sums.old tunnels.old.entries }
    requires small { (l p : ℕ) → l < length sums.old → p < 8 → sum_at sums.old l p < 2 ^ 63 - 2 ^ 48 }
    requires least { (l : ℕ) (t : Tunnel) (p : ℕ) → l < length sums.old → most (held_in (entry_of tunnels.old.entries l t)) p < 2 ^ 48 }
    requires below { held.bandwidth < 2 ^ 48 }
    requires full { HasNoEmptyList tunnels.old.entries }
    requires none { get tunnel_eq tunnels.old tunnel ≡ None }
    requires promise { takes_memory op ≡ true }
    ensures sums { AreSums sums.new tunnels.new.entries }
    ensures rows { length sums.new ≡ length sums.old }
    ensures few { length tunnels.old.entries ≤ 30000 → length tunnels.new.entries ≤ 30000 }
    ensures moved { (l : ℕ) (t : Tunnel) → l < length sums.old → IsMoved op (held_by_path tunnel held l t links.now) (entry_of tunnels.old.entries l t) (entry_of tunnels.new.entries l t) }
    ensures past { (l : ℕ) (t : Tunnel) → length sums.old ≤ l → held_in (entry_of tunnels.new.entries l t) ≡ held_in (entry_of tunnels.old.entries l t) }
    ensures ok { OnOk result ((l : ℕ) (t : Tunnel) → l < length sums.old → promised_after op (length (held_by_path tunnel held l t links.now)) (promised_in (entry_of tunnels.old.entries l t)) ≤ promised_in (entry_of tunnels.new.entries l t)) }
    ensures full { HasNoEmptyList tunnels.new.entries }
    ensures unique { IsUnique tunnel_eq tunnels.new }
{
    if tunnels.len() >= TUNNEL_LIMIT {
        return Err(AllocError);
    }
    let mut entries = LinkEntries::with_room(alloc, links.len())?;
    entries.move_links(alloc, sums, links, op, held)?;
    if !entries.is_empty() {
        insert_tunnel(tunnels, tunnel, entries)?;
    }
    Ok(())
}

/// Finds the place of a tunnel, looking first where one was found last. Returns the end if it isn't there.
fn place_of(tunnels: &IndexMap<Tunnel, LinkEntries>, last: usize, tunnel: &Tunnel) -> usize
    ensures key { (t : Tunnel) → slice_get (keys tunnels.now) result ≡ Some t → t ≡ tunnel.now }
    ensures value { slice_get (values tunnels.now) result ≡ get tunnel_eq tunnels.now tunnel.now }
{
    match tunnels.get_index(last) {
        Some((found, _)) if found == tunnel => last,
        _ => tunnels.get_index_of(tunnel).unwrap_or(tunnels.len()),
    }
}

/// Moves what a path holds in the entries of its tunnel, and the sums. Removes a tunnel that is left with no entry. The
/// tunnel is looked up unless it is the one that was found last.
pub fn move_in_tunnel(
    alloc: Global,
    tunnels: &mut IndexMap<Tunnel, LinkEntries>,
    sums: &mut [[u64; 8]],
    last: &mut usize,
    tunnel: Tunnel,
    links: &[LinkNumber],
    op: BookOp,
    held: Reservation,
) -> Result<(), AllocError>
    requires sums { AreSums sums.old tunnels.old.entries }
    requires small { (l p : ℕ) → l < length sums.old → p < 8 → sum_at sums.old l p < 2 ^ 63 - 2 ^ 48 }
    requires least { (l : ℕ) (t : Tunnel) (p : ℕ) → l < length sums.old → most (held_in (entry_of tunnels.old.entries l t)) p < 2 ^ 48 }
    requires below { held.bandwidth < 2 ^ 48 }
    requires full { HasNoEmptyList tunnels.old.entries }
    requires room { (l : ℕ) → l < length sums.old → room_for op (length (held_by_links held l links.now)) ≤ promised_in (entry_of tunnels.old.entries l tunnel) }
    ensures sums { AreSums sums.new tunnels.new.entries }
    ensures rows { length sums.new ≡ length sums.old }
    ensures few { length tunnels.old.entries ≤ 30000 → length tunnels.new.entries ≤ 30000 }
    ensures moved { (l : ℕ) (t : Tunnel) → l < length sums.old → IsMoved op (held_by_path tunnel held l t links.now) (entry_of tunnels.old.entries l t) (entry_of tunnels.new.entries l t) }
    ensures past { (l : ℕ) (t : Tunnel) → length sums.old ≤ l → held_in (entry_of tunnels.new.entries l t) ≡ held_in (entry_of tunnels.old.entries l t) }
    ensures ok { OnOk result ((l : ℕ) (t : Tunnel) → l < length sums.old → promised_after op (length (held_by_path tunnel held l t links.now)) (promised_in (entry_of tunnels.old.entries l t)) ≤ promised_in (entry_of tunnels.new.entries l t)) }
    ensures sure { takes_memory op ≡ false → IsOk result }
    ensures full { HasNoEmptyList tunnels.new.entries }
    ensures unique { IsUnique tunnel_eq tunnels.new }
{
    let place = place_of(tunnels, *last, &tunnel);
    *last = place;
    if let Some(entries) = tunnels.get_index_mut(place) {
        let moved = entries.move_links(alloc, sums, links, op, held);
        if entries.is_empty() {
            tunnels.swap_remove_index(place);
        }
        return moved;
    }
    if op.takes_memory() {
        put_tunnel(alloc, tunnels, sums, tunnel, links, op, held)
    } else {
        Ok(())
    }
}

/// Makes `count` rows of sums, each of zeros.
pub fn empty_sums(alloc: Global, count: usize) -> Result<Vec<[u64; 8]>, AllocError>
    ensures count { IfOk result (λ sums. length sums.items ≡ count) }
    ensures nothing { IfOk result (λ sums. (l p : ℕ) → l < count → p < 8 → sum_at sums.items l p ≡ 0) }
{
    let mut sums = Vec::with_capacity(alloc, count)?;
    for _ in 0..count {
        sums.push([0; 8])?;
    }
    Ok(sums)
}

impl Ledgers {
    /// Makes ledgers of `links` links, on which nothing is held.
    pub fn new(alloc: Global, links: usize) -> Result<Self, AllocError>
        ensures count { IfOk result (λ ledgers. count ledgers ≡ links) }
        ensures entries { IfOk result (λ ledgers. (l : ℕ) (t : Tunnel) → entry_at ledgers l t ≡ None) }
    {
        let sums = empty_sums(alloc, links)?;
        Ok(Ledgers {
            tunnels: IndexMap::new(alloc),
            sums,
            last: 0,
        })
    }

    /// Counts the links.
    pub fn count(&self) -> usize
        ensures { result ≡ count self.now }
    {
        self.sums.len()
    }

    /// Moves what a path holds on each of its links. Only a promise can fail, if memory runs out.
    pub fn move_path(
        &mut self,
        alloc: Global,
        tunnel: Tunnel,
        path: &[LinkNumber],
        op: BookOp,
        held: Reservation,
    ) -> Result<(), AllocError>
        requires small { held.bandwidth < 2 ^ 48 }
        requires room { (l : ℕ) (t : Tunnel) → l < count self.old → room_for op (length (held_by_path tunnel held l t path.now)) ≤ promised_on self.old l t }
        ensures count { count self.new ≡ count self.old }
        ensures moved { (l : ℕ) (t : Tunnel) → l < count self.old → IsMoved op (held_by_path tunnel held l t path.now) (entry_at self.old l t) (entry_at self.new l t) }
        ensures past { (l : ℕ) (t : Tunnel) → count self.old ≤ l → held_at self.new l t ≡ held_at self.old l t }
        ensures ok { OnOk result ((l : ℕ) (t : Tunnel) → l < count self.old → promised_after op (length (held_by_path tunnel held l t path.now)) (promised_on self.old l t) ≤ promised_on self.new l t) }
        ensures sure { takes_memory op ≡ false → IsOk result }
    {
        move_in_tunnel(
            alloc,
            &mut self.tunnels,
            &mut self.sums,
            &mut self.last,
            tunnel,
            path,
            op,
            held,
        )
    }

    /// Lends the stored sums of a link.
    pub fn sums(&self, link: LinkNumber) -> &[u64; 8]
        requires { link < count self.now }
        ensures summed { (p : ℕ) → p < 8 → slice_index result.now p ≡ total (most_on link p) self.now.tunnels.entries }
        ensures unique { IsUnique tunnel_eq self.now.tunnels }
        ensures small { (p : ℕ) → p < 8 → slice_index result.now p < 2 ^ 63 - 2 ^ 48 }
    {
        &self.sums[link]
    }

    /// Looks up the greatest bandwidth of the tunnel's paths on a link that are held at the priority or a better one, or 0.
    pub fn share(&self, tunnel: Tunnel, link: LinkNumber, priority: u8) -> u64
        requires { priority < 8 }
        ensures { result ≡ most (held_at self.now link tunnel) priority }
    {
        match self.tunnels.get(&tunnel) {
            Some(entries) => entries.share(link, priority),
            None => 0,
        }
    }

    /// Lends the tunnel's entries, in the order of their links, at most one for each.
    pub fn entries(&self, tunnel: Tunnel) -> &[LinkEntry]
        ensures entries { result.now ≡ entries_in (lookup (tunnel_eq tunnel) self.now.tunnels.entries) }
        ensures rising { AreRising result.now }
    {
        match self.tunnels.get(&tunnel) {
            Some(entries) => entries.as_slice(),
            None => &[],
        }
    }
}
