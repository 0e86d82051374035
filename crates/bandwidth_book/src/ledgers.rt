//! The ledgers of all links.
ghost use Rattle.std.specs.Prelude.{◌<◌, ◌≤◌, ◌^◌, ℕ, length};
ghost use Rattle.std.proofs.lemmas.Map.Keys.{IsDistinct-prop};
ghost use Rattle.indexmap.specs.IndexMap.{IsUnique, keys};
ghost use Rattle.lsp_base.specs.declared.tunnel.Tunnel.{Tunnel};
ghost use Rattle.bandwidth_book.specs.Entries.{IsBusy, held_in};
ghost use Rattle.bandwidth_book.specs.Reservation.{most};
ghost use Rattle.bandwidth_book.specs.Tunnels.{AreSums, HasNoEmptyList, entry_of, tunnel_eq};

use crate::link_entries::LinkEntries;
use indexmap::IndexMap;
use lsp_base::Tunnel;

/// What tunnels hold, by tunnel and link, and on each link, at each priority, the sum of their greatest
/// bandwidths.
#[derive(Drop)]
pub struct Ledgers {
    pub(crate) tunnels: IndexMap<Tunnel, LinkEntries>,
    pub(crate) sums: Vec<[u64; 8]>,
    /// The place of the tunnel that was found last, which is only a hint: any number would do.
    pub(crate) last: usize,
    ghost summed: { AreSums sums.items tunnels.entries },
    ghost few: { length tunnels.entries ≤ 30000 },
    ghost small: { (l : ℕ) (t : Tunnel) (p : ℕ) → l < length sums.items → most (held_in (entry_of tunnels.entries l t)) p < 2 ^ 48 },
    ghost busy: { (l : ℕ) (t : Tunnel) → l < length sums.items → IsBusy (entry_of tunnels.entries l t) },
    ghost full: { HasNoEmptyList tunnels.entries },
    ghost unique: { IsUnique tunnel_eq tunnels } by { IsDistinct-prop tunnel_eq (keys tunnels) },
}
