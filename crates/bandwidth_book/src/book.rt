//! What a book keeps.
ghost use Rattle.std.specs.Prelude.{◌≡◌, ◌<◌, ◌^◌, ℕ, length, true};
ghost use Rattle.lsp_base.specs.Shares.{reservable};
ghost use Rattle.te_snapshot.specs.Network.{AreLinksOf, with_links};
ghost use Rattle.bandwidth_book.specs.Ledgers.{count, held_at, promised_on};
ghost use Rattle.bandwidth_book.specs.Promises.{AreNoted};
ghost use Rattle.bandwidth_book.specs.Tables.{AreFresh, IsLeftOver};

use crate::ledgers::Ledgers;
use lsp_base::{Path, Tunnel};
use sequence::Sequence;
use std::alloc::Global;
use te_base::Link;
use te_snapshot::{Marks, Snapshot};

/// What paths reserve on each link of a network, as stored numbers. A contract says which lists of paths it stands for.
#[derive(Drop)]
pub struct Book {
    pub(crate) alloc: Global,
    /// The links with their current values.
    pub(crate) links: Vec<Link>,
    /// The last snapshot that was given out, which running searches share. It is never written.
    pub(crate) last: Snapshot,
    /// Whether it is current: no path and no value changed since.
    pub(crate) is_kept: bool,
    /// Whether its network has the current links.
    pub(crate) is_current: bool,
    /// The rows of its table whose links have changed since.
    pub(crate) marks: Marks,
    pub(crate) ledgers: Ledgers,
    /// The paths for which room was promised since the last change. An entry without paths exists only for one of
    /// these.
    pub(crate) pending: Sequence<Path>,
    ghost same: { AreLinksOf last.network links.items },
    ghost agree: { is_current ≡ true → last.network.links ≡ links.items },
    ghost sized: { count ledgers ≡ length links.items },
    ghost small: { (l : ℕ) → reservable links.items l < 2 ^ 48 },
    ghost current: { is_kept ≡ true → IsLeftOver (with_links last.network links.items) (count ledgers) (held_at ledgers) last },
    ghost fresh: { AreFresh links.items (held_at ledgers) marks last.unreserved },
    ghost noted: { AreNoted (count ledgers) (promised_on ledgers) pending },
}
