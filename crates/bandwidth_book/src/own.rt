//! What a tunnel holds already, for a search for one of its paths.
ghost use Rattle.std.specs.Prelude.{◌≡◌, ◌<◌, ◌≤◌, ◌++◌, ◌∷◌, [], ℕ, List, cond, length, IfOk, OnOk};
ghost use Rattle.lsp_base.specs.Shares.{share};
ghost use Rattle.lsp_base.specs.declared.path.Path.{Path};
ghost use Rattle.te_snapshot.specs.Own.{is_something, own_share_on, own_shares};
ghost use Rattle.te_snapshot.specs.Room.{own_share};
ghost use Rattle.bandwidth_book.specs.Books.{StandsFor, links_of};
ghost use Rattle.bandwidth_book.specs.Reservation.{Reservation};
ghost use Rattle.bandwidth_book.specs.Reservation.{AreMaxima, times};
ghost use Rattle.bandwidth_book.specs.Ledgers.{count, held_at};
ghost use Rattle.lsp_base.specs.declared.tunnel.Tunnel.{Tunnel};
ghost use Rattle.bandwidth_book.specs.Links.{own_among};
ghost use Rattle.bandwidth_book.specs.Paths.{IsHeldBy, held_by};

use crate::book::Book;
use crate::ledgers::Ledgers;
use crate::link_entries::LinkEntry;
use lsp_base::Tunnel;
use sequence::Sequence;
use std::alloc::{AllocError, Global};
use te_snapshot::{OwnShare, OwnShares};

/// Finds the greatest bandwidths of an entry.
fn maxima_in(entry: &LinkEntry) -> [u64; 8]
    ensures { AreMaxima result entry.now.entry.held }
{
    entry.entry.maxima()
}

/// Computes what a tunnel reserves on the link of one of its entries at each priority.
fn own_of(entry: &LinkEntry) -> OwnShare
    ensures { (paths : List Path) (t : Tunnel) → ((h : Reservation) → times h entry.now.entry.held ≡ times h (held_by entry.now.link t paths))
        → result ≡ own_share_on paths t entry.now.link }
{
    OwnShare {
        link: entry.link,
        shares: maxima_in(entry),
    }
}

/// Lists a share if it reserves something.
fn list_if_some(own: &mut Vec<OwnShare>, held: OwnShare) -> Result<(), AllocError>
    ensures { OnOk result (own.new.items ≡ own.old.items ++ cond (is_something held) (held ∷ []) []) }
{
    if held.shares[7] > 0 {
        own.push(held)?;
    }
    Ok(())
}

/// Appends what a tunnel reserves on the link of one of its entries, if the link exists and it isn't 0.
fn list_entry(own: &mut Vec<OwnShare>, count: usize, entry: &LinkEntry) -> Result<(), AllocError>
    ensures { OnOk result ((paths : List Path) (t : Tunnel) → ((h : Reservation) → entry.now.link < count → times h entry.now.entry.held ≡ times h (held_by entry.now.link t paths))
        → own.new.items ≡ own.old.items ++ own_among paths t count (entry.now.link ∷ [])) }
{
    if entry.link < count {
        list_if_some(own, own_of(entry))?;
    }
    Ok(())
}

/// Counts the links on which something is held.
fn filled(entries: &[LinkEntry]) -> usize
    ensures { result ≤ length entries.now }
{
    entries
        .iter()
        .filter(|entry| !entry.entry.is_empty())
        .count()
}

/// Lists what a tunnel reserves on each link on which it reserves something. It counts the entries first, so that the
/// list is allocated at once and doesn't grow.
fn own_on(alloc: Global, ledgers: &Ledgers, tunnel: &Tunnel) -> Result<Vec<OwnShare>, AllocError>
    ensures { IfOk result (λ own. (paths : List Path) → IsHeldBy (count ledgers.now) (held_at ledgers.now) paths
        → own.items ≡ own_shares paths tunnel.now (count ledgers.now)) }
{
    let entries = ledgers.entries(*tunnel);
    let mut own = Vec::new(alloc);
    own.reserve(filled(entries))?;
    for entry in entries {
        list_entry(&mut own, ledgers.count(), entry)?;
    }
    Ok(own)
}

impl Book {
    /// Lists what the tunnel reserves already, in bytes per second for each priority: the links on which it reserves
    /// something, in the order of their numbers, each once. A search for a path of the tunnel takes this list: on a
    /// link that is not listed the tunnel reserves nothing. If memory runs out, the book is as it was, since it is only
    /// read.
    pub fn own_shares(&self, tunnel: &Tunnel) -> Result<OwnShares, AllocError>
        ensures listed { IfOk result (λ own. (paths : List Path) → StandsFor self.now paths → own ≡ own_shares paths tunnel.now (length (links_of self.now))) }
        ensures shares { IfOk result (λ own. (paths : List Path) → StandsFor self.now paths → (l p : ℕ) → l < length (links_of self.now) → p < 8
            → own_share own l p ≡ share paths tunnel.now l p) }
    {
        let own = own_on(self.alloc, &self.ledgers, tunnel)?;
        Ok(Sequence::from_vec(own))
    }
}
