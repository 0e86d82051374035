//! The last error that a router sent for each LSP.
ghost use Rattle.std.specs.Prelude.{◌≡◌, ◌≤◌, ◌<◌, [], ◌∷◌, true, false, List, Some, None, OnOk, OnErr, IsOk, IsErr, is_some, length};
ghost use Rattle.server_rules.specs.PcErrs.{Adds, IsSame, Knows, error_from, error_in, forgets, needs_room};
ghost use Rattle.server_rules.specs.declared.peer_errors.PcErrHappening.{PcErrHappening};
ghost use Rattle.server_rules.specs.declared.peer_errors.PcErrHappening.TheVariants.{Sent, LspRemoved};

use crate::retry::RouterLsp;
use indexmap::IndexMap;
use std::alloc::{AllocError, Global};

/// The most LSPs that have an error noted: as many paths may stand. Each takes some 20 bytes, so all take some 1 MB
/// with the spare room of the map.
const MOST_LSPS: usize = 16384;

/// A PCErr: its Error-Type and its Error-value (RFC 5440 section 7.15).
#[derive(Clone, Copy, PartialEq, Eq, Debug)]
pub struct PcErr {
    pub kind: u8,
    pub value: u8,
}

/// What happens to LSPs and to their routers.
#[derive(Clone, Copy, PartialEq, Eq, Debug)]
pub enum PcErrHappening {
    /// The router sent this error for what was asked of the LSP.
    Sent { of: RouterLsp, error: PcErr },
    /// The LSP no longer stands.
    LspRemoved { of: RouterLsp },
    /// A session of the router came up; PLSP-IDs belong to one session.
    Up { peer: u32 },
    /// The router was forgotten.
    Expired { peer: u32 },
}

/// The last error of each LSP.
#[derive(Drop)]
pub struct PeerErrors {
    errors: IndexMap<RouterLsp, PcErr>,
}

impl PeerErrors {
    /// Makes an empty table. Takes no memory.
    pub fn new(alloc: Global) -> PeerErrors
        ensures { Knows result [] }
    {
        PeerErrors {
            errors: IndexMap::new(alloc),
        }
    }

    /// Returns the last error that its router sent for an LSP, while the LSP stands.
    pub fn of(&self, lsp: RouterLsp) -> Option<PcErr>
        ensures table { result ≡ error_in self.now lsp }
        ensures past { (past : List PcErrHappening) → Knows self.now past → result ≡ error_from past lsp }
    {
        self.errors.get(&lsp).copied()
    }

    /// Tests whether there is no room for an LSP.
    fn is_full_for(&self, lsp: RouterLsp) -> bool
        ensures full { result ≡ true → (error_in self.now lsp ≡ None) × (16384 ≤ length self.now.errors.entries) }
        ensures room { result ≡ false → error_in self.now lsp ≡ None → length self.now.errors.entries < 16384 }
    {
        self.errors.len() >= MOST_LSPS && !self.errors.contains_key(&lsp)
    }

    /// Notes that the router sent an error for an LSP.
    fn sent(&mut self, of: RouterLsp, error: PcErr) -> Result<(), AllocError>
        ensures ok { OnOk result (Adds self.old self.new (Sent of error)) }
        ensures err { OnErr result (IsSame self.old self.new) }
        ensures room { is_some (error_in self.old of) ≡ true → IsOk result }
        ensures full { error_in self.old of ≡ None → 16384 ≤ length self.old.errors.entries → IsErr result }
    {
        if self.is_full_for(of) {
            return Err(AllocError);
        }
        self.errors.insert(of, error)?;
        Ok(())
    }

    /// Removes the error of an LSP that no longer stands.
    fn remove(&mut self, of: RouterLsp)
        ensures { Adds self.old self.new (LspRemoved of) }
    {
        let _error = self.errors.swap_remove(&of);
    }

    /// Removes the errors of a router's LSPs.
    fn forget(&mut self, peer: u32)
        ensures { (what : PcErrHappening) → forgets what ≡ Some peer → Adds self.old self.new what }
    {
        self.errors.retain(|of, _error| of.peer != peer);
    }

    /// Notes what happened. If memory runs out, nothing is noted. If errors of 16,384 LSPs are noted, no error of
    /// another one is.
    pub fn note(&mut self, what: PcErrHappening) -> Result<(), AllocError>
        ensures ok { OnOk result (Adds self.old self.new what) }
        ensures err { OnErr result (IsSame self.old self.new) }
        ensures room { needs_room self.old what ≡ false → IsOk result }
        ensures full { needs_room self.old what ≡ true → 16384 ≤ length self.old.errors.entries → IsErr result }
    {
        match what {
            PcErrHappening::Sent { of, error } => self.sent(of, error),
            PcErrHappening::LspRemoved { of } => {
                self.remove(of);
                Ok(())
            }
            PcErrHappening::Up { peer } => {
                self.forget(peer);
                Ok(())
            }
            PcErrHappening::Expired { peer } => {
                self.forget(peer);
                Ok(())
            }
        }
    }
}
