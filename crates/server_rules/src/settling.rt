//! When a server that has just started may grant paths.
ghost use Rattle.std.specs.Prelude.{◌≡◌, ◌==◌, ℕ, Bool, not, List, [], ◌∷◌, IfOk, length, map};
ghost use Rattle.std.specs.List.{list_all};
ghost use Rattle.server_rules.specs.Settled.{has_settled, is_in_sync, noted, awaited_after, Awaits};

use std::alloc::{AllocError, Global};

/// A router whose LSPs a server waits for before it grants paths.
#[derive(Clone, Copy)]
struct Awaited {
    address: u32,
    is_in_sync: bool,
}

/// The routers whose LSPs a server waits for before it grants paths, and for how long.
#[derive(Drop)]
pub struct Settling {
    until_ms: u64,
    routers: Vec<Awaited>,
}

/// Makes the list of the routers of these addresses, of which none is in sync yet.
fn all_awaited(alloc: Global, named: &[u32]) -> Result<Vec<Awaited>, AllocError>
    ensures { IfOk result (λ routers. routers.items ≡ map (awaited_after []) named.now) }
{
    let mut routers = Vec::with_capacity(alloc, named.len())?;
    for address in named {
        routers.push(Awaited {
            address: *address,
            is_in_sync: false,
        })?;
    }
    Ok(routers)
}

/// Returns the note of a router after the one of this address came in sync, or went down.
fn noted(address: u32, is_in_sync: bool, router: Awaited) -> Awaited
    ensures { result ≡ noted address is_in_sync router }
{
    Awaited {
        address: router.address,
        is_in_sync: if router.address == address {
            is_in_sync
        } else {
            router.is_in_sync
        },
    }
}

/// Notes that the router of this address came in sync, or went down.
fn note_all(routers: &mut Vec<Awaited>, address: u32, is_in_sync: bool)
    ensures { routers.new.items ≡ map (noted address is_in_sync) routers.old.items }
{
    for router in routers.iter_mut() {
        *router = noted(address, is_in_sync, *router);
    }
}

fn are_in_sync(routers: &[Awaited]) -> bool
    ensures { result ≡ list_all (λ router. router.is_in_sync) routers.now }
{
    routers.iter().all(|router| router.is_in_sync)
}

impl Settling {
    /// Makes the server wait until this moment, in milliseconds, or for these routers, if any are named.
    pub fn new(alloc: Global, named: &[u32], until_ms: u64) -> Result<Settling, AllocError>
        ensures { IfOk result (λ settling. Awaits settling named.now until_ms []) }
    {
        Ok(Settling {
            until_ms,
            routers: all_awaited(alloc, named)?,
        })
    }

    /// Notes that the router has reported all of its LSPs, or has gone down.
    pub fn note(&mut self, address: u32, is_in_sync: bool)
        ensures { (named : List ℕ) (until_ms : ℕ) (past : List (ℕ × Bool))
            → Awaits self.old named until_ms past → Awaits self.new named until_ms ((address, is_in_sync) ∷ past) }
    {
        note_all(&mut self.routers, address, is_in_sync);
    }

    /// Tests whether all routers that were named are in sync.
    fn are_in_sync(&self) -> bool
        ensures { (named : List ℕ) (until_ms : ℕ) (past : List (ℕ × Bool))
            → Awaits self.now named until_ms past → result ≡ list_all (is_in_sync past) named }
    {
        are_in_sync(&self.routers)
    }

    /// Tests whether routers were named.
    fn has_named(&self) -> bool
        ensures { (named : List ℕ) (until_ms : ℕ) (past : List (ℕ × Bool))
            → Awaits self.now named until_ms past → result ≡ not (length named == 0) }
    {
        !self.routers.is_empty()
    }

    /// Tests whether paths may be granted at this moment.
    pub fn has_settled(&self, now_ms: u64) -> bool
        ensures { (named : List ℕ) (until_ms : ℕ) (past : List (ℕ × Bool))
            → Awaits self.now named until_ms past → result ≡ has_settled named until_ms past now_ms }
    {
        self.until_ms <= now_ms || (self.has_named() && self.are_in_sync())
    }
}
