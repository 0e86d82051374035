//! Who holds LSPs, asked when one router is too many.
ghost use Rattle.std.specs.Prelude.{◌≡◌, ◌++◌, map, IfOk, OnOk};
ghost use Rattle.step_core.specs.States.{is_known};
ghost use Rattle.server_base.specs.Holders.{is_known_or_fits, holders_in};

use history_core::Database;
use lsp_base::{LspBase, Path, Record};
use std::alloc::{AllocError, Global};
use step_core::{PEER_LIMIT, Peer};

/// The peers that hold LSPs: one for each record and each path.
#[derive(Drop)]
pub(crate) struct Holders {
    pub peers: Vec<u32>,
}

/// Sees who holds LSPs, if the peer isn't known and there is no room for one more.
#[derive(Clone, Copy)]
pub(crate) struct HoldersLook {
    pub peer: u32,
}

impl database_looks::Look for HoldersLook {
    ghost use Rattle.server_base.specs.Holders.{SeesHolders};

    type Seen = Option<Holders>;

    ghost sees = { λ look d seen. SeesHolders look.peer d seen };

    fn see(&self, alloc: Global, database: &Database) -> Result<Option<Holders>, AllocError> {
        let state = database.state();
        if is_known_or_fits(state.peers(), self.peer) {
            return Ok(None);
        }
        Ok(Some(Holders {
            peers: holders_in(alloc, state.lsps())?,
        }))
    }
}

/// Tests whether the peer is known.
fn is_known(peers: &[Peer], peer: u32) -> bool
    ensures { result ≡ is_known peers.now peer }
{
    for known in peers {
        if known.number == peer {
            return true;
        }
    }
    false
}

/// Tests whether the peer is known, or there is room for one more.
fn is_known_or_fits(peers: &[Peer], peer: u32) -> bool
    ensures { result ≡ is_known_or_fits peers.now peer }
{
    is_known(peers, peer) || peers.len() < PEER_LIMIT
}

/// Adds the peer of each record.
fn add_owners_of_records(holders: &mut Vec<u32>, records: &[Record]) -> Result<(), AllocError>
    ensures { OnOk result (holders.new.items ≡ holders.old.items ++ map (λ r. r.peer) records.now) }
{
    for known in records {
        holders.push(known.peer)?;
    }
    Ok(())
}

/// Adds the peer of each path.
fn add_owners_of_paths(holders: &mut Vec<u32>, paths: &[Path]) -> Result<(), AllocError>
    ensures { OnOk result (holders.new.items ≡ holders.old.items ++ map (λ x. x.peer) paths.now) }
{
    for path in paths {
        holders.push(path.peer)?;
    }
    Ok(())
}

/// Returns the peer of each record and of each path.
fn holders_in(alloc: Global, lsps: &LspBase) -> Result<Vec<u32>, AllocError>
    ensures { IfOk result (λ holders. holders.items ≡ holders_in lsps.now.content) }
{
    let mut holders = Vec::with_capacity(alloc, lsps.records().len())?;
    add_owners_of_records(&mut holders, lsps.records())?;
    add_owners_of_paths(&mut holders, lsps.paths())?;
    Ok(holders)
}
