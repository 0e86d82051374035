//! A dry run: where LSPs would go if a link went away.
ghost use Rattle.std.specs.Prelude.{◌≡◌, ◌<◌, ◌==◌, ◌++◌, ◌∷◌, [], ℕ, ℤ, List, false, not, length, true, IfOk, IfSome, IfNone, OnOk};
ghost use Rattle.std.specs.Arc.{arc_value};
ghost use Rattle.std.specs.List.{list_any};
ghost use Rattle.te_snapshot.specs.Network.{state_of};
ghost use Rattle.path_looks.specs.Moves.{held_elsewhere, left_beside, moved, open_row, row_beside, taken, taken_row, uses, without_link, IsClosed, IsPlaced, IsUnplaced, Tried};
ghost use Rattle.path_looks.specs.declared.moves.Mover.{Mover as Trial};

use lsp_base::Constraints;
use lsp_words::Plsp;
use path_finder::{Found, find};
use pcep_word::Priority;
use sequence::Sequence;
use std::alloc::{AllocError, Global};
use std::sync::Arc;
use te_base::LinkNumber;
use te_snapshot::{OwnShare, OwnShares, Snapshot, Table, Topology, own_share};

/// An LSP that should go elsewhere: what it asks for, and what its tunnel holds.
#[derive(Drop)]
pub struct Mover {
    pub peer: u32,
    pub plsp: Plsp,
    pub wanted: Constraints,
    pub own: OwnShares,
}

/// Where an LSP would go. `None` if it finds no place.
#[derive(Drop)]
pub struct Move {
    pub peer: u32,
    pub plsp: Plsp,
    pub wanted: Constraints,
    pub path: Option<Found>,
}

/// Reads the row of a link. Nothing is left on the closed one.
fn open_row(closed: LinkNumber, table: &Table, link: LinkNumber) -> [i64; 8]
    requires { link < length table.now }
    ensures { result ≡ open_row closed table.now link }
{
    if link == closed {
        return [0i64; 8];
    }
    match table.get(link) {
        Some(row) => *row,
        None => unreachable!(),
    }
}

/// Copies the table with nothing left on the closed link.
#[tactic(auto, unfolding(crate::specs::Moves::without_link), using(crate::proofs::Rows::one_row_more))]
fn without_link(
    alloc: Global,
    closed: LinkNumber,
    table: &Table,
    count: usize,
) -> Result<Vec<[i64; 8]>, AllocError>
    requires { count ≡ length table.now }
    ensures rows { IfOk result (λ rows. rows.items ≡ without_link closed table.now) }
    ensures whole { IfOk result (λ rows. length rows.items ≡ length table.now) }
{
    let mut rows = Vec::with_capacity(alloc, count)?;
    for link in 0..count {
        rows.push(open_row(closed, table, link))?;
    }
    Ok(rows)
}

/// Tests whether a share is held on another link.
fn is_elsewhere(closed: LinkNumber, held: &OwnShare) -> bool
    ensures { result ≡ not (held.now.link == closed) }
{
    held.link != closed
}

/// Copies what a tunnel holds on other links.
fn held_elsewhere(
    alloc: Global,
    closed: LinkNumber,
    own: &[OwnShare],
) -> Result<Vec<OwnShare>, AllocError>
    ensures { IfOk result (λ held. held.items ≡ held_elsewhere closed own.now) }
{
    let mut held = Vec::new(alloc);
    for share in own {
        if is_elsewhere(closed, share) {
            held.push(*share)?;
        }
    }
    Ok(held)
}

/// Reads what is left of a link at a priority after a path of the LSP takes it.
fn left_beside(mover: &Mover, link: LinkNumber, left: &[i64; 8], priority: usize) -> i64
    requires { priority < 8 }
    ensures { result ≡ left_beside mover.now link left.now priority }
{
    let level = Priority::capped(priority as u8);
    if mover.wanted.priorities.hold().number() as usize > priority {
        return left[priority];
    }
    let held = own_share(mover.own.as_slice(), link, level);
    let newly = mover.wanted.bandwidth.value().saturating_sub(held);
    left[priority].saturating_sub(newly as i64)
}

/// Reads what is left of a link after a path of the LSP takes it.
fn row_beside(mover: &Mover, link: LinkNumber, left: &[i64; 8]) -> [i64; 8]
    ensures { result ≡ row_beside mover.now link left.now }
{
    let mut row = [0i64; 8];
    for priority in 0..8usize {
        row[priority] = left_beside(mover, link, left, priority);
    }
    row
}

/// Tests whether a path uses a link.
fn uses(links: &[LinkNumber], link: LinkNumber) -> bool
    ensures { result ≡ list_any (λ l. l == link) links.now }
{
    links.iter().any(|number| *number == link)
}

/// Reads what is left of a link after a path over these links takes them.
fn taken_row(mover: &Mover, links: &[LinkNumber], table: &[[i64; 8]], link: LinkNumber) -> [i64; 8]
    requires { link < length table.now }
    ensures { result ≡ taken_row mover.now links.now table.now link }
{
    if uses(links, link) {
        row_beside(mover, link, &table[link])
    } else {
        table[link]
    }
}

/// Copies the table as it is after a path over these links takes them.
#[tactic(auto, unfolding(crate::specs::Moves::taken), using(crate::proofs::Rows::one_row_more))]
fn taken(
    alloc: Global,
    mover: &Mover,
    links: &[LinkNumber],
    table: &[[i64; 8]],
) -> Result<Vec<[i64; 8]>, AllocError>
    ensures rows { IfOk result (λ rows. rows.items ≡ taken mover.now links.now table.now) }
    ensures whole { IfOk result (λ rows. length rows.items ≡ length table.now) }
{
    let mut rows = Vec::with_capacity(alloc, table.len())?;
    for link in 0..table.len() {
        rows.push(taken_row(mover, links, table, link))?;
    }
    Ok(rows)
}

/// Joins a network with a copy of a table.
fn snapshot_over(
    alloc: Global,
    topology: &Arc<Topology, Global>,
    table: &[[i64; 8]],
) -> Result<Snapshot, AllocError>
    requires { length table.now ≡ length (arc_value topology.now).links }
    ensures { IfOk result (λ s. s ≡ state_of (arc_value topology.now) table.now) }
{
    let rows = table.to_vec(alloc)?;
    match Arc::try_clone(topology) {
        Ok(topology) => Snapshot::new(alloc, topology, rows),
        Err(error) => {
            drop(rows);
            Err(error)
        }
    }
}

/// Tests whether a path that was found uses a link.
fn goes_over(path: &Found, link: LinkNumber) -> bool
    ensures { result ≡ uses link path.now }
{
    uses(path.links.as_slice(), link)
}

/// Leaves out a path that uses the link.
fn avoiding(closed: LinkNumber, found: Option<Found>) -> Option<Found>
    ensures same { IfSome result (λ path. found ≡ Some path) }
    ensures avoids { IfSome result (λ path. uses closed path ≡ false) }
    ensures over { IfNone result (IfSome found (λ path. uses closed path ≡ true)) }
{
    match found {
        Some(path) => {
            if goes_over(&path, closed) {
                None
            } else {
                Some(path)
            }
        }
        None => None,
    }
}

/// Searches for a path of an LSP that doesn't use the closed link, on which nothing is left.
#[tactic(auto, using(crate::proofs::Closing::refused_outright))]
fn search(
    alloc: Global,
    topology: &Arc<Topology, Global>,
    table: &[[i64; 8]],
    closed: LinkNumber,
    mover: &Mover,
) -> Result<Option<Found>, AllocError>
    requires whole { length table.now ≡ length (arc_value topology.now).links }
    requires closed { IsClosed closed table.now }
    ensures placed { IfOk result (λ found. IfSome found (IsPlaced (arc_value topology.now) closed table.now mover.now)) }
    ensures unplaced { IfOk result (λ found. IfNone found (IsUnplaced (arc_value topology.now) closed table.now mover.now)) }
{
    // only for the proof: there is a priority from holding to setup
    let _hold = mover.wanted.priorities.hold();
    let snapshot = snapshot_over(alloc, topology, table)?;
    let own = Sequence::from_vec(held_elsewhere(alloc, closed, mover.own.as_slice())?);
    Ok(avoiding(closed, find(alloc, &snapshot, &mover.wanted, &own)?))
}

fn moved(mover: &Mover, path: Option<Found>) -> Move
    ensures { result ≡ moved mover.now path }
{
    Move {
        peer: mover.peer,
        plsp: mover.plsp,
        wanted: mover.wanted,
        path,
    }
}

/// Tries an LSP elsewhere. If it finds a place, the table is left without what that takes.
fn try_one(
    alloc: Global,
    topology: &Arc<Topology, Global>,
    closed: LinkNumber,
    mover: &Mover,
    table: &mut Vec<[i64; 8]>,
    moves: &mut Vec<Move>,
) -> Result<(), AllocError>
    requires whole { length table.old.items ≡ length (arc_value topology.now).links }
    requires closed { IsClosed closed table.old.items }
    ensures whole { OnOk result (length table.new.items ≡ length (arc_value topology.now).links) }
    ensures closed { OnOk result (IsClosed closed table.new.items) }
    ensures tried { OnOk result ((start : List (List ℤ)) (ms : List Trial) → Tried (arc_value topology.now) closed start ms moves.old.items table.old.items
        → Tried (arc_value topology.now) closed start (ms ++ mover.now ∷ []) moves.new.items table.new.items) }
{
    match search(alloc, topology, table, closed, mover)? {
        Some(path) => {
            *table = taken(alloc, mover, path.links.as_slice(), table)?;
            moves.push(moved(mover, Some(path)))?;
        }
        None => moves.push(moved(mover, None))?,
    }
    Ok(())
}

/// Tries LSPs elsewhere, one after the other.
fn try_all(
    alloc: Global,
    topology: &Arc<Topology, Global>,
    closed: LinkNumber,
    movers: &[Mover],
    table: &mut Vec<[i64; 8]>,
) -> Result<Vec<Move>, AllocError>
    requires whole { length table.old.items ≡ length (arc_value topology.now).links }
    requires closed { IsClosed closed table.old.items }
    ensures { IfOk result (λ moves. Tried (arc_value topology.now) closed table.old.items movers.now moves.items table.new.items) }
{
    let mut moves = Vec::new(alloc);
    for mover in movers {
        try_one(alloc, topology, closed, mover, table, &mut moves)?;
    }
    Ok(moves)
}

/// Finds where LSPs would go if a link went away. They go one after the other, and each finds that those before it have
/// taken their share. Nothing is booked.
#[tactic(auto, using(crate::proofs::Closing::starts_closed))]
pub fn moves_without(
    alloc: Global,
    snapshot: &Snapshot,
    closed: LinkNumber,
    movers: &[Mover],
) -> Result<Vec<Move>, AllocError>
    ensures { IfOk result (λ moves. (rest : List (List ℤ)) × Tried snapshot.now.network closed (without_link closed snapshot.now.unreserved) movers.now moves.items rest) }
{
    let count = snapshot.topology().links().len();
    let topology = snapshot.shared_topology()?;
    let mut table = without_link(alloc, closed, snapshot.table(), count)?;
    try_all(alloc, &topology, closed, movers, &mut table)
}
