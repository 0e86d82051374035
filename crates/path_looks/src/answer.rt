//! A path, or what prevents one.
ghost use Rattle.std.specs.Prelude.{◌≡◌, [], IfOk, IfSome, IfNone, None};
ghost use Rattle.path_finder.specs.Answers.{IsAnswer, IsRefused};
ghost use Rattle.path_looks.specs.Paths.{any_colours, no_bounds, relaxed, IsPathAnswer, RefusesBefore};
ghost use Rattle.path_looks.specs.declared.answer.Obstacle.TheVariants.{Several};

use lsp_base::{Constraints, OtherBounds};
use lsp_words::Colours;
use path_finder::{Found, find};
use pcep_word::Bandwidth;
use std::alloc::{AllocError, Global};
use te_snapshot::{OwnShares, Snapshot};

/// What prevents a path.
#[derive(Clone, Copy, Debug, PartialEq, Eq)]
pub enum Obstacle {
    /// Links are too full.
    Bandwidth,
    /// Links have colours that are excluded, or lack some that are included.
    Colours,
    /// It costs too much or has too many links.
    Bounds,
    /// More than one of these.
    Several,
}

/// What a search answers.
#[derive(Drop)]
pub enum PathAnswer {
    /// A path of least cost.
    Path(Found),
    /// There is none, but without the obstacle there is this path of least cost.
    Blocked { by: Obstacle, path: Found },
    /// There is none, whatever its bandwidth, colours and bounds.
    NoWay,
}

/// Drops from the constraints what an obstacle names.
fn relaxed(by: Obstacle, wanted: &Constraints) -> Constraints
    ensures { result ≡ relaxed by wanted.now }
{
    match by {
        Obstacle::Bandwidth => without_bandwidth(*wanted),
        Obstacle::Colours => without_colours(*wanted),
        Obstacle::Bounds => without_bounds(*wanted),
        Obstacle::Several => without_bandwidth(without_colours(without_bounds(*wanted))),
    }
}

fn without_bandwidth(wanted: Constraints) -> Constraints
    ensures { result ≡ record wanted { bandwidth = 0 } }
{
    let mut wanted = wanted;
    wanted.bandwidth = Bandwidth::zero();
    wanted
}

fn without_colours(wanted: Constraints) -> Constraints
    ensures { result ≡ record wanted { colours = any_colours } }
{
    let mut wanted = wanted;
    wanted.colours = Colours {
        exclude_any: 0,
        include_any: 0,
        include_all: 0,
    };
    wanted
}

fn without_bounds(wanted: Constraints) -> Constraints
    ensures { result ≡ record wanted { bound = None; hop_bound = None; other_bounds = no_bounds } }
{
    let mut wanted = wanted;
    wanted.bound = None;
    wanted.hop_bound = None;
    wanted.other_bounds = OtherBounds {
        igp: None,
        te: None,
    };
    wanted
}

/// Searches for a path of a tunnel that holds nothing yet.
fn search(
    alloc: Global,
    snapshot: &Snapshot,
    wanted: &Constraints,
) -> Result<Option<Found>, AllocError>
    ensures found { IfOk result (λ r. IfSome r (IsAnswer snapshot.now wanted.now [])) }
    ensures none { IfOk result (λ r. IfNone r (IsRefused snapshot.now wanted.now [])) }
{
    let own = OwnShares::from_vec(Vec::new(alloc));
    find(alloc, snapshot, wanted, &own)
}

/// Searches for a path without what an obstacle names.
fn search_without(
    alloc: Global,
    snapshot: &Snapshot,
    wanted: &Constraints,
    by: Obstacle,
) -> Result<Option<Found>, AllocError>
    ensures found { IfOk result (λ r. IfSome r (IsAnswer snapshot.now (relaxed by wanted.now) [])) }
    ensures none { IfOk result (λ r. IfNone r (IsRefused snapshot.now (relaxed by wanted.now) [])) }
{
    search(alloc, snapshot, &relaxed(by, wanted))
}

/// Finds the first of bandwidth, colours and bounds whose removal gives a path, or all of them together.
fn first_obstacle(
    alloc: Global,
    snapshot: &Snapshot,
    wanted: &Constraints,
) -> Result<Option<(Obstacle, Found)>, AllocError>
    ensures found { IfOk result (λ r. IfSome r (λ f. IsAnswer snapshot.now (relaxed f.0 wanted.now) [] f.1)) }
    ensures first { IfOk result (λ r. IfSome r (λ f. RefusesBefore snapshot.now wanted.now f.0)) }
    ensures none { IfOk result (λ r. IfNone r (IsRefused snapshot.now (relaxed Several wanted.now) [])) }
{
    if let Some(path) = search_without(alloc, snapshot, wanted, Obstacle::Bandwidth)? {
        return Ok(Some((Obstacle::Bandwidth, path)));
    }
    if let Some(path) = search_without(alloc, snapshot, wanted, Obstacle::Colours)? {
        return Ok(Some((Obstacle::Colours, path)));
    }
    if let Some(path) = search_without(alloc, snapshot, wanted, Obstacle::Bounds)? {
        return Ok(Some((Obstacle::Bounds, path)));
    }
    match search_without(alloc, snapshot, wanted, Obstacle::Several)? {
        Some(path) => Ok(Some((Obstacle::Several, path))),
        None => Ok(None),
    }
}

/// Says what prevents a path that wasn't found.
fn refusal(
    alloc: Global,
    snapshot: &Snapshot,
    wanted: &Constraints,
) -> Result<PathAnswer, AllocError>
    requires { IsRefused snapshot.now wanted.now [] }
    ensures { IfOk result (IsPathAnswer snapshot.now wanted.now) }
{
    match first_obstacle(alloc, snapshot, wanted)? {
        Some((by, path)) => Ok(PathAnswer::Blocked { by, path }),
        None => Ok(PathAnswer::NoWay),
    }
}

/// Finds a path of least cost on a snapshot, for a tunnel that holds nothing yet, or says what prevents it.
pub fn path_on(
    alloc: Global,
    snapshot: &Snapshot,
    wanted: &Constraints,
) -> Result<PathAnswer, AllocError>
    ensures { IfOk result (IsPathAnswer snapshot.now wanted.now) }
{
    match search(alloc, snapshot, wanted)? {
        Some(path) => Ok(PathAnswer::Path(path)),
        None => refusal(alloc, snapshot, wanted),
    }
}
