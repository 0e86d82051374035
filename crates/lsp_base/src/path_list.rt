//! The paths of the LSP-DB, found by LSP.
ghost use Rattle.std.specs.Prelude.{◌≡◌, ◌≤◌, ◌+◌, ◌++◌, ◌&&◌, length, map};
ghost use Rattle.std.specs.List.{list_any};
ghost use Rattle.lsp_base.specs.Lsps.{is_path_of, made_stale, without, without_path};
ghost use Rattle.lsp_base.specs.Tables.{bucket_number};

use crate::drops::is_path_of_lsp;
use crate::path::{Path, is_same_path};
use keyed_list::{Edit, Keyed, KeyedList, Test};
use lsp_words::Plsp;

/// Returns the bucket of an LSP's paths.
#[tactic(auto, unfolding(crate::specs::Tables::bucket_number))]
pub fn bucket_of_lsp(peer: u32, plsp: Plsp) -> u16
    ensures { result ≡ bucket_number peer plsp }
{
    ((u64::from(peer) * 7919 + u64::from(plsp.number())) % 16381) as u16
}

/// Returns the buckets of an LSP's paths and of its peer's grants that are not bound to an LSP.
pub fn buckets_of_lsp(peer: u32, plsp: Plsp) -> (u16, u16)
    ensures first { result.0 ≡ bucket_number peer plsp }
    ensures second { result.1 ≡ bucket_number peer 0 }
{
    (bucket_of_lsp(peer, plsp), bucket_of_lsp(peer, Plsp::new(0)))
}

impl Keyed for Path {
    ghost use Rattle.lsp_base.specs.Tables.{path_bucket};

    ghost bucket_of = { path_bucket };

    fn bucket(&self) -> u16 {
        bucket_of_lsp(self.peer, self.plsp)
    }
}

/// Tests whether a path is one of the LSP's that passes a test.
#[derive(Drop)]
struct OfLsp<'a, T: Test<Path>> {
    test: &'a T,
    peer: u32,
    plsp: Plsp,
}

impl<'a, T: Test<Path>> Test<Path> for OfLsp<'a, T> {
    ghost use Rattle.std.specs.Prelude.{◌&&◌};
    ghost use Rattle.lsp_base.specs.Lsps.{is_path_of};

    ghost passes = { λ s x. T.passes s.test.now x && is_path_of s.peer s.plsp x };

    fn passes(&self, path: &Path) -> bool {
        self.test.passes(path) && is_path_of_lsp(path, self.peer, self.plsp)
    }
}

/// Tests whether a path of the LSP passes.
pub fn any_path_of_lsp<T: Test<Path>>(
    paths: &KeyedList<Path>,
    peer: u32,
    plsp: Plsp,
    test: &T,
) -> bool
    ensures { result ≡ list_any (λ x. T.passes test.now x && is_path_of peer plsp x) paths.now.items }
{
    paths.any(bucket_of_lsp(peer, plsp), &OfLsp { test, peer, plsp })
}

/// Tests whether a path is this one.
#[derive(Drop)]
struct SameAs<'a> {
    path: &'a Path,
}

impl<'a> Test<Path> for SameAs<'a> {
    ghost use Rattle.lsp_base.specs.Same.{same_path};

    ghost passes = { λ s x. same_path x s.path.now };

    fn passes(&self, item: &Path) -> bool {
        is_same_path(item, self.path)
    }
}

/// Makes the paths of a peer stale.
#[derive(Drop)]
struct MadeStale {
    peer: u32,
}

impl Edit<Path> for MadeStale {
    ghost use Rattle.lsp_base.specs.Lsps.{made_stale};

    ghost edited = { λ s x. made_stale s.peer x };

    fn edit(&self, path: &mut Path) {
        if path.peer == self.peer {
            path.fresh = false;
        }
    }
}

/// Removes the first path that is this one. The last path takes its place.
fn drop_first(paths: &mut KeyedList<Path>, path: &Path)
    ensures paths { paths.new.items ≡ without_path path.now paths.old.items }
    ensures fewer { length paths.new.items ≤ length paths.old.items }
    ensures room { paths.new.room ≡ paths.old.room }
{
    if let Some(place) = paths.position(path.bucket(), &SameAs { path }) {
        let _dropped = paths.swap_remove(place);
    }
}

/// Removes each of these paths.
fn drop_all(paths: &mut KeyedList<Path>, dropped: &[Path])
    ensures paths { paths.new.items ≡ without paths.old.items dropped.now }
    ensures fewer { length paths.new.items ≤ length paths.old.items }
    ensures room { paths.new.room ≡ paths.old.room }
{
    for path in dropped {
        drop_first(paths, path);
    }
}

/// Adds these paths at the end, into reserved room.
fn add_all(paths: &mut KeyedList<Path>, added: Vec<Path>)
    requires { length paths.old.items + length added.items ≤ paths.old.room }
    ensures paths { paths.new.items ≡ paths.old.items ++ added.items }
    ensures room { paths.new.room ≡ paths.old.room }
{
    for path in added {
        paths.push(path);
    }
}

/// Removes the dropped paths, then adds the others at the end. Allocates nothing.
pub fn change_paths(paths: &mut KeyedList<Path>, dropped: &[Path], added: Vec<Path>)
    requires { length paths.old.items + length added.items ≤ paths.old.room }
    ensures paths { paths.new.items ≡ without paths.old.items dropped.now ++ added.items }
    ensures room { paths.new.room ≡ paths.old.room }
{
    drop_all(paths, dropped);
    add_all(paths, added);
}

/// Makes the peer's paths stale, and changes nothing else. Allocates nothing.
pub fn make_stale(paths: &mut KeyedList<Path>, peer: u32)
    ensures paths { paths.new.items ≡ map (made_stale peer) paths.old.items }
    ensures room { paths.new.room ≡ paths.old.room }
{
    paths.edit_each(&MadeStale { peer });
}
