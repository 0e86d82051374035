//! What routers' latest reports say about paths and the state doesn't keep.
ghost use Rattle.std.specs.Prelude.{◌≡◌, ◌≤◌, ◌<◌, [], ◌∷◌, true, false, List, None, OnOk, OnErr, IsOk, IsErr, is_some, not, length};
ghost use Rattle.server_rules.specs.PathWords.{Adds, IsSame, Knows, changed, needs_room, noted_from, noted_in, word_of};
ghost use Rattle.server_rules.specs.declared.path_word.PathHappening.{PathHappening};
ghost use Rattle.server_rules.specs.declared.path_word.PathHappening.TheVariants.{Reported, PathRemoved};

use crate::path_word::{PathHappening, PathKey, PathNoted, PathWord, stays, turned};
use indexmap::IndexMap;
use std::alloc::{AllocError, Global};

/// The most paths that have a note: as many as may stand. Each takes some 48 bytes, so all take some 2 MB with the
/// spare room of the map.
const MOST_PATHS: usize = 16384;

/// What is noted about each path.
#[derive(Drop)]
pub struct PathWords {
    paths: IndexMap<PathKey, PathNoted>,
}

impl PathWords {
    /// Makes an empty table. Takes no memory.
    pub fn new(alloc: Global) -> PathWords
        ensures { Knows result [] }
    {
        PathWords {
            paths: IndexMap::new(alloc),
        }
    }

    /// Returns what its router's latest report says about a path, while the path stands.
    pub fn of(&self, path: PathKey) -> Option<PathWord>
        ensures table { result ≡ word_of (noted_in self.now path) }
        ensures past { (past : List PathHappening) → Knows self.now past → result ≡ word_of (noted_from past path) }
    {
        Some(self.paths.get(&path)?.word)
    }

    /// Tests whether there is no room for a path.
    fn is_full_for(&self, path: PathKey) -> bool
        ensures full { result ≡ true → (noted_in self.now path ≡ None) × (16384 ≤ length self.now.paths.entries) }
        ensures room { result ≡ false → noted_in self.now path ≡ None → length self.now.paths.entries < 16384 }
    {
        self.paths.len() >= MOST_PATHS && !self.paths.contains_key(&path)
    }

    /// Notes that the router reported a path.
    fn report(&mut self, of: PathKey, word: PathWord) -> Result<(), AllocError>
        ensures ok { OnOk result (Adds self.old self.new (Reported of word)) }
        ensures err { OnErr result (IsSame self.old self.new) }
        ensures room { is_some (noted_in self.old of) ≡ true → IsOk result }
        ensures full { noted_in self.old of ≡ None → 16384 ≤ length self.old.paths.entries → IsErr result }
    {
        if self.is_full_for(of) {
            return Err(AllocError);
        }
        let noted = PathNoted {
            word,
            is_current: true,
        };
        self.paths.insert(of, noted)?;
        Ok(())
    }

    /// Notes that a path no longer stands.
    fn remove(&mut self, of: PathKey)
        ensures { Adds self.old self.new (PathRemoved of) }
    {
        let _noted = self.paths.swap_remove(&of);
    }

    /// Notes what happened to several paths.
    fn sweep(&mut self, what: PathHappening)
        requires { changed what None ≡ None }
        ensures { Adds self.old self.new what }
    {
        self.paths.retain(|of, noted| {
            let is_kept = stays(what, *of, *noted);
            *noted = turned(what, *of, *noted);
            is_kept
        });
    }

    /// Notes what happened. If memory runs out, nothing is noted. If 16,384 paths have a note, another path gets none:
    /// as many may stand, and a note is removed with its path, so a path that is left out has no place in the state
    /// either.
    pub fn note(&mut self, what: PathHappening) -> Result<(), AllocError>
        ensures ok { OnOk result (Adds self.old self.new what) }
        ensures err { OnErr result (IsSame self.old self.new) }
        ensures room { needs_room self.old what ≡ false → IsOk result }
        ensures full { needs_room self.old what ≡ true → 16384 ≤ length self.old.paths.entries → IsErr result }
    {
        match what {
            PathHappening::Reported { of, word } => self.report(of, word),
            PathHappening::PathRemoved { of } => {
                self.remove(of);
                Ok(())
            }
            _ => {
                self.sweep(what);
                Ok(())
            }
        }
    }
}
