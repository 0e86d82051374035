//! The state in which an LSP is shown, by what its router says (`specs/States.antt`).
ghost use Rattle.std.specs.Prelude.{◌≡◌, fold};
ghost use Rattle.pce_view.specs.States.{best_of, better, operational_in, placed_as, state_by, state_of, with_path, word_on};

use crate::fields::is_down;
use lsp_base::{Part, Path};
use server_rules::{Operational, PathKey, PathWord, PathWords, better_of};

/// The state in which an LSP is shown.
#[derive(Clone, Copy, PartialEq, Eq, Debug)]
pub enum LspState {
    Active,
    Up,
    GoingUp,
    GoingDown,
    Down,
    /// Its router reports it up, and no link is booked of it.
    Unplaced,
    /// Nothing is known of its paths but what is booked of them.
    Unknown,
}

/// Returns what the latest report of its router says of a path.
pub(crate) fn word_on(words: &PathWords, path: &Path) -> Option<PathWord>
    ensures { result ≡ word_on words.now path.now }
{
    match path.part {
        Part::Reported(lsp) => words.of(PathKey {
            peer: path.peer,
            plsp: path.plsp.number(),
            lsp,
        }),
        Part::Granted(_) => None,
    }
}

/// Returns the state in which its router reports a path.
pub(crate) fn operational_in(word: Option<PathWord>) -> Option<Operational>
    ensures { result ≡ operational_in word }
{
    match word {
        Some(word) => Some(word.operational),
        None => None,
    }
}

/// Returns the better of two states, as far as they are known.
fn better(a: Option<Operational>, b: Option<Operational>) -> Option<Operational>
    ensures { result ≡ better a b }
{
    match (a, b) {
        (Some(a), Some(b)) => Some(better_of(a, b)),
        (Some(a), None) => Some(a),
        (None, b) => b,
    }
}

/// Returns the better of a state and of that in which its router reports a path.
fn with_path(words: &PathWords, best: Option<Operational>, path: &Path) -> Option<Operational>
    ensures { result ≡ with_path words.now best path.now }
{
    better(best, operational_in(word_on(words, path)))
}

/// Returns the best state in which a router reports one of these paths.
fn best_of(words: &PathWords, paths: &[Path]) -> Option<Operational>
    ensures { result ≡ best_of words.now paths.now }
{
    let mut best = None;
    for path in paths {
        best = with_path(words, best, path);
    }
    best
}

fn placed_as(state: LspState, is_down: bool) -> LspState
    ensures { result ≡ placed_as state is_down }
{
    if is_down { LspState::Unplaced } else { state }
}

fn state_by(best: Option<Operational>, is_down: bool) -> LspState
    ensures { result ≡ state_by best is_down }
{
    match best {
        None if is_down => LspState::Down,
        None => LspState::Unknown,
        Some(Operational::Active) => placed_as(LspState::Active, is_down),
        Some(Operational::Up) => placed_as(LspState::Up, is_down),
        Some(Operational::GoingUp) => LspState::GoingUp,
        Some(Operational::GoingDown) => LspState::GoingDown,
        Some(Operational::Down) => LspState::Down,
    }
}

/// Returns the state of an LSP with these paths.
pub(crate) fn state_of(words: &PathWords, paths: &[Path]) -> LspState
    ensures { result ≡ state_of words.now paths.now }
{
    state_by(best_of(words, paths), is_down(paths))
}
