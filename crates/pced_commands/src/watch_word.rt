//! When the lines of `pced tell` ask to watch.
ghost use Rattle.std.specs.Prelude.{◌≡◌, map};
ghost use Rattle.asks.specs.Words.{cut_at_space};
ghost use Rattle.pced_commands.specs.Watches.{is_watch, pause_after, pause_of, watch_in};

use crate::tell::first_word;
use asks::{cut_at_space, long_number_in};

/// The seconds between two blocks, if the lines don't say how many.
const PAUSE: u64 = 2;

/// The most seconds between two blocks.
const LONGEST: u64 = 3600;

/// What the lines say of `watch`.
#[derive(Clone, Copy, Debug, PartialEq, Eq)]
pub enum WatchWord {
    /// They don't ask for it.
    Absent,
    /// They ask for it with a word that isn't its seconds, or with more words.
    Bad,
    /// They ask for it, with so many seconds between two blocks.
    Every(u64),
}

fn is_watch(word: &str) -> bool
    ensures { result ≡ is_watch word.now }
{
    word == "watch"
}

fn pause_of(seconds: Option<u64>) -> WatchWord
    ensures { result ≡ pause_of seconds }
{
    match seconds {
        Some(seconds) if 1 <= seconds && seconds <= LONGEST => WatchWord::Every(seconds),
        _ => WatchWord::Bad,
    }
}

/// Returns the pause that a line `watch` or `watch SECONDS` asks for.
fn pause_after(line: &str) -> WatchWord
    ensures { result ≡ pause_after (cut_at_space line.now) }
{
    match cut_at_space(line) {
        Some((_watch, seconds)) => pause_of(long_number_in(seconds)),
        None => WatchWord::Every(PAUSE),
    }
}

/// Says whether lines ask to watch: the first of them, with the seconds in it or in the second and nothing else.
pub fn watch_in(lines: &[&str]) -> WatchWord
    ensures { result ≡ watch_in (map (λ line. line.now) lines.now) }
{
    match lines {
        [] => WatchWord::Absent,
        [line] if is_watch(first_word(line)) => pause_after(line),
        [watch, seconds] if is_watch(watch) => pause_of(long_number_in(seconds)),
        [line, ..] if is_watch(first_word(line)) => WatchWord::Bad,
        _ => WatchWord::Absent,
    }
}
