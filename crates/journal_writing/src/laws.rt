//! What holds of everything that is seen, of every text of steps, and of every head.
ghost use Rattle.std.specs.Prelude.{ℕ, ◌≡◌, ◌+◌, ◌<◌, ◌^◌, List, Some, length, take, drop};
ghost use Rattle.history_core.specs.Histories.{Content, ReplaysFrom};
ghost use Rattle.history_core.specs.declared.step.Step.{Step};
ghost use Rattle.history_seats.specs.Past.{AreAll};
ghost use Rattle.journal_files.specs.Heads.{head_in};
ghost use Rattle.journal_replay.specs.Replays.{Point, AllAsRecorded};
ghost use Rattle.line_words.specs.Words.{IsWord};
ghost use Rattle.base_lines.specs.declared.placed.PlacedBase.{PlacedBase};
ghost use Rattle.journal_writing.specs.Bases.{base_before, SeesBase};
ghost use Rattle.journal_writing.specs.declared.base.SeenBase.TheVariants.{Base};
ghost use Rattle.journal_writing.specs.Heads.{head_line};
ghost use Rattle.journal_writing.specs.Steps.{AreFrom, most_seen};
ghost use Rattle.journal_writing.specs.Texts.{lines_of, AreSteps};

/// Shows that the steps seen from a place on are those that were taken from there on, of all that ever were.
#[tactic(auto, using(crate::proofs::Seen::of_all))]
pub fn all_seen()
    ensures { (from : ℕ) (d : Content) (all seen : List Step) → AreAll d all → AreFrom from d seen → seen ≡ take most_seen (drop from all) }
{}

/// Shows that a base that is seen is what all steps before it led to, from the network of the link text.
#[tactic(auto, using(crate::proofs::Led::led_to))]
pub fn base_seen()
    ensures { (at : ℕ) (d : Content) (all : List Step) (b : PlacedBase) → AreAll d all → SeesBase at d (Base b) → b ≡ base_before d.start.state all at }
{}

/// Shows that the lines of a history that is legal from what is known are all as recorded, and lead to where it does.
#[tactic(auto, using(crate::proofs::Written::all_recorded))]
pub fn what_is_written_replays()
    ensures { (at to : Point) (steps : List Step) → AreSteps at.next steps → ReplaysFrom at.state steps to.state → to.next ≡ at.next + length steps
        → AllAsRecorded at (lines_of at.next steps) to }
{}

/// Shows that the first line of a file is read again: the run, whose name is a word, and the number of the file's first
/// step.
#[tactic(auto, using(crate::proofs::Heads::read_again))]
pub fn heads_are_read_again()
    ensures { (run : List ℕ) (first : ℕ) → IsWord run → first < 2 ^ 64 → head_in (head_line run first) ≡ Some (run, first) }
{}
