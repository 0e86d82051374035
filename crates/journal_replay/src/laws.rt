//! What holds of every replay.
ghost use Rattle.std.specs.Prelude.{◌≡◌, ◌↔◌, ℕ, List};
ghost use Rattle.history_core.specs.Histories.{Content};
ghost use Rattle.journal_replay.specs.Bases.{point_over, base_at, AreExpected};
ghost use Rattle.journal_replay.specs.Replays.{Point, AllAsRecorded, RecordsLegal, point_of};
ghost use Rattle.line_words.specs.Written.{text_of};
ghost use Rattle.te_base.specs.Ted.{Ted};
ghost use Rattle.te_base.specs.Values.{IsSameNetwork};

/// Shows that all lines are as recorded exactly if they record a history that is legal from what was known before them,
/// and that leads to what is known then.
pub fn as_recorded_is_legal()
    ensures { (at to : Point) (lines : List (List ℕ)) → AllAsRecorded at lines to ↔ RecordsLegal at lines to }
{}

/// Shows that lines are taken one by one, and nothing is left then, exactly if they make up the expected text.
#[tactic(auto, using(crate::proofs::Expecting::are_expected))]
pub fn expected_lines_are_the_text()
    ensures { (expected : List ℕ) (lines : List (List ℕ)) → AreExpected expected lines ↔ expected ≡ text_of lines }
{}

/// Shows that a file whose base is the expected one, replayed alone, begins with what the files before it lead to. Its
/// link text has the network that they began with.
#[tactic(auto, using(crate::proofs::Expecting::begins_there))]
pub fn a_base_goes_on()
    ensures { (te : Ted) (d : Content) → IsSameNetwork te d.state.te → point_over te (base_at d) ≡ point_of d }
{}
