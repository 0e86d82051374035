//! What holds of every line.
ghost use Rattle.std.specs.Prelude.{◌≡◌, Some};
ghost use Rattle.step_lines.specs.declared.placed.PlacedStep.{PlacedStep};
ghost use Rattle.step_lines.specs.Lines.{line_of, step_in};
ghost use Rattle.step_lines.specs.Normal.{IsStep};

/// Shows that the line of each step whose fields are what their types keep reads as it.
#[tactic(auto, using(crate::proofs::StepsAgain::line_again))]
pub fn lines_are_read_again()
    ensures { (step : PlacedStep) → IsStep step → step_in (line_of step) ≡ Some step }
{}
