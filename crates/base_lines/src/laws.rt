//! What holds of every base.
ghost use Rattle.std.specs.Prelude.{◌≡◌, Some};
ghost use Rattle.base_lines.specs.Lines.{base_lines, base_in};
ghost use Rattle.base_lines.specs.Normal.{IsNormalBase};
ghost use Rattle.base_lines.specs.declared.placed.PlacedBase.{PlacedBase};

/// Shows that the lines of each base whose fields are what their types keep read as it.
#[tactic(auto, using(crate::proofs::BasesAgain::again))]
pub fn base_lines_are_read_again()
    ensures { (base : PlacedBase) → IsNormalBase base → base_in (base_lines base) ≡ Some base }
{}
