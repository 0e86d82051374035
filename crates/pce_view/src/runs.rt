//! Equal numbers in a row, as runs.
ghost use Rattle.std.specs.Prelude.{◌≡◌, ◌++◌, ◌∷◌, [], IfOk, OnOk};
ghost use Rattle.pce_view.specs.Runs.{numbers_of};

use std::alloc::{AllocError, Global};

/// A number, and how often it stands in a row.
#[derive(Clone, Copy)]
pub(crate) struct Run {
    pub count: usize,
    pub number: i64,
}

/// Adds a number behind the runs: to the last of them, where that is of the same number.
fn add_number(runs: &mut Vec<Run>, number: i64) -> Result<(), AllocError>
    ensures { OnOk result (numbers_of runs.new.items ≡ numbers_of runs.old.items ++ number ∷ []) }
{
    let run = match runs.pop() {
        Some(run) if run.number == number && run.count < 8 => Run {
            count: run.count + 1,
            number,
        },
        Some(run) => {
            runs.push(run)?;
            Run { count: 1, number }
        }
        None => Run { count: 1, number },
    };
    runs.push(run)?;
    Ok(())
}

/// Finds the runs of equal numbers, in their order.
pub(crate) fn runs_of(alloc: Global, numbers: &[i64; 8]) -> Result<Vec<Run>, AllocError>
    ensures { IfOk result (λ runs. numbers_of runs.items ≡ numbers.now) }
{
    let mut runs = Vec::new(alloc);
    for number in numbers {
        add_number(&mut runs, *number)?;
    }
    Ok(runs)
}
