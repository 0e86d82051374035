//! What counters say about what happened.
ghost use Rattle.std.specs.Prelude.{◌≡◌, ◌<◌, ◌^◌, List, length};
ghost use Rattle.std.specs.List.{count_by};
ghost use Rattle.server_counts.specs.Counts.{all_added, is_step, steps_of};
ghost use Rattle.server_counts.specs.declared.kinds.Counted.{Counted};

/// States that as many steps are counted as there were, whatever else was counted in between, if fewer than 2^64 things
/// happen.
pub fn steps_are_counted()
    ensures { (happened : List Counted) → length happened < 2 ^ 64 → steps_of (all_added happened) ≡ count_by is_step happened }
{}
