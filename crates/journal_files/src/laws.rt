//! What holds of every file.
ghost use Rattle.std.specs.Prelude.{◌≡◌, ◌↔◌, ℕ, List, Some};
ghost use Rattle.journal_files.specs.Files.{file_read, IsFile};
ghost use Rattle.journal_files.specs.declared.order.Order.{Order};

/// Shows that no line of a file is bad, and that it comes to its steps, exactly if it is in order: it is of the run of
/// the files before it, and goes on where they ended, or it is the first; a base comes before its steps, unless they are
/// those of the run's start; its steps have one place after the other; and no moment is before an earlier one.
pub fn files_are_in_order()
    ensures { (before after : Order) (file : List (List ℕ)) → file_read before file ≡ Some after ↔ IsFile before file after }
{}
