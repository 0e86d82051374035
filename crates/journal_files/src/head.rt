//! The first line of a file, the line after its link text, and the line after its base.
ghost use Rattle.std.specs.Prelude.{◌≡◌, codes, option_map};
ghost use Rattle.std.specs.Str.{bytes_eq};
ghost use Rattle.journal_files.specs.Heads.{head_in, is_mark, is_end, place_in};

use asks::{cut_at_space, long_number_in};

/// Reads the run, and the place of the file's first step.
#[tactic(auto, unfolding(crate::specs::Heads::head_in))]
pub(crate) fn head_in(line: &str) -> Option<(&str, u64)>
    ensures { option_map (λ x. (x.0.now, x.1)) result ≡ head_in line.now }
{
    let (name, rest) = cut_at_space(line)?;
    let (version, rest) = cut_at_space(rest)?;
    let (run, first) = cut_at_space(rest)?;
    if name != "journal" || version != "1" {
        return None;
    }
    let first = long_number_in(first)?;
    Some((run, first))
}

pub(crate) fn is_mark(line: &str) -> bool
    ensures { result ≡ is_mark line.now }
{
    line == "---"
}

pub(crate) fn is_end(line: &str) -> bool
    ensures { result ≡ is_end line.now }
{
    line == "end"
}

/// Reads the place that the line of a step begins with.
#[tactic(auto, unfolding(crate::specs::Heads::place_in))]
pub(crate) fn place_in(line: &str) -> Option<u64>
    ensures { result ≡ place_in line.now }
{
    let (place, _) = cut_at_space(line)?;
    long_number_in(place)
}
