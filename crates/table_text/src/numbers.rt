//! Lists of numbers.
ghost use Rattle.table_text.specs.Adding.{Adds};
ghost use Rattle.table_text.specs.Numbers.{numbers_words, rest_words};

use std::alloc::AllocError;
use std::fmt::Write;

fn add_rest(text: &mut String, numbers: &[usize]) -> Result<(), AllocError>
    ensures { Adds result text.old text.new (rest_words numbers.now) }
{
    for number in numbers {
        write!(text, ",{number}")?;
    }
    Ok(())
}

/// Adds numbers joined by commas, or a dash if there are none.
pub fn add_numbers(text: &mut String, numbers: &[usize]) -> Result<(), AllocError>
    ensures { Adds result text.old text.new (numbers_words numbers.now) }
{
    match numbers {
        [first, rest @ ..] => {
            write!(text, "{first}")?;
            add_rest(text, rest)
        }
        [] => text.push_str("-"),
    }
}
