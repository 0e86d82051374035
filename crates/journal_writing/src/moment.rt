//! Moments in lines and names.
ghost use Rattle.std.specs.Prelude.{◌≡◌, true, IfOk, IfSome, string_bytes};
ghost use Rattle.std.specs.Ordering.{nat_cmp};
ghost use Rattle.std.specs.Cmp.Lexicographic.{slice_cmp};
ghost use Rattle.std.specs.declared.cmp.Ordering.TheVariants.{Less};
ghost use Rattle.journal_files.specs.Moments.{is_moment};

use jiff_core::civil::DateTime;
use journal_files::is_moment;
use std::alloc::{AllocError, Global};
use std::fmt;
use std::time::Duration;

/// The line of a moment in UTC, to the second.
#[derive(Clone, Copy)]
struct MomentLine(DateTime);

impl fmt::Display for MomentLine {
    fn fmt<W: fmt::Write>(&self, f: &mut fmt::Formatter<W>) -> fmt::Result {
        let (date, time) = (self.0.date, self.0.time);
        let (year, month, day) = (date.year, date.month, date.day);
        let (hour, minute, second) = (time.hour, time.minute, time.second);
        write!(
            f,
            "at {year:04}-{month:02}-{day:02}T{hour:02}:{minute:02}:{second:02}Z"
        )
    }
}

/// The same moment as a name.
#[derive(Clone, Copy)]
struct MomentName(DateTime);

impl fmt::Display for MomentName {
    fn fmt<W: fmt::Write>(&self, f: &mut fmt::Formatter<W>) -> fmt::Result {
        let (date, time) = (self.0.date, self.0.time);
        let (year, month, day) = (date.year, date.month, date.day);
        let (hour, minute, second) = (time.hour, time.minute, time.second);
        write!(
            f,
            "{year:04}{month:02}{day:02}T{hour:02}{minute:02}{second:02}Z"
        )
    }
}

/// Returns the moment at this time since the beginning of 1970.
fn moment_at(since_1970: Duration) -> Option<DateTime> {
    let nanos = i128::try_from(since_1970.as_nanos()).ok()?;
    DateTime::from_nanosecond(nanos).ok()
}

/// Writes the line of this time since the beginning of 1970. `None` for a time that has none, as after the year 9999.
pub fn moment_line(alloc: Global, since_1970: Duration) -> Result<Option<String>, AllocError>
    ensures { IfOk result (λ line. IfSome line (λ text. is_moment (string_bytes text) ≡ true)) }
{
    let Some(moment) = moment_at(since_1970) else {
        return Ok(None);
    };
    let moment = MomentLine(moment);
    let text = format!(in alloc; "{moment}")?;
    if is_moment(&text) {
        Ok(Some(text))
    } else {
        Ok(None)
    }
}

/// Writes the name of this time since the beginning of 1970, as `20261129T013000Z`. `None` for a time that has none.
pub fn moment_name(alloc: Global, since_1970: Duration) -> Result<Option<String>, AllocError> {
    match moment_at(since_1970) {
        Some(moment) => {
            let moment = MomentName(moment);
            Ok(Some(format!(in alloc; "{moment}")?))
        }
        None => Ok(None),
    }
}

/// Does the same if the name comes after `last` in the order of texts, else returns `None`: within one second, or after the
/// clock was set back, no name does.
pub fn name_after(
    alloc: Global,
    since_1970: Duration,
    last: &str,
) -> Result<Option<String>, AllocError>
    ensures { IfOk result (λ name. IfSome name (λ text. slice_cmp nat_cmp last.now (string_bytes text) ≡ Less)) }
{
    match moment_name(alloc, since_1970)? {
        Some(name) if last < name.as_str() => Ok(Some(name)),
        _ => Ok(None),
    }
}
