//! Log lines that begin with their time.
use jiff_core::civil::DateTime;
use log::kv::Source;
use log::span::Spans;
use log::{Line, Log, Metadata, Record};
use std::fmt::Display;
use std::os::unix::fs::MetadataExt;
use std::rt::{Env, Files};
use std::time::{Clock, SystemTime};
use std::{env, fmt, fs};

/// A moment in UTC, as RFC 3339 section 5.6 writes it, to the second.
#[derive(Clone, Copy)]
struct Stamp(DateTime);

impl fmt::Display for Stamp {
    fn fmt<W: fmt::Write>(&self, f: &mut fmt::Formatter<W>) -> fmt::Result {
        let (date, time) = (self.0.date, self.0.time);
        let (year, month, day) = (date.year, date.month, date.day);
        let (hour, minute, second) = (time.hour, time.minute, time.second);
        write!(
            f,
            "{year:04}-{month:02}-{day:02}T{hour:02}:{minute:02}:{second:02}Z"
        )
    }
}

/// Returns the present time. `None` if the system doesn't say.
fn time_now<R: Clock>(rt: &R) -> Option<Stamp> {
    let time = SystemTime::now(rt).ok()?;
    let passed = time.duration_since(SystemTime::UNIX_EPOCH).ok()?;
    let nanos = i128::try_from(passed.as_nanos()).ok()?;
    Some(Stamp(DateTime::from_nanosecond(nanos).ok()?))
}

/// Where the system says what standard error is.
const STANDARD_ERROR: &str = "/proc/self/fd/2";

/// Tests whether these are the device and the inode that a text `DEVICE:INODE` names.
fn is_named(stream: &str, device: u64, inode: u64) -> bool {
    match stream.split_once(':') {
        Some((first, second)) => {
            first.parse::<u64>() == Ok(device) && second.parse::<u64>() == Ok(inode)
        }
        None => false,
    }
}

/// Tests whether standard error goes to systemd's journal: JOURNAL_STREAM names its device and inode (systemd.exec(5)).
/// If standard error was redirected elsewhere it doesn't, though the variable is set.
fn is_journal<R: Env + Files + AllocGlobal>(rt: &R) -> bool {
    let Ok(stream) = env::var(rt, "JOURNAL_STREAM") else {
        return false;
    };
    match fs::metadata(rt, STANDARD_ERROR) {
        Ok(found) => is_named(&stream, found.dev(), found.ino()),
        Err(_) => false,
    }
}

/// Writes lines to standard error, each beginning with its time unless the reader notes that itself.
#[derive(Drop)]
pub struct Stamped<'a, R> {
    rt: &'a R,
    is_noted: bool,
}

impl<'a, R: Env + Files + AllocGlobal> Stamped<'a, R> {
    /// Makes the writer. systemd's journal notes the time of each line itself.
    pub fn new(rt: &'a R) -> Stamped<'a, R> {
        Stamped {
            rt,
            is_noted: is_journal(rt),
        }
    }
}

impl<'a, R: Eprint + Clock> Log for Stamped<'a, R> {
    ghost use Rattle.std.specs.Prelude.{Some, true, []};

    ghost enables = { λ _ _ _. Some true };

    ghost target_of = { λ _. Some [] };

    fn enabled(&self, _metadata: &Metadata<'_>) -> bool {
        true
    }

    fn log<D: Display, K: Source, S: Spans>(&self, record: &Record<'_, D, K, S>) {
        let line = Line::new(record);
        let stamp = if self.is_noted {
            None
        } else {
            time_now(self.rt)
        };
        let _written = match stamp {
            Some(stamp) => eprintln!(*self.rt; "{stamp} {line}"),
            None => eprintln!(*self.rt; "{line}"),
        };
    }

    fn flush(&self) {}

    fn target(&self) -> &str {
        ""
    }
}
