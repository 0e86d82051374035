//! What the system says about the process.
use metrics_text::Process;
use std::fs;
use std::fs::Files;

/// Where Linux describes a process, with a line for each value.
const STATUS: &str = "/proc/self/status";

/// Where Linux gives the limits of a process, with a line for each.
const LIMITS: &str = "/proc/self/limits";

/// Where Linux names the descriptors of a process.
const DESCRIPTORS: &str = "/proc/self/fd";

/// Returns the bytes that a line `VmRSS: N kB` gives.
fn resident_in(text: &str) -> Option<u64> {
    for line in text.lines() {
        if let Some(rest) = line.strip_prefix("VmRSS:") {
            let number = rest.trim().strip_suffix(" kB")?;
            return number.trim().parse::<u64>().ok()?.checked_mul(1024);
        }
    }
    None
}

/// Reads how much memory of the process is in RAM, in bytes; `None` if the system doesn't say.
fn resident_bytes<R: Files + AllocGlobal>(rt: &R) -> Option<u64> {
    let text = fs::read(rt, STATUS).ok()?;
    resident_in(str::from_utf8(&text).ok()?)
}

/// Returns the limit in force, from a line `Max open files N M files`.
fn limit_in(text: &str) -> Option<u64> {
    for line in text.lines() {
        if let Some(rest) = line.strip_prefix("Max open files") {
            return rest.split_whitespace().next()?.parse::<u64>().ok();
        }
    }
    None
}

/// Reads how many descriptors may be open; `None` if there is no limit, or the system doesn't say.
fn descriptor_limit<R: Files + AllocGlobal>(rt: &R) -> Option<u64> {
    let text = fs::read(rt, LIMITS).ok()?;
    limit_in(str::from_utf8(&text).ok()?)
}

/// Counts the open descriptors, except for the one by which they are read.
fn open_descriptors(rt: &HostRuntime) -> Option<u64> {
    let mut count = 0u64;
    for entry in fs::read_dir(rt, DESCRIPTORS).ok()? {
        let _name = entry.ok()?;
        count = count.saturating_add(1);
    }
    Some(count.saturating_sub(1))
}

/// Reads what the system says about the process. Its journal has `journal_steps` steps, if one is written.
pub(crate) fn process_of(rt: &HostRuntime, journal_steps: Option<u64>) -> Process {
    Process {
        resident_bytes: resident_bytes(rt),
        open_descriptors: open_descriptors(rt),
        descriptor_limit: descriptor_limit(rt),
        journal_steps,
    }
}
