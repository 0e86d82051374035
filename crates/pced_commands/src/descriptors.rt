//! How many descriptors the process may have.
use std::fs;
use std::fs::Files;

/// Where the system gives the limits of the process.
const LIMITS: &str = "/proc/self/limits";

/// Returns the limit in force, from the line of descriptors.
fn limit_in(line: &str) -> Option<u64> {
    let limits = line.strip_prefix("Max open files")?;
    limits.split_whitespace().next()?.parse::<u64>().ok()
}

/// Returns how many descriptors the process may have, if there is a limit and the system says it.
pub fn descriptor_limit<R: Files + AllocGlobal>(rt: &R) -> Option<u64> {
    let bytes = fs::read(rt, LIMITS).ok()?;
    let text = str::from_utf8(&bytes).ok()?;
    for line in text.lines() {
        if let Some(limit) = limit_in(line) {
            return Some(limit);
        }
    }
    None
}
