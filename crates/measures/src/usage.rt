// The processor time and the memory of this process.

use anyhow::{Context, Result, anyhow};
use std::fs;
use std::rt::Files;
use std::time::{CpuClock, Duration};

/// The processor's nanoseconds since a time of it.
pub(crate) fn nanoseconds_since<R: CpuClock>(rt: &R, start: Duration) -> Result<u128> {
    Ok(rt.thread_cpu_time()?.saturating_sub(start).as_nanos())
}

/// A number of kilobytes that the system reports of this process: `VmRSS:` now, `VmHWM:` at most.
pub(crate) fn kilobytes<R: Files + Alloc>(rt: &R, name: &str) -> Result<u64> {
    let status = fs::read_to_string(rt, "/proc/self/status")?;
    for line in status.lines() {
        if let Some(rest) = line.strip_prefix(name) {
            let number = rest
                .split_whitespace()
                .next()
                .context("a number is missing")?;
            return Ok(number.parse().context("the number of kilobytes")?);
        }
    }
    Err(anyhow!("the system does not report {name}"))
}
