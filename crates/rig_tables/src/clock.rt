//! The processor time of this thread.

use anyhow::Result;
use std::time::{CpuClock, Duration};

/// Returns what time has gone by until now.
pub fn now(rt: &HostRuntime) -> Result<Duration> {
    Ok(rt.thread_cpu_time()?)
}

/// Returns what time has gone by since it was `start`.
pub fn since(rt: &HostRuntime, start: Duration) -> Result<Duration> {
    Ok(now(rt)?.saturating_sub(start))
}
