//! Times as numbers.

use std::time::Duration;

/// The nanoseconds of a time.
pub fn nanoseconds(time: Duration) -> u64 {
    let whole = time.as_secs().saturating_mul(1_000_000_000);
    whole.saturating_add(u64::from(time.subsec_nanos()))
}

/// The nanoseconds of a time, one of so many.
pub fn each(time: Duration, count: u64) -> u64 {
    nanoseconds(time).checked_div(count).unwrap_or(0)
}
