//! What the parts measure with.

use anyhow::Result;
use eden_messages::Query;
use rig_kit::Order;
use std::time::{CpuClock, Duration};

/// The orders in which paths come.
pub const ORDERS: &[Order] = &[Order::Ascending, Order::Descending, Order::Scattered];

/// The first question of mirror 1.
pub const QUERY: Query = Query {
    mirror: 1,
    life: 1,
    number: 1,
};

/// Returns the processor time that this thread has taken until now.
pub fn now(rt: &HostRuntime) -> Result<Duration> {
    Ok(rt.thread_cpu_time()?)
}

/// Returns the processor time that this thread has taken since it was `start`.
pub fn since(rt: &HostRuntime, start: Duration) -> Result<Duration> {
    Ok(now(rt)?.saturating_sub(start))
}
