//! What filters cost, and tables that grow. See bench/README.md.
//!
//! A word names the part that is run, as `filters`. With no word both are. A part prints what it
//! found on standard output, and what processor time that took on standard error.
#![tactic(auto)]

mod clock;
mod filters;
mod segments;

use crate::filters::measure_filters;
use crate::segments::measure_segments;
use anyhow::{Result, bail};
use std::env;

/// The names of the parts, in turn.
const PARTS: &[&str] = &["filters", "segments"];

/// Runs the part of a name.
fn run(rt: &HostRuntime, name: &str) -> Result<()> {
    match name {
        "filters" => measure_filters(rt),
        "segments" => measure_segments(rt),
        _ => bail!("the parts are filters and segments, and no other"),
    }
}

/// Returns the words of the command line.
fn words(rt: &HostRuntime) -> Result<Vec<String>> {
    Ok(env::args(rt)?.collect(rt.alloc())?)
}

fn main(rt: HostRuntime) -> Result<()> {
    let words = words(&rt)?;
    if let Some(name) = words.get(1) {
        return run(&rt, name.as_str());
    }
    for name in PARTS {
        run(&rt, name)?;
    }
    Ok(())
}
