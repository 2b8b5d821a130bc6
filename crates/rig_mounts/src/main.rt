//! What changes of a working copy, rounds of a mirror and narrow filters cost. See bench/README.md.
//!
//! A word names the part that is run, as `overlay`. With no word all are. A part prints what it
//! found on standard output, and what processor time that took on standard error.
#![tactic(auto)]

mod basis;
mod measuring;
mod overlay;
mod rounds;

use crate::basis::measure_basis;
use crate::overlay::measure_overlay;
use crate::rounds::measure_rounds;
use anyhow::{Result, bail};
use std::env;

/// The names of the parts, in turn.
const PARTS: &[&str] = &["overlay", "rounds", "basis"];

/// Runs the part of a name.
fn run(rt: &HostRuntime, name: &str) -> Result<()> {
    match name {
        "overlay" => measure_overlay(rt),
        "rounds" => measure_rounds(rt),
        "basis" => measure_basis(rt),
        _ => bail!("the parts are overlay, rounds and basis, and no other"),
    }
}

/// Returns the words of the command line.
fn words(rt: &HostRuntime) -> Result<Vec<String>> {
    Ok(env::args(rt)?.collect(rt.alloc())?)
}

fn main(rt: HostRuntime) -> Result<()> {
    let words = words(&rt)?;
    if let Some(name) = words.get(1) {
        return run(&rt, name.as_str());
    }
    for name in PARTS {
        run(&rt, name)?;
    }
    Ok(())
}
