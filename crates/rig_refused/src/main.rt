//! Calls whose growths of memory may be refused, one after another. tests-refused/refusals.sh runs it so often that each growth is refused
//! once.
//!
//! The first word names the calls that are made; with none all are. Where a call answers that memory was refused, what it was to change has
//! to be as before, and the same call is made again: so standard output is the same, whether a growth was refused or not. Standard error
//! tells how often a call answered so.
//!
//! `bodies` draws so many bodies as the second word says, 10,000 with none, of at most so many bytes as the third one says, 600 with none;
//! most of them are no message. How much memory reading them takes is for who runs it to see.
#![tactic(auto)]

mod batches;
mod bodies;
mod decoding;
mod desks;
mod mounted;
mod objects;
mod refusals;
mod replies;
mod rounds;
mod scripts;
mod serving;
mod steps;
mod told;

use crate::batches::read_batch;
use crate::bodies::read_bodies;
use crate::decoding::decode;
use crate::desks::{call, serve_desk};
use crate::mounted::go_through;
use crate::objects::puts;
use crate::refusals::{Refusals, again};
use crate::rounds::{OVERLAPPING, REMOUNTED, REPEATED, follow};
use crate::scripts::run_all;
use crate::serving::{serve_frames, stay};
use crate::steps::{CONFLICT_THEN_FORCE, IMPORT_THEN_CHECKOUT, RENAME_DIRECTORY, RESET_AND_BACK};
use anyhow::{Result, bail};
use std::env;
use std::sync::Wait;
use std::time::Clock;

/// What is called one after another.
const NAMES: &[&str] = &[
    "puts",
    "checkouts",
    "ranges",
    "directories",
    "imports",
    "batches",
    "decoding",
    "serving",
    "staying",
    "overlapping",
    "repeated",
    "remounted",
    "desks",
    "served-desks",
    "scripts",
];

/// How many bodies are drawn, and how many bytes one has at the most.
const BODIES: (u64, usize) = (10_000, 600);

/// The words of the command line.
fn words(rt: &HostRuntime) -> Result<Vec<String>> {
    Ok(env::args(rt)?.collect(rt.alloc())?)
}

/// Makes calls of a mount, or of what stands below one.
fn make_low(rt: &HostRuntime, name: &str) -> Result<u64> {
    match name {
        "puts" => puts(rt),
        "checkouts" => go_through(rt, &CONFLICT_THEN_FORCE),
        "ranges" => go_through(rt, &RESET_AND_BACK),
        "directories" => go_through(rt, &RENAME_DIRECTORY),
        "imports" => go_through(rt, &IMPORT_THEN_CHECKOUT),
        "batches" => read_batch(rt),
        "decoding" => decode(rt),
        _ => bail!("no calls are named so"),
    }
}

/// Makes the calls of a name. Gives how often one answered that memory was refused.
fn make(rt: &HostRuntime, wait: &(impl Wait + Clock), name: &str) -> Result<u64> {
    match name {
        "serving" => serve_frames(rt),
        "staying" => stay(rt, wait),
        "overlapping" => follow(rt, OVERLAPPING),
        "repeated" => follow(rt, REPEATED),
        "remounted" => follow(rt, REMOUNTED),
        "desks" => call(rt, wait),
        "served-desks" => serve_desk(rt, wait),
        "scripts" => run_all(rt),
        _ => make_low(rt, name),
    }
}

/// The number of a word, or another one where there is no word.
fn number(word: Option<&String>, other: u64) -> Result<u64> {
    match word {
        Some(word) => Ok(word.parse()?),
        None => Ok(other),
    }
}

/// Makes the calls of these names. Gives how often one answered that memory was refused.
fn make_all(rt: &HostRuntime, wait: &(impl Wait + Clock), names: &[&str]) -> Result<u64> {
    let mut count = 0_u64;
    for name in names {
        println!(rt; "{name}")?;
        count = count.saturating_add(make(rt, wait, name)?);
    }
    Ok(count)
}

fn main(rt: HostRuntime) -> Result<()> {
    let mut refusals = Refusals::new();
    let words = again!(refusals, _, words(&rt));
    let count = match words.get(1).map(|word| word.as_str()) {
        Some("bodies") => {
            let length = number(words.get(3), BODIES.1 as u64)?;
            read_bodies(&rt, number(words.get(2), BODIES.0)?, length as usize)?;
            0
        }
        Some(name) => make_all(&rt, &rt, &[name])?,
        None => {
            read_bodies(&rt, BODIES.0, BODIES.1)?;
            make_all(&rt, &rt, NAMES)?
        }
    };
    eprintln!(rt; "refused {}", count.saturating_add(refusals.count()))?;
    Ok(())
}
