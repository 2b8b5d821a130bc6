//! What a narrow filter saves on a mount of 100,000 files in 1,000 directories.
//!
//! Its files are listed, and a basis is asked for in frames, with the filter `dir007/**` and with
//! none.

use crate::measuring::{QUERY, now, since};
use anyhow::Result;
use eden_accumulate::Mount;
use eden_globs::Filter;
use eden_ids::GitNaming;
use eden_messages::Request;
use eden_objects::Store;
use eden_query::{encode_request, serve};
use eden_stream::Counted;
use rig_kit::{nanoseconds, put_commit};
use std::alloc::Global;
use std::time::Duration;

/// How often each call is measured.
///
/// The least time counts, since other work on the machine makes it longer and never shorter.
const TRIES: usize = 20;

/// Returns a mount of 100,000 files.
fn mounted(alloc: Global) -> Result<Mount<GitNaming>> {
    let mut store = Store::new(alloc, GitNaming);
    let commit = put_commit(alloc, &mut store, "text")?;
    Ok(Mount::mount(alloc, store, commit, 1, 1_000)?)
}

/// Returns how many files the filter admits, and what time their list takes.
fn list(rt: &HostRuntime, mount: &Mount<GitNaming>, filter: &Filter) -> Result<(usize, Duration)> {
    let start = now(rt)?;
    let count = mount.snapshot()?.files(mount.store(), filter)?.len();
    Ok((count, since(rt, start)?))
}

/// Returns how many bytes the reply to a frame has, and what time it takes.
fn reply(
    rt: &HostRuntime,
    mount: &mut Mount<GitNaming>,
    frame: &[u8],
) -> Result<(usize, Duration)> {
    let mut written = Vec::new(rt.alloc());
    let mut reader = Counted::new(frame);
    let mut writer = Counted::new(&mut written);
    let start = now(rt)?;
    let _ = serve(rt.alloc(), &mut reader, &mut writer, mount)?;
    let time = since(rt, start)?;
    Ok((written.len(), time))
}

/// Prints how many files a filter admits, and returns the least time of their list.
fn least_list(rt: &HostRuntime, mount: &Mount<GitNaming>, filter: &Filter) -> Result<u64> {
    let (count, first) = list(rt, mount, filter)?;
    println!(rt; "list: {count} paths")?;
    let mut least = nanoseconds(first);
    for _ in 1..TRIES {
        let (_, time) = list(rt, mount, filter)?;
        least = least.min(nanoseconds(time));
    }
    Ok(least)
}

/// Prints the length of a basis through a filter, and returns the least time of its reply.
fn least_basis(rt: &HostRuntime, mount: &mut Mount<GitNaming>, filter: Filter) -> Result<u64> {
    let request = Request::Basis {
        query: QUERY,
        filter,
    };
    let frame = encode_request(rt.alloc(), &request)?;
    let (count, first) = reply(rt, mount, frame.as_slice())?;
    println!(rt; "basis: {count} bytes")?;
    let mut least = nanoseconds(first);
    for _ in 1..TRIES {
        let (_, time) = reply(rt, mount, frame.as_slice())?;
        least = least.min(nanoseconds(time));
    }
    Ok(least)
}

/// Prints two times, and how many of the one make the other.
fn print_times(rt: &HostRuntime, name: &str, narrow: u64, all: u64) -> Result<()> {
    let times = all.checked_div(narrow).unwrap_or(0);
    eprintln!(rt;
        "{name}: dir007/** {} us, all {} us, {times} times",
        narrow / 1_000,
        all / 1_000
    )?;
    Ok(())
}

/// Measures lists and bases with the narrow filter and with none.
pub fn measure_basis(rt: &HostRuntime) -> Result<()> {
    let alloc = rt.alloc();
    let mut mount = mounted(alloc)?;
    let all = Filter::all(alloc);
    let narrow = Filter::parse(alloc, &[b"dir007/**".as_slice()])?;
    let listed = (
        least_list(rt, &mount, &narrow)?,
        least_list(rt, &mount, &all)?,
    );
    print_times(rt, "list", listed.0, listed.1)?;
    let served = (
        least_basis(rt, &mut mount, narrow)?,
        least_basis(rt, &mut mount, all)?,
    );
    print_times(rt, "basis", served.0, served.1)
}
