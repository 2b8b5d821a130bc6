//! Frames that a mount serves: to one caller, to the callers of a lock of which nothing is logged, and those calls themselves.

ghost use Rattle.std.specs.Prelude.{◌≡◌};
ghost use Rattle.eden_accumulate.specs.Mounts.{StandsFor};
ghost use Rattle.eden_history.specs.Worlds.{WorldState};

use crate::refusals::{Refusals, again};
use crate::replies::{
    Served, basis, fetch, frames, is_cut, mounted, room, tell_reply, tell_served, write,
};
use anyhow::{Result, bail};
use eden_accumulate::Mount;
use eden_history::{Answer, Change};
use eden_ids::{GitNaming, NoMemory};
use eden_messages::{Reply, Request};
use eden_query::serve;
use eden_shared::{Origin, Pass, Present, Unlogged, serve_unlogged};
use eden_stream::Counted;
use std::alloc::Global;
use std::marker::Brand;
use std::sync::Wait;
use std::sync::ledger::{Blank, Ledger};
use std::time::Clock;

/// A mount behind a lock of which nothing is logged.
type UnloggedMount<L> = Unlogged<GitNaming, Mount<GitNaming>, L>;

/// Serves the frames to one caller.
fn served(alloc: Global, mount: &mut Mount<GitNaming>, frames: &[u8], room: Vec<u8>) -> Served {
    let mut text = room;
    let mut reader = Counted::new(frames);
    let mut writer = Counted::new(&mut text);
    let ended = serve(alloc, &mut reader, &mut writer, mount);
    (text, ended)
}

/// A mount serves the frames, and again where memory was refused.
fn serve_twice(
    rt: &HostRuntime,
    refusals: &mut Refusals,
    mount: &mut Mount<GitNaming>,
    frames: &[u8],
) -> Result<()> {
    let alloc = rt.alloc();
    let place = room(alloc, refusals)?;
    let first = served(alloc, mount, frames, place);
    if is_cut(refusals, &first) {
        let place = room(alloc, refusals)?;
        let whole = served(alloc, mount, frames, place);
        return tell_served(rt, alloc, refusals, Some(first.0), whole);
    }
    tell_served(rt, alloc, refusals, None, first)
}

/// Frames are served to one caller.
pub(crate) fn serve_frames(rt: &HostRuntime) -> Result<u64> {
    let alloc = rt.alloc();
    let mut refusals = Refusals::new();
    let mut mount = mounted(alloc, &mut refusals)?;
    let frames = frames(alloc, &mut refusals)?;
    serve_twice(rt, &mut refusals, &mut mount, frames.as_slice())?;
    Ok(refusals.count())
}

/// Serves the frames by the lock.
fn served_behind<L: Origin, W: Wait + Clock>(
    wait: &W,
    alloc: Global,
    unlogged: &UnloggedMount<L>,
    frames: &[u8],
    room: Vec<u8>,
) -> Served {
    let mut text = room;
    let mut reader = Counted::new(frames);
    let mut writer = Counted::new(&mut text);
    let ended = serve_unlogged(
        wait,
        alloc,
        &mut reader,
        &mut writer,
        unlogged,
        &mut None,
        &Present,
    );
    (text, ended)
}

/// The reply to a request.
fn ask<L: Origin>(
    wait: &impl Wait,
    unlogged: &UnloggedMount<L>,
    request: &Request,
) -> Result<Reply, NoMemory> {
    unlogged.ask(wait, request)
}

/// Makes a change.
fn change<L: Origin>(
    wait: &impl Wait,
    unlogged: &UnloggedMount<L>,
    pass: &mut Pass<L>,
    change: &Change,
) -> Result<Answer, NoMemory> {
    unlogged.change(wait, pass, change)
}

/// Asks, and tells the reply.
fn tell_asked<L: Origin>(
    rt: &HostRuntime,
    wait: &impl Wait,
    refusals: &mut Refusals,
    unlogged: &UnloggedMount<L>,
    request: &Request,
) -> Result<()> {
    let reply = again!(refusals, _, ask(wait, unlogged, request));
    tell_reply(rt, &reply)
}

/// A change is made, and again where memory was refused: the files are as before then.
fn change_again<L: Origin>(
    wait: &impl Wait,
    refusals: &mut Refusals,
    unlogged: &UnloggedMount<L>,
    pass: &mut Pass<L>,
    made: &Change,
    basis: &Request,
) -> Result<()> {
    let before = again!(refusals, _, ask(wait, unlogged, basis));
    if change(wait, unlogged, pass, made).is_ok() {
        return Ok(());
    }
    refusals.add();
    if ask(wait, unlogged, basis)? != before {
        bail!("a change that was refused memory changed the mount");
    }
    let _ = change(wait, unlogged, pass, made)?;
    Ok(())
}

/// A third file is written.
fn write_third<L: Origin>(
    wait: &impl Wait,
    alloc: Global,
    refusals: &mut Refusals,
    unlogged: &UnloggedMount<L>,
    pass: &mut Pass<L>,
) -> Result<()> {
    let third = again!(refusals, _, write(alloc, b"f".as_slice(), b"x".as_slice()));
    change_again(wait, refusals, unlogged, pass, &third, &basis(alloc))
}

/// Tells all files, and the third one.
fn tell_third<L: Origin>(
    rt: &HostRuntime,
    wait: &impl Wait,
    refusals: &mut Refusals,
    unlogged: &UnloggedMount<L>,
) -> Result<()> {
    let alloc = rt.alloc();
    tell_asked(rt, wait, refusals, unlogged, &basis(alloc))?;
    let fetch = again!(refusals, _, fetch(alloc, b"f".as_slice()));
    tell_asked(rt, wait, refusals, unlogged, &fetch)
}

/// The lock serves the frames, and again where memory was refused.
fn serve_behind_twice<L: Origin, W: Wait + Clock>(
    rt: &HostRuntime,
    wait: &W,
    refusals: &mut Refusals,
    unlogged: &UnloggedMount<L>,
    frames: &[u8],
) -> Result<()> {
    let alloc = rt.alloc();
    let place = room(alloc, refusals)?;
    let first = served_behind(wait, alloc, unlogged, frames, place);
    if is_cut(refusals, &first) {
        let place = room(alloc, refusals)?;
        let whole = served_behind(wait, alloc, unlogged, frames, place);
        return tell_served(rt, alloc, refusals, Some(first.0), whole);
    }
    tell_served(rt, alloc, refusals, None, first)
}

/// Calls a lock as a connection to a daemon that stays does: frames are served, and the mount is changed and asked.
fn stay_behind<L: Origin, W: Wait + Clock>(
    rt: &HostRuntime,
    wait: &W,
    mut refusals: Refusals,
    mount: Mount<GitNaming>,
    blank: Blank,
) -> Result<u64>
    requires opens { (world : WorldState) → L.opens world → StandsFor mount world }
    requires name { blank.name ≡ L.name }
    requires parts { blank.parts ≡ L.parts }
    requires whole { blank.parts ≡ 2048 }
{
    let alloc = rt.alloc();
    let (unlogged, mut passes) = Unlogged::<GitNaming, _, L>::new(mount, blank);
    let mut pass = passes.give()?;
    let frames = frames(alloc, &mut refusals)?;
    serve_behind_twice(rt, wait, &mut refusals, &unlogged, frames.as_slice())?;
    write_third(wait, alloc, &mut refusals, &unlogged, &mut pass)?;
    tell_third(rt, wait, &mut refusals, &unlogged)?;
    Ok(refusals.count())
}

/// Calls a lock over a mount of its own.
pub(crate) fn stay<W: Wait + Clock>(rt: &HostRuntime, wait: &W) -> Result<u64> {
    let mut refusals = Refusals::new();
    let mount = mounted(rt.alloc(), &mut refusals)?;
    stay_behind::<Brand, W>(rt, wait, refusals, mount, Blank::new(2048))
}
