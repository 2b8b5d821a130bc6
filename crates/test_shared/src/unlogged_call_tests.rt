//! Calls of one thread to a lock of which nothing is logged, one after another.

ghost use Rattle.std.specs.Prelude.{◌≡◌};
ghost use Rattle.eden_accumulate.specs.Mounts.{StandsFor};
ghost use Rattle.eden_history.specs.Worlds.{WorldState};

use crate::mounts::{changes, fetch, file, mounted, poll, position};
use crate::unlogged::{UnloggedMount, ends_at};
use eden_accumulate::Mount;
use eden_history::{Answer, Change};
use eden_ids::GitNaming;
use eden_messages::Request;
use eden_query::answer_request;
use eden_shared::{CallersSpent, Holding, Origin, Pass, PassOut, Passes, Unlogged};
use std::alloc::Global;
use std::marker::Brand;
use std::process::Abort;
use std::sync::Wait;
use std::sync::ledger::{Blank, Ledger};
use std::test::Fail;
use test_kit::write;

/// Writes a file, by which the mount comes to this number.
fn write_at<L: Origin>(
    rt: &(impl Wait + Abort),
    unlogged: &UnloggedMount<L>,
    pass: &mut Pass<L>,
    change: &Change,
    sequence: u64,
) -> Result<(), Fail> {
    let written = unlogged.change(rt, pass, change)?;
    assert!(rt; written == Answer::At(position(sequence)));
    Ok(())
}

/// Writes `a`, and asks for it.
fn write_and_fetch<L: Origin>(
    rt: &(impl Wait + Abort),
    alloc: Global,
    unlogged: &UnloggedMount<L>,
    pass: &mut Pass<L>,
) -> Result<(), Fail> {
    write_at(rt, unlogged, pass, &write(alloc, "a", "x")?, 2)?;
    let told = unlogged.ask(rt, &fetch(alloc, "a")?)?;
    assert!(rt; told == file(alloc, 2, "a", "x")?);
    Ok(())
}

/// Checks that the reply to what was held names `a` alone.
fn is_of_then(
    rt: &impl Abort,
    alloc: Global,
    holding: Holding<GitNaming>,
    request: &Request,
) -> Result<(), Fail> {
    let Holding { raw, store, .. } = holding;
    let told = answer_request(alloc, raw, &store, request)?;
    assert!(rt; told == changes(alloc, 2, &["a"])?);
    Ok(())
}

/// Writes `b` between a hold and its reply.
fn hold_and_write<L: Origin>(
    rt: &(impl Wait + Abort),
    alloc: Global,
    unlogged: &UnloggedMount<L>,
    pass: &mut Pass<L>,
    request: &Request,
) -> Result<(), Fail> {
    let change = write(alloc, "b", "y")?;
    let holding = unlogged.hold(rt, request)?;
    write_at(rt, unlogged, pass, &change, 3)?;
    is_of_then(rt, alloc, holding, request)
}

/// Writes and asks, also between a hold and its reply.
fn write_and_ask<L: Origin>(
    rt: &(impl Wait + Abort),
    alloc: Global,
    unlogged: &UnloggedMount<L>,
    pass: &mut Pass<L>,
) -> Result<(), Fail> {
    write_and_fetch(rt, alloc, unlogged, pass)?;
    let request = poll(alloc);
    hold_and_write(rt, alloc, unlogged, pass, &request)?;
    let told = unlogged.ask(rt, &request)?;
    assert!(rt; told == changes(alloc, 3, &["a", "b"])?);
    Ok(())
}

/// Calls with a pass that is given for that, and returns it.
fn call_with_pass<L: Origin>(
    rt: &(impl Wait + Abort),
    alloc: Global,
    unlogged: &UnloggedMount<L>,
    passes: &mut Passes<L>,
) -> Result<Pass<L>, Fail> {
    let mut pass = passes.give()?;
    write_and_ask(rt, alloc, unlogged, &mut pass)?;
    Ok(pass)
}

/// Takes back the pass that was out, and finishes the lock.
fn finish_with<L: Origin>(
    rt: &impl Abort,
    missing: PassOut<GitNaming, Mount<GitNaming>, L>,
    pass: Pass<L>,
) -> Result<(), Fail> {
    let PassOut {
        unlogged,
        mut passes,
    } = missing;
    passes.take_back(pass);
    ends_at(rt, unlogged, passes, 3)
}

/// Checks that the lock is not finished while a pass is out.
fn finish_twice<L: Origin>(
    rt: &impl Abort,
    unlogged: UnloggedMount<L>,
    passes: Passes<L>,
    pass: Pass<L>,
) -> Result<(), Fail> {
    match unlogged.finish(passes) {
        Ok(_) => Err(Fail::new("a pass was out")),
        Err(missing) => finish_with(rt, missing, pass),
    }
}

/// Calls a lock, which gives the server back once it has all passes.
fn call_and_finish<L: Origin>(
    rt: &(impl Wait + Abort),
    alloc: Global,
    mount: Mount<GitNaming>,
    blank: Blank,
) -> Result<(), Fail>
    requires opens { (world : WorldState) → L.opens world → StandsFor mount world }
    requires name { blank.name ≡ L.name }
    requires parts { blank.parts ≡ L.parts }
    requires whole { blank.parts ≡ 2048 }
{
    let (unlogged, mut passes) = Unlogged::<GitNaming, _, L>::new(mount, blank);
    let pass = call_with_pass(rt, alloc, &unlogged, &mut passes)?;
    finish_twice(rt, unlogged, passes, pass)
}

#[test]
fn replies_are_of_the_hold(rt: HostRuntime) -> Result<(), Fail> {
    let alloc = rt.alloc();
    call_and_finish::<Brand>(&rt, alloc, mounted(alloc)?, Blank::new(2048))
}

/// Returns all passes: their numbers are 1 to 2,047, and the next is refused.
fn given<L: Origin>(
    rt: &impl Abort,
    alloc: Global,
    passes: &mut Passes<L>,
) -> Result<Vec<Pass<L>>, Fail> {
    let mut all = Vec::new(alloc);
    for number in 1..=2_047_u64 {
        let pass = passes.give()?;
        assert_eq!(rt; pass.caller(), number);
        all.push(pass)?;
    }
    assert_eq!(rt; passes.give().err(), Some(CallersSpent));
    Ok(all)
}

/// Gives and takes back all passes, of which none is given again.
fn give_and_take_back<L: Origin>(
    rt: &impl Abort,
    alloc: Global,
    passes: &mut Passes<L>,
) -> Result<(), Fail> {
    for pass in given(rt, alloc, passes)? {
        passes.take_back(pass);
    }
    assert_eq!(rt; passes.give().err(), Some(CallersSpent));
    Ok(())
}

/// Gives and takes back all passes of a lock, and finishes it.
fn give_all<L: Origin>(
    rt: &(impl Wait + Abort),
    alloc: Global,
    mount: Mount<GitNaming>,
    blank: Blank,
) -> Result<(), Fail>
    requires opens { (world : WorldState) → L.opens world → StandsFor mount world }
    requires name { blank.name ≡ L.name }
    requires parts { blank.parts ≡ L.parts }
    requires whole { blank.parts ≡ 2048 }
{
    let (unlogged, mut passes) = Unlogged::<GitNaming, _, L>::new(mount, blank);
    give_and_take_back(rt, alloc, &mut passes)?;
    ends_at(rt, unlogged, passes, 1)
}

#[test]
fn passes_of_an_unlogged_lock(rt: HostRuntime) -> Result<(), Fail> {
    let alloc = rt.alloc();
    give_all::<Brand>(&rt, alloc, mounted(alloc)?, Blank::new(2048))
}
