//! Requests that wait for a change, by a lock of which nothing is logged.

ghost use Rattle.std.specs.Prelude.{◌≡◌};
ghost use Rattle.eden_accumulate.specs.Mounts.{StandsFor};
ghost use Rattle.eden_history.specs.Worlds.{WorldState};

use crate::mounts::{basis, changes, files, mounted, poll_for};
use crate::unlogged::UnloggedMount;
use eden_accumulate::Mount;
use eden_history::Change;
use eden_ids::GitNaming;
use eden_messages::{Cause, Reply, Request};
use eden_shared::{Origin, Pass, Peer, Present, Unlogged};
use std::alloc::Global;
use std::marker::Brand;
use std::process::Abort;
use std::sync::Wait;
use std::sync::ledger::{Blank, Ledger};
use std::test::Fail;
use std::thread;
use std::thread::Threads;
use std::time::{Clock, Duration, Instant};
use test_kit::write;

/// A patience, in milliseconds, that no test sees the end of.
const LONG: u64 = 50_000;

/// Within how many milliseconds a request is answered that does not wait for its patience.
const SOON: u64 = 20_000;

/// A patience that ends by itself.
const SHORT: u64 = 100;

/// How many milliseconds pass before each thing that another thread does.
const PAUSE: u64 = 20;

/// A peer that left at once.
#[derive(Clone, Copy, PartialEq, Eq)]
struct Gone;

impl Peer for Gone {
    fn is_gone(&self) -> bool {
        true
    }
}

/// A poll of `a` since the mount, what another thread does meanwhile, and the reply.
#[derive(Clone, Copy)]
struct Case {
    /// Which files are written before it.
    before: &'static [&'static str],
    patience: u64,
    /// Which files are written meanwhile.
    meanwhile: &'static [&'static str],
    /// Whether the patience of all requests is ended after that.
    ends: bool,
    /// The number of the reply, and the files that it names.
    reply: (u64, &'static [&'static str]),
    /// How many milliseconds it takes at least.
    least: u64,
}

const CASES: &[Case] = &[
    // Something has changed, and other files have.
    Case {
        before: &["b", "a"],
        patience: LONG,
        meanwhile: &[],
        ends: false,
        reply: (3, &["a"]),
        least: 0,
    },
    // A change comes while it waits, after changes of other files.
    Case {
        before: &["b"],
        patience: LONG,
        meanwhile: &["c", "d", "a"],
        ends: false,
        reply: (5, &["a"]),
        least: 0,
    },
    // No change of this file comes, until its patience is up or ended.
    Case {
        before: &["b"],
        patience: SHORT,
        meanwhile: &[],
        ends: false,
        reply: (2, &[]),
        least: SHORT,
    },
    Case {
        before: &["b"],
        patience: LONG,
        meanwhile: &[],
        ends: true,
        reply: (2, &[]),
        least: 0,
    },
    // It has no patience.
    Case {
        before: &[],
        patience: 0,
        meanwhile: &[],
        ends: false,
        reply: (1, &[]),
        least: 0,
    },
];

/// Asks with patience, and returns the reply and how many milliseconds it took.
fn ask<L: Origin, P: Peer, R: Wait + Clock>(
    rt: &R,
    unlogged: &UnloggedMount<L>,
    request: &Request,
    patience: u64,
    peer: &P,
) -> Option<(Reply, u128)> {
    let start = Instant::now(rt).ok()?;
    let patience = Duration::from_millis(patience);
    let reply = unlogged.ask_patiently(rt, request, patience, peer).ok()?;
    Some((reply, start.elapsed(rt).ok()?.as_millis()))
}

/// Returns writes of these files.
fn writes(alloc: Global, paths: &[&str]) -> Result<Vec<Change>, Fail> {
    let mut changes = Vec::new(alloc);
    for path in paths {
        changes.push(write(alloc, path, "x")?)?;
    }
    Ok(changes)
}

/// Makes changes one after another, and may end the patience of all requests then.
///
/// Returns whether all changes were made.
fn act<L: Origin, R: Wait + Clock>(
    rt: &R,
    unlogged: &UnloggedMount<L>,
    pass: &mut Pass<L>,
    changes: &[Change],
    ends: bool,
) -> bool {
    for change in changes {
        thread::sleep(rt, Duration::from_millis(PAUSE));
        if unlogged.change(rt, pass, change).is_err() {
            return false;
        }
    }
    if ends {
        thread::sleep(rt, Duration::from_millis(PAUSE));
        unlogged.end_patience(rt);
    }
    true
}

/// Asserts that a reply is that of a case, and came when it should.
fn check_reply(
    rt: &impl Abort,
    alloc: Global,
    case: &Case,
    told: Option<(Reply, u128)>,
) -> Result<(), Fail> {
    let (reply, took) = told.ok_or("a request has no reply")?;
    let (number, named) = case.reply;
    assert!(rt; reply == changes(alloc, number, named)?);
    assert!(rt; u128::from(case.least) <= took && took < u128::from(SOON));
    Ok(())
}

/// Writes these files.
fn write_before<L: Origin, R: Wait + Abort + Clock>(
    rt: &R,
    alloc: Global,
    unlogged: &UnloggedMount<L>,
    pass: &mut Pass<L>,
    paths: &[&str],
) -> Result<(), Fail> {
    let changes = writes(alloc, paths)?;
    assert!(rt; act(rt, unlogged, pass, changes.as_slice(), false));
    Ok(())
}

/// Asks in one thread while another one makes changes, and then again.
fn play_at_once<L: Origin + Send + Sync, R: Threads + Wait + Abort + Clock + Sync>(
    rt: &R,
    alloc: Global,
    unlogged: &UnloggedMount<L>,
    pass: &mut Pass<L>,
    case: Case,
    request: &Request,
    meanwhile: &[Change],
) -> Result<(), Fail> {
    let (told, acted) = thread::join(
        rt,
        || ask(rt, unlogged, request, case.patience, &Present),
        || act(rt, unlogged, pass, meanwhile, case.ends),
    );
    assert!(rt; acted);
    check_reply(rt, alloc, &case, told)?;
    check_reply(
        rt,
        alloc,
        &case,
        ask(rt, unlogged, request, case.patience, &Present),
    )
}

/// Plays a case.
fn play<L: Origin + Send + Sync, R: Threads + Wait + Abort + Clock + Sync>(
    rt: &R,
    alloc: Global,
    unlogged: &UnloggedMount<L>,
    pass: &mut Pass<L>,
    case: Case,
) -> Result<(), Fail> {
    write_before(rt, alloc, unlogged, pass, case.before)?;
    let meanwhile = writes(alloc, case.meanwhile)?;
    let request = poll_for(alloc, 1, "a")?;
    play_at_once(
        rt,
        alloc,
        unlogged,
        pass,
        case,
        &request,
        meanwhile.as_slice(),
    )
}

/// Asks with a long patience.
fn ask_long<L: Origin, P: Peer, R: Wait + Clock>(
    rt: &R,
    unlogged: &UnloggedMount<L>,
    request: &Request,
    peer: &P,
) -> Result<Reply, Fail> {
    let patience = Duration::from_millis(LONG);
    Ok(unlogged.ask_patiently(rt, request, patience, peer)?)
}

/// Returns whether the reply to a basis is that there is no file.
fn answers_basis<L: Origin, R: Wait + Clock>(
    rt: &R,
    alloc: Global,
    unlogged: &UnloggedMount<L>,
) -> Result<bool, Fail> {
    let told = ask_long(rt, unlogged, &basis(alloc), &Present)?;
    Ok(told == files(alloc, 1, &[])?)
}

/// Returns whether a poll since a number to come is refused.
fn refuses_ahead<L: Origin, R: Wait + Clock>(
    rt: &R,
    alloc: Global,
    unlogged: &UnloggedMount<L>,
) -> Result<bool, Fail> {
    let request = poll_for(alloc, 9, "a")?;
    let told = ask_long(rt, unlogged, &request, &Present)?;
    Ok(matches!(
        &told,
        Reply::Refused {
            cause: Cause::Ahead(1),
            ..
        }
    ))
}

/// Returns whether a peer that is gone gets a reply of no change.
fn answers_gone<L: Origin, R: Wait + Clock>(
    rt: &R,
    alloc: Global,
    unlogged: &UnloggedMount<L>,
) -> Result<bool, Fail> {
    let request = poll_for(alloc, 1, "a")?;
    let told = ask_long(rt, unlogged, &request, &Gone)?;
    Ok(told == changes(alloc, 1, &[])?)
}

/// Asks what never waits: other requests than a poll, and a poll that is refused or of a peer that
/// is gone.
fn ask_others<L: Origin, R: Wait + Abort + Clock>(
    rt: &R,
    alloc: Global,
    unlogged: &UnloggedMount<L>,
) -> Result<(), Fail> {
    let start = Instant::now(rt)?;
    assert!(rt; answers_basis(rt, alloc, unlogged)?);
    assert!(rt; refuses_ahead(rt, alloc, unlogged)?);
    assert!(rt; answers_gone(rt, alloc, unlogged)?);
    assert!(rt; start.elapsed(rt)?.as_millis() < u128::from(SOON));
    Ok(())
}

/// Plays a case, or asks what never waits if there is none.
fn play_behind<L: Origin + Send + Sync, R: Threads + Wait + Abort + Clock + Sync>(
    rt: &R,
    alloc: Global,
    mount: Mount<GitNaming>,
    blank: Blank,
    case: Option<Case>,
) -> Result<(), Fail>
    requires opens { (world : WorldState) → L.opens world → StandsFor mount world }
    requires name { blank.name ≡ L.name }
    requires parts { blank.parts ≡ L.parts }
    requires whole { blank.parts ≡ 2048 }
{
    let (unlogged, mut passes) = Unlogged::<GitNaming, _, L>::new(mount, blank);
    let mut pass = passes.give()?;
    match case {
        Some(case) => play(rt, alloc, &unlogged, &mut pass, case),
        None => ask_others(rt, alloc, &unlogged),
    }
}

/// The same of a mount of its own.
fn play_alone<R: Threads + Wait + Abort + Clock + Sync>(
    rt: &R,
    alloc: Global,
    case: Option<Case>,
) -> Result<(), Fail> {
    play_behind::<Brand, R>(rt, alloc, mounted(alloc)?, Blank::new(2048), case)
}

#[test]
fn a_poll_waits_for_what_it_names(rt: HostRuntime) -> Result<(), Fail> {
    for case in CASES {
        play_alone(&rt, rt.alloc(), Some(*case))?;
    }
    Ok(())
}

#[test]
fn nothing_else_waits(rt: HostRuntime) -> Result<(), Fail> {
    play_alone(&rt, rt.alloc(), None)
}
