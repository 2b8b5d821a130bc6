//! Two callers at their desks, a follower that asks through one of them, and what an audit says of their logs.

ghost use Rattle.std.specs.Prelude.{◌≡◌, [], IfOk};

use crate::refusals::{Refusals, again};
use crate::replies::{Served, frames, is_cut, mounted, room, tell_served, write};
use crate::rounds::{shown, tell_held};
use anyhow::{Result, bail};
use eden_accumulate::Mount;
use eden_follow::{Follower, VouchFault, vouch};
use eden_globs::Filter;
use eden_history::Change;
use eden_ids::{GitNaming, NoMemory};
use eden_logs::CallAnswer;
use eden_messages::{Outcome, Reply, Request};
use eden_shared::{
    AuditFault, Audited, CallLog, Desk, OpenGate, Pass, Shared, audit, serve_shared,
};
use eden_stream::Counted;
use std::alloc::Global;
use std::marker::Brand;
use std::sync::Wait;
use std::sync::ledger::{Blank, Ledger};

/// A mount that stores its history, behind a lock.
type AuditedMount<L> = Shared<GitNaming, Audited<GitNaming>, L>;

/// A lock, a desk for a caller that writes and one for a service, and the follower that asks this one.
#[derive(Drop)]
struct Office<L: Ledger> {
    alloc: Global,
    refusals: Refusals,
    shared: AuditedMount<L>,
    writer: Desk<L>,
    service: Desk<L>,
    follower: Follower,
}

/// A mount that stores its history, made again where memory was refused: the mount is given back then.
fn audited(
    alloc: Global,
    refusals: &mut Refusals,
    mount: Mount<GitNaming>,
) -> Result<Audited<GitNaming>>
    ensures { IfOk result (λ audited. audited.entries ≡ []) }
{
    match Audited::new(alloc, mount) {
        Ok(audited) => Ok(audited),
        Err(fault) => {
            refusals.add();
            Ok(Audited::new(alloc, fault.mount)?)
        }
    }
}

/// The lock of a mount of two files.
fn behind<L: Ledger>(
    alloc: Global,
    refusals: &mut Refusals,
    blank: Blank,
) -> Result<AuditedMount<L>>
    requires name { blank.name ≡ L.name }
    requires parts { blank.parts ≡ L.parts }
    requires whole { blank.parts ≡ 256 }
{
    let mount = mounted(alloc, refusals)?;
    let audited = audited(alloc, refusals, mount)?;
    Ok(AuditedMount::<L>::new(audited, blank))
}

/// A desk for one more caller.
fn desk<L: Ledger>(wait: &impl Wait, alloc: Global, shared: &AuditedMount<L>) -> Result<Desk<L>> {
    Ok(Desk::new(alloc, shared.pass(wait)?))
}

/// Desks for a caller that writes and for a service.
fn two_desks<L: Ledger>(
    wait: &impl Wait,
    alloc: Global,
    shared: &AuditedMount<L>,
) -> Result<(Desk<L>, Desk<L>)> {
    let writer = desk(wait, alloc, shared)?;
    Ok((writer, desk(wait, alloc, shared)?))
}

/// Opens the lock of a mount of two files, with two desks.
fn open<L: Ledger>(wait: &impl Wait, alloc: Global, blank: Blank) -> Result<Office<L>>
    requires name { blank.name ≡ L.name }
    requires parts { blank.parts ≡ L.parts }
    requires whole { blank.parts ≡ 256 }
{
    let mut refusals = Refusals::new();
    let shared = behind::<L>(alloc, &mut refusals, blank)?;
    let (writer, service) = two_desks(wait, alloc, &shared)?;
    Ok(Office {
        alloc,
        refusals,
        shared,
        writer,
        service,
        follower: Follower::new(alloc, 3, 1, Filter::all(alloc)),
    })
}

/// Makes a change. Where memory was refused, it may have been taken, and the log says then that it has no answer.
fn change<L: Ledger>(
    wait: &impl Wait,
    shared: &AuditedMount<L>,
    desk: &mut Desk<L>,
    change: &Change,
) -> Result<(), NoMemory> {
    let _ = desk.change(wait, shared, change)?;
    Ok(())
}

/// Asks. The same holds.
fn ask<L: Ledger>(
    wait: &impl Wait,
    shared: &AuditedMount<L>,
    desk: &mut Desk<L>,
    request: &Request,
) -> Result<(u64, Reply), NoMemory> {
    desk.ask(wait, shared, request, &OpenGate)
}

/// Serves the frames.
fn served<L: Ledger>(
    wait: &impl Wait,
    alloc: Global,
    shared: &AuditedMount<L>,
    desk: &mut Desk<L>,
    frames: &[u8],
    room: Vec<u8>,
) -> Served {
    let mut text = room;
    let mut reader = Counted::new(frames);
    let mut writer = Counted::new(&mut text);
    let ended = serve_shared(
        wait,
        alloc,
        &mut reader,
        &mut writer,
        shared,
        desk,
        &OpenGate,
    );
    (text, ended)
}

/// Takes the follower's next step, and again where memory was refused: nothing has changed then.
fn step(alloc: Global, refusals: &mut Refusals, follower: &mut Follower) -> Result<Vec<Request>> {
    let before = again!(refusals, _, shown(alloc, follower.mirror()));
    match follower.step() {
        Ok(requests) => Ok(requests),
        Err(_) => {
            refusals.add();
            if shown(alloc, follower.mirror())? != before {
                bail!("a step that was refused memory changed the mirror");
            }
            Ok(follower.step()?)
        }
    }
}

/// Delivers a reply to the follower, and again where memory was refused: nothing has changed then.
fn deliver(
    alloc: Global,
    refusals: &mut Refusals,
    follower: &mut Follower,
    ticket: u64,
    reply: &Reply,
) -> Result<Outcome> {
    let before = again!(refusals, _, shown(alloc, follower.mirror()));
    match follower.deliver(ticket, reply) {
        Ok(outcome) => Ok(outcome),
        Err(_) => {
            refusals.add();
            if shown(alloc, follower.mirror())? != before {
                bail!("a reply that was refused memory changed the mirror");
            }
            Ok(follower.deliver(ticket, reply)?)
        }
    }
}

/// Writes a file.
fn write_at<L: Ledger>(wait: &impl Wait, office: &mut Office<L>, at: &[u8]) -> Result<()> {
    let alloc = office.alloc;
    let made = again!(office.refusals, _, write(alloc, at, b"x".as_slice()));
    again!(
        office.refusals,
        _,
        change(wait, &office.shared, &mut office.writer, &made)
    );
    Ok(())
}

/// The follower asks all that it is to ask, and is told.
fn ask_all<L: Ledger>(rt: &HostRuntime, wait: &impl Wait, office: &mut Office<L>) -> Result<()> {
    let alloc = office.alloc;
    let requests = step(alloc, &mut office.refusals, &mut office.follower)?;
    for request in &requests {
        let (ticket, reply) = again!(
            office.refusals,
            _,
            ask(wait, &office.shared, &mut office.service, request)
        );
        let outcome = deliver(
            alloc,
            &mut office.refusals,
            &mut office.follower,
            ticket,
            &reply,
        )?;
        println!(rt; "{outcome:?}")?;
    }
    Ok(())
}

/// Serves the frames at the writer's desk.
fn serve_once<L: Ledger>(
    wait: &impl Wait,
    office: &mut Office<L>,
    frames: &[u8],
) -> Result<Served> {
    let alloc = office.alloc;
    let place = room(alloc, &mut office.refusals)?;
    Ok(served(
        wait,
        alloc,
        &office.shared,
        &mut office.writer,
        frames,
        place,
    ))
}

/// The frames are served, and again where that was cut.
fn serve_all<L: Ledger>(rt: &HostRuntime, wait: &impl Wait, office: &mut Office<L>) -> Result<()> {
    let alloc = office.alloc;
    let frames = frames(alloc, &mut office.refusals)?;
    let first = serve_once(wait, office, frames.as_slice())?;
    if is_cut(&mut office.refusals, &first) {
        let whole = serve_once(wait, office, frames.as_slice())?;
        return tell_served(rt, alloc, &mut office.refusals, Some(first.0), whole);
    }
    tell_served(rt, alloc, &mut office.refusals, None, first)
}

/// How many entries of a log have no answer.
fn unanswered(log: &CallLog) -> usize {
    let entries = log.entries.as_slice().iter();
    entries
        .filter(|entry| entry.answer == CallAnswer::Unanswered)
        .count()
}

/// What an audit says, asked again where memory was refused.
fn verdict(
    alloc: Global,
    refusals: &mut Refusals,
    audited: &mut Audited<GitNaming>,
    logs: &[CallLog],
) -> Result<(), AuditFault> {
    let said = audit(alloc, audited, logs);
    if said != Err(AuditFault::NoMemory) {
        return said;
    }
    refusals.add();
    audit(alloc, audited, logs)
}

/// Whether the logs vouch for the follower, asked again where memory was refused.
fn vouched(
    alloc: Global,
    refusals: &mut Refusals,
    logs: &[CallLog],
    follower: &Follower,
) -> Result<(), VouchFault> {
    let said = vouch(alloc, logs, follower);
    if said != Err(VouchFault::NoMemory) {
        return said;
    }
    refusals.add();
    vouch(alloc, logs, follower)
}

/// Tells what is said of the logs, and of the first one alone.
fn tell_verdicts(
    rt: &HostRuntime,
    refusals: &mut Refusals,
    audited: &mut Audited<GitNaming>,
    logs: &[CallLog],
    follower: &Follower,
) -> Result<()> {
    let alloc = rt.alloc();
    for logs in [logs, logs.get(..1).unwrap_or(&[])] {
        match verdict(alloc, refusals, audited, logs) {
            Ok(()) => println!(rt; "audit ok")?,
            Err(fault) => println!(rt; "audit {fault:?}")?,
        }
        match vouched(alloc, refusals, logs, follower) {
            Ok(()) => println!(rt; "vouched")?,
            Err(fault) => println!(rt; "not vouched: {fault:?}")?,
        }
    }
    Ok(())
}

/// What callers hand back.
#[derive(Drop)]
struct Given<L: Ledger> {
    passes: Vec<Pass<L>>,
    logs: Vec<CallLog>,
}

/// Room for what two callers hand back.
fn room_for_two<L: Ledger>(alloc: Global, refusals: &mut Refusals) -> Result<Given<L>> {
    let passes = again!(refusals, _, Vec::with_capacity(alloc, 2));
    let logs = again!(refusals, _, Vec::with_capacity(alloc, 2));
    Ok(Given { passes, logs })
}

/// Takes what a desk hands back. Says whether there was room for it.
fn take<L: Ledger>(given: &mut Given<L>, desk: Desk<L>) -> bool {
    let (pass, log) = desk.finish();
    given.passes.push(pass).is_ok() && given.logs.push(log).is_ok()
}

/// Takes what both desks hand back.
fn take_both<L: Ledger>(given: &mut Given<L>, writer: Desk<L>, service: Desk<L>) -> Result<()> {
    if take(given, writer) && take(given, service) {
        return Ok(());
    }
    bail!("there is no room for what callers hand back")
}

/// What is left of an office once all is handed back.
#[derive(Drop)]
struct Closed {
    refusals: Refusals,
    audited: Audited<GitNaming>,
    logs: Vec<CallLog>,
    follower: Follower,
}

/// Hands all back, into a place with room for it.
fn hand_back<L: Ledger>(office: Office<L>, given: Given<L>) -> Result<Closed> {
    let Office {
        refusals,
        shared,
        writer,
        service,
        follower,
        ..
    } = office;
    let mut given = given;
    take_both(&mut given, writer, service)?;
    let Given { passes, logs } = given;
    let audited = shared.finish(passes)?;
    Ok(Closed {
        refusals,
        audited,
        logs,
        follower,
    })
}

/// Tells what is said of the logs, and what the follower holds. At the most the calls that were refused memory have no answer in the logs.
fn tell_closed(rt: &HostRuntime, closed: &mut Closed) -> Result<u64> {
    let count = closed.refusals.count();
    if closed.logs.iter().any(|log| unanswered(log) as u64 > count) {
        bail!("more calls have no answer than were refused memory");
    }
    tell_verdicts(
        rt,
        &mut closed.refusals,
        &mut closed.audited,
        closed.logs.as_slice(),
        &closed.follower,
    )?;
    tell_held(rt, &mut closed.refusals, closed.follower.mirror())?;
    Ok(closed.refusals.count())
}

/// Hands all back.
fn close<L: Ledger>(office: Office<L>) -> Result<Closed> {
    let mut office = office;
    let given = room_for_two::<L>(office.alloc, &mut office.refusals)?;
    hand_back(office, given)
}

/// Hands all back, and tells what is said of that.
fn close_and_tell<L: Ledger>(rt: &HostRuntime, office: Office<L>) -> Result<u64> {
    tell_closed(rt, &mut close(office)?)
}

/// Two callers make their calls.
fn call_in<L: Ledger>(rt: &HostRuntime, wait: &impl Wait, office: &mut Office<L>) -> Result<()> {
    ask_all(rt, wait, office)?;
    ask_all(rt, wait, office)?;
    write_at(wait, office, b"p".as_slice())?;
    ask_all(rt, wait, office)?;
    ask_all(rt, wait, office)
}

/// Two callers make their calls, and are audited.
fn call_all<L: Ledger>(rt: &HostRuntime, wait: &impl Wait, blank: Blank) -> Result<u64>
    requires name { blank.name ≡ L.name }
    requires parts { blank.parts ≡ L.parts }
    requires whole { blank.parts ≡ 256 }
{
    let mut office = open::<L>(wait, rt.alloc(), blank)?;
    call_in(rt, wait, &mut office)?;
    close_and_tell(rt, office)
}

/// Calls at desks, a follower's questions among them.
pub(crate) fn call(rt: &HostRuntime, wait: &impl Wait) -> Result<u64> {
    call_all::<Brand>(rt, wait, Blank::new(256))
}

/// Frames are served at a desk, and audited.
fn serve_office<L: Ledger>(rt: &HostRuntime, wait: &impl Wait, blank: Blank) -> Result<u64>
    requires name { blank.name ≡ L.name }
    requires parts { blank.parts ≡ L.parts }
    requires whole { blank.parts ≡ 256 }
{
    let mut office = open::<L>(wait, rt.alloc(), blank)?;
    serve_all(rt, wait, &mut office)?;
    close_and_tell(rt, office)
}

/// Frames that are served at a desk.
pub(crate) fn serve_desk(rt: &HostRuntime, wait: &impl Wait) -> Result<u64> {
    serve_office::<Brand>(rt, wait, Blank::new(256))
}
