//! How many passes a lock gives, and that it wants all of them back.

ghost use Rattle.std.specs.Prelude.{◌≡◌};

use crate::audits::{AuditedMount, Ended, close, end_both, opened};
use eden_ids::{GitNaming, Id};
use eden_objects::Store;
use eden_shared::{Audited, CallLog, CallersSpent, Desk, Pass, PassMissing};
use std::alloc::Global;
use std::marker::Brand;
use std::process::Abort;
use std::sync::Wait;
use std::sync::ledger::{Blank, Ledger};
use std::test::Fail;
use test_kit::write;

/// Each of two callers writes a file. Gives both tickets.
fn write_each<L: Ledger>(
    rt: &impl Wait,
    alloc: Global,
    shared: &AuditedMount<L>,
    first: &mut Desk<L>,
    second: &mut Desk<L>,
) -> Result<(u64, u64), Fail> {
    let (one, _) = first.change(rt, shared, &write(alloc, "a", "")?)?;
    let (two, _) = second.change(rt, shared, &write(alloc, "b", "")?)?;
    Ok((one, two))
}

/// Lets two callers make a change each.
///
/// Returns the first pass with both logs, and the second pass.
fn call_each<L: Ledger>(
    rt: &(impl Wait + Abort),
    alloc: Global,
    shared: &AuditedMount<L>,
) -> Result<(Ended<L>, Pass<L>), Fail> {
    let mut first = Desk::new(alloc, shared.pass(rt)?);
    let mut second = Desk::new(alloc, shared.pass(rt)?);
    assert_eq!(rt;
        write_each(rt, alloc, shared, &mut first, &mut second)?,
        (1, 2)
    );
    let mut given = end_both(alloc, first, second)?;
    let kept = given.passes.pop().ok_or("no pass")?;
    Ok((given, kept))
}

/// Gives the lock up for the pass that was missing too.
fn with_both<L: Ledger>(
    rt: &impl Abort,
    alloc: Global,
    missing: PassMissing<GitNaming, Audited<GitNaming>, L>,
    kept: Pass<L>,
    logs: Vec<CallLog>,
) -> Result<(), Fail> {
    let PassMissing { shared, mut passes } = missing;
    passes.push(kept)?;
    close(rt, alloc, shared, Ended { passes, logs })
}

/// The lock is not given up for one pass of two: it is handed back, and then for both.
fn one_of_two<L: Ledger>(
    rt: &impl Abort,
    alloc: Global,
    shared: AuditedMount<L>,
    given: Ended<L>,
    kept: Pass<L>,
) -> Result<(), Fail> {
    let Ended { passes, logs } = given;
    match shared.finish(passes) {
        Ok(_) => Err(Fail::new("one pass is enough")),
        Err(missing) => with_both(rt, alloc, missing, kept, logs),
    }
}

/// Two callers make a change each. The lock is not given up for one pass, and then for both.
fn two_callers<L: Ledger>(rt: &(impl Wait + Abort), alloc: Global, blank: Blank) -> Result<(), Fail>
    requires name { blank.name ≡ L.name }
    requires parts { blank.parts ≡ L.parts }
    requires whole { blank.parts ≡ 256 }
{
    let shared = opened::<L>(alloc, Store::new(alloc, GitNaming), Id::ZERO, blank)?;
    let (given, kept) = call_each(rt, alloc, &shared)?;
    one_of_two(rt, alloc, shared, given, kept)
}

#[test]
fn audit_faults(rt: HostRuntime) -> Result<(), Fail> {
    two_callers::<Brand>(&rt, rt.alloc(), Blank::new(256))
}

/// Takes all passes: their numbers are 1 to 255, and the 256th is refused.
fn take_all<L: Ledger>(
    rt: &(impl Wait + Abort),
    alloc: Global,
    shared: &AuditedMount<L>,
) -> Result<Vec<Pass<L>>, Fail> {
    let mut passes = Vec::new(alloc);
    for number in 1..=255_u64 {
        let pass = shared.pass(rt)?;
        assert_eq!(rt; pass.caller(), number);
        passes.push(pass)?;
    }
    assert_eq!(rt; shared.pass(rt).err(), Some(CallersSpent));
    Ok(passes)
}

/// Gives the lock up, and checks that it has no calls.
fn has_no_calls<L: Ledger>(
    rt: &impl Abort,
    shared: AuditedMount<L>,
    passes: Vec<Pass<L>>,
) -> Result<(), Fail> {
    let audited = shared.finish(passes)?;
    assert!(rt; audited.entries().is_empty());
    Ok(())
}

/// Takes all passes of a lock, and hands them in.
fn all_passes<L: Ledger>(rt: &(impl Wait + Abort), alloc: Global, blank: Blank) -> Result<(), Fail>
    requires name { blank.name ≡ L.name }
    requires parts { blank.parts ≡ L.parts }
    requires whole { blank.parts ≡ 256 }
{
    let shared = opened::<L>(alloc, Store::new(alloc, GitNaming), Id::ZERO, blank)?;
    let passes = take_all(rt, alloc, &shared)?;
    has_no_calls(rt, shared, passes)
}

#[test]
fn callers_spent(rt: HostRuntime) -> Result<(), Fail> {
    all_passes::<Brand>(&rt, rt.alloc(), Blank::new(256))
}
