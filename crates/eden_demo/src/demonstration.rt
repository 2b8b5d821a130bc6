//! The demonstration.

ghost use Rattle.std.specs.Prelude.{◌≡◌, [], IfOk, OnOk, IsErrOf, codes};
ghost use Rattle.std.specs.Io.KnownBytes.{Appends, Keeps};
ghost use Rattle.eden_demo.specs.Verdicts.{Prints, PrintsFront};
ghost use Rattle.eden_logs.specs.declared.fault.AuditFault.{AuditFault};

use crate::crew::{CrewFault, open_crew};
use crate::fault::DemoFault;
use crate::judging::verdict_of;
use crate::threads::{AuditedMount, Joined, run_crew};
use crate::verdict::Verdict;
use eden_accumulate::Mount;
use eden_ids::{GitNaming, Id, NoMemory};
use eden_objects::Store;
use eden_shared::{AuditFault, Audited, Shared};
use std::alloc::Global;
use std::io::Write;
use std::marker::Brand;
use std::sync::Wait;
use std::sync::ledger::{Blank, Ledger};
use std::thread::Threads;
use std::time::Clock;

/// The generation of the mount.
const GENERATION: u64 = 7;

/// The most bytes that its journal may hold.
const LIMIT: u64 = 1_000_000;

/// Returns a mount of the empty commit that stores its history.
fn open_mount(alloc: Global) -> Result<Audited<GitNaming>, NoMemory>
    ensures { IfOk result (λ audited. audited.entries ≡ []) }
{
    let store = Store::new(alloc, GitNaming);
    let mount = match Mount::mount(alloc, store, Id::ZERO, GENERATION, LIMIT) {
        Ok(mount) => mount,
        // Each store has the empty commit.
        Err(_) => unreachable!(),
    };
    match Audited::new(alloc, mount) {
        Ok(audited) => Ok(audited),
        Err(_) => Err(NoMemory),
    }
}

/// Takes the mount back from the lock, and judges what it holds in the end.
fn close<L: Ledger>(
    alloc: Global,
    shared: AuditedMount<L>,
    ended: Joined<L>,
) -> Result<Verdict, NoMemory> {
    let Joined {
        passes,
        logs,
        followers,
    } = ended;
    match shared.finish(passes) {
        Ok(mut audited) => verdict_of(alloc, &mut audited, logs.as_slice(), followers.as_slice()),
        // No log has the calls of a pass that is missing.
        Err(_) => Ok(Verdict {
            audit: Err(AuditFault::CountsDiffer),
            agree: false,
        }),
    }
}

/// Runs all over a lock with this ledger.
fn run_behind<L: Ledger + Send + Sync, R: Threads + Wait + Clock + Sync>(
    rt: &R,
    alloc: Global,
    blank: Blank,
) -> Result<Verdict, CrewFault>
    requires name { blank.name ≡ L.name }
    requires parts { blank.parts ≡ L.parts }
    requires whole { blank.parts ≡ 256 }
{
    let audited = open_mount(alloc)?;
    let opened = audited.mount().position();
    let shared: AuditedMount<L> = Shared::new(audited, blank);
    let crew = open_crew(rt, alloc, &shared, opened)?;
    let ended = run_crew(rt, alloc, &shared, crew)?;
    Ok(close(alloc, shared, ended)?)
}

/// Runs two writers and two followers over a mount of the empty commit, and prints whether all went
/// well.
///
/// Each of the writers makes 50 changes in a thread, and raises the head word to the ticket of
/// each. Each follower keeps a mirror in a thread. It has a service in a thread of its own, which
/// it asks by frames. It polls whenever the head word has risen. Once the writers have ended it
/// polls until it is where the mount is, at most 1,000 times.
///
/// Then it writes `audit ok`, or `audit` and the name of the fault. A second line is `followers
/// agree` if both followers are vouched for and their mirrors hold what the mount holds, else
/// `followers differ`.
///
/// # Errors
///
/// - `Write` if the writer fails: the first bytes of the text are written.
/// - `NoMemory` if an allocation fails or no thread can be made: nothing is written.
/// - `NoConnection` if the mount's lock has no pass for one of the four callers: nothing is
///   written. It has 255.
/// - `Refused` if the audit names a fault, and else `Differ` if the followers differ: all is
///   written.
pub fn demo<R: Threads + Wait + Clock + Sync, W: Write>(
    rt: &R,
    alloc: Global,
    writer: &mut W,
) -> Result<(), DemoFault>
    ensures agree { OnOk result (Appends (W.contents writer.old) (W.contents writer.new) (codes "audit ok\nfollowers agree\n")) }
    ensures differ { IsErrOf result DemoFault.Differ
        → Appends (W.contents writer.old) (W.contents writer.new) (codes "audit ok\nfollowers differ\n") }
    ensures refused { (fault : AuditFault) → IsErrOf result (DemoFault.Refused fault) → Prints (W.contents writer.old) (W.contents writer.new) }
    ensures torn { IsErrOf result DemoFault.Write → PrintsFront (W.contents writer.old) (W.contents writer.new) }
    ensures unwritten { IsErrOf result DemoFault.NoMemory → Keeps (W.contents writer.old) (W.contents writer.new) }
    ensures unserved { IsErrOf result DemoFault.NoConnection → Keeps (W.contents writer.old) (W.contents writer.new) }
{
    match run_behind::<Brand, R>(rt, alloc, Blank::new(256)) {
        Ok(verdict) => verdict.report(alloc, writer),
        Err(CrewFault::NoMemory) => Err(DemoFault::NoMemory),
        Err(CrewFault::NoPass) => Err(DemoFault::NoConnection),
    }
}
