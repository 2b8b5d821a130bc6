//! A caller changes the mount while another one waits at its gate.

ghost use Rattle.std.specs.Prelude.{◌≡◌};

use crate::audits::{AuditedMount, Ended, close, end_both, opened};
use eden_globs::Filter;
use eden_history::{Change, Mode, Position};
use eden_ids::{GitNaming, Id};
use eden_messages::{Query, Reply, Request};
use eden_objects::Store;
use eden_shared::{Desk, Gate};
use eden_world::World;
use std::alloc::Global;
use std::marker::Brand;
use std::process::Abort;
use std::sync::Wait;
use std::sync::atomic::{AtomicBool, Ordering};
use std::sync::ledger::{Blank, Ledger};
use std::test::Fail;
use std::thread;
use std::thread::Threads;
use std::time::{Clock, Duration};
use test_kit::{Objects, write};

/// Two commits; the second one has another file `a`, and a file `d`.
const BEFORE: &str =
    "blob x x;tree t 100644 a x;commit c t;blob y y;tree u 100644 a y 100644 d x;commit e u";

/// A commit that is imported later. It has none of their files.
const LATER: &str = "blob z z;tree v 100644 b z;commit g v";

const QUERY: Query = Query {
    mirror: 1,
    life: 1,
    number: 1,
};

/// For how many milliseconds the first caller would wait for a reply that names something.
const PATIENCE: u64 = 10_000;

/// When the first caller waits for the other one.
#[derive(Clone, Copy, PartialEq, Eq)]
enum Waits {
    /// Before its request is held.
    Before,
    /// While the reply is made.
    Between,
}

/// How far the two callers have come.
#[derive(Drop)]
struct Flags {
    held: AtomicBool,
    changed: AtomicBool,
    seen: AtomicBool,
}

/// Waits for a flag, ten seconds or so at the most. Says whether it was set.
fn wait_for(rt: &impl Clock, flag: &AtomicBool) -> bool {
    for _ in 0..10_000 {
        if flag.load(Ordering::SeqCst) {
            return true;
        }
        thread::sleep(rt, Duration::from_millis(1));
    }
    false
}

/// A gate that opens once the other caller's changes have been answered.
#[derive(Drop)]
struct Meanwhile<'a, R: Clock> {
    rt: &'a R,
    flags: &'a Flags,
    waits: Waits,
}

impl<R: Clock> Meanwhile<'_, R> {
    /// Waits for the other caller, if this is right.
    fn wait(&self, is_right: bool) {
        self.flags.held.store(is_right, Ordering::SeqCst);
        let seen = wait_for(self.rt, &self.flags.changed);
        self.flags.seen.store(seen, Ordering::SeqCst);
    }
}

impl<R: Clock> Gate for Meanwhile<'_, R> {
    fn before(&self, request: &Request, patience: Duration) {
        if self.waits == Waits::Before {
            self.wait(request.query() == QUERY && patience == Duration::from_millis(PATIENCE));
        }
    }

    fn between(&self, query: &Query) {
        if self.waits == Waits::Between {
            self.wait(*query == QUERY);
        }
    }
}

/// What the two callers do, and what the first is to be told.
#[derive(Drop)]
struct Plan {
    request: Request,
    waits: Waits,
    reply: Reply,
    changes: Vec<Change>,
}

/// Asks, and waits at the gate for the other caller.
fn ask_one<L: Ledger>(
    rt: &(impl Wait + Clock),
    shared: &AuditedMount<L>,
    desk: &mut Desk<L>,
    plan: &Plan,
    flags: &Flags,
) -> Option<Reply> {
    let waits = plan.waits;
    let gate = Meanwhile { rt, flags, waits };
    let patience = Duration::from_millis(PATIENCE);
    match desk.ask_patiently(rt, shared, &plan.request, patience, &gate) {
        Ok((_, reply)) => Some(reply),
        Err(_) => None,
    }
}

/// Makes changes once the other caller waits, and says so. Returns whether they were made.
fn change_all<L: Ledger>(
    rt: &(impl Wait + Clock),
    shared: &AuditedMount<L>,
    desk: &mut Desk<L>,
    changes: &[Change],
    flags: &Flags,
) -> bool {
    let held = wait_for(rt, &flags.held);
    for change in changes {
        if desk.change(rt, shared, change).is_err() {
            return false;
        }
    }
    flags.changed.store(true, Ordering::SeqCst);
    held
}

/// One caller asks, and another one makes changes meanwhile. Returns the reply, and whether the changes were made.
fn call_both<L: Ledger + Send + Sync, R: Threads + Wait + Clock + Sync>(
    rt: &R,
    shared: &AuditedMount<L>,
    first: &mut Desk<L>,
    second: &mut Desk<L>,
    plan: &Plan,
    flags: &Flags,
) -> (Option<Reply>, bool) {
    thread::join(
        rt,
        || ask_one(rt, shared, first, plan, flags),
        || change_all(rt, shared, second, plan.changes.as_slice(), flags),
    )
}

/// Lets the second caller go over, and both do what is planned.
fn play_both<L: Ledger + Send + Sync, R: Threads + Wait + Abort + Clock + Sync>(
    rt: &R,
    shared: &AuditedMount<L>,
    first: &mut Desk<L>,
    second: &mut Desk<L>,
    commit: Id,
    plan: &Plan,
) -> Result<(), Fail> {
    let mode = Mode::Normal;
    let _ = second.change(rt, shared, &Change::Checkout { commit, mode })?;
    let flags = Flags {
        held: AtomicBool::new(false),
        changed: AtomicBool::new(false),
        seen: AtomicBool::new(false),
    };
    let (reply, changed) = call_both(rt, shared, first, second, plan, &flags);
    assert!(rt; changed && flags.seen.load(Ordering::SeqCst));
    assert!(rt; reply.as_ref() == Some(&plan.reply));
    Ok(())
}

/// Does so with two desks, and returns what they hand back.
fn play<L: Ledger + Send + Sync, R: Threads + Wait + Abort + Clock + Sync>(
    rt: &R,
    alloc: Global,
    shared: &AuditedMount<L>,
    commit: Id,
    plan: &Plan,
) -> Result<Ended<L>, Fail> {
    let mut first = Desk::new(alloc, shared.pass(rt)?);
    let mut second = Desk::new(alloc, shared.pass(rt)?);
    play_both(rt, shared, &mut first, &mut second, commit, plan)?;
    end_both(alloc, first, second)
}

/// What a world replies once it has gone over to another commit and made these changes.
fn world_reply(
    world: &mut World<GitNaming>,
    commit: Id,
    changes: &[Change],
    request: &Request,
) -> Result<Reply, Fail> {
    let mode = Mode::Normal;
    let _ = world.apply(&Change::Checkout { commit, mode })?;
    for change in changes {
        let _ = world.apply(change)?;
    }
    Ok(world.reply(request)?)
}

/// The same of a world that begins at the first commit.
fn reply_after(
    alloc: Global,
    store: Store<GitNaming>,
    root: Id,
    commit: Id,
    changes: &[Change],
    request: &Request,
) -> Result<Reply, Fail> {
    let mut world = World::mount(alloc, store, root, 7, 100_000)?;
    world_reply(&mut world, commit, changes, request)
}

/// What the second caller does meanwhile: it writes a file, or it imports a commit and goes over to it.
fn later(alloc: Global, objects: &mut Objects, imports: bool) -> Result<Vec<Change>, Fail> {
    if !imports {
        return Ok(vec![in alloc; write(alloc, "d", "2")?]?);
    }
    let import = Change::Import {
        objects: objects.more(alloc, LATER)?,
    };
    let commit = objects.id("g");
    let mode = Mode::Force;
    Ok(vec![in alloc; import, Change::Checkout { commit, mode }]?)
}

/// Returns the reply of a world over these objects.
///
/// It has seen what the first caller is to see.
fn right_reply(
    alloc: Global,
    objects: &mut Objects,
    waits: Waits,
    changes: &[Change],
    request: &Request,
) -> Result<Reply, Fail> {
    let (root, commit) = (objects.id("c"), objects.id("e"));
    let seen = match waits {
        Waits::Before => changes,
        Waits::Between => &[],
    };
    let store = objects.store.share()?;
    reply_after(alloc, store, root, commit, seen, request)
}

/// The first caller asks what changed since the mount was at its first commit.
fn planned(
    alloc: Global,
    objects: &mut Objects,
    waits: Waits,
    imports: bool,
) -> Result<Plan, Fail> {
    let changes = later(alloc, objects, imports)?;
    let since = Position {
        generation: 7,
        sequence: 1,
        root: objects.id("c"),
    };
    let request = Request::Poll {
        query: QUERY,
        since,
        filter: Filter::all(alloc),
    };
    let reply = right_reply(alloc, objects, waits, changes.as_slice(), &request)?;
    Ok(Plan {
        request,
        waits,
        reply,
        changes,
    })
}

/// Opens a mount of the first commit, as its objects are now.
fn opened_now<L: Ledger>(
    alloc: Global,
    blank: Blank,
    objects: &mut Objects,
) -> Result<AuditedMount<L>, Fail>
    requires name { blank.name ≡ L.name }
    requires parts { blank.parts ≡ L.parts }
    requires whole { blank.parts ≡ 256 }
{
    let root = objects.id("c");
    let store = objects.store.share()?;
    opened::<L>(alloc, store, root, blank)
}

/// Lets one caller wait while another one changes the mount.
///
/// The first asks about a change of the root.
fn overlap<L: Ledger + Send + Sync, R: Threads + Wait + Abort + Clock + Sync>(
    rt: &R,
    alloc: Global,
    shared: &AuditedMount<L>,
    objects: &mut Objects,
    waits: Waits,
    imports: bool,
) -> Result<Ended<L>, Fail> {
    let plan = planned(alloc, objects, waits, imports)?;
    play(rt, alloc, shared, objects.id("e"), &plan)
}

/// Does so, and gives the lock up.
fn overlap_and_close<L: Ledger + Send + Sync, R: Threads + Wait + Abort + Clock + Sync>(
    rt: &R,
    alloc: Global,
    shared: AuditedMount<L>,
    objects: &mut Objects,
    waits: Waits,
    imports: bool,
) -> Result<(), Fail> {
    let given = overlap(rt, alloc, &shared, objects, waits, imports)?;
    close(rt, alloc, shared, given)
}

/// Does so at a mount of the first commit.
fn overlapped<L: Ledger + Send + Sync, R: Threads + Wait + Abort + Clock + Sync>(
    rt: &R,
    alloc: Global,
    blank: Blank,
    waits: Waits,
    imports: bool,
) -> Result<(), Fail>
    requires name { blank.name ≡ L.name }
    requires parts { blank.parts ≡ L.parts }
    requires whole { blank.parts ≡ 256 }
{
    let mut objects = Objects::of(alloc, BEFORE)?;
    let shared = opened_now::<L>(alloc, blank, &mut objects)?;
    overlap_and_close(rt, alloc, shared, &mut objects, waits, imports)
}

#[test]
fn write_during_comparison(rt: HostRuntime) -> Result<(), Fail> {
    let (alloc, waits) = (rt.alloc(), Waits::Between);
    overlapped::<Brand, HostRuntime>(&rt, alloc, Blank::new(256), waits, false)?;
    overlapped::<Brand, HostRuntime>(&rt, alloc, Blank::new(256), waits, true)
}

#[test]
fn write_before_the_hold(rt: HostRuntime) -> Result<(), Fail> {
    overlapped::<Brand, HostRuntime>(&rt, rt.alloc(), Blank::new(256), Waits::Before, false)
}
