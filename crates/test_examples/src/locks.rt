//! The parts of the example at the head of eden_shared: a lock of which all is logged, one of which nothing is, and the word that followers read.

ghost use Rattle.std.specs.Prelude.{◌≡◌};
ghost use Rattle.eden_history.specs.Worlds.{WorldState};

use eden_accumulate::Mount;
use eden_ids::GitNaming;
use eden_shared::{Audited, CallLog, Origin, Pass, Shared, Unlogged};
use std::alloc::Global;
use std::process::Abort;
use std::sync::Wait;
use std::sync::ledger::{Blank, Ledger};
use std::test::Fail;

/// A mount that stores its history, behind a lock.
type Logged<L> = Shared<GitNaming, Audited<GitNaming>, L>;

/// A mount behind a lock of which nothing is logged.
type Plain<L> = Unlogged<GitNaming, Mount<GitNaming>, L>;

pub(crate) fn eden_shared_logged<R: Abort + Wait, L: Ledger>(
    rt: &R,
    alloc: Global,
    blank: Blank,
) -> Result<(), Fail>
    requires name { blank.name ≡ L.name }
    requires parts { blank.parts ≡ L.parts }
    requires whole { blank.parts ≡ 256 }
{
    use eden_accumulate::Mount;
    use eden_ids::{GitNaming, Id};
    use eden_objects::Store;
    use eden_shared::{Audited, Shared};

    // A mount that stores its history.
    let store = Store::new(alloc, GitNaming);
    let mount = Mount::mount(alloc, store, Id::ZERO, 7, 1000)?;
    let shared = Shared::<GitNaming, _, L>::new(Audited::new(alloc, mount)?, blank);
    eden_shared_flushed::<R, L>(rt, alloc, shared)
}

fn eden_shared_flushed<R: Abort + Wait, L: Ledger>(
    rt: &R,
    alloc: Global,
    shared: Logged<L>,
) -> Result<(), Fail> {
    use eden_history::Change;
    use eden_shared::Desk;

    let mut desk = Desk::new(alloc, shared.pass(rt)?);
    let (ticket, _) = desk.change(rt, &shared, &Change::Flush)?;
    assert_eq!(rt; ticket, 1);
    let (pass, log) = desk.finish();
    eden_shared_audited::<R, L>(rt, alloc, shared, pass, log)
}

fn eden_shared_audited<R: Abort, L: Ledger>(
    rt: &R,
    alloc: Global,
    shared: Logged<L>,
    pass: Pass<L>,
    log: CallLog,
) -> Result<(), Fail> {
    use eden_shared::audit;

    let mut audited = shared.finish(vec![in alloc; pass]?)?;
    let logs = vec![in alloc; log]?;
    assert_eq!(rt; audit(alloc, &mut audited, logs.as_slice()), Ok(()));
    Ok(())
}

pub(crate) fn eden_shared_unlogged<R: Abort + Wait, K: Origin>(
    rt: &R,
    alloc: Global,
    other: Blank,
) -> Result<(), Fail>
    requires opens { (world : WorldState) → K.opens world → ⊥ }
    requires name { other.name ≡ K.name }
    requires parts { other.parts ≡ K.parts }
    requires whole { other.parts ≡ 2048 }
{
    use eden_accumulate::Mount;
    use eden_ids::{GitNaming, Id};
    use eden_objects::Store;
    use eden_shared::Unlogged;

    // One of which nothing is logged.
    let store = Store::new(alloc, GitNaming);
    let mount = Mount::mount(alloc, store, Id::ZERO, 7, 1000)?;
    let (unlogged, mut passes) = Unlogged::<GitNaming, _, K>::new(mount, other);
    let mut pass = passes.give()?;
    eden_shared_asked::<R, K>(rt, alloc, &unlogged, &mut pass)?;
    passes.take_back(pass);
    let mount = unlogged.finish(passes)?;
    assert_eq!(rt; mount.position().sequence, 2);
    Ok(())
}

fn eden_shared_asked<R: Abort + Wait, K: Origin>(
    rt: &R,
    alloc: Global,
    unlogged: &Plain<K>,
    mut pass: &mut Pass<K>,
) -> Result<(), Fail> {
    use eden_history::Change;
    use eden_ids::Path;
    use eden_messages::{Query, Reply, Request};

    let _position = unlogged.change(rt, &mut pass, &Change::Flush)?;
    let query = Query {
        mirror: 1,
        life: 1,
        number: 1,
    };
    let path = Path::parse(alloc, b"a".as_slice())?;
    let reply = unlogged.ask(rt, &Request::Fetch { query, path })?;
    assert!(rt; matches!(&reply, Reply::ContentIs { content: None, .. }));
    Ok(())
}

pub(crate) fn eden_shared_head(rt: &impl Abort, alloc: Global) -> Result<(), Fail> {
    use eden_shared::HeadWord;

    // When to ask again.
    let (head, mut writer) = HeadWord::new(alloc)?;
    let mut follower = head.split(&mut writer);
    assert_eq!(rt; head.load(&mut follower), 0);
    head.raise(&mut writer, 5);
    head.raise(&mut writer, 3);
    assert_eq!(rt; head.load(&mut follower), 5);
    Ok(())
}
