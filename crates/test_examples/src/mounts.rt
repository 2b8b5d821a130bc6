//! The examples at the heads of the libraries that a mount is made of, and of eden_accumulate.

ghost use Rattle.eden_workcopy.specs.Meanings.{FitsIn};

use eden_accumulate::Mount;
use eden_ids::GitNaming;
use eden_journal::Journal;
use eden_objects::Store;
use eden_renames::Renames;
use eden_workcopy::WorkCopy;
use std::alloc::Global;
use std::process::Abort;
use std::test::Fail;

pub(crate) fn eden_renames_example(rt: &impl Abort, alloc: Global) -> Result<(), Fail> {
    use eden_ids::GitNaming;
    use eden_renames::Renames;
    use eden_objects::Store;

    let store = Store::new(alloc, GitNaming);
    let mut renames = Renames::new(alloc);
    eden_renames_renamed(rt, alloc, &mut renames)?;
    eden_renames_seen(rt, alloc, &store, &renames)
}

fn eden_renames_renamed(rt: &impl Abort, alloc: Global, renames: &mut Renames) -> Result<(), Fail> {
    use eden_ids::Path;

    let old = Path::parse(alloc, b"src".as_slice())?;
    let new = Path::parse(alloc, b"lib".as_slice())?;
    renames.rename(&old, &new)?;
    assert_eq!(rt; renames.entries().len(), 2);
    Ok(())
}

fn eden_renames_seen(
    rt: &impl Abort,
    alloc: Global,
    store: &Store<GitNaming>,
    renames: &Renames,
) -> Result<(), Fail> {
    use eden_globs::Filter;
    use eden_ids::Id;
    use eden_renames::Renamed;

    let renamed = Renamed::of(store.commit_files(Id::ZERO), &renames);
    assert!(rt; renamed.file(b"lib/main".as_slice()).is_none());
    assert!(rt; renamed.list(alloc, &Filter::all(alloc))?.is_empty());
    Ok(())
}

pub(crate) fn eden_workcopy_example(rt: &impl Abort, alloc: Global) -> Result<(), Fail> {
    use eden_ids::{GitNaming, Id};
    use eden_objects::Store;
    use eden_workcopy::WorkCopy;

    let store = Store::new(alloc, GitNaming);
    let mut work = WorkCopy::new(alloc, &store, Id::ZERO)?;
    eden_workcopy_written(rt, alloc, &store, &mut work)
}

fn eden_workcopy_written(
    rt: &impl Abort,
    alloc: Global,
    store: &Store<GitNaming>,
    work: &mut WorkCopy,
) -> Result<(), Fail>
    requires { FitsIn store.now work.old }
{
    use eden_ids::{Kind, Path};

    let notes = Path::parse(alloc, b"notes".as_slice())?;
    work.write(&store, &notes, Kind::Plain, b"to do".as_slice())?;
    assert_eq!(rt; work.dirty(&store)?.len(), 1);
    Ok(())
}

pub(crate) fn eden_checkout_example(rt: &impl Abort, alloc: Global) -> Result<(), Fail> {
    use eden_ids::{GitNaming, Id};
    use eden_objects::Store;
    use eden_workcopy::WorkCopy;

    let store = Store::new(alloc, GitNaming);
    let work = WorkCopy::new(alloc, &store, Id::ZERO)?;
    eden_checkout_planned(rt, alloc, &store, &work)
}

fn eden_checkout_planned(
    rt: &impl Abort,
    alloc: Global,
    store: &Store<GitNaming>,
    work: &WorkCopy,
) -> Result<(), Fail>
    requires { FitsIn store.now work.now }
{
    use eden_checkout::plan;
    use eden_history::Mode;
    use eden_ids::Id;

    let planned = plan(alloc, &store, &work, Id::ZERO, Mode::Normal)?;
    assert!(rt; planned.conflicts.is_empty() && planned.unclean.is_empty());
    Ok(())
}

pub(crate) fn eden_ranges_example(rt: &impl Abort, alloc: Global) -> Result<(), Fail> {
    use eden_ids::Id;
    use eden_journal::Journal;

    let mut journal = Journal::new(alloc, 7, Id::ZERO, 1000);
    eden_ranges_created(rt, alloc, &mut journal)?;
    eden_ranges_expanded(rt, alloc, &journal)
}

fn eden_ranges_created(rt: &impl Abort, alloc: Global, journal: &mut Journal) -> Result<(), Fail> {
    use eden_ids::Path;
    use eden_journal::FileDelta;

    let delta = FileDelta::created(Path::parse(alloc, b"notes".as_slice())?);
    assert_eq!(rt; journal.add_file(&delta), Ok(2));
    Ok(())
}

fn eden_ranges_expanded(rt: &impl Abort, alloc: Global, journal: &Journal) -> Result<(), Fail> {
    use eden_history::Position;
    use eden_ids::{GitNaming, Id};
    use eden_objects::Store;
    use eden_ranges::{accumulate, expand};

    let mounted = Position {
        generation: 7,
        sequence: 1,
        root: Id::ZERO,
    };
    let range = accumulate(alloc, &journal, &mounted)?;
    let store = Store::new(alloc, GitNaming);
    assert_eq!(rt; expand(alloc, &store, &range)?.len(), 1);
    Ok(())
}

pub(crate) fn eden_accumulate_example(rt: &impl Abort, alloc: Global) -> Result<(), Fail> {
    use eden_accumulate::Mount;
    use eden_ids::{GitNaming, Id};
    use eden_objects::Store;

    let store = Store::new(alloc, GitNaming);
    let mut mount = Mount::mount(alloc, store, Id::ZERO, 7, 1000)?;
    eden_accumulate_changed(rt, alloc, &mut mount)
}

fn eden_accumulate_changed(
    rt: &impl Abort,
    alloc: Global,
    mount: &mut Mount<GitNaming>,
) -> Result<(), Fail> {
    use eden_ids::{Kind, Path};

    let mounted = mount.position();
    let notes = Path::parse(alloc, b"notes".as_slice())?;
    mount.write(&notes, Kind::Plain, b"to do".as_slice())?;
    let changes = mount.changes_since(&mounted)?;
    assert_eq!(rt; (changes.to.sequence, changes.marked.len()), (2, 1));
    Ok(())
}
