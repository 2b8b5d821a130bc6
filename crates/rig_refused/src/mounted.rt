//! A mount whose calls may be refused memory.

use crate::objects::{Made, objects_of, put};
use crate::refusals::{Refusals, again, keep};
use crate::steps::{OneFile, Opening, Step};
use crate::told::{tell_answer, tell_marked, tell_paths, tell_position, text_of};
use anyhow::{Context, Result, anyhow, bail};
use bytes::Bytes;
use eden_accumulate::Mount;
use eden_globs::Filter;
use eden_history::{Answer, Change, ChangeFault, Marked, Position, SinceFault};
use eden_ids::{Content, GitNaming, Id, Kind, NoMemory, Path, PathFault, Sequence};
use eden_objects::{CommitFault, Object, PutFault, Store};
use eden_ranges::{Range, accumulate, expand};
use std::alloc::{AllocError, Global};

/// The limit of a mount's journal.
const LIMIT: u64 = 1_000;

/// A mount of a commit in generation 7.
fn mount_of(alloc: Global, store: Store<GitNaming>, root: Id) -> Result<Mount<GitNaming>> {
    Ok(Mount::mount(alloc, store, root, 7, LIMIT)?)
}

/// A mount of the empty commit, over a store with no object.
pub(crate) fn empty_mount(alloc: Global) -> Result<Mount<GitNaming>> {
    mount_of(alloc, Store::new(alloc, GitNaming), Id::ZERO)
}

/// A mount, and the commits that were put or imported, by name.
#[derive(Drop)]
pub(crate) struct Mounted {
    alloc: Global,
    pub(crate) refusals: Refusals,
    mount: Mount<GitNaming>,
    commits: Vec<(&'static str, Id)>,
}

/// The paths of a mount's files.
fn files(mount: &Mount<GitNaming>) -> Result<Vec<Path>, CommitFault> {
    let all = Filter::all(mount.store().allocator());
    mount.snapshot()?.files(mount.store(), &all)
}

/// The paths at which a mount's files differ from the commit's.
fn dirty(mount: &Mount<GitNaming>) -> Result<Vec<Path>, NoMemory> {
    mount.work().dirty(mount.store())
}

/// What changed since a position, as a journal holds it.
fn range_since(mount: &Mount<GitNaming>, since: &Position) -> Result<Range, SinceFault> {
    accumulate(mount.store().allocator(), mount.journal(), since)
}

/// The paths of a range.
fn paths_of(mount: &Mount<GitNaming>, range: &Range) -> Result<Vec<Marked>, CommitFault> {
    expand(mount.store().allocator(), mount.store(), range)
}

/// The file at a path.
fn read<'a>(mount: &'a Mount<GitNaming>, path: &Path) -> Result<(Kind, &'a [u8]), ChangeFault> {
    mount.read(path)
}

/// The file at a path, in memory of its own.
fn content(mount: &Mount<GitNaming>, path: &Path) -> Result<Option<Content>, NoMemory> {
    let alloc = mount.store().allocator();
    match read(mount, path) {
        Ok((kind, bytes)) => Ok(Some(Content::from_bytes(alloc, kind, bytes)?)),
        Err(_) => Ok(None),
    }
}

/// What changed since the first number of a mount's generation, as text.
fn changed_text(mount: &Mount<GitNaming>) -> Result<String> {
    let alloc = mount.store().allocator();
    let here = mount.position();
    let since = Position {
        generation: here.generation,
        sequence: 1,
        root: here.root,
    };
    let range = range_since(mount, &since)?;
    let marked = paths_of(mount, &range)?;
    let prefixes = range.prefixes.as_slice();
    Ok(format!(in alloc; "{here:?} {marked:?} {prefixes:?}")?)
}

/// All that a mount tells of itself: its position, what changed since its first number, and its files with what they hold and those that
/// differ from the commit's.
fn shown(mount: &Mount<GitNaming>) -> Result<String> {
    let alloc = mount.store().allocator();
    let mut text = changed_text(mount)?;
    text.push_str(format!(in alloc; " {:?}", dirty(mount)?)?.as_str())?;
    for path in &files(mount)? {
        let content = content(mount, path)?;
        text.push_str(format!(in alloc; " {path:?} {content:?}")?.as_str())?;
    }
    Ok(text)
}

/// Makes a change.
pub(crate) fn apply(mount: &mut Mount<GitNaming>, change: &Change) -> Result<Answer, NoMemory> {
    mount.apply(change)
}

/// Whether a store has one of some objects.
fn has_any(store: &Store<GitNaming>, objects: &[Made]) -> bool {
    objects.iter().any(|object| object.is_in(store))
}

/// Makes a change, and again where memory was refused: nothing has changed then, and none of these objects is there.
fn changed(
    refusals: &mut Refusals,
    mount: &mut Mount<GitNaming>,
    change: &Change,
    imported: &[Made],
) -> Result<Answer> {
    let before = again!(refusals, _, shown(mount));
    match apply(mount, change) {
        Ok(answer) => Ok(answer),
        Err(_) => {
            refusals.add();
            if shown(mount)? != before || has_any(mount.store(), imported) {
                bail!("a change that was refused memory changed the mount");
            }
            Ok(apply(mount, change)?)
        }
    }
}

/// The path of a text.
fn path(alloc: Global, text: &str) -> Result<Path, PathFault> {
    Path::parse(alloc, text.as_bytes())
}

/// The change that writes a plain file.
fn write(alloc: Global, at: &str, text: &str) -> Result<Change> {
    Ok(Change::Write {
        path: path(alloc, at)?,
        kind: Kind::Plain,
        bytes: Bytes::copy_from_slice(alloc, text.as_bytes())?,
    })
}

/// The change that moves the files of a directory.
fn rename_dir(alloc: Global, old: &str, new: &str) -> Result<Change> {
    Ok(Change::RenameDir {
        old: path(alloc, old)?,
        new: path(alloc, new)?,
    })
}

/// The change that imports these objects.
fn import(alloc: Global, made: &[Made]) -> Result<Change, AllocError> {
    let mut objects = Vec::new(alloc);
    for made in made {
        objects.push(Object {
            object_type: made.object_type,
            payload: Bytes::copy_from_slice(alloc, made.payload.as_slice())?,
        })?;
    }
    let objects = Sequence::from_vec(objects);
    Ok(Change::Import { objects })
}

/// Puts the objects of a commit, and notes its name.
fn put_commit(
    alloc: Global,
    refusals: &mut Refusals,
    store: &mut Store<GitNaming>,
    commits: &mut Vec<(&'static str, Id)>,
    file: OneFile,
) -> Result<()> {
    let made = again!(refusals, _, objects_of(alloc, file));
    let mut last = Id::ZERO;
    for object in &made {
        last = again!(
            refusals,
            PutFault::NoMemory,
            put(store, object.object_type, object.payload.as_slice())
        );
    }
    keep(refusals, commits, (file.0, last))
}

/// The commit of a name.
fn commit_named(commits: &[(&'static str, Id)], name: &str) -> Result<Id> {
    if name == "empty" {
        return Ok(Id::ZERO);
    }
    let found = commits.iter().find(|commit| commit.0 == name);
    Ok(found.context("no commit has this name")?.1)
}

impl Mounted {
    /// The mount of an opening.
    fn open(alloc: Global, opening: &Opening) -> Result<Mounted> {
        let mut refusals = Refusals::new();
        let mut store = Store::new(alloc, GitNaming);
        let mut commits = Vec::new(alloc);
        for file in opening.commits {
            put_commit(alloc, &mut refusals, &mut store, &mut commits, *file)?;
        }
        let root = commit_named(commits.as_slice(), opening.root)?;
        Ok(Mounted {
            alloc,
            refusals,
            mount: mount_of(alloc, store, root)?,
            commits,
        })
    }

    /// Makes a change, by which these objects come to be there, and tells its answer.
    fn change(&mut self, rt: &HostRuntime, change: &Change, imported: &[Made]) -> Result<()> {
        let answer = changed(&mut self.refusals, &mut self.mount, change, imported)?;
        tell_answer(rt, self.commits.as_slice(), &answer)
    }

    /// Imports the objects of a commit, and notes its name.
    fn import(&mut self, rt: &HostRuntime, file: OneFile) -> Result<()> {
        let alloc = self.alloc;
        let made = again!(self.refusals, _, objects_of(alloc, file));
        let change = again!(self.refusals, _, import(alloc, made.as_slice()));
        self.change(rt, &change, made.as_slice())?;
        let last = made.last().context("no objects")?.id;
        keep(&mut self.refusals, &mut self.commits, (file.0, last))
    }

    /// Tells what changed since a number.
    fn since(&mut self, rt: &HostRuntime, sequence: u64) -> Result<()> {
        let here = self.mount.position();
        let since = Position {
            generation: here.generation,
            sequence,
            root: here.root,
        };
        let range = again!(
            self.refusals,
            SinceFault::NoMemory,
            range_since(&self.mount, &since)
        );
        let marked = again!(
            self.refusals,
            CommitFault::NoMemory,
            paths_of(&self.mount, &range)
        );
        print!(rt; "changes {} to", marked.len())?;
        tell_position(rt, self.commits.as_slice(), &range.to)?;
        tell_marked(rt, marked.as_slice())?;
        if !range.prefixes.is_empty() {
            tell_paths(rt, "prefixes", range.prefixes.as_slice())?;
        }
        Ok(())
    }

    /// Tells the file at a path.
    fn read(&mut self, rt: &HostRuntime, at: &str) -> Result<()> {
        let alloc = self.alloc;
        let path = again!(self.refusals, PathFault::NoMemory, path(alloc, at));
        let (_, bytes) = read(&self.mount, &path)?;
        println!(rt; "plain {}", text_of(bytes)?)?;
        Ok(())
    }

    /// Makes the change of a step, or none where it only asks.
    fn change_of(&mut self, step: Step) -> Result<Option<Change>> {
        let alloc = self.alloc;
        Ok(Some(match step {
            Step::Write(at, text) => again!(self.refusals, _, write(alloc, at, text)),
            Step::RenameDir(old, new) => again!(self.refusals, _, rename_dir(alloc, old, new)),
            Step::Checkout(name, mode) => Change::Checkout {
                commit: commit_named(self.commits.as_slice(), name)?,
                mode,
            },
            Step::Reset(name) => Change::Reset {
                commit: commit_named(self.commits.as_slice(), name)?,
            },
            _ => return Ok(None),
        }))
    }

    /// Does what a step says, and tells what that comes to.
    fn go(&mut self, rt: &HostRuntime, step: Step) -> Result<()> {
        if let Some(change) = self.change_of(step)? {
            return self.change(rt, &change, &[]);
        }
        match step {
            Step::Import(file) => self.import(rt, file),
            Step::List => {
                let paths = again!(self.refusals, CommitFault::NoMemory, files(&self.mount));
                tell_paths(rt, "files", paths.as_slice())
            }
            Step::Dirty => {
                let paths = again!(self.refusals, _, dirty(&self.mount));
                tell_paths(rt, "dirty", paths.as_slice())
            }
            Step::Since(sequence) => self.since(rt, sequence),
            Step::Read(at) => self.read(rt, at),
            _ => Err(anyhow!("no change was made")),
        }
    }
}

/// Opens a mount, and does step after step.
pub(crate) fn go_through(rt: &HostRuntime, opening: &Opening) -> Result<u64> {
    let mut mounted = Mounted::open(rt.alloc(), opening)?;
    print!(rt; "at")?;
    tell_position(rt, mounted.commits.as_slice(), &mounted.mount.position())?;
    for step in opening.steps {
        mounted.go(rt, *step)?;
    }
    Ok(mounted.refusals.count())
}
