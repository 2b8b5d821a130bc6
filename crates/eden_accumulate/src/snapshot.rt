//! The files that a mount held at a position.

ghost use Rattle.std.specs.Prelude.{◌≡◌, ◌≢◌, ◌++◌, None, IsSome, IfOk, IfErr, OnOk};
ghost use Rattle.std.specs.List.{flat_map};
ghost use Rattle.std.specs.Option.{option_map};
ghost use Rattle.eden_globs.specs.Filters.{Patterns};
ghost use Rattle.eden_ids.specs.FileMaps.{file_at};
ghost use Rattle.eden_objects.specs.Commits.{commit_map};
ghost use Rattle.eden_objects.specs.Files.{commit_files};
ghost use Rattle.eden_objects.specs.Stats.{stat_of};
ghost use Rattle.eden_renames.specs.Renames.{at_paths, seen_through};
ghost use Rattle.eden_overlay.specs.Layers.{over};
ghost use Rattle.eden_overlay.specs.Listings.{admitted};
ghost use Rattle.eden_history.specs.Changes.{below};
ghost use Rattle.eden_history.specs.Described.{described, described_below};
ghost use Rattle.eden_history.specs.DirtyFiles.{dirty_marks};
ghost use Rattle.eden_history.specs.Worlds.{WorldState, now, position_of};
ghost use Rattle.eden_accumulate.specs.Mounts.{StandsFor};
ghost use Rattle.eden_accumulate.specs.internal.Describing.{AreWithin, looked_up};

use crate::mount::Mount;
use eden_globs::Filter;
use eden_history::{Described, Marked, Position};
use eden_ids::{Naming, NoMemory, Path, path_law};
use eden_objects::{CommitFault, NoCommit, Stat, Store};
use eden_overlay::Overlay;
use eden_renames::{Renamed, Renames};
use eden_workcopy::dirty_marks;

/// The files that a mount held at a position.
///
/// It keeps which directories of the commit were renamed, and the paths that changes
/// touched, each with the file there, or that there is none. The bytes of a file are
/// shared with the mount. A store that has the commit is lent to each question.
#[derive(Drop)]
pub struct Snapshot {
    position: Position,
    renames: Renames,
    overlay: Overlay,
    // Each file of the overlay is within the limit.
    ghost within: { AreWithin overlay },
}

impl Snapshot {
    ghost use Rattle.eden_accumulate.specs.Snapshots.{shown, shown_to};

    /// Returns the position at which it was taken. Does not allocate.
    pub fn position(&self) -> Position
        ensures { result ≡ self.now.position }
    {
        self.position
    }

    /// Returns the files below the overlay as a tree. Does not allocate.
    fn base<'a, N: Naming + Drop>(&'a self, store: &'a Store<N>) -> Result<Renamed<'a, N>, NoCommit>
        ensures base { IfOk result (λ base. base ≡ seen_through (commit_files store.now self.now.position.root) self.now.renames) }
        ensures accepts { IfOk result (λ _. IsSome (commit_map store.now self.now.position.root)) }
        ensures refuses { IfErr result (λ _. commit_map store.now self.now.position.root ≡ None) }
    {
        match store.commit(self.position.root) {
            Some(commit) => Ok(Renamed::of(commit, &self.renames)),
            None => Err(NoCommit),
        }
    }

    /// Returns the admitted paths of files, in byte order.
    ///
    /// The store must have the position's commit. No path is made that the filter does
    /// not admit, and no directory is read below which it admits nothing
    /// (`Filter::admits_below`).
    ///
    /// # Errors
    ///
    /// - `NoCommit` if the store does not have that commit.
    /// - `NoMemory` if an allocation fails; it may be returned instead of any other answer.
    pub fn files<N: Naming + Drop>(
        &self,
        store: &Store<N>,
        filter: &Filter,
    ) -> Result<Vec<Path>, CommitFault>
        ensures files { IfOk result (λ paths. paths.items ≡ shown_to filter.now store.now self.now) }
        ensures accepts { IfOk result (λ _. IsSome (commit_map store.now self.now.position.root)) }
        ensures refuses { IfErr result (λ fault. fault ≢ CommitFault.NoMemory → commit_map store.now self.now.position.root ≡ None) }
    {
        let listed = self.base(store)?.list(store.allocator(), filter)?;
        Ok(self.overlay.list_over(listed, filter)?)
    }

    /// Returns the admitted paths of files below a directory, in byte order.
    ///
    /// The store must have the position's commit. If the path is not a directory, there
    /// are none. Of the commit only the directories on the way are searched, and those
    /// below the path are read if the filter may admit something below them.
    ///
    /// # Errors
    ///
    /// - `NoCommit` if the store does not have that commit.
    /// - `NoMemory` if an allocation fails; it may be returned instead of any other answer.
    pub fn files_below<N: Naming + Drop>(
        &self,
        store: &Store<N>,
        prefix: &Path,
        filter: &Filter,
    ) -> Result<Vec<Path>, CommitFault>
        ensures files { IfOk result (λ paths. paths.items ≡ below prefix.now (shown_to filter.now store.now self.now)) }
        ensures accepts { IfOk result (λ _. IsSome (commit_map store.now self.now.position.root)) }
        ensures refuses { IfErr result (λ fault. fault ≢ CommitFault.NoMemory → commit_map store.now self.now.position.root ≡ None) }
    {
        let base = self.base(store)?;
        let listed = base.list_below(store.allocator(), prefix, filter)?;
        Ok(self.overlay.list_below_over(listed, prefix, filter)?)
    }

    /// Returns the file at a path without its bytes, or `None` if there is none.
    ///
    /// The store must have the position's commit. A file that was written is hashed; the
    /// id of any other is in the commit. Does not allocate.
    ///
    /// # Errors
    ///
    /// - `NoCommit` if the store does not have that commit.
    pub fn stat<N: Naming + Drop>(
        &self,
        store: &Store<N>,
        path: &Path,
    ) -> Result<Option<Stat>, NoCommit>
        ensures stat { IfOk result (λ stat. stat ≡ option_map (stat_of N.id) (file_at (shown store.now self.now) path.now)) }
        ensures accepts { IfOk result (λ _. IsSome (commit_map store.now self.now.position.root)) }
        ensures refuses { IfErr result (λ _. commit_map store.now self.now.position.root ≡ None) }
    {
        let base = self.base(store)?;
        Ok(self.stat_over(&base, &store.naming(), path))
    }

    /// Returns the admitted files without their bytes, in byte order of their paths.
    ///
    /// The store must have the position's commit. The files are those of `files`. A file
    /// that was written is hashed; the id of any other is in the commit.
    ///
    /// # Errors
    ///
    /// - `NoCommit` if the store does not have that commit.
    /// - `NoMemory` if an allocation fails; it may be returned instead of any other answer.
    pub fn stats<N: Naming + Drop>(
        &self,
        store: &Store<N>,
        filter: &Filter,
    ) -> Result<Vec<Described>, CommitFault>
        ensures stats { IfOk result (λ files. files.items ≡ described N.id filter.now (shown store.now self.now)) }
        ensures accepts { IfOk result (λ _. IsSome (commit_map store.now self.now.position.root)) }
        ensures refuses { IfErr result (λ fault. fault ≢ CommitFault.NoMemory → commit_map store.now self.now.position.root ≡ None) }
    {
        let paths = self.files(store, filter)?;
        let base = self.base(store)?;
        Ok(self.describe(&base, &store.naming(), paths)?)
    }

    /// Returns those files of `stats` that are below a directory.
    ///
    /// The paths are those of `files_below`.
    ///
    /// # Errors
    ///
    /// - `NoCommit` if the store does not have that commit.
    /// - `NoMemory` if an allocation fails; it may be returned instead of any other answer.
    pub fn stats_below<N: Naming + Drop>(
        &self,
        store: &Store<N>,
        prefix: &Path,
        filter: &Filter,
    ) -> Result<Vec<Described>, CommitFault>
        ensures stats { IfOk result (λ files. files.items ≡ described_below prefix.now (described N.id filter.now (shown store.now self.now))) }
        ensures accepts { IfOk result (λ _. IsSome (commit_map store.now self.now.position.root)) }
        ensures refuses { IfErr result (λ fault. fault ≢ CommitFault.NoMemory → commit_map store.now self.now.position.root ≡ None) }
    {
        let paths = self.files_below(store, prefix, filter)?;
        let base = self.base(store)?;
        Ok(self.describe(&base, &store.naming(), paths)?)
    }

    /// Returns the admitted paths whose file is not the commit's, in byte order.
    ///
    /// The store must have the position's commit. A path is marked `Created` if the
    /// commit has no file there, `Removed` if only the commit has one, and else `Changed`.
    /// It looks at the touched paths, and at the files that renamed directories have or
    /// had.
    ///
    /// # Errors
    ///
    /// - `NoCommit` if the store does not have that commit.
    /// - `NoMemory` if an allocation fails; it may be returned instead of any other answer.
    pub fn dirty<N: Naming + Drop>(
        &self,
        store: &Store<N>,
        filter: &Filter,
    ) -> Result<Vec<Marked>, CommitFault>
        ensures dirty { IfOk result (λ marked. marked.items
            ≡ dirty_marks (shown store.now self.now) (commit_files store.now self.now.position.root) filter.now) }
        ensures accepts { IfOk result (λ _. IsSome (commit_map store.now self.now.position.root)) }
        ensures refuses { IfErr result (λ fault. fault ≢ CommitFault.NoMemory → commit_map store.now self.now.position.root ≡ None) }
    {
        let root = self.position.root;
        let _ = self.base(store)?;
        Ok(dirty_marks(store, root, &self.renames, &self.overlay, filter)?)
    }

    /// Returns the file at a path without its bytes, over the files below the overlay.
    fn stat_over<N: Naming + Drop>(
        &self,
        base: &Renamed<'_, N>,
        naming: &N,
        path: &Path,
    ) -> Option<Stat>
        ensures { result ≡ option_map (stat_of N.id) (file_at (over (at_paths base.now) self.now.overlay) path.now) }
    {
        path_law(path);
        match self.overlay.get(path.as_bytes()) {
            Some(Some(content)) => Some(Stat::of(naming, content)),
            Some(None) => None,
            None => base.stat(path.as_bytes()),
        }
    }

    /// Adds the file at a path without its bytes, if there is one.
    fn add_described<N: Naming + Drop>(
        &self,
        files: &mut Vec<Described>,
        base: &Renamed<'_, N>,
        naming: &N,
        path: Path,
    ) -> Result<(), NoMemory>
        ensures { OnOk result (files.new.items ≡ files.old.items ++ looked_up N.id (over (at_paths base.now) self.now.overlay) path) }
    {
        if let Some(stat) = self.stat_over(base, naming, &path) {
            files.push(Described { path, stat })?;
        }
        Ok(())
    }

    /// Returns the files at some paths without their bytes.
    fn describe<N: Naming + Drop>(
        &self,
        base: &Renamed<'_, N>,
        naming: &N,
        paths: Vec<Path>,
    ) -> Result<Vec<Described>, NoMemory>
        ensures { IfOk result (λ files. files.items ≡ flat_map (looked_up N.id (over (at_paths base.now) self.now.overlay)) paths.items) }
    {
        let mut files = Vec::with_capacity(*paths.allocator(), paths.len())?;
        for path in paths {
            self.add_described(&mut files, base, naming, path)?;
        }
        Ok(files)
    }
}

impl<N: Naming + Drop> Mount<N> {
    ghost use Rattle.eden_accumulate.specs.Snapshots.{shown, shown_to};

    /// Returns a snapshot of the files that are held now.
    ///
    /// The touched paths are copied; the bytes of their files are shared.
    ///
    /// # Errors
    ///
    /// - `NoMemory` if an allocation fails.
    pub fn snapshot(&self) -> Result<Snapshot, NoMemory>
        ensures position { IfOk result (λ snapshot. (world : WorldState) → StandsFor self.now world → snapshot.position ≡ position_of (now world)) }
        ensures renames { IfOk result (λ snapshot. snapshot.renames ≡ self.now.work.renames) }
        ensures overlay { IfOk result (λ snapshot. snapshot.overlay ≡ self.now.work.overlay) }
        // Over the mount's objects, its files are the world's,
        ensures shown { IfOk result (λ snapshot. (world : WorldState) → StandsFor self.now world → shown self.now.held snapshot ≡ (now world).files) }
        // and it lists those of them that the filter admits.
        ensures files { IfOk result (λ snapshot. (world : WorldState) → StandsFor self.now world → (patterns : Patterns)
            → shown_to patterns self.now.held snapshot ≡ admitted patterns (now world).files) }
    {
        let renames = self.work.renames().copy()?;
        let overlay = self.work.overlay().copy()?;
        Ok(Snapshot {
            position: self.position(),
            renames,
            overlay,
        })
    }
}
