//! A mount, its parts and its present state.

ghost use Rattle.std.specs.Prelude.{◌≡◌, [], None, Some, IfOk, IfErr, IsSome, ◌-◌};
ghost use Rattle.eden_ids.specs.FileMaps.{file_at};
ghost use Rattle.eden_objects.specs.Commits.{commit_map};
ghost use Rattle.eden_objects.specs.Files.{commit_files};
ghost use Rattle.eden_workcopy.specs.Meanings.{FitsIn};
ghost use Rattle.eden_history.specs.Worlds.{WorldState, now, opened, position_of};
ghost use Rattle.eden_history.specs.Renames.{absent_fault};

use eden_history::{ChangeFault, MountFault, Position};
use eden_ids::{Id, Kind, Naming, NoMemory, Path, id_law};
use eden_journal::Journal;
use eden_objects::{CommitFault, Store};
use eden_workcopy::WorkCopy;
use std::alloc::Global;
use std::marker::Model;

/// A working copy over a store, with the journal of its changes.
///
/// It keeps no history. A mount is the present state of some world: a model that keeps
/// all rows. Each call does to the mount what the world's call does to the world.
#[derive(Drop)]
pub struct Mount<N: Naming + Drop> {
    pub(crate) store: Store<N>,
    pub(crate) work: WorkCopy,
    pub(crate) journal: Journal,
}

impl<N: Naming + Drop> Model for Mount<N> {
    ghost use Rattle.std.specs.Coded.{codes};
    ghost use Rattle.eden_workcopy.specs.contracts.work.WorkCopy as copied;
    ghost use Rattle.eden_history.specs.Worlds.{WorldState};
    ghost use Rattle.eden_accumulate.specs.Mounts.{State, StandsFor};

    ghost Value = { State };

    ghost coded = { Prim.hlevel (codes, copied.the_row.coded) };

    ghost view = { λ m. record { held = m.store; work = m.work; log = m.journal.log } };

    ghost invariant = { λ m. (world : WorldState) × StandsFor (record { held = m.store; work = m.work; log = m.journal.log }) world };
}

impl<N: Naming + Drop> Mount<N> {
    ghost use Rattle.eden_accumulate.specs.Mounts.{StandsFor, begun_at, files_of};

    /// Mounts a commit, with no event, at number 1 of a generation.
    ///
    /// `limit` is the most bytes that the journal may hold. Does not allocate.
    ///
    /// # Errors
    ///
    /// - `NoCommit` if the id is not that of a commit; the store is given back.
    pub fn mount(
        alloc: Global,
        store: Store<N>,
        root: Id,
        generation: u64,
        limit: u64,
    ) -> Result<Mount<N>, MountFault<N>>
        ensures stands { IfOk result (λ mount. StandsFor mount (opened store generation limit root (commit_files store root))) }
        ensures accepts { IfOk result (λ _. IsSome (commit_map store root)) }
        ensures cause { IfErr result (λ fault. fault.cause ≡ CommitFault.NoCommit) }
        ensures back { IfErr result (λ fault. fault.store ≡ store) }
        ensures refuses { IfErr result (λ _. commit_map store root ≡ None) }
    {
        store.closed_law();
        id_law(root);
        let Ok(work) = WorkCopy::new(alloc, &store, root) else {
            let cause = CommitFault::NoCommit;
            return Err(MountFault { store, cause });
        };
        Ok(Mount {
            store,
            work,
            journal: Journal::new(alloc, generation, root, limit),
        })
    }

    /// Returns the store of objects. Does not allocate.
    pub fn store(&self) -> &Store<N>
        ensures { result.now ≡ self.now.held }
    {
        &self.store
    }

    /// Returns the working copy. Does not allocate.
    pub fn work(&self) -> &WorkCopy
        ensures work { result.now ≡ self.now.work }
        ensures fits { FitsIn self.now.held self.now.work }
    {
        &self.work
    }

    /// Returns the journal. Does not allocate.
    pub fn journal(&self) -> &Journal
        ensures { result.now.log ≡ self.now.log }
    {
        &self.journal
    }

    /// Returns the present position. Does not allocate.
    pub fn position(&self) -> Position
        ensures log { result ≡ record { generation = self.now.log.generation; sequence = self.now.log.head; root = self.now.log.root } }
        ensures world { (world : WorldState) → StandsFor self.now world → result ≡ position_of (now world) }
    {
        Position {
            generation: self.journal.generation(),
            sequence: self.journal.head(),
            root: self.journal.root(),
        }
    }

    /// Returns the kind and the bytes of the file at a path. Does not allocate.
    ///
    /// # Errors
    ///
    /// The first of these that applies:
    ///
    /// - `NotADirectory` if there is a file at a proper prefix of the path's components.
    /// - `IsADirectory` if there are files below the path.
    /// - `NoEntry` if there is no file at it.
    pub fn read(&self, path: &Path) -> Result<(Kind, &[u8]), ChangeFault>
        ensures accepts { IfOk result (λ _. (world : WorldState) → StandsFor self.now world → absent_fault (now world).files path.now ≡ None) }
        ensures reads { IfOk result (λ seen. (world : WorldState) → StandsFor self.now world
            → file_at (now world).files path.now ≡ Some (record { kind = seen.0; bytes = seen.1.now })) }
        ensures refuses { IfErr result (λ fault. (world : WorldState) → StandsFor self.now world
            → absent_fault (now world).files path.now ≡ Some fault) }
    {
        self.work.read(&self.store, path)
    }

    /// Makes a mount of its parts, with no event.
    ///
    /// It begins at the journal's head. Over the store the working copy must hold files,
    /// the journal's root must be the working copy's, and the journal must hold nothing.
    /// Does not allocate.
    pub fn from_parts(store: Store<N>, work: WorkCopy, journal: Journal) -> Mount<N>
        requires fits { FitsIn store work }
        requires root { journal.log.root ≡ work.root }
        requires nothing { journal.log.held ≡ [] }
        ensures value { result ≡ record { held = store; work = work; log = journal.log } }
        ensures stands { StandsFor result (begun_at result) }
    {
        // A journal is that of some history; one that holds nothing is also that of the
        // history that begins at its head.
        let _ = journal.head();
        let _ = journal.generation();
        store.closed_law();
        id_law(work.root());
        Mount {
            store,
            work,
            journal,
        }
    }

    /// Returns a copy of the store, as `Store::share` does.
    ///
    /// It has the same objects, and does not change when either store takes in more. The
    /// mount does not change.
    ///
    /// # Errors
    ///
    /// - `NoMemory` if an allocation fails; nothing changes.
    pub fn share(&mut self) -> Result<Store<N>, NoMemory>
        ensures copy { IfOk result (λ store. store ≡ self.old.held) }
        ensures same { self.new ≡ self.old }
    {
        self.store.share()
    }

    /// Returns a copy of this mount, over a copy of the store.
    ///
    /// Objects that either mount takes in later are not in the other. This mount does not
    /// change.
    ///
    /// # Errors
    ///
    /// - `NoMemory` if an allocation fails; nothing changes.
    pub fn copy(&mut self) -> Result<Mount<N>, NoMemory>
        ensures copy { IfOk result (λ mount. mount ≡ self.old) }
        ensures same { self.new ≡ self.old }
    {
        let work = self.work.copy()?;
        let journal = self.journal.copy()?;
        let store = self.share()?;
        Ok(Mount {
            store,
            work,
            journal,
        })
    }
}
