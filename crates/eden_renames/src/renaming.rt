//! The rename of one more directory.

ghost use Rattle.std.specs.Prelude.{◌≡◌, ◌≢◌, false, true, IfOk, IfErr, OnOk, OnErr};
ghost use Rattle.std.specs.FinMap as fin;
ghost use Rattle.eden_renames.specs.Renames.{breaks_an_entry, dir_moved, source_dir};
ghost use Rattle.eden_renames.specs.internal.Shifted.{arriving};

use crate::below::{forget_below, replace_below, shifted};
use crate::renames::Renames;
use eden_ids::{NoMemory, Path};
use eden_overlay::{CarryFault, put_reserved};
use std::marker::Model;

/// A rename of a directory with everything allocated.
///
/// It has the entries that it is to change. Its value is those entries before the rename
/// and after it.
#[derive(Drop)]
pub struct Renaming {
    /// In byte order, with room for what is added.
    entries: Vec<(Path, Option<Path>)>,
    /// The entries that will be below the new path.
    arriving: Vec<(Path, Option<Path>)>,
    old: Path,
    new: Path,
    /// What was seen at the old path.
    source: Option<Path>,
}

impl Model for Renaming {
    ghost use Rattle.std.specs.Prelude.{◌≤◌, ◌+◌};
    ghost use Rattle.std.specs.Vec.{vec_len, vec_capacity};
    ghost use Rattle.std.specs.Coded.{coded_list, coded_ℕ, coded_option, coded×};
    ghost use Rattle.std.specs.FinMap as fin;
    ghost use Rattle.eden_renames.specs.Renames.{Renames as Directories, dir_moved};
    ghost use Rattle.eden_renames.specs.internal.Shifted.{IsReady};

    ghost Value = { Directories × Directories };

    ghost coded = { coded× (fin.code (coded_list coded_ℕ) (coded_option (coded_list coded_ℕ))) (fin.code (coded_list coded_ℕ) (coded_option (coded_list coded_ℕ))) };

    ghost view = { λ r. (fin.from_sorted r.entries.items, dir_moved (fin.from_sorted r.entries.items) r.old r.new) };

    ghost invariant = { λ r. IsReady r.entries.items r.arriving.items r.source r.old r.new × (vec_len r.entries + vec_len r.arriving + 2 ≤ vec_capacity r.entries) };
}

impl Renaming {
    /// Returns the renamed directories after the rename. Does not allocate.
    pub fn done(self) -> Renames
        ensures { result ≡ self.1 }
    {
        let Renaming {
            mut entries,
            arriving,
            old,
            new,
            source,
        } = self;
        forget_below(&mut entries, &old);
        replace_below(&mut entries, &new, arriving);
        if !old.is_below(&new) {
            put_reserved(&mut entries, old, None);
        }
        put_reserved(&mut entries, new, source);
        Renames::of(entries)
    }

    /// Returns the renamed directories as they were. Does not allocate.
    pub fn undone(self) -> Renames
        ensures { result ≡ self.0 }
    {
        Renames::of(self.entries)
    }
}

impl Renames {
    /// Returns the commit's directory that is seen at a directory, or `None`.
    ///
    /// # Errors
    ///
    /// - `NoMemory` if an allocation fails.
    pub fn source_dir(&self, dir: &Path) -> Result<Option<Path>, NoMemory>
        ensures { IfOk result (λ source. source ≡ source_dir self.now dir.now) }
    {
        match self.shown_at(dir) {
            Some(source) => {
                let path = Path::joined(self.allocator(), source.as_slice(), b"".as_slice())?;
                Ok(Some(path))
            }
            None => Ok(None),
        }
    }

    /// Returns the entries that will be below the new path.
    fn arriving(&self, old: &Path, new: &Path) -> Result<Vec<(Path, Option<Path>)>, CarryFault>
        ensures arriving { IfOk result (λ more. more.items ≡ arriving (fin.entries self.now) old.now new.now) }
        ensures accepts { IfOk result (λ _. breaks_an_entry self.now old.now new.now ≡ false) }
        ensures refuses { IfErr result (λ fault. fault ≢ CarryFault.NoMemory → breaks_an_entry self.now old.now new.now ≡ true) }
    {
        let below = self.entries_below(old);
        shifted(self.allocator(), below, old, new)
    }

    /// Begins the rename of a directory, and takes all entries out.
    ///
    /// They come back from `Renaming::done` as they are after the rename, or from
    /// `Renaming::undone` as they were. New paths are made only for directories below the
    /// old path that have an entry.
    ///
    /// # Errors
    ///
    /// - `PathTooLong` if a directory below the old path that has an entry would get an
    ///   invalid path; nothing changes.
    /// - `NoMemory` if an allocation fails; nothing changes.
    pub fn begin_rename(&mut self, old: &Path, new: &Path) -> Result<Renaming, CarryFault>
        ensures taken { OnOk result (self.new ≡ fin.empty) }
        ensures ready { IfOk result (λ renaming. renaming ≡ (self.old, dir_moved self.old old.now new.now)) }
        ensures accepts { IfOk result (λ _. breaks_an_entry self.old old.now new.now ≡ false) }
        ensures refuses { IfErr result (λ fault. fault ≢ CarryFault.NoMemory → breaks_an_entry self.old old.now new.now ≡ true) }
        ensures same { OnErr result (self.new ≡ self.old) }
    {
        let arriving = self.arriving(old, new)?;
        let source = self.source_dir(old)?;
        let from = old.copy()?;
        let to = new.copy()?;
        let entries = self.take_with_room(arriving.len() + 2)?;
        Ok(Renaming {
            entries,
            arriving,
            old: from,
            new: to,
            source,
        })
    }

    /// Renames a directory.
    ///
    /// What was seen below the old path is then seen below the new one. What was there
    /// before is forgotten, and nothing is seen below the old path any more.
    ///
    /// # Errors
    ///
    /// - `PathTooLong` if a directory below the old path that has an entry would get an
    ///   invalid path; nothing changes.
    /// - `NoMemory` if an allocation fails; nothing changes.
    pub fn rename(&mut self, old: &Path, new: &Path) -> Result<(), CarryFault>
        ensures moved { OnOk result (self.new ≡ dir_moved self.old old.now new.now) }
        ensures accepts { IfOk result (λ _. breaks_an_entry self.old old.now new.now ≡ false) }
        ensures refuses { IfErr result (λ fault. fault ≢ CarryFault.NoMemory → breaks_an_entry self.old old.now new.now ≡ true) }
        ensures same { OnErr result (self.new ≡ self.old) }
    {
        *self = self.begin_rename(old, new)?.done();
        Ok(())
    }
}
