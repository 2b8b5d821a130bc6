//! What a checkout does at a path, and whether there is a conflict.

ghost use Rattle.std.specs.Prelude.{◌≡◌};
ghost use Rattle.eden_ids.specs.FileMaps.{differ, lent, listing, paths};
ghost use Rattle.eden_history.specs.Checkouts.{clashes_dirty, force_rule, is_blocked, is_clean, is_conflict, normal_rule, rule_of};
ghost use Rattle.eden_history.specs.DirtyFiles.{dirty_files};

use crate::change::Mode;
use crate::listed::is_listed;
use bytes::Bytes;
use eden_ids::{FileTree, Kind, Path, clashes_any, has_file, is_same_at};

/// The trees from which a checkout is decided.
///
/// They are the working copy, the commit below it and the commit that is checked out.
/// With them are the dirty paths and the files of the working copy at these. No method
/// allocates.
#[derive(Drop)]
pub struct Sides<'a, W: FileTree, R: FileTree, T: FileTree, D: FileTree> {
    /// The files of the working copy.
    pub work: &'a W,
    /// The files of the commit below it.
    pub root: &'a R,
    /// The files of the commit that is checked out.
    pub target: &'a T,
    /// The files of the working copy at the dirty paths.
    pub dirty: &'a D,
    /// The dirty paths, in byte order.
    pub changed: &'a [Path],
    ghost differs: { paths (D.files dirty.now) ≡ paths (dirty_files (W.files work.now) (R.files root.now)) },
    ghost each: { changed.now ≡ listing (differ (W.files work.now) (R.files root.now)) },
}

impl<'a, W: FileTree, R: FileTree, T: FileTree, D: FileTree> Sides<'a, W, R, T, D> {
    /// Returns true if a path is clean.
    ///
    /// It is if the working copy holds there what the commit below it does.
    #[tactic(auto, using(crate::proofs::DirtyFiles::clean_unless_listed))]
    pub fn is_clean(&self, path: &[u8]) -> bool
        ensures { result ≡ is_clean (W.files self.now.work.now) (R.files self.now.root.now) path.now }
    {
        !is_listed(self.changed, path)
    }

    /// Returns true if a path clashes with a dirty file.
    #[tactic(auto, using(crate::proofs::DirtyFiles::dirty_clashes, crate::proofs::DirtyFiles::none_clashes))]
    pub fn clashes_dirty(&self, path: &Path) -> bool
        ensures { result ≡ clashes_dirty (W.files self.now.work.now) (R.files self.now.root.now) path.now }
    {
        // If no path is dirty, the path's slashes are not looked for.
        !self.changed.is_empty() && clashes_any(self.dirty, path)
    }

    /// Returns true if a target's path clashes with a dirty file.
    pub fn is_blocked(&self, path: &Path) -> bool
        ensures { result ≡ is_blocked (W.files self.now.work.now) (R.files self.now.root.now) (T.files self.now.target.now) path.now }
    {
        self.clashes_dirty(path) && has_file(self.target, path.as_bytes())
    }

    /// Returns true if a path is a conflict.
    ///
    /// The trees are asked for it only if it is dirty or clashes with a dirty file.
    pub fn is_conflict(&self, path: &Path) -> bool
        ensures { result ≡ is_conflict (W.files self.now.work.now) (R.files self.now.root.now) (T.files self.now.target.now) path.now }
    {
        let at = path.as_bytes();
        if self.is_clean(at) {
            self.is_blocked(path)
        } else {
            !is_same_at(self.root, self.target, at) && !is_same_at(self.work, self.target, at)
        }
    }

    /// Returns the file at a path after a normal checkout.
    fn normal_file(&self, path: &Path) -> Option<(Kind, &'a Bytes)>
        ensures { lent result ≡ normal_rule (W.files self.now.work.now) (R.files self.now.root.now) (T.files self.now.target.now) path.now }
    {
        if !self.is_clean(path.as_bytes()) {
            return self.work.file(path.as_bytes());
        }
        if self.is_blocked(path) {
            return None;
        }
        self.target.file(path.as_bytes())
    }

    /// Returns the file at a path after a forced checkout.
    fn force_file(&self, path: &Path) -> Option<(Kind, &'a Bytes)>
        ensures { lent result ≡ force_rule (W.files self.now.work.now) (R.files self.now.root.now) (T.files self.now.target.now) path.now }
    {
        let at = path.as_bytes();
        if has_file(self.root, at) || has_file(self.target, at) {
            return self.target.file(at);
        }
        if clashes_any(self.target, path) {
            return None;
        }
        self.work.file(at)
    }

    /// Returns the file at a path after the checkout.
    pub fn file_after(&self, mode: Mode, path: &Path) -> Option<(Kind, &'a Bytes)>
        ensures { lent result ≡ rule_of mode (W.files self.now.work.now) (R.files self.now.root.now) (T.files self.now.target.now) path.now }
    {
        match mode {
            Mode::Normal => self.normal_file(path),
            Mode::Dry => self.work.file(path.as_bytes()),
            Mode::Force => self.force_file(path),
        }
    }
}
