//! Trees of files, and the questions that can be asked of each.

ghost use Rattle.std.specs.Prelude.{◌≡◌, ◌<◌, ◌&&◌, is_some, length, nat_eq, take};
ghost use Rattle.std.specs.List.{slice_index_or};
ghost use Rattle.eden_ids.specs.FileMaps.{clashes_any, file_at, has_file_above, lent, same_file, same_kind};

use crate::content::Kind;
use crate::path::Path;
use bytes::Bytes;

/// A tree that can be asked for the file at each path.
///
/// Examples are a commit, a working copy over its commit, and a sorted list of files. No
/// method allocates.
pub trait FileTree {
    ghost use Rattle.eden_ids.specs.FileMaps.{FileMap, file_at, has_file_below, lent};

    /// The files, by their paths.
    ghost files: { Self → FileMap };

    /// Returns the kind and the bytes of the file at a path.
    ///
    /// `Content::of_lent` makes an owned file of them without copying a byte.
    fn file(&self, path: &[u8]) -> Option<(Kind, &Bytes)>
        ensures { lent result ≡ file_at (files self.now) path.now };

    /// Returns true if there are files below a path: it is a directory.
    fn has_file_below(&self, path: &Path) -> bool
        ensures { result ≡ has_file_below (files self.now) path.now };
}

/// Returns true if there is a file at a path.
#[tactic(auto, using(crate::proofs::TreeQuestions::some_lent))]
pub fn has_file<T: FileTree>(files: &T, path: &[u8]) -> bool
    ensures { result ≡ is_some (file_at (T.files files.now) path.now) }
{
    files.file(path).is_some()
}

/// Returns true if `at` is a slash after a file's path.
fn stands_before<T: FileTree>(files: &T, path: &[u8], at: usize) -> bool
    requires { at < length path.now }
    ensures { result ≡ (nat_eq (slice_index_or path.now at 0) 47 && is_some (file_at (T.files files.now) (take at path.now))) }
{
    path[at] == b'/' && has_file(files, &path[..at])
}

/// Returns true if there is a file above a path.
///
/// That is at a proper prefix of the path's components. It takes one look-up for each
/// slash of the path.
pub fn has_file_above<T: FileTree>(files: &T, path: &[u8]) -> bool
    ensures { result ≡ has_file_above (T.files files.now) path.now }
{
    for at in 0..path.len() {
        if stands_before(files, path, at) {
            return true;
        }
    }
    false
}

/// Returns true if the path clashes with the path of some file.
///
/// It does if there is a file above it, or files below it.
#[tactic(auto, using(crate::proofs::TreeQuestions::clashes_either))]
pub fn clashes_any<T: FileTree>(files: &T, path: &Path) -> bool
    ensures { result ≡ clashes_any (T.files files.now) path.now }
{
    has_file_above(files, path.as_bytes()) || files.has_file_below(path)
}

/// Returns true if two kinds are equal.
pub fn is_same_kind(kind: Kind, other: Kind) -> bool
    ensures { result ≡ same_kind kind other }
{
    match kind {
        Kind::Plain => matches!(other, Kind::Plain),
        Kind::Exec => matches!(other, Kind::Exec),
        Kind::Link => matches!(other, Kind::Link),
    }
}

/// Returns true if two optional files are equal: both absent, or same kind and bytes.
pub fn is_same_file(file: Option<(Kind, &Bytes)>, other: Option<(Kind, &Bytes)>) -> bool
    ensures { result ≡ same_file (lent file.entry) (lent other.entry) }
{
    match file {
        None => other.is_none(),
        Some(file) => match other {
            None => false,
            Some(other) => is_same_kind(file.0, other.0) && file.1.as_slice() == other.1.as_slice(),
        },
    }
}

/// Returns true if two trees hold the same file at a path.
///
/// It is also the same if both hold none.
pub fn is_same_at<S: FileTree, T: FileTree>(files: &S, others: &T, path: &[u8]) -> bool
    ensures { result ≡ same_file (file_at (S.files files.now) path.now) (file_at (T.files others.now) path.now) }
{
    is_same_file(files.file(path), others.file(path))
}
