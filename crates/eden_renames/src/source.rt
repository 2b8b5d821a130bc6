//! What of a commit is seen at a path.

ghost use Rattle.std.specs.Prelude.{◌≡◌, ◌++◌, ◌<◌, MatchOption, length};

use arrayvec::ArrayVec;
use eden_ids::Path;

/// What of a commit is seen at a path.
#[derive(Clone, Copy)]
pub enum Source<'a> {
    /// The commit's file at the path itself.
    Own,
    /// Nothing.
    Nothing,
    /// The file at the rest of the path below a commit's directory.
    ///
    /// The rest begins with a slash.
    Below(&'a Path, &'a [u8]),
}

/// Returns two parts joined, if they are not too long.
///
/// They are too long if a path may not be as long. Does not allocate.
pub fn joined(front: &[u8], rest: &[u8]) -> Option<ArrayVec<u8, 1024>>
    ensures { MatchOption result (1024 < length (front.now ++ rest.now)) (λ whole. whole.items ≡ front.now ++ rest.now) }
{
    let mut whole: ArrayVec<u8, 1024> = ArrayVec::new();
    if whole.try_extend_from_slice(front).is_err() {
        return None;
    }
    if whole.try_extend_from_slice(rest).is_err() {
        return None;
    }
    Some(whole)
}
