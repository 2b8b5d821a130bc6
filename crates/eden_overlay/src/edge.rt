//! Where the paths below a directory begin in byte order, and where they end.

ghost use Rattle.std.specs.Prelude.{◌≡◌, ◌∷◌, ◌++◌, []};

use arrayvec::ArrayVec;
use eden_ids::Path;

/// Returns a path with one byte after it.
///
/// The paths below a directory are those from its path and a slash on, up to its path and the byte
/// that follows the slash.
pub(crate) fn edge(path: &Path, byte: u8) -> ArrayVec<u8, 1025>
    ensures { result.items ≡ path.now ++ byte ∷ [] }
{
    let mut edge = ArrayVec::new();
    if edge.try_extend_from_slice(path.as_bytes()).is_err() {
        // A path has at most 1,024 bytes.
        unreachable!()
    }
    edge.push(byte);
    edge
}
