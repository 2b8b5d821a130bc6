//! Laws of bytes, paths and ids, each as the contract of a function that does nothing.

ghost use Rattle.eden_ids.specs.Texts.{AreBytes, IsIdText, IsPathText};

use crate::id::Id;
use crate::path::Path;

/// States that each byte is below 256.
pub fn bytes_law(bytes: &[u8])
    ensures { AreBytes bytes.now }
{
    let _ = bytes.len();
}

/// States that a path is valid, and its bytes below 256.
pub fn path_law(path: &Path)
    ensures { IsPathText path.now }
{
    bytes_law(path.as_bytes());
}

/// States that an id is twenty bytes, each below 256.
pub fn id_law(id: Id)
    ensures { IsIdText id }
{
    bytes_law(id.0.as_slice());
}
