//! Laws of the type of changes, as the contract of a function that does nothing.

ghost use Rattle.eden_history.specs.Spellable.{AreObjects, IsChange};

use crate::change::Change;
use eden_ids::{bytes_law, id_law, path_law};
use eden_objects::Object;

/// States that the payloads of objects are bytes.
fn objects_law(objects: &[Object])
    ensures { AreObjects objects.now }
{
    for object in objects {
        bytes_law(object.payload.as_slice());
    }
}

/// States the limits of every change.
///
/// Its paths are valid, its ids have twenty bytes, its generation has eight, and its
/// objects' payloads are bytes.
pub fn change_law(change: &Change)
    ensures { IsChange change.now }
{
    match change {
        Change::Write { path, bytes, .. } => {
            path_law(path);
            bytes_law(bytes.as_slice());
        }
        Change::Remove { path } => path_law(path),
        Change::Rename { old, new } => {
            path_law(old);
            path_law(new);
        }
        Change::RenameDir { old, new } => {
            path_law(old);
            path_law(new);
        }
        Change::Checkout { commit, .. } => id_law(*commit),
        Change::Reset { commit } => id_law(*commit),
        Change::Flush => {}
        Change::Remount { generation } => {
            let _generation = *generation;
        }
        Change::Import { objects } => objects_law(objects.as_slice()),
    }
}
