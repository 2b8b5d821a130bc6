//! The path of what is carried with its directory.

ghost use Rattle.std.specs.Prelude.{◌≡◌, ◌≢◌, false, true, IfOk, IfErr};
ghost use Rattle.eden_ids.specs.Paths.{lies_below};
ghost use Rattle.eden_overlay.specs.Carried.{breaks, carried};

use eden_ids::{NoMemory, Path};
use std::alloc::Global;
use thiserror::Error;

/// Why what lies below a directory was not carried to another one.
#[derive(Clone, Copy, Debug, PartialEq, Eq, Error)]
pub enum CarryFault {
    /// Some path would become longer or deeper than a path may be.
    #[error("PathTooLong")]
    PathTooLong,
    /// An allocation failed.
    #[error("NoMemory")]
    NoMemory,
}

impl From<NoMemory> for CarryFault {
    ghost use Rattle.eden_overlay.specs.declared.carried.CarryFault.TheVariants as faults;

    ghost from_gives = { λ _ fault. fault ≡ faults.NoMemory };

    fn from(_fault: NoMemory) -> CarryFault {
        CarryFault::NoMemory
    }
}

/// Returns the bytes of the place below `new` that a path has below `old`.
fn carried_bytes(alloc: Global, path: &Path, old: &Path, new: &Path) -> Result<Vec<u8>, NoMemory>
    requires { lies_below path.now old.now ≡ true }
    ensures { IfOk result (λ bytes. bytes.items ≡ carried old.now new.now path.now) }
{
    let front = new.as_bytes();
    let rest = &path.as_bytes()[old.as_bytes().len()..];
    let mut bytes = Vec::with_capacity(alloc, front.len() + rest.len())?;
    bytes.extend_from_slice(front)?;
    bytes.extend_from_slice(rest)?;
    Ok(bytes)
}

/// Returns the place below `new` that a path has below `old`.
///
/// `PathTooLong` if that place is not a path, and `NoMemory` if an allocation fails.
pub fn carried_path(alloc: Global, path: &Path, old: &Path, new: &Path) -> Result<Path, CarryFault>
    requires { lies_below path.now old.now ≡ true }
    ensures place { IfOk result (λ place. place ≡ carried old.now new.now path.now) }
    ensures accepts { IfOk result (λ _. breaks old.now new.now path.now ≡ false) }
    ensures refuses { IfErr result (λ fault. fault ≢ CarryFault.NoMemory → breaks old.now new.now path.now ≡ true) }
{
    match Path::from_vec(carried_bytes(alloc, path, old, new)?) {
        Ok(path) => Ok(path),
        Err(_) => Err(CarryFault::PathTooLong),
    }
}
