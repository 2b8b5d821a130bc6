//! Of some paths those that are wanted.

ghost use Rattle.std.specs.Prelude.{◌≡◌, ◌++◌, ℕ, Bool, List, OnErr, OnOk, filter};
ghost use Rattle.std.specs.Fn.{ComputesKey};
ghost use Rattle.eden_ids.specs.Fronts.{AddsSome};

use crate::memory::NoMemory;
use crate::path::Path;

/// Adds those of some paths that are wanted to a list, in their order.
///
/// `NoMemory` if an allocation fails; then some first ones were added.
pub fn push_where<F: FnMut(&Path) -> bool>(
    to: &mut Vec<Path>,
    from: &[Path],
    mut is_wanted: F,
) -> Result<(), NoMemory>
    requires { F.IsAlwaysCallable is_wanted }
    ensures ok { (wanted : List ℕ → Bool) → ComputesKey F.FnMut wanted is_wanted → OnOk result (to.new.items ≡ to.old.items ++ filter wanted from.now) }
    ensures err { (wanted : List ℕ → Bool) → ComputesKey F.FnMut wanted is_wanted → OnErr result (AddsSome (filter wanted from.now) to.old.items to.new.items) }
{
    for path in from {
        if is_wanted(path) {
            to.push(path.copy()?)?;
        }
    }
    Ok(())
}
