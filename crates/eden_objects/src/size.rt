//! The depth of a directory, and the length of its paths.
ghost use Rattle.std.specs.Prelude.{◌≡◌};
ghost use Rattle.eden_objects.specs.Trees.{greater};

/// The greatest depth and length of paths below a directory.
///
/// They are counted from the directory on. A store keeps it of each tree.
#[derive(Clone, Copy)]
pub struct Size {
    /// The most components of a path. A directory without entries counts too.
    pub depth: usize,
    /// The most bytes of a path. A directory without entries counts too, with the slash
    /// after its name.
    pub reach: usize,
}

impl Size {
    /// The size of a directory without entries.
    pub(crate) const NONE: Size = Size { depth: 0, reach: 0 };

    /// Returns the size of two parts of a directory together.
    pub(crate) fn or_greater(self, other: Size) -> Size
        ensures depth { result.depth ≡ greater self.depth other.depth }
        ensures reach { result.reach ≡ greater self.reach other.reach }
    {
        Size {
            depth: greater(self.depth, other.depth),
            reach: greater(self.reach, other.reach),
        }
    }
}

/// Returns the greater of two numbers.
fn greater(first: usize, second: usize) -> usize
    ensures { result ≡ greater first second }
{
    if first < second { second } else { first }
}
