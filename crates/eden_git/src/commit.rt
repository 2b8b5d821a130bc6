//! The tree that a commit names.
ghost use Rattle.std.specs.Prelude.{◌≡◌};
ghost use Rattle.eden_git.specs.Commits.{tree_named};

use eden_ids::Id;

/// Returns the tree that a commit's payload names, if it begins like a commit.
///
/// Does not allocate.
#[tactic(auto, using(crate::proofs::Reading::no_tree_in))]
pub fn tree_named(payload: &[u8]) -> Option<Id>
    ensures { result ≡ tree_named payload.now }
{
    if payload.len() < 46 {
        return None;
    }
    if !payload.starts_with(b"tree ".as_slice()) || !payload[45..].starts_with(b"\n".as_slice()) {
        return None;
    }
    Id::from_hex(&payload[5..45]).ok()
}
