//! The rule that gives each object its id.

ghost use Rattle.std.specs.Prelude.{◌≡◌};

use crate::id::Id;
use itoa::Buffer;
use sha1::Sha1;

/// A rule that gives each object its id.
///
/// The id depends on the object type's word (`blob`, `tree` or `commit`) and the payload
/// alone: calls with the same bytes return the same id.
pub trait Naming: Copy {
    ghost use Rattle.std.specs.Prelude.{ℕ, List};
    ghost use Rattle.eden_ids.specs.declared.id.Id.{Id};

    ghost id: { List ℕ → List ℕ → Id };

    /// Returns the id of an object. Does not allocate.
    fn id_of(&self, word: &[u8], payload: &[u8]) -> Id
        ensures { result ≡ id word.now payload.now };
}

/// Git's rule, for repositories whose object format is SHA-1.
///
/// The id is the SHA-1 of the object type's word, a space, the payload's length in
/// decimal, a NUL byte and the payload (see `git help hash-object`).
#[derive(Clone, Copy, Debug, PartialEq, Eq)]
pub struct GitNaming;

impl Naming for GitNaming {
    ghost use Rattle.eden_ids.specs.Naming.{git_name};

    ghost id = { git_name };

    fn id_of(&self, word: &[u8], payload: &[u8]) -> Id {
        let mut hasher = Sha1::new();
        hasher.update(word);
        hasher.update(b" ".as_slice());
        hasher.update(Buffer::new().format(payload.len()).as_bytes());
        hasher.update(b"\0".as_slice());
        hasher.update(payload);
        Id(hasher.finalize())
    }
}
