//! Files without their bytes.

ghost use Rattle.std.specs.Prelude.{◌≡◌, ◌<◌, ◌^◌, length};
ghost use Rattle.eden_objects.specs.Stats.{stat_of};

use eden_git::ObjectType;
use eden_ids::{Content, Id, Kind, Naming};

/// A file without its bytes.
#[derive(Clone, Copy, Debug, PartialEq, Eq)]
pub struct Stat {
    /// The file's kind.
    pub kind: Kind,
    /// The number of its bytes.
    pub length: u32,
    /// The id of the blob that its bytes make.
    pub id: Id,
}

impl Stat {
    /// Returns a file without its bytes, which are hashed for the id.
    ///
    /// The file must have fewer than 2^32 bytes. Does not allocate.
    pub fn of<N: Naming>(naming: &N, content: &Content) -> Stat
        requires { length content.now.bytes < 2 ^ 32 }
        ensures { result ≡ stat_of N.id content.now }
    {
        let bytes = content.bytes.as_slice();
        Stat {
            kind: content.kind,
            length: bytes.len() as u32,
            id: naming.id_of(ObjectType::Blob.text(), bytes),
        }
    }
}
