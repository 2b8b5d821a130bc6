//! The types of objects.
ghost use Rattle.std.specs.Prelude.{◌≡◌};
ghost use Rattle.eden_git.specs.ObjectTypes.{type_text, same_type};

/// The type of an object.
#[derive(Clone, Copy, Debug, PartialEq, Eq)]
pub enum ObjectType {
    /// The bytes of a file, or the target of a link.
    Blob,
    /// The entries of a directory.
    Tree,
    /// A tree and a text about it, which is kept and not read.
    Commit,
}

impl ObjectType {
    /// Returns Git's name of the type, which begins the text that is hashed.
    pub fn text(self) -> &'static [u8]
        ensures { result.now ≡ type_text self }
    {
        match self {
            ObjectType::Blob => b"blob".as_slice(),
            ObjectType::Tree => b"tree".as_slice(),
            ObjectType::Commit => b"commit".as_slice(),
        }
    }
}

/// Returns whether two types are the same.
pub fn same_type(first: ObjectType, second: ObjectType) -> bool
    ensures { result ≡ same_type first second }
{
    match (first, second) {
        (ObjectType::Blob, ObjectType::Blob)
        | (ObjectType::Tree, ObjectType::Tree)
        | (ObjectType::Commit, ObjectType::Commit) => true,
        _ => false,
    }
}
