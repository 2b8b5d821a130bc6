//! What a store keeps under an id.
ghost use Rattle.std.specs.Prelude.{◌≡◌, Some, None, if◌then◌else◌, option_copied};
ghost use Rattle.eden_git.specs.Commits.{tree_named};
ghost use Rattle.eden_git.specs.Trees.{entries_of};
ghost use Rattle.eden_git.specs.ObjectTypes.{same_type};
ghost use Rattle.eden_objects.specs.Contents.{type_of};
ghost use Rattle.eden_objects.specs.internal.Kept.{IsReadFrom, standing_answer};

use crate::fault::PutFault;
use crate::outline::Outline;
use bytes::Bytes;
use eden_git::{ObjectType, Rows, same_type};
use eden_ids::{Id, NoMemory};
use eden_segments::{Counted, Share};

/// An object's type, and what is kept of it besides its payload.
#[derive(Drop)]
pub(crate) enum Body {
    Blob,
    /// The size of the tree, and its entries in columns.
    Tree(Counted<Outline>),
    Commit {
        /// The tree that the payload names.
        tree: Id,
    },
}

impl Body {
    /// Returns the object's type.
    pub(crate) fn object_type(&self) -> ObjectType
        ensures { result ≡ type_of self.now }
    {
        match self {
            Body::Blob => ObjectType::Blob,
            Body::Tree(_) => ObjectType::Tree,
            Body::Commit { .. } => ObjectType::Commit,
        }
    }
}

impl Share for Body {
    fn share(&self) -> Result<Body, NoMemory> {
        match self {
            Body::Blob => Ok(Body::Blob),
            Body::Tree(outline) => Ok(Body::Tree(outline.share()?)),
            Body::Commit { tree } => Ok(Body::Commit { tree: *tree }),
        }
    }
}

/// An object of a store. Its bytes are shared by all stores that have it.
#[derive(Drop)]
pub(crate) struct Stored {
    pub(crate) payload: Bytes,
    pub(crate) body: Body,
}

impl Stored {
    /// Returns the answer for a new object with this object's id.
    pub(crate) fn id_or_taken(
        &self,
        id: Id,
        object_type: ObjectType,
        payload: &[u8],
    ) -> Result<Id, PutFault>
        ensures { result ≡ standing_answer self.now id object_type payload.now }
    {
        if same_type(self.body.object_type(), object_type) && self.payload.as_slice() == payload {
            Ok(id)
        } else {
            Err(PutFault::IdTaken)
        }
    }

    /// Returns the payload, if the object is a blob.
    pub(crate) fn blob(&self) -> Option<&[u8]>
        ensures { option_copied result ≡ (if same_type (type_of self.now.body) ObjectType.Blob then Some self.now.payload else None) }
    {
        match &self.body {
            Body::Blob => Some(self.payload.as_slice()),
            _ => None,
        }
    }

    /// Returns the payload, if the object is a tree.
    pub(crate) fn entries(&self) -> Option<&[u8]>
        ensures { option_copied result ≡ (if same_type (type_of self.now.body) ObjectType.Tree then Some self.now.payload else None) }
    {
        match &self.body {
            Body::Tree(_) => Some(self.payload.as_slice()),
            _ => None,
        }
    }

    /// Returns the entries with their columns, if the object is a tree.
    pub(crate) fn rows(&self) -> Option<Rows<'_>>
        requires { IsReadFrom self.now.payload self.now.body }
        ensures { result ≡ (if same_type (type_of self.now.body) ObjectType.Tree then Some (entries_of self.now.payload) else None) }
    {
        match &self.body {
            Body::Tree(outline) => Some(Rows::new(self.payload.as_slice(), &outline.columns)),
            _ => None,
        }
    }

    /// Returns the tree that the object names, if it is a commit.
    pub(crate) fn tree(&self) -> Option<Id>
        requires { IsReadFrom self.now.payload self.now.body }
        ensures { result ≡ (if same_type (type_of self.now.body) ObjectType.Commit then tree_named self.now.payload else None) }
    {
        match &self.body {
            Body::Commit { tree } => Some(*tree),
            _ => None,
        }
    }
}

impl Share for Stored {
    fn share(&self) -> Result<Stored, NoMemory> {
        Ok(Stored {
            payload: self.payload.clone()?,
            body: self.body.share()?,
        })
    }
}
