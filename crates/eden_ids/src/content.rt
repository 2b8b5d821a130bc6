//! A file: its kind and its bytes.

ghost use Rattle.std.specs.Prelude.{◌≡◌, IfOk};

use crate::memory::NoMemory;
use bytes::Bytes;
use std::alloc::Global;

/// The kind of a file. Git's tree entries have one mode for each: 100644, 100755 and
/// 120000.
#[derive(Clone, Copy, Debug, PartialEq, Eq)]
pub enum Kind {
    /// A regular file.
    Plain,
    /// An executable file.
    Exec,
    /// A symbolic link; its bytes are its target.
    Link,
}

/// A file: its kind and its bytes.
///
/// Copies of a file share its bytes.
#[derive(Clone, Debug, PartialEq, Drop)]
pub struct Content {
    /// The file's kind.
    pub kind: Kind,
    /// The file's bytes; for a link, its target.
    pub bytes: Bytes,
}

impl Content {
    ghost use Rattle.eden_ids.specs.FileMaps.{lent};

    /// The most bytes that a file may hold: 8 MiB.
    pub const LIMIT: usize = 8_388_608;

    /// Returns a file with a copy of these bytes.
    ///
    /// # Errors
    ///
    /// - `NoMemory` if an allocation fails.
    pub fn from_bytes(alloc: Global, kind: Kind, bytes: &[u8]) -> Result<Content, NoMemory>
        ensures { IfOk result (λ content. content ≡ record { kind = kind; bytes = bytes.now }) }
    {
        let bytes = Bytes::copy_from_slice(alloc, bytes)?;
        Ok(Content { kind, bytes })
    }

    /// Returns a copy of this file, which shares its bytes. Does not allocate.
    ///
    /// # Errors
    ///
    /// - `NoMemory` if the count of those that share the bytes is full.
    pub fn copy(&self) -> Result<Content, NoMemory>
        ensures { IfOk result (λ content. content ≡ self.now) }
    {
        Ok(self.clone()?)
    }

    /// Returns a copy of a file, or `None` if there is none.
    ///
    /// It shares the file's bytes. Does not allocate.
    ///
    /// # Errors
    ///
    /// - `NoMemory` if the count of those that share the bytes is full.
    pub fn copy_of(content: &Option<Content>) -> Result<Option<Content>, NoMemory>
        ensures { IfOk result (λ copy. copy ≡ content.now) }
    {
        match content {
            Some(content) => Ok(Some(content.copy()?)),
            None => Ok(None),
        }
    }

    /// Returns an owned file of a borrowed one, if any.
    ///
    /// It shares the borrowed file's bytes. Does not allocate.
    ///
    /// # Errors
    ///
    /// - `NoMemory` if the count of those that share the bytes is full.
    pub fn of_lent(file: Option<(Kind, &Bytes)>) -> Result<Option<Content>, NoMemory>
        ensures { IfOk result (λ content. content ≡ lent file.entry) }
    {
        match file {
            Some((kind, bytes)) => {
                let bytes = bytes.clone()?;
                Ok(Some(Content { kind, bytes }))
            }
            None => Ok(None),
        }
    }
}
