//! Changes, the paths and contents of which they are made, and filters.

use bytes::Bytes;
use eden_globs::Filter;
use eden_history::Change;
use eden_ids::{Content, Kind, Path};
use std::alloc::Global;
use std::test::Fail;

/// The path with this text.
pub fn path(alloc: Global, text: &str) -> Result<Path, Fail> {
    Ok(Path::parse(alloc, text.as_bytes())?)
}

/// The content of a plain file with this text.
pub fn plain(alloc: Global, text: &str) -> Result<Content, Fail> {
    Ok(Content::from_bytes(alloc, Kind::Plain, text.as_bytes())?)
}

/// The filter of a pattern, or of none where the text is empty.
pub fn filter_of(alloc: Global, pattern: &str) -> Result<Filter, Fail> {
    if pattern.is_empty() {
        return Ok(Filter::all(alloc));
    }
    Ok(Filter::parse(alloc, &[pattern.as_bytes()])?)
}

/// That a plain file with this text is set at a path.
pub fn write(alloc: Global, at: &str, text: &str) -> Result<Change, Fail> {
    let Content { kind, bytes } = plain(alloc, text)?;
    let path = path(alloc, at)?;
    Ok(Change::Write { path, kind, bytes })
}

/// That the file at a path is taken away.
pub fn remove(alloc: Global, at: &str) -> Result<Change, Fail> {
    let path = path(alloc, at)?;
    Ok(Change::Remove { path })
}

/// That the file at a path is put at another one.
pub fn rename(alloc: Global, old: &str, new: &str) -> Result<Change, Fail> {
    Ok(Change::Rename {
        old: path(alloc, old)?,
        new: path(alloc, new)?,
    })
}

/// That a file of one byte more than the most is set at `a`.
pub fn write_too_large(alloc: Global) -> Result<Change, Fail> {
    Ok(Change::Write {
        path: path(alloc, "a")?,
        kind: Kind::Plain,
        bytes: Bytes::from_vec(vec![in alloc; 0u8; 8_388_609]?)?,
    })
}
