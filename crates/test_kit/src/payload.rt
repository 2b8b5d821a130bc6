//! Payloads in Git's format.

use eden_ids::Id;
use std::alloc::{AllocError, Global};

/// Appends an entry of a tree: its mode, a space, its name, a zero byte and the twenty bytes of its id.
pub fn push_entry(
    payload: &mut Vec<u8>,
    mode: &str,
    name: &[u8],
    id: Id,
) -> Result<(), AllocError> {
    payload.extend_from_slice(mode.as_bytes())?;
    payload.push(b' ')?;
    payload.extend_from_slice(name)?;
    payload.push(0)?;
    payload.extend_from_slice(id.0.as_slice())
}

/// The text of a commit that names a tree, with more text behind that line.
pub fn commit_of(alloc: Global, tree: Id, more: &str) -> Result<Vec<u8>, AllocError> {
    let mut payload = b"tree ".as_slice().to_vec(alloc)?;
    payload.extend_from_slice(tree.to_hex().as_slice())?;
    payload.push(b'\n')?;
    payload.extend_from_slice(more.as_bytes())?;
    Ok(payload)
}

/// The payload of a tree of these entries.
pub fn tree_of(alloc: Global, entries: &[(&str, &str, Id)]) -> Result<Vec<u8>, AllocError> {
    let mut payload = Vec::new(alloc);
    for (mode, name, id) in entries {
        push_entry(&mut payload, mode, name.as_bytes(), *id)?;
    }
    Ok(payload)
}
