//! Bytes that are joined, listed and compared.

use eden_ids::Path;
use std::alloc::{AllocError, Global};

/// These bytes, one behind the other.
pub fn joined(alloc: Global, parts: &[&[u8]]) -> Result<Vec<u8>, AllocError> {
    let mut bytes = Vec::new(alloc);
    for part in parts {
        bytes.extend_from_slice(part)?;
    }
    Ok(bytes)
}

/// These paths, each with a space behind it.
pub fn spaced(alloc: Global, paths: &[Path]) -> Result<Vec<u8>, AllocError> {
    let mut text = Vec::new(alloc);
    for path in paths {
        text.extend_from_slice(path.as_bytes())?;
        text.push(b' ')?;
    }
    Ok(text)
}

/// The lines that semicolons end, and the last one.
pub fn lines(alloc: Global, text: &str) -> Result<Vec<u8>, AllocError> {
    let mut lines = Vec::new(alloc);
    for byte in text.as_bytes() {
        lines.push(if *byte == b';' { b'\n' } else { *byte })?;
    }
    lines.push(b'\n')?;
    Ok(lines)
}

/// The number of the first line, from 1, in which two texts differ, if they do.
pub fn differing_line(printed: &[u8], wanted: &[u8]) -> Option<usize> {
    if printed == wanted {
        return None;
    }
    let mut line: usize = 1;
    for (byte, other) in printed.iter().zip(wanted) {
        if byte != other {
            break;
        }
        if *byte == b'\n' {
            line = line.saturating_add(1);
        }
    }
    Some(line)
}
