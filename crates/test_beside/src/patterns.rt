//! Patterns and paths drawn by lot.

use eden_ids::Path;
use std::alloc::Global;
use std::test::Fail;
use test_kit::Lot;

/// What parts of patterns are made of.
const PIECES: [&str; 8] = ["a", "b", "ab", "*", "?", "\\*", "**", "a"];

/// What names are made of.
const NAMES: [&str; 8] = ["a", "b", "ab", "*", "a", "b", "a", ".b"];

/// Adds one to three of these pieces.
fn add_pieces(lot: &mut Lot, text: &mut Vec<u8>, pieces: &[&str; 8]) -> Result<(), Fail> {
    for _ in 0..=lot.below(3) {
        text.extend_from_slice(pieces[lot.below(8)].as_bytes())?;
    }
    Ok(())
}

/// Draws a pattern of one to four parts, of which each fourth one is `**`.
pub(crate) fn pattern(alloc: Global, lot: &mut Lot) -> Result<Vec<u8>, Fail> {
    let mut text = Vec::new(alloc);
    for part in 0..=lot.below(4) {
        if part > 0 {
            text.push(b'/')?;
        }
        if lot.below(4) == 0 {
            text.extend_from_slice(b"**".as_slice())?;
        } else {
            add_pieces(lot, &mut text, &PIECES)?;
        }
    }
    Ok(text)
}

/// Draws a path of one to four names, which such patterns admit now and then.
pub(crate) fn long_path(alloc: Global, lot: &mut Lot) -> Result<Path, Fail> {
    let mut text = Vec::new(alloc);
    for name in 0..=lot.below(4) {
        if name > 0 {
            text.push(b'/')?;
        }
        add_pieces(lot, &mut text, &NAMES)?;
    }
    Ok(Path::parse(alloc, text.as_slice())?)
}
