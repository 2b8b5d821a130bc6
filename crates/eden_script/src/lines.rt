//! The words of a line.

ghost use Rattle.std.specs.Prelude.{◌≡◌, IfOk};
ghost use Rattle.std.specs.Option.{option_map};
ghost use Rattle.eden_script.specs.Words.{word_of, words_of};

use crate::escapes::unescape;
use std::alloc::{AllocError, Global};
use std::marker::Model;

/// A word of a line, with its escapes undone: any bytes, also none.
#[derive(Drop)]
pub struct Word {
    bytes: Vec<u8>,
}

impl Model for Word {
    ghost use Rattle.std.specs.Prelude.{ℕ, List};

    ghost Value = { List ℕ };

    ghost view = { λ word. word.bytes.items };
}

impl Word {
    /// Returns the bytes of the word.
    pub fn as_bytes(&self) -> &[u8]
        ensures { result.now ≡ self.now }
    {
        self.bytes.as_slice()
    }

    /// Returns the bytes of the word, as a vector.
    pub fn into_bytes(self) -> Vec<u8>
        ensures { result.items ≡ self }
    {
        self.bytes
    }
}

/// Splits a line into words with their escapes undone, or returns `None`.
///
/// `None` means that the line is invalid. It may have an empty word: two spaces in a row,
/// a space at either end, an empty line. Or a backslash is at a word's end, or before a
/// byte with which it is not an escape.
///
/// # Errors
///
/// - `AllocError` if an allocation fails.
pub fn words(alloc: Global, line: &[u8]) -> Result<Option<Vec<Word>>, AllocError>
    ensures { IfOk result (λ words. option_map (λ v. v.items) words ≡ words_of line.now) }
{
    let mut words = Vec::new(alloc);
    for part in line.split(|b| *b == b' ') {
        match read_word(alloc, part)? {
            Some(word) => words.push(word)?,
            None => return Ok(None),
        }
    }
    Ok(Some(words))
}

/// Reads a word from a part of a line. An empty part is not a word.
fn read_word(alloc: Global, part: &[u8]) -> Result<Option<Word>, AllocError>
    ensures { IfOk result (λ word. word ≡ word_of part.now) }
{
    if part.is_empty() {
        return Ok(None);
    }
    Ok(unescape(alloc, part)?.map(|bytes| Word { bytes }))
}
