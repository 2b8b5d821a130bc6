//! The words of a line that are not read yet.

ghost use Rattle.std.specs.Prelude.{◌≡◌, ◌≢◌, ◌<◌, [], ◌∷◌, length, MatchOption};

use crate::lines::Word;
use std::marker::Model;

/// Words that are taken from the front.
#[derive(Drop)]
pub(crate) struct Unread {
    // The last word first, so that the first one can be popped.
    backwards: Vec<Word>,
}

impl Model for Unread {
    ghost use Rattle.std.specs.Prelude.{ℕ, List, reverse};

    ghost Value = { List (List ℕ) };

    ghost view = { λ unread. reverse unread.backwards.items };
}

impl Unread {
    /// Returns all of these words.
    pub(crate) fn new(words: Vec<Word>) -> Unread
        ensures { result ≡ words.items }
    {
        let mut backwards = words;
        backwards.reverse();
        Unread { backwards }
    }

    /// Returns the number of words.
    pub(crate) fn len(&self) -> usize
        ensures { result ≡ length self.now }
    {
        self.backwards.len()
    }

    /// Returns the words as a vector.
    pub(crate) fn into_words(self) -> Vec<Word>
        ensures { result.items ≡ self }
    {
        let mut words = self.backwards;
        words.reverse();
        words
    }

    /// Takes the first word. There must be one.
    pub(crate) fn take(&mut self) -> Word
        requires { 0 < length self.old }
        ensures { self.old ≡ result ∷ self.new }
    {
        self.backwards.pop().unwrap()
    }

    /// Returns `Some` if there is no word.
    pub(crate) fn none(self) -> Option<()>
        ensures { MatchOption result (length self ≢ 0) (λ _. self ≡ []) }
    {
        if self.len() == 0 { Some(()) } else { None }
    }

    /// Returns the word, if there is exactly one.
    pub(crate) fn one(mut self) -> Option<Word>
        ensures { MatchOption result (length self ≢ 1) (λ word. self ≡ word ∷ []) }
    {
        if self.len() == 1 {
            Some(self.take())
        } else {
            None
        }
    }

    /// Returns the two words, if there are exactly two.
    pub(crate) fn two(mut self) -> Option<(Word, Word)>
        ensures { MatchOption result (length self ≢ 2) (λ words. self ≡ words.0 ∷ words.1 ∷ []) }
    {
        if self.len() != 2 {
            return None;
        }
        let first = self.take();
        Some((first, self.take()))
    }

    /// Returns the three words, if there are exactly three.
    pub(crate) fn three(mut self) -> Option<(Word, Word, Word)>
        ensures { MatchOption result (length self ≢ 3) (λ words. self ≡ words.0 ∷ words.1 ∷ words.2 ∷ []) }
    {
        if self.len() != 3 {
            return None;
        }
        let first = self.take();
        let second = self.take();
        Some((first, second, self.take()))
    }
}
