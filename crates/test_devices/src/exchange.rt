//! What a stream carries, and what comes of it.

use crate::source::Source;
use std::alloc::{AllocError, Global};

/// Items of a stream, the answers to them, and where each item and its answer end.
#[derive(Drop)]
pub struct Exchange {
    /// The items, one behind the other.
    pub stream: Vec<u8>,
    /// The answers.
    pub text: Vec<u8>,
    ends: Vec<(usize, usize)>,
}

impl Exchange {
    /// No item.
    pub fn new(alloc: Global) -> Exchange {
        Exchange {
            stream: Vec::new(alloc),
            text: Vec::new(alloc),
            ends: Vec::new(alloc),
        }
    }

    /// Adds an item of these parts, and the answer to it.
    pub fn add(&mut self, parts: &[&[u8]], answer: &[u8]) -> Result<(), AllocError> {
        for part in parts {
            self.stream.extend_from_slice(part)?;
        }
        self.text.extend_from_slice(answer)?;
        self.ends.push((self.stream.len(), self.text.len()))?;
        Ok(())
    }

    /// How many items there are.
    pub fn count(&self) -> u64 {
        self.ends.len() as u64
    }

    /// The answers to the items that end at a place of the stream or before it.
    pub fn text_before(&self, place: usize) -> &[u8] {
        let mut last = 0;
        for (end, text) in &self.ends {
            if *end <= place {
                last = *text;
            }
        }
        self.text.get(..last).unwrap_or(&[])
    }

    /// A reader of the stream that gives at most so many bytes at a time, and fails at a place.
    pub fn source_to(&self, place: usize, most: usize) -> Source<'_> {
        let mut source = Source::failing_at(self.stream.as_slice(), place);
        source.most = most;
        source
    }
}
