//! Bodies that are drawn by lot, most of which are no message.

ghost use Rattle.std.specs.Prelude.{◌<◌};

use crate::bodies::{PLACE_BYTES, QUERY_BYTES, REPLY_BODIES, REQUEST_BODIES};
use crate::text::joined;
use rand_core::utils::NextWord;
use rand_pcg::Pcg32;
use std::alloc::{AllocError, Global};

/// Bodies drawn by lot. What is drawn follows from the seed alone.
#[derive(Drop)]
pub struct Bodies {
    words: Pcg32,
}

/// The place of each byte of a path of three, from the number of the path.
const PLACES: [usize; 3] = [40_000, 200, 1];

/// Adds the path of a number, below 8,000,000: three bytes behind the slash, which ascend with the number.
fn push_path(body: &mut Vec<u8>, number: usize) -> Result<(), AllocError> {
    body.extend_from_slice([0, 3].as_slice())?;
    for place in &PLACES {
        let digit = number.checked_div(*place).unwrap_or(0) % 200;
        body.push(b'0' + digit as u8)?;
    }
    Ok(())
}

/// Bytes with the length of them before them, in four bytes: the frame of a body.
pub fn framed(alloc: Global, body: &[u8]) -> Result<Vec<u8>, AllocError> {
    let length = (body.len() % 4_294_967_296) as u32;
    joined(alloc, &[&length.to_be_bytes(), body])
}

impl Bodies {
    /// The bodies of a seed.
    pub fn new(seed: u64) -> Bodies {
        Bodies {
            words: Pcg32::new(seed, 54),
        }
    }

    /// A number below this one.
    fn below(&mut self, bound: usize) -> usize
        requires { 0 < bound }
        ensures { result < bound }
    {
        self.words.next_word() as usize % bound
    }

    /// A byte.
    fn byte(&mut self) -> u8 {
        (self.words.next_word() % 256) as u8
    }

    /// So many bytes, or fewer, behind those that begin a message, or not.
    fn random(&mut self, alloc: Global, length: usize) -> Result<Vec<u8>, AllocError> {
        let mut body = Vec::new(alloc);
        if self.below(2) == 0 {
            body.extend_from_slice([2, self.byte() % 8].as_slice())?;
        }
        for _ in 0..self.below(length.max(1)) {
            body.push(self.byte())?;
        }
        Ok(body)
    }

    /// The body of a known message, of which some bytes are others, and which may lack its end or have more behind it.
    fn changed(&mut self, alloc: Global) -> Result<Vec<u8>, AllocError> {
        let mut body = if self.below(2) == 0 {
            joined(alloc, REQUEST_BODIES[self.below(4)])?
        } else {
            joined(alloc, REPLY_BODIES[self.below(9)])?
        };
        for _ in 0..self.below(4) {
            let place = self.below(body.len().max(1));
            let value = if self.below(2) == 0 {
                self.byte()
            } else {
                self.byte() % 4
            };
            if let Some(byte) = body.get_mut(place) {
                *byte = value;
            }
        }
        match self.below(4) {
            0 => body.push(self.byte())?,
            1 => body.truncate(self.below(body.len().max(1))),
            _ => {}
        }
        Ok(body)
    }

    /// A count of so many: itself, one that is wrong by 1, or one that is absurd.
    fn count(&mut self, right: usize) -> u32 {
        let right = (right % 4_294_967_296) as u32;
        match self.below(6) {
            0 => right.wrapping_add(1),
            1 => right.wrapping_sub(1),
            2 => u32::MAX,
            3 => self.words.next_word(),
            _ => right,
        }
    }

    /// A reply that tells paths, of at most so many bytes, or few more, with a count of them that may be wrong.
    fn counted(&mut self, alloc: Global, length: usize) -> Result<Vec<u8>, AllocError> {
        let paths = length.saturating_sub(72) / 6;
        let marked = self.below(2) == 0;
        let tag = if marked { 0x82 } else { 0x81 };
        let mut body = joined(alloc, &[&[2, tag], &QUERY_BYTES, &PLACE_BYTES])?;
        body.extend_from_slice(&self.count(paths).to_be_bytes())?;
        for number in 0..paths {
            if marked {
                body.push(1)?;
            }
            push_path(&mut body, number)?;
        }
        if marked {
            body.extend_from_slice([0; 4].as_slice())?;
        }
        Ok(body)
    }

    /// The content of a file of at most so many bytes, with a count of them that may be wrong.
    fn content(&mut self, alloc: Global, length: usize) -> Result<Vec<u8>, AllocError> {
        let bytes = length.saturating_sub(72);
        let mut body = joined(alloc, &[&[2, 0x83], &QUERY_BYTES, &PLACE_BYTES])?;
        body.extend_from_slice([0, 1, b'a', 1].as_slice())?;
        body.extend_from_slice(&self.count(bytes).to_be_bytes())?;
        body.resize(body.len().saturating_add(bytes), b'x')?;
        Ok(body)
    }

    /// A basis by patterns of which the lengths, and their number, may be wrong.
    fn filter(&mut self, alloc: Global) -> Result<Vec<u8>, AllocError> {
        let mut body = joined(alloc, &[&[2, 1], &QUERY_BYTES])?;
        let patterns = self.below(36);
        let count = if self.below(3) == 0 {
            self.byte()
        } else {
            patterns as u8
        };
        body.push(count)?;
        for _ in 0..patterns {
            let length = self.below(300);
            let told = if self.below(50) == 0 {
                self.count(length)
            } else {
                length as u32
            };
            body.extend_from_slice(&((told % 65_536) as u16).to_be_bytes())?;
            body.resize(body.len().saturating_add(length), b'*')?;
        }
        Ok(body)
    }

    /// A body of at most so many bytes, where that is more than some hundred: bytes by lot, a known message that was changed, or one whose
    /// counts or lengths may be wrong.
    pub fn body(&mut self, alloc: Global, length: usize) -> Result<Vec<u8>, AllocError> {
        match self.below(8) {
            0 | 1 => self.random(alloc, length),
            2..=4 => self.changed(alloc),
            5 => self.counted(alloc, length),
            6 => self.content(alloc, length),
            _ => self.filter(alloc),
        }
    }
}
