//! A plain reader of messages: it reads a body field by field, as the format says, and keeps nothing of it.

use eden_wire::DecodeFault;

/// What is left of a body that is being read.
#[derive(Drop)]
struct Left<'a> {
    bytes: &'a [u8],
}

impl<'a> Left<'a> {
    /// The next bytes, so many.
    fn take(&mut self, count: usize) -> Result<&'a [u8], DecodeFault> {
        let (Some(first), Some(rest)) = (self.bytes.get(..count), self.bytes.get(count..)) else {
            return Err(DecodeFault::CutShort);
        };
        self.bytes = rest;
        Ok(first)
    }

    /// A number of so many bytes, 8 at the most.
    fn number(&mut self, bytes: usize) -> Result<u64, DecodeFault> {
        let mut number: u64 = 0;
        for byte in self.take(bytes)? {
            number = number.wrapping_mul(256).wrapping_add(u64::from(*byte));
        }
        Ok(number)
    }

    /// So many bytes, with the count of them before them.
    fn text(&mut self, width: usize, least: u64, most: u64) -> Result<&'a [u8], DecodeFault> {
        let count = self.number(width)?;
        if count < least || count > most {
            return Err(DecodeFault::BadField);
        }
        self.take(count as usize)
    }

    fn path(&mut self) -> Result<&'a [u8], DecodeFault> {
        let path = self.text(2, 1, 1024)?;
        if is_path(path) {
            Ok(path)
        } else {
            Err(DecodeFault::BadField)
        }
    }

    /// A path, or none.
    fn prefix(&mut self) -> Result<(), DecodeFault> {
        match self.number(1)? {
            0 => Ok(()),
            1 => {
                let _ = self.path()?;
                Ok(())
            }
            _ => Err(DecodeFault::BadField),
        }
    }

    /// Paths that ascend, with a mark before each or without, and each below a directory if there is one.
    fn paths(&mut self, marks: bool, prefix: Option<&[u8]>) -> Result<(), DecodeFault> {
        let mut last = b"".as_slice();
        for _ in 0..self.number(4)? {
            if marks && !(1..=4).contains(&self.number(1)?) {
                return Err(DecodeFault::BadField);
            }
            let path = self.path()?;
            if path <= last || !prefix.is_none_or(|prefix| is_below(path, prefix)) {
                return Err(DecodeFault::BadField);
            }
            last = path;
        }
        Ok(())
    }

    /// A filter: its patterns are judged once all of them are there.
    fn filter(&mut self) -> Result<(), DecodeFault> {
        let count = self.number(1)?;
        if count > 32 {
            return Err(DecodeFault::BadField);
        }
        let mut good = true;
        for _ in 0..count {
            let pattern = self.text(2, 1, 256)?;
            good = good && is_pattern(pattern);
        }
        if good {
            Ok(())
        } else {
            Err(DecodeFault::BadField)
        }
    }

    fn content(&mut self) -> Result<(), DecodeFault> {
        match self.number(1)? {
            0 => Ok(()),
            1..=3 => {
                let _ = self.text(4, 0, 8_388_608)?;
                Ok(())
            }
            _ => Err(DecodeFault::BadField),
        }
    }

    fn cause(&mut self) -> Result<(), DecodeFault> {
        let cause = self.number(1)?;
        if cause == 0 || cause > 4 {
            return Err(DecodeFault::BadField);
        }
        if self.number(8)? != 0 && cause == 4 {
            return Err(DecodeFault::BadField);
        }
        Ok(())
    }

    /// A generation, a sequence number and a root.
    fn position(&mut self) -> Result<(), DecodeFault> {
        let _ = self.number(8)?;
        let _ = self.number(8)?;
        let _ = self.take(20)?;
        Ok(())
    }

    /// The fields behind the query of a message with this tag.
    fn fields(&mut self, tag: u64) -> Result<(), DecodeFault> {
        if matches!(tag, 2 | 0x81 | 0x82 | 0x83 | 0x85) {
            self.position()?;
        }
        match tag {
            1 | 2 | 10 => self.filter(),
            9 => {
                self.prefix()?;
                self.filter()
            }
            0x81 => self.paths(false, None),
            0x82 => {
                self.paths(true, None)?;
                self.paths(false, None)
            }
            0x84 => self.cause(),
            _ => self.of_path(tag),
        }
    }

    /// The fields of a message that begins with a path, or has one behind a position.
    fn of_path(&mut self, tag: u64) -> Result<(), DecodeFault> {
        let path = self.path()?;
        match tag {
            4 => self.filter(),
            0x83 => self.content(),
            0x85 => self.paths(false, Some(path)),
            _ => Ok(()),
        }
    }

    /// The version, and one of these tags.
    fn tag(&mut self, tags: &[u64]) -> Result<u64, DecodeFault> {
        if self.number(1)? != 2 {
            return Err(DecodeFault::Version);
        }
        let tag = self.number(1)?;
        if tags.contains(&tag) {
            Ok(tag)
        } else {
            Err(DecodeFault::BadTag)
        }
    }

    /// What is excluded, and the tag after it: one of these that has a filter.
    fn exclusions(&mut self, tags: &[u64]) -> Result<u64, DecodeFault> {
        if self.bytes.first() == Some(&0) {
            return Err(DecodeFault::BadField);
        }
        self.filter()?;
        match self.tag(tags)? {
            3 | 7 | 8 => Err(DecodeFault::BadTag),
            tag => Ok(tag),
        }
    }

    /// A body with one of these tags.
    fn body(&mut self, tags: &[u64]) -> Result<(), DecodeFault> {
        let mut tag = self.tag(tags)?;
        if tag == 7 {
            tag = self.exclusions(tags)?;
        }
        for _ in 0..3 {
            let _ = self.number(8)?;
        }
        self.fields(tag)?;
        if self.bytes.is_empty() {
            Ok(())
        } else {
            Err(DecodeFault::Trailing)
        }
    }
}

fn is_name(name: &[u8]) -> bool {
    !name.is_empty()
        && name.len() <= 255
        && name != b".".as_slice()
        && name != b"..".as_slice()
        && !name.contains(&0)
}

/// Whether bytes, 1 to 1,024 of them, are a path.
fn is_path(bytes: &[u8]) -> bool {
    let mut names = 0;
    for name in bytes.split(|b| *b == b'/') {
        if !is_name(name) {
            return false;
        }
        names = names.min(64) + 1;
    }
    names <= 64
}

/// Whether a path lies below a directory.
fn is_below(path: &[u8], prefix: &[u8]) -> bool {
    path.starts_with(prefix) && path.get(prefix.len()) == Some(&b'/')
}

/// Whether bytes, 1 to 256 of them, are a pattern.
fn is_pattern(bytes: &[u8]) -> bool {
    let mut escaped = false;
    let mut empty = true;
    for byte in bytes {
        let bare = !escaped && matches!(*byte, b'[' | b'{');
        if bare || *byte == b'/' && (escaped || empty) {
            return false;
        }
        empty = *byte == b'/';
        escaped = !escaped && *byte == b'\\';
    }
    !escaped && !empty
}

/// The tags of requests, and of what is excluded before one.
pub const REQUEST_TAGS: [u64; 5] = [1, 2, 3, 4, 7];

/// Those of questions: a Stat has the fields of a fetch, and a status those of a basis.
pub const QUESTION_TAGS: [u64; 8] = [1, 2, 3, 4, 7, 8, 9, 10];

/// The tags of replies.
pub const REPLY_TAGS: [u64; 5] = [0x81, 0x82, 0x83, 0x84, 0x85];

/// Returns the first fault of a body with one of these tags, if it has one.
pub fn plain_fault(bytes: &[u8], tags: &[u64]) -> Option<DecodeFault> {
    let mut left = Left { bytes };
    left.body(tags).err()
}
