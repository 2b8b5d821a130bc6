//! Changes, filters and requests drawn by lot.

ghost use Rattle.std.specs.Prelude.{◌<◌};

use crate::changes::path;
use crate::imports::Roots;
use bytes::Bytes;
use eden_globs::Filter;
use eden_history::{Change, Mode, Position};
use eden_ids::{Files, Kind, Path};
use eden_messages::{Query, Request};
use rand_core::utils::NextWord;
use rand_pcg::Pcg32;
use std::alloc::Global;
use std::test::Fail;

/// Paths in each other's places, and beside a slash in byte order.
pub const LOT_PATHS: [&str; 8] = ["a", "a.b", "a/b", "a0", "a/b/c", "b", "d/e", "d"];

/// Paths in each other's places, some of which are directories now and then.
const DIRECTORIES: [&str; 8] = ["a", "d", "a/b", "b", "e", "d/e", "d/a", "e/d"];

/// Patterns that admit some of those paths.
const PATTERNS: [&str; 8] = ["a", "a/**", "**/b", "a/*", "?", "*.b", "a*/**/c", "d/e"];

const KINDS: [Kind; 3] = [Kind::Plain, Kind::Exec, Kind::Link];

const MODES: [Mode; 3] = [Mode::Normal, Mode::Dry, Mode::Force];

/// Draws changes and requests. What is drawn follows from the seed alone.
#[derive(Drop)]
pub struct Lot {
    words: Pcg32,
}

/// The directories above files, each as often as there are files below it.
fn directories(alloc: Global, files: &Files) -> Result<Vec<Path>, Fail> {
    let mut directories = Vec::new(alloc);
    for path in files.paths() {
        let bytes = path.as_bytes();
        for (place, byte) in bytes.iter().enumerate() {
            if *byte == b'/' {
                directories.push(Path::parse(alloc, &bytes[..place])?)?;
            }
        }
    }
    Ok(directories)
}

impl Lot {
    /// The lot of a seed.
    pub fn new(seed: u64) -> Lot {
        Lot {
            words: Pcg32::new(seed, 54),
        }
    }

    /// Draws a number below this one.
    pub fn below(&mut self, bound: usize) -> usize
        requires { 0 < bound }
        ensures { result < bound }
    {
        self.words.next_word() as usize % bound
    }

    /// Draws one of `LOT_PATHS`.
    pub fn path(&mut self, alloc: Global) -> Result<Path, Fail> {
        path(alloc, LOT_PATHS[self.below(8)])
    }

    /// Draws a path that is a directory now and then.
    pub fn directory(&mut self, alloc: Global) -> Result<Path, Fail> {
        path(alloc, DIRECTORIES[self.below(8)])
    }

    /// Draws a filter of none, one or two patterns, which excludes another one now and then.
    pub fn filter(&mut self, alloc: Global) -> Result<Filter, Fail> {
        let patterns = [
            PATTERNS[self.below(8)].as_bytes(),
            PATTERNS[self.below(8)].as_bytes(),
        ];
        let filter = Filter::parse(alloc, &patterns[..self.below(3)])?;
        if self.below(3) > 0 {
            return Ok(filter);
        }
        let excluded = Filter::parse(alloc, &[PATTERNS[self.below(8)].as_bytes()])?;
        Ok(filter.except(&excluded)?)
    }

    /// Draws a basis, a poll since a place not far from the present one, a fetch, and a list of what is below a directory, by a filter.
    pub fn requests(
        &mut self,
        alloc: Global,
        query: Query,
        now: &Position,
        filter: &Filter,
    ) -> Result<Vec<Request>, Fail> {
        let since = Position {
            generation: now.generation.saturating_sub(self.below(8) as u64 / 7),
            sequence: now
                .sequence
                .saturating_add(1)
                .saturating_sub(self.below(16) as u64),
            root: now.root,
        };
        let mut requests = Vec::new(alloc);
        requests.push(Request::Basis {
            query,
            filter: filter.copy()?,
        })?;
        requests.push(Request::Poll {
            query,
            since,
            filter: filter.copy()?,
        })?;
        requests.push(Request::Fetch {
            query,
            path: self.path(alloc)?,
        })?;
        requests.push(Request::List {
            query,
            prefix: self.directory(alloc)?,
            filter: filter.copy()?,
        })?;
        Ok(requests)
    }

    /// One of these, if there is one and the lot is below a part of four; else any.
    fn one_of(&mut self, alloc: Global, paths: &[Path], part: usize) -> Result<Path, Fail> {
        if self.below(4) < part && !paths.is_empty() {
            return Ok(paths[self.below(paths.len())].copy()?);
        }
        self.directory(alloc)
    }

    /// The rename of a directory: mostly of one that there is, and now and then to one that there is.
    fn rename_dir(&mut self, alloc: Global, files: &Files) -> Result<Change, Fail> {
        let present = directories(alloc, files)?;
        Ok(Change::RenameDir {
            old: self.one_of(alloc, present.as_slice(), 3)?,
            new: self.one_of(alloc, present.as_slice(), 1)?,
        })
    }

    /// A change of files.
    fn file_change(&mut self, alloc: Global) -> Result<Change, Fail> {
        let path = self.path(alloc)?;
        Ok(match self.below(4) {
            0 => Change::Remove { path },
            1 => Change::Rename {
                old: path,
                new: self.path(alloc)?,
            },
            _ => {
                let kind = KINDS[self.below(3)];
                let text = ["x", "y"][self.below(2)];
                let bytes = Bytes::copy_from_slice(alloc, text.as_bytes())?;
                Change::Write { path, kind, bytes }
            }
        })
    }

    /// Draws a change of any kind, to a mount of this generation that holds these files. A remount is of its generation or the next one.
    pub fn change(
        &mut self,
        alloc: Global,
        roots: &mut Roots,
        generation: u64,
        files: &Files,
    ) -> Result<Change, Fail> {
        let commit = roots.one(self);
        Ok(match self.below(26) {
            0 | 1 => Change::Checkout {
                commit,
                mode: MODES[self.below(3)],
            },
            2 => Change::Reset { commit },
            3 => Change::Flush,
            4 => Change::Remount {
                generation: generation.saturating_add(self.below(2) as u64),
            },
            5..=8 => self.import(alloc, roots)?,
            9..=16 => self.rename_dir(alloc, files)?,
            _ => self.file_change(alloc)?,
        })
    }
}
