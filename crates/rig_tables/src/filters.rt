//! How long a filter takes to judge a path, by the lengths of its pattern and of the path.
//!
//! The patterns of four families could match in very many ways, but for a byte that no path has.
//! Ordinary patterns judge a deep path.

use crate::clock::{now, since};
use anyhow::Result;
use eden_globs::Filter;
use eden_ids::Path;
use rig_kit::{each, nanoseconds};
use std::alloc::{AllocError, Global};
use std::time::Duration;

/// How often each pair is measured.
///
/// The least time counts, since other work on the machine makes it longer and never shorter.
const TRIES: usize = 5;

/// How often a path is judged in each measurement.
const CALLS: u64 = 100;

/// Patterns of many lengths: a part again and again, between a head and a tail.
#[derive(Clone, Copy)]
struct Family<'a> {
    /// What the family is called.
    title: &'a str,
    head: &'a [u8],
    part: &'a [u8],
    tail: &'a [u8],
    /// How many bytes each name has of the paths that the patterns judge.
    name: usize,
}

/// A star before each letter, over long names.
///
/// Each name is tried, since anything may come after it.
const STARS: Family<'static> = Family {
    title: "stars",
    head: b"**/",
    part: b"*a",
    tail: b"*b/**",
    name: 249,
};

/// Letters after a star, over long names.
///
/// At each place of a name almost all of them match.
const LETTERS: Family<'static> = Family {
    title: "letters",
    head: b"**/*",
    part: b"a",
    tail: b"b*/**",
    name: 249,
};

/// Any number of names before each name, over as many names as a path may have.
const NAMES: Family<'static> = Family {
    title: "names",
    head: b"",
    part: b"**/a*/",
    tail: b"**/b",
    name: 15,
};

/// Names in a row, over as many names as a path may have.
///
/// At each name of a path almost all of them match.
const ROWS: Family<'static> = Family {
    title: "rows",
    head: b"**/",
    part: b"a*/",
    tail: b"b/**",
    name: 15,
};

/// Patterns as people write them. The first three admit a path of the letter `a`.
const ORDINARY: [&str; 7] = [
    "a*/**",
    "**/*a",
    "a*/a*/**/a*",
    "**/*.rs",
    "src/**",
    "**/b/**",
    "*.md",
];

impl Family<'_> {
    /// Returns the longest pattern of at most so many bytes.
    fn pattern(&self, alloc: Global, most: usize) -> Result<Vec<u8>, AllocError> {
        let mut bytes = self.head.to_vec(alloc)?;
        let ends = self.head.len().saturating_add(self.tail.len());
        let left = most.saturating_sub(ends);
        for _ in 0..left.checked_div(self.part.len()).unwrap_or(0) {
            bytes.extend_from_slice(self.part)?;
        }
        bytes.extend_from_slice(self.tail)?;
        Ok(bytes)
    }

    /// Returns a path of so many bytes, whose names have the letter `a` alone.
    fn path(&self, alloc: Global, length: usize) -> Result<Path> {
        let mut bytes = Vec::new(alloc);
        let mut left = self.name;
        for place in 1..=length {
            let ends = left == 0 && place < length;
            bytes.push(if ends { b'/' } else { b'a' })?;
            left = if ends {
                self.name
            } else {
                left.saturating_sub(1)
            };
        }
        Ok(Path::parse(alloc, bytes.as_slice())?)
    }
}

/// Returns how often the filter admits the path, and what time all calls take.
fn judged(rt: &HostRuntime, filter: &Filter, path: &Path) -> Result<(u64, Duration)> {
    let start = now(rt)?;
    let mut count = 0u64;
    for _ in 0..CALLS {
        count = count.saturating_add(u64::from(filter.admits(path)));
    }
    Ok((count, since(rt, start)?))
}

/// Measures a pair of pattern and path.
fn measure(rt: &HostRuntime, title: &str, pattern: &[u8], path: &Path) -> Result<()> {
    let filter = Filter::parse(rt.alloc(), &[pattern])?;
    let lengths = (pattern.len(), path.as_bytes().len());
    let mut least = Duration::MAX;
    for number in 0..TRIES {
        let (count, time) = judged(rt, &filter, path)?;
        if number == 0 {
            println!(rt;
                "{title}, {} bytes by {}: {count} admitted",
                lengths.1, lengths.0
            )?;
        }
        least = least.min(time);
    }
    let product = (lengths.0 as u64).saturating_mul(lengths.1 as u64);
    let ten = nanoseconds(least)
        .checked_div(product.saturating_mul(10))
        .unwrap_or(0);
    eprintln!(rt;
        "{title}, {} bytes by {}: {} ns, {}.{} ns a byte of both",
        lengths.1,
        lengths.0,
        each(least, CALLS),
        ten / 10,
        ten % 10
    )?;
    Ok(())
}

/// Measures the families on paths of three lengths, and the ordinary patterns on a deep one.
pub fn measure_filters(rt: &HostRuntime) -> Result<()> {
    for family in [STARS, LETTERS, NAMES, ROWS] {
        for most in [64, 128, 256] {
            let pattern = family.pattern(rt.alloc(), most)?;
            for length in [256, 512, 1024] {
                let path = family.path(rt.alloc(), length)?;
                measure(rt, family.title, pattern.as_slice(), &path)?;
            }
        }
    }
    let deep = NAMES.path(rt.alloc(), 1024)?;
    for pattern in ORDINARY {
        measure(rt, pattern, pattern.as_bytes(), &deep)?;
    }
    Ok(())
}
