//! Filters beside a plain matcher, which tries each way in which a path may match a pattern.

use crate::patterns::{long_path, pattern};
use eden_globs::Filter;
use eden_ids::Path;
use std::alloc::Global;
use std::process::Abort;
use std::test::Fail;
use test_kit::Lot;

/// Returns whether a name matches a part of a pattern.
fn is_named(part: &[u8], name: &[u8]) -> bool {
    let Some((first, rest)) = part.split_first() else {
        return name.is_empty();
    };
    if *first == b'*' {
        for skipped in 0..=name.len() {
            if is_named(rest, &name[skipped..]) {
                return true;
            }
        }
        return false;
    }
    let Some((byte, left)) = name.split_first() else {
        return false;
    };
    match (*first, rest.split_first()) {
        (b'\\', Some((wanted, rest))) => wanted == byte && is_named(rest, left),
        (b'?', _) => is_named(rest, left),
        (wanted, _) => wanted == *byte && is_named(rest, left),
    }
}

/// Returns whether the names of a path match the parts of a pattern.
fn is_matched(parts: &[&[u8]], names: &[&[u8]]) -> bool {
    let Some((part, rest)) = parts.split_first() else {
        return names.is_empty();
    };
    if *part == b"**".as_slice() {
        for skipped in 0..=names.len() {
            if is_matched(rest, &names[skipped..]) {
                return true;
            }
        }
        return false;
    }
    let Some((name, left)) = names.split_first() else {
        return false;
    };
    is_named(part, name) && is_matched(rest, left)
}

/// Returns whether some names could follow these, so that all of them match the parts.
///
/// They could if some parts are left, and each name before a part `**` matches its part.
fn is_entered(parts: &[&[u8]], names: &[&[u8]]) -> bool {
    for (place, part) in parts.iter().enumerate() {
        let Some(name) = names.get(place) else {
            return true;
        };
        if *part == b"**".as_slice() {
            return true;
        }
        if !is_named(part, name) {
            return false;
        }
    }
    false
}

fn split<'a>(alloc: Global, bytes: &'a [u8]) -> Result<Vec<&'a [u8]>, Fail> {
    let mut parts = Vec::new(alloc);
    for part in bytes.split(|b| *b == b'/') {
        parts.push(part)?;
    }
    Ok(parts)
}

fn admits(filter: &Filter, path: &Path) -> bool {
    filter.admits(path)
}

/// The parts of an included pattern, and of an excluded one.
///
/// Without an excluded pattern there is one part, which is empty and so matches no name.
#[derive(Drop)]
struct Plain<'a> {
    included: Vec<&'a [u8]>,
    excluded: Vec<&'a [u8]>,
}

impl Plain<'_> {
    fn admits(&self, names: &[&[u8]]) -> bool {
        is_matched(self.included.as_slice(), names) && !is_matched(self.excluded.as_slice(), names)
    }

    /// Returns whether a directory is entered, which the excluded pattern must not match by a last part `**`.
    fn enters(&self, names: &[&[u8]]) -> bool {
        let excluded = self.excluded.as_slice();
        let taken = excluded.last() == Some(&b"**".as_slice()) && is_matched(excluded, names);
        is_entered(self.included.as_slice(), names) && !taken
    }
}

/// Returns the filter of a pattern that excludes another one, if that is not empty.
fn filter_except(alloc: Global, pattern: &[u8], excluded: &[u8]) -> Result<Filter, Fail> {
    let filter = Filter::parse(alloc, &[pattern])?;
    if excluded.is_empty() {
        return Ok(filter);
    }
    Ok(filter.except(&Filter::parse(alloc, &[excluded])?)?)
}

/// Returns whether a filter answers of a directory what the plain matcher does.
///
/// And it enters each directory above a path that it admits.
fn same_entry(
    filter: &Filter,
    directory: &[u8],
    plain: &Plain<'_>,
    names: &[&[u8]],
    admitted: bool,
) -> bool {
    let told = filter.admits_below(directory);
    told == plain.enters(names) && (told || !admitted)
}

/// Returns whether a filter and the plain matcher agree on a path.
///
/// They are compared at each directory above it too.
fn same_as_plain(
    alloc: Global,
    filter: &Filter,
    plain: &Plain<'_>,
    path: &Path,
) -> Result<bool, Fail> {
    let bytes = path.as_bytes();
    let names = split(alloc, bytes)?;
    let admitted = plain.admits(names.as_slice());
    let mut same = admits(filter, path) == admitted;
    let mut above: usize = 0;
    for (place, byte) in bytes.iter().enumerate() {
        if *byte == b'/' {
            above = above.min(63) + 1;
            let front = names.get(..above).ok_or("a name is missing")?;
            same = same && same_entry(filter, &bytes[..place], plain, front, admitted);
        }
    }
    Ok(same)
}

/// Returns whether a filter of two patterns and the plain matcher agree so on a path.
fn same_answers(alloc: Global, pattern: &[u8], excluded: &[u8], path: &Path) -> Result<bool, Fail> {
    let plain = Plain {
        included: split(alloc, pattern)?,
        excluded: split(alloc, excluded)?,
    };
    let filter = filter_except(alloc, pattern, excluded)?;
    same_as_plain(alloc, &filter, &plain, path)
}

const EMPTY: &[u8] = b"";

/// Patterns of each kind.
const PATTERNS: &[&str] = &[
    "**/x",
    "a/**",
    "*",
    "a/*",
    "**",
    "a/**/x",
    "a**b",
    "?",
    "a?b",
    "\\*",
    "\\[a]",
    "}]",
    "a*b*c",
    "x",
    "*/*/x",
    "**/a/**/x",
    "a\\**",
];

/// Paths that some of them admit.
const PATHS: &[&str] = &[
    "x", "a", "a/x", "a/b/x", "a/b/c/x", ".h", "ab", "a/b", "*", "[a]", "}]", "aXbXbc", "aXbXbd",
    "x/y", "a*", "a*b", "a/a/x/x",
];

/// Returns whether they agree on each of the paths.
fn same_at_all(alloc: Global, pattern: &str) -> Result<bool, Fail> {
    for path in PATHS {
        let path = Path::parse(alloc, path.as_bytes())?;
        for excluded in ["", "**/x", "a/**", "**/a/**"] {
            if !same_answers(alloc, pattern.as_bytes(), excluded.as_bytes(), &path)? {
                return Ok(false);
            }
        }
    }
    Ok(true)
}

#[test]
fn known_pairs(rt: HostRuntime) -> Result<(), Fail> {
    for pattern in PATTERNS {
        assert!(rt; same_at_all(rt.alloc(), pattern)?, "{pattern}");
    }
    Ok(())
}

/// Checks two thousand pairs, and returns how many of them are admitted.
fn admitted_pairs(rt: &impl Abort, alloc: Global, lot: &mut Lot) -> Result<u32, Fail> {
    let mut admitted = 0;
    for pair in 0..2000_u32 {
        let pattern = pattern(alloc, lot)?;
        let path = long_path(alloc, lot)?;
        let same = same_answers(alloc, pattern.as_slice(), EMPTY, &path)?;
        assert!(rt; same, "pair {pair}: {pattern:?} at {path:?}");
        if filter_except(alloc, pattern.as_slice(), EMPTY)?.admits(&path) {
            admitted = pair.min(admitted) + 1;
        }
    }
    Ok(admitted)
}

/// Checks two thousand patterns with an exclusion, and returns how many paths it leaves out.
fn excluded_paths(rt: &impl Abort, alloc: Global, lot: &mut Lot) -> Result<u32, Fail> {
    let mut left_out = 0;
    for turn in 0..2000_u32 {
        let included = pattern(alloc, lot)?;
        let excluded = pattern(alloc, lot)?;
        let path = long_path(alloc, lot)?;
        let same = same_answers(alloc, included.as_slice(), excluded.as_slice(), &path)?;
        assert!(rt;
            same,
            "turn {turn}: {included:?} except {excluded:?} at {path:?}"
        );
        let whole = filter_except(alloc, included.as_slice(), EMPTY)?;
        let filter = filter_except(alloc, included.as_slice(), excluded.as_slice())?;
        if whole.admits(&path) && !filter.admits(&path) {
            left_out = turn.min(left_out) + 1;
        }
    }
    Ok(left_out)
}

#[test]
fn generated_pairs(rt: HostRuntime) -> Result<(), Fail> {
    let admitted = admitted_pairs(&rt, rt.alloc(), &mut Lot::new(1))?;
    assert!(rt; admitted > 100, "{admitted} pairs are admitted");
    Ok(())
}

#[test]
fn generated_exclusions(rt: HostRuntime) -> Result<(), Fail> {
    let left_out = excluded_paths(&rt, rt.alloc(), &mut Lot::new(2))?;
    assert!(rt; left_out > 20, "{left_out} paths are left out");
    Ok(())
}
