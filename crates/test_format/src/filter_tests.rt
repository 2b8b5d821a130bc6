//! Filters: which paths they admit and exclude, which directories they enter, and which patterns are
//! refused.

use eden_globs::{Filter, FilterFault, Front};
use eden_ids::Path;
use std::alloc::Global;
use std::test::Fail;
use test_kit::path;

fn is_admitted(alloc: Global, pattern: &[u8], path: &[u8]) -> Result<bool, Fail> {
    let filter = Filter::parse(alloc, &[pattern])?;
    Ok(filter.admits(&Path::parse(alloc, path)?))
}

#[test]
fn no_pattern_admits_every_path(rt: HostRuntime) -> Result<(), Fail> {
    let alloc = rt.alloc();
    let filter = Filter::all(alloc);
    assert_eq!(rt; filter.patterns().len(), 0);
    let copy = filter.copy()?;
    assert_eq!(rt; copy.patterns().len(), 0);
    for text in ["x", "a/x", "a/b/x", ".h"] {
        let path = path(alloc, text)?;
        assert!(rt; filter.admits(&path), "at {text}");
        assert!(rt; copy.admits(&path), "at {text}");
    }
    Ok(())
}

/// A pattern, a path, and whether the one admits the other.
const PATTERNS: &[(&str, &str, bool)] = &[
    ("**/x", "x", true),
    ("**/x", "a/x", true),
    ("**/x", "a/b/x", true),
    ("**/x", ".h", false),
    ("a/**", "x", false),
    ("a/**", "a/x", true),
    ("a/**", "a/b/x", true),
    ("a/**", ".h", false),
    ("a/**", "a", true),
    ("*", "x", true),
    ("*", "a/x", false),
    ("*", "a/b/x", false),
    ("*", ".h", true),
    ("a/*", "x", false),
    ("a/*", "a/x", true),
    ("a/*", "a/b/x", false),
    ("a/*", ".h", false),
    ("**", "a/b/x", true),
    ("a/**/x", "a/x", true),
    ("a/**/x", "a/b/c/x", true),
    ("a/**/x", "a/b/c", false),
    ("a**b", "ab", true),
    ("a**b", "a/b", false),
    ("?", "x", true),
    ("?", "xy", false),
    ("a?b", "a/b", false),
    ("\\*", "*", true),
    ("\\*", "x", false),
    ("\\[a]", "[a]", true),
    ("}]", "}]", true),
    ("a*b*c", "aXbXbc", true),
    ("a*b*c", "aXbXbd", false),
    ("x", "x/y", false),
    ("**/a", "ba", false),
    ("**/a", "b/ba", false),
    ("**/a", "ab/a", true),
    ("a/**", "ab", false),
    ("a/**", "ab/a", false),
    ("a*/**", "ab/a", true),
    ("a*/b", "a/b", true),
    ("**/*a", "a", true),
    ("**/*.a", "b.a/c", false),
    ("**/*.a", ".a", true),
    ("**/b/x", "a/x", false),
    ("**/b/x", "b/x", true),
    ("b/**/x", "a/x", false),
    ("**", "x", true),
    ("**/**", "x", true),
    ("a/**/**", "a", true),
    ("**/*/**", "a", true),
    ("**/a/b/**", "a/a/b", true),
    ("**/a/b/**", "a/b/x", true),
    ("**/a/b/**", "a/a/x", false),
    ("**/a/**/b", "a/b", true),
    ("**/a/**/b", "b/a", false),
    ("**/a/**/b", "b/a/a/b/b", true),
    ("**/a/**/a", "a", false),
    ("a/**/a", "a", false),
    ("**/a/b", "a/b/a", false),
    ("**/a/*/b", "a/a/b", true),
    ("**/a/*/b", "a/a/b/b", true),
    ("**/a/*/b", "a/b/b/b", false),
    ("a*a", "a", false),
    ("*ab", "aab", true),
    ("*a?b*", "aacb", true),
    ("*a?b*", "ab", false),
    ("**a*", "ba", true),
];

#[test]
fn pattern_table(rt: HostRuntime) -> Result<(), Fail> {
    for (pattern, path, wanted) in PATTERNS {
        let admitted = is_admitted(rt.alloc(), pattern.as_bytes(), path.as_bytes())?;
        assert!(rt; admitted == *wanted, "{pattern} at {path}");
    }
    Ok(())
}

/// Returns a filter that includes and excludes these patterns.
fn filter_except(alloc: Global, included: &[&[u8]], excluded: &[&[u8]]) -> Result<Filter, Fail> {
    let filter = Filter::parse(alloc, included)?;
    Ok(filter.except(&Filter::parse(alloc, excluded)?)?)
}

/// Included patterns, excluded ones, a path, and whether it is admitted.
const EXCLUSIONS: &[(&[&[u8]], &[&[u8]], &str, bool)] = &[
    (&[], &[], "x", true),
    (&[], &[b"x"], "x", false),
    (&[], &[b"x"], "x/y", true),
    (&[], &[b".git/**"], ".git", false),
    (&[], &[b".git/**"], ".git/config", false),
    (&[], &[b".git/**"], ".git/a/b", false),
    (&[], &[b".git/**"], ".gitignore", true),
    (&[], &[b".git/**"], "a/.git/config", true),
    (&[], &[b"**/out/**"], "out/x.o", false),
    (&[], &[b"**/out/**"], "a/b/out/c/x.o", false),
    (&[], &[b"**/out/**"], "a/out", false),
    (&[], &[b"**/out/**"], "a/out.md", true),
    (&[], &[b"**/out/**"], "a/layout/x", true),
    (&[b"src/**"], &[b"**/*.o"], "src/a/x.c", true),
    (&[b"src/**"], &[b"**/*.o"], "src/a/x.o", false),
    (&[b"src/**"], &[b"**/*.o"], "x.c", false),
    (&[b"src/**"], &[b"**/*.o"], "x.o", false),
    (&[b"src/**"], &[b"src/**"], "src/x", false),
    (&[b"src/**", b"*.md"], &[b"src/*", b"a.md"], "src/x", false),
    (&[b"src/**", b"*.md"], &[b"src/*", b"a.md"], "src/a/x", true),
    (&[b"src/**", b"*.md"], &[b"src/*", b"a.md"], "a.md", false),
    (&[b"src/**", b"*.md"], &[b"src/*", b"a.md"], "b.md", true),
    (&[b"src/**", b"*.md"], &[b"src/*", b"a.md"], "b.txt", false),
    (&[b"*"], &[b"?"], "x", false),
    (&[b"*"], &[b"?"], "xy", true),
    (&[b"*"], &[b"\\*"], "*", false),
    (&[b"*"], &[b"\\*"], "x", true),
    (&[b"**/x"], &[b"a/**/x"], "a/x", false),
    (&[b"**/x"], &[b"a/**/x"], "a/b/c/x", false),
    (&[b"**/x"], &[b"a/**/x"], "b/a/x", true),
];

#[test]
fn exclusion_table(rt: HostRuntime) -> Result<(), Fail> {
    let alloc = rt.alloc();
    for (row, (included, excluded, text, wanted)) in EXCLUSIONS.iter().enumerate() {
        let filter = filter_except(alloc, included, excluded)?;
        let path = path(alloc, text)?;
        assert!(rt; filter.admits(&path) == *wanted, "row {row}");
        assert!(rt; filter.copy()?.admits(&path) == *wanted, "row {row}");
    }
    Ok(())
}

/// Checks that these are the patterns of a filter.
fn has_patterns(filter: &Filter, included: &[&[u8]], excluded: &[&[u8]]) -> bool {
    are_same(filter.patterns(), included) && are_same(filter.excluded(), excluded)
}

fn are_same(patterns: &[Vec<u8>], wanted: &[&[u8]]) -> bool {
    for (place, pattern) in patterns.iter().enumerate() {
        if wanted.get(place) != Some(&pattern.as_slice()) {
            return false;
        }
    }
    patterns.len() == wanted.len()
}

// What each filter excluded before is not kept.
#[test]
fn except_replaces_what_is_excluded(rt: HostRuntime) -> Result<(), Fail> {
    let alloc = rt.alloc();
    let first = filter_except(alloc, &[b"a".as_slice()], &[b"b".as_slice()])?;
    assert!(rt; has_patterns(&first, &[b"a"], &[b"b"]));
    let second = filter_except(alloc, &[b"c".as_slice()], &[b"d".as_slice()])?;
    let both = first.except(&second)?;
    assert!(rt; has_patterns(&both, &[b"a"], &[b"c"]));
    let none = first.except(&Filter::all(alloc))?;
    assert!(rt; has_patterns(&none, &[b"a"], &[]));
    let plain = Filter::parse(alloc, &[b"a".as_slice()])?;
    assert!(rt; none == plain && both == both.copy()?);
    assert!(rt; first != plain && first != both);
    Ok(())
}

/// Patterns, a directory, and whether it is entered. One that is longer than a path is always entered.
const DIRECTORIES: &[(&[&[u8]], &[u8], bool)] = &[
    (&[b"a/b"], b"", true),
    (&[b"a/b"], b"a", true),
    (&[b"a/b"], b"a/b", false),
    (&[b"a/b"], b"b", false),
    (&[b"a/b"], b"a/b/c", false),
    (&[b"a/**"], b"a", true),
    (&[b"a/**"], b"a/b/c", true),
    (&[b"a/**"], b"b", false),
    (&[b"a/**"], b"ab", false),
    (&[b"**"], b"a/b", true),
    (&[b"**/x"], b"a/b", true),
    (&[b"**/x"], b"x", true),
    (&[b"a/**/x"], b"a/x", true),
    (&[b"a/**/x"], b"b/a", false),
    (&[b"*"], b"", true),
    (&[b"*"], b"a", false),
    (&[b"*/x"], b"a", true),
    (&[b"*/x"], b".h", true),
    (&[b"*/x"], b"a/b", false),
    (&[b"a**b/x"], b"a-b", true),
    (&[b"a**b/x"], b"a", false),
    (&[b"?/x"], b"a", true),
    (&[b"?/x"], b"aa", false),
    (&[b"\\*/x"], b"*", true),
    (&[b"\\*/x"], b"a", false),
    (&[b"a/x", b"b/*/x"], b"b/c", true),
    (&[b"a/x", b"b/*/x"], b"a/c", false),
    (&[], b"a/c", true),
    (&[b"a*/x"], &[b'a'; 1024], true),
    (&[b"b*/x"], &[b'a'; 1024], false),
    (&[b"b*/x"], &[b'a'; 1025], true),
];

#[test]
fn directories(rt: HostRuntime) -> Result<(), Fail> {
    for (row, (patterns, directory, wanted)) in DIRECTORIES.iter().enumerate() {
        let entered = Filter::parse(rt.alloc(), patterns)?.admits_below(directory);
        assert!(rt; entered == *wanted, "row {row}");
    }
    Ok(())
}

/// Included patterns, excluded ones, a directory, and whether it is entered.
///
/// It is not if an excluded pattern ends in `**` and matches it.
const EXCLUDED_DIRECTORIES: &[(&[&[u8]], &[&[u8]], &[u8], bool)] = &[
    (&[], &[b".git/**"], b"", true),
    (&[], &[b".git/**"], b".git", false),
    (&[], &[b".git/**"], b".git/objects", false),
    (&[], &[b".git/**"], b"a/.git", true),
    (&[], &[b"**/out/**"], b"out", false),
    (&[], &[b"**/out/**"], b"a/out", false),
    (&[], &[b"**/out/**"], b"a/out/b", false),
    (&[], &[b"**/out/**"], b"a", true),
    (&[], &[b"src/*"], b"src", true),
    (&[], &[b"src/*"], b"src/a", true),
    (&[], &[b"src"], b"src", true),
    (&[], &[b"**/*"], b"src", true),
    (&[], &[b"**"], b"", false),
    (&[], &[b"**"], b"a/b", false),
    (&[], &[b"**/**"], b"", false),
    (&[], &[b"*/**"], b"", true),
    (&[], &[b"*/**"], b"a", false),
    (&[b"src/**"], &[b"src/out/**"], b"src", true),
    (&[b"src/**"], &[b"src/out/**"], b"src/a", true),
    (&[b"src/**"], &[b"src/out/**"], b"src/out", false),
    (&[b"src/**"], &[b"src/out/**"], b"src/out/a", false),
    (&[b"src/**"], &[b"src/out/**"], b"docs", false),
    (&[b"src/*"], &[b"docs/**"], b"src/a", false),
    (&[], &[b"a/**/b/**"], b"a/b", false),
    (&[], &[b"a/**/b/**"], b"a/c/b/d", false),
    (&[], &[b"a/**/b/**"], b"a/c", true),
    (&[], &[b"*.o", b"b/**"], b"b", false),
    (&[], &[b"*.o", b"b/**"], b"a.o", true),
    (&[], &[b"a*/**"], &[b'a'; 1024], false),
    (&[], &[b"b*/**"], &[b'a'; 1024], true),
    (&[], &[b"a*/**"], &[b'a'; 1025], true),
];

#[test]
fn directories_with_exclusions(rt: HostRuntime) -> Result<(), Fail> {
    for (row, (included, excluded, directory, wanted)) in EXCLUDED_DIRECTORIES.iter().enumerate() {
        let entered = filter_except(rt.alloc(), included, excluded)?.admits_below(directory);
        assert!(rt; entered == *wanted, "row {row}");
    }
    Ok(())
}

/// How many names `a` a directory has before its last name, and whether each of two filters enters it.
///
/// The one excludes `**/b/**`, the other `a/**`. No path has more than 64 names.
const DEEP: &[(usize, &[u8], bool, bool)] = &[
    (15, b"a", true, false),
    (15, b"b", false, false),
    (16, b"a", true, false),
    (16, b"b", false, false),
    (63, b"b", false, false),
    (64, b"a", true, false),
    (64, b"b", false, false),
    (511, b"b/", false, false),
    (511, b"c/", true, false),
];

#[test]
fn deep_directories(rt: HostRuntime) -> Result<(), Fail> {
    let alloc = rt.alloc();
    let anywhere = filter_except(alloc, &[], &[b"**/b/**".as_slice()])?;
    let at_root = filter_except(alloc, &[], &[b"a/**".as_slice()])?;
    for (row, (names, last, first, second)) in DEEP.iter().enumerate() {
        let directory = repeated(alloc, b"a/", *names, last)?;
        assert!(rt;
            anywhere.admits_below(directory.as_slice()) == *first,
            "row {row}"
        );
        assert!(rt;
            at_root.admits_below(directory.as_slice()) == *second,
            "row {row}"
        );
    }
    Ok(())
}

/// Two patterns: one admits what is below `src`, and one names at the root alone.
fn filter_of_two(alloc: Global) -> Result<Filter, Fail> {
    Ok(Filter::parse(alloc, &[b"src/**".as_slice(), b"*.md".as_slice()])?)
}

/// Names of directories, each below the one before if that was entered, and how long the front was before, if it is entered.
const ENTERED: &[(&str, Option<usize>)] = &[
    ("docs", None),
    ("src", Some(0)),
    ("a", Some(4)),
    ("b", Some(6)),
];

#[test]
fn fronts_of_directories(rt: HostRuntime) -> Result<(), Fail> {
    let alloc = rt.alloc();
    let filter = filter_of_two(alloc)?;
    let mut front = Front::new(alloc);
    for (name, length) in ENTERED {
        let entered = front.enter(&filter, name.as_bytes())?;
        assert!(rt; entered == *length, "{name}");
    }
    // Back in `src`, from where `c` is entered as `a` was.
    front.leave(4);
    assert!(rt; front.enter(&filter, b"c".as_slice())? == Some(4));
    Ok(())
}

/// The same two, without two kinds of directories and one kind of files.
fn filter_of_two_except(alloc: Global) -> Result<Filter, Fail> {
    let excluded: &[&[u8]] = &[b".git/**", b"**/out/**", b"old*"];
    Ok(filter_of_two(alloc)?.except(&Filter::parse(alloc, excluded)?)?)
}

/// Directories as in `ENTERED`, of a walk that leaves some out.
const ENTERED_EXCEPT: &[(&str, Option<usize>)] = &[
    (".git", None),
    ("docs", None),
    ("src", Some(0)),
    ("out", None),
    ("a", Some(4)),
    ("out", None),
    ("b", Some(6)),
];

#[test]
fn fronts_with_exclusions(rt: HostRuntime) -> Result<(), Fail> {
    let alloc = rt.alloc();
    let filter = filter_of_two_except(alloc)?;
    let mut front = Front::new(alloc);
    for (name, length) in ENTERED_EXCEPT {
        let entered = front.enter(&filter, name.as_bytes())?;
        assert!(rt; entered == *length, "{name}");
    }
    Ok(())
}

/// Whether a walk of the root wants a file, and its path is the file's name.
fn is_wanted(alloc: Global, filter: &Filter, name: &str) -> Result<bool, Fail> {
    let path = path(alloc, name)?;
    let mut front = Front::new(alloc);
    let wanted = front.path_if_wanted(filter, path.as_bytes())?;
    Ok(wanted == Some(path))
}

#[test]
fn fronts_of_files(rt: HostRuntime) -> Result<(), Fail> {
    let alloc = rt.alloc();
    let filter = filter_of_two(alloc)?;
    assert!(rt; is_wanted(alloc, &filter, "README.md")?);
    assert!(rt; is_wanted(alloc, &filter, "old.md")?);
    assert!(rt; !is_wanted(alloc, &filter, "README")?);
    let filter = filter_of_two_except(alloc)?;
    assert!(rt; is_wanted(alloc, &filter, "README.md")?);
    assert!(rt; !is_wanted(alloc, &filter, "old.md")?);
    Ok(())
}

/// Some bytes so many times over, and last others.
pub(crate) fn repeated(
    alloc: Global,
    part: &[u8],
    times: usize,
    last: &[u8],
) -> Result<Vec<u8>, Fail> {
    let mut bytes = Vec::new(alloc);
    for _ in 0..times {
        bytes.extend_from_slice(part)?;
    }
    bytes.extend_from_slice(last)?;
    Ok(bytes)
}

// Each star may match in very many ways.
#[test]
fn hostile_patterns(rt: HostRuntime) -> Result<(), Fail> {
    let alloc = rt.alloc();
    let stars = repeated(alloc, b"*a", 127, b"b")?;
    let name = repeated(alloc, b"a", 254, b"a")?;
    assert!(rt; !is_admitted(alloc, stars.as_slice(), name.as_slice())?);
    let deep = repeated(alloc, b"**/a/", 50, b"b")?;
    let names = repeated(alloc, b"a/", 63, b"a")?;
    assert!(rt; !is_admitted(alloc, deep.as_slice(), names.as_slice())?);
    let excluded = filter_except(alloc, &[], &[stars.as_slice(), deep.as_slice()])?;
    assert!(rt; excluded.admits(&Path::parse(alloc, name.as_slice())?));
    assert!(rt; excluded.admits(&Path::parse(alloc, names.as_slice())?));
    let whole = repeated(alloc, b"**/a/", 50, b"b/**")?;
    let excluded = filter_except(alloc, &[], &[whole.as_slice()])?;
    assert!(rt; excluded.admits_below(names.as_slice()));
    Ok(())
}

const EMPTY: &[u8] = b"";

const X: &[u8] = b"x";

/// Patterns, and why they are refused, if they are.
const REFUSALS: &[(&[&[u8]], Option<FilterFault>)] = &[
    (&[X, b""], Some(FilterFault::BadPattern(1))),
    (&[X, b"/"], Some(FilterFault::BadPattern(1))),
    (&[X, b"a//b"], Some(FilterFault::BadPattern(1))),
    (&[X, b"/a"], Some(FilterFault::BadPattern(1))),
    (&[X, b"a/"], Some(FilterFault::BadPattern(1))),
    (&[X, b"[a]"], Some(FilterFault::BadPattern(1))),
    (&[X, b"a{"], Some(FilterFault::BadPattern(1))),
    (&[X, br"a\"], Some(FilterFault::BadPattern(1))),
    (&[X, br"a\/b"], Some(FilterFault::BadPattern(1))),
    (&[EMPTY], Some(FilterFault::BadPattern(0))),
    (&[EMPTY; 33], Some(FilterFault::TooMany)),
    (&[X; 32], None),
    (&[&[b'a'; 257]], Some(FilterFault::PatternTooLong)),
    (&[&[b'a'; 256]], None),
];

#[test]
fn refusals(rt: HostRuntime) {
    for (row, (patterns, fault)) in REFUSALS.iter().enumerate() {
        let filter = Filter::parse(rt.alloc(), patterns);
        assert!(rt; filter.err() == *fault, "row {row}");
    }
}
