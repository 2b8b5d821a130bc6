//! Scripts that are made to take long.

use crate::script_tests::{Parts, repeated, told};
use std::alloc::Global;
use std::test::Fail;

/// What it is called, a script, what it prints, and how many lines it has.
type Case = (&'static str, Parts, Parts, u64);

/// The first has two commits of two to the fortieth files each, of directories of forty levels, each with the level below under two names.
/// Of them those alone are read that a filter admits something of, or in which something differs.
const CASES: &[Case] = &[
    (
        "wide commits",
        &[
            ("blob x x\nblob y y\ntree z 100644 a x\n", 1),
            ("tree z 40000 a z 40000 b z\n", 40),
            (
                "tree t 100644 f x 40000 z z\ncommit c t\ntree t 100644 f y 40000 z z\ncommit d t\nmount c 7 1000\nlist f\nlist z/",
                1,
            ),
            ("b/", 40),
            ("a\nlist z/", 1),
            ("b/", 30),
            ("*\ncheckout d normal\nsince 7 1\nwrite z/", 1),
            ("a/", 40),
            ("a plain k\nsince 7 2\ndirty\ncheckout c force\nread z/", 1),
            ("a/", 40),
            ("a\n", 1),
        ],
        &[
            ("ok\n", 47),
            ("at 7 1 c\nfiles 1\nf\nfiles 1\nz/", 1),
            ("b/", 40),
            (
                "a\nfiles 0\nat 7 2 d\nconflicts 0\nchanges 1 to 7 2 d\nRoot f\nat 7 3 d\nchanges 1 to 7 3 d\nChanged z/",
                1,
            ),
            ("a/", 40),
            ("a\ndirty 1\nz/", 1),
            ("a/", 40),
            ("a\nat 7 4 c\nconflicts 0\nplain x\n", 1),
        ],
        58,
    ),
    (
        "a million empty lines",
        &[("\n", 1_000_000), ("mount empty 7 1\n", 1)],
        &[("at 7 1 empty\n", 1)],
        1_000_001,
    ),
    (
        "a hundred thousand bindings of one label",
        &[
            ("tree t\ncommit c t\n", 1),
            ("blob l x\nblob l y\n", 50_000),
            ("id l\nmount c 7 1\n", 1),
            ("position\n", 1_000),
        ],
        &[
            ("ok\n", 100_002),
            ("id e25f1814e51579d5f55c0f1fe0135ddb28a47f4a\n", 1),
            ("at 7 1 c\n", 1_001),
        ],
        101_004,
    ),
];

#[test]
fn hostile_scripts(rt: HostRuntime) -> Result<(), Fail> {
    let alloc = rt.alloc();
    for (name, script, prints, lines) in CASES {
        let (printed, ended) = told(alloc, repeated(alloc, script)?.as_slice());
        assert!(rt; printed == repeated(alloc, prints)?, "{name}");
        assert_eq!(rt; ended, Ok(*lines), "{name}");
    }
    Ok(())
}

/// How many lines there are of 65,536 bytes.
const LONG: u64 = 200;

/// A mount, and those lines, each of which writes the same file.
fn long_lines(alloc: Global) -> Result<Vec<u8>, Fail> {
    let line = repeated(alloc, &[("write a plain ", 1), ("x", 65_522), ("\n", 1)])?;
    let mut script = b"mount empty 7 1000\n".to_vec(alloc)?;
    for _ in 0..LONG {
        script.extend_from_slice(line.as_slice())?;
    }
    Ok(script)
}

/// The positions from 1 on, so many.
fn positions(alloc: Global, count: u64) -> Result<Vec<u8>, Fail> {
    let mut text = Vec::new(alloc);
    for number in 1..=count {
        let line = format!(in alloc; "at 7 {number} empty\n")?;
        text.extend_from_slice(line.as_bytes())?;
    }
    Ok(text)
}

#[test]
fn lines_of_65536_bytes(rt: HostRuntime) -> Result<(), Fail> {
    let alloc = rt.alloc();
    let (printed, ended) = told(alloc, long_lines(alloc)?.as_slice());
    assert!(rt; printed == positions(alloc, 201)?);
    assert_eq!(rt; ended, Ok(201));
    Ok(())
}

/// How many files there are whose paths no pattern matches.
const FILES: u64 = 100_000;

/// A mount of so many files, and a list by 32 patterns of 256 bytes, of which each path matches the first four names and not the rest.
/// tests-refused/hostile.sh has patterns that take longer.
fn many_paths(alloc: Global) -> Result<Vec<u8>, Fail> {
    let mut script = b"mount empty 7 1000000\n".to_vec(alloc)?;
    for number in 0..FILES {
        let (directory, file) = (number / 1_000, number % 1_000);
        let line = format!(in alloc; "write dir{directory:02}/a/a/a/aa{file:03} plain x\n")?;
        script.extend_from_slice(line.as_bytes())?;
    }
    script.extend_from_slice(b"list".as_slice())?;
    let pattern = repeated(alloc, &[(" dir*/", 1), ("a*/", 83), ("bb", 1)])?;
    for _ in 0..32 {
        script.extend_from_slice(pattern.as_slice())?;
    }
    Ok(script)
}

#[test]
fn patterns_that_match_nothing(rt: HostRuntime) -> Result<(), Fail> {
    let alloc = rt.alloc();
    let (printed, ended) = told(alloc, many_paths(alloc)?.as_slice());
    let mut wanted = positions(alloc, 100_001)?;
    wanted.extend_from_slice(b"files 0\n".as_slice())?;
    assert!(rt; printed == wanted);
    assert_eq!(rt; ended, Ok(100_002));
    Ok(())
}
