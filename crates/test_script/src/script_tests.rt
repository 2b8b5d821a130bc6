//! Scripts of strange bytes, of lines that no row reads, and at the limits. The ids are those that `git hash-object` gives to the same bytes.

use eden_edend::{Objects, RunFault, run, run_over};
use eden_script::{Label, words};
use eden_stream::Counted;
use std::alloc::Global;
use std::test::Fail;
use test_kit::{commit_of, tree_of};

/// What a script prints and how it ends.
pub(crate) fn told(alloc: Global, script: &[u8]) -> (Vec<u8>, Result<u64, RunFault>) {
    let mut text = Vec::new(alloc);
    let ended = run(
        alloc,
        &mut Counted::new(script),
        &mut Counted::new(&mut text),
    );
    (text, ended)
}

#[test]
fn ends_of_lines_and_other_bytes(rt: HostRuntime) {
    let alloc = rt.alloc();
    for (name, script, text) in [
        ("an empty script", b"".as_slice(), ""),
        (
            "comments and empty lines",
            b"\n# mount\n\r\n#\nmount empty 7 1\n".as_slice(),
            "at 7 1 empty\n",
        ),
        (
            "other ends of lines",
            b"mount empty 7 1\r\nsince 7 1\r\nsince 7 2".as_slice(),
            "at 7 1 empty\nchanges 0 to 7 1 empty\nrefused Ahead 1\n",
        ),
        (
            "a carriage return that ends no line",
            b"mount empty 7 1\nwrite a plain x\r\nwrite b plain y\rz\nremove b\nwrite c plain \r".as_slice(),
            "at 7 1 empty\nat 7 2 empty\nat 7 3 empty\nat 7 4 empty\nat 7 5 empty\n",
        ),
        (
            "a name that holds an entry",
            b"blob x x\ntree t 100644 a\0\xc1\xb0\x73\x0e\x01\x33\x44\x7b\xad\xcf\xd4\x7f\xd1\x44\xe2\x54\x80\x7b\x06\xe1b x".as_slice(),
            "ok\nrefused CutShort\n",
        ),
    ] {
        let (printed, ended) = told(alloc, script);
        assert!(rt; printed.as_slice() == text.as_bytes(), "{name}");
        assert!(rt; ended.is_ok(), "{name}");
    }
}

/// A label.
fn label(alloc: Global, name: &str) -> Result<Label, Fail> {
    let words = words(alloc, name.as_bytes())?.ok_or("no words")?;
    let word = words.into_iter().next().ok_or("no word")?;
    Ok(Label::read_to_bind(word).ok_or("no label")?)
}

/// Objects that no line of the script puts: a commit, bound to `c` and to its own label, of one file.
fn one_commit(alloc: Global) -> Result<Objects, Fail> {
    let mut objects = Objects::new(alloc);
    let blob = objects.store.put_blob(b"hi".as_slice())?;
    let tree = tree_of(alloc, [("100644", "a", blob)].as_slice())?;
    let tree = objects.store.put_tree(tree.as_slice())?;
    let commit = objects
        .store
        .put_commit(commit_of(alloc, tree, "")?.as_slice())?;
    objects.labels.bind(label(alloc, "c")?, commit)?;
    objects.name_commits(&[blob, commit])?;
    Ok(objects)
}

#[test]
fn a_script_over_objects(rt: HostRuntime) -> Result<(), Fail> {
    let alloc = rt.alloc();
    let script =
        b"id c\nid d\nid ae53c5cf5cae1824317566fa17bd1a2b\nid 32f95c0d1244a78b2be1bab8de17906f\nmount c 7 1000\nread a\n".as_slice();
    let text =
        "id ae53c5cf5cae1824317566fa17bd1a2b37a872aa\nrefused NoLabel\nid ae53c5cf5cae1824317566fa17bd1a2b37a872aa\nrefused NoLabel\nat 7 1 c\nplain hi\n";
    let mut printed = Vec::new(alloc);
    let ended = run_over(
        alloc,
        one_commit(alloc)?,
        &mut Counted::new(script),
        &mut Counted::new(&mut printed),
    );
    assert_eq!(rt; ended, Ok(6));
    assert!(rt; printed.as_slice() == text.as_bytes());
    Ok(())
}

/// Lines that no row of the language reads.
const BAD_LINES: &[&str] = &[
    "lists",
    "flush 1",
    "rename a",
    "checkout empty",
    "checkout empty soft",
    "mount",
    "mount empty 7",
    "mount empty 7 1 1",
    "mount empty 07 1",
    "mount empty +7 1",
    "mount empty 7 18446744073709551616",
    "mount EMPTY 7 1",
    "mount abcdefghijklmnopqrstuvwxyz0123456 7 1",
    "mount  empty 7 1",
    "mount empty 7 1 ",
    " mount empty 7 1",
    "write a plain",
    "write a plane x",
    "write a Plain x",
    "write a plain x y",
    "write a\\ plain x",
    "write a\\b plain x",
    "write  plain x",
    "remove",
    "remove a b",
    "since 7",
    "since 7 -1",
    "since 7 1 1",
    "since 7 \\e",
    "\\e#",
    "Mount empty 7 1",
    "mount empty 7\t1",
    "blob",
    "blob b",
    "blob b x y",
    "blob empty x",
    "blob B x",
    "blob b_ x",
    "blob b- x",
    "blob \\e x",
    "blob b\\s x",
    "blob abcdefghijklmnopqrstuvwxyz0123456 x",
    "blob b x\\",
    "blob b ",
    "tree",
    "tree empty",
    "tree T",
    "tree t 100644",
    "tree t 100644 a",
    "tree t 100644 a b 100644",
    "tree t 100644 a b 100644 c",
    "tree t 100644 a B",
    "tree t 100644 a b 160000 c _",
    "tree t 100644 a\\x b",
    "tree empty 100644 a b",
    "tree t  100644 a b",
    "commit",
    "commit c",
    "commit c t t",
    "commit empty t",
    "commit c T",
    "commit c_ t",
    "id",
    "id I",
    "id a b",
    "id \\e",
    "mount a_ 7 1",
];

#[test]
fn bad_lines(rt: HostRuntime) -> Result<(), Fail> {
    let alloc = rt.alloc();
    for &line in BAD_LINES {
        for (before, number, text) in [
            ("", 1, ""),
            ("blob b x\n", 2, "ok\n"),
            ("mount empty 7 1\n", 2, "at 7 1 empty\n"),
            (
                "#\nmount empty 7 1\nsince 8 1\n",
                4,
                "at 7 1 empty\nrefused Stale 7\n",
            ),
        ] {
            let script = format!(in alloc; "{before}{line}\nmount empty 9 1\n")?;
            let (printed, ended) = told(alloc, script.as_bytes());
            assert!(rt; ended == Err(RunFault::BadLine(number)), "{line}");
            assert!(rt; printed.as_slice() == text.as_bytes(), "{line}");
        }
    }
    Ok(())
}

/// Parts that stand one behind the other, each so many times.
pub(crate) type Parts = &'static [(&'static str, usize)];

/// What these parts come to.
pub(crate) fn repeated(alloc: Global, parts: &[(&str, usize)]) -> Result<Vec<u8>, Fail> {
    let mut text = Vec::new(alloc);
    for (part, times) in parts {
        for _ in 0..*times {
            text.extend_from_slice(part.as_bytes())?;
        }
    }
    Ok(text)
}

/// A name that is as long as one may be.
const WIDE: (&str, usize) = ("a", 255);

/// Paths, patterns and lines that are as long, as deep or as many as they may be, and those that are more; what is printed behind the
/// mount, and how the script ends.
const LIMITS: &[(Parts, &str, Result<u64, RunFault>)] = &[
    (
        &[
            ("remove ", 1),
            WIDE,
            ("/", 1),
            WIDE,
            ("/", 1),
            WIDE,
            ("/", 1),
            WIDE,
            ("/a", 1),
        ],
        "refused TooLong\n",
        Ok(2),
    ),
    (
        &[("remove ", 1), ("a", 256)],
        "refused BadComponent\n",
        Ok(2),
    ),
    (&[("remove a", 1), ("/a", 64)], "refused TooDeep\n", Ok(2)),
    (&[("remove a", 1), ("/a", 63)], "refused NoEntry\n", Ok(2)),
    (&[("remove ", 1), WIDE], "refused NoEntry\n", Ok(2)),
    (&[("list", 1), (" a", 32)], "files 0\n", Ok(2)),
    (&[("list", 1), (" a", 33)], "refused TooMany\n", Ok(2)),
    (&[("list ", 1), ("a", 256)], "files 0\n", Ok(2)),
    (
        &[("list ", 1), ("a", 257)],
        "refused PatternTooLong\n",
        Ok(2),
    ),
    (
        &[("list ", 1), ("a", 257), (" a", 32)],
        "refused TooMany\n",
        Ok(2),
    ),
    (
        &[("write a plain ", 1), ("x", 65_522), ("\n", 1)],
        "at 7 2 empty\n",
        Ok(2),
    ),
    (
        &[("write a plain ", 1), ("x", 65_522), ("\r\n", 1)],
        "at 7 2 empty\n",
        Ok(2),
    ),
    (
        &[("write a plain ", 1), ("x", 65_522)],
        "at 7 2 empty\n",
        Ok(2),
    ),
    (
        &[("write a plain ", 1), ("x", 65_523), ("\n", 1)],
        "",
        Err(RunFault::BadLine(2)),
    ),
    (
        &[("write a plain ", 1), ("x", 65_523)],
        "",
        Err(RunFault::BadLine(2)),
    ),
];

#[test]
fn limits(rt: HostRuntime) -> Result<(), Fail> {
    let alloc = rt.alloc();
    for (number, (parts, text, end)) in LIMITS.iter().enumerate() {
        let mut script = b"mount empty 7 1\n".to_vec(alloc)?;
        script.extend_from_slice(repeated(alloc, parts)?.as_slice())?;
        let (printed, ended) = told(alloc, script.as_slice());
        let wanted = format!(in alloc; "at 7 1 empty\n{text}")?;
        assert!(rt; printed.as_slice() == wanted.as_bytes(), "row {number}");
        assert!(rt; ended == *end, "row {number}");
    }
    Ok(())
}

/// A script of a tree, and then of a tree with the tree before it as its only directory, once for each name's length.
fn nested(alloc: Global, first: &str, lengths: &[usize]) -> Result<Vec<u8>, Fail> {
    let mut script = first.as_bytes().to_vec(alloc)?;
    for length in lengths {
        script.extend_from_slice(b"tree t 40000 ".as_slice())?;
        for _ in 0..*length {
            script.push(b'd')?;
        }
        script.extend_from_slice(b" t\n".as_slice())?;
    }
    Ok(script)
}

#[test]
fn trees_too_deep_or_too_long(rt: HostRuntime) -> Result<(), Fail> {
    let alloc = rt.alloc();
    let ones = [1; 65];
    let empty = "tree t\n";
    let file = "blob x x\ntree t 100644 f x\n";
    for (first, lengths, count, last) in [
        (empty, &ones[..64], 64, "ok\n"),
        (empty, &ones[..65], 65, "refused TooDeep\n"),
        (file, &ones[..63], 64, "ok\n"),
        (file, &ones[..64], 65, "refused TooDeep\n"),
        (file, [255, 255, 255, 254].as_slice(), 5, "ok\n"),
        (
            file,
            [255, 255, 255, 255].as_slice(),
            5,
            "refused PathTooLong\n",
        ),
        (file, [256].as_slice(), 2, "refused BadName\n"),
    ] {
        let (printed, ended) = told(alloc, nested(alloc, first, lengths)?.as_slice());
        let wanted = repeated(alloc, &[("ok\n", count), (last, 1)])?;
        assert!(rt; ended.is_ok(), "{last} behind {count} lines");
        assert!(rt;
            printed.as_slice() == wanted.as_slice(),
            "{last} behind {count} lines"
        );
    }
    Ok(())
}

#[test]
fn a_tree_of_many_entries(rt: HostRuntime) -> Result<(), Fail> {
    let alloc = rt.alloc();
    let mut script = b"blob x x\ntree t".to_vec(alloc)?;
    for number in 1_000..4_000 {
        script.extend_from_slice(format!(in alloc; " 100644 {number} x")?.as_bytes())?;
    }
    script.extend_from_slice(b"\nid t\n".as_slice())?;
    let (printed, ended) = told(alloc, script.as_slice());
    assert!(rt; ended.is_ok());
    assert!(rt;
        printed.as_slice() == b"ok\nok\nid d1c2917126ed0add9064af2e34bd06ac705429e5\n".as_slice()
    );
    Ok(())
}
