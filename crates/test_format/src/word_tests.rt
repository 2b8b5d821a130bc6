//! The words of a line, numbers, and how bytes are written.

use eden_script::{number, push_bytes, push_escaped, push_number, words};
use std::alloc::{AllocError, Global};
use std::test::Fail;

// The words of a line, each with a bar behind it.
fn barred(alloc: Global, line: &[u8]) -> Result<Option<Vec<u8>>, AllocError> {
    let Some(words) = words(alloc, line)? else {
        return Ok(None);
    };
    let mut barred = Vec::new(alloc);
    for word in &words {
        barred.extend_from_slice(word.as_bytes())?;
        barred.push(b'|')?;
    }
    Ok(Some(barred))
}

/// A line, and its words.
const LINES: &[(&[u8], &[u8])] = &[
    (b"a", b"a|"),
    (b"write a/b 12", b"write|a/b|12|"),
    (br"\\", br"\|"),
    (br"\n", b"\n|"),
    (br"\s", b" |"),
    (br"\e", b"|"),
    (br"a\eb", b"ab|"),
    (br"\\n", br"\n|"),
    (br"a\sb c\nd \e", b"a b|c\nd||"),
    (br"\s\slib/x.rs\s", b"  lib/x.rs |"),
    (br"no\\ne no_escape_in_here", br"no\ne|no_escape_in_here|"),
    (b"\xff\t", b"\xff\t|"),
];

/// Lines that have no words.
const NO_WORDS: &[&[u8]] = &[
    b"", b" ", b"a  b", b" a", b"a ", br"\x", br"\N", br"a\", br"\ a", br"\\\", br"a b\ c",
];

#[test]
fn lines_and_their_words(rt: HostRuntime) -> Result<(), Fail> {
    for (line, wanted) in LINES {
        let read = barred(rt.alloc(), line)?.ok_or("no reading")?;
        assert!(rt; read.as_slice() == *wanted, "{line:?}");
    }
    for line in NO_WORDS {
        assert!(rt; barred(rt.alloc(), line)?.is_none(), "{line:?}");
    }
    let mut words = words(rt.alloc(), br"one two\sthree")?.ok_or("no reading")?;
    assert!(rt; words.len() == 2);
    let last = words.pop().ok_or("no word")?;
    assert!(rt; last.into_bytes().as_slice() == b"two three".as_slice());
    Ok(())
}

/// A word, and the number that it is, if it is one.
const NUMBERS: &[(&[u8], Option<u64>)] = &[
    (b"0", Some(0)),
    (b"7", Some(7)),
    (b"10", Some(10)),
    (b"18446744073709551615", Some(18446744073709551615)),
    (b"", None),
    (b"00", None),
    (b"01", None),
    (b"+1", None),
    (b"-1", None),
    (b"1a", None),
    (b"a", None),
    (b" 1", None),
    (b"\xff", None),
    (b"18446744073709551616", None),
    (b"123456789012345678901234567890", None),
];

#[test]
fn numbers(rt: HostRuntime) {
    for (word, wanted) in NUMBERS {
        assert!(rt; number(word) == *wanted, "{word:?}");
    }
}

/// Bytes, and how they are written behind a `>`.
const TEXTS: &[(&[u8], &[u8])] = &[
    (b"", br">\e"),
    (b" ", br">\s"),
    (b"\n", br">\n"),
    (br"\", br">\\"),
    (b"\xff", b">\xff"),
    (b"e", b">e"),
    (b"a b\nc\\", br">a\sb\nc\\"),
    (b"  lib/x.rs \n\n", br">\s\slib/x.rs\s\n\n"),
    (b"no_escape_in_here", b">no_escape_in_here"),
];

#[test]
fn escaped_and_plain_texts(rt: HostRuntime) -> Result<(), Fail> {
    for (bytes, wanted) in TEXTS {
        let mut text = Vec::from_slice(rt.alloc(), b">")?;
        push_escaped(&mut text, bytes)?;
        assert!(rt; text.as_slice() == *wanted, "{bytes:?}");
    }
    let mut text = Vec::new(rt.alloc());
    push_number(&mut text, 0)?;
    push_bytes(&mut text, b" ")?;
    push_number(&mut text, u64::MAX)?;
    push_bytes(&mut text, b"")?;
    assert!(rt; text.as_slice() == b"0 18446744073709551615".as_slice());
    Ok(())
}
