//! `edend` over devices: each status, and what is told with it.

use eden_programs::{Shelf, edend};
use std::alloc::Global;
use std::fs::{File, Files};
use std::io;
use std::io::ErrorKind;
use std::net::{Ipv4Addr, Net, TcpListener, TcpStream};
use std::sync::Wait;
use std::test::Fail;
use std::thread::Threads;
use std::time::Clock;
use test_devices::{Sink, Source};
use test_serve::free_port;

/// What a program came to: its status, what it wrote, and what it told of a fault.
type End = (u8, Vec<u8>, Vec<u8>);

/// One file, `batch`, which can't be read from a place on.
#[derive(Drop)]
pub(crate) struct OneFile {
    pub(crate) bytes: &'static [u8],
    pub(crate) fails_at: usize,
}

impl Shelf for OneFile {
    type File = Source<'static>;

    fn open(&self, name: &str) -> io::Result<Source<'static>> {
        if name != "batch" {
            return Err(io::Error::from(ErrorKind::NotFound));
        }
        let mut source = Source::new(self.bytes);
        source.cut = self.fails_at;
        source.fails_at = self.fails_at;
        Ok(source)
    }
}

/// Splits the words of a command line at their spaces.
pub(crate) fn split_words(alloc: Global, words: &str) -> Result<Vec<String>, Fail> {
    let mut list = Vec::new(alloc);
    for word in words.split(' ') {
        list.push(String::from_str(alloc, word)?)?;
    }
    Ok(list)
}

/// What `edend` comes to with words that are parted by spaces, beside one file, a script that can't be read from a place on, and an output and
/// a place to tell faults that are full at another.
pub(crate) fn ran<
    R: Threads
        + Wait
        + Clock
        + Files<File = File>
        + Net<Listener = TcpListener, Stream = TcpStream>
        + Sync,
>(
    rt: &R,
    alloc: Global,
    words: &str,
    file: &OneFile,
    script: &str,
    fails_at: usize,
    full_at: usize,
) -> Result<End, Fail> {
    let list = split_words(alloc, words)?;
    let mut source = Source::new(script.as_bytes());
    source.fails_at = fails_at;
    let mut sink = Sink::new(alloc);
    sink.full_at = full_at;
    let mut errors = Sink::new(alloc);
    let status = edend(
        rt,
        alloc,
        file,
        list.as_slice(),
        source,
        &mut sink,
        &mut errors,
    );
    Ok((status, sink.bytes, errors.bytes))
}

/// The words of a call, its script, the place from which on that can't be read, the place at which the output is full, and what the program
/// comes to: its status, its output, and what it tells of a fault, or how that begins where `clap` says it.
type Row = (
    &'static str,
    &'static str,
    usize,
    usize,
    u8,
    &'static str,
    &'static str,
);

/// No place.
pub(crate) const ALL: usize = usize::MAX;

/// A script of one line.
const ONE: &str = "mount empty 7 1000\n";

const ROWS: &[Row] = &[
    ("edend run", ONE, ALL, ALL, 0, "at 7 1 empty\n", ""),
    ("edend run", "", ALL, ALL, 0, "", ""),
    ("edend --version", "x", 0, ALL, 0, "edend 0.1.0\n", ""),
    ("edend -V", "x", 0, ALL, 0, "edend 0.1.0\n", ""),
    (
        "edend run",
        "x\n",
        ALL,
        ALL,
        1,
        "",
        "line 1: BadLine: no line begins with `x`\n",
    ),
    (
        "edend run",
        "mount empty 7 1000\n\nx",
        ALL,
        ALL,
        1,
        "at 7 1 empty\n",
        "line 3: BadLine: no line begins with `x`\n",
    ),
    ("edend", ONE, ALL, ALL, 2, "", "error: "),
    ("edend rnu", ONE, ALL, ALL, 2, "", "error: "),
    ("edend run x", ONE, ALL, ALL, 2, "", "error: "),
    (
        "edend --help",
        ONE,
        ALL,
        ALL,
        2,
        "",
        "Runs a script of changes",
    ),
    (
        "edend run --help",
        ONE,
        ALL,
        ALL,
        2,
        "",
        "Runs a script from",
    ),
    ("edend run", ONE, 0, ALL, 3, "", "edend: Read: the script: "),
    (
        "edend run",
        ONE,
        ALL,
        4,
        3,
        "at 7",
        "edend: Write: standard output can't be written\n",
    ),
    ("edend --version", "", ALL, 0, 3, "", "edend: Write\n"),
    (
        "edend --version",
        "",
        ALL,
        8,
        3,
        "edend 0.",
        "edend: Write\n",
    ),
    ("edend serve", ONE, ALL, ALL, 2, "", "error: "),
    (
        "edend serve --port 0 --connections 1",
        ONE,
        ALL,
        ALL,
        2,
        "",
        "error: ",
    ),
    (
        "edend serve --port 65536 --connections 1",
        ONE,
        ALL,
        ALL,
        2,
        "",
        "error: ",
    ),
    (
        "edend serve --port 1 --connections 0",
        ONE,
        ALL,
        ALL,
        2,
        "",
        "error: ",
    ),
    (
        "edend serve --port 1 --connections 65",
        ONE,
        ALL,
        ALL,
        2,
        "",
        "error: ",
    ),
    (
        "edend serve --connections 1 --stay",
        ONE,
        ALL,
        ALL,
        2,
        "",
        "error: ",
    ),
    (
        "edend serve --connections 1",
        ONE,
        ALL,
        ALL,
        2,
        "",
        "error: the following required arguments were not provided:\n  <--port <P>|--socket <PATH>>",
    ),
    (
        "edend serve --port 1 --socket s --connections 1",
        ONE,
        ALL,
        ALL,
        2,
        "",
        "error: the argument '--port <P>' cannot be used with '--socket <PATH>'",
    ),
    (
        "edend serve --connections 1 --stay --writable",
        ONE,
        ALL,
        ALL,
        2,
        "",
        "error: the following required arguments were not provided:\n  <--port <P>|--socket <PATH>>",
    ),
    (
        "edend serve --port 1 --connections 1 --stay --writable",
        ONE,
        ALL,
        ALL,
        2,
        "",
        "error: the argument '--port <P>' cannot be used with '--writable'",
    ),
    (
        "edend serve --port 1 --connections 1 --writable",
        ONE,
        ALL,
        ALL,
        2,
        "",
        "error: the argument '--port <P>' cannot be used with '--writable'",
    ),
    (
        "edend serve --socket /tmp/1234567890123456789012345678901234567890123456789012345678901234567890123456789012345678901234567 --connections 1",
        ONE,
        ALL,
        ALL,
        2,
        "",
        "error: invalid value for --socket: the path has more than 101 bytes",
    ),
    (
        "edend serve --socket a\nb --connections 1",
        ONE,
        ALL,
        ALL,
        2,
        "",
        "error: invalid value for --socket: the path holds a NUL byte or a line feed",
    ),
    (
        "edend serve --help",
        ONE,
        ALL,
        ALL,
        2,
        "",
        "Serves a mount at a port of 127.0.0.1, or at a Unix socket",
    ),
    // (nothing is listened at, since the script has no such line)
    (
        "edend serve --port 1 --connections 1",
        ONE,
        ALL,
        ALL,
        1,
        "at 7 1 empty\n",
        "line 2: BadLine: the script has ended without a line `listen`\n",
    ),
    (
        "edend serve --port 1 --connections 64 --stay",
        "listen\n",
        ALL,
        ALL,
        1,
        "",
        "line 1: BadLine: nothing is mounted; a line `mount L GENERATION LIMIT` comes before `listen`\n",
    ),
    (
        "edend serve --port 1 --connections 1",
        ONE,
        0,
        ALL,
        3,
        "",
        "edend: Read: the script: ",
    ),
];

/// Whether a program comes to what its row says.
fn is_as_told<
    R: Threads
        + Wait
        + Clock
        + Files<File = File>
        + Net<Listener = TcpListener, Stream = TcpStream>
        + Sync,
>(rt: &R, alloc: Global, row: &Row) -> Result<bool, Fail> {
    let (words, script, fails_at, full_at, status, text, told) = *row;
    let file = OneFile {
        bytes: b"",
        fails_at: ALL,
    };
    let (ended, output, errors) = ran(rt, alloc, words, &file, script, fails_at, full_at)?;
    let is_told = if told.ends_with('\n') || told.is_empty() {
        errors.as_slice() == told.as_bytes()
    } else {
        errors.starts_with(told.as_bytes())
    };
    Ok(ended == status && output.as_slice() == text.as_bytes() && is_told)
}

#[test]
fn statuses(rt: HostRuntime) -> Result<(), Fail> {
    for row in ROWS {
        let words = row.0;
        assert!(rt; is_as_told(&rt, rt.alloc(), row)?, "{words}");
    }
    Ok(())
}

/// Two objects and a commit of them, as `git cat-file --batch` printed them.
const BATCH: &[u8] = b"45b983be36b73c0788dc9cbcb76cbb80fc7bb057 blob 3\nhi\n\n\
c49897f29f9819a0ab6850d7e22443508a1a29d5 tree 29\n\
100644 a\0\x45\xb9\x83\xbe\x36\xb7\x3c\x07\x88\xdc\x9c\xbc\xb7\x6c\xbb\x80\xfc\x7b\xb0\x57\n\
f31a9a6c440ba3059ea0ec911dfecc321cf8b403 commit 118\n\
tree c49897f29f9819a0ab6850d7e22443508a1a29d5\n\
author A <a@b> 1700000000 +0000\ncommitter A <a@b> 1700000000 +0000\n\none\n\n";

/// The same without the first object.
const CHILD_IS_MISSING: &[u8] = b"c49897f29f9819a0ab6850d7e22443508a1a29d5 tree 29\n\
100644 a\0\x45\xb9\x83\xbe\x36\xb7\x3c\x07\x88\xdc\x9c\xbc\xb7\x6c\xbb\x80\xfc\x7b\xb0\x57\n";

/// Other bytes than those of the id.
const OTHER_BYTES: &[u8] = b"45b983be36b73c0788dc9cbcb76cbb80fc7bb057 blob 3\nhi \n";

/// A script that names the commit by the first digits of its id.
const MOUNTED: &str =
    "mount f31a9a6c440ba3059ea0ec911dfecc32 7 1000\nlist\nid f31a9a6c440ba3059ea0ec911dfecc32\n";

/// The words of a call, its file of objects, the place from which on that can't be read, the script, and what the program comes to: its status,
/// its output, and how what it tells of a fault begins.
type ObjectsRow = (
    &'static str,
    &'static [u8],
    usize,
    &'static str,
    u8,
    &'static str,
    &'static str,
);

const OBJECTS_ROWS: &[ObjectsRow] = &[
    (
        "edend run --objects batch",
        BATCH,
        ALL,
        MOUNTED,
        0,
        "at 7 1 f31a9a6c440ba3059ea0ec911dfecc32\nfiles 1\na\nid f31a9a6c440ba3059ea0ec911dfecc321cf8b403\n",
        "",
    ),
    (
        "edend run --objects=batch",
        b"",
        ALL,
        ONE,
        0,
        "at 7 1 empty\n",
        "",
    ),
    (
        "edend run",
        BATCH,
        ALL,
        MOUNTED,
        0,
        "refused NoLabel\nrefused NotMounted\nrefused NoLabel\n",
        "",
    ),
    (
        "edend run --objects batch",
        b"x",
        ALL,
        ONE,
        1,
        "",
        "edend: object 1: BadHeader: expected an id, ",
    ),
    (
        "edend run --objects batch",
        CHILD_IS_MISSING,
        ALL,
        ONE,
        1,
        "",
        "edend: object 1: MissingChild: tree c49897f29f9819a0ab6850d7e22443508a1a29d5 names blob 45b983be36b73c0788dc9cbcb76cbb80fc7bb057, which was not put before it\n",
    ),
    (
        "edend run --objects batch",
        OTHER_BYTES,
        ALL,
        ONE,
        1,
        "",
        "edend: object 1: OtherId: the bytes are not those of the object that the header names\n",
    ),
    (
        "edend run --objects batch",
        b"45b983be36b73c0788dc9cbcb76cbb80fc7bb057 blob 3\nhi\n",
        ALL,
        ONE,
        1,
        "",
        "edend: object 1: CutShort: the file ends within the object\n",
    ),
    (
        "edend run --objects batch",
        b"45b983be36b73c0788dc9cbcb76cbb80fc7bb057 blob 8388609\n",
        ALL,
        ONE,
        1,
        "",
        "edend: object 1: TooLarge: the object has more than 8,388,608 bytes\n",
    ),
    (
        "edend run --objects batch",
        BATCH,
        60,
        ONE,
        3,
        "",
        "edend: object 2: Read: batch: ",
    ),
    (
        "edend run --objects none",
        BATCH,
        ALL,
        ONE,
        3,
        "",
        "edend: none: ",
    ),
    ("edend run --objects", BATCH, ALL, ONE, 2, "", "error: "),
    (
        "edend --objects batch run",
        BATCH,
        ALL,
        ONE,
        2,
        "",
        "error: ",
    ),
];

/// Whether a program that is given objects comes to what its row says.
fn puts_as_told<
    R: Threads
        + Wait
        + Clock
        + Files<File = File>
        + Net<Listener = TcpListener, Stream = TcpStream>
        + Sync,
>(rt: &R, alloc: Global, row: &ObjectsRow) -> Result<bool, Fail> {
    let (words, bytes, fails_at, script, status, text, told) = *row;
    let file = OneFile { bytes, fails_at };
    let (ended, output, errors) = ran(rt, alloc, words, &file, script, ALL, ALL)?;
    let is_told = if told.is_empty() {
        errors.is_empty()
    } else {
        errors.starts_with(told.as_bytes())
    };
    Ok(ended == status && output.as_slice() == text.as_bytes() && is_told)
}

#[test]
fn statuses_of_objects(rt: HostRuntime) -> Result<(), Fail> {
    for row in OBJECTS_ROWS {
        let (words, told) = (row.0, row.6);
        assert!(rt; puts_as_told(&rt, rt.alloc(), row)?, "{words}: {told}");
    }
    Ok(())
}

/// The words of a call, a script with a line that can't be read, and what is told of it.
const BAD_LINES: &[(&str, &str, &str)] = &[
    (
        "edend run",
        "mount empty 7 1000\nwrite a plane x\n",
        "line 2: BadLine: KIND must be plain, exec or link, not `plane`\n",
    ),
    (
        "edend run",
        "#\r\nmount empty 7  1000\r\n",
        "line 2: BadLine: two spaces in a row; a word of no bytes is written \\e\n",
    ),
    (
        "edend run",
        "position\nflush\r",
        "line 2: BadLine: the line ends with a carriage return and no line feed\n",
    ),
    (
        "edend run",
        "listen\n",
        "line 1: BadLine: only `edend serve` reads `listen`\n",
    ),
    (
        "edend serve --port PORT --connections 1",
        "",
        "line 1: BadLine: the script is empty; `edend serve` wants a mount and a line `listen`\n",
    ),
    (
        "edend serve --port PORT --connections 1 --stay",
        "mount 38bc 7 1000\nlisten\n",
        "line 2: BadLine: nothing is mounted; line 1 was refused, as no commit is called 38bc: is --objects missing?\n",
    ),
    (
        "edend serve --port PORT --connections 1 --stay --objects batch",
        "mount 38bc 7 1000\nlisten\n",
        "line 2: BadLine: nothing is mounted; line 1 was refused, as no commit is called 38bc\n",
    ),
    (
        "edend serve --port PORT --connections 1 --stay",
        "mount empty 7 1000\nlisten\nflush\nlisten\n",
        "line 4: BadLine: line 2 is the one `listen` that a script has\n",
    ),
    (
        "edend serve --port PORT --connections 1 --stay",
        "mount empty 7 1000\nlisten\nposition\n",
        "line 3: BadLine: after `listen` only write, remove, rename, renamedir, checkout, reset, flush and remount are read\n",
    ),
];

/// A script of which lines are refused after `listen`, and whose last line lacks its end.
const REFUSED: &str = "mount empty 7 1000\nlisten\nremove zz\n#\nflush";

/// The words of a call, and what is told of that script.
const ENDINGS: &[(&str, &str)] = &[
    ("edend serve --port PORT --connections 1 --stay", ""),
    (
        "edend serve --port PORT --connections 1 --stay --verbose",
        "edend: `remove zz` was refused: NoEntry\n\
edend: refused changes: 1; connections that ended at an invalid frame: 0, since their peer was too slow: 0, since no place was free: 0; times that all places were taken: 0\n\
edend: the script has ended within line 5\n",
    ),
];

/// Puts a port in the place of `PORT`.
pub(crate) fn words_at(alloc: Global, words: &str, port: u16) -> Result<String, Fail> {
    match words.split_once("PORT") {
        Some((before, after)) => Ok(format!(in alloc; "{before}{port}{after}")?),
        None => Ok(String::from_str(alloc, words)?),
    }
}

/// What `edend` tells of a script, where the words have the port for `PORT`, beside objects.
fn told_at<
    R: Threads
        + Wait
        + Clock
        + Files<File = File>
        + Net<Listener = TcpListener, Stream = TcpStream>
        + Sync,
>(rt: &R, alloc: Global, words: &str, script: &str, port: u16) -> Result<(u8, Vec<u8>), Fail> {
    let words = words_at(alloc, words, port)?;
    let file = OneFile {
        bytes: BATCH,
        fails_at: ALL,
    };
    let (status, _, errors) = ran(rt, alloc, words.as_str(), &file, script, ALL, ALL)?;
    Ok((status, errors))
}

#[test]
fn bad_lines(rt: HostRuntime) -> Result<(), Fail> {
    for (words, script, why) in BAD_LINES {
        let port = free_port(&rt)?;
        let (status, told) = told_at(&rt, rt.alloc(), words, script, port)?;
        assert_eq!(rt; status, 1, "{script}");
        assert!(rt; told.as_slice() == why.as_bytes(), "{script}");
    }
    Ok(())
}

#[test]
fn ended_scripts(rt: HostRuntime) -> Result<(), Fail> {
    for (words, why) in ENDINGS {
        let port = free_port(&rt)?;
        let (status, told) = told_at(&rt, rt.alloc(), words, REFUSED, port)?;
        assert_eq!(rt; status, 0, "{words}");
        assert!(rt; told.as_slice() == why.as_bytes(), "{words}");
    }
    Ok(())
}

/// Calls that ask for help.
const HELPS: &[&str] = &["edend --help", "edend run --help", "edend serve --help"];

/// Returns the first line that doesn't fit into 80 columns, other than the usage, which `clap` writes on one line.
pub(crate) fn first_wide(text: &[u8]) -> Option<&str> {
    let mut lines = text.split(|byte| *byte == b'\n');
    let line = lines.find(|line| line.len() > 80 && !line.starts_with(b"Usage: "))?;
    str::from_utf8(line).ok()
}

#[test]
fn helps(rt: HostRuntime) -> Result<(), Fail> {
    for words in HELPS {
        let (status, told) = told_at(&rt, rt.alloc(), words, ONE, 1)?;
        assert_eq!(rt; status, 2, "{words}");
        assert!(rt; !told.is_empty(), "{words}");
        assert_eq!(rt; first_wide(told.as_slice()), None, "{words}");
    }
    Ok(())
}

// The script and the objects could not be read either.
#[test]
fn port_in_use(rt: HostRuntime) -> Result<(), Fail> {
    let listener = TcpListener::bind(&rt, (Ipv4Addr::LOCALHOST, 0))?;
    let port = listener.local_addr()?.port();
    let words = "edend serve --port PORT --connections 1 --objects none";
    let (status, told) = told_at(&rt, rt.alloc(), words, "x\n", port)?;
    assert_eq!(rt; status, 3);
    let wanted = format!(in rt.alloc();
        "edend: NoConnection: port {port}: Address already in use (os error 98)\n"
    )?;
    assert!(rt; told.as_slice() == wanted.as_bytes());
    Ok(())
}

/// A line of more bytes than a line may have.
#[test]
fn long_line(rt: HostRuntime) -> Result<(), Fail> {
    let alloc = rt.alloc();
    let mut script = String::from_str(alloc, "# two lines\nwrite a plain ")?;
    for _ in 0..65_523 {
        script.push('x')?;
    }
    let (status, told) = told_at(&rt, alloc, "edend run", script.as_str(), 1)?;
    assert_eq!(rt; status, 1);
    assert!(rt;
        told.as_slice() == b"line 2: BadLine: the line has more than 65,536 bytes\n".as_slice()
    );
    Ok(())
}

/// Lines that can't be read, and why.
const REASONS: &[(&str, &str)] = &[
    (" flush", "the line begins with a space"),
    (
        "flush ",
        "the line ends with a space; a word of no bytes is written \\e",
    ),
    (
        "write a  hi",
        "two spaces in a row; a word of no bytes is written \\e",
    ),
    (
        "remove C:\\dir",
        "a backslash in `C:\\dir` begins no escape; the escapes are \\\\, \\n, \\s and \\e",
    ),
    (
        "remove  C:\\",
        "a backslash in `C:\\` begins no escape; the escapes are \\\\, \\n, \\s and \\e",
    ),
    ("wirte a plain hi", "no line begins with `wirte`"),
    ("\\e", "no line begins with `\\e`"),
    ("a\tb\x1b", "no line begins with `a?b?`"),
    (
        "write a plain",
        "expected `write PATH KIND TEXT`, and the line has 3 words",
    ),
    (
        "write a plain hi you",
        "expected `write PATH KIND TEXT`, and the line has 5 words",
    ),
    (
        "rename a",
        "expected `rename OLD NEW`, and the line has 2 words",
    ),
    ("flush a", "expected `flush`, and the line has 2 words"),
    (
        "tree t 100644 a",
        "expected `tree L [MODE NAME LABEL]..`, and the line has 4 words",
    ),
    (
        "tree",
        "expected `tree L [MODE NAME LABEL]..`, and the line has 1 word",
    ),
    (
        "write a plane hi",
        "KIND must be plain, exec or link, not `plane`",
    ),
    (
        "checkout c soft",
        "MODE must be normal, force or dry, not `soft`",
    ),
    (
        "mount empty 07 1000",
        "GENERATION must be a decimal number from 0 to 18446744073709551615 with no sign and no leading zero, not `07`",
    ),
    (
        "mount empty 7 18446744073709551616",
        "LIMIT must be a decimal number from 0 to 18446744073709551615 with no sign and no leading zero, not `18446744073709551616`",
    ),
    (
        "since 7 -1",
        "SEQUENCE must be a decimal number from 0 to 18446744073709551615 with no sign and no leading zero, not `-1`",
    ),
    (
        "reset HEAD",
        "L must be a label, 1 to 32 of a to z and 0 to 9, not `HEAD`",
    ),
    (
        "tree t 100644 a x 100644 b Y",
        "LABEL must be a label, 1 to 32 of a to z and 0 to 9, not `Y`",
    ),
    (
        "blob empty x",
        "L must be a label, 1 to 32 of a to z and 0 to 9, other than `empty`, not `empty`",
    ),
    (
        "abcdefghijklmnopqrstuvwxyzabcdefghijklmnopqrstuvwxyzabcdefghijklmnopqrstuvwxyz x",
        "no line begins with `abcdefghijklmnopqrstuvwxyzabcdefghijklmnopqrstuvwxyzabcdefgh..`",
    ),
];

#[test]
fn reasons(rt: HostRuntime) -> Result<(), Fail> {
    let alloc = rt.alloc();
    for (line, why) in REASONS {
        let (_, told) = told_at(&rt, alloc, "edend run", line, 1)?;
        let wanted = format!(in alloc; "line 1: BadLine: {why}\n")?;
        assert!(rt; told.as_slice() == wanted.as_bytes(), "{line}");
    }
    Ok(())
}
