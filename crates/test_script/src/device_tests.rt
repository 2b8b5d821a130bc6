//! Scripts over devices that give and take little at a time, or fail.

use eden_edend::{RunFault, run};
use eden_stream::Counted;
use std::alloc::{AllocError, Global};
use std::test::Fail;
use test_devices::{Exchange, Sink, Source};
use test_kit::{CHANGE_ROWS, lines};

/// The script of the first row of the table, and what it prints.
fn first_run(alloc: Global) -> Result<(Vec<u8>, Vec<u8>), Fail> {
    let row = &CHANGE_ROWS[0];
    Ok((lines(alloc, row.script)?, lines(alloc, row.prints)?))
}

fn ran(alloc: Global, source: Source<'_>, sink: &mut Sink) -> Result<u64, RunFault> {
    let mut source = source;
    let mut reader = Counted::new(&mut source);
    let mut writer = Counted::new(sink);
    run(alloc, &mut reader, &mut writer)
}

#[test]
fn first_run_in_pieces(rt: HostRuntime) -> Result<(), Fail> {
    let alloc = rt.alloc();
    let (script, text) = first_run(alloc)?;
    for cut in 0..script.len() {
        let mut sink = Sink::new(alloc);
        let mut source = Source::new(script.as_slice());
        source.cut = cut;
        assert_eq!(rt; ran(alloc, source, &mut sink), Ok(8));
        assert!(rt; sink.bytes.as_slice() == text.as_slice(), "cut at {cut}");
    }
    let mut sink = Sink::new(alloc);
    sink.most = 3;
    let mut source = Source::new(script.as_slice());
    source.most = 1;
    assert_eq!(rt; ran(alloc, source, &mut sink), Ok(8));
    assert!(rt; sink.bytes.as_slice() == text.as_slice());
    Ok(())
}

#[test]
fn failing_devices(rt: HostRuntime) -> Result<(), Fail> {
    let alloc = rt.alloc();
    let (script, text) = first_run(alloc)?;
    let mut source = Source::new(script.as_slice());
    source.most = 10;
    source.fails_at = 30;
    let mut sink = Sink::new(alloc);
    assert_eq!(rt; ran(alloc, source, &mut sink), Err(RunFault::Read));
    assert!(rt; sink.bytes.as_slice() == b"at 7 1 empty\nchanges 0 to 7 1 empty\n".as_slice());
    for room in 0..text.len() {
        let mut sink = Sink::new(alloc);
        sink.full_at = room;
        assert_eq!(rt;
            ran(alloc, Source::new(script.as_slice()), &mut sink),
            Err(RunFault::Write)
        );
        assert!(rt; sink.bytes.as_slice() == &text[..room]);
    }
    Ok(())
}

/// A line of each kind, and what it prints.
const LINES: &[(&str, &str)] = &[
    ("# a comment", ""),
    ("blob x x", "ok\n"),
    ("tree t 100644 a x", "ok\n"),
    ("commit c t", "ok\n"),
    ("id x", "id c1b0730e0133447badcfd47fd144e254807b06e1\n"),
    ("mount empty 7 1000", "at 7 1 empty\n"),
    ("write d/e plain k", "at 7 2 empty\n"),
    ("rename d/e d/f", "at 7 3 empty\n"),
    ("renamedir d g", "at 7 4 empty\n"),
    ("since 7 3", "changes 0 to 7 4 empty\nprefixes 2\nd\ng\n"),
    ("read g/f", "plain k\n"),
    ("checkout c normal", "at 7 5 c\nconflicts 0\n"),
    ("list", "files 2\na\ng/f\n"),
    ("list g/**", "files 1\ng/f\n"),
    ("dirty", "dirty 1\ng/f\n"),
    ("remove g/f", "at 7 6 c\n"),
    ("reset empty", "at 7 7 empty\n"),
    ("since 7 6", "changes 1 to 7 7 empty\nRoot a\n"),
    ("flush", "at 7 8 empty\n"),
    ("position", "at 7 8 empty\n"),
    ("since 7 7", "refused Truncated 8\n"),
    ("remount 8", "at 8 1 empty\n"),
    ("write .. plain x", "refused BadComponent\n"),
    ("", ""),
];

fn all_lines(alloc: Global) -> Result<Exchange, AllocError> {
    let mut lines = Exchange::new(alloc);
    for (line, prints) in LINES {
        lines.add(&[line.as_bytes(), b"\n".as_slice()], prints.as_bytes())?;
    }
    Ok(lines)
}

/// Whether a reader that fails at this place leaves what the lines before it print.
fn is_run_before(alloc: Global, lines: &Exchange, place: usize, most: usize) -> bool {
    let mut sink = Sink::new(alloc);
    let ended = ran(alloc, lines.source_to(place, most), &mut sink);
    ended == Err(RunFault::Read) && sink.bytes.as_slice() == lines.text_before(place)
}

/// Whether a writer that fails behind so many bytes has the first bytes of the text.
fn is_written_to(alloc: Global, lines: &Exchange, place: usize, most: usize) -> bool {
    let mut sink = Sink::new(alloc);
    sink.full_at = place;
    sink.most = most;
    let ended = ran(alloc, Source::new(lines.stream.as_slice()), &mut sink);
    ended == Err(RunFault::Write) && Some(sink.bytes.as_slice()) == lines.text.get(..place)
}

#[test]
fn devices_that_fail_at_each_byte(rt: HostRuntime) -> Result<(), Fail> {
    let alloc = rt.alloc();
    let lines = all_lines(alloc)?;
    let (script, text) = (lines.stream.len(), lines.text.len());
    let mut sink = Sink::new(alloc);
    let ended = ran(alloc, Source::new(lines.stream.as_slice()), &mut sink);
    assert_eq!(rt; ended, Ok(24));
    assert!(rt; sink.bytes == lines.text);
    for most in [usize::MAX, 1, 3] {
        for place in 0..=script {
            assert!(rt;
                is_run_before(alloc, &lines, place, most),
                "read to {place}"
            );
        }
        for place in 0..text {
            assert!(rt;
                is_written_to(alloc, &lines, place, most),
                "write to {place}"
            );
        }
    }
    Ok(())
}
