//! Runs of an echoing machine over devices that give and take little at a time.
ghost use Rattle.std.specs.Prelude.{◌≡◌, ◌≢◌, ℕ, List, [], ◌∷◌, ◌++◌, None, slice_index};
ghost use Rattle.eden_stream.specs.Lines.{IsSpoken};
ghost use Rattle.eden_stream.specs.Scripts.{IsScript, in_front};

use super::pieces::{Case, is_so_in_pieces};
use super::{Endless, Sink, Source};
use eden_stream::{Answered, Counted, Faults, LineMachine, RunFault, run_lines};
use std::alloc::Global;
use std::io::Read;
use std::test::*;

// Prints each line, and can't read one that begins with `!`.
#[derive(Drop)]
struct Echo;

impl LineMachine for Echo {
    // What says something is printed, but a line that begins with `!` can't be
    // read.
    ghost stands_for = { λ _ script. IsScript script
        × ((line : List ℕ) (more : List (List ℕ)) → IsSpoken line → slice_index line 0 ≡ 33 → script (line ∷ more) ≡ None)
        × ((line : List ℕ) (more : List (List ℕ)) → IsSpoken line → slice_index line 0 ≢ 33
        → script (line ∷ more) ≡ in_front (line ++ 10 ∷ []) (script more)) };

    fn answer(&mut self, line: &[u8], text: &mut Vec<u8>) -> Answered {
        if line[0] == b'!' {
            return Answered::BadLine;
        }
        match text.extend_from_slice(line) {
            Ok(()) => match text.push(b'\n') {
                Ok(()) => Answered::Done,
                Err(_) => Answered::NoMemory,
            },
            Err(_) => Answered::NoMemory,
        }
    }

    ghost lawful = { λ _ script echoes. echoes.0 };
}

// How a run ended, the faults and the calls of its reader, and the faults of its writer.
type End = (Result<u64, RunFault>, u64, u64, u64);

// Runs what the source gives, and tells what was printed. It has no clause: its callers compare values.
fn told<R: Read + Drop>(alloc: Global, source: R, sink: Sink) -> (End, Vec<u8>) {
    let mut sink = sink;
    let mut reader = Counted::new(source);
    let mut writer = Counted::new(&mut sink);
    let end = run_lines(alloc, &mut reader, &mut writer, &mut Echo);
    let told = (end, reader.faults(), reader.calls(), writer.faults());
    (told, sink.bytes)
}

/// A script, what its lines print, and how it ends.
const CASES: &[Case<RunFault>] = &[
    (b"", b"", Ok(0)),
    (b"a\nbc\n", b"a\nbc\n", Ok(2)),
    (b"a\r\nbc", b"a\nbc\n", Ok(2)),
    (b"a\nbc\r", b"a\nbc\r\n", Ok(2)),
    (b"a\r\r\n", b"a\r\n", Ok(1)),
    (b"\n\n", b"", Ok(2)),
    (b"# said\n\nb\n", b"b\n", Ok(3)),
    (b"\r\n#\r\n", b"", Ok(2)),
    (b"a\n#!", b"a\n", Ok(2)),
    (b"a\n!x\nb\n", b"a\n", Err(RunFault::BadLine(2))),
    (b"#\n\na\n!x", b"a\n", Err(RunFault::BadLine(4))),
    (b" #\n!", b" #\n", Err(RunFault::BadLine(2))),
];

#[test]
fn pieces_do_not_matter(rt: HostRuntime) {
    for case in CASES {
        let is_so = is_so_in_pieces(
            rt.alloc(),
            case,
            &|source, sink| {
                let (end, text) = told(rt.alloc(), source, sink);
                (end.0, text)
            },
        );
        assert!(rt; is_so);
    }
}

// How a script of one long line ends, with how much it prints.
fn run_long(alloc: Global, first: u8, count: usize, behind: &[u8]) -> Result<(End, usize), Fail> {
    let mut script = vec![in alloc; first; count]?;
    script.extend_from_slice(behind)?;
    let (end, text) = told(alloc, Source::new(&script), Sink::new(alloc));
    Ok((end, text.len()))
}

// A byte that a line begins with, so many times; what stands behind it; how the run ends, and how much it prints.
const LONG: &[(u8, usize, &[u8], Result<u64, RunFault>, usize)] = &[
    (b'a', 65_536, b"\nb\n", Ok(2), 65_539),
    (b'a', 65_536, b"\r\nb", Ok(2), 65_539),
    (b'a', 65_536, b"", Ok(1), 65_537),
    (b'a', 65_536, b"\r", Err(RunFault::BadLine(1)), 0),
    (b'a', 65_537, b"\nb\n", Err(RunFault::BadLine(1)), 0),
    (b'a', 65_537, b"\r\nb\n", Err(RunFault::BadLine(1)), 0),
    (b'a', 200_000, b"", Err(RunFault::BadLine(1)), 0),
    (b'#', 200_000, b"\nb\n", Ok(2), 2),
    (b'#', 200_000, b"", Ok(1), 0),
    (b'\n', 200_000, b"b", Ok(200_001), 2),
];

#[test]
fn a_line_has_at_most_65536_bytes(rt: HostRuntime) -> Result<(), Fail> {
    for &(first, count, behind, wanted, length) in LONG {
        let (end, printed) = run_long(rt.alloc(), first, count, behind)?;
        assert_eq!(rt; (end.0, printed), (wanted, length), "{count}");
    }
    Ok(())
}

// Where a reader of `a`, `bc`, `#` and `d` fails, and what is printed of whole lines.
const READ: &[(usize, &[u8])] = &[
    (0, b""),
    (1, b""),
    (2, b"a\n"),
    (4, b"a\n"),
    (5, b"a\nbc\n"),
    (7, b"a\nbc\n"),
    (8, b"a\nbc\n"),
];

// How a run ends whose writer is full at a place and takes at most so many bytes at a time, and what is printed.
fn written_to(alloc: Global, full_at: usize, most: usize) -> (End, Vec<u8>) {
    let mut sink = Sink::new(alloc);
    sink.full_at = full_at;
    sink.most = most;
    told(alloc, Source::new(b"a\nbc\nd\n!\n"), sink)
}

// A reader fails in front of each byte, or a writer behind it, whatever it takes at once.
#[test]
fn failed_devices_leave_whole_lines_or_a_part_of_the_text(rt: HostRuntime) {
    let alloc = rt.alloc();
    for &(place, text) in READ {
        let (end, printed) = told(
            alloc,
            Source::failing_at(b"a\nbc\n#\nd", place),
            Sink::new(alloc),
        );
        assert_eq!(rt; (end.0, end.1, end.3), (Err(RunFault::Read), 1, 0));
        assert_eq!(rt; printed.as_slice(), text, "at {place}");
    }
    for most in [usize::MAX, 1, 3] {
        for place in 0..7usize {
            let (end, printed) = written_to(alloc, place, most);
            assert_eq!(rt; (end.0, end.1, end.3), (Err(RunFault::Write), 0, 1));
            assert_eq!(rt; Some(printed.as_slice()), b"a\nbc\nd\n".get(..place));
        }
    }
}

#[test]
fn an_endless_reader_spends_the_reads(rt: HostRuntime) {
    for bytes in [b"#", b"\n"] {
        let (end, printed) = told(rt.alloc(), Endless::new(bytes), Sink::new(rt.alloc()));
        assert_eq!(rt; end, (Err(RunFault::TurnsSpent), 0, 1_000_000, 0));
        assert!(rt; printed.is_empty());
    }
}
