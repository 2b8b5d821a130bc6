//! Answers by an echoing teller over devices that give and take little at a time.
ghost use Rattle.eden_stream.specs.FrameAnswers.{AnswersBody, answers_story};
ghost use Rattle.test_devices.specs.Echoes.{echoed};

use super::pieces::{Case, is_so_in_pieces};
use super::{Endless, Sink, Source};
use eden_stream::{Counted, Faults, FrameFault, Frames, ServeFault, Step, Teller, tell_frames};
use std::alloc::Global;
use std::io::Read;
use std::test::*;

// Gives each body back with an LF behind it, and can't read one that begins
// with `!`.
#[derive(Drop)]
struct Echo;

fn echo_body(body: &[u8], text: &mut Vec<u8>) -> Step<FrameFault>
    ensures { AnswersBody echoed body.now text.old.items text.new.items result }
{
    if matches!(body, [b'!', ..]) {
        return Step::Fault(FrameFault::BadTag);
    }
    match text.extend_from_slice(body) {
        Ok(()) => match text.push(b'\n') {
            Ok(()) => Step::Told,
            Err(_) => Step::NoMemory,
        },
        Err(_) => Step::NoMemory,
    }
}

impl Teller<Frames, (), FrameFault> for Echo {
    ghost story = { λ _ _ _. answers_story (λ _. echoed) };

    #[tactic(auto, using(eden_stream::proofs::Replying::answers_tell))]
    fn answer(&self, _server: &mut (), body: &[u8], text: &mut Vec<u8>) -> Step<FrameFault> {
        echo_body(body, text)
    }

    ghost lawful = { λ _ _ _. record { passes = λ _ _ _ silent _. absurd silent; stops = λ _ _ told. told } };
}

// How a service ended, and the calls of its reader.
type End = (Result<u64, ServeFault>, u64);

// Serves what the source gives, and tells what was written. It has no clause: its callers compare values.
fn told<R: Read + Drop>(alloc: Global, source: R, sink: Sink) -> (End, Vec<u8>) {
    let mut sink = sink;
    let mut reader = Counted::new(source);
    let mut writer = Counted::new(&mut sink);
    let end = tell_frames(alloc, &mut reader, &mut writer, &Echo, &mut ());
    let told = (end, reader.calls());
    (told, sink.bytes)
}

/// A stream, the replies to its frames, and how it ends.
const CASES: &[Case<ServeFault>] = &[
    (b"", b"", Ok(0)),
    (b"\0\0\0\x01a\0\0\0\x02bc", b"a\nbc\n", Ok(2)),
    (b"\0\0\0\0\0\0\0\0\0\0\0\x01a", b"\n\na\n", Ok(3)),
    (
        b"\0",
        b"",
        Err(ServeFault::Frame {
            number: 1,
            fault: FrameFault::CutShort,
        }),
    ),
    (
        b"\0\0\0\x01a\0\0\0",
        b"a\n",
        Err(ServeFault::Frame {
            number: 2,
            fault: FrameFault::CutShort,
        }),
    ),
    (
        b"\0\0\0\x01a\0\0\0\x02b",
        b"a\n",
        Err(ServeFault::Frame {
            number: 2,
            fault: FrameFault::CutShort,
        }),
    ),
    (
        b"\0\0\0\x01a\x01\0\0\0!",
        b"a\n",
        Err(ServeFault::Frame {
            number: 2,
            fault: FrameFault::CutShort,
        }),
    ),
    (
        b"\0\0\0\x01a\x01\0\0\x01",
        b"a\n",
        Err(ServeFault::Frame {
            number: 2,
            fault: FrameFault::TooLarge,
        }),
    ),
    (
        b"\xff\xff\xff\xffa\0\0\0\x01a",
        b"",
        Err(ServeFault::Frame {
            number: 1,
            fault: FrameFault::TooLarge,
        }),
    ),
    (
        b"\0\0\0\x01!\0\0\0\x01a",
        b"",
        Err(ServeFault::Frame {
            number: 1,
            fault: FrameFault::BadTag,
        }),
    ),
    (
        b"\0\0\0\x01a\0\0\0\x02!b\0\0\0",
        b"a\n",
        Err(ServeFault::Frame {
            number: 2,
            fault: FrameFault::BadTag,
        }),
    ),
];

#[test]
fn pieces_of_frames_do_not_matter(rt: HostRuntime) {
    for case in CASES {
        let is_so = is_so_in_pieces(
            rt.alloc(),
            case,
            &|source, sink| {
                let (end, text) = told(rt.alloc(), source, sink);
                (end.0, text)
            },
        );
        assert!(rt; is_so);
    }
}

// How a frame ends whose body has `count` bytes, with how long its reply is,
// where a read gives at most `most` bytes.
fn serve_long(
    alloc: Global,
    length: &[u8],
    count: usize,
    most: usize,
) -> Result<(End, usize), Fail> {
    let body = vec![in alloc; b'a'; count]?;
    let mut stream = Vec::new(alloc);
    stream.extend_from_slice(length)?;
    stream.extend_from_slice(&body)?;
    let mut source = Source::new(&stream);
    source.most = most;
    let (end, text) = told(alloc, source, Sink::new(alloc));
    Ok((end, text.len()))
}

#[test]
fn a_body_has_at_most_16777216_bytes(rt: HostRuntime) -> Result<(), Fail> {
    for most in [usize::MAX, 100] {
        let (end, written) = serve_long(rt.alloc(), b"\x01\0\0\0", 16_777_216, most)?;
        assert_eq!(rt; (end.0, written), (Ok(1), 16_777_217));
    }
    Ok(())
}

#[test]
fn many_frames_are_answered(rt: HostRuntime) -> Result<(), Fail> {
    let stream = vec![in rt.alloc(); 0; 800_000]?;
    let (end, text) = told(rt.alloc(), Source::new(&stream), Sink::new(rt.alloc()));
    assert_eq!(rt; (end.0, text.len()), (Ok(200_000), 200_000));
    Ok(())
}

// Where a reader of two frames fails, and what is written of the replies to whole frames.
const READ: &[(usize, &[u8])] = &[
    (0, b""),
    (4, b""),
    (5, b"a\n"),
    (9, b"a\n"),
    (10, b"a\nb\n"),
];

// How a service of three frames ends whose writer is full at a place and takes at most so many bytes at a time, and what is written.
fn written_to(alloc: Global, full_at: usize, most: usize) -> (End, Vec<u8>) {
    let mut sink = Sink::new(alloc);
    sink.full_at = full_at;
    sink.most = most;
    told(
        alloc,
        Source::new(b"\0\0\0\x01a\0\0\0\x02bc\0\0\0\x01!"),
        sink,
    )
}

#[test]
fn failed_devices_leave_whole_frames_or_a_part_of_the_replies(rt: HostRuntime) {
    let alloc = rt.alloc();
    for &(place, text) in READ {
        let source = Source::failing_at(b"\0\0\0\x01a\0\0\0\x01b", place);
        let (end, written) = told(alloc, source, Sink::new(alloc));
        assert_eq!(rt; end.0, Err(ServeFault::Read));
        assert_eq!(rt; written.as_slice(), text, "at {place}");
    }
    for most in [usize::MAX, 1, 3] {
        for place in 0..5usize {
            let (end, written) = written_to(alloc, place, most);
            assert_eq!(rt; end.0, Err(ServeFault::Write));
            assert_eq!(rt; Some(written.as_slice()), b"a\nbc\n".get(..place));
        }
    }
}

#[test]
fn endless_frames_spend_the_reads(rt: HostRuntime) {
    let (end, text) = told(rt.alloc(), Endless::new(&[0]), Sink::new(rt.alloc()));
    assert_eq!(rt; end, (Err(ServeFault::TurnsSpent), 1_000_000));
    assert_eq!(rt; text.len(), 250_000);
}
