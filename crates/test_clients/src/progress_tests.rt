//! How far a round has come, and how that is shown.

use crate::listener::Act;
use crate::talks::{mount_of, talk};
use eden_accumulate::Mount;
use eden_connect::{Progress, Shown};
use eden_ids::GitNaming;
use std::alloc::Global;
use std::io;
use std::net::{Net, TcpListener, TcpStream};
use std::sync::atomic::{AtomicU64, Ordering};
use std::test::Fail;
use std::thread::Threads;
use std::time::{Clock, Duration};
use test_devices::Sink;

/// Notes what it is told.
#[derive(Drop)]
struct Notes {
    told: Vec<(u64, u64)>,
    finished: u32,
    full: bool,
}

impl Progress for Notes {
    fn advance(&mut self, came: u64, named: u64) {
        self.full |= self.told.push((came, named)).is_err();
    }

    fn finish(&mut self) {
        self.finished = self.finished.saturating_add(1);
    }
}

/// What is told of rounds over a mount, with these connections.
fn noted_of<R>(
    rt: &R,
    alloc: Global,
    mount: &mut Mount<GitNaming>,
    acts: &[Act],
    rounds: u32,
) -> Result<Notes, Fail>
where
    R: Net<Listener = TcpListener, Stream = TcpStream> + Threads + Sync,
{
    let mut notes = Notes {
        told: Vec::new(alloc),
        finished: 0,
        full: false,
    };
    let _ = talk(rt, alloc, mount, acts, rounds, &mut notes)?;
    Ok(notes)
}

/// The same of a mount of three files.
fn noted<R>(rt: &R, alloc: Global, acts: &[Act], rounds: u32) -> Result<Notes, Fail>
where
    R: Net<Listener = TcpListener, Stream = TcpStream> + Threads + Sync,
{
    let mut mount = mount_of(alloc, &[("a", "1"), ("b", "2"), ("c", "3")])?;
    noted_of(rt, alloc, &mut mount, acts, rounds)
}

/// Connections, rounds, and what is told.
type Row = (&'static [Act], u32, &'static [(u64, u64)]);

const ROWS: &[Row] = &[
    (&[Act::Serve], 1, &[(1, 3), (2, 3), (3, 3)]),
    // Nothing has changed since the first round.
    (&[Act::Serve], 2, &[(1, 3), (2, 3), (3, 3)]),
    // A connection that is lost loses none of what has come.
    (
        &[Act::Answer(2), Act::Answer(1), Act::Serve],
        1,
        &[(1, 3), (2, 3), (3, 3)],
    ),
    // Contents of another generation don't count. Then all are named again.
    (&[Act::Remount(2)], 2, &[(1, 3), (1, 3), (2, 3), (3, 3)]),
    // What comes twice counts once: the third content is asked for again.
    (&[Act::Twice(1)], 1, &[(1, 3), (2, 3), (3, 3)]),
];

#[test]
fn contents_are_told(rt: HostRuntime) -> Result<(), Fail> {
    for (acts, rounds, wanted) in ROWS {
        let notes = noted(&rt, rt.alloc(), acts, *rounds)?;
        assert!(rt; !notes.full && notes.finished == 1);
        assert!(rt;
            notes.told.as_slice() == *wanted,
            "{:?} of {acts:?}",
            notes.told
        );
    }
    Ok(())
}

/// A clock that goes on by so many milliseconds with each look at it.
#[derive(Drop)]
struct Steps {
    now: AtomicU64,
    step: u64,
}

impl Clock for Steps {
    fn monotonic(&self) -> io::Result<Duration> {
        Ok(Duration::from_millis(self.now.fetch_add(self.step, Ordering::SeqCst)))
    }

    fn since_1970(&self) -> io::Result<Duration> {
        self.monotonic()
    }
}

/// What is shown of ten contents, by a clock with this step.
fn shown(alloc: Global, step: u64) -> Vec<u8> {
    let mut sink = Sink::new(alloc);
    let clock = Steps {
        now: AtomicU64::new(0),
        step,
    };
    let mut progress = Shown::new(&mut sink, &clock);
    for came in 1..=10 {
        progress.advance(came, 10);
    }
    progress.finish();
    progress.finish();
    sink.bytes
}

#[test]
fn lines_are_shown_ten_times_a_second(rt: HostRuntime) {
    let rows = [
        (0, "\rfollow: 1 of 10 paths\x1b[K\r\x1b[K"),
        (11, "\rfollow: 1 of 10 paths\x1b[K\r\x1b[K"),
        (
            12,
            "\rfollow: 1 of 10 paths\x1b[K\rfollow: 10 of 10 paths\x1b[K\r\x1b[K",
        ),
        (
            30,
            "\rfollow: 1 of 10 paths\x1b[K\rfollow: 5 of 10 paths\x1b[K\rfollow: 9 of 10 paths\x1b[K\r\x1b[K",
        ),
    ];
    for (step, text) in rows {
        let sink = shown(rt.alloc(), step);
        assert!(rt; sink.as_slice() == text.as_bytes(), "at {step} ms");
    }
}

#[test]
fn nothing_is_shown_of_nothing(rt: HostRuntime) {
    let mut sink = Sink::new(rt.alloc());
    let mut progress = Shown::new(&mut sink, &rt);
    progress.finish();
    assert!(rt; sink.bytes.is_empty());
}
