//! Connections that are refused or lost.

use crate::listener::Act;
use crate::talks::{Row, follow, open_port};
use eden_connect::{ConnectFault, Quiet};
use std::test::Fail;

/// One file.
const ONE: &[(&str, &str)] = &[("a", "1")];

/// Two.
const TWO: &[(&str, &str)] = &[("a", "1"), ("b", "22")];

const PLACED: &str = "placed 7 2 0000000000000000000000000000000000000000\nfiles 1\nplain 1 a\n";

const BOTH: &str =
    "placed 7 3 0000000000000000000000000000000000000000\nfiles 2\nplain 1 a\nplain 2 b\n";

const MOVED: &str = "placed 8 1 0000000000000000000000000000000000000000\nfiles 1\nplain 1 a\n";

const LOST: Result<(), ConnectFault> = Err(ConnectFault::NoConnection);

const ROWS: &[Row] = &[
    // Nothing is lost.
    Row {
        files: ONE,
        acts: &[Act::Serve],
        rounds: 1,
        ended: Ok(()),
        text: PLACED,
    },
    // One connection serves several rounds.
    Row {
        files: TWO,
        acts: &[Act::Serve],
        rounds: 3,
        ended: Ok(()),
        text: BOTH,
    },
    // The first request is read, and nothing is said.
    Row {
        files: ONE,
        acts: &[Act::Say(b""), Act::Serve],
        rounds: 1,
        ended: Ok(()),
        text: PLACED,
    },
    // It is lost between the contents of a list.
    Row {
        files: TWO,
        acts: &[Act::Answer(2), Act::Serve],
        rounds: 1,
        ended: Ok(()),
        text: BOTH,
    },
    // Each connection gives one content, and there is nothing left for a third one.
    Row {
        files: TWO,
        acts: &[Act::Answer(2), Act::Answer(1)],
        rounds: 1,
        ended: Ok(()),
        text: BOTH,
    },
    // A connection that is lost between rounds is made again.
    Row {
        files: ONE,
        acts: &[Act::Answer(2), Act::Serve],
        rounds: 2,
        ended: Ok(()),
        text: PLACED,
    },
    // It is lost in the middle of a list, and of a content.
    Row {
        files: TWO,
        acts: &[Act::Half(0), Act::Half(1), Act::Half(1), Act::Serve],
        rounds: 1,
        ended: Ok(()),
        text: BOTH,
    },
    // The mount goes over to another generation behind its first reply: the contents are of no use.
    Row {
        files: ONE,
        acts: &[Act::Remount(1)],
        rounds: 1,
        ended: Err(ConnectFault::Unplaced),
        text: "unplaced\nfiles 0\n",
    },
    Row {
        files: ONE,
        acts: &[Act::Remount(1)],
        rounds: 2,
        ended: Ok(()),
        text: MOVED,
    },
    // It does so behind the round: the position can't be followed, and the files stay.
    Row {
        files: ONE,
        acts: &[Act::Remount(2)],
        rounds: 2,
        ended: Err(ConnectFault::Unplaced),
        text: "unplaced\nfiles 1\nplain 1 a\n",
    },
    // Fifteen connections are lost, and sixteen.
    Row {
        files: ONE,
        acts: &[
            Act::Close,
            Act::Close,
            Act::Close,
            Act::Close,
            Act::Close,
            Act::Close,
            Act::Close,
            Act::Close,
            Act::Close,
            Act::Close,
            Act::Close,
            Act::Close,
            Act::Close,
            Act::Close,
            Act::Close,
            Act::Serve,
        ],
        rounds: 1,
        ended: Ok(()),
        text: PLACED,
    },
    Row {
        files: ONE,
        acts: &[Act::Close; 16],
        rounds: 1,
        ended: LOST,
        text: "",
    },
];

#[test]
fn lost_connections(rt: HostRuntime) -> Result<(), Fail> {
    for (number, row) in ROWS.iter().enumerate() {
        assert!(rt; row.is_right(&rt, rt.alloc())?, "row {number}");
    }
    Ok(())
}

#[test]
fn nobody_listens(rt: HostRuntime) -> Result<(), Fail> {
    // Nobody listens on the port once its listener is gone.
    let port = open_port(&rt)?.1;
    let (ended, output) = follow(&rt, rt.alloc(), port, 1, &mut Quiet);
    assert_eq!(rt; ended, LOST);
    assert!(rt; output.is_empty());
    Ok(())
}
