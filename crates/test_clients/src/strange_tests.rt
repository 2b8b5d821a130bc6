//! Services that say what they should not.

use crate::listener::Act;
use crate::talks::Row;
use eden_connect::ConnectFault;
use std::test::Fail;

/// Two files.
const TWO: &[(&str, &str)] = &[("a", "1"), ("b", "22")];

const PLACED: &str =
    "placed 7 3 0000000000000000000000000000000000000000\nfiles 2\nplain 1 a\nplain 2 b\n";

const NOWHERE: &str = "unplaced\nfiles 0\n";

const UNPLACED: Result<(), ConnectFault> = Err(ConnectFault::Unplaced);

/// To the first question: the position is of another generation than 8.
const STALE: Act = Act::Say(
    b"\0\0\0\x23\x02\x84\0\0\0\0\0\0\0\x01\0\0\0\0\0\0\0\x01\0\0\0\0\0\0\0\x01\x01\0\0\0\0\0\0\0\x08",
);

/// To the first question: the reply would be too large.
const TOO_LARGE: Act = Act::Say(
    b"\0\0\0\x23\x02\x84\0\0\0\0\0\0\0\x01\0\0\0\0\0\0\0\x01\0\0\0\0\0\0\0\x01\x04\0\0\0\0\0\0\0\0",
);

/// The same to the first question of mirror 2.
const OTHER_MIRROR: Act = Act::Say(
    b"\0\0\0\x23\x02\x84\0\0\0\0\0\0\0\x02\0\0\0\0\0\0\0\x01\0\0\0\0\0\0\0\x01\x04\0\0\0\0\0\0\0\0",
);

/// And to that of the mirror's second life.
const OTHER_LIFE: Act = Act::Say(
    b"\0\0\0\x23\x02\x84\0\0\0\0\0\0\0\x01\0\0\0\0\0\0\0\x02\0\0\0\0\0\0\0\x01\x04\0\0\0\0\0\0\0\0",
);

/// A length of nearly 4 GiB, one byte more than a body may have, and as many as it may, which don't come.
const LONG: Act = Act::Say(b"\xff\xff\xff\xff\x02\x84");

const LONGER: Act = Act::Say(b"\x01\0\0\x01\x02\x84");

const LONGEST: Act = Act::Say(b"\x01\0\0\0\x02\x84");

/// A part of a length, no body, and bodies that can't be read: of another version, with a tag of a request, that end inside a field, and with
/// a byte after the last field.
const PART: Act = Act::Say(b"\0\0");

const EMPTY: Act = Act::Say(b"\0\0\0\0");

const VERSION: Act = Act::Say(b"\0\0\0\x04\x01\x84\0\0");

const TAG: Act = Act::Say(b"\0\0\0\x04\x02\x03\0\0");

const SHORT: Act = Act::Say(b"\0\0\0\x04\x02\x84\0\0");

const TRAILING: Act = Act::Say(
    b"\0\0\0\x24\x02\x84\0\0\0\0\0\0\0\x01\0\0\0\0\0\0\0\x01\0\0\0\0\0\0\0\x01\x04\0\0\0\0\0\0\0\0\0",
);

/// Bytes that were drawn by lot.
const DRAWN: Act = Act::Say(
    b"\x9a\x3f\x02\xd7\x61\x4b\x8c\x15\xee\x70\xa2\x39\x5d\xc4\x1f\x86\x0b\xf3\x97\x28\x6e\xb5\x43\xda",
);

const ROWS: &[Row] = &[
    // A round that the service refuses has ended, and one to which nothing is said that counts is given up. The next one begins.
    Row {
        files: TWO,
        acts: &[STALE],
        rounds: 1,
        ended: UNPLACED,
        text: NOWHERE,
    },
    Row {
        files: TWO,
        acts: &[TOO_LARGE],
        rounds: 1,
        ended: UNPLACED,
        text: NOWHERE,
    },
    Row {
        files: TWO,
        acts: &[OTHER_MIRROR],
        rounds: 1,
        ended: UNPLACED,
        text: NOWHERE,
    },
    Row {
        files: TWO,
        acts: &[OTHER_LIFE],
        rounds: 1,
        ended: UNPLACED,
        text: NOWHERE,
    },
    Row {
        files: TWO,
        acts: &[OTHER_MIRROR, Act::Serve],
        rounds: 2,
        ended: Ok(()),
        text: PLACED,
    },
    // What can't be read is a connection that is lost.
    Row {
        files: TWO,
        acts: &[
            LONG,
            LONGER,
            LONGEST,
            PART,
            EMPTY,
            VERSION,
            TAG,
            SHORT,
            TRAILING,
            DRAWN,
            Act::Serve,
        ],
        rounds: 1,
        ended: Ok(()),
        text: PLACED,
    },
    Row {
        files: TWO,
        acts: &[DRAWN; 16],
        rounds: 1,
        ended: Err(ConnectFault::NoConnection),
        text: "",
    },
    // Its list comes twice: the second one stands for the content of `a`, which is asked for again.
    Row {
        files: TWO,
        acts: &[Act::Twice(1)],
        rounds: 1,
        ended: Ok(()),
        text: PLACED,
    },
    // All comes twice: the second content of `a` stands for that of `b`, and does not count.
    Row {
        files: TWO,
        acts: &[Act::Twice(9)],
        rounds: 1,
        ended: UNPLACED,
        text: "unplaced\nfiles 1\nplain 1 a\n",
    },
    // The replies of the first round stand for those of the second.
    Row {
        files: TWO,
        acts: &[Act::Twice(9)],
        rounds: 2,
        ended: UNPLACED,
        text: "unplaced\nfiles 1\nplain 1 a\n",
    },
];

#[test]
fn strange_services(rt: HostRuntime) -> Result<(), Fail> {
    for (number, row) in ROWS.iter().enumerate() {
        assert!(rt; row.is_right(&rt, rt.alloc())?, "row {number}");
    }
    Ok(())
}
