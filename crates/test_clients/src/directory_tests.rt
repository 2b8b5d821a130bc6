//! Directories that are renamed while a client follows.

use crate::listener::Act;
use crate::talks::Row;
use std::test::Fail;

/// Two files of one directory, and one beside it whose name begins as the directory's does.
const FILES: &[(&str, &str)] = &[("d/x", "1"), ("d/y", "22"), ("dz", "333")];

const CARRIED: &str =
    "placed 7 5 0000000000000000000000000000000000000000\nfiles 3\nplain 3 dz\nplain 1 e/x\nplain 2 e/y\n";

/// What a round tells that heard of the files before they were moved, and asked for them after it.
const BETWEEN: &str = "placed 7 4 0000000000000000000000000000000000000000\nfiles 1\nplain 3 dz\n";

const ROWS: &[Row] = &[
    // Behind the first round: the second one hears of two directories, lists both, and takes two contents.
    Row {
        files: FILES,
        acts: &[Act::RenameDir(4)],
        rounds: 2,
        ended: Ok(()),
        text: CARRIED,
    },
    // Behind the list of the first round: at the old paths there is nothing any more.
    Row {
        files: FILES,
        acts: &[Act::RenameDir(1)],
        rounds: 1,
        ended: Ok(()),
        text: BETWEEN,
    },
    Row {
        files: FILES,
        acts: &[Act::RenameDir(1)],
        rounds: 2,
        ended: Ok(()),
        text: CARRIED,
    },
    // The connection is lost between the rounds.
    Row {
        files: FILES,
        acts: &[Act::Answer(4), Act::RenameDir(0)],
        rounds: 2,
        ended: Ok(()),
        text: CARRIED,
    },
];

#[test]
fn renamed_directories(rt: HostRuntime) -> Result<(), Fail> {
    for (number, row) in ROWS.iter().enumerate() {
        assert!(rt; row.is_right(&rt, rt.alloc())?, "row {number}");
    }
    Ok(())
}
