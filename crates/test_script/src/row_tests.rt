//! The table of worked scripts, each as one script.

use crate::script_tests::told;
use std::alloc::Global;
use std::process::Abort;
use std::test::Fail;
use test_kit::{ANSWER_ROWS, CHANGE_ROWS, LABEL_ROWS, OBJECT_ROWS, Row, differing_line, lines};

/// Runs these rows, and fails with the name of the first that prints something else, and its line.
fn printed(rt: &impl Abort, alloc: Global, rows: &[Row]) -> Result<(), Fail> {
    for row in rows {
        let (text, ended) = told(alloc, lines(alloc, row.script)?.as_slice());
        let wanted = lines(alloc, row.prints)?;
        let wrong = differing_line(text.as_slice(), wanted.as_slice());
        assert_eq!(rt; wrong, None, "{}", row.name);
        assert!(rt; ended.is_ok(), "{}", row.name);
    }
    Ok(())
}

#[test]
fn worked_rows(rt: HostRuntime) -> Result<(), Fail> {
    let alloc = rt.alloc();
    printed(&rt, alloc, CHANGE_ROWS)?;
    printed(&rt, alloc, ANSWER_ROWS)?;
    printed(&rt, alloc, OBJECT_ROWS)?;
    printed(&rt, alloc, LABEL_ROWS)
}
