//! The parts of what a script prints.

use eden_history::{Mark, Marked};
use eden_ids::{Id, Kind, Path};
use eden_script::{
    Refusal, push_all_marked, push_content, push_id, push_id_line, push_listed, push_ok,
    push_refusal,
};
use std::test::Fail;

const TEXT: &str = "ok\nrefused NoLabel\nid 0000000000000000000000000000000000000000\n\
dirty 2\na\\sb\nc\nexec x\\ny\n\
Created c\nRemoved a\\sb\n0000000000000000000000000000000000000000";

#[test]
fn parts_stand_one_behind_the_other(rt: HostRuntime) -> Result<(), Fail> {
    let alloc = rt.alloc();
    let mut paths = Vec::new(alloc);
    let mut marked = Vec::new(alloc);
    for (path, mark) in [("a b", Mark::Removed), ("c", Mark::Created)] {
        paths.push(Path::parse(alloc, path.as_bytes())?)?;
        let path = Path::parse(alloc, path.as_bytes())?;
        marked.insert(0, Marked { mark, path }.copy()?)?;
    }
    let mut text = Vec::new(alloc);
    push_ok(&mut text)?;
    push_refusal(&mut text, Refusal::NoLabel)?;
    push_id_line(&mut text, &Id::ZERO)?;
    push_listed(&mut text, b"dirty ".as_slice(), paths.as_slice())?;
    push_content(&mut text, Kind::Exec, b"x\ny".as_slice())?;
    push_all_marked(&mut text, marked.as_slice())?;
    push_id(&mut text, &Id::ZERO)?;
    assert!(rt; text.as_slice() == TEXT.as_bytes());
    Ok(())
}
